//! What a link answers, and what it counts.
ghost use Rattle.std.specs.Prelude.{◌≡◌, ◌≤◌, ◌++◌, List, [], ◌∷◌, map, None, OnOk, OnErr, IfOk, find, reverse, bytes_eq, option_map};
ghost use Rattle.std.specs.List.{last_or};
ghost use Rattle.fluid_door_link.specs.Linking.{Answers, IsCounted, IsSubmission, Takes, few_only, picked_among};

use fluid_json::{LARGEST, NoMemory};
use fluid_loader::{Given, LinkFault, Pick};
use fluid_tree::{Id, SummaryRef};
use fluid_types::{Message, Raw, Submission, Verdict};
use std::alloc::Global;

// ---- acknowledged summaries

/// The one that is picked among acknowledged summaries, oldest first.
pub(crate) fn picked(acks: &[SummaryRef], pick: &Pick) -> Option<SummaryRef>
    ensures { result ≡ picked_among pick.now acks.now }
{
    match pick {
        Pick::Empty => None,
        Pick::Latest => last(acks),
        Pick::Handle(id) => under(id, last_of(acks, id)),
    }
}

fn last(acks: &[SummaryRef]) -> Option<SummaryRef>
    ensures { result ≡ last_or None acks.now }
{
    acks.last().copied()
}

// The last acknowledgement that has this handle.
fn last_of(acks: &[SummaryRef], id: &Id) -> Option<SummaryRef>
    ensures { result ≡ find (λ ack. bytes_eq ack.handle id.now) (reverse acks.now) }
{
    let mut behind = acks.len();
    while 0 < behind {
        behind -= 1;
        let ack = acks[behind];
        if is_of(&ack, id) {
            return Some(ack);
        }
    }
    None
}

fn is_of(ack: &SummaryRef, id: &Id) -> bool
    ensures { result ≡ bytes_eq ack.now.handle id.now }
{
    ack.handle.as_bytes() == id.as_bytes()
}

fn under(id: &Id, ack: Option<SummaryRef>) -> Option<SummaryRef>
    ensures { result ≡ option_map (λ number. record { handle = id.now; number = number }) (option_map (λ ack. ack.number) ack) }
{
    let ack = ack?;
    Some(SummaryRef {
        handle: *id,
        number: ack.number,
    })
}

/// It, where its number is one that a message may have.
pub(crate) fn few(found: Option<SummaryRef>) -> Option<SummaryRef>
    ensures { result ≡ few_only found }
{
    let ack = found?;
    if ack.number <= LARGEST {
        Some(ack)
    } else {
        None
    }
}

// ---- messages

/// Notes the numbers of these messages.
pub(crate) fn note(
    alloc: Global,
    numbers: &mut Vec<u64>,
    messages: &[Message],
) -> Result<(), NoMemory>
    ensures noted { OnOk result (numbers.new.items ≡ numbers.old.items ++ map (λ m. m.number) messages.now) }
    ensures unchanged { OnErr result (numbers.new.items ≡ numbers.old.items) }
{
    let mut more = numbers_of(alloc, messages)?;
    numbers.append(&mut more)?;
    Ok(())
}

fn numbers_of(alloc: Global, messages: &[Message]) -> Result<Vec<u64>, NoMemory>
    ensures { IfOk result (λ numbers. numbers.items ≡ map (λ m. m.number) messages.now) }
{
    let mut numbers = Vec::with_capacity(alloc, messages.len())?;
    for message in messages {
        numbers.push(message.number)?;
    }
    Ok(numbers)
}

// ---- submissions

/// The answer to a verdict: a submission that was nacked is counted, and another kept among those that were taken.
pub(crate) fn answered(
    refusals: &mut u64,
    taken: &mut Vec<Submission>,
    raw: Raw,
    verdict: Verdict,
) -> Result<Given, LinkFault>
    requires { IsSubmission raw }
    ensures { Answers raw verdict refusals.old refusals.new taken.old.items taken.new.items result }
{
    match verdict {
        Verdict::Nacked(nack) => {
            *refusals = refusals.saturating_add(1);
            Ok(Given::Nacked(nack))
        }
        Verdict::Sequenced(_) => take(taken, raw),
        Verdict::Dropped => take(taken, raw),
        Verdict::Absorbed => take(taken, raw),
    }
}

// Keeps a submission that was taken.
fn take(taken: &mut Vec<Submission>, raw: Raw) -> Result<Given, LinkFault>
    requires { IsSubmission raw }
    ensures { Takes raw taken.old.items taken.new.items result }
{
    match raw {
        Raw::Submit { submission, .. } => match taken.push(submission) {
            Ok(()) => Ok(Given::Taken),
            Err(_) => Err(LinkFault::NoMemory),
        },
        Raw::Join { .. } | Raw::Leave { .. } | Raw::Report { .. } => unreachable!(),
    }
}

// ---- faults

/// Counts a fault, and a clash as a refusal.
pub(crate) fn counted(faults: &mut u64, refusals: &mut u64, fault: LinkFault) -> LinkFault
    ensures same { result ≡ fault }
    ensures counted { IsCounted fault faults.old faults.new refusals.old refusals.new }
{
    match fault {
        LinkFault::Failed => {
            *faults = faults.saturating_add(1);
            LinkFault::Failed
        }
        LinkFault::Clash { id, kept, new } => {
            *refusals = refusals.saturating_add(1);
            LinkFault::Clash { id, kept, new }
        }
        LinkFault::NoMemory => LinkFault::NoMemory,
    }
}
