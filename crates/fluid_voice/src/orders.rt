// What is asked of a document's messages and summaries.
ghost use Rattle.std.specs.Prelude.{◌≡◌, List, Ok, None, find, reverse, option_map, bytes_eq};
ghost use Rattle.fluid_types.specs.declared.messages.Message.{Message};
ghost use Rattle.fluid_rules.specs.Scribe.{acks as acks_of};
ghost use Rattle.std.specs.List.{last_or};
ghost use Rattle.fluid_voice.specs.Ends.{placed, bounded, range_asked, out_of_range, summary_asked, summary_among};

use crate::answering::front_nack;
use fluid_codec::{Asked, Reply};
use fluid_tree::SummaryRef;
use fluid_types::{CodecFault, Field, NackRule, What};

/// The most messages that one question may ask for.
const MOST_DELTAS: u64 = 2_048;

/// The numbers from one to before another of an order with this last number, or which of the two is out of range: both
/// are numbers of the order, or the one behind its last, and at most 2,048 messages are asked for.
#[tactic(auto, unfolding(crate::specs::Ends::range_asked))]
pub fn range_asked(last: u64, from: i64, to: i64) -> Result<(u64, u64), Field>
    ensures { result ≡ range_asked last from to }
{
    let first = placed(Field::From, last, from)?;
    let end = placed(Field::To, last, to)?;
    bounded(first, end)
}

fn placed(field: Field, last: u64, number: i64) -> Result<u64, Field>
    ensures { result ≡ placed field last number }
{
    if number < 1 {
        return Err(field);
    }
    let number = number as u64;
    if number - 1 > last {
        return Err(field);
    }
    Ok(number)
}

fn bounded(first: u64, end: u64) -> Result<(u64, u64), Field>
    ensures { result ≡ bounded first (Ok end) }
{
    if first <= end && end - first <= MOST_DELTAS {
        return Ok((first, end));
    }
    Err(Field::To)
}

/// The reply to a range that is out of range there.
pub fn out_of_range(field: Field) -> Reply
    ensures { result ≡ out_of_range field }
{
    let fault = CodecFault::BadField(field, What::OutOfRange);
    Reply::Nacked {
        name: None,
        nack: front_nack(NackRule::Unread(fault)),
    }
}

/// The handle and the number of the summary that is asked for, among the acknowledged ones of an order, oldest first.
pub fn summary_asked(acks: &[SummaryRef], asked: &Asked) -> Option<([u8; 20], u64)>
    ensures among { result ≡ summary_among acks.now asked.now }
    ensures order { (messages : List Message) → acks.now ≡ acks_of messages → result ≡ summary_asked messages asked.now }
{
    summary_among(acks, asked)
}

fn summary_among(acks: &[SummaryRef], asked: &Asked) -> Option<([u8; 20], u64)>
    ensures { result ≡ summary_among acks.now asked.now }
{
    match asked {
        Asked::Latest => found(last_ack(acks)),
        Asked::Handle(handle) => under(handle, last_of(acks, handle)),
    }
}

fn last_ack(acks: &[SummaryRef]) -> Option<SummaryRef>
    ensures { result ≡ last_or None acks.now }
{
    acks.last().copied()
}

// The last acknowledgement that has this handle.
fn last_of(acks: &[SummaryRef], handle: &[u8; 20]) -> Option<SummaryRef>
    ensures { result ≡ find (λ ack. bytes_eq ack.handle handle.now) (reverse acks.now) }
{
    let mut behind = acks.len();
    while 0 < behind {
        behind -= 1;
        let ack = acks[behind];
        if is_of(&ack, handle) {
            return Some(ack);
        }
    }
    None
}

fn is_of(ack: &SummaryRef, handle: &[u8; 20]) -> bool
    ensures { result ≡ bytes_eq ack.now.handle handle.now }
{
    ack.handle.as_bytes() == handle.as_slice()
}

fn found(ack: Option<SummaryRef>) -> Option<([u8; 20], u64)>
    ensures { result ≡ option_map (λ ack. (ack.handle, ack.number)) ack }
{
    let ack = ack?;
    let mut handle = [0u8; 20];
    handle.copy_from_slice(ack.handle.as_bytes());
    Some((handle, ack.number))
}

fn under(handle: &[u8; 20], ack: Option<SummaryRef>) -> Option<([u8; 20], u64)>
    ensures { result ≡ option_map (λ number. (handle.now, number)) (option_map (λ ack. ack.number) ack) }
{
    let ack = ack?;
    Some((*handle, ack.number))
}
