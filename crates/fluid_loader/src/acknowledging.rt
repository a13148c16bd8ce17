//! The acknowledged summaries of an order.
ghost use Rattle.std.specs.Prelude.{◌≡◌};
ghost use Rattle.std.specs.List.{list_any};
ghost use Rattle.fluid_rules.specs.Scribe.{ack_of, answered_by, answers, reference_of, unanswered};
ghost use Rattle.fluid_types.specs.Order.{AreFirst};
ghost use Rattle.fluid_loader.specs.Link.{picked};
ghost use Rattle.fluid_loader.specs.Listed.{is_picked, reference_in, waits, wanted};

use crate::Pick;
use crate::container::handling;
use fluid_tree::SummaryRef;
use fluid_types::{Field, Kind, Message};

/// The acknowledged summary that is picked in an order. It is looked for from the end, so what stands before it costs nothing.
pub(crate) fn picked_in(order: &[Message], pick: &Pick) -> Option<SummaryRef>
    requires { AreFirst order.now }
    ensures { result ≡ picked pick.now order.now }
{
    let mut behind = order.len();
    while 0 < behind {
        behind -= 1;
        let ack = ack_of(&order[..behind], &order[behind]);
        if let Some(found) = wanted(pick, ack) {
            return Some(found);
        }
    }
    None
}

// The acknowledgement, where it is one that is picked.
fn wanted(pick: &Pick, ack: Option<SummaryRef>) -> Option<SummaryRef>
    ensures { result ≡ wanted pick.now ack }
{
    let ack = ack?;
    if is_picked(pick, &ack) {
        Some(ack)
    } else {
        None
    }
}

fn is_picked(pick: &Pick, ack: &SummaryRef) -> bool
    ensures { result ≡ is_picked pick.now ack.now }
{
    match pick {
        Pick::Empty => false,
        Pick::Latest => true,
        Pick::Handle(id) => ack.handle.as_bytes() == id.as_bytes(),
    }
}

// The acknowledgement that a message makes behind these.
#[tactic(auto, unfolding(fluid_rules::specs::Scribe::ack_of))]
fn ack_of(before: &[Message], message: &Message) -> Option<SummaryRef>
    requires { AreFirst before.now }
    ensures { result ≡ ack_of before.now message.now }
{
    if message.kind != Kind::SummaryAck {
        return None;
    }
    let handle = handling(&message.contents)?;
    let summary = answered_by(message)?;
    let number = reference_in(before, summary)?;
    Some(SummaryRef { handle, number })
}

// The reference of the unanswered summarize with this number, which stands at its place.
fn reference_in(order: &[Message], number: u64) -> Option<u64>
    requires { AreFirst order.now }
    ensures { result ≡ reference_in number (unanswered order.now) }
{
    if number == 0 || (order.len() as u64) < number {
        return None;
    }
    let place = (number - 1) as usize;
    let message = &order[place];
    if waits(&order[place + 1..], message) {
        Some(reference_of(message))
    } else {
        None
    }
}

// The message is a summarize, and none of those behind it answers it.
fn waits(behind: &[Message], message: &Message) -> bool
    ensures { result ≡ waits behind.now message.now }
{
    message.kind == Kind::Summarize && !is_answered(behind, message.number)
}

// Whether one of these answers the summarize with this number.
fn is_answered(messages: &[Message], number: u64) -> bool
    ensures { result ≡ list_any (answers number) messages.now }
{
    for message in messages {
        if answers(number, message) {
            return true;
        }
    }
    false
}

fn answers(number: u64, message: &Message) -> bool
    ensures { result ≡ answers number message.now }
{
    match answered_by(message) {
        Some(answered) => answered == number,
        None => false,
    }
}

// The number of the summarize that a message answers.
#[tactic(auto, unfolding(fluid_rules::specs::Scribe::answered_by))]
fn answered_by(message: &Message) -> Option<u64>
    ensures { result ≡ answered_by message.now }
{
    if !matches!(message.kind, Kind::SummaryAck | Kind::SummaryNack) {
        return None;
    }
    let proposal = message.contents.member(Field::SummaryProposal.name())?;
    let number = proposal.member(Field::SummarySequenceNumber.name())?;
    let number = number.as_whole()?;
    u64::try_from(number).ok()
}

/// The reference of a message; that of a join, a leave or an answer, which is -1, counts as 0.
pub(crate) fn reference_of(message: &Message) -> u64
    ensures { result ≡ reference_of message.now }
{
    u64::try_from(message.reference).unwrap_or(0)
}
