// What of a scribe's parts lies within an order.
ghost use Rattle.std.specs.Prelude.{◌≡◌, filter};
ghost use Rattle.fluid_scribe.specs.Within.{is_of_order, is_waiting, is_change, is_acknowledged, base_within, within};

use crate::reading::reference_of;
use fluid_quorum::{Acks, Minima, Quorum, ScribeState};
use fluid_tree::SummaryRef;
use fluid_types::{Message, Messages};
use std::alloc::Global;

/// What of these parts lies within an order of so many messages. Takes no memory.
#[tactic(auto, unfolding(crate::specs::Within::within))]
pub(crate) fn within(last: u64, state: ScribeState) -> ScribeState
    ensures { result ≡ within last state }
{
    let ScribeState {
        base,
        behind,
        minima,
        pending,
        acks,
    } = state;
    let acks = acks.into_vec();
    let base = base_within(*acks.allocator(), last, base);
    let behind = behind_within(last, behind);
    let minima = minima_within(base.number(), last, minima);
    let pending = pending_within(last, pending);
    ScribeState {
        base,
        behind,
        minima,
        pending,
        acks: acks_within(last, acks),
    }
}

fn base_within(alloc: Global, last: u64, base: Quorum) -> Quorum
    ensures { result ≡ base_within last base }
{
    let number = base.number();
    if number <= last && base.minimum() <= number {
        return base;
    }
    Quorum::new(alloc)
}

fn is_of_order(last: u64, message: &Message) -> bool
    ensures { result ≡ is_of_order last message.now }
{
    let number = message.number;
    1 <= number && number <= last && message.minimum <= number
}

fn is_waiting(last: u64, message: &Message) -> bool
    ensures { result ≡ is_waiting last message.now }
{
    is_of_order(last, message) && reference_of(message) <= message.number
}

fn behind_within(last: u64, messages: Messages) -> Messages
    ensures { result ≡ filter (is_of_order last) messages }
{
    let mut messages = messages.into_vec();
    messages.retain(|message| is_of_order(last, message));
    Messages::new(messages)
}

fn pending_within(last: u64, messages: Messages) -> Messages
    ensures { result ≡ filter (is_waiting last) messages }
{
    let mut messages = messages.into_vec();
    messages.retain(|message| is_waiting(last, message));
    Messages::new(messages)
}

fn minima_within(base: u64, last: u64, minima: Minima) -> Minima
    ensures { result ≡ filter (is_change base last) minima }
{
    let mut changes = minima.into_vec();
    changes.retain(|change| base < change.0 && change.0 <= last && change.1 <= change.0);
    Minima::new(changes)
}

fn acks_within(last: u64, acks: Vec<SummaryRef>) -> Acks
    ensures { result ≡ filter (is_acknowledged last) acks.items }
{
    let mut acks = acks;
    acks.retain(|ack| ack.number <= last);
    Acks::new(acks)
}
