//! How messages are pushed.
ghost use Rattle.std.specs.Prelude.{◌≡◌, ◌≤◌, IfSome};
ghost use Rattle.fluid_deltas.specs.Pushed.{IsKeepable, pushed};

use crate::forgetful::Forgetful;
use fluid_codec::{print_message, printed_is_read_back};
use fluid_deltas::{Deltas, RESIDENT};
use fluid_json::{Json, LARGEST};
use fluid_log::{Keeper, LONGEST_KEPT};
use fluid_types::{Kind, Message};
use std::alloc::Global;

// A small message of this number, where it can be kept.
fn message(alloc: Global, number: u64) -> Option<Message>
    ensures { IfSome result (λ message. (message.number ≡ number) × IsKeepable message) }
{
    printed_is_read_back();
    let message = Message {
        client: None,
        client_number: -1,
        reference: -1,
        number,
        minimum: 0,
        kind: Kind::Op,
        contents: Json::null(),
        system: None,
        metadata: None,
        moment: 0,
    };
    let length = print_message(alloc, &message).ok()?.as_str().len();
    (number <= LARGEST && length <= LONGEST_KEPT).then_some(message)
}

// Pushes one message more.
fn push_next(alloc: Global, deltas: &mut Deltas, keeper: &mut Forgetful) -> Option<()> {
    if deltas.full() {
        if keeper.deltas() < deltas.before() {
            return None;
        }
        deltas.make_room(alloc, keeper).ok()?;
    }
    if deltas.resident() >= RESIDENT as u64 || deltas.len() >= LARGEST {
        return None;
    }
    deltas.reserve(alloc).ok()?;
    let next = message(alloc, deltas.len() + 1)?;
    deltas.push(next);
    Some(())
}

/// Pushes so many messages, and gives how many were pushed and the most that were in memory at once. None where there isn't
/// memory enough.
pub(crate) fn push_all(alloc: Global, count: u64) -> Option<(u64, u64)> {
    let mut deltas = Deltas::new(alloc);
    let mut keeper = Forgetful::new();
    let mut most = 0;
    for _ in 0..count {
        push_next(alloc, &mut deltas, &mut keeper)?;
        most = most.max(deltas.resident());
    }
    Some((deltas.len(), most))
}
