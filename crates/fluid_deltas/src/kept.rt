//! How messages come back from a keeper.
ghost use Rattle.std.specs.Prelude.{◌≡◌, ℕ, ◌+◌, ◌-◌, ◌<◌, ◌≤◌, [], max, IfOk, IfErr};
ghost use Rattle.fluid_io.specs.Causes.{Tells};
ghost use Rattle.fluid_json.specs.Unless.{IsUnless};
ghost use Rattle.fluid_log.specs.Calls.{KeepsSame};
ghost use Rattle.fluid_types.specs.Messages.{message_spelled};
ghost use Rattle.fluid_deltas.specs.Stored.{numbered_as, delta_message, delta_messages};
ghost use Rattle.fluid_deltas.specs.Ranges.{IsFaultOf, IsBadAt, IsBadIn, IsAnswer, IsHeldAnswer, DecodesAs, AreNumbersOf, deltas_between};

use crate::DeltaFault;
use crate::put::failed;
use fluid_codec::read_message;
use fluid_log::{Keeper, KeeperFault};
use fluid_types::{CodecFault, Message};
use std::alloc::Global;
use std::str;

// The message that was read, where it has the number of its delta.
fn numbered(number: u64, message: Message) -> Result<Message, DeltaFault>
    ensures { result ≡ numbered_as number (Ok message) }
{
    if message.number == number {
        return Ok(message);
    }
    Err(DeltaFault::BadDelta(number))
}

// The message that a text spells, as the delta of this number.
fn spelled(alloc: Global, number: u64, text: &str) -> Result<Message, DeltaFault>
    ensures { IsUnless DeltaFault.NoMemory result (numbered_as number (message_spelled text.now)) }
{
    match read_message(alloc, text) {
        Ok(message) => numbered(number, message),
        Err(CodecFault::NoMemory) => Err(DeltaFault::NoMemory),
        Err(_) => Err(DeltaFault::BadDelta(number)),
    }
}

// The message that the kept bytes spell, as the delta of this number.
fn decoded(alloc: Global, number: u64, bytes: &[u8]) -> Result<Message, DeltaFault>
    ensures { IsUnless DeltaFault.NoMemory result (delta_message number bytes.now) }
{
    match str::from_utf8(bytes) {
        Ok(text) => spelled(alloc, number, text),
        Err(_) => Err(DeltaFault::BadDelta(number)),
    }
}

// The message of the delta of this number, read from a keeper.
fn read_delta<K: Keeper>(alloc: Global, keeper: &mut K, number: u64) -> Result<Message, DeltaFault>
    requires first { 0 < number }
    requires last { number ≤ (K.seen keeper.old).deltas }
    ensures later { (K.seen keeper.old).faults ≤ (K.seen keeper.new).faults }
    ensures cause { IfErr result (IsFaultOf (K.seen keeper.old).faults (K.seen keeper.new).faults) }
    ensures reads { (K.seen keeper.new).reads ≡ (K.seen keeper.old).reads }
    ensures same { KeepsSame (K.seen keeper.old) (K.seen keeper.new) }
    ensures bad { IfErr result (IsBadAt number) }
    ensures number { IfOk result (λ message. message.number ≡ number) }
    ensures decoded { Tells (K.seen keeper.old).content (λ content. DecodesAs content number result) }
{
    let before = keeper.faults();
    match keeper.delta(alloc, number) {
        Ok(bytes) => decoded(alloc, number, bytes.as_slice()),
        Err(KeeperFault::Failed) => Err(failed(before, keeper)),
        Err(KeeperFault::NoMemory) => Err(DeltaFault::NoMemory),
    }
}

// The messages of the deltas in the places from `start` up to `end`, counted from 0.
pub(crate) fn read_deltas<K: Keeper>(
    alloc: Global,
    keeper: &mut K,
    start: u64,
    end: u64,
) -> Result<Vec<Message>, DeltaFault>
    requires last { end ≤ (K.seen keeper.old).deltas }
    ensures later { (K.seen keeper.old).faults ≤ (K.seen keeper.new).faults }
    ensures cause { IfErr result (IsFaultOf (K.seen keeper.old).faults (K.seen keeper.new).faults) }
    ensures reads { (K.seen keeper.new).reads ≡ (K.seen keeper.old).reads }
    ensures same { KeepsSame (K.seen keeper.old) (K.seen keeper.new) }
    ensures bad { IfErr result (IsBadIn (start + 1) (end + 1) end) }
    ensures numbers { IfOk result (λ messages. AreNumbersOf (start + 1) (max start end + 1) messages.items) }
    ensures decoded { Tells (K.seen keeper.old).content (λ content. IsAnswer (λ v. v.items) result (delta_messages (start + 1) (deltas_between content start end))) }
    ensures none { end ≤ start → K.seen keeper.new ≡ K.seen keeper.old }
    ensures nothing { end ≤ start → IsHeldAnswer (λ v. v.items) [] result }
{
    let mut messages = Vec::new(alloc);
    for place in start..end {
        let message = read_delta(alloc, keeper, place + 1)?;
        messages.push(message)?;
    }
    Ok(messages)
}
