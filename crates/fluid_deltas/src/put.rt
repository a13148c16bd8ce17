//! How messages come into a keeper.
ghost use Rattle.std.specs.Prelude.{◌≡◌, ◌+◌, ◌≤◌, IfErr, All};
ghost use Rattle.fluid_types.specs.Order.{AreNumberedFrom};
ghost use Rattle.fluid_deltas.specs.Pushed.{IsKeepable};
ghost use Rattle.fluid_deltas.specs.Ranges.{IsNoted, IsFaultOf, IsNotBad};
ghost use Rattle.fluid_deltas.specs.Flushes.{PutsOne, PutsAll};

use crate::DeltaFault;
use fluid_codec::print_message;
use fluid_io::FaultNote;
use fluid_log::{Keeper, KeeperFault};
use fluid_types::Message;
use std::alloc::Global;

// The fault of a keeper that failed, whose count of faults was read before the call.
pub(crate) fn failed<K: Keeper>(before: u64, keeper: &K) -> DeltaFault
    ensures { result ≡ DeltaFault.DeltaFailed (record { before = before; after = (K.seen keeper.now).faults }) }
{
    DeltaFault::DeltaFailed(FaultNote {
        before,
        after: keeper.faults(),
    })
}

// Puts the text of the next message.
pub(crate) fn put<K: Keeper>(
    alloc: Global,
    keeper: &mut K,
    message: &Message,
) -> Result<(), DeltaFault>
    requires next { message.now.number ≡ (K.seen keeper.old).deltas + 1 }
    requires keepable { IsKeepable message.now }
    ensures later { (K.seen keeper.old).faults ≤ (K.seen keeper.new).faults }
    ensures cause { IfErr result (IsFaultOf (K.seen keeper.old).faults (K.seen keeper.new).faults) }
    ensures never_bad { IfErr result IsNotBad }
    ensures reads { (K.seen keeper.new).reads ≡ (K.seen keeper.old).reads }
    ensures puts { PutsOne message.now (K.seen keeper.old) (K.seen keeper.new) result }
{
    let printed = print_message(alloc, message)?;
    let text = printed.as_str();
    let before = keeper.faults();
    match keeper.put_delta(alloc, message.number, text.as_bytes()) {
        Ok(()) => Ok(()),
        Err(KeeperFault::Failed) => Err(failed(before, keeper)),
        Err(KeeperFault::NoMemory) => Err(DeltaFault::NoMemory),
    }
}
