//! What a keeper is.
ghost use Rattle.std.specs.Prelude.{◌≡◌, ℕ, ◌+◌, ◌-◌, ◌<◌, ◌≤◌, length};
ghost use Rattle.fluid_io.specs.Causes.{HasCause};
ghost use Rattle.fluid_log.specs.Keeping.{Keeping, IsSized};
ghost use Rattle.fluid_log.specs.Calls.{IsCaused, KeepsSame, AppendDoes, CutDoes, PutDeltaDoes, StoreDoes, Gives, reads_after};

use crate::KeeperFault;
use fluid_io::Failed;
use fluid_json::Bytes;
use std::alloc::Global;

/// The most bytes of one record, delta or checkpoint: 1 GiB.
pub const LONGEST_KEPT: usize = 1 << 30;

/// What keeps one document: a log that grows at its end and can be cut, the deltas, which are put one by one for the
/// messages from number 1 on, and the checkpoints. All three are bytes of any kind. Whether a keeper tells its content
/// never changes, and its counts never fall.
pub trait Keeper {
    /// The content, where the keeper tells it, its three lengths and its counts.
    ghost seen: { Self → Keeping };

    /// The lengths are those of the content.
    ghost sized: { (keeper : Self) → IsSized (seen keeper) };

    /// How many faults were counted.
    fn faults(&self) -> u64
        ensures { result ≡ (seen self.now).faults };

    /// How many records the log has.
    fn len(&self) -> u64
        ensures { result ≡ (seen self.now).records };

    /// How many deltas are kept.
    fn deltas(&self) -> u64
        ensures { result ≡ (seen self.now).deltas };

    /// How many checkpoints are stored.
    fn checkpoints(&self) -> u64
        ensures { result ≡ (seen self.now).checkpoints };

    /// Adds a record at the end of the log. An append that failed may have added it all the same.
    fn append(&mut self, alloc: Global, bytes: &[u8]) -> Result<(), KeeperFault>
        requires { length bytes.now ≤ LONGEST_KEPT }
        ensures cause { IsCaused (seen self.old).faults (seen self.new).faults result }
        ensures reads { (seen self.new).reads ≡ (seen self.old).reads }
        ensures does { AppendDoes bytes.now (seen self.old) (seen self.new) result };

    /// The record in this place of the log, counted from 0.
    fn read(&mut self, alloc: Global, place: u64) -> Result<Bytes, KeeperFault>
        requires { place < (seen self.old).records }
        ensures cause { IsCaused (seen self.old).faults (seen self.new).faults result }
        ensures reads { (seen self.new).reads ≡ reads_after (seen self.old).reads result }
        ensures same { KeepsSame (seen self.old) (seen self.new) }
        ensures gives { Gives (λ content. content.log) place (seen self.old) result };

    /// Cuts the log down to its first `count` records. After a fault the log is as it was.
    fn cut(&mut self, count: u64) -> Result<(), Failed>
        requires { count ≤ (seen self.old).records }
        ensures cause { HasCause (seen self.old).faults (seen self.new).faults result }
        ensures reads { (seen self.new).reads ≡ (seen self.old).reads }
        ensures does { CutDoes count (seen self.old) (seen self.new) result };

    /// Keeps the text of message `number`, which is the next one. After a fault nothing was kept.
    fn put_delta(&mut self, alloc: Global, number: u64, bytes: &[u8]) -> Result<(), KeeperFault>
        requires next { number ≡ (seen self.old).deltas + 1 }
        requires short { length bytes.now ≤ LONGEST_KEPT }
        ensures cause { IsCaused (seen self.old).faults (seen self.new).faults result }
        ensures reads { (seen self.new).reads ≡ (seen self.old).reads }
        ensures does { PutDeltaDoes bytes.now (seen self.old) (seen self.new) result };

    /// The text of message `number`, counted from 1.
    fn delta(&mut self, alloc: Global, number: u64) -> Result<Bytes, KeeperFault>
        requires first { 0 < number }
        requires last { number ≤ (seen self.old).deltas }
        ensures cause { IsCaused (seen self.old).faults (seen self.new).faults result }
        ensures reads { (seen self.new).reads ≡ (seen self.old).reads }
        ensures same { KeepsSame (seen self.old) (seen self.new) }
        ensures gives { Gives (λ content. content.deltas) (number - 1) (seen self.old) result };

    /// Stores a checkpoint, and gives its number, counted from 0. After a fault nothing was stored.
    fn store_checkpoint(&mut self, alloc: Global, bytes: &[u8]) -> Result<u64, KeeperFault>
        requires { length bytes.now ≤ LONGEST_KEPT }
        ensures cause { IsCaused (seen self.old).faults (seen self.new).faults result }
        ensures reads { (seen self.new).reads ≡ (seen self.old).reads }
        ensures does { StoreDoes bytes.now (seen self.old) (seen self.new) result };

    /// The checkpoint of this number.
    fn checkpoint(&mut self, alloc: Global, number: u64) -> Result<Bytes, KeeperFault>
        requires { number < (seen self.old).checkpoints }
        ensures cause { IsCaused (seen self.old).faults (seen self.new).faults result }
        ensures reads { (seen self.new).reads ≡ (seen self.old).reads }
        ensures same { KeepsSame (seen self.old) (seen self.new) }
        ensures gives { Gives (λ content. content.checkpoints) number (seen self.old) result };
}

/// Tells a proof that a keeper which tells its content has the lengths of it. It does nothing else.
pub fn is_sized<K: Keeper>(keeper: &K)
    ensures { IsSized (K.seen keeper.now) }
{
    let _ = keeper;
}
