//! A keeper on three disks whose log only grows.
ghost use Rattle.std.specs.Prelude.{◌≡◌, ◌+◌, ◌-◌, ◌<◌, ◌≤◌, ℕ, List, length, IfOk, IfErr};
ghost use Rattle.fluid_io.specs.Causes.{HasCause, Tells};
ghost use Rattle.fluid_log.specs.Calls.{IsCaused, KeepsSame, AppendDoes, CutDoes, Gives, reads_after};
ghost use Rattle.fluid_disk.specs.Disk.{LeavesOnly};
ghost use Rattle.fluid_disk_keeper.specs.Keepers.{AreOpened, AreGivenBack, AllLeaveFound, disks_under, kept_on};
ghost use Rattle.fluid_disk_keeper.specs.Growing.{LeavesWhole};

use crate::{DiskKeeper, Disks};
use fluid_disk::Disk;
use fluid_io::Failed;
use fluid_json::Bytes;
use fluid_log::{Keeper, KeeperFault, LONGEST_KEPT};
use std::alloc::Global;
use std::marker::Model;

/// What keeps a document on three disks for somebody who never wants a record back: a cut below the length of the log fails, and
/// is counted. So no cut is ever owed, and a crash at any moment leaves the whole log. A document's order only cuts off what
/// stands behind its entries, and in a record file nothing does: an append that failed isn't in its list.
#[derive(Drop)]
pub struct GrowingKeeper<D: Disk> {
    keeper: DiskKeeper<D>,
}

impl<D: Disk> Model for GrowingKeeper<D> {
    ghost use Rattle.fluid_disk_keeper.specs.Keepers.{DiskKeeping, disk_keeping_code};
    ghost use Rattle.fluid_disk_keeper.specs.Growing.{OwesNoCut};

    ghost Value = { DiskKeeping D };

    ghost coded = { disk_keeping_code D D.code };

    ghost view = { λ g. g.keeper };

    ghost invariant = { λ g. OwesNoCut D.seen D.may_leave g.keeper.log };
}

impl<D: Disk> GrowingKeeper<D> {
    /// Opens the three disks, which a crash may have left. A fault gives them back, and opening finds in them what it would
    /// have found.
    pub fn open(alloc: Global, disks: Disks<D>) -> Result<GrowingKeeper<D>, (Disks<D>, KeeperFault)>
        ensures opened { IfOk result (AreOpened D.seen D.may_leave disks) }
        ensures back { IfErr result (λ back. AreGivenBack D.seen disks back.0 back.1) }
        ensures crash { IfOk result (λ keeper. AllLeaveFound D.seen D.may_leave D.moment D.left_since disks (disks_under keeper)) }
        ensures crash_err { IfErr result (λ back. AllLeaveFound D.seen D.may_leave D.moment D.left_since disks back.0) }
    {
        match DiskKeeper::open(alloc, disks) {
            Ok(keeper) => Ok(GrowingKeeper { keeper }),
            Err(back) => Err(back),
        }
    }

    /// Gives the disks back as they are. A crash of the log's disk leaves the whole log.
    pub fn close(self) -> Disks<D>
        ensures log { result.log ≡ self.log.disk }
        ensures deltas { result.deltas ≡ self.deltas.disk }
        ensures checkpoints { result.checkpoints ≡ self.checkpoints.disk }
        ensures crash { Tells (kept_on D.seen self).content (λ c. (image : List ℕ) → D.may_leave result.log image → LeavesWhole c.log image) }
    {
        let GrowingKeeper { keeper } = self;
        keeper.close()
    }
}

impl<D: Disk> Keeper for GrowingKeeper<D> {
    ghost use Rattle.fluid_disk_keeper.specs.Keepers.{kept_on, keeps_lengths};

    ghost seen = { kept_on D.seen };

    ghost sized = { keeps_lengths D.seen };

    fn faults(&self) -> u64 {
        self.keeper.faults()
    }

    fn len(&self) -> u64 {
        self.keeper.len()
    }

    fn deltas(&self) -> u64 {
        self.keeper.deltas()
    }

    fn checkpoints(&self) -> u64 {
        self.keeper.checkpoints()
    }

    /// A crash at any moment of it leaves the log as it was, or with one record behind it.
    fn append(&mut self, alloc: Global, bytes: &[u8]) -> Result<(), KeeperFault>
        requires { length bytes.now ≤ LONGEST_KEPT }
        ensures cause { IsCaused self.old.faults self.new.faults result }
        ensures reads { self.new.reads ≡ self.old.reads }
        ensures does { AppendDoes bytes.now (kept_on D.seen self.old) (kept_on D.seen self.new) result }
        ensures crash { Tells (kept_on D.seen self.old).content (λ c. LeavesOnly D.moment D.left_since self.old.log.disk self.new.log.disk (LeavesWhole c.log)) }
    {
        self.keeper.append(alloc, bytes)
    }

    fn read(&mut self, alloc: Global, place: u64) -> Result<Bytes, KeeperFault>
        requires { place < (kept_on D.seen self.old).records }
        ensures cause { IsCaused self.old.faults self.new.faults result }
        ensures reads { self.new.reads ≡ reads_after self.old.reads result }
        ensures same { KeepsSame (kept_on D.seen self.old) (kept_on D.seen self.new) }
        ensures gives { Gives (λ content. content.log) place (kept_on D.seen self.old) result }
        ensures crash { Tells (kept_on D.seen self.old).content (λ c. LeavesOnly D.moment D.left_since self.old.log.disk self.new.log.disk (LeavesWhole c.log)) }
    {
        self.keeper.read(alloc, place)
    }

    /// Fails where the log is longer. A crash at any moment of it leaves the log as it was, or with one record behind it.
    fn cut(&mut self, count: u64) -> Result<(), Failed>
        requires { count ≤ (kept_on D.seen self.old).records }
        ensures cause { HasCause self.old.faults self.new.faults result }
        ensures reads { self.new.reads ≡ self.old.reads }
        ensures does { CutDoes count (kept_on D.seen self.old) (kept_on D.seen self.new) result }
        ensures crash { Tells (kept_on D.seen self.old).content (λ c. LeavesOnly D.moment D.left_since self.old.log.disk self.new.log.disk (LeavesWhole c.log)) }
    {
        if count < self.keeper.len() {
            self.keeper.count_fault();
            return Err(Failed);
        }
        self.keeper.cut(count)
    }

    fn put_delta(&mut self, alloc: Global, number: u64, bytes: &[u8]) -> Result<(), KeeperFault> {
        self.keeper.put_delta(alloc, number, bytes)
    }

    fn delta(&mut self, alloc: Global, number: u64) -> Result<Bytes, KeeperFault> {
        self.keeper.delta(alloc, number)
    }

    fn store_checkpoint(&mut self, alloc: Global, bytes: &[u8]) -> Result<u64, KeeperFault> {
        self.keeper.store_checkpoint(alloc, bytes)
    }

    fn checkpoint(&mut self, alloc: Global, number: u64) -> Result<Bytes, KeeperFault> {
        self.keeper.checkpoint(alloc, number)
    }
}
