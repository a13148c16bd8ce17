//! A keeper on three disks.
ghost use Rattle.std.specs.Prelude.{◌≡◌, ◌+◌, ◌-◌, ◌<◌, ◌≤◌, ◌⊎◌, ℕ, List, length, Some, IfOk, IfErr};
ghost use Rattle.fluid_io.specs.Causes.{HasCause, Rose, Tells, one_more};
ghost use Rattle.fluid_log.specs.Calls.{IsCaused, KeepsSame, AppendDoes, CutDoes, PutDeltaDoes, StoreDoes, Gives, reads_after, RoseAt};
ghost use Rattle.fluid_disk.specs.Disk.{LeavesOnly};
ghost use Rattle.fluid_disk.specs.Files.{Row, StandsFor, Opens, OpensAppending, OpensCutting};
ghost use Rattle.fluid_disk_keeper.specs.Keepers.{AreOpened, AreGivenBack, AllLeaveFound, disks_under, LeavesRow, AppendsTo, CutsTo, ReadsFrom, LogAlone, DeltasAlone, CheckpointsAlone, done, kept_on};

use fluid_disk::{Disk, RecordFile};
use fluid_io::Failed;
use fluid_json::Bytes;
use fluid_log::{Keeper, KeeperFault, LONGEST_KEPT};
use std::alloc::Global;
use std::marker::Model;

/// The disks of one document.
#[derive(Drop)]
pub struct Disks<D> {
    pub log: D,
    pub deltas: D,
    pub checkpoints: D,
}

impl<D> Disks<D> {
    fn of(log: D, deltas: D, checkpoints: D) -> Disks<D>
        ensures { (result.log ≡ log) × ((result.deltas ≡ deltas) × (result.checkpoints ≡ checkpoints)) }
    {
        Disks {
            log,
            deltas,
            checkpoints,
        }
    }
}

/// What keeps one document on three disks, a record file each.
#[derive(Drop)]
pub struct DiskKeeper<D: Disk> {
    log: RecordFile<D>,
    deltas: RecordFile<D>,
    checkpoints: RecordFile<D>,
    faults: u64,
    reads: u64,
}

impl<D: Disk> Model for DiskKeeper<D> {
    ghost use Rattle.fluid_disk_keeper.specs.Keepers.{DiskKeeping, disk_keeping_code};

    ghost Value = { DiskKeeping D };

    ghost coded = { disk_keeping_code D D.code };

    ghost view = { λ k. record { log = k.log; deltas = k.deltas; checkpoints = k.checkpoints; faults = k.faults; reads = k.reads } };
}

impl<D: Disk> DiskKeeper<D> {
    /// Opens the three disks, which a crash may have left. A fault gives them back, and opening finds in them what it
    /// would have found.
    pub fn open(alloc: Global, disks: Disks<D>) -> Result<DiskKeeper<D>, (Disks<D>, KeeperFault)>
        ensures opened { IfOk result (AreOpened D.seen D.may_leave disks) }
        ensures back { IfErr result (λ back. AreGivenBack D.seen disks back.0 back.1) }
        ensures crash { IfOk result (λ keeper. AllLeaveFound D.seen D.may_leave D.moment D.left_since disks (disks_under keeper)) }
        ensures crash_err { IfErr result (λ back. AllLeaveFound D.seen D.may_leave D.moment D.left_since disks back.0) }
    {
        let Disks {
            log,
            deltas,
            checkpoints,
        } = disks;
        let log = match RecordFile::open(alloc, log) {
            Ok(log) => log,
            Err((log, fault)) => return Err((Disks::of(log, deltas, checkpoints), fault)),
        };
        let deltas = match RecordFile::open(alloc, deltas) {
            Ok(deltas) => deltas,
            Err((deltas, fault)) => {
                return Err((Disks::of(log.close(), deltas, checkpoints), fault));
            }
        };
        let checkpoints = match RecordFile::open(alloc, checkpoints) {
            Ok(checkpoints) => checkpoints,
            Err((checkpoints, fault)) => {
                return Err((Disks::of(log.close(), deltas.close(), checkpoints), fault));
            }
        };
        Ok(DiskKeeper {
            log,
            deltas,
            checkpoints,
            faults: 0,
            reads: 0,
        })
    }

    /// Gives the disks back as they are. A crash of them leaves what their files stand for.
    pub fn close(self) -> Disks<D>
        ensures log { result.log ≡ self.log.disk }
        ensures deltas { result.deltas ≡ self.deltas.disk }
        ensures checkpoints { result.checkpoints ≡ self.checkpoints.disk }
        ensures crash_log { LeavesRow D.seen D.may_leave self.log result.log }
        ensures crash_deltas { LeavesRow D.seen D.may_leave self.deltas result.deltas }
        ensures crash_checkpoints { LeavesRow D.seen D.may_leave self.checkpoints result.checkpoints }
    {
        known(&self.log);
        known(&self.deltas);
        known(&self.checkpoints);
        let DiskKeeper {
            log,
            deltas,
            checkpoints,
            ..
        } = self;
        Disks::of(log.close(), deltas.close(), checkpoints.close())
    }

    // Counts a fault that is none of a disk.
    pub(crate) fn count_fault(&mut self)
        ensures counted { self.new ≡ record self.old { faults = one_more self.old.faults } }
        ensures rose { Rose self.old.faults self.new.faults }
        ensures later { self.old.faults ≤ self.new.faults }
        ensures crash { LeavesRow D.seen D.may_leave self.old.log self.old.log.disk }
    {
        known(&self.log);
        self.faults = self.faults.saturating_add(1);
    }
}

impl<D: Disk> Keeper for DiskKeeper<D> {
    ghost use Rattle.fluid_disk_keeper.specs.Keepers.{kept_on, keeps_lengths};

    ghost seen = { kept_on D.seen };

    ghost sized = { keeps_lengths D.seen };

    fn faults(&self) -> u64 {
        self.faults
    }

    fn len(&self) -> u64 {
        self.log.len()
    }

    fn deltas(&self) -> u64 {
        self.deltas.len()
    }

    fn checkpoints(&self) -> u64 {
        self.checkpoints.len()
    }

    /// A crash at any moment of it leaves the log as it was, or with the record behind it; from an `Ok` on each leaves it.
    fn append(&mut self, alloc: Global, bytes: &[u8]) -> Result<(), KeeperFault>
        requires { length bytes.now ≤ LONGEST_KEPT }
        ensures cause { IsCaused self.old.faults self.new.faults result }
        ensures reads { self.new.reads ≡ self.old.reads }
        ensures does { AppendDoes bytes.now (kept_on D.seen self.old) (kept_on D.seen self.new) result }
        ensures file { AppendsTo D.seen D.may_leave D.moment D.left_since bytes.now self.old.log self.new.log result }
        ensures others { LogAlone self.old self.new }
    {
        known(&self.log);
        match self.log.append(alloc, bytes) {
            Ok(()) => Ok(()),
            Err(fault) => {
                self.faults = counted(self.faults, fault);
                Err(fault)
            }
        }
    }

    fn read(&mut self, alloc: Global, place: u64) -> Result<Bytes, KeeperFault>
        requires { place < (kept_on D.seen self.old).records }
        ensures cause { IsCaused self.old.faults self.new.faults result }
        ensures reads { self.new.reads ≡ reads_after self.old.reads result }
        ensures same { KeepsSame (kept_on D.seen self.old) (kept_on D.seen self.new) }
        ensures gives { Gives (λ content. content.log) place (kept_on D.seen self.old) result }
        ensures file { ReadsFrom D.seen D.may_leave D.moment D.left_since self.old.log self.new.log result }
        ensures others { LogAlone self.old self.new }
    {
        known(&self.log);
        match self.log.read(alloc, place) {
            Ok(bytes) => {
                self.reads = self.reads.saturating_add(1);
                Ok(bytes)
            }
            Err(fault) => {
                self.faults = counted(self.faults, fault);
                Err(fault)
            }
        }
    }

    /// A crash at any moment of it leaves the log as it was, or its first `count` records.
    fn cut(&mut self, count: u64) -> Result<(), Failed>
        requires { count ≤ (kept_on D.seen self.old).records }
        ensures cause { HasCause self.old.faults self.new.faults result }
        ensures reads { self.new.reads ≡ self.old.reads }
        ensures does { CutDoes count (kept_on D.seen self.old) (kept_on D.seen self.new) result }
        ensures file { CutsTo D.seen D.may_leave D.moment D.left_since count self.old.log self.new.log result }
        ensures others { LogAlone self.old self.new }
    {
        known(&self.log);
        match self.log.cut(count) {
            Ok(()) => Ok(()),
            Err(failed) => {
                self.faults = self.faults.saturating_add(1);
                Err(failed)
            }
        }
    }

    fn put_delta(&mut self, alloc: Global, _number: u64, bytes: &[u8]) -> Result<(), KeeperFault>
        requires next { _number ≡ (kept_on D.seen self.old).deltas + 1 }
        requires short { length bytes.now ≤ LONGEST_KEPT }
        ensures cause { IsCaused self.old.faults self.new.faults result }
        ensures reads { self.new.reads ≡ self.old.reads }
        ensures does { PutDeltaDoes bytes.now (kept_on D.seen self.old) (kept_on D.seen self.new) result }
        ensures file { AppendsTo D.seen D.may_leave D.moment D.left_since bytes.now self.old.deltas self.new.deltas result }
        ensures others { DeltasAlone self.old self.new }
    {
        known(&self.deltas);
        match self.deltas.append(alloc, bytes) {
            Ok(()) => Ok(()),
            Err(fault) => {
                self.faults = counted(self.faults, fault);
                Err(fault)
            }
        }
    }

    fn delta(&mut self, alloc: Global, number: u64) -> Result<Bytes, KeeperFault>
        requires first { 0 < number }
        requires last { number ≤ (kept_on D.seen self.old).deltas }
        ensures cause { IsCaused self.old.faults self.new.faults result }
        ensures reads { self.new.reads ≡ self.old.reads }
        ensures same { KeepsSame (kept_on D.seen self.old) (kept_on D.seen self.new) }
        ensures gives { Gives (λ content. content.deltas) (number - 1) (kept_on D.seen self.old) result }
        ensures file { ReadsFrom D.seen D.may_leave D.moment D.left_since self.old.deltas self.new.deltas result }
        ensures others { DeltasAlone self.old self.new }
    {
        known(&self.deltas);
        match self.deltas.read(alloc, number - 1) {
            Ok(bytes) => Ok(bytes),
            Err(fault) => {
                self.faults = counted(self.faults, fault);
                Err(fault)
            }
        }
    }

    fn store_checkpoint(&mut self, alloc: Global, bytes: &[u8]) -> Result<u64, KeeperFault>
        requires { length bytes.now ≤ LONGEST_KEPT }
        ensures cause { IsCaused self.old.faults self.new.faults result }
        ensures reads { self.new.reads ≡ self.old.reads }
        ensures does { StoreDoes bytes.now (kept_on D.seen self.old) (kept_on D.seen self.new) result }
        ensures file { AppendsTo D.seen D.may_leave D.moment D.left_since bytes.now self.old.checkpoints self.new.checkpoints (done result) }
        ensures others { CheckpointsAlone self.old self.new }
    {
        known(&self.checkpoints);
        let number = self.checkpoints.len();
        match self.checkpoints.append(alloc, bytes) {
            Ok(()) => Ok(number),
            Err(fault) => {
                self.faults = counted(self.faults, fault);
                Err(fault)
            }
        }
    }

    fn checkpoint(&mut self, alloc: Global, number: u64) -> Result<Bytes, KeeperFault>
        requires { number < (kept_on D.seen self.old).checkpoints }
        ensures cause { IsCaused self.old.faults self.new.faults result }
        ensures reads { self.new.reads ≡ self.old.reads }
        ensures same { KeepsSame (kept_on D.seen self.old) (kept_on D.seen self.new) }
        ensures gives { Gives (λ content. content.checkpoints) number (kept_on D.seen self.old) result }
        ensures file { ReadsFrom D.seen D.may_leave D.moment D.left_since self.old.checkpoints self.new.checkpoints result }
        ensures others { CheckpointsAlone self.old self.new }
    {
        known(&self.checkpoints);
        match self.checkpoints.read(alloc, number) {
            Ok(bytes) => Ok(bytes),
            Err(fault) => {
                self.faults = counted(self.faults, fault);
                Err(fault)
            }
        }
    }
}

// A keeper's count behind a fault of one of its files.
fn counted(faults: u64, fault: KeeperFault) -> u64
    ensures rose { RoseAt faults result fault }
    ensures later { faults ≤ result }
{
    match fault {
        KeeperFault::Failed => faults.saturating_add(1),
        KeeperFault::NoMemory => faults,
    }
}

// Tells a proof that a file stands for a list, and that a crash now leaves it. It does nothing else.
fn known<D: Disk>(file: &RecordFile<D>)
    ensures stands { (row : Row) × StandsFor D.seen D.may_leave row file.now }
    ensures crash { LeavesRow D.seen D.may_leave file.now file.now.disk }
{
    let _count = file.len();
}
