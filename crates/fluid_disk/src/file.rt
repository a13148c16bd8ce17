//! A record file.
ghost use Rattle.std.specs.Prelude.{◌≡◌, ◌+◌, ◌-◌, ◌*◌, ◌^◌, ◌<◌, ◌≤◌, ◌⊎◌, ℕ, List, length, slice_get, Some, IfOk, IfErr};
ghost use Rattle.fluid_io.specs.Causes.{HasCause, Tells};
ghost use Rattle.fluid_log.specs.Calls.{IsCaused};
ghost use Rattle.fluid_disk.specs.Disk.{LeavesOnly};
ghost use Rattle.fluid_disk.specs.Records.{Finds};
ghost use Rattle.fluid_disk.specs.Files.{Row, StandsFor, Opens, OpensAppending, OpensCutting, AppendsRecord, CutsRecords, IsOpened, IsGivenBack, LeavesFound};

use crate::Disk;
use crate::opening::find;
use crate::owed::Owed;
use crate::reading::piece;
use crate::writing::{append_to, cut_to, gate_of};
use fluid_io::Failed;
use fluid_json::Bytes;
use fluid_log::{KeeperFault, LONGEST_KEPT};
use std::alloc::Global;
use std::marker::Model;

/// A row of records on a disk of its own. Each stands behind a gate, which is opened once the record is on the disk, so that
/// after a crash at any moment opening finds all of them.
#[derive(Drop)]
pub struct RecordFile<D: Disk> {
    disk: D,
    gates: Vec<u64>,
    owed: Owed,
}

impl<D: Disk> Model for RecordFile<D> {
    ghost use Rattle.fluid_disk.specs.Files.{Recording, recording_code, Row, Stands};

    ghost Value = { Recording D };

    ghost coded = { recording_code D D.code };

    ghost view = { λ f. record { disk = f.disk; gates = f.gates.items; owed = f.owed } };

    ghost invariant = { λ f. (row : Row) × Stands D.seen D.may_leave row f.disk f.gates.items f.owed };
}

impl<D: Disk> RecordFile<D> {
    /// Opens a disk that a crash may have left, or an empty one: syncs it, finds the records, and leaves a closed gate behind
    /// them and nothing else. A crash on the way leaves the same records. A fault gives the disk back.
    pub fn open(alloc: Global, disk: D) -> Result<RecordFile<D>, (D, KeeperFault)>
        ensures opened { IfOk result (IsOpened D.seen D.may_leave (D.seen disk)) }
        ensures back { IfErr result (λ back. IsGivenBack (D.seen disk) (D.seen back.0) back.1) }
        ensures crash { IfOk result (λ file. LeavesFound D.seen D.may_leave D.moment D.left_since disk file.disk) }
        ensures crash_err { IfErr result (λ back. LeavesFound D.seen D.may_leave D.moment D.left_since disk back.0) }
    {
        let mut disk = disk;
        match find(alloc, &mut disk) {
            Ok(gates) => Ok(RecordFile {
                disk,
                gates,
                owed: Owed::Nothing,
            }),
            Err(fault) => Err((disk, fault)),
        }
    }

    /// How many records there are.
    pub fn len(&self) -> u64
        ensures count { result + 1 ≡ length self.now.gates }
        ensures stands { (row : Row) × StandsFor D.seen D.may_leave row self.now }
        ensures records { (row : Row) → StandsFor D.seen D.may_leave row self.now → result ≡ length row.records }
        ensures crash { (row : Row) → StandsFor D.seen D.may_leave row self.now → Tells (D.seen self.now.disk).bytes (λ _.
            (image : List ℕ) → D.may_leave self.now.disk image → Opens row image) }
    {
        self.gates.len() as u64 - 1
    }

    /// Appends a record. From an `Ok` on each crash leaves it. One that failed isn't in the list; a crash may leave it behind
    /// the others until it is repaired, which the next call that writes does first.
    pub fn append(&mut self, alloc: Global, bytes: &[u8]) -> Result<(), KeeperFault>
        requires { length bytes.now ≤ LONGEST_KEPT }
        ensures cause { IsCaused (D.seen self.old.disk).faults (D.seen self.new.disk).faults result }
        ensures does { (row : Row) → StandsFor D.seen D.may_leave row self.old → AppendsRecord D.seen D.may_leave row bytes.now self.new result }
        ensures crash { (row : Row) → StandsFor D.seen D.may_leave row self.old → Tells (D.seen self.old.disk).bytes (λ _.
            LeavesOnly D.moment D.left_since self.old.disk self.new.disk (OpensAppending row bytes.now)) }
    {
        append_to(
            alloc,
            &mut self.disk,
            &mut self.gates,
            &mut self.owed,
            bytes,
        )
    }

    /// The record in this place, counted from 0.
    pub fn read(&mut self, alloc: Global, place: u64) -> Result<Bytes, KeeperFault>
        requires { place + 1 < length self.old.gates }
        ensures cause { IsCaused (D.seen self.old.disk).faults (D.seen self.new.disk).faults result }
        ensures same { (row : Row) → StandsFor D.seen D.may_leave row self.old → StandsFor D.seen D.may_leave row self.new }
        ensures gives { (row : Row) → StandsFor D.seen D.may_leave row self.old → Tells (D.seen self.old.disk).bytes (λ _.
            IfOk result (λ bytes. slice_get row.records place ≡ Some bytes)) }
        ensures crash { (row : Row) → StandsFor D.seen D.may_leave row self.old → Tells (D.seen self.old.disk).bytes (λ _.
            LeavesOnly D.moment D.left_since self.old.disk self.new.disk (Opens row)) }
    {
        let place = place as usize;
        let gate = gate_of(&self.gates, place);
        let next = gate_of(&self.gates, place + 1);
        let bytes = piece(alloc, &mut self.disk, gate + 5, (next - gate - 5) as usize)?;
        Ok(Bytes::new(bytes))
    }

    /// Cuts down to the first `count` records. One that failed leaves the list as it was; a crash may leave the records below
    /// it until it is repaired, which the next call that writes does first.
    pub fn cut(&mut self, count: u64) -> Result<(), Failed>
        requires { count < length self.old.gates }
        ensures cause { HasCause (D.seen self.old.disk).faults (D.seen self.new.disk).faults result }
        ensures does { (row : Row) → StandsFor D.seen D.may_leave row self.old → CutsRecords D.seen D.may_leave row count self.new result }
        ensures crash { (row : Row) → StandsFor D.seen D.may_leave row self.old → Tells (D.seen self.old.disk).bytes (λ _.
            LeavesOnly D.moment D.left_since self.old.disk self.new.disk (OpensCutting row count)) }
    {
        cut_to(
            &mut self.disk,
            &mut self.gates,
            &mut self.owed,
            count as usize,
        )
    }

    /// Gives the disk back as it is.
    pub fn close(self) -> D
        ensures { result ≡ self.disk }
    {
        let RecordFile { disk, .. } = self;
        disk
    }
}

/// Opening finds one list in the bytes of a disk, and no other. It does nothing else.
pub fn opening_finds_one_list()
    ensures { (one other : List (List ℕ)) (bytes : List ℕ) → Finds one bytes → Finds other bytes → one ≡ other }
{}
