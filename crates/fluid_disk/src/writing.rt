//! The steps of the calls that write a record file, over its disk, the places of its gates and what it owes.
ghost use Rattle.std.specs.Prelude.{◌≡◌, ◌⊎◌, ◌+◌, ◌-◌, ◌*◌, ◌^◌, ◌<◌, ◌≤◌, ℕ, Some, is_some, List, [], ◌∷◌, ◌++◌, length, IfOk, OnOk, vec_len, vec_capacity};
ghost use Rattle.fluid_io.specs.Causes.{HasCause};
ghost use Rattle.fluid_log.specs.Calls.{IsCaused};
ghost use Rattle.fluid_disk.specs.Disk.{IsDurable, PutDoes, CutDoes, Torn, Cut, Only, LeavesOnly};
ghost use Rattle.fluid_disk.specs.Records.{IsShort, framed, spelled, gates_from, gate_before, IsAtRest};
ghost use Rattle.fluid_disk.specs.Files.{Row, Appending, Cutting, settled, appending, cutting, Keeps, Stands, AddDoes, AppendDoes, DropDoes, CutRow, RepairDoes, TrimDoes, CloseDoes, ReopenDoes};
ghost use Rattle.fluid_disk.specs.declared.owed.Owed.TheVariants as debts;

use crate::Disk;
use crate::owed::Owed;
use crate::reading::byte_at;
use fluid_io::Failed;
use fluid_json::NoMemory;
use fluid_log::{KeeperFault, LONGEST_KEPT};
use std::alloc::Global;

// A gate behind which a record stands, and one behind which none does.
pub const OPEN: u8 = 1;

pub const CLOSED: u8 = 0;

// The place of the gate before record `count`, or behind the last one.
pub fn gate_of(gates: &[u64], count: usize) -> u64
    requires { count < length gates.now }
    ensures { (records : List (List ℕ)) → gates.now ≡ gates_from 0 records → result ≡ gate_before count records }
{
    gates[count]
}

// The place of the last gate.
pub fn last_gate(gates: &[u64]) -> u64
    requires { 0 < length gates.now }
    ensures { (records : List (List ℕ)) → gates.now ≡ gates_from 0 records → result ≡ length (spelled records) }
{
    gates[gates.len() - 1]
}

// Writes at a place, syncs, and says how long the disk is then.
pub fn put<D: Disk>(disk: &mut D, at: u64, bytes: &[u8]) -> Result<u64, Failed>
    requires { at ≤ (D.seen disk.old).size }
    ensures cause { HasCause (D.seen disk.old).faults (D.seen disk.new).faults result }
    ensures told { is_some (D.seen disk.new).bytes ≡ is_some (D.seen disk.old).bytes }
    ensures size { IfOk result (λ size. size ≡ (D.seen disk.new).size) }
    ensures does { PutDoes at bytes.now (D.seen disk.old) (D.seen disk.new) result }
    ensures durable { OnOk result (IsDurable (D.seen disk.new) (D.may_leave disk.new)) }
    ensures crash { (held : List ℕ) → (D.seen disk.old).bytes ≡ Some held → Only held (D.may_leave disk.old) →
        LeavesOnly D.moment D.left_since disk.old disk.new (Torn at (length bytes.now) held) }
{
    disk.write_at(at, bytes)?;
    disk.sync()?;
    Ok(disk.len())
}

// Cuts and syncs.
pub fn shorten<D: Disk>(disk: &mut D, to: u64) -> Result<(), Failed>
    ensures cause { HasCause (D.seen disk.old).faults (D.seen disk.new).faults result }
    ensures told { is_some (D.seen disk.new).bytes ≡ is_some (D.seen disk.old).bytes }
    ensures does { CutDoes to (D.seen disk.old) (D.seen disk.new) result }
    ensures durable { OnOk result (IsDurable (D.seen disk.new) (D.may_leave disk.new)) }
    ensures crash { (held : List ℕ) → (D.seen disk.old).bytes ≡ Some held → Only held (D.may_leave disk.old) →
        LeavesOnly D.moment D.left_since disk.old disk.new (Cut to held) }
{
    disk.cut(to)?;
    disk.sync()
}

// What stands behind the gate of a record, and a closed gate behind that.
fn frame(alloc: Global, bytes: &[u8]) -> Result<Vec<u8>, NoMemory>
    requires { length bytes.now ≤ LONGEST_KEPT }
    ensures frame { IfOk result (λ frame. frame.items ≡ framed bytes.now ++ 0 ∷ []) }
    ensures short { IsShort bytes.now }
{
    let mut frame = Vec::with_capacity(alloc, bytes.len() + 5)?;
    frame.extend_from_slice(&(bytes.len() as u32).to_be_bytes())?;
    frame.extend_from_slice(bytes)?;
    frame.push(CLOSED)?;
    Ok(frame)
}

// ---- appending

// Adds what stands behind the last gate, and opens the gate. Nothing is owed before, and there is room for one gate more.
fn add<D: Disk>(
    disk: &mut D,
    gates: &mut Vec<u64>,
    owed: &mut Owed,
    frame: &[u8],
) -> Result<(), Failed>
    requires stands { (records : List (List ℕ)) × Stands D.seen D.may_leave (settled records) disk.old gates.old.items owed.old }
    requires spare { vec_len gates.old < vec_capacity gates.old }
    ensures cause { HasCause (D.seen disk.old).faults (D.seen disk.new).faults result }
    ensures does { (records : List (List ℕ)) (bytes : List ℕ) → IsShort bytes → frame.now ≡ framed bytes ++ 0 ∷ [] →
        Stands D.seen D.may_leave (settled records) disk.old gates.old.items owed.old →
        AddDoes D.seen D.may_leave records bytes disk.new gates.new.items owed.new result }
    ensures crash { (records : List (List ℕ)) (bytes held : List ℕ) → frame.now ≡ framed bytes ++ 0 ∷ [] →
        Stands D.seen D.may_leave (settled records) disk.old gates.old.items owed.old →
        (D.seen disk.old).bytes ≡ Some held →
        LeavesOnly D.moment D.left_since disk.old disk.new (Keeps records (Appending bytes)) }
{
    let _size = disk.len();
    let gate = last_gate(gates);
    *owed = Owed::Append;
    let _longer = put(disk, gate + 1, frame)?;
    let _opened = put(disk, gate, &[OPEN])?;
    *owed = Owed::Nothing;
    gates.push_reserved(gate + frame.len() as u64);
    Ok(())
}

/// Appends a record to a file, behind what it owes. Takes its memory before it calls the disk.
pub fn append_to<D: Disk>(
    alloc: Global,
    disk: &mut D,
    gates: &mut Vec<u64>,
    owed: &mut Owed,
    bytes: &[u8],
) -> Result<(), KeeperFault>
    requires stands { (row : Row) × Stands D.seen D.may_leave row disk.old gates.old.items owed.old }
    requires short { length bytes.now ≤ LONGEST_KEPT }
    ensures cause { IsCaused (D.seen disk.old).faults (D.seen disk.new).faults result }
    ensures does { (row : Row) → Stands D.seen D.may_leave row disk.old gates.old.items owed.old →
        AppendDoes D.seen D.may_leave row bytes.now disk.new gates.new.items owed.new result }
    ensures crash { (row : Row) (held : List ℕ) → Stands D.seen D.may_leave row disk.old gates.old.items owed.old →
        (D.seen disk.old).bytes ≡ Some held →
        LeavesOnly D.moment D.left_since disk.old disk.new (λ image. Keeps row.records row.owing image ⊎ Keeps row.records (Appending bytes.now) image) }
{
    let frame = frame(alloc, bytes)?;
    gates.reserve(1)?;
    repair(disk, gates, owed)?;
    add(disk, gates, owed, &frame)?;
    Ok(())
}

// ---- cutting

// Closes the gate before a record of a settled file, and drops the records from there on.
fn drop_from<D: Disk>(
    disk: &mut D,
    gates: &mut Vec<u64>,
    owed: &mut Owed,
    count: usize,
) -> Result<(), Failed>
    requires stands { (records : List (List ℕ)) × Stands D.seen D.may_leave (settled records) disk.old gates.old.items owed.old }
    requires below { count + 1 < length gates.old.items }
    ensures cause { HasCause (D.seen disk.old).faults (D.seen disk.new).faults result }
    ensures does { (records : List (List ℕ)) → Stands D.seen D.may_leave (settled records) disk.old gates.old.items owed.old →
        DropDoes D.seen D.may_leave records count disk.new gates.new.items owed.new result }
    ensures crash { (records : List (List ℕ)) (held : List ℕ) → Stands D.seen D.may_leave (settled records) disk.old gates.old.items owed.old →
        (D.seen disk.old).bytes ≡ Some held →
        LeavesOnly D.moment D.left_since disk.old disk.new (Keeps records (Cutting count)) }
{
    let gate = gate_of(gates, count);
    *owed = Owed::Cut(count);
    put(disk, gate, &[CLOSED])?;
    *owed = Owed::Nothing;
    gates.truncate(count + 1);
    Ok(())
}

/// Cuts a file to so many records, behind what it owes.
pub fn cut_to<D: Disk>(
    disk: &mut D,
    gates: &mut Vec<u64>,
    owed: &mut Owed,
    count: usize,
) -> Result<(), Failed>
    requires stands { (row : Row) × Stands D.seen D.may_leave row disk.old gates.old.items owed.old }
    requires within { count < length gates.old.items }
    ensures cause { HasCause (D.seen disk.old).faults (D.seen disk.new).faults result }
    ensures does { (row : Row) → Stands D.seen D.may_leave row disk.old gates.old.items owed.old →
        CutRow D.seen D.may_leave row count disk.new gates.new.items owed.new result }
    ensures crash { (row : Row) (held : List ℕ) → Stands D.seen D.may_leave row disk.old gates.old.items owed.old →
        (D.seen disk.old).bytes ≡ Some held →
        LeavesOnly D.moment D.left_since disk.old disk.new (λ image. Keeps row.records row.owing image ⊎ ((count < length row.records) × Keeps row.records (Cutting count) image)) }
{
    repair(disk, gates, owed)?;
    if count + 1 < gates.len() {
        return drop_from(disk, gates, owed, count);
    }
    Ok(())
}

// ---- repairs

// Repairs what is owed, if anything is. A repair that fails stays owed.
fn repair<D: Disk>(disk: &mut D, gates: &[u64], owed: &mut Owed) -> Result<(), Failed>
    requires { (row : Row) × Stands D.seen D.may_leave row disk.old gates.now owed.old }
    ensures cause { HasCause (D.seen disk.old).faults (D.seen disk.new).faults result }
    ensures told { is_some (D.seen disk.new).bytes ≡ is_some (D.seen disk.old).bytes }
    ensures does { (row : Row) → Stands D.seen D.may_leave row disk.old gates.now owed.old →
        RepairDoes D.seen D.may_leave row disk.new gates.now owed.new result }
    ensures crash { (row : Row) (held : List ℕ) → Stands D.seen D.may_leave row disk.old gates.now owed.old →
        (D.seen disk.old).bytes ≡ Some held →
        LeavesOnly D.moment D.left_since disk.old disk.new (Keeps row.records row.owing) }
{
    match *owed {
        Owed::Nothing => Ok(()),
        Owed::Append => {
            repair_append(disk, gates)?;
            *owed = Owed::Nothing;
            Ok(())
        }
        Owed::Cut(count) => {
            repair_cut(disk, gates, count)?;
            *owed = Owed::Nothing;
            Ok(())
        }
    }
}

// After an append that failed: closes the last gate where it reads open, and cuts behind it.
fn repair_append<D: Disk>(disk: &mut D, gates: &[u64]) -> Result<(), Failed>
    requires { (records : List (List ℕ)) × (bytes : List ℕ) × Stands D.seen D.may_leave (appending records bytes) disk.old gates.now debts.Append }
    ensures cause { HasCause (D.seen disk.old).faults (D.seen disk.new).faults result }
    ensures told { is_some (D.seen disk.new).bytes ≡ is_some (D.seen disk.old).bytes }
    ensures does { (records : List (List ℕ)) (bytes : List ℕ) → Stands D.seen D.may_leave (appending records bytes) disk.old gates.now debts.Append →
        CloseDoes D.seen D.may_leave records bytes disk.new gates.now result }
    ensures crash { (records : List (List ℕ)) (bytes held : List ℕ) → Stands D.seen D.may_leave (appending records bytes) disk.old gates.now debts.Append →
        (D.seen disk.old).bytes ≡ Some held →
        LeavesOnly D.moment D.left_since disk.old disk.new (Keeps records (Appending bytes)) }
{
    disk.sync()?;
    close(disk, gates)?;
    trim(disk, gates)?;
    Ok(())
}

// Closes the last gate where it reads open, and syncs. What a read gives is on the disk before.
fn close<D: Disk>(disk: &mut D, gates: &[u64]) -> Result<(), Failed>
    requires stands { (records : List (List ℕ)) × (bytes : List ℕ) × Stands D.seen D.may_leave (appending records bytes) disk.old gates.now debts.Append }
    requires durable { IsDurable (D.seen disk.old) (D.may_leave disk.old) }
    ensures cause { HasCause (D.seen disk.old).faults (D.seen disk.new).faults result }
    ensures told { is_some (D.seen disk.new).bytes ≡ is_some (D.seen disk.old).bytes }
    ensures does { (records : List (List ℕ)) (bytes : List ℕ) → Stands D.seen D.may_leave (appending records bytes) disk.old gates.now debts.Append →
        CloseDoes D.seen D.may_leave records bytes disk.new gates.now result }
    ensures crash { (records : List (List ℕ)) (bytes held : List ℕ) → Stands D.seen D.may_leave (appending records bytes) disk.old gates.now debts.Append →
        (D.seen disk.old).bytes ≡ Some held →
        LeavesOnly D.moment D.left_since disk.old disk.new (Keeps records (Appending bytes)) }
{
    let gate = last_gate(gates);
    let value = byte_at(disk, gate)?;
    if value == OPEN {
        put(disk, gate, &[CLOSED])?;
        return Ok(());
    }
    disk.sync()?;
    Ok(())
}

// Cuts behind the last gate, which is closed, and syncs.
fn trim<D: Disk>(disk: &mut D, gates: &[u64]) -> Result<(), Failed>
    requires { (records : List (List ℕ)) × Stands D.seen D.may_leave (settled records) disk.old gates.now debts.Nothing }
    ensures cause { HasCause (D.seen disk.old).faults (D.seen disk.new).faults result }
    ensures told { is_some (D.seen disk.new).bytes ≡ is_some (D.seen disk.old).bytes }
    ensures does { (records : List (List ℕ)) → Stands D.seen D.may_leave (settled records) disk.old gates.now debts.Nothing →
        TrimDoes D.seen D.may_leave records disk.new gates.now result }
    ensures crash { (records : List (List ℕ)) (held : List ℕ) → Stands D.seen D.may_leave (settled records) disk.old gates.now debts.Nothing →
        (D.seen disk.old).bytes ≡ Some held →
        LeavesOnly D.moment D.left_since disk.old disk.new (IsAtRest records) }
{
    let _size = disk.len();
    let gate = last_gate(gates);
    shorten(disk, gate + 1)?;
    Ok(())
}

// After a cut that failed: opens the gate again before the first record that was to go.
fn repair_cut<D: Disk>(disk: &mut D, gates: &[u64], count: usize) -> Result<(), Failed>
    requires { (records : List (List ℕ)) × Stands D.seen D.may_leave (cutting records count) disk.old gates.now (debts.Cut count) }
    ensures cause { HasCause (D.seen disk.old).faults (D.seen disk.new).faults result }
    ensures told { is_some (D.seen disk.new).bytes ≡ is_some (D.seen disk.old).bytes }
    ensures does { (records : List (List ℕ)) → Stands D.seen D.may_leave (cutting records count) disk.old gates.now (debts.Cut count) →
        ReopenDoes D.seen D.may_leave records count disk.new gates.now result }
    ensures crash { (records : List (List ℕ)) (held : List ℕ) → Stands D.seen D.may_leave (cutting records count) disk.old gates.now (debts.Cut count) →
        (D.seen disk.old).bytes ≡ Some held →
        LeavesOnly D.moment D.left_since disk.old disk.new (Keeps records (Cutting count)) }
{
    let gate = gate_of(gates, count);
    disk.sync()?;
    put(disk, gate, &[OPEN])?;
    Ok(())
}
