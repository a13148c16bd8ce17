//! Finding the records of a disk that a crash may have left.
ghost use Rattle.std.specs.Prelude.{◌≡◌, ◌⊎◌, ◌+◌, ◌-◌, ◌*◌, ◌^◌, ◌<◌, ◌≤◌, ℕ, min, true, Some, is_some, List, [], ◌∷◌, ◌++◌, length, take, drop, IfOk, IfSome, OnOk};
ghost use Rattle.fluid_io.specs.Causes.{HasCause};
ghost use Rattle.fluid_log.specs.Calls.{IsCaused};
ghost use Rattle.std.specs.List.{AllByRecursion};
ghost use Rattle.fluid_disk.specs.Disk.{IsDurable, Only, LeavesOnly};
ghost use Rattle.fluid_disk.specs.Records.{IsShort, spelled, IsHead, Finds};
ghost use Rattle.fluid_disk.specs.Files.{settled, Stands, OnlyReads, IsWalked, IsAhead, EndsBy, ReadsClosed, FindsSame, StaysFound};
ghost use Rattle.fluid_disk.specs.declared.owed.Owed.TheVariants as debts;

use crate::Disk;
use crate::reading::piece;
use crate::writing::{CLOSED, OPEN, last_gate, put, shorten};
use fluid_io::Failed;
use fluid_log::KeeperFault;
use std::alloc::Global;

// How many bytes are read at once.
const PIECE: u64 = 1 << 16;

// A gate and the length behind it.
const HEAD: u64 = 5;

/// Finds the records of a disk, and leaves a closed gate behind them and nothing else. Gives the places of the gates.
pub fn find<D: Disk>(alloc: Global, disk: &mut D) -> Result<Vec<u64>, KeeperFault>
    ensures cause { IsCaused (D.seen disk.old).faults (D.seen disk.new).faults result }
    ensures stands { IfOk result (λ gates. (records : List (List ℕ)) × Stands D.seen D.may_leave (settled records) disk.new gates.items debts.Nothing
        × ((held : List ℕ) → (D.seen disk.old).bytes ≡ Some held → Finds records held × ((D.seen disk.new).bytes ≡ Some (spelled records ++ 0 ∷ [])))) }
    ensures finds { StaysFound (D.seen disk.old) (D.seen disk.new) }
    ensures crash { (held : List ℕ) → (D.seen disk.old).bytes ≡ Some held →
        LeavesOnly D.moment D.left_since disk.old disk.new (λ image. D.may_leave disk.old image ⊎ FindsSame held image) }
{
    disk.sync()?;
    let walked = walk(alloc, disk)?;
    settle(disk, last_gate(&walked.gates), walked.closed)?;
    Ok(walked.gates)
}

// The places of the gates, the last one where no record begins, and whether a closed gate was read there.
#[derive(Drop)]
struct Walked {
    gates: Vec<u64>,
    closed: bool,
}

// Walks over the records.
fn walk<D: Disk>(alloc: Global, disk: &mut D) -> Result<Walked, KeeperFault>
    ensures cause { IsCaused (D.seen disk.old).faults (D.seen disk.new).faults result }
    ensures reads { OnlyReads D.seen D.may_leave D.moment D.left_since disk.old disk.new }
    ensures found { IfOk result (λ walked. (records : List (List ℕ)) × IsWalked records walked.gates.items (D.seen disk.old) × EndsBy walked.closed records (D.seen disk.old)) }
{
    let size = disk.len();
    let mut gates = vec![in alloc; 0]?;
    let mut ahead = Ahead {
        start: 0,
        bytes: Vec::new(alloc),
    };
    let mut place = 0;
    loop {
        let head = ahead.head(alloc, disk, place)?;
        match head {
            None => {
                return Ok(Walked {
                    gates,
                    closed: ahead.is_closed(place),
                });
            }
            Some(count) => {
                let behind = place + HEAD;
                if count as u64 > size - behind {
                    return Ok(Walked {
                        gates,
                        closed: false,
                    });
                }
                place = behind + count as u64;
                gates.push(place)?;
            }
        }
    }
}

// Bytes that were read ahead, and where the first of them stands.
#[derive(Drop)]
struct Ahead {
    start: u64,
    bytes: Vec<u8>,
}

impl Ahead {
    // The length of a record that begins at this place behind an open gate, as far as it is there. Reads on where that wasn't
    // read yet.
    fn head<D: Disk>(
        &mut self,
        alloc: Global,
        disk: &mut D,
        place: u64,
    ) -> Result<Option<u32>, KeeperFault>
        requires ahead { IsAhead self.old.start self.old.bytes.items (D.seen disk.old) }
        requires behind { self.old.start ≤ place }
        requires within { place ≤ (D.seen disk.old).size }
        ensures cause { IsCaused (D.seen disk.old).faults (D.seen disk.new).faults result }
        ensures reads { OnlyReads D.seen D.may_leave D.moment D.left_since disk.old disk.new }
        ensures ahead { OnOk result (IsAhead self.new.start self.new.bytes.items (D.seen disk.new) × (self.new.start ≤ place)) }
        ensures stands { IfOk result (λ count. IfSome count (λ _. place + 5 ≤ (D.seen disk.old).size)) }
        ensures head { IfOk result (λ count. (held : List ℕ) → (D.seen disk.old).bytes ≡ Some held → IsHead (drop place held) count) }
        ensures short { IfOk result (λ count. IfSome count (λ n. n < 2 ^ 32)) }
    {
        self.reach(alloc, disk, place)?;
        Ok(head_of(self.rest(place)))
    }

    // Reads on where the bytes from this place on that make a gate and a length weren't read yet.
    fn reach<D: Disk>(&mut self, alloc: Global, disk: &mut D, place: u64) -> Result<(), KeeperFault>
        requires ahead { IsAhead self.old.start self.old.bytes.items (D.seen disk.old) }
        requires behind { self.old.start ≤ place }
        requires within { place ≤ (D.seen disk.old).size }
        ensures cause { IsCaused (D.seen disk.old).faults (D.seen disk.new).faults result }
        ensures reads { OnlyReads D.seen D.may_leave D.moment D.left_since disk.old disk.new }
        ensures ahead { OnOk result (IsAhead self.new.start self.new.bytes.items (D.seen disk.new)) }
        ensures place { OnOk result ((self.new.start ≤ place) × (min 5 ((D.seen disk.old).size - place) ≤ length self.new.bytes.items - (place - self.new.start))) }
    {
        let size = disk.len();
        let wanted = (size - place).min(HEAD);
        let ahead = self.rest(place).len() as u64;
        if wanted <= ahead {
            return Ok(());
        }
        self.read_on(alloc, disk, place)
    }

    // What was read from this place on.
    fn rest(&self, place: u64) -> &[u8]
        requires { self.now.start ≤ place }
        ensures { result.now ≡ drop (place - self.now.start) self.now.bytes.items }
    {
        let skip = (place - self.start) as usize;
        if skip < self.bytes.len() {
            &self.bytes[skip..]
        } else {
            &[]
        }
    }

    // Whether a closed gate stands at this place among what was read.
    fn is_closed(&self, place: u64) -> bool
        requires { self.now.start ≤ place }
        ensures { result ≡ true → (rest : List ℕ) × (drop (place - self.now.start) self.now.bytes.items ≡ 0 ∷ rest) }
    {
        let rest = self.rest(place);
        !rest.is_empty() && rest[0] == CLOSED
    }

    // Lets go of the bytes before this place, and reads the next ones.
    fn read_on<D: Disk>(
        &mut self,
        alloc: Global,
        disk: &mut D,
        place: u64,
    ) -> Result<(), KeeperFault>
        requires ahead { IsAhead self.old.start self.old.bytes.items (D.seen disk.old) }
        requires behind { self.old.start ≤ place }
        requires within { place ≤ (D.seen disk.old).size }
        ensures cause { IsCaused (D.seen disk.old).faults (D.seen disk.new).faults result }
        ensures reads { OnlyReads D.seen D.may_leave D.moment D.left_since disk.old disk.new }
        ensures ahead { OnOk result (IsAhead self.new.start self.new.bytes.items (D.seen disk.new)) }
        ensures place { OnOk result ((self.new.start ≡ place) × (min 5 ((D.seen disk.old).size - place) ≤ length self.new.bytes.items)) }
    {
        let size = disk.len();
        let mut bytes = Vec::from_slice(alloc, self.rest(place))?;
        let from = place + bytes.len() as u64;
        let count = (size - from).min(PIECE);
        let next = piece(alloc, disk, from, count as usize)?;
        bytes.extend_from_slice(&next)?;
        self.start = place;
        self.bytes = bytes;
        Ok(())
    }
}

// The length of a record that begins here behind an open gate, as far as it is there.
fn head_of(bytes: &[u8]) -> Option<u32>
    ensures { IsHead bytes.now result }
{
    if bytes.len() < 5 {
        return None;
    }
    if bytes[0] != OPEN {
        return None;
    }
    Some(u32::from_be_bytes([bytes[1], bytes[2], bytes[3], bytes[4]]))
}

// Leaves a closed gate at this place, where no record begins, and nothing behind it. Whether one was read there already is said.
// What a read gives is on the disk before.
fn settle<D: Disk>(disk: &mut D, end: u64, closed: bool) -> Result<(), Failed>
    requires { end ≤ (D.seen disk.old).size }
    ensures cause { HasCause (D.seen disk.old).faults (D.seen disk.new).faults result }
    ensures told { is_some (D.seen disk.new).bytes ≡ is_some (D.seen disk.old).bytes }
    ensures durable { OnOk result (IsDurable (D.seen disk.new) (D.may_leave disk.new) × (end < (D.seen disk.new).size)) }
    ensures closed { OnOk result ((records : List (List ℕ)) (held : List ℕ) → (D.seen disk.old).bytes ≡ Some held → Finds records held →
        (closed ≡ true → ReadsClosed records held) → end ≡ length (spelled records) → (D.seen disk.new).bytes ≡ Some (spelled records ++ 0 ∷ [])) }
    ensures crash { (records : List (List ℕ)) (held : List ℕ) → (D.seen disk.old).bytes ≡ Some held → Only held (D.may_leave disk.old) → Finds records held →
        end ≡ length (spelled records) → LeavesOnly D.moment D.left_since disk.old disk.new (Finds records) }
{
    if end < disk.len() {
        clear(disk, end, closed)?;
        return Ok(());
    }
    put(disk, end, &[CLOSED])?;
    Ok(())
}

// Cuts behind the gate at this place, and closes it where it isn't. The cut has to be on the disk first: behind a gate that is
// torn open, what was there would count.
fn clear<D: Disk>(disk: &mut D, gate: u64, closed: bool) -> Result<(), Failed>
    requires { gate < (D.seen disk.old).size }
    ensures cause { HasCause (D.seen disk.old).faults (D.seen disk.new).faults result }
    ensures told { is_some (D.seen disk.new).bytes ≡ is_some (D.seen disk.old).bytes }
    ensures durable { OnOk result (IsDurable (D.seen disk.new) (D.may_leave disk.new) × (gate < (D.seen disk.new).size)) }
    ensures closed { OnOk result ((records : List (List ℕ)) (held : List ℕ) → (D.seen disk.old).bytes ≡ Some held → Finds records held →
        (closed ≡ true → ReadsClosed records held) → gate ≡ length (spelled records) → (D.seen disk.new).bytes ≡ Some (spelled records ++ 0 ∷ [])) }
    ensures crash { (records : List (List ℕ)) (held : List ℕ) → (D.seen disk.old).bytes ≡ Some held → Only held (D.may_leave disk.old) → Finds records held →
        gate ≡ length (spelled records) → LeavesOnly D.moment D.left_since disk.old disk.new (Finds records) }
{
    let _size = disk.len();
    shorten(disk, gate + 1)?;
    shut(disk, gate, closed)?;
    Ok(())
}

// Closes the gate at this place, behind which nothing stands, where it isn't closed.
fn shut<D: Disk>(disk: &mut D, gate: u64, closed: bool) -> Result<(), Failed>
    requires place { gate < (D.seen disk.old).size }
    requires durable { IsDurable (D.seen disk.old) (D.may_leave disk.old) }
    ensures cause { HasCause (D.seen disk.old).faults (D.seen disk.new).faults result }
    ensures told { is_some (D.seen disk.new).bytes ≡ is_some (D.seen disk.old).bytes }
    ensures durable { OnOk result (IsDurable (D.seen disk.new) (D.may_leave disk.new) × (gate < (D.seen disk.new).size)) }
    ensures closed { OnOk result ((prefix : List ℕ) (value : ℕ) → (D.seen disk.old).bytes ≡ Some (prefix ++ value ∷ []) →
        (closed ≡ true → value ≡ 0) → gate ≡ length prefix → (D.seen disk.new).bytes ≡ Some (prefix ++ 0 ∷ [])) }
    ensures crash { (records : List (List ℕ)) (value : ℕ) → (D.seen disk.old).bytes ≡ Some (spelled records ++ value ∷ []) → AllByRecursion IsShort records →
        gate ≡ length (spelled records) → LeavesOnly D.moment D.left_since disk.old disk.new (Finds records) }
{
    if closed {
        return Ok(());
    }
    put(disk, gate, &[CLOSED])?;
    Ok(())
}
