// The clients stand in byte order of their ids, each with a slot of the index of references.
ghost use Rattle.std.specs.Prelude.{◌≡◌, ℕ, List, ◌+◌, ◌-◌, ◌*◌, ◌^◌, ◌<◌, ◌≤◌, IsTrue, IsSome, IfOk, IfErr, IfSome, OnOk, OnErr, is_some, slice_get, length, map, slice_set, vec_capacity, None, Some, IsOk, true};
ghost use Rattle.std.specs.Option.{option_copied};
ghost use Rattle.std.specs.FinMap.{empty, get, insert, remove, len, keys};
ghost use Rattle.fluid_table.specs.Keyed.{IsInOrder, IsAt, IsGap, table_of};
ghost use Rattle.fluid_clients.specs.Table.{change_row, least, least_with, rows_up_to, IsFewSteps};
ghost use Rattle.fluid_clients.specs.Index.{IsLeastHeld, itself};
ghost use Rattle.fluid_clients.specs.Seats.{id_of, row_of, seat_up_to, IsIndexed, AreSeated};

use crate::index::{Least, Rank};
use crate::steps::Steps;
use fluid_json::NoMemory;
use fluid_types::{ClientId, Scopes};
use std::alloc::Global;
use std::marker::{Brand, Model};
use std::sync::ledger::{Blank, Ledger};

/// What is kept of one joined client.
#[derive(Clone, Copy, Debug, PartialEq, Eq)]
pub struct Row {
    /// The client number of its last submission that counted, 0 before the first.
    pub last: u64,
    /// The sequence number up to which it is known to have seen the order.
    pub reference: u64,
    /// Whether a submission of it was refused as below the minimum; so until it leaves.
    pub nacked: bool,
    /// What it may do, as it joined.
    pub scopes: Scopes,
    /// The moment of its latest entry from its join on, whatever became of it.
    pub heard: u64,
}

// A joined client with its row, and the slot of the index that has its reference.
#[derive(Drop)]
struct Seat {
    id: ClientId,
    row: Row,
    slot: u64,
}

/// The joined clients with their rows.
#[derive(Drop)]
pub struct Clients {
    seats: Vec<Seat>,
    // The references, each in the slot of its seat.
    index: Least<u64>,
    // The slots without a seat.
    free: Vec<u64>,
}

impl Model for Clients {
    ghost use Rattle.std.specs.Prelude.{length, vec_capacity};
    ghost use Rattle.fluid_table.specs.Keyed.{table_of};
    ghost use Rattle.fluid_clients.specs.Table.{Table, table_code};
    ghost use Rattle.fluid_clients.specs.Seats.{AreSeated, id_of, row_of};

    ghost Value = { Table };

    ghost coded = { table_code };

    ghost view = { λ c. record { rows = table_of id_of row_of c.seats.items; spare = length c.free.items } };

    ghost invariant = { λ c. AreSeated c.seats.items c.index c.free.items (vec_capacity c.seats) (vec_capacity c.free) };
}

impl Clients {
    /// A table without clients. Takes no memory.
    pub fn new(alloc: Global) -> Clients
        ensures { result.rows ≡ empty }
    {
        Clients {
            seats: Vec::new(alloc),
            index: Least::new(alloc),
            free: Vec::new(alloc),
        }
    }

    /// How many clients are joined.
    pub fn count(&self) -> u64
        ensures { result ≡ len self.now.rows }
    {
        self.seats.len() as u64
    }

    /// The row under an id; none where it is not joined.
    pub fn row(&self, id: &ClientId) -> Option<&Row>
        ensures { option_copied result ≡ get self.now.rows id.now }
    {
        match place(&self.seats, id) {
            Ok(at) => Some(&self.seats[at].row),
            Err(_) => None,
        }
    }

    /// The id at a place, counted from 0 in byte order of ids.
    pub fn id_at(&self, place: u64) -> Option<&ClientId>
        ensures { option_copied result ≡ slice_get (keys self.now.rows) place }
    {
        let seat = self.seats.get(place as usize)?;
        Some(&seat.id)
    }

    /// The row of the client at a place, counted from 0 in byte order of ids. It compares nothing.
    pub fn row_at(&self, place: u64) -> Option<&Row>
        ensures { (id : List ℕ) → slice_get (keys self.now.rows) place ≡ Some id → option_copied result ≡ get self.now.rows id }
    {
        let seat = self.seats.get(place as usize)?;
        Some(&seat.row)
    }

    /// The least reference; none where nobody is joined. It compares nothing.
    pub fn min(&self) -> Option<u64>
        ensures { result ≡ least self.now.rows }
    {
        match self.index.least() {
            Some(reference) => Some(*reference),
            None => None,
        }
    }

    /// The least reference of the other clients, as if this one had left.
    pub fn min_without(&self, id: &ClientId) -> Option<u64>
        ensures { result ≡ least (remove self.now.rows id.now) }
    {
        match place(&self.seats, id) {
            Ok(at) => least_of_others::<Brand>(&self.index, self.seats[at].slot, Blank::new(1)),
            Err(_) => self.min(),
        }
    }

    /// The least reference if the row of this client had this one. It compares along one path of the index.
    pub fn min_with(&self, id: &ClientId, reference: u64) -> u64
        requires { IsSome (get self.now.rows id.now) }
        ensures { Some result ≡ least_with self.now.rows id.now reference }
    {
        match self.min_without(id) {
            Some(others) => reference.min(others),
            None => reference,
        }
    }

    /// Takes a client in. After `NoMemory` the table is as it was, and id and row are gone.
    pub fn join<L: Ledger>(
        &mut self,
        id: ClientId,
        row: Row,
        steps: &mut Steps<L>,
    ) -> Result<(), NoMemory>
        requires { get self.old.rows id ≡ None }
        ensures joined { OnOk result (self.new.rows ≡ insert self.old.rows id row) }
        ensures unchanged { OnErr result ((self.new ≡ self.old) × (steps.new ≡ steps.old)) }
        ensures room { 0 < self.old.spare → IsOk result }
        ensures spare { self.old.spare ≤ self.new.spare + 1 }
        ensures cost { OnOk result (IsFewSteps self.new steps.old steps.new) }
    {
        self.reserve()?;
        let slot = self.free.pop().unwrap();
        let at = gap(&self.seats, &id);
        self.index.set(slot, row.reference, steps);
        self.seats.insert(at, Seat { id, row, slot }).unwrap();
        Ok(())
    }

    /// Lets a client go, and says whether it was joined.
    pub fn leave<L: Ledger>(&mut self, id: &ClientId, steps: &mut Steps<L>) -> bool
        ensures was { result ≡ is_some (get self.old.rows id.now) }
        ensures left { self.new.rows ≡ remove self.old.rows id.now }
        ensures spare { self.old.spare ≤ self.new.spare }
        ensures cost { IsSome (get self.old.rows id.now) → IsFewSteps self.old steps.old steps.new }
        ensures none { get self.old.rows id.now ≡ None → steps.new ≡ steps.old }
    {
        match place(&self.seats, id) {
            Ok(at) => {
                let Seat { slot, .. } = self.seats.remove(at);
                self.index.clear(slot, steps);
                self.free.push(slot).unwrap();
                true
            }
            Err(_) => false,
        }
    }

    /// Writes down what a submission that was sequenced or absorbed says of its client.
    pub fn accept<L: Ledger>(
        &mut self,
        id: &ClientId,
        number: u64,
        reference: u64,
        steps: &mut Steps<L>,
    )
        requires joined { IsSome (get self.old.rows id.now) }
        requires room { 0 < self.old.spare }
        ensures accepted { (row : Row) → get self.old.rows id.now ≡ Some row →
            self.new.rows ≡ insert self.old.rows id.now (record row { last = number; reference = reference }) }
        ensures spare { self.old.spare ≤ self.new.spare + 1 }
        ensures cost { IsFewSteps self.old steps.old steps.new }
    {
        let at = joined_at(&self.seats, id);
        let seat = &mut self.seats[at];
        seat.row.last = number;
        seat.row.reference = reference;
        let slot = seat.slot;
        self.index.set(slot, reference, steps);
    }

    /// Marks a client as refused below the minimum, which it is held at from then on.
    pub fn mark<L: Ledger>(
        &mut self,
        id: &ClientId,
        number: u64,
        minimum: u64,
        steps: &mut Steps<L>,
    )
        requires joined { IsSome (get self.old.rows id.now) }
        requires room { 0 < self.old.spare }
        ensures marked { (row : Row) → get self.old.rows id.now ≡ Some row →
            self.new.rows ≡ insert self.old.rows id.now (record row { last = number; reference = minimum; nacked = true }) }
        ensures spare { self.old.spare ≤ self.new.spare + 1 }
        ensures cost { IsFewSteps self.old steps.old steps.new }
    {
        let at = joined_at(&self.seats, id);
        let seat = &mut self.seats[at];
        seat.row.last = number;
        seat.row.reference = minimum;
        seat.row.nacked = true;
        let slot = seat.slot;
        self.index.set(slot, minimum, steps);
    }

    /// Writes down the moment at which a client was heard of. One that isn't joined has no row.
    pub fn hear(&mut self, id: &ClientId, moment: u64)
        ensures heard { self.new.rows ≡ change_row id.now (λ row. record row { heard = moment }) self.old.rows }
        ensures spare { self.old.spare ≤ self.new.spare }
    {
        if let Ok(at) = place(&self.seats, id) {
            let row = &mut self.seats[at].row;
            row.heard = moment;
        }
    }

    /// Puts each reference that is above a number down to it.
    pub fn put_down(&mut self, most: u64)
        ensures down { self.new.rows ≡ rows_up_to most self.old.rows }
        ensures spare { self.old.spare ≤ self.new.spare }
    {
        put_each_down::<Brand>(
            &mut self.seats,
            &mut self.index,
            &self.free,
            most,
            Blank::new(1),
        );
    }

    /// Makes room for one more client.
    pub fn reserve(&mut self) -> Result<(), NoMemory>
        ensures same { self.new.rows ≡ self.old.rows }
        ensures room { OnOk result (0 < self.new.spare) }
        ensures spare { self.old.spare ≤ self.new.spare }
        ensures unchanged { OnErr result (self.new ≡ self.old) }
        ensures free { 0 < self.old.spare → IsOk result }
    {
        if !self.free.is_empty() {
            return Ok(());
        }
        let slot = self.index.len();
        self.seats.reserve(1)?;
        self.free.reserve(self.seats.len() + 1)?;
        self.index.grow()?;
        self.free.push(slot).unwrap();
        Ok(())
    }

    /// The same rows once more, with their own memory.
    pub fn copy(&self, alloc: Global) -> Result<Clients, NoMemory>
        ensures { IfOk result (λ copy. copy.rows ≡ self.now.rows) }
    {
        let index = self.index.copy(alloc)?;
        let seats = copy_seats(alloc, &self.seats, self.index.len() as usize)?;
        let free = copy_slots(alloc, &self.free, self.index.len() as usize)?;
        Ok(Clients { seats, index, free })
    }
}

// Where an id stands, or where it would stand.
fn place(seats: &[Seat], id: &ClientId) -> Result<usize, usize>
    requires { IsInOrder id_of row_of seats.now }
    ensures found { IfOk result (IsAt id_of seats.now id.now) }
    ensures absent { IfErr result (IsGap id_of seats.now id.now) }
{
    seats.binary_search_by(|seat| seat.id.cmp(id))
}

// Where a joined client stands.
fn joined_at(seats: &[Seat], id: &ClientId) -> usize
    requires order { IsInOrder id_of row_of seats.now }
    requires joined { IsSome (get (table_of id_of row_of seats.now) id.now) }
    ensures { IsAt id_of seats.now id.now result }
{
    match place(seats, id) {
        Ok(at) => at,
        Err(gap) => gap,
    }
}

// Where a client that isn't joined would stand.
fn gap(seats: &[Seat], id: &ClientId) -> usize
    requires order { IsInOrder id_of row_of seats.now }
    requires absent { get (table_of id_of row_of seats.now) id.now ≡ None }
    ensures { IsGap id_of seats.now id.now result }
{
    match place(seats, id) {
        Ok(at) => at,
        Err(gap) => gap,
    }
}

// The least reference in the other slots.
fn least_of_others<L: Ledger>(index: &Least<u64>, slot: u64, blank: Blank) -> Option<u64>
    requires name { blank.name ≡ L.name }
    requires parts { blank.parts ≡ L.parts }
    requires some { 0 < blank.parts }
    requires slot { slot < length index.now }
    ensures { IsLeastHeld itself (slice_set index.now slot None) result }
{
    let mut steps = Steps::<L>::new(blank);
    match index.least_without(slot, &mut steps) {
        Some(reference) => Some(*reference),
        None => None,
    }
}

// Puts each reference that is above a number down to it.
fn put_each_down<L: Ledger>(
    seats: &mut Vec<Seat>,
    index: &mut Least<u64>,
    free: &[u64],
    most: u64,
    blank: Blank,
)
    requires name { blank.name ≡ L.name }
    requires parts { blank.parts ≡ L.parts }
    requires some { 0 < blank.parts }
    requires indexed { IsIndexed seats.old.items index.old free.now }
    ensures indexed { IsIndexed seats.new.items index.new free.now }
    ensures down { seats.new.items ≡ map (seat_up_to most) seats.old.items }
    ensures room { vec_capacity seats.new ≡ vec_capacity seats.old }
    ensures slots { length index.new ≡ length index.old }
{
    let mut steps = Steps::<L>::new(blank);
    for at in 0..seats.len() {
        let seat = &mut seats[at];
        let lowered = seat.row.reference.min(most);
        seat.row.reference = lowered;
        let slot = seat.slot;
        index.set(slot, lowered, &mut steps);
    }
}

// The seats once more, with room for so many.
fn copy_seats(alloc: Global, seats: &[Seat], room: usize) -> Result<Vec<Seat>, NoMemory>
    ensures copied { IfOk result (λ copy. copy.items ≡ seats.now) }
    ensures room { IfOk result (λ copy. room ≤ vec_capacity copy) }
{
    let mut copy = Vec::with_capacity(alloc, room)?;
    for seat in seats {
        copy.push(Seat {
            id: seat.id.copy(alloc)?,
            row: seat.row,
            slot: seat.slot,
        })?;
    }
    Ok(copy)
}

// The slots once more, with room for so many.
fn copy_slots(alloc: Global, slots: &[u64], room: usize) -> Result<Vec<u64>, NoMemory>
    ensures copied { IfOk result (λ copy. copy.items ≡ slots.now) }
    ensures room { IfOk result (λ copy. room ≤ vec_capacity copy) }
{
    let mut copy = Vec::with_capacity(alloc, room)?;
    for slot in slots {
        copy.push(*slot)?;
    }
    Ok(copy)
}
