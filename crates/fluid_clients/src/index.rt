//! A tournament: the least of values in slots, in a number of comparisons that grows with the logarithm of the slots.
ghost use Rattle.std.specs.Prelude.{◌≡◌, ℕ, ◌+◌, ◌-◌, ◌*◌, ◌^◌, ◌<◌, ◌≤◌, ◌++◌, ◌∷◌, [], None, Some, IfOk, OnOk, OnErr, IsTrue, ◌↔◌, length, nat_lt, option_map, slice_index_or, slice_set};
ghost use Rattle.fluid_clients.specs.Index.{IsLeastHeld, itself};
ghost use Rattle.fluid_clients.specs.Rounds.{IsTournament, IsTournamentBut, IsHeld, IsPick, IsBestWithout, IsShaped, HasRoom, IsNeighbour, root_of, held_by, IsHigh};

use crate::round::Round;
use crate::steps::Steps;
use fluid_json::NoMemory;
use std::alloc::Global;
use std::marker::Model;
use std::sync::ledger::Ledger;

/// What has a number by which it is ranked. Nothing else is known of it.
pub trait Rank {
    ghost use Rattle.std.specs.Prelude.{◌≡◌, ℕ, ◌+◌, nat_lt};

    ghost number: { Self → ℕ };

    /// Whether this value's number is below the other's. One step.
    fn before<L: Ledger>(&self, other: &Self, steps: &mut Steps<L>) -> bool
        ensures answer { result ≡ nat_lt (number self.now) (number other.now) }
        ensures step { steps.new ≡ steps.old + 1 };
}

/// A number is ranked by itself.
impl Rank for u64 {
    ghost number = { itself };

    fn before<L: Ledger>(&self, other: &u64, steps: &mut Steps<L>) -> bool {
        steps.tick();
        *self < *other
    }
}

/// Slots, each with a value or none, and which value is the least. Contracts see the slots.
#[derive(Drop)]
pub struct Least<T: Rank> {
    slots: Vec<Option<T>>,
    // The winners of single slots, of pairs of slots, of pairs of these, and so on.
    rounds: Vec<Round>,
}

impl<T: Rank> Model for Least<T> {
    ghost use Rattle.std.specs.Prelude.{List, Option};
    ghost use Rattle.fluid_clients.specs.Rounds.{IsTournament};

    ghost Value = { List (Option T) };

    ghost view = { λ l. l.slots.items };

    ghost invariant = { λ l. IsTournament T.number l.slots.items l.rounds.items };
}

impl<T: Rank + Drop> Least<T> {
    /// No slots. Takes no memory.
    pub fn new(alloc: Global) -> Least<T>
        ensures { result ≡ [] }
    {
        Least {
            slots: Vec::new(alloc),
            rounds: Vec::new(alloc),
        }
    }

    /// How many slots there are.
    pub fn len(&self) -> u64
        ensures { result ≡ length self.now }
    {
        self.slots.len() as u64
    }

    /// A value whose number is at most that of each held one; none where no slot holds a value. It compares nothing.
    pub fn least(&self) -> Option<&T>
        ensures { IsLeastHeld T.number self.now (option_map (λ value. value.now) result) }
    {
        value_of(&self.slots, root(&self.rounds))
    }

    /// The least value of the other slots.
    pub fn least_without<L: Ledger>(&self, slot: u64, steps: &mut Steps<L>) -> Option<&T>
        requires { slot < length self.now }
        ensures least { IsLeastHeld T.number (slice_set self.now slot None) (option_map (λ value. value.now) result) }
        ensures cost { 2 ^ (steps.new - steps.old) ≤ 2 * length self.now }
    {
        let winner = winner_without(&self.slots, &self.rounds, slot as usize, steps);
        value_of(&self.slots, winner)
    }

    /// Puts a value into a slot, in place of the one that it held.
    pub fn set<L: Ledger>(&mut self, slot: u64, value: T, steps: &mut Steps<L>)
        requires { slot < length self.old }
        ensures set { self.new ≡ slice_set self.old slot (Some value) }
        ensures cost { 2 ^ (steps.new - steps.old) ≤ 2 * length self.old }
    {
        let slot = slot as usize;
        self.slots[slot] = Some(value);
        self.rounds[0].put(slot, Some(slot));
        replay(&self.slots, &mut self.rounds, slot, steps);
    }

    /// Takes the value out of a slot.
    pub fn clear<L: Ledger>(&mut self, slot: u64, steps: &mut Steps<L>)
        requires { slot < length self.old }
        ensures cleared { self.new ≡ slice_set self.old slot None }
        ensures cost { 2 ^ (steps.new - steps.old) ≤ 2 * length self.old }
    {
        let slot = slot as usize;
        self.slots[slot] = None;
        self.rounds[0].put(slot, None);
        replay(&self.slots, &mut self.rounds, slot, steps);
    }

    /// One more slot, which holds nothing. After `NoMemory` the slots are as they were.
    pub fn grow(&mut self) -> Result<(), NoMemory>
        ensures grown { OnOk result (self.new ≡ self.old ++ None ∷ []) }
        ensures unchanged { OnErr result (self.new ≡ self.old) }
    {
        widen(&self.slots, &mut self.rounds)?;
        heighten(&self.slots, &mut self.rounds)?;
        self.slots.push(None)?;
        Ok(())
    }
}

impl<T: Rank + Copy + Drop> Least<T> {
    /// The same slots once more, with their own memory. It compares nothing.
    pub fn copy(&self, alloc: Global) -> Result<Least<T>, NoMemory>
        ensures { IfOk result (λ copy. copy ≡ self.now) }
    {
        let mut slots = Vec::with_capacity(alloc, self.slots.len())?;
        for value in &self.slots {
            slots.push(*value)?;
        }
        let mut rounds = Vec::with_capacity(alloc, self.rounds.len())?;
        for round in &self.rounds {
            rounds.push(round.copy(alloc)?)?;
        }
        Ok(Least { slots, rounds })
    }
}

// The winner of the last match.
fn root(rounds: &Vec<Round>) -> Option<usize>
    ensures { result ≡ root_of rounds.now.items }
{
    match rounds.last() {
        Some(top) => top.at(0),
        None => None,
    }
}

// What a slot that won holds.
fn value_of<T>(slots: &[Option<T>], winner: Option<usize>) -> Option<&T>
    requires { IsHeld slots.now winner }
    ensures { option_map (λ value. value.now) result ≡ held_by slots.now winner }
{
    match winner {
        Some(slot) => slots[slot].as_ref(),
        None => None,
    }
}

// Plays again each match that the slot may be in.
fn replay<T: Rank, L: Ledger>(
    slots: &[Option<T>],
    rounds: &mut Vec<Round>,
    slot: usize,
    steps: &mut Steps<L>,
)
    requires slot { slot < length slots.now }
    requires but { IsTournamentBut T.number slots.now rounds.old.items slot 1 }
    ensures played { IsTournament T.number slots.now rounds.new.items }
    ensures cost { 2 ^ (steps.new - steps.old) ≤ 2 * length slots.now }
{
    let mut node = slot;
    for round in 0..rounds.len() - 1 {
        node /= 2;
        let one = rounds[round].at(2 * node);
        let other = rounds[round].at(2 * node + 1);
        let winner = play(slots, one, other, steps);
        rounds[round + 1].put(node, winner);
    }
}

// The winner of all slots but one: of the matches on its way, it takes the other side.
fn winner_without<T: Rank, L: Ledger>(
    slots: &[Option<T>],
    rounds: &Vec<Round>,
    slot: usize,
    steps: &mut Steps<L>,
) -> Option<usize>
    requires slot { slot < length slots.now }
    requires tournament { IsTournament T.number slots.now rounds.now.items }
    ensures winner { IsBestWithout T.number slots.now slot result }
    ensures cost { 2 ^ (steps.new - steps.old) ≤ 2 * length slots.now }
{
    let mut node = slot;
    let mut winner = None;
    for round in 0..rounds.len() - 1 {
        let other = rounds[round].at(neighbour(node));
        winner = play(slots, winner, other, steps);
        node /= 2;
    }
    winner
}

// The other node of the match that a node is in.
fn neighbour(node: usize) -> usize
    ensures { IsNeighbour node result }
{
    if node % 2 == 0 { node + 1 } else { node - 1 }
}

// Which of two slots holds the lesser value.
fn play<T: Rank, L: Ledger>(
    slots: &[Option<T>],
    one: Option<usize>,
    other: Option<usize>,
    steps: &mut Steps<L>,
) -> Option<usize>
    requires one { IsHeld slots.now one }
    requires other { IsHeld slots.now other }
    ensures pick { IsPick T.number slots.now one other result }
    ensures cost { steps.new ≤ steps.old + 1 }
{
    match (one, other) {
        (Some(one), Some(other)) => Some(lesser(slots, one, other, steps)),
        (one, other) => one.or(other),
    }
}

// The slot of the lesser value.
fn lesser<T: Rank, L: Ledger>(
    slots: &[Option<T>],
    one: usize,
    other: usize,
    steps: &mut Steps<L>,
) -> usize
    requires one { IsHeld slots.now (Some one) }
    requires other { IsHeld slots.now (Some other) }
    ensures pick { IsPick T.number slots.now (Some one) (Some other) (Some result) }
    ensures cost { steps.new ≤ steps.old + 1 }
{
    let first = slots[one].as_ref().unwrap();
    let second = slots[other].as_ref().unwrap();
    if second.before(first, steps) {
        other
    } else {
        one
    }
}

// Makes each round wide enough for one more slot.
fn widen<T: Rank>(slots: &[Option<T>], rounds: &mut Vec<Round>) -> Result<(), NoMemory>
    requires { IsTournament T.number slots.now rounds.old.items }
    ensures tournament { IsTournament T.number slots.now rounds.new.items }
    ensures wide { OnOk result (HasRoom (length slots.now) rounds.new.items) }
{
    let mut node = slots.len();
    for round in 0..rounds.len() {
        rounds[round].widen(node)?;
        node /= 2;
    }
    Ok(())
}

// Puts a round over the others where their last one has more than one node.
fn heighten<T: Rank>(slots: &[Option<T>], rounds: &mut Vec<Round>) -> Result<(), NoMemory>
    requires tournament { IsTournament T.number slots.now rounds.old.items }
    requires wide { HasRoom (length slots.now) rounds.old.items }
    ensures tournament { IsTournament T.number slots.now rounds.new.items }
    ensures high { OnOk result (IsShaped (length slots.now + 1) rounds.new.items) }
{
    if is_high(rounds) {
        return Ok(());
    }
    let alloc = *rounds.allocator();
    let round = Round::of_one(alloc, root(rounds))?;
    rounds.push(round)?;
    Ok(())
}

// Whether the last round has one node.
fn is_high(rounds: &Vec<Round>) -> bool
    ensures { IsTrue result ↔ IsHigh rounds.now.items }
{
    match rounds.last() {
        Some(top) => top.len() < 2,
        None => false,
    }
}
