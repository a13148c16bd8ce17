//! Shelves in memory.
ghost use Rattle.std.specs.Prelude.{◌≡◌, ℕ, ◌≤◌, max, None, Some, IsSome, IfOk, OnOk, OnErr, IsOkUnless, option_and_then};
ghost use Rattle.std.specs.Option.{option_copied};
ghost use Rattle.std.specs.FinMap.{empty, get, insert};
ghost use Rattle.fluid_log.specs.Calls.{IsCaused};
ghost use Rattle.fluid_log.specs.Shelving.{GiveDoes, PutsBack, IsCovered, IsIn, IsOut, AreWhole};
ghost use Rattle.fluid_log.specs.Memory.{memory_seen};
ghost use Rattle.fluid_log.specs.Places.{shelves_seen, keeper_at, memory_in, given_with, AsksPlan, faults_back};
ghost use Rattle.fluid_log.specs.declared.place.Place.TheVariants.{In, Out};

use crate::place::Place;
use crate::table::Table;
use crate::{Keeper, KeeperFault, MemoryKeeper, Shelves};
use fluid_io::FaultPlan;
use fluid_json::NoMemory;
use fluid_types::DocName;
use std::alloc::Global;
use std::marker::Model;

/// Shelves in memory, which tell their keepers. A document that has none yet gets an empty one.
#[derive(Drop)]
pub struct MemoryShelves {
    places: Table,
    plan: FaultPlan,
    faults: u64,
}

impl Model for MemoryShelves {
    ghost use Rattle.fluid_log.specs.Places.{MemoryShelving, memory_shelving_code, AreBelow};

    ghost Value = { MemoryShelving };

    ghost coded = { memory_shelving_code };

    ghost view = { λ s. record { places = s.places; plan = s.plan; faults = s.faults } };

    ghost invariant = { λ s. AreBelow s.faults s.places };
}

impl MemoryShelves {
    /// No document was asked for yet. The calls of `keeper` whose numbers from 1 are in `failing` fail.
    pub fn new(alloc: Global, failing: Vec<u64>) -> MemoryShelves
        ensures is { result ≡ record { places = empty; plan = record { failing = failing.items; calls = 0; faults = 0 }; faults = 0 } }
        ensures whole { AreWhole (shelves_seen result) }
    {
        MemoryShelves {
            places: Table::new(alloc),
            plan: FaultPlan::new(failing),
            faults: 0,
        }
    }

    /// Puts a keeper in for a document that has none yet. After `NoMemory` the shelves are as they were, and the keeper is
    /// gone.
    pub fn add(&mut self, name: DocName, keeper: MemoryKeeper) -> Result<(), NoMemory>
        requires { get self.old.places name ≡ None }
        ensures added { OnOk result (self.new.places ≡ insert self.old.places name (In keeper)) }
        ensures same { OnErr result (self.new ≡ self.old) }
        ensures plan { self.new.plan ≡ self.old.plan }
        ensures faults { OnOk result (self.new.faults ≡ max self.old.faults keeper.plan.faults) }
        ensures whole { AreWhole (shelves_seen self.old) → AreWhole (shelves_seen self.new) }
    {
        let faults = keeper.faults();
        self.places.add(name, Place::In(keeper))?;
        self.faults = self.faults.max(faults);
        Ok(())
    }

    /// The keeper of a document that is in; none where it is out, or where the document has none yet.
    pub fn get(&self, name: &DocName) -> Option<&MemoryKeeper>
        ensures { option_copied result ≡ option_and_then memory_in (get self.now.places name.now) }
    {
        match self.places.get(name) {
            Some(Place::In(keeper)) => Some(keeper),
            _ => None,
        }
    }
}

impl Shelves for MemoryShelves {
    type K = MemoryKeeper;

    ghost use Rattle.fluid_log.specs.Places.{shelves_seen};

    ghost seen = { shelves_seen };

    fn faults(&self) -> u64 {
        self.faults
    }

    /// Answers `Failed` exactly where the plan says so.
    fn keeper(&mut self, alloc: Global, name: &DocName) -> Result<MemoryKeeper, KeeperFault>
        requires { IsIn (shelves_seen self.old) name.now }
        ensures cause { IsCaused self.old.faults self.new.faults result }
        ensures does { GiveDoes memory_seen name.now (shelves_seen self.old) (shelves_seen self.new) result }
        ensures covered { IsCovered (shelves_seen self.new) }
        ensures asks { AsksPlan self.old self.new result }
        ensures kept { IfOk result (λ keeper. keeper ≡ keeper_at (get self.old.places name.now)) }
        ensures out { IfOk result (λ keeper. self.new.places ≡ insert self.old.places name.now (Out keeper.plan.faults)) }
        ensures same { OnErr result (self.new.places ≡ self.old.places) }
    {
        if self.plan.fails() {
            self.faults = self.faults.saturating_add(1);
            return Err(KeeperFault::Failed);
        }
        let keeper = take(alloc, &mut self.places, name)?;
        Ok(keeper)
    }

    fn put_back(&mut self, name: &DocName, keeper: MemoryKeeper)
        requires { IsOut (shelves_seen self.old) name.now }
        ensures does { PutsBack name.now (shelves_seen self.old) (shelves_seen self.new) (memory_seen keeper) }
        ensures covered { IsCovered (shelves_seen self.new) }
        ensures places { self.new.places ≡ insert self.old.places name.now (In keeper) }
        ensures plan { self.new.plan ≡ self.old.plan }
        ensures faults { (given : ℕ) → get self.old.places name.now ≡ Some (Out given) →
            self.new.faults ≡ faults_back given keeper.plan.faults self.old.faults }
    {
        let back = keeper.faults();
        let before = self.places.replace(name, Place::In(keeper));
        self.faults = counted(&before, back, self.faults);
    }
}

// The count of shelves behind a keeper that came back with so many faults.
fn counted(before: &Place, back: u64, faults: u64) -> u64
    ensures given { (given : ℕ) → before.now ≡ Out given → result ≡ faults_back given back faults }
    ensures later { faults ≤ result }
{
    match before {
        Place::Out(given) if given.saturating_add(1) <= back => faults.saturating_add(1).max(back),
        _ => faults,
    }
}

// Takes the keeper of a document out.
fn take(alloc: Global, places: &mut Table, name: &DocName) -> Result<MemoryKeeper, KeeperFault>
    requires { option_and_then given_with (get places.old name.now) ≡ None }
    ensures keeper { IfOk result (λ keeper. keeper ≡ keeper_at (get places.old name.now)) }
    ensures out { IfOk result (λ keeper. places.new ≡ insert places.old name.now (Out keeper.plan.faults)) }
    ensures same { OnErr result (places.new ≡ places.old) }
    ensures memory { IsOkUnless result KeeperFault.NoMemory }
{
    match places.get(name) {
        Some(Place::In(keeper)) => {
            let given = keeper.faults();
            Ok(hand_out(places, name, given))
        }
        _ => {
            let name = name.copy(alloc)?;
            places.add(name, Place::Out(0))?;
            Ok(MemoryKeeper::new(alloc, Vec::new(alloc), Vec::new(alloc)))
        }
    }
}

// Takes a keeper that is in out of its place, which keeps the count of faults with which it was given.
fn hand_out(places: &mut Table, name: &DocName, given: u64) -> MemoryKeeper
    requires { IsSome (option_and_then memory_in (get places.old name.now)) }
    ensures keeper { get places.old name.now ≡ Some (In result) }
    ensures out { places.new ≡ insert places.old name.now (Out given) }
{
    match places.replace(name, Place::Out(given)) {
        Place::In(keeper) => keeper,
        Place::Out(_) => unreachable!(),
    }
}
