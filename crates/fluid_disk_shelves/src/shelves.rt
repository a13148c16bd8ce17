//! Shelves over disks.
ghost use Rattle.std.specs.Prelude.{◌≡◌, ℕ, ◌≤◌, None, Some, IsSome, IfOk, IfErr, OnOk};
ghost use Rattle.std.specs.FinMap.{empty, get, insert};
ghost use Rattle.fluid_log.specs.Calls.{IsCaused, RoseAt};
ghost use Rattle.fluid_log.specs.Shelving.{GiveDoes, PutsBack, IsCovered, IsIn, IsOut, AreWhole};
ghost use Rattle.fluid_log.specs.Places.{faults_back};
ghost use Rattle.fluid_disk_keeper.specs.Keepers.{kept_on};
ghost use Rattle.fluid_disk_shelves.specs.Shelves.{shelves_on, IsNotOut, TakesKeeper, IsRefused};
ghost use Rattle.fluid_disk_shelves.specs.declared.seat.Seat.TheVariants.{Shut, In, Out};

use crate::Seat;
use fluid_disk::Disk;
use fluid_disk_keeper::{DiskKeeper, Disks};
use fluid_json::NoMemory;
use fluid_log::{Keeper, KeeperFault, Shelves};
use fluid_table::SortedMap;
use fluid_types::DocName;
use std::alloc::Global;
use std::marker::Model;

/// Shelves whose documents are each on disks of their own. A keeper that came back stays open.
#[derive(Drop)]
pub struct DiskShelves<D: Disk> {
    seats: SortedMap<DocName, Seat<D>>,
    faults: u64,
}

impl<D: Disk> Model for DiskShelves<D> {
    ghost use Rattle.fluid_disk_shelves.specs.Shelves.{DiskShelving, disk_shelving_code, AreBelow};

    ghost Value = { DiskShelving D };

    ghost coded = { disk_shelving_code D D.code };

    ghost view = { λ s. record { seats = s.seats.values; faults = s.faults } };

    ghost invariant = { λ s. AreBelow s.faults s.seats.values };
}

impl<D: Disk + Drop> DiskShelves<D> {
    /// No document has disks.
    pub fn new(alloc: Global) -> DiskShelves<D>
        ensures is { result ≡ record { seats = empty; faults = 0 } }
        ensures whole { AreWhole (shelves_on D.seen D.tells result) }
    {
        DiskShelves {
            seats: SortedMap::new(alloc),
            faults: 0,
        }
    }

    /// Puts in the disks of a document that has none yet. After `NoMemory` the shelves are as they were.
    pub fn add(&mut self, name: DocName, disks: Disks<D>) -> Result<(), (Disks<D>, NoMemory)>
        requires { get self.old.seats name ≡ None }
        ensures added { OnOk result (self.new ≡ record { seats = insert self.old.seats name (Shut disks); faults = self.old.faults }) }
        ensures same { IfErr result (λ back. (self.new ≡ self.old) × (back.0 ≡ disks)) }
        ensures whole { AreWhole (shelves_on D.seen D.tells self.old) → AreWhole (shelves_on D.seen D.tells self.new) }
    {
        match self.seats.reserve(1) {
            Ok(()) => {
                self.seats.insert(name, Seat::Shut(disks));
                Ok(())
            }
            Err(NoMemory) => Err((disks, NoMemory)),
        }
    }
}

impl<D: Disk + Drop> Shelves for DiskShelves<D> {
    type K = DiskKeeper<D>;

    ghost use Rattle.fluid_disk_shelves.specs.Shelves.{shelves_on};

    ghost seen = { shelves_on D.seen D.tells };

    fn faults(&self) -> u64 {
        self.faults
    }

    /// Opens the disks of a document that weren't opened yet. A document without disks answers `Failed`.
    fn keeper(&mut self, alloc: Global, name: &DocName) -> Result<DiskKeeper<D>, KeeperFault>
        requires { IsIn (shelves_on D.seen D.tells self.old) name.now }
        ensures cause { IsCaused self.old.faults self.new.faults result }
        ensures does { GiveDoes (kept_on D.seen) name.now (shelves_on D.seen D.tells self.old) (shelves_on D.seen D.tells self.new) result }
        ensures covered { IsCovered (shelves_on D.seen D.tells self.new) }
        ensures kept { IfOk result (TakesKeeper D.seen D.may_leave name.now self.old.seats self.new.seats) }
        ensures refused { IfErr result (IsRefused D.seen name.now self.old.seats self.new.seats) }
    {
        match take(alloc, &mut self.seats, name.as_str()) {
            Ok(keeper) => Ok(keeper),
            Err(fault) => {
                self.faults = counted(self.faults, fault);
                Err(fault)
            }
        }
    }

    fn put_back(&mut self, name: &DocName, keeper: DiskKeeper<D>)
        requires { IsOut (shelves_on D.seen D.tells self.old) name.now }
        ensures does { PutsBack name.now (shelves_on D.seen D.tells self.old) (shelves_on D.seen D.tells self.new) (kept_on D.seen keeper) }
        ensures covered { IsCovered (shelves_on D.seen D.tells self.new) }
        ensures seats { self.new.seats ≡ insert self.old.seats name.now (In keeper) }
        ensures faults { (given : ℕ) → get self.old.seats name.now ≡ Some (Out given) →
            self.new.faults ≡ faults_back given keeper.faults self.old.faults }
    {
        let back = keeper.faults();
        let before = self.seats.replace(name.as_str(), Seat::In(keeper));
        self.faults = behind(&before, back, self.faults);
    }
}

// The count of shelves behind a fault of opening.
fn counted(faults: u64, fault: KeeperFault) -> u64
    ensures rose { RoseAt faults result fault }
    ensures later { faults ≤ result }
{
    match fault {
        KeeperFault::Failed => faults.saturating_add(1),
        KeeperFault::NoMemory => faults,
    }
}

// The count of shelves behind a keeper that came back with so many faults.
fn behind<D: Disk>(before: &Option<Seat<D>>, back: u64, faults: u64) -> u64
    ensures given { (given : ℕ) → before.now ≡ Some (Out given) → result ≡ faults_back given back faults }
    ensures later { faults ≤ result }
{
    match before {
        Some(Seat::Out(given)) if given.saturating_add(1) <= back => {
            faults.saturating_add(1).max(back)
        }
        _ => faults,
    }
}

// Takes the keeper of a document out of its seat, which keeps the count of faults with which it is given.
fn take<D: Disk + Drop>(
    alloc: Global,
    seats: &mut SortedMap<DocName, Seat<D>>,
    name: &str,
) -> Result<DiskKeeper<D>, KeeperFault>
    requires { IsNotOut (get seats.old.values name.now) }
    ensures kept { IfOk result (TakesKeeper D.seen D.may_leave name.now seats.old.values seats.new.values) }
    ensures refused { IfErr result (IsRefused D.seen name.now seats.old.values seats.new.values) }
{
    match seats.replace(name, Seat::Out(0)) {
        None => Err(KeeperFault::Failed),
        Some(Seat::In(keeper)) => {
            seats.replace(name, Seat::Out(keeper.faults()));
            Ok(keeper)
        }
        Some(Seat::Shut(disks)) => match DiskKeeper::open(alloc, disks) {
            Ok(keeper) => Ok(keeper),
            Err((disks, fault)) => {
                seats.replace(name, Seat::Shut(disks));
                Err(fault)
            }
        },
        Some(Seat::Out(_given)) => unreachable!(),
    }
}
