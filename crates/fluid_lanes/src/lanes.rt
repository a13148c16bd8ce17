//! The documents that are open, by name.
ghost use Rattle.std.specs.Prelude.{◌≡◌, ◌≤◌, is_some, IsSome, IfOk, IfErr, Some};
ghost use Rattle.std.specs.FinMap.{get, keys, len};
ghost use Rattle.fluid_log.specs.declared.keeper.TheConstants.{LONGEST_KEPT};
ghost use Rattle.fluid_log.specs.Shelving.{AreWhole};
ghost use Rattle.fluid_types.specs.Forms.{largest};
ghost use Rattle.fluid_opening.specs.Opening.{IsRisen};
ghost use Rattle.fluid_lanes.specs.Opened.{nothing_open, with_lane};
ghost use Rattle.fluid_lanes.specs.Using.{Uses, Ends, Reopens, Finds, LentBy, LeftBy, StandsAgain, StandsAgainPerhapsWith};
ghost use Rattle.fluid_lanes.specs.Closing.{Closes};

use crate::closing::close_all;
use crate::rows::Rows;
use fluid_json::NoMemory;
use fluid_lane::{Lane, Limits};
use fluid_log::Shelves;
use fluid_opening::{DoorFault, MOST_DOCUMENTS, start_lane};
use fluid_types::DocName;
use std::alloc::Global;
use std::marker::Model;

/// The documents that are open, by name, over the shelves of their keepers. Whoever has it is the only one who uses them.
#[derive(Drop)]
pub struct Lanes<B: Shelves> {
    shelves: B,
    lanes: Rows<Lane<B::K>>,
    limits: Limits,
}

impl<B: Shelves> Model for Lanes<B> {
    ghost use Rattle.fluid_lanes.specs.Opened.{Opened, AreOut, opened_code};

    ghost Value = { Opened };

    ghost coded = { opened_code };

    ghost view = { λ l. record { shelving = B.seen l.shelves; lanes = l.lanes.values; limits = l.limits } };

    ghost invariant = { λ l. AreOut (record { shelving = B.seen l.shelves; lanes = l.lanes.values; limits = l.limits }) };
}

impl<B: Shelves> Lanes<B>
where
    B::K: Drop,
{
    ghost use Rattle.std.specs.Borrow.{Lends, LendsSoOk, sem};
    ghost use Rattle.fluid_lanes.specs.contracts.lanes.Lanes.{the_row};
    ghost use Rattle.fluid_lane.specs.contracts.lane.Lane as lane;

    /// No document is open yet. Each will have these limits. Takes no memory.
    pub fn new(alloc: Global, shelves: B, limits: Limits) -> Lanes<B>
        requires whole { AreWhole (B.seen shelves) }
        requires small { limits.bytes ≤ LONGEST_KEPT }
        ensures { result ≡ nothing_open (B.seen shelves) limits }
    {
        Lanes {
            shelves,
            lanes: Rows::new(alloc),
            limits,
        }
    }

    /// The limits of each document.
    pub fn limits(&self) -> Limits
        ensures is { result ≡ self.now.limits }
        ensures small { result.bytes ≤ LONGEST_KEPT }
    {
        self.limits
    }

    /// How many documents are open.
    pub fn count(&self) -> u64
        ensures { result ≡ len self.now.lanes }
    {
        self.lanes.len()
    }

    pub fn is_open(&self, name: &DocName) -> bool
        ensures { result ≡ is_some (get self.now.lanes name.now) }
    {
        self.lanes.get(name).is_some()
    }

    /// The names of the open documents, in byte order.
    pub fn names(&self, alloc: Global) -> Result<Vec<DocName>, NoMemory>
        ensures { IfOk result (λ names. names.items ≡ keys self.now.lanes) }
    {
        let rows = self.lanes.as_slice();
        let mut names = Vec::with_capacity(alloc, rows.len())?;
        for row in rows {
            let name = row.0.copy(alloc)?;
            names.push(name)?;
        }
        Ok(names)
    }

    /// How many faults the shelves have counted. Those of a keeper that is out are counted when it is back.
    pub fn faults(&self) -> u64
        ensures { result ≡ self.now.shelving.faults }
    {
        self.shelves.faults()
    }

    /// Opens a document that isn't open yet: its keeper is taken from its shelf, and its lane is started at this moment, in
    /// milliseconds. After a fault the document is closed, and its keeper on its shelf.
    pub fn open(&mut self, alloc: Global, name: &DocName, moment: u64) -> Result<(), DoorFault>
        requires moment { moment ≤ largest }
        ensures does { Uses name.now moment self.old self.new result }
        ensures later { self.old.shelving.faults ≤ self.new.shelving.faults }
    {
        if self.is_open(name) {
            return Ok(());
        }
        let count = self.lanes.len();
        if count >= MOST_DOCUMENTS {
            return Err(DoorFault::TooManyDocuments(count));
        }
        self.lanes.reserve()?;
        let own = name.copy(alloc)?;
        match start_lane(alloc, &mut self.shelves, name, self.limits, moment) {
            Ok(lane) => {
                self.lanes.insert(own, lane);
                Ok(())
            }
            Err(fault) => Err(fault),
        }
    }

    /// The lane of a document that is open. Takes no memory.
    pub fn lent(&mut self, name: &DocName) -> &mut Lane<B::K>
        requires { IsSome (get self.old.lanes name.now) }
        ensures* lends { sem 𝓛 (Lends (the_row B.row B.K.row B.Shelves B.K.Keeper) (lane.the_row B.K.row B.K.Keeper) self.entry result (with_lane self.old name.now)) }
        ensures value { get self.old.lanes name.now ≡ Some result.now }
        ensures out { IsSome (get self.old.shelving.out name.now) }
    {
        self.lanes.lent(name)
    }

    /// The lane of a document, which is opened where it isn't open.
    pub fn lane(
        &mut self,
        alloc: Global,
        name: &DocName,
        moment: u64,
    ) -> Result<&mut Lane<B::K>, DoorFault>
        requires moment { moment ≤ largest }
        ensures* lends { sem 𝓛 (LendsSoOk (the_row B.row B.K.row B.Shelves B.K.Keeper) (lane.the_row B.K.row B.K.Keeper) self.entry result (LentBy name.now moment self.old) (LeftBy name.now moment self.old result)) }
        ensures value { IfOk result (λ lane. Finds name.now moment self.old lane.now) }
    {
        self.open(alloc, name, moment)?;
        Ok(self.lent(name))
    }

    /// Closes a document and opens it as a new process does. After a fault it is closed, its keeper on its shelf, and the next use
    /// opens it.
    pub fn reopen(&mut self, alloc: Global, name: &DocName, moment: u64) -> Result<(), DoorFault>
        requires moment { moment ≤ largest }
        ensures does { Reopens name.now moment self.old self.new result }
        ensures later { self.old.shelving.faults ≤ self.new.shelving.faults }
        ensures cause { IfErr result (IsRisen self.old.shelving.faults self.new.shelving.faults) }
        ensures again { IfOk result (λ _. StandsAgain name.now moment self.old self.new) }
        ensures owed { IfOk result (λ _. StandsAgainPerhapsWith name.now moment self.old self.new) }
    {
        self.end(name);
        self.open(alloc, name, moment)
    }

    /// Closes all documents: each keeper is back on its shelf. Takes no memory.
    pub fn close(self) -> B
        ensures { Closes self (B.seen result) }
    {
        let Lanes { shelves, lanes, .. } = self;
        close_all(shelves, lanes)
    }

    // Closes a document that is open.
    fn end(&mut self, name: &DocName)
        ensures { Ends name.now (get self.old.lanes name.now) self.old self.new }
    {
        match self.lanes.take(name) {
            Some(lane) => self.shelves.put_back(name, lane.close()),
            None => {}
        }
    }
}
