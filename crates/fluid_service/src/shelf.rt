//! What a service has in hand, and what is done to it by whoever has it.
ghost use Rattle.std.specs.Prelude.{◌≡◌, ◌+◌, ◌<◌, ◌≤◌, List, false, length, IfOk, IfErr, IfSome, OnOk, OnErr};
ghost use Rattle.std.specs.String.{string_bytes};
ghost use Rattle.fluid_log.specs.declared.keeper.TheConstants.{LONGEST_KEPT};
ghost use Rattle.fluid_log.specs.Shelving.{AreWhole};
ghost use Rattle.fluid_types.specs.Forms.{largest};
ghost use Rattle.fluid_opening.specs.declared.opening.TheConstants.{MOST_DOCUMENTS};
ghost use Rattle.fluid_opening.specs.declared.shelf.ShelfStep.{ShelfStep as AShelfStep};
ghost use Rattle.fluid_service.specs.Visiting.{find_visit, FindsVisit, IsFound};
ghost use Rattle.fluid_opening.specs.Steps.{opened, is_opened, refusal, opening_steps, IsOpeningFault};
ghost use Rattle.fluid_service.specs.Shelved.{AreKept, GiveKept, nothing_open, is_open, terms_of, with_failure, ShelfStands, Continues};
ghost use Rattle.fluid_service.specs.Keys.{IsVisitOf};
ghost use Rattle.fluid_service.specs.Opening.{OpensBy, GoesOn, StartsVisit};
ghost use Rattle.fluid_service.specs.Closing.{ComesBack};

use crate::ending::close_all;
use crate::opening::open_door;
use crate::roll::Roll;
use crate::terms::ShelfTerms;
use crate::visit::Visit;
use fluid_document::kept_is_loaded;
use fluid_doors::new_keepers_are_kept;
use fluid_json::{LARGEST, NoMemory};
use fluid_lane::{LaneFault, Limits};
use fluid_log::Shelves;
use fluid_opening::{DoorFault, MOST_DOCUMENTS, ShelfStep, start_lane};
use fluid_turn::Chronicle;
use fluid_types::DocName;
use std::alloc::Global;
use std::marker::Model;
use std::sync::Wait;

/// The shelves of the documents' keepers, and a visit of each open document. Its history is the list of steps for which it stands.
#[derive(Drop)]
pub struct Shelf<B: Shelves> {
    shelves: B,
    visits: Roll<B::K>,
    limits: Limits,
    failed: u64,
    last: Option<(DocName, DoorFault)>,
}

impl<B: Shelves> Model for Shelf<B> {
    ghost use Rattle.fluid_service.specs.Shelved.{Shelved, IsShelf, GiveKept};
    ghost use Rattle.fluid_service.specs.Codes.{shelved_code};

    ghost Value = { Shelved };

    ghost coded = { shelved_code };

    ghost view = { λ s. record { shelving = B.seen s.shelves; visits = s.visits.visits; limits = s.limits; failed = s.failed; last = s.last } };

    ghost invariant = { λ s. IsShelf (record { shelving = B.seen s.shelves; visits = s.visits.visits; limits = s.limits; failed = s.failed; last = s.last }) × GiveKept B.K.seen (B.seen s.shelves) };
}

impl<B: Shelves> Chronicle for Shelf<B> {
    ghost use Rattle.fluid_service.specs.Shelved.{ShelfStands, terms_of};

    type Entry = ShelfStep;

    type Fixed = ShelfTerms;

    ghost stands = { λ s l. ShelfStands s l };

    ghost fixed = { λ s. terms_of s };

    fn entered(&self) -> u64 {
        self.number()
    }
}

impl<B: Shelves> Shelf<B> {
    /// No document is open yet. Each will have these limits.
    pub fn new(alloc: Global, shelves: B, limits: Limits) -> Shelf<B>
        requires whole { AreWhole (B.seen shelves) }
        requires kept { AreKept (B.seen shelves) }
        requires give { GiveKept B.K.seen (B.seen shelves) }
        requires small { limits.bytes ≤ LONGEST_KEPT }
        ensures { result ≡ nothing_open (B.seen shelves) limits }
    {
        Shelf {
            shelves,
            visits: Roll::new(alloc),
            limits,
            failed: 0,
            last: None,
        }
    }

    /// How many steps were taken.
    pub fn number(&self) -> u64
        ensures steps { (l : List AShelfStep) → ShelfStands self.now l → result ≡ length l }
        ensures few { result ≤ largest }
    {
        self.visits.len() + self.failed
    }

    /// Another visit of a document that is open; none of one that isn't.
    pub fn find(&mut self, name: &DocName) -> Result<Option<Visit<B::K>>, NoMemory>
        ensures same { self.new ≡ self.old }
        ensures found { FindsVisit (find_visit name.now self.old.visits) result }
        ensures visit { IfOk result (λ found. IfSome found (IsVisitOf (terms_of self.old) name.now)) }
        ensures says { (l : List AShelfStep) → ShelfStands self.old l → IsFound (is_opened name.now l) result }
    {
        self.visits.find(name)
    }

    /// Why no further document is opened now: all numbers of steps are used up, or as many documents are open as may be.
    pub fn refusal(&self) -> Option<DoorFault>
        ensures { (l : List AShelfStep) → ShelfStands self.now l → result ≡ refusal l }
    {
        if self.number() >= LARGEST {
            return Some(DoorFault::Lane(LaneFault::Worn));
        }
        if self.visits.len() >= MOST_DOCUMENTS {
            return Some(DoorFault::TooManyDocuments(MOST_DOCUMENTS));
        }
        None
    }

    /// The names of the open documents, in the order of their opening.
    pub fn names(&self, alloc: Global) -> Result<Vec<DocName>, NoMemory>
        ensures { (l : List AShelfStep) → ShelfStands self.now l → IfOk result (λ names. names.items ≡ opened l) }
    {
        self.visits.names(alloc)
    }
}

impl<B: Shelves> Shelf<B>
where
    B::K: Drop,
{
    /// Opens a document that isn't open: its keeper is taken from its shelf, and its lane is started at this moment, in
    /// milliseconds. After a fault its keeper is back on its shelf.
    pub fn open<R: Wait>(
        &mut self,
        rt: &R,
        alloc: Global,
        name: &DocName,
        moment: u64,
    ) -> Result<Visit<B::K>, DoorFault>
        requires closed { is_open name.now self.old ≡ false }
        requires room { length self.old.visits < MOST_DOCUMENTS }
        requires few { self.old.failed + length self.old.visits < largest }
        requires moment { moment ≤ largest }
        ensures goes { Continues self.old self.new (opening_steps name.now result) }
        ensures does { OpensBy name.now moment self.old self.new result }
        ensures visit { IfOk result (IsVisitOf (terms_of self.old) name.now) }
        ensures faults { IfErr result (IsOpeningFault (terms_of self.old).told) }
    {
        match self.start(rt, alloc, name, moment) {
            Ok(visit) => Ok(visit),
            Err(DoorFault::ShelfFailed(note)) => {
                let fault = DoorFault::ShelfFailed(note);
                self.keep(alloc, name, &fault)?;
                Err(fault)
            }
            Err(DoorFault::Lane(fault)) => {
                let fault = DoorFault::Lane(fault);
                self.keep(alloc, name, &fault)?;
                Err(fault)
            }
            Err(DoorFault::TooManyDocuments(_)) => unreachable!(),
            Err(DoorFault::NoMemory) => Err(DoorFault::NoMemory),
        }
    }

    // Opens a document, and keeps a visit of it. A fault isn't counted yet.
    fn start<R: Wait>(
        &mut self,
        rt: &R,
        alloc: Global,
        name: &DocName,
        moment: u64,
    ) -> Result<Visit<B::K>, DoorFault>
        requires closed { is_open name.now self.old ≡ false }
        requires room { length self.old.visits < MOST_DOCUMENTS }
        requires few { self.old.failed + length self.old.visits < largest }
        requires moment { moment ≤ largest }
        ensures goes { GoesOn self.old.shelving self.new.shelving }
        ensures starts { StartsVisit name.now moment self.old self.new result }
    {
        kept_is_loaded();
        // (a law, and no work: its clause is for the proof)
        new_keepers_are_kept();
        self.visits.reserve()?;
        let key = text_of(alloc, name)?;
        let own = name.copy(alloc)?;
        let named = name.copy(alloc)?;
        let lane = start_lane(alloc, &mut self.shelves, name, self.limits, moment)?;
        // (read for its clause alone)
        let _number = lane.number();
        match open_door(rt, alloc, named, lane) {
            Ok((first, second)) => {
                self.visits.push(key, own, first);
                Ok(second)
            }
            Err(lane) => {
                self.shelves.put_back(name, lane.close());
                Err(DoorFault::NoMemory)
            }
        }
    }

    // Counts an opening that failed, and keeps why.
    fn keep(&mut self, alloc: Global, name: &DocName, fault: &DoorFault) -> Result<(), NoMemory>
        requires few { self.old.failed + length self.old.visits < largest }
        ensures kept { OnOk result (self.new ≡ with_failure name.now fault.now self.old) }
        ensures same { OnErr result (self.new ≡ self.old) }
    {
        let name = name.copy(alloc)?;
        let fault = fault.copy(alloc)?;
        self.last = Some((name, fault));
        self.failed += 1;
        Ok(())
    }

    /// Closes all documents: the keeper of each door that nobody else has is put back, and the others are dropped with their
    /// doors.
    pub fn close<R: Wait>(self, rt: &R) -> B
        ensures { ComesBack self (B.seen result) }
    {
        let Shelf {
            shelves,
            visits,
            ..
        } = self;
        close_all(rt, shelves, visits)
    }

    /// The shelves alone. What is out of them stays out.
    pub(crate) fn into_shelves(self) -> B
        ensures { B.seen result ≡ self.shelving }
    {
        let Shelf { shelves, .. } = self;
        shelves
    }
}

// The text of a name, with memory of its own.
fn text_of(alloc: Global, name: &DocName) -> Result<String, NoMemory>
    ensures { IfOk result (λ text. string_bytes text ≡ name.now) }
{
    let mut text = String::new(alloc);
    text.push_str(name.as_str())?;
    Ok(text)
}
