//! The documents of a process, for many users.
ghost use Rattle.std.specs.Prelude.{◌≡◌, ◌≤◌, List, [], IfOk, IfErr};
ghost use Rattle.fluid_log.specs.declared.keeper.TheConstants.{LONGEST_KEPT};
ghost use Rattle.fluid_log.specs.Shelving.{AreWhole};
ghost use Rattle.fluid_types.specs.Forms.{largest};
ghost use Rattle.fluid_opening.specs.Steps.{opened, visit_steps};
ghost use Rattle.fluid_service.specs.Shelved.{AreKept, GiveKept, shelf_terms};
ghost use Rattle.fluid_service.specs.Keys.{Passes, Reaches};
ghost use Rattle.fluid_service.specs.Closing.{Closes};

use crate::finishing::{close, open_new};
use crate::shelf::Shelf;
use crate::visit::Visit;
use fluid_json::NoMemory;
use fluid_lane::Limits;
use fluid_log::Shelves;
use fluid_opening::DoorFault;
use fluid_turn::{Seat, Turn};
use fluid_types::DocName;
use std::alloc::Global;
use std::marker::Model;
use std::sync::Wait;

/// What one user of a service knows of it.
pub type Key<B> = Seat<Shelf<B>>;

/// The documents of a process, for many users.
#[derive(Drop)]
pub struct Service<B: Shelves> {
    turn: Turn<Shelf<B>>,
}

impl<B: Shelves> Model for Service<B> {
    ghost use Rattle.std.specs.Prelude.{◌≡◌, []};
    ghost use Rattle.fluid_service.specs.Keys.{Serving};
    ghost use Rattle.fluid_service.specs.Codes.{serving_code};

    ghost Value = { Serving };

    ghost coded = { serving_code };

    ghost view = { λ s. s.turn };

    ghost invariant = { λ s. s.turn.began ≡ [] };
}

impl<B: Shelves> Service<B> {
    /// A new key of this service, with no steps of its own.
    pub fn key(&self) -> Key<B>
        ensures { (result.turn ≡ self.now) × (result.mine ≡ []) }
    {
        self.turn.seat()
    }

    /// The open documents, in the order of their opening.
    pub fn names<R: Wait>(
        &self,
        rt: &R,
        alloc: Global,
        key: Key<B>,
    ) -> (Key<B>, Result<Vec<DocName>, NoMemory>)
        requires { key.turn ≡ self.now }
        ensures { Passes key result.0 (λ l. []) (λ l. IfOk result.1 (λ names. names.items ≡ opened l)) }
    {
        let held = self.turn.take_noted(rt, key);
        let names = held.value.names(alloc);
        (close(held), names)
    }
}

impl<B: Shelves> Service<B>
where
    B::K: Drop,
{
    /// A service over these shelves, in which no document is open. Each will have these limits. With no memory the shelves come back.
    pub fn new(alloc: Global, shelves: B, limits: Limits) -> Result<Service<B>, (B, NoMemory)>
        requires whole { AreWhole (B.seen shelves) }
        requires kept { AreKept (B.seen shelves) }
        requires give { GiveKept B.K.seen (B.seen shelves) }
        requires small { limits.bytes ≤ LONGEST_KEPT }
        ensures begins { IfOk result (λ service. (service.began ≡ []) × (service.fixed ≡ shelf_terms (B.seen shelves) limits)) }
        ensures back { IfErr result (λ back. B.seen back.0 ≡ B.seen shelves) }
    {
        match Turn::new(alloc, Shelf::new(alloc, shelves, limits)) {
            Ok((turn, _)) => Ok(Service { turn }),
            Err((shelf, refused)) => Err((shelf.into_shelves(), refused)),
        }
    }

    /// A visit of a document, which is opened at its first use, at this moment in milliseconds. The key comes back in every case.
    pub fn door<R: Wait>(
        &self,
        rt: &R,
        alloc: Global,
        key: Key<B>,
        name: &DocName,
        moment: u64,
    ) -> (Key<B>, Result<Visit<B::K>, DoorFault>)
        requires key { key.turn ≡ self.now }
        requires moment { moment ≤ largest }
        ensures { Passes key result.0 (visit_steps name.now result.1) (Reaches self.now.fixed name.now result.1) }
    {
        let mut held = self.turn.take_noted(rt, key);
        match held.value.find(name) {
            Ok(Some(visit)) => (close(held), Ok(visit)),
            Ok(None) => open_new(rt, alloc, held, name, moment),
            Err(_) => (close(held), Err(DoorFault::NoMemory)),
        }
    }

    /// Closes the service: the keeper of each door that nobody else has is put back, and the other doors are dropped with their
    /// keepers.
    pub fn close<R: Wait>(self, rt: &R) -> B
    where
        B: Drop,
        ensures { Closes self (B.seen result) }
    {
        let key = self.turn.seat();
        self.turn.take(rt, key).end().close(rt)
    }
}
