// How a call on a service enters the step that it added to the shelf, and gives the shelf back.
ghost use Rattle.std.specs.Prelude.{◌≡◌, ◌≤◌, ◌++◌, ◌∷◌, [], ℕ, List, false, length};
ghost use Rattle.fluid_turn.specs.Entries.{entries};
ghost use Rattle.fluid_turn.specs.Seats.{HasNoted, entering};
ghost use Rattle.fluid_types.specs.Forms.{largest};
ghost use Rattle.fluid_opening.specs.declared.fault.DoorFault.{DoorFault as ADoorFault};
ghost use Rattle.fluid_opening.specs.declared.shelf.ShelfStep.{ShelfStep as AShelfStep};
ghost use Rattle.fluid_opening.specs.Steps.{opening_steps, visit_steps_by, refusal, HasFault};
ghost use Rattle.fluid_service.specs.Shelved.{terms_of, is_open, ShelfStands};
ghost use Rattle.fluid_service.specs.Keys.{adding, OpensNew};

use crate::service::Key;
use crate::shelf::Shelf;
use crate::visit::Visit;
use fluid_log::Shelves;
use fluid_opening::{DoorFault, ShelfStep};
use fluid_turn::Held;
use fluid_types::DocName;
use std::alloc::Global;
use std::sync::Wait;

// Enters a step and gives the shelf back.
fn close_with<B: Shelves>(held: Held<'_, Shelf<B>>, step: &ShelfStep) -> Key<B>
    requires noted { HasNoted held.place }
    requires stands { ShelfStands held.value (entries held.place.list ++ step.now ∷ []) }
    requires fixed { terms_of held.value ≡ held.place.seat.turn.fixed }
    ensures key { result ≡ entering step.now held.entry.place.seat }
    ensures few { length result.seen ≤ largest }
{
    let mut held = held;
    // (read for its clause alone)
    let _number = held.value.number();
    held.enter(step);
    held.give()
}

// Gives the shelf back with nothing entered.
pub(crate) fn close<B: Shelves>(held: Held<'_, Shelf<B>>) -> Key<B>
    requires noted { HasNoted held.place }
    requires stands { ShelfStands held.value (entries held.place.list) }
    requires fixed { terms_of held.value ≡ held.place.seat.turn.fixed }
    ensures key { result ≡ held.entry.place.seat }
    ensures few { length result.seen ≤ largest }
{
    // (read for its clause alone)
    let _number = held.value.number();
    held.give()
}

// Opens a document that isn't open, unless it is refused.
pub(crate) fn open_new<R: Wait, B: Shelves>(
    rt: &R,
    alloc: Global,
    held: Held<'_, Shelf<B>>,
    name: &DocName,
    moment: u64,
) -> (Key<B>, Result<Visit<B::K>, DoorFault>)
where
    B::K: Drop,
    requires noted { HasNoted held.place }
    requires stands { ShelfStands held.value (entries held.place.list) }
    requires fixed { terms_of held.value ≡ held.place.seat.turn.fixed }
    requires closed { is_open name.now held.value ≡ false }
    requires moment { moment ≤ largest }
    ensures key { result.0 ≡ adding (visit_steps_by false (refusal (entries held.entry.place.list)) name.now result.1) held.entry.place.seat }
    ensures few { length result.0.seen ≤ largest }
    ensures answer { OpensNew (terms_of held.entry.value) name.now (refusal (entries held.entry.place.list)) result.1 }
{
    let mut held = held;
    match held.value.refusal() {
        Some(fault) => (close(held), Err(fault)),
        None => match name.copy(alloc) {
            Ok(own) => {
                let answer = held.value.open(rt, alloc, name, moment);
                close_opened(held, own, answer)
            }
            Err(_) => (close(held), Err(DoorFault::NoMemory)),
        },
    }
}

// Enters that a document was opened, or that the opening failed.
fn close_opened<B: Shelves>(
    held: Held<'_, Shelf<B>>,
    name: DocName,
    answer: Result<Visit<B::K>, DoorFault>,
) -> (Key<B>, Result<Visit<B::K>, DoorFault>)
    requires noted { HasNoted held.place }
    requires stands { ShelfStands held.value (entries held.place.list ++ opening_steps name answer) }
    requires fixed { terms_of held.value ≡ held.place.seat.turn.fixed }
    ensures same { result.1 ≡ answer }
    ensures key { result.0 ≡ adding (opening_steps name answer) held.entry.place.seat }
    ensures few { length result.0.seen ≤ largest }
{
    match answer {
        Ok(visit) => (close_with(held, &ShelfStep::Opened(name)), Ok(visit)),
        Err(DoorFault::ShelfFailed(note)) => {
            let step = ShelfStep::Failed(name, DoorFault::ShelfFailed(note));
            (close_with(held, &step), Err(DoorFault::ShelfFailed(note)))
        }
        Err(DoorFault::Lane(fault)) => {
            let step = ShelfStep::Failed(name, DoorFault::Lane(fault));
            let key = close_with(held, &step);
            (key, Err(fault_of(step)))
        }
        Err(DoorFault::TooManyDocuments(count)) => {
            (close(held), Err(DoorFault::TooManyDocuments(count)))
        }
        Err(DoorFault::NoMemory) => (close(held), Err(DoorFault::NoMemory)),
    }
}

// The fault of a step that has one.
fn fault_of(step: ShelfStep) -> DoorFault
    requires { HasFault step }
    ensures { (name : List ℕ) (fault : ADoorFault) → step ≡ AShelfStep.Failed name fault → result ≡ fault }
{
    match step {
        ShelfStep::Failed(_, fault) => fault,
        ShelfStep::Opened(_) => unreachable!(),
    }
}
