// How the documents of a shelf are closed.
ghost use Rattle.fluid_service.specs.Closing.{AreOut, AreOnly, ComesBackFrom, OneGoes};

use crate::roll::Roll;
use fluid_log::Shelves;
use std::sync::{Arc, Wait};

/// Puts back the keeper of each door that nobody else has, and drops the others.
pub(crate) fn close_all<R: Wait, B: Shelves>(rt: &R, shelves: B, visits: Roll<B::K>) -> B
where
    B::K: Drop,
    requires out { AreOut (B.seen shelves) visits.visits }
    requires only { AreOnly (B.seen shelves) visits.visits }
    ensures { ComesBackFrom visits.visits (B.seen shelves) (B.seen result) }
{
    let mut shelves = shelves;
    let mut visits = visits;
    let count = visits.len();
    for _ in 0..count {
        close_last(rt, &mut shelves, &mut visits);
    }
    shelves
}

// Puts the keeper of the last door back, where there is one and nobody else has it.
fn close_last<R: Wait, B: Shelves>(rt: &R, shelves: &mut B, visits: &mut Roll<B::K>)
where
    B::K: Drop,
    requires { AreOut (B.seen shelves.old) visits.old.visits }
    ensures { OneGoes visits.old.visits visits.new.visits (B.seen shelves.old) (B.seen shelves.new) }
{
    let Some((name, visit)) = visits.pop() else {
        return;
    };
    let (door, pass) = visit.into_parts();
    match Arc::try_unwrap(door) {
        Ok(door) => shelves.put_back(&name, door.end(rt, pass).close()),
        Err(_) => {}
    }
}
