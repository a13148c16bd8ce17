//! From hint to hint, over all documents.
ghost use Rattle.std.specs.Prelude.{◌≡◌, ◌≤◌};
ghost use Rattle.fluid_types.specs.Forms.{largest};

use crate::tending::tend;
use crossbeam_channel::Receiver;
use fluid_hints::Bell;
use fluid_io::Clock;
use fluid_log::{Keeper, Shelves};
use fluid_service::{Service, Visit};
use fluid_store::Objects;
use std::alloc::Global;
use std::sync::{Mutex, Wait};
use std::thread::Parker;
use std::time::Duration;

// How long it rests behind a look.
const REST_MILLISECONDS: u64 = 5;

/// Waits for hints until nobody can give one any more. At each it clears the flag, tends each document that is open, with a pass of its
/// own, and rests for a moment, so that the hints that come meanwhile wake nobody: they make one more look behind it. No fault ends it,
/// and no clause says that a hint arrives.
pub fn work<R: Wait, B: Shelves, O: Objects, C: Clock>(
    rt: &R,
    alloc: Global,
    service: &Service<B>,
    objects: &mut O,
    clock: &C,
    bell: &Mutex<Bell>,
    hints: &Receiver<()>,
)
where
    B::K: Drop,
{
    let mut visits = Vec::new(alloc);
    let rest = Parker::new();
    for _ in rt.forever() {
        if hints.recv(rt).is_err() {
            return;
        }
        bell.lock(rt).clear();
        visit_new(rt, alloc, service, &mut visits, clock.now());
        tend_all(rt, alloc, &mut visits, objects, clock);
        rest.park_timeout(rt, Duration::from_millis(REST_MILLISECONDS));
    }
}

// Adds a visit of each document that was opened since the last hint. Where one can't be had the next hint finds it again.
fn visit_new<R: Wait, B: Shelves>(
    rt: &R,
    alloc: Global,
    service: &Service<B>,
    visits: &mut Vec<Option<Visit<B::K>>>,
    moment: u64,
)
where
    B::K: Drop,
    requires { moment ≤ largest }
{
    let (_key, names) = service.names(rt, alloc, service.key());
    let Ok(names) = names else {
        return;
    };
    for name in names.iter().skip(visits.len()) {
        let (_key, answer) = service.door(rt, alloc, service.key(), name, moment);
        let Ok(visit) = answer else {
            return;
        };
        if visits.push(Some(visit)).is_err() {
            return;
        }
    }
}

fn tend_all<R: Wait, K: Keeper + Drop, O: Objects, C: Clock>(
    rt: &R,
    alloc: Global,
    visits: &mut Vec<Option<Visit<K>>>,
    objects: &mut O,
    clock: &C,
) {
    for place in visits.iter_mut() {
        if let Some(visit) = place.take() {
            *place = Some(tend(rt, alloc, visit, objects, clock.now()));
        }
    }
}
