//! What is done for one document at a hint.
ghost use Rattle.std.specs.Prelude.{◌≡◌, ◌≤◌};
ghost use Rattle.fluid_types.specs.Forms.{largest};
ghost use Rattle.fluid_worker.specs.Tending.{is_concluded, is_swept, Renews, Sweeps, SweepsBy, Tends};

use fluid_doors::{Door, Pass, ScribeEnd, ScribeFault};
use fluid_lane::LaneFault;
use fluid_log::Keeper;
use fluid_service::Visit;
use fluid_store::Objects;
use fluid_types::ClientId;
use std::alloc::Global;
use std::sync::Wait;

/// Who was silent for more than so many milliseconds is taken for gone.
pub const SILENCE: u64 = 300_000;

/// Answers the summary that is pending, with a version in this store, and takes out whoever was silent for too long at this moment,
/// in milliseconds. Behind a report that was entered it stores a checkpoint and restarts the document from it. A fault ends one of
/// these and nothing else.
pub fn tend<R: Wait, K: Keeper, O: Objects>(
    rt: &R,
    alloc: Global,
    visit: Visit<K>,
    objects: &mut O,
    moment: u64,
) -> Visit<K>
    requires { moment ≤ largest }
    ensures door { result.door ≡ visit.door }
    ensures does { Tends visit.door.turn.fixed visit.pass result.pass moment (O.seen objects.old) (O.seen objects.new) }
{
    let (door, pass) = visit.into_parts();
    let (pass, answer) = door.scribe(rt, alloc, pass, objects, moment);
    let pass = if is_concluded(&answer) {
        renew(rt, alloc, &door, pass)
    } else {
        pass
    };
    let pass = sweep(rt, alloc, &door, pass, moment);
    Visit::new(door, pass)
}

// Whether a report was entered.
fn is_concluded(answer: &Result<ScribeEnd, ScribeFault>) -> bool
    ensures { result ≡ is_concluded answer.now }
{
    match answer {
        Ok(ScribeEnd::Idle) => false,
        Ok(ScribeEnd::Concluded(_)) => true,
        Err(_) => false,
    }
}

// Stores a checkpoint, and restarts the document from it.
fn renew<R: Wait, K: Keeper>(rt: &R, alloc: Global, door: &Door<K>, pass: Pass<K>) -> Pass<K>
    requires { pass.turn ≡ door.now.turn }
    ensures { Renews door.now.turn.fixed pass result }
{
    let (pass, stored) = door.checkpoint(rt, alloc, pass);
    match stored {
        Ok(number) => {
            let (pass, _restarted) = door.restart(rt, alloc, pass, number);
            pass
        }
        Err(_) => pass,
    }
}

// Takes out whoever was silent for too long, one after another.
fn sweep<R: Wait, K: Keeper>(
    rt: &R,
    alloc: Global,
    door: &Door<K>,
    pass: Pass<K>,
    moment: u64,
) -> Pass<K>
    requires pass { pass.turn ≡ door.now.turn }
    requires moment { moment ≤ largest }
    ensures turn { result.turn ≡ door.now.turn }
    ensures does { Sweeps door.now.turn.fixed pass result moment }
{
    let mut pass = pass;
    'sweeps: for _ in rt.forever() {
        let (back, swept) = sweep_one(rt, alloc, door, pass, moment);
        if !swept {
            return back;
        }
        pass = back;
    }
    unreachable!()
}

// Takes out one who was silent for too long, and says whether there was one.
fn sweep_one<R: Wait, K: Keeper>(
    rt: &R,
    alloc: Global,
    door: &Door<K>,
    pass: Pass<K>,
    moment: u64,
) -> (Pass<K>, bool)
    requires pass { pass.turn ≡ door.now.turn }
    requires moment { moment ≤ largest }
    ensures turn { result.0.turn ≡ door.now.turn }
    ensures does { SweepsBy door.now.turn.fixed pass result.0 moment result.1 }
{
    let (pass, answer) = door.sweep(rt, alloc, pass, moment, SILENCE);
    let swept = is_swept(&answer);
    (pass, swept)
}

fn is_swept(answer: &Result<Option<ClientId>, LaneFault>) -> bool
    ensures { result ≡ is_swept answer.now }
{
    match answer {
        Ok(Some(_)) => true,
        Ok(None) => false,
        Err(_) => false,
    }
}
