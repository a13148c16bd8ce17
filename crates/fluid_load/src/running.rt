//! The command `workload`.
ghost use Rattle.std.specs.Prelude.{◌≡◌, ◌≤◌, ◌*◌, Bool, true, Option, IfSome, length};
ghost use Rattle.fluid_log.specs.declared.keeper.TheConstants.{LONGEST_KEPT};
ghost use Rattle.fluid_log.specs.Shelving.{AreWhole};
ghost use Rattle.fluid_lanes.specs.Closing.{Closes};
ghost use Rattle.fluid_lanes.specs.Opened.{nothing_open};
ghost use Rattle.fluid_door_link.specs.Hushing.{hushed, IsHushed, IsShortAsTold};
ghost use Rattle.fluid_transcript.specs.World.{World};
ghost use Rattle.fluid_transcript.specs.Transcript.{written};
ghost use Rattle.fluid_workload.specs.Working.{Workload as AWorkload};
ghost use Rattle.fluid_workload.specs.Summary.{summary as the_summary};
ghost use Rattle.fluid_world.specs.declared.ends.ScriptEnd.TheVariants.{Done};
ghost use Rattle.fluid_world.specs.Ending.{full};
ghost use Rattle.fluid_alike.specs.Alike.{EndsSame, HasRoom};
ghost use Rattle.fluid_load.specs.Standing.{CanBegin, CanWork, LeadsTo, Opens, WorkGoes, Works};
ghost use Rattle.fluid_load.specs.Acting.{acted_all};
ghost use Rattle.fluid_load.specs.Ending.{CameBy, IsNewDeskOf, WritesSummary, outside};
ghost use Rattle.fluid_load.specs.Running.{Concludes, DoesNext, Finishes, FinishesBy, IsBeginning, IsBegun, SaysAll};

use crate::lines::summary;
use crate::working::Working;
use fluid_alike::workloads_end_same;
use fluid_callers::Written;
use fluid_desk::Stop;
use fluid_desk::laws::{desks_come_back, faults_are_counted};
use fluid_door_link::ToldObjects;
use fluid_gen::Workload;
use fluid_io::{Failed, Sink};
use fluid_json::NoMemory;
use fluid_log::Shelves;
use fluid_pipe::write_out;
use fluid_rules::Limits;
use fluid_store::Objects;
use fluid_tale::tell;
use fluid_world::{ScriptEnd, end_for};
use std::alloc::Global;

/// Does the acts of the workload of this number, with so many clients, from 1 to 1,000, and ops, from 1 to 100,000, over these
/// shelves and this store, and writes its summary. Shelves and store come back: all documents are closed. Where they tell a world, the
/// summary ends with `loaded same`, and nothing that is stored is refused, but that one of its documents is near the end of all
/// numbers.
pub fn workload<R, K: Sink, B: Shelves, O: Objects>(
    rt: &R,
    alloc: Global,
    output: &mut K,
    shelves: B,
    objects: O,
    number: u64,
    clients: u32,
    ops: u32,
) -> (ScriptEnd, B, O)
where
    B::K: Drop,
    ghost told: { Option World }
    requires clients { (1 ≤ clients) × (clients ≤ 1_000) }
    requires ops { (1 ≤ ops) × (ops ≤ 100_000) }
    requires whole { AreWhole (B.seen shelves) }
    requires stands { IfSome told (IsNewDeskOf (B.seen shelves) (O.seen objects)) }
    ensures cause { CameBy (outside (K.seen output.old) (B.seen shelves) (O.seen objects)) (outside (K.seen output.new) (B.seen result.1) (O.seen result.2)) result.0 }
    ensures whole { AreWhole (B.seen result.1) }
    ensures writes { IfSome told (λ w. WritesSummary full w number clients ops
        (outside (K.seen output.old) (B.seen shelves) (O.seen objects)) (outside (K.seen output.new) (B.seen result.1) (O.seen result.2)) result.0) }
    ensures same { result.0 ≡ Done → IfSome told (λ w. EndsSame full w number clients ops) }
{
    workload_within(
        rt,
        alloc,
        output,
        shelves,
        objects,
        number,
        clients,
        ops,
        Limits::FULL,
    )
}

/// The same within limits of one's own for each document.
pub fn workload_within<R, K: Sink, B: Shelves, O: Objects>(
    _rt: &R,
    alloc: Global,
    output: &mut K,
    shelves: B,
    objects: O,
    number: u64,
    clients: u32,
    ops: u32,
    limits: Limits,
) -> (ScriptEnd, B, O)
where
    B::K: Drop,
    ghost told: { Option World }
    requires clients { (1 ≤ clients) × (clients ≤ 1_000) }
    requires ops { (1 ≤ ops) × (ops ≤ 100_000) }
    requires whole { AreWhole (B.seen shelves) }
    requires small { limits.bytes ≤ LONGEST_KEPT }
    requires stands { IfSome told (IsNewDeskOf (B.seen shelves) (O.seen objects)) }
    ensures cause { CameBy (outside (K.seen output.old) (B.seen shelves) (O.seen objects)) (outside (K.seen output.new) (B.seen result.1) (O.seen result.2)) result.0 }
    ensures whole { AreWhole (B.seen result.1) }
    ensures writes { IfSome told (λ w. WritesSummary limits w number clients ops
        (outside (K.seen output.old) (B.seen shelves) (O.seen objects)) (outside (K.seen output.new) (B.seen result.1) (O.seen result.2)) result.0) }
    ensures same { result.0 ≡ Done → HasRoom limits clients ops → IfSome told (λ w. EndsSame limits w number clients ops) }
{
    desks_come_back();
    faults_are_counted();
    workloads_end_same();
    let mut working = begin(alloc, shelves, objects, limits);
    let mut acts = Workload::new(number, clients, ops);
    let ended = do_acts(alloc, &mut working, &mut acts);
    let end = finish(alloc, &mut working, output, ended);
    let (shelves, objects) = close(working);
    (end, shelves, objects)
}

// A workload over these shelves and this store, which tells what it holds where they are known to stand for a world.
fn begin<B: Shelves, O: Objects>(
    alloc: Global,
    shelves: B,
    objects: O,
    limits: Limits,
) -> Working<B, O>
where
    B::K: Drop,
    ghost good: { Bool }
    requires whole { AreWhole (B.seen shelves) }
    requires small { limits.bytes ≤ LONGEST_KEPT }
    requires short { good ≡ true → IsShortAsTold (O.seen objects) }
    ensures { IsBegun (nothing_open (B.seen shelves) limits) (hushed good (O.seen objects)) good result }
{
    Working::new(alloc, shelves, told_objects(objects), limits, tell())
}

fn told_objects<O: Objects>(objects: O) -> ToldObjects<O>
    ghost good: { Bool }
    requires { good ≡ true → IsShortAsTold (O.seen objects) }
    ensures { result ≡ hushed good (O.seen objects) }
{
    ToldObjects::new(objects, tell())
}

// The shelves and the store of a workload, whose documents are closed.
fn close<B: Shelves, O: Objects>(working: Working<B, O>) -> (B, O)
where
    B::K: Drop,
    ensures shelves { Closes working.lanes (B.seen result.0) }
    ensures store { IsHushed (O.seen result.1) working.store }
    ensures short { IsShortAsTold working.store }
{
    let Working { lanes, objects, .. } = working;
    objects.know();
    (lanes.close(), objects.into_inner())
}

// Does all acts. The first is that the document begins.
fn do_acts<B: Shelves, O: Objects>(
    alloc: Global,
    working: &mut Working<B, O>,
    acts: &mut Workload,
) -> Result<(), Stop>
where
    B::K: Drop,
    requires begins { IsBeginning acts.old }
    requires can { CanBegin (5 * length acts.old) working.old }
    ensures { Opens (5 * length acts.old) (acted_all acts.old) working.old working.new result }
{
    acts.next();
    working.begin(alloc)?;
    do_others(alloc, working, acts)
}

// Does the acts that are left, where the document is open.
fn do_others<B: Shelves, O: Objects>(
    alloc: Global,
    working: &mut Working<B, O>,
    acts: &mut Workload,
) -> Result<(), Stop>
where
    B::K: Drop,
    requires { CanWork (5 * length acts.old) working.old }
    ensures { Works (5 * length acts.old) (acted_all acts.old) working.old working.new result }
{
    while do_next(alloc, working, acts)? {}
    Ok(())
}

// Does the next act. Where none is left it answers false.
fn do_next<B: Shelves, O: Objects>(
    alloc: Global,
    working: &mut Working<B, O>,
    acts: &mut Workload,
) -> Result<bool, Stop>
where
    B::K: Drop,
    requires { CanWork (5 * length acts.old) working.old }
    ensures { DoesNext acts.old acts.new working.old working.new result }
{
    match acts.next() {
        Some(act) => {
            working.act(alloc, act)?;
            Ok(true)
        }
        None => Ok(false),
    }
}

// How a workload ends whose acts ended so.
fn finish<K: Sink, B: Shelves, O: Objects>(
    alloc: Global,
    working: &mut Working<B, O>,
    output: &mut K,
    ended: Result<(), Stop>,
) -> ScriptEnd
where
    B::K: Drop,
    ensures same { working.new ≡ working.old }
    ensures ends { Finishes ended (K.seen output.old) (K.seen output.new) result }
    ensures lines { (w : AWorkload) → LeadsTo w working.old ended → FinishesBy ended (written (the_summary w)) (K.seen output.old) (K.seen output.new) result }
{
    match ended {
        Ok(()) => conclude(alloc, working, output),
        Err(stop) => end_for(stop),
    }
}

// Writes the summary.
fn conclude<K: Sink, B: Shelves, O: Objects>(
    alloc: Global,
    working: &mut Working<B, O>,
    output: &mut K,
) -> ScriptEnd
where
    B::K: Drop,
    ensures same { working.new ≡ working.old }
    ensures writes { Concludes (K.seen output.old) (K.seen output.new) result }
    ensures lines { (w : AWorkload) → WorkGoes working.old w → SaysAll (written (the_summary w)) (K.seen output.old) (K.seen output.new) result }
{
    match summary(alloc, working) {
        Ok(lines) => write(output, &lines),
        Err(NoMemory) => ScriptEnd::NoMemory,
    }
}

fn write<K: Sink>(output: &mut K, lines: &Written) -> ScriptEnd
    ensures says { SaysAll lines.now (K.seen output.old) (K.seen output.new) result }
    ensures writes { Concludes (K.seen output.old) (K.seen output.new) result }
{
    match write_out(output, lines.as_slice()) {
        Ok(()) => ScriptEnd::Done,
        Err(Failed) => ScriptEnd::WriteFault,
    }
}
