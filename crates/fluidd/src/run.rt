//! The top call of the program.
ghost use Rattle.std.specs.Prelude.{◌≡◌, ℕ, List, Bool, Option, Some, IfSome, option_map};
ghost use Rattle.std.specs.FinMap.{empty};
ghost use Rattle.fluid_log.specs.Shelving.{AreWhole};
ghost use Rattle.fluid_transcript.specs.World.{World, first_world};
ghost use Rattle.fluid_world.specs.Ending.{IsDeskOf, full};
ghost use Rattle.fluid_serve.specs.Desks.{AreReady, ShelvesComeBack};
ghost use Rattle.fluidd.specs.Output.{Sequences, Shows, code_of};
ghost use Rattle.fluidd.specs.Served.{ServesConnections, served_status};
ghost use Rattle.fluid_words.specs.declared.command.Command.TheVariants.{Sequence, Serve, Workload};
ghost use Rattle.fluidd.specs.Scripts.{Scripts, script_status};
ghost use Rattle.fluidd.specs.Workloads.{Summarizes, IsBetween};
ghost use Rattle.fluid_load.specs.Ending.{IsNewDeskOf, outside};
ghost use Rattle.fluidd.specs.Tasks.{Doing, IsPage, IsReading, IsScripting, IsServing, IsWorking, Showing, Usage, UsesDesk, scripting, task_of, usage_line};

use crate::sequence::sequence_within;
use crate::status::Status;
use crate::task::{Task, read_task};
use fluid_front::{Front, FrontEnd, Spawner};
use fluid_io::{Clock, Failed, Sink, Source};
use fluid_json::{NoMemory, Text};
use fluid_load::workload;
use fluid_log::Shelves;
use fluid_pipe::write_out;
use fluid_rules::Limits;
use fluid_serve::{Desk, serve};
use fluid_store::Objects;
use fluid_types::DocName;
use fluid_world::{ScriptEnd, script};
use std::alloc::Global;
use std::net::Net;
use std::sync::Wait;
use std::thread::Threads;

/// Runs the command that the words ask for, which are those behind the program's name, and gives the exit status. Words
/// that ask for a page get it, and words that ask for nothing the usage line; the input isn't touched then. The desk, the front
/// and the spawner come back: `serve` uses all of them, `script`, `load` and `workload` the desk. What these write is said of a world
/// that the desk tells.
pub fn run<R, S, K, B, O, C, F, P>(
    rt: &R,
    alloc: Global,
    words: &[Text],
    input: &mut S,
    output: &mut K,
    desk: Desk<B, O, C>,
    front: F,
    spawner: P,
) -> (u8, Desk<B, O, C>, F, P)
where
    R: Threads + Wait + Net + Sync,
    S: Source,
    K: Sink,
    B: Shelves + Send + Drop,
    B::K: Send + Drop,
    O: Objects + Send + Drop,
    C: Clock + Sync + Drop,
    F: Front + Send + Drop,
    F::W: Send + Drop,
    F::S: Send + Drop,
    F::B: Send + Sync + Drop,
    P: Spawner + Send + Drop,
    ghost told: { Option World }
    requires whole { IsScripting (task_of words.now) → AreWhole (B.seen desk.shelves) }
    requires told { IsScripting (task_of words.now) → IfSome told (IsDeskOf (B.seen desk.shelves) (O.seen desk.objects)) }
    requires ready { IsServing (task_of words.now) → AreReady B.K.seen (B.seen desk.shelves) }
    requires new { IsWorking (task_of words.now) → AreWhole (B.seen desk.shelves) × IfSome told (IsNewDeskOf (B.seen desk.shelves) (O.seen desk.objects)) }
    ensures sequence { task_of words.now ≡ Doing Sequence →
        Sequences full (S.seen input.old) (K.seen output.old) (S.seen input.new) (K.seen output.new) result.0 }
    ensures script { (load : Option (List ℕ)) → task_of words.now ≡ Doing (scripting load) →
        Scripts told load (record { source = S.seen input.old; sink = K.seen output.old; shelves = B.seen desk.shelves; store = O.seen desk.objects })
        (record { source = S.seen input.new; sink = K.seen output.new; shelves = B.seen result.1.shelves; store = O.seen result.1.objects }) result.0 }
    ensures workload { (number clients ops : ℕ) → task_of words.now ≡ Doing (Workload number clients ops) →
        Summarizes told number clients ops (outside (K.seen output.old) (B.seen desk.shelves) (O.seen desk.objects))
        (outside (K.seen output.new) (B.seen result.1.shelves) (O.seen result.1.objects)) result.0 }
    ensures serve { (port connections : ℕ) (lines : Bool) → task_of words.now ≡ Doing (Serve port connections lines) →
        ServesConnections connections (F.seen front) (P.refusals spawner) (F.seen result.2) (P.refusals result.3) result.0 ×
        (ShelvesComeBack (B.seen desk.shelves) (B.seen result.1.shelves) × (K.seen output.new ≡ K.seen output.old)) }
    ensures page { (text : List ℕ) → task_of words.now ≡ Showing text →
        Shows 0 text (K.seen output.old) (K.seen output.new) result.0 }
    ensures usage { task_of words.now ≡ Usage → Shows 2 usage_line (K.seen output.old) (K.seen output.new) result.0 }
    ensures untouched { (IsReading (task_of words.now) → ⊥) → S.seen input.new ≡ S.seen input.old }
    ensures desk { (UsesDesk (task_of words.now) → ⊥) → (B.seen result.1.shelves ≡ B.seen desk.shelves) × (O.seen result.1.objects ≡ O.seen desk.objects) }
    ensures kept { (IsServing (task_of words.now) → ⊥) → (F.seen result.2 ≡ F.seen front) × (P.refusals result.3 ≡ P.refusals spawner) }
{
    match read_task(alloc, words) {
        Ok(Task::Sequence) => {
            let Limits {
                entries,
                clients,
                ..
            } = Limits::FULL;
            let status = sequence_within(rt, alloc, input, output, entries, clients);
            (status, desk, front, spawner)
        }
        Ok(Task::Script) => {
            let (status, desk) = run_script(rt, alloc, input, output, desk, None);
            (status, desk, front, spawner)
        }
        Ok(Task::Load(document)) => {
            let (status, desk) = run_script(rt, alloc, input, output, desk, Some(&document));
            (status, desk, front, spawner)
        }
        Ok(
            Task::Workload {
                number,
                clients,
                ops,
            },
        ) => {
            let (status, desk) = run_workload(rt, alloc, output, desk, number, clients, ops);
            (status, desk, front, spawner)
        }
        Ok(
            Task::Serve {
                port,
                connections,
                lines,
            },
        ) => {
            let (end, desk, front, spawner) = serve(
                rt,
                alloc,
                desk,
                front,
                spawner,
                port,
                connections,
                lines,
            );
            (served_status(end).code(), desk, front, spawner)
        }
        Ok(Task::Show(status, text)) => (show(output, status, text), desk, front, spawner),
        Err(NoMemory) => (Status::NoMemory.code(), desk, front, spawner),
    }
}

/// The same over a desk on which nothing is kept yet, which tells the first world: what `main` calls. Nothing that is stored is
/// refused then: no command that uses the desk ends with 11, and in `script`, `load` and `workload` no document comes to the end of
/// its numbers.
pub fn run_first<R, S, K, B, O, C, F, P>(
    rt: &R,
    alloc: Global,
    words: &[Text],
    input: &mut S,
    output: &mut K,
    desk: Desk<B, O, C>,
    front: F,
    spawner: P,
) -> (u8, Desk<B, O, C>, F, P)
where
    R: Threads + Wait + Net + Sync,
    S: Source,
    K: Sink,
    B: Shelves + Send + Drop,
    B::K: Send + Drop,
    O: Objects + Send + Drop,
    C: Clock + Sync + Drop,
    F: Front + Send + Drop,
    F::W: Send + Drop,
    F::S: Send + Drop,
    F::B: Send + Sync + Drop,
    P: Spawner + Send + Drop,
    requires ready { AreReady B.K.seen (B.seen desk.shelves) }
    requires first { IsDeskOf (B.seen desk.shelves) (O.seen desk.objects) (first_world empty empty) }
    ensures sequence { task_of words.now ≡ Doing Sequence →
        Sequences full (S.seen input.old) (K.seen output.old) (S.seen input.new) (K.seen output.new) result.0 }
    ensures script { (load : Option (List ℕ)) → task_of words.now ≡ Doing (scripting load) →
        Scripts (Some (first_world empty empty)) load (record { source = S.seen input.old; sink = K.seen output.old; shelves = B.seen desk.shelves; store = O.seen desk.objects })
        (record { source = S.seen input.new; sink = K.seen output.new; shelves = B.seen result.1.shelves; store = O.seen result.1.objects }) result.0 }
    ensures stored { UsesDesk (task_of words.now) → result.0 ≡ 11 → ⊥ }
    ensures workload { (number clients ops : ℕ) → task_of words.now ≡ Doing (Workload number clients ops) →
        Summarizes (Some (first_world empty empty)) number clients ops (outside (K.seen output.old) (B.seen desk.shelves) (O.seen desk.objects))
        (outside (K.seen output.new) (B.seen result.1.shelves) (O.seen result.1.objects)) result.0 }
    ensures serve { (port connections : ℕ) (lines : Bool) → task_of words.now ≡ Doing (Serve port connections lines) →
        ServesConnections connections (F.seen front) (P.refusals spawner) (F.seen result.2) (P.refusals result.3) result.0 ×
        (ShelvesComeBack (B.seen desk.shelves) (B.seen result.1.shelves) × (K.seen output.new ≡ K.seen output.old)) }
    ensures page { (text : List ℕ) → task_of words.now ≡ Showing text →
        Shows 0 text (K.seen output.old) (K.seen output.new) result.0 }
    ensures usage { task_of words.now ≡ Usage → Shows 2 usage_line (K.seen output.old) (K.seen output.new) result.0 }
    ensures untouched { (IsReading (task_of words.now) → ⊥) → S.seen input.new ≡ S.seen input.old }
    ensures desk { (UsesDesk (task_of words.now) → ⊥) → (B.seen result.1.shelves ≡ B.seen desk.shelves) × (O.seen result.1.objects ≡ O.seen desk.objects) }
    ensures kept { (IsServing (task_of words.now) → ⊥) → (F.seen result.2 ≡ F.seen front) × (P.refusals result.3 ≡ P.refusals spawner) }
{
    run(rt, alloc, words, input, output, desk, front, spawner)
}

// Does the steps of a script over a desk. With a name a container is loaded behind them, and what it shows is all that is written.
fn run_script<R, S: Source, K: Sink, B: Shelves, O: Objects, C>(
    rt: &R,
    alloc: Global,
    input: &mut S,
    output: &mut K,
    desk: Desk<B, O, C>,
    load: Option<&DocName>,
) -> (u8, Desk<B, O, C>)
where
    B::K: Drop,
    ghost told: { Option World }
    requires whole { AreWhole (B.seen desk.shelves) }
    requires told { IfSome told (IsDeskOf (B.seen desk.shelves) (O.seen desk.objects)) }
    ensures { Scripts told (option_map (λ name. name.now) load.entry) (record { source = S.seen input.old; sink = K.seen output.old; shelves = B.seen desk.shelves; store = O.seen desk.objects })
        (record { source = S.seen input.new; sink = K.seen output.new; shelves = B.seen result.1.shelves; store = O.seen result.1.objects }) result.0 }
{
    let Desk {
        shelves,
        objects,
        clock,
    } = desk;
    let (end, shelves, objects) = script(rt, alloc, input, output, shelves, objects, load);
    let desk = Desk {
        shelves,
        objects,
        clock,
    };
    (script_status(&end).code(), desk)
}

// Does the acts of a workload over a desk, and writes its summary.
fn run_workload<R, K: Sink, B: Shelves, O: Objects, C>(
    rt: &R,
    alloc: Global,
    output: &mut K,
    desk: Desk<B, O, C>,
    number: u64,
    clients: u32,
    ops: u32,
) -> (u8, Desk<B, O, C>)
where
    B::K: Drop,
    ghost told: { Option World }
    requires clients { IsBetween 1 1_000 clients }
    requires ops { IsBetween 1 100_000 ops }
    requires whole { AreWhole (B.seen desk.shelves) }
    requires told { IfSome told (IsNewDeskOf (B.seen desk.shelves) (O.seen desk.objects)) }
    ensures { Summarizes told number clients ops (outside (K.seen output.old) (B.seen desk.shelves) (O.seen desk.objects))
        (outside (K.seen output.new) (B.seen result.1.shelves) (O.seen result.1.objects)) result.0 }
{
    let Desk {
        shelves,
        objects,
        clock,
    } = desk;
    let (end, shelves, objects) = workload(
        rt, alloc, output, shelves, objects, number, clients, ops,
    );
    let desk = Desk {
        shelves,
        objects,
        clock,
    };
    (script_status(&end).code(), desk)
}

// The status with which a script ends.
fn script_status(end: &ScriptEnd) -> Status
    ensures { result ≡ script_status end.now }
{
    match end {
        ScriptEnd::Done => Status::Done,
        ScriptEnd::BadLine(_, _) => Status::Refused,
        ScriptEnd::ReadFault => Status::ReadFault,
        ScriptEnd::WriteFault => Status::WriteFault,
        ScriptEnd::KeeperFault(_) => Status::KeeperFault,
        ScriptEnd::StoreFault(_) => Status::StoreFault,
        ScriptEnd::BadStored(_) => Status::BadStored,
        ScriptEnd::NoMemory => Status::NoMemory,
    }
}

// The status with which `serve` ends.
fn served_status(end: FrontEnd) -> Status
    ensures { result ≡ served_status end }
{
    match end {
        FrontEnd::Done(_) => Status::Done,
        FrontEnd::FrontFailed => Status::FrontFault,
        FrontEnd::SpawnRefused(_) => Status::SpawnRefused,
        FrontEnd::NoMemory => Status::NoMemory,
    }
}

// Writes a text for a person, and gives this status, or that of a fault of the sink.
#[tactic(auto, using(crate::proofs::Shown::shown, crate::proofs::Shown::failed))]
fn show<K: Sink>(output: &mut K, status: Status, text: &str) -> u8
    requires { IsPage (code_of status) }
    ensures { Shows (code_of status) text.now (K.seen output.old) (K.seen output.new) result }
{
    match write_out(output, text.as_bytes()) {
        Ok(()) => status.code(),
        Err(Failed) => Status::WriteFault.code(),
    }
}
