//! The commands `script` and `load`.
ghost use Rattle.std.specs.Prelude.{◌≡◌, ◌≤◌, ◌+◌, ℕ, Bool, true, List, Option, Some, None, Err, IfSome, is_none, option_map};
ghost use Rattle.std.specs.FinMap.{empty};
ghost use Rattle.fluid_io.specs.Streams.{Reading, Writing};
ghost use Rattle.fluid_io.specs.declared.lines.TheConstants.{MOST_LINES};
ghost use Rattle.fluid_log.specs.declared.keeper.TheConstants.{LONGEST_KEPT};
ghost use Rattle.fluid_log.specs.Shelving.{AreWhole};
ghost use Rattle.fluid_store.specs.Storing.{Storing};
ghost use Rattle.fluid_pipe.specs.Output.{Finished, HasEndCause, HasFailed, NoFault};
ghost use Rattle.fluid_lanes.specs.Opened.{nothing_open};
ghost use Rattle.fluid_lanes.specs.Closing.{Closes};
ghost use Rattle.fluid_transcript.specs.World.{World};
ghost use Rattle.fluid_transcript.specs.Transcript.{behind, loaded_last};
ghost use Rattle.fluid_desk.specs.Scribing.{DeskDoesWith};
ghost use Rattle.fluid_desk.specs.Stopping.{HasRun};
ghost use Rattle.fluid_door_link.specs.Hushing.{hushed, IsHushed, IsShortAsTold};
ghost use Rattle.fluid_containers.specs.Ending.{RunsLinking};
ghost use Rattle.fluid_containers.specs.Stepping.{MayStand};
ghost use Rattle.fluid_world.specs.Taking.{HasStopped, RanTo, ScriptStands, StoodTo, StopsAt, means};
ghost use Rattle.fluid_world.specs.Ending.{ConcludesBy, EndsBy, HasCause, IsDeskOf, LastWrites, ShowsBy, Writes, WritesSo, end_for, full};

use crate::ending::{end_for, why_of};
use crate::ends::ScriptEnd;
use crate::halted::Halted;
use crate::origin::Origin;
use crate::taking::Script;
use fluid_callers::Written;
use fluid_containers::load_last;
use fluid_desk::Stop;
use fluid_desk::laws::{desks_come_back, faults_are_counted};
use fluid_door_link::ToldObjects;
use fluid_io::{Failed, Sink, Source};
use fluid_json::{NoMemory, Text};
use fluid_log::Shelves;
use fluid_pipe::{Stop as PipeStop, pipe, write_out};
use fluid_rules::Limits;
use fluid_steps::LineWhy;
use fluid_store::Objects;
use fluid_tale::tell;
use fluid_transcript::laws::{one_line_more, worlds};
use fluid_types::DocName;
use std::alloc::Global;
use std::marker::Brand;

/// Reads steps, a line each, does them over these shelves and this store, and writes their lines. With a name it writes none of these: behind the last
/// step a container is loaded for the document of this name, and what it shows is written. Shelves and store come back: all
/// documents are closed.
pub fn script<R, S: Source, K: Sink, B: Shelves, O: Objects>(
    rt: &R,
    alloc: Global,
    input: &mut S,
    output: &mut K,
    shelves: B,
    objects: O,
    load: Option<&DocName>,
) -> (ScriptEnd, B, O)
where
    B::K: Drop,
    ghost told: { Option World }
    requires whole { AreWhole (B.seen shelves) }
    requires stands { IfSome told (IsDeskOf (B.seen shelves) (O.seen objects)) }
    ensures cause { HasCause
        (record { source = S.seen input.old; sink = K.seen output.old; shelves = B.seen shelves; store = O.seen objects })
        (record { source = S.seen input.new; sink = K.seen output.new; shelves = B.seen result.1; store = O.seen result.2 }) result.0 }
    ensures whole { AreWhole (B.seen result.1) }
    ensures writes { IfSome told (λ w. Writes full w (option_map (λ name. name.now) load.entry)
        (record { source = S.seen input.old; sink = K.seen output.old; shelves = B.seen shelves; store = O.seen objects })
        (record { source = S.seen input.new; sink = K.seen output.new; shelves = B.seen result.1; store = O.seen result.2 }) result.0) }
{
    script_within(
        rt,
        alloc,
        input,
        output,
        shelves,
        objects,
        load,
        Limits::FULL,
    )
}

/// The same within limits of one's own for each document.
pub fn script_within<R, S: Source, K: Sink, B: Shelves, O: Objects>(
    _rt: &R,
    alloc: Global,
    input: &mut S,
    output: &mut K,
    shelves: B,
    objects: O,
    load: Option<&DocName>,
    limits: Limits,
) -> (ScriptEnd, B, O)
where
    B::K: Drop,
    ghost told: { Option World }
    requires whole { AreWhole (B.seen shelves) }
    requires small { limits.bytes ≤ LONGEST_KEPT }
    requires stands { IfSome told (IsDeskOf (B.seen shelves) (O.seen objects)) }
    ensures cause { HasCause
        (record { source = S.seen input.old; sink = K.seen output.old; shelves = B.seen shelves; store = O.seen objects })
        (record { source = S.seen input.new; sink = K.seen output.new; shelves = B.seen result.1; store = O.seen result.2 }) result.0 }
    ensures whole { AreWhole (B.seen result.1) }
    ensures writes { IfSome told (λ w. Writes limits w (option_map (λ name. name.now) load.entry)
        (record { source = S.seen input.old; sink = K.seen output.old; shelves = B.seen shelves; store = O.seen objects })
        (record { source = S.seen input.new; sink = K.seen output.new; shelves = B.seen result.1; store = O.seen result.2 }) result.0) }
{
    run_within::<S, K, B, O, Brand>(alloc, input, output, shelves, objects, load, limits)
}

// The same from the world that a bound tells of.
fn run_within<S: Source, K: Sink, B: Shelves, O: Objects, W: Origin>(
    alloc: Global,
    input: &mut S,
    output: &mut K,
    shelves: B,
    objects: O,
    load: Option<&DocName>,
    limits: Limits,
) -> (ScriptEnd, B, O)
where
    B::K: Drop,
    requires whole { AreWhole (B.seen shelves) }
    requires small { limits.bytes ≤ LONGEST_KEPT }
    requires stands { IfSome W.told (IsDeskOf (B.seen shelves) (O.seen objects)) }
    ensures cause { HasCause
        (record { source = S.seen input.old; sink = K.seen output.old; shelves = B.seen shelves; store = O.seen objects })
        (record { source = S.seen input.new; sink = K.seen output.new; shelves = B.seen result.1; store = O.seen result.2 }) result.0 }
    ensures whole { AreWhole (B.seen result.1) }
    ensures writes { IfSome W.told (λ w. Writes limits w (option_map (λ name. name.now) load.entry)
        (record { source = S.seen input.old; sink = K.seen output.old; shelves = B.seen shelves; store = O.seen objects })
        (record { source = S.seen input.new; sink = K.seen output.new; shelves = B.seen result.1; store = O.seen result.2 }) result.0) }
{
    // (a law, and no work: its clause is for the proof)
    desks_come_back();
    faults_are_counted();
    one_line_more();
    worlds();
    let mut script: Script<B, O, W> = begin(alloc, shelves, objects, limits, load.is_none());
    let ended = pipe(alloc, &mut script, input, output);
    let end = finish(alloc, &mut script, output, load, ended);
    let (shelves, objects) = close(script);
    (end, shelves, objects)
}

// A script over these shelves and this store, which tells what it holds where they are known to stand for a world.
fn begin<B: Shelves, O: Objects, W: Origin>(
    alloc: Global,
    shelves: B,
    objects: O,
    limits: Limits,
    speaks: bool,
) -> Script<B, O, W>
where
    B::K: Drop,
    ghost good: { Bool }
    requires whole { AreWhole (B.seen shelves) }
    requires small { limits.bytes ≤ LONGEST_KEPT }
    requires short { good ≡ true → IsShortAsTold (O.seen objects) }
    ensures { result ≡ record { lanes = nothing_open (B.seen shelves) limits; store = hushed good (O.seen objects); names = empty; lines = 0; speaks = speaks; good = good; stop = None } }
{
    Script::new(
        alloc,
        shelves,
        told_objects(objects),
        limits,
        speaks,
        tell(),
    )
}

fn told_objects<O: Objects>(objects: O) -> ToldObjects<O>
    ghost good: { Bool }
    requires { good ≡ true → IsShortAsTold (O.seen objects) }
    ensures { result ≡ hushed good (O.seen objects) }
{
    ToldObjects::new(objects, tell())
}

// The shelves and the store of a script, whose documents are closed.
fn close<B: Shelves, O: Objects, W: Origin>(script: Script<B, O, W>) -> (B, O)
where
    B::K: Drop,
    ensures shelves { Closes script.lanes (B.seen result.0) }
    ensures store { IsHushed (O.seen result.1) script.store }
    ensures short { IsShortAsTold script.store }
{
    let Script { lanes, objects, .. } = script;
    objects.know();
    (lanes.close(), objects.into_inner())
}

// How a script ends whose lines ended so. Where all of them were taken, the last container is loaded and shown, if one is asked for.
fn finish<K: Sink, B: Shelves, O: Objects, W: Origin>(
    alloc: Global,
    script: &mut Script<B, O, W>,
    output: &mut K,
    load: Option<&DocName>,
    ended: Result<(), PipeStop<LineWhy, Halted>>,
) -> ScriptEnd
where
    B::K: Drop,
    requires lines { script.old.lines ≤ MOST_LINES + 1 }
    requires stood { StoodTo script.old script.old.stop }
    requires halted { HasFailed (λ _. HasStopped script.old) ended }
    ensures ends { (first : ℕ) (before : Storing) (input : Reading) (start : Writing) (source : Reading) → before.faults ≤ script.old.store.faults →
        RanTo first before script.old script.old.stop → HasEndCause input start source (K.seen output.old) ended → EndsBy first before input start source (K.seen output.new) script.new result }
    ensures writes { (w : World) (input : Reading) (start : Writing) (source : Reading) → script.old.good ≡ true → is_none load.entry ≡ script.old.speaks →
        Finished (means script.old.speaks script.old.lanes.limits w) (λ lines. ScriptStands script.old (behind script.old.lanes.limits w lines)) input start source (K.seen output.old) ended →
        HasFailed (λ _. StopsAt script.old.lanes.limits w script.old.stop input.left) ended →
        WritesSo script.old.lanes.limits w (option_map (λ name. name.now) load.entry) input start source (K.seen output.new) script.new result }
{
    match ended {
        Ok(()) => conclude(alloc, script, output, load),
        Err(stop) => break_off(script, stop),
    }
}

// Lines ended before all of them were taken.
fn break_off<B: Shelves, O: Objects, W: Origin>(
    script: &mut Script<B, O, W>,
    stop: PipeStop<LineWhy, Halted>,
) -> ScriptEnd
where
    B::K: Drop,
    requires { HasFailed {A = Unit {0}} (λ _. HasStopped script.old) (Err stop) }
    ensures ends { (first : ℕ) (before : Storing) (input : Reading) (start : Writing) (source : Reading) (sink : Writing) →
        RanTo first before script.old script.old.stop → HasEndCause input start source sink (Err stop) → EndsBy first before input start source sink script.new result }
    ensures writes { (w : World) (load : Option (List ℕ)) (input : Reading) (start : Writing) (source : Reading) (sink : Writing) → script.old.good ≡ true → is_none load ≡ script.old.speaks →
        Finished (means script.old.speaks script.old.lanes.limits w) (λ lines. ScriptStands script.old (behind script.old.lanes.limits w lines)) input start source sink (Err stop) →
        HasFailed {A = Unit {0}} (λ _. StopsAt script.old.lanes.limits w script.old.stop input.left) (Err stop) →
        WritesSo script.old.lanes.limits w load input start source sink script.new result }
{
    match stop {
        PipeStop::Refused(number, refusal) => ScriptEnd::BadLine(number, why_of(refusal)),
        PipeStop::ReadFault => ScriptEnd::ReadFault,
        PipeStop::WriteFault => ScriptEnd::WriteFault,
        PipeStop::NoMemory => ScriptEnd::NoMemory,
        PipeStop::Failed(Halted) => halt(script),
    }
}

// A step ended it.
fn halt<B: Shelves, O: Objects, W: Origin>(script: &mut Script<B, O, W>) -> ScriptEnd
where
    B::K: Drop,
    requires { HasStopped script.old }
    ensures same { (script.new.lanes ≡ script.old.lanes) × (script.new.store ≡ script.old.store) }
    ensures end { option_map end_for script.old.stop ≡ Some result }
{
    match script.take_stop() {
        Some(stop) => end_for(stop),
        None => unreachable!(),
    }
}

// All lines were taken.
fn conclude<K: Sink, B: Shelves, O: Objects, W: Origin>(
    alloc: Global,
    script: &mut Script<B, O, W>,
    output: &mut K,
    load: Option<&DocName>,
) -> ScriptEnd
where
    B::K: Drop,
    requires lines { script.old.lines ≤ MOST_LINES + 1 }
    requires stood { StoodTo script.old script.old.stop }
    ensures ends { (first : ℕ) (before : Storing) (input : Reading) (start : Writing) (source : Reading) → before.faults ≤ script.old.store.faults →
        RanTo first before script.old script.old.stop → NoFault input start source (K.seen output.old) → EndsBy first before input start source (K.seen output.new) script.new result }
    ensures writes { (w : World) → ScriptStands script.old w →
        ConcludesBy script.old.lanes.limits w (option_map (λ name. name.now) load.entry) (K.seen output.old) (K.seen output.new) script.new result }
{
    match script.take_stop() {
        Some(stop) => end_for(stop),
        None => match load {
            Some(document) => show_last(alloc, script, output, document),
            None => ScriptEnd::Done,
        },
    }
}

// Loads a container with a name of its own, and writes what it shows.
fn show_last<K: Sink, B: Shelves, O: Objects, W: Origin>(
    alloc: Global,
    script: &mut Script<B, O, W>,
    output: &mut K,
    document: &DocName,
) -> ScriptEnd
where
    B::K: Drop,
    ghost good: { Bool }
    requires lines { script.old.lines ≤ MOST_LINES + 1 }
    requires stands { MayStand good script.old.lanes }
    ensures ends { (first : ℕ) (before : Storing) (input : Reading) (start : Writing) (source : Reading) → before.faults ≤ script.old.store.faults →
        HasRun first script.old.lines script.old.lanes → NoFault input start source (K.seen output.old) → EndsBy first before input start source (K.seen output.new) script.new result }
    ensures writes { (w : World) → good ≡ true → ScriptStands script.old w →
        ShowsBy (loaded_last script.old.lanes.limits w document.now) (K.seen output.old) (K.seen output.new) script.new result }
{
    match load_behind(alloc, script, document) {
        Ok(line) => write_last(alloc, output, line.as_str()),
        Err(stop) => end_for(stop),
    }
}

// Loads it at the moment behind the last line. The line is what it shows.
fn load_behind<B: Shelves, O: Objects, W: Origin>(
    alloc: Global,
    script: &mut Script<B, O, W>,
    document: &DocName,
) -> Result<Text, Stop>
where
    B::K: Drop,
    ghost good: { Bool }
    requires lines { script.old.lines ≤ MOST_LINES + 1 }
    requires stands { MayStand good script.old.lanes }
    ensures does { (w : World) → good ≡ true → ScriptStands script.old w →
        DeskDoesWith (loaded_last script.old.lanes.limits w document.now) script.new.lanes script.new.store result }
    ensures runs { (first : ℕ) → HasRun first script.old.lines script.old.lanes → RunsLinking first (script.old.lines + 1) script.old.store script.new.store script.new.lanes result }
{
    let moment = script.lines + 1;
    load_last(
        alloc,
        &mut script.lanes,
        &mut script.objects,
        document,
        moment,
    )
}

fn write_last<K: Sink>(alloc: Global, output: &mut K, line: &str) -> ScriptEnd
    ensures { LastWrites line.now (K.seen output.old) (K.seen output.new) result }
{
    match Written::one(alloc, line) {
        Ok(lines) => match write_out(output, lines.as_slice()) {
            Ok(()) => ScriptEnd::Done,
            Err(Failed) => ScriptEnd::WriteFault,
        },
        Err(NoMemory) => ScriptEnd::NoMemory,
    }
}
