//! The steps of connections, by the names that they have.
ghost use Rattle.std.specs.Prelude.{◌≡◌, ◌≤◌, ◌<◌, ◌+◌, ℕ, None, OnOk, length};
ghost use Rattle.std.specs.FinMap.{get};
ghost use Rattle.fluid_types.specs.Forms.{largest};
ghost use Rattle.fluid_readback.specs.Laws.{longest_text};
ghost use Rattle.fluid_steps.specs.declared.steps.Step.TheVariants as step;
ghost use Rattle.fluid_transcript.specs.World.{World};
ghost use Rattle.fluid_transcript.specs.Transcript.{done};
ghost use Rattle.fluid_desk.specs.Stopping.{HasRun};
ghost use Rattle.fluid_containers.specs.Ending.{RunsLinking};
ghost use Rattle.fluid_world.specs.Naming.{AreBounded, connection_refusal, sender_refusal};
ghost use Rattle.fluid_world.specs.Standing.{WorldStands, StepTakes};

use crate::lines::one;
use crate::named::Named;
use crate::names::Names;
use fluid_beside::steps_leave_others;
use fluid_callers::{Written, close, collect, send};
use fluid_desk::Stop;
use fluid_door_link::ToldObjects;
use fluid_holding::others_leave_containers;
use fluid_lanes::Lanes;
use fluid_loader::laws::containers_stay_based;
use fluid_log::Shelves;
use fluid_steps::ScriptName;
use fluid_store::Objects;
use fluid_voice::Voice;
use std::alloc::Global;

/// A connection hears a text; one of a new name starts.
pub(crate) fn send_as<B: Shelves, O: Objects>(
    alloc: Global,
    lanes: &mut Lanes<B>,
    objects: &mut ToldObjects<O>,
    names: &mut Names,
    name: ScriptName,
    text: &str,
    moment: u64,
) -> Result<Written, Stop>
where
    B::K: Drop,
    requires moment { moment ≤ largest }
    requires short { length text.now ≤ longest_text }
    requires accepted { sender_refusal (get names.old.table.values name) ≡ None }
    ensures does { (w : World) → WorldStands lanes.old objects.old names.old.table.values w → w.moment ≡ moment →
        StepTakes (done lanes.old.limits w (step.Send name text.now)) lanes.new objects.new names.new.table.values result }
    ensures runs { (first steps : ℕ) → HasRun first steps lanes.old → RunsLinking first (steps + 1) objects.old objects.new lanes.new result }
    ensures limits { lanes.new.limits ≡ lanes.old.limits }
    ensures counts { objects.old.faults ≤ objects.new.faults }
    ensures numbers { OnOk result ((n : ℕ) → AreBounded n names.old.table.values → AreBounded (n + 1) names.new.table.values) }
{
    if names.is_given(&name) {
        return send_again(alloc, lanes, objects, names, &name, text, moment);
    }
    names.reserve()?;
    send_first(alloc, lanes, objects, names, name, text, moment)
}

// A new connection.
fn send_first<B: Shelves, O: Objects>(
    alloc: Global,
    lanes: &mut Lanes<B>,
    objects: &mut ToldObjects<O>,
    names: &mut Names,
    name: ScriptName,
    text: &str,
    moment: u64,
) -> Result<Written, Stop>
where
    B::K: Drop,
    requires moment { moment ≤ largest }
    requires short { length text.now ≤ longest_text }
    requires new { get names.old.table.values name ≡ None }
    requires room { 0 < names.old.table.spare }
    ensures does { (w : World) → WorldStands lanes.old objects.old names.old.table.values w → w.moment ≡ moment →
        StepTakes (done lanes.old.limits w (step.Send name text.now)) lanes.new objects.new names.new.table.values result }
    ensures runs { (first steps : ℕ) → HasRun first steps lanes.old → RunsLinking first (steps + 1) objects.old objects.new lanes.new result }
    ensures limits { lanes.new.limits ≡ lanes.old.limits }
    ensures counts { objects.old.faults ≤ objects.new.faults }
    ensures numbers { OnOk result ((n : ℕ) → AreBounded n names.old.table.values → AreBounded (n + 1) names.new.table.values) }
{
    // (a law, and no work: its clause is for the proof)
    steps_leave_others();
    others_leave_containers();
    containers_stay_based();
    let mut voice = Voice::new();
    let lines = send(alloc, lanes, objects, &mut voice, &name, text, moment);
    names.give(name, Named::Connection(voice));
    lines
}

// One that was given a name before.
fn send_again<B: Shelves, O: Objects>(
    alloc: Global,
    lanes: &mut Lanes<B>,
    objects: &mut ToldObjects<O>,
    names: &mut Names,
    name: &ScriptName,
    text: &str,
    moment: u64,
) -> Result<Written, Stop>
where
    B::K: Drop,
    requires moment { moment ≤ largest }
    requires short { length text.now ≤ longest_text }
    requires accepted { connection_refusal (get names.old.table.values name.now) ≡ None }
    ensures does { (w : World) → WorldStands lanes.old objects.old names.old.table.values w → w.moment ≡ moment →
        StepTakes (done lanes.old.limits w (step.Send name.now text.now)) lanes.new objects.new names.new.table.values result }
    ensures runs { (first steps : ℕ) → HasRun first steps lanes.old → RunsLinking first (steps + 1) objects.old objects.new lanes.new result }
    ensures limits { lanes.new.limits ≡ lanes.old.limits }
    ensures counts { objects.old.faults ≤ objects.new.faults }
    ensures numbers { OnOk result ((n : ℕ) → AreBounded n names.old.table.values → AreBounded (n + 1) names.new.table.values) }
{
    steps_leave_others();
    others_leave_containers();
    containers_stay_based();
    let mut voice = names.take_voice(name);
    let lines = send(alloc, lanes, objects, &mut voice, name, text, moment);
    names.put(name, Named::Connection(voice));
    lines
}

/// A connection is given the messages that weren't delivered.
pub(crate) fn collect_as<B: Shelves, O: Objects>(
    alloc: Global,
    lanes: &mut Lanes<B>,
    _objects: &ToldObjects<O>,
    names: &mut Names,
    name: &ScriptName,
    moment: u64,
) -> Result<Written, Stop>
where
    B::K: Drop,
    requires moment { moment ≤ largest }
    requires accepted { connection_refusal (get names.old.table.values name.now) ≡ None }
    ensures does { (w : World) → WorldStands lanes.old _objects.now names.old.table.values w → w.moment ≡ moment →
        StepTakes (done lanes.old.limits w (step.Collect name.now)) lanes.new _objects.now names.new.table.values result }
    ensures runs { (first steps : ℕ) → HasRun first steps lanes.old → RunsLinking first (steps + 1) _objects.now _objects.now lanes.new result }
    ensures limits { lanes.new.limits ≡ lanes.old.limits }
    ensures numbers { OnOk result ((n : ℕ) → AreBounded n names.old.table.values → AreBounded (n + 1) names.new.table.values) }
{
    steps_leave_others();
    others_leave_containers();
    containers_stay_based();
    let mut voice = names.take_voice(name);
    let lines = collect(alloc, lanes, &mut voice, name, moment);
    names.put(name, Named::Connection(voice));
    lines
}

/// A connection leaves. Its name is used up.
pub(crate) fn close_as<B: Shelves, O: Objects>(
    alloc: Global,
    lanes: &mut Lanes<B>,
    _objects: &ToldObjects<O>,
    names: &mut Names,
    name: &ScriptName,
    moment: u64,
) -> Result<Written, Stop>
where
    B::K: Drop,
    requires moment { moment ≤ largest }
    requires accepted { connection_refusal (get names.old.table.values name.now) ≡ None }
    ensures does { (w : World) → WorldStands lanes.old _objects.now names.old.table.values w → w.moment ≡ moment →
        StepTakes (done lanes.old.limits w (step.Close name.now)) lanes.new _objects.now names.new.table.values result }
    ensures runs { (first steps : ℕ) → HasRun first steps lanes.old → RunsLinking first (steps + 1) _objects.now _objects.now lanes.new result }
    ensures limits { lanes.new.limits ≡ lanes.old.limits }
    ensures numbers { OnOk result ((n : ℕ) → AreBounded n names.old.table.values → AreBounded (n + 1) names.new.table.values) }
{
    steps_leave_others();
    others_leave_containers();
    containers_stay_based();
    let voice = names.take_voice(name);
    one(alloc, close(alloc, lanes, &voice, name, moment))
}
