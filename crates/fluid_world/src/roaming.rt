//! The steps of roamers, by the names that they have.
ghost use Rattle.std.specs.Prelude.{◌≡◌, ◌≤◌, ◌<◌, ◌+◌, ℕ, false, true, None, OnOk, Ok};
ghost use Rattle.std.specs.FinMap.{get};
ghost use Rattle.fluid_types.specs.Forms.{largest};
ghost use Rattle.fluid_steps.specs.declared.steps.Step.TheVariants as step;
ghost use Rattle.fluid_transcript.specs.Steps.{refusal_of_edit};
ghost use Rattle.fluid_transcript.specs.World.{World};
ghost use Rattle.fluid_transcript.specs.Transcript.{done};
ghost use Rattle.fluid_desk.specs.Stopping.{HasRun};
ghost use Rattle.fluid_containers.specs.Ending.{RunsLinking};
ghost use Rattle.fluid_containers.specs.Stepping.{IsShort};
ghost use Rattle.fluid_world.specs.Naming.{AreBounded, IsShortStep, named_by, new_refusal, lost_refusal, roamer_refusal, shown_refusal};
ghost use Rattle.fluid_world.specs.Standing.{WorldStands, StepTakes};

use crate::holding::show_as;
use crate::lines::one;
use crate::named::Named;
use crate::names::Names;
use fluid_beside::steps_leave_others;
use fluid_callers::Written;
use fluid_desk::Stop;
use fluid_door_link::ToldObjects;
use fluid_holding::others_leave_containers;
use fluid_json::JsonFault;
use fluid_lanes::Lanes;
use fluid_loader::laws::containers_stay_based;
use fluid_log::Shelves;
use fluid_roamers::{Roamer, acked, back, lose, roam, say, show};
use fluid_steps::{Edit, ScriptName};
use fluid_store::Objects;
use fluid_types::DocName;
use std::alloc::Global;

/// A roamer of a new name joins a document. The name of one whose join is refused is used up.
pub(crate) fn roam_as<B: Shelves, O: Objects>(
    alloc: Global,
    lanes: &mut Lanes<B>,
    objects: &mut ToldObjects<O>,
    names: &mut Names,
    name: ScriptName,
    document: &DocName,
    moment: u64,
) -> Result<Written, Stop>
where
    B::K: Drop,
    requires moment { moment ≤ largest }
    requires accepted { new_refusal (get names.old.table.values name) ≡ None }
    ensures does { (w : World) → WorldStands lanes.old objects.old names.old.table.values w → w.moment ≡ moment →
        StepTakes (done lanes.old.limits w (step.Roam name document.now)) lanes.new objects.new names.new.table.values result }
    ensures runs { (first steps : ℕ) → HasRun first steps lanes.old → RunsLinking first (steps + 1) objects.old objects.new lanes.new result }
    ensures limits { lanes.new.limits ≡ lanes.old.limits }
    ensures counts { objects.old.faults ≤ objects.new.faults }
    ensures numbers { OnOk result ((n : ℕ) → AreBounded n names.old.table.values → AreBounded (n + 1) names.new.table.values) }
{
    // (laws, and no work: their clauses are for the proof)
    steps_leave_others();
    others_leave_containers();
    containers_stay_based();
    names.reserve()?;
    let (line, made) = roam(alloc, lanes, objects, &name, document, moment)?;
    names.give(name, named_by(made));
    one(alloc, Ok(line))
}

// What a name stands for behind a roam.
fn named_by(made: Option<Roamer>) -> Named
    ensures { result ≡ named_by made }
{
    match made {
        Some(roamer) => Named::Roamer(roamer),
        None => Named::Used,
    }
}

/// A roamer's user edits a channel.
pub(crate) fn say_as<B: Shelves, O: Objects>(
    alloc: Global,
    lanes: &mut Lanes<B>,
    objects: &mut ToldObjects<O>,
    names: &mut Names,
    name: &ScriptName,
    op: Result<Edit, JsonFault>,
    moment: u64,
) -> Result<Written, Stop>
where
    B::K: Drop,
    requires moment { moment ≤ largest }
    requires accepted { refusal_of_edit op (roamer_refusal (get names.old.table.values name.now)) ≡ None }
    requires few { (n : ℕ) × (AreBounded n names.old.table.values × (n < largest)) }
    requires short { IsShortStep (step.Say name.now op) }
    ensures does { (w : World) → WorldStands lanes.old objects.old names.old.table.values w → w.moment ≡ moment →
        StepTakes (done lanes.old.limits w (step.Say name.now op)) lanes.new objects.new names.new.table.values result }
    ensures runs { (first steps : ℕ) → HasRun first steps lanes.old → RunsLinking first (steps + 1) objects.old objects.new lanes.new result }
    ensures limits { lanes.new.limits ≡ lanes.old.limits }
    ensures counts { objects.old.faults ≤ objects.new.faults }
    ensures numbers { OnOk result ((n : ℕ) → AreBounded n names.old.table.values → AreBounded (n + 1) names.new.table.values) }
{
    match op {
        Ok(edit) => say_edit(alloc, lanes, objects, names, name, edit, moment),
        Err(_) => unreachable!(),
    }
}

// The edit of a line that was read.
fn say_edit<B: Shelves, O: Objects>(
    alloc: Global,
    lanes: &mut Lanes<B>,
    objects: &mut ToldObjects<O>,
    names: &mut Names,
    name: &ScriptName,
    op: Edit,
    moment: u64,
) -> Result<Written, Stop>
where
    B::K: Drop,
    requires moment { moment ≤ largest }
    requires accepted { roamer_refusal (get names.old.table.values name.now) ≡ None }
    requires few { (n : ℕ) × (AreBounded n names.old.table.values × (n < largest)) }
    requires short { IsShort op }
    ensures does { (w : World) → WorldStands lanes.old objects.old names.old.table.values w → w.moment ≡ moment →
        StepTakes (done lanes.old.limits w (step.Say name.now (Ok op))) lanes.new objects.new names.new.table.values result }
    ensures runs { (first steps : ℕ) → HasRun first steps lanes.old → RunsLinking first (steps + 1) objects.old objects.new lanes.new result }
    ensures limits { lanes.new.limits ≡ lanes.old.limits }
    ensures counts { objects.old.faults ≤ objects.new.faults }
    ensures numbers { OnOk result ((n : ℕ) → AreBounded n names.old.table.values → AreBounded (n + 1) names.new.table.values) }
{
    // (laws, and no work: their clauses are for the proof)
    steps_leave_others();
    others_leave_containers();
    containers_stay_based();
    let mut roamer = names.take_roamer(name);
    let line = say(alloc, lanes, objects, &mut roamer, name, op, moment);
    names.put(name, Named::Roamer(roamer));
    one(alloc, line)
}

/// A roamer's connection is lost.
pub(crate) fn lose_as<B: Shelves, O: Objects>(
    alloc: Global,
    lanes: &mut Lanes<B>,
    _objects: &ToldObjects<O>,
    names: &mut Names,
    name: &ScriptName,
    moment: u64,
) -> Result<Written, Stop>
where
    B::K: Drop,
    requires moment { moment ≤ largest }
    requires accepted { lost_refusal false (get names.old.table.values name.now) ≡ None }
    ensures does { (w : World) → WorldStands lanes.old _objects.now names.old.table.values w → w.moment ≡ moment →
        StepTakes (done lanes.old.limits w (step.Lose name.now)) lanes.new _objects.now names.new.table.values result }
    ensures runs { (first steps : ℕ) → HasRun first steps lanes.old → RunsLinking first (steps + 1) _objects.now _objects.now lanes.new result }
    ensures limits { lanes.new.limits ≡ lanes.old.limits }
    ensures numbers { OnOk result ((n : ℕ) → AreBounded n names.old.table.values → AreBounded (n + 1) names.new.table.values) }
{
    // (laws, and no work: their clauses are for the proof)
    steps_leave_others();
    others_leave_containers();
    containers_stay_based();
    let mut roamer = names.take_roamer(name);
    let line = lose(alloc, lanes, &mut roamer, name, moment);
    names.put(name, Named::Roamer(roamer));
    one(alloc, line)
}

/// A lost roamer comes back.
pub(crate) fn back_as<B: Shelves, O: Objects>(
    alloc: Global,
    lanes: &mut Lanes<B>,
    objects: &mut ToldObjects<O>,
    names: &mut Names,
    name: &ScriptName,
    moment: u64,
) -> Result<Written, Stop>
where
    B::K: Drop,
    requires moment { moment ≤ largest }
    requires accepted { lost_refusal true (get names.old.table.values name.now) ≡ None }
    requires few { (n : ℕ) × (AreBounded n names.old.table.values × (n < largest)) }
    ensures does { (w : World) → WorldStands lanes.old objects.old names.old.table.values w → w.moment ≡ moment →
        StepTakes (done lanes.old.limits w (step.Back name.now)) lanes.new objects.new names.new.table.values result }
    ensures runs { (first steps : ℕ) → HasRun first steps lanes.old → RunsLinking first (steps + 1) objects.old objects.new lanes.new result }
    ensures limits { lanes.new.limits ≡ lanes.old.limits }
    ensures counts { objects.old.faults ≤ objects.new.faults }
    ensures numbers { OnOk result ((n : ℕ) → AreBounded n names.old.table.values → AreBounded (n + 1) names.new.table.values) }
{
    // (laws, and no work: their clauses are for the proof)
    steps_leave_others();
    others_leave_containers();
    containers_stay_based();
    let mut roamer = names.take_roamer(name);
    let line = back(alloc, lanes, objects, &mut roamer, name, moment);
    names.put(name, Named::Roamer(roamer));
    one(alloc, line)
}

/// A roamer tells how many of its edits stand.
pub(crate) fn acked_as<B: Shelves, O: Objects>(
    alloc: Global,
    lanes: &mut Lanes<B>,
    _objects: &ToldObjects<O>,
    names: &mut Names,
    name: &ScriptName,
    moment: u64,
) -> Result<Written, Stop>
where
    B::K: Drop,
    requires moment { moment ≤ largest }
    requires accepted { roamer_refusal (get names.old.table.values name.now) ≡ None }
    requires few { (n : ℕ) × (AreBounded n names.old.table.values × (n < largest)) }
    ensures does { (w : World) → WorldStands lanes.old _objects.now names.old.table.values w → w.moment ≡ moment →
        StepTakes (done lanes.old.limits w (step.Acked name.now)) lanes.new _objects.now names.new.table.values result }
    ensures runs { (first steps : ℕ) → HasRun first steps lanes.old → RunsLinking first (steps + 1) _objects.now _objects.now lanes.new result }
    ensures limits { lanes.new.limits ≡ lanes.old.limits }
    ensures numbers { OnOk result ((n : ℕ) → AreBounded n names.old.table.values → AreBounded (n + 1) names.new.table.values) }
{
    // (laws, and no work: their clauses are for the proof)
    steps_leave_others();
    others_leave_containers();
    containers_stay_based();
    let mut roamer = names.take_roamer(name);
    let line = acked(alloc, lanes, &mut roamer, name, moment);
    names.put(name, Named::Roamer(roamer));
    one(alloc, line)
}

// What a roamer shows.
fn show_roamer<B: Shelves, O: Objects>(
    alloc: Global,
    lanes: &mut Lanes<B>,
    _objects: &ToldObjects<O>,
    names: &Names,
    name: &ScriptName,
    moment: u64,
) -> Result<Written, Stop>
where
    B::K: Drop,
    requires moment { moment ≤ largest }
    requires accepted { roamer_refusal (get names.now.table.values name.now) ≡ None }
    ensures does { (w : World) → WorldStands lanes.old _objects.now names.now.table.values w → w.moment ≡ moment →
        StepTakes (done lanes.old.limits w (step.Show name.now)) lanes.new _objects.now names.now.table.values result }
    ensures runs { (first steps : ℕ) → HasRun first steps lanes.old → RunsLinking first (steps + 1) _objects.now _objects.now lanes.new result }
    ensures limits { lanes.new.limits ≡ lanes.old.limits }
{
    // (laws, and no work: their clauses are for the proof)
    steps_leave_others();
    others_leave_containers();
    containers_stay_based();
    let line = show(alloc, lanes, names.roamer(name), name, moment);
    one(alloc, line)
}

/// What a container or a roamer shows.
pub(crate) fn show_named<B: Shelves, O: Objects>(
    alloc: Global,
    lanes: &mut Lanes<B>,
    objects: &ToldObjects<O>,
    names: &Names,
    name: &ScriptName,
    moment: u64,
) -> Result<Written, Stop>
where
    B::K: Drop,
    requires moment { moment ≤ largest }
    requires accepted { shown_refusal (get names.now.table.values name.now) ≡ None }
    ensures does { (w : World) → WorldStands lanes.old objects.now names.now.table.values w → w.moment ≡ moment →
        StepTakes (done lanes.old.limits w (step.Show name.now)) lanes.new objects.now names.now.table.values result }
    ensures runs { (first steps : ℕ) → HasRun first steps lanes.old → RunsLinking first (steps + 1) objects.now objects.now lanes.new result }
    ensures limits { lanes.new.limits ≡ lanes.old.limits }
{
    if names.is_roamer(name) {
        return show_roamer(alloc, lanes, objects, names, name, moment);
    }
    show_as(alloc, lanes, objects, names, name, moment)
}
