//! The steps of containers, by the names that they have.
ghost use Rattle.std.specs.Prelude.{◌≡◌, ◌≤◌, ◌<◌, ◌+◌, ℕ, Bool, true, None, OnOk, Ok};
ghost use Rattle.std.specs.FinMap.{get};
ghost use Rattle.fluid_types.specs.Forms.{largest};
ghost use Rattle.fluid_steps.specs.declared.steps.Step.TheVariants as step;
ghost use Rattle.fluid_transcript.specs.World.{World};
ghost use Rattle.fluid_transcript.specs.Transcript.{done};
ghost use Rattle.fluid_desk.specs.Stopping.{HasRun};
ghost use Rattle.fluid_holding.specs.Holding.{HoldsOwn};
ghost use Rattle.fluid_containers.specs.Ending.{RunsLinking};
ghost use Rattle.fluid_containers.specs.Stepping.{IsShort, MayStand};
ghost use Rattle.fluid_world.specs.Naming.{AreBounded, container_refusal, named_for, new_refusal};
ghost use Rattle.fluid_world.specs.Standing.{WorldStands, StepTakes};

use crate::lines::one;
use crate::named::Named;
use crate::names::Names;
use fluid_beside::steps_leave_others;
use fluid_callers::Written;
use fluid_containers::{Loaded, beat, edit, load, pump, show, summarize};
use fluid_desk::Stop;
use fluid_door_link::ToldObjects;
use fluid_holding::others_leave_containers;
use fluid_lanes::Lanes;
use fluid_loader::laws::containers_stay_based;
use fluid_log::Shelves;
use fluid_steps::{Edit, Pick, ScriptName};
use fluid_store::Objects;
use fluid_types::DocName;
use std::alloc::Global;

/// A container of a new name joins a document and is loaded. The name of one that wasn't loaded is used up.
pub(crate) fn load_as<B: Shelves, O: Objects>(
    alloc: Global,
    lanes: &mut Lanes<B>,
    objects: &mut ToldObjects<O>,
    names: &mut Names,
    name: ScriptName,
    document: &DocName,
    pick: &Pick,
    moment: u64,
) -> Result<Written, Stop>
where
    B::K: Drop,
    ghost good: { Bool }
    requires moment { moment ≤ largest }
    requires stands { MayStand good lanes.old }
    requires accepted { new_refusal (get names.old.table.values name) ≡ None }
    ensures does { (w : World) → good ≡ true → WorldStands lanes.old objects.old names.old.table.values w → w.moment ≡ moment →
        StepTakes (done lanes.old.limits w (step.Load name document.now pick.now)) lanes.new objects.new names.new.table.values result }
    ensures runs { (first steps : ℕ) → HasRun first steps lanes.old → RunsLinking first (steps + 1) objects.old objects.new lanes.new result }
    ensures limits { lanes.new.limits ≡ lanes.old.limits }
    ensures counts { objects.old.faults ≤ objects.new.faults }
    ensures numbers { OnOk result ((n : ℕ) → AreBounded n names.old.table.values → AreBounded (n + 1) names.new.table.values) }
{
    // (a law, and no work: its clause is for the proof)
    steps_leave_others();
    others_leave_containers();
    containers_stay_based();
    names.reserve()?;
    let (line, loaded) = load(alloc, lanes, objects, &name, document, pick, moment)?;
    names.give(name, named_for(loaded));
    one(alloc, Ok(line))
}

// What a name stands for behind a load.
fn named_for(loaded: Loaded) -> Named
    ensures { result ≡ named_for loaded }
{
    match loaded {
        Loaded::Held(holder) => Named::Container(holder),
        Loaded::TurnedAway(_) => Named::Used,
        Loaded::NoSummary => Named::Used,
        Loaded::BadSummary(_) => Named::Used,
    }
}

/// A container takes in the messages up to the last.
pub(crate) fn pump_as<B: Shelves, O: Objects>(
    alloc: Global,
    lanes: &mut Lanes<B>,
    objects: &mut ToldObjects<O>,
    names: &mut Names,
    name: &ScriptName,
    moment: u64,
) -> Result<Written, Stop>
where
    B::K: Drop,
    ghost good: { Bool }
    requires moment { moment ≤ largest }
    requires stands { MayStand good lanes.old }
    requires accepted { container_refusal (get names.old.table.values name.now) ≡ None }
    ensures does { (w : World) → good ≡ true → WorldStands lanes.old objects.old names.old.table.values w → w.moment ≡ moment →
        StepTakes (done lanes.old.limits w (step.Pump name.now)) lanes.new objects.new names.new.table.values result }
    ensures runs { (first steps : ℕ) → HasRun first steps lanes.old → RunsLinking first (steps + 1) objects.old objects.new lanes.new result }
    ensures limits { lanes.new.limits ≡ lanes.old.limits }
    ensures counts { objects.old.faults ≤ objects.new.faults }
    ensures numbers { OnOk result ((n : ℕ) → AreBounded n names.old.table.values → AreBounded (n + 1) names.new.table.values) }
{
    steps_leave_others();
    others_leave_containers();
    containers_stay_based();
    let mut holder = names.take_holder(name);
    let line = pump(alloc, lanes, objects, &mut holder, name, moment);
    names.put(name, Named::Container(holder));
    one(alloc, line)
}

/// A container's client edits a channel.
pub(crate) fn edit_as<B: Shelves, O: Objects>(
    alloc: Global,
    lanes: &mut Lanes<B>,
    objects: &mut ToldObjects<O>,
    names: &mut Names,
    name: &ScriptName,
    op: Edit,
    moment: u64,
) -> Result<Written, Stop>
where
    B::K: Drop,
    ghost good: { Bool }
    requires moment { moment ≤ largest }
    requires stands { MayStand good lanes.old }
    requires accepted { container_refusal (get names.old.table.values name.now) ≡ None }
    requires short { IsShort op }
    requires few { (n : ℕ) × (AreBounded n names.old.table.values × (n < largest)) }
    ensures does { (w : World) → good ≡ true → WorldStands lanes.old objects.old names.old.table.values w → w.moment ≡ moment →
        StepTakes (done lanes.old.limits w (step.Edit name.now (Ok op))) lanes.new objects.new names.new.table.values result }
    ensures runs { (first steps : ℕ) → HasRun first steps lanes.old → RunsLinking first (steps + 1) objects.old objects.new lanes.new result }
    ensures limits { lanes.new.limits ≡ lanes.old.limits }
    ensures counts { objects.old.faults ≤ objects.new.faults }
    ensures numbers { OnOk result ((n : ℕ) → AreBounded n names.old.table.values → AreBounded (n + 1) names.new.table.values) }
{
    steps_leave_others();
    others_leave_containers();
    containers_stay_based();
    let mut holder = names.take_holder(name);
    let line = edit(alloc, lanes, objects, &mut holder, name, op, moment);
    names.put(name, Named::Container(holder));
    one(alloc, line)
}

/// A container's client says where it is.
pub(crate) fn beat_as<B: Shelves, O: Objects>(
    alloc: Global,
    lanes: &mut Lanes<B>,
    objects: &mut ToldObjects<O>,
    names: &mut Names,
    name: &ScriptName,
    moment: u64,
) -> Result<Written, Stop>
where
    B::K: Drop,
    ghost good: { Bool }
    requires moment { moment ≤ largest }
    requires stands { MayStand good lanes.old }
    requires accepted { container_refusal (get names.old.table.values name.now) ≡ None }
    requires few { (n : ℕ) × (AreBounded n names.old.table.values × (n < largest)) }
    ensures does { (w : World) → good ≡ true → WorldStands lanes.old objects.old names.old.table.values w → w.moment ≡ moment →
        StepTakes (done lanes.old.limits w (step.Beat name.now)) lanes.new objects.new names.new.table.values result }
    ensures runs { (first steps : ℕ) → HasRun first steps lanes.old → RunsLinking first (steps + 1) objects.old objects.new lanes.new result }
    ensures limits { lanes.new.limits ≡ lanes.old.limits }
    ensures counts { objects.old.faults ≤ objects.new.faults }
    ensures numbers { OnOk result ((n : ℕ) → AreBounded n names.old.table.values → AreBounded (n + 1) names.new.table.values) }
{
    steps_leave_others();
    others_leave_containers();
    containers_stay_based();
    let mut holder = names.take_holder(name);
    let line = beat(alloc, lanes, objects, &mut holder, name, moment);
    names.put(name, Named::Container(holder));
    one(alloc, line)
}

/// A container uploads its channels and proposes them as a summary.
pub(crate) fn summarize_as<B: Shelves, O: Objects>(
    alloc: Global,
    lanes: &mut Lanes<B>,
    objects: &mut ToldObjects<O>,
    names: &mut Names,
    name: &ScriptName,
    moment: u64,
) -> Result<Written, Stop>
where
    B::K: Drop,
    ghost good: { Bool }
    requires moment { moment ≤ largest }
    requires stands { MayStand good lanes.old }
    requires accepted { container_refusal (get names.old.table.values name.now) ≡ None }
    requires few { (n : ℕ) × (AreBounded n names.old.table.values × (n < largest)) }
    ensures does { (w : World) → good ≡ true → WorldStands lanes.old objects.old names.old.table.values w → HoldsOwn w.store → w.moment ≡ moment →
        StepTakes (done lanes.old.limits w (step.Summarize name.now)) lanes.new objects.new names.new.table.values result }
    ensures runs { (first steps : ℕ) → HasRun first steps lanes.old → RunsLinking first (steps + 1) objects.old objects.new lanes.new result }
    ensures limits { lanes.new.limits ≡ lanes.old.limits }
    ensures counts { objects.old.faults ≤ objects.new.faults }
    ensures numbers { OnOk result ((n : ℕ) → AreBounded n names.old.table.values → AreBounded (n + 1) names.new.table.values) }
{
    steps_leave_others();
    others_leave_containers();
    containers_stay_based();
    let mut holder = names.take_holder(name);
    let line = summarize(alloc, lanes, objects, &mut holder, name, moment);
    names.put(name, Named::Container(holder));
    one(alloc, line)
}

/// What a container shows.
pub(crate) fn show_as<B: Shelves, O: Objects>(
    alloc: Global,
    lanes: &mut Lanes<B>,
    _objects: &ToldObjects<O>,
    names: &Names,
    name: &ScriptName,
    moment: u64,
) -> Result<Written, Stop>
where
    B::K: Drop,
    requires moment { moment ≤ largest }
    requires accepted { container_refusal (get names.now.table.values name.now) ≡ None }
    ensures does { (w : World) → WorldStands lanes.old _objects.now names.now.table.values w → w.moment ≡ moment →
        StepTakes (done lanes.old.limits w (step.Show name.now)) lanes.new _objects.now names.now.table.values result }
    ensures runs { (first steps : ℕ) → HasRun first steps lanes.old → RunsLinking first (steps + 1) _objects.now _objects.now lanes.new result }
    ensures limits { lanes.new.limits ≡ lanes.old.limits }
{
    steps_leave_others();
    others_leave_containers();
    containers_stay_based();
    one(alloc, show(alloc, lanes, names.holder(name), name, moment))
}
