//! A step, by its form.
ghost use Rattle.std.specs.Prelude.{◌≡◌, ◌≤◌, ◌<◌, ◌+◌, ℕ, Bool, true, None, OnOk};
ghost use Rattle.fluid_types.specs.Forms.{largest};
ghost use Rattle.fluid_transcript.specs.World.{World};
ghost use Rattle.fluid_transcript.specs.Steps as steps;
ghost use Rattle.fluid_transcript.specs.Transcript.{done};
ghost use Rattle.fluid_desk.specs.Stopping.{HasRun};
ghost use Rattle.fluid_holding.specs.Holding.{HoldsOwn};
ghost use Rattle.fluid_containers.specs.Ending.{RunsLinking};
ghost use Rattle.fluid_containers.specs.Stepping.{MayStand};
ghost use Rattle.fluid_world.specs.Naming.{AreBounded, IsShortStep, refusal_by};
ghost use Rattle.fluid_world.specs.Standing.{WorldStands, StepTakes};

use crate::calling::{close_as, collect_as, send_as};
use crate::holding::{beat_as, edit_as, load_as, pump_as, summarize_as};
use crate::lines::one;
use crate::names::Names;
use crate::roaming::{acked_as, back_as, lose_as, roam_as, say_as, show_named};
use fluid_beside::steps_leave_others;
use fluid_callers::{Written, tasks};
use fluid_desk::{Stop, checkpoint, count, reopen, restart, scribe, sweep};
use fluid_door_link::ToldObjects;
use fluid_holding::others_leave_containers;
use fluid_json::JsonFault;
use fluid_lanes::Lanes;
use fluid_loader::laws::containers_stay_based;
use fluid_log::Shelves;
use fluid_steps::{Edit, LineWhy, Step};
use fluid_store::Objects;
use fluid_tale::Tale;
use std::alloc::Global;

/// Why a step is refused: by what its name stands for, and never by a document.
pub fn refusal(names: &Names, step: &Step) -> Option<LineWhy>
    ensures { result ≡ refusal_by names.now.table.values step.now }
{
    match step {
        Step::Send(name, _) => names.refusal_to_send(name),
        Step::Collect(name) => names.refusal_as_connection(name),
        Step::Close(name) => names.refusal_as_connection(name),
        Step::Scribe(_) => None,
        Step::Checkpoint(_) => None,
        Step::Restart(_, _) => None,
        Step::Reopen(_) => None,
        Step::Sweep(_, _) => None,
        Step::Count(_) => None,
        Step::Tasks(_) => None,
        Step::Load(name, _, _) => names.refusal_as_new(name),
        Step::Pump(name) => names.refusal_as_container(name),
        Step::Edit(name, op) => refusal_of_edit(op, names.refusal_as_container(name)),
        Step::Beat(name) => names.refusal_as_container(name),
        Step::Summarize(name) => names.refusal_as_container(name),
        Step::Show(name) => names.refusal_to_show(name),
        Step::Roam(name, _) => names.refusal_as_new(name),
        Step::Say(name, op) => refusal_of_edit(op, names.refusal_as_roamer(name)),
        Step::Lose(name) => names.refusal_as_lost(name, false),
        Step::Back(name) => names.refusal_as_lost(name, true),
        Step::Acked(name) => names.refusal_as_roamer(name),
    }
}

// The fault of an edit's JSON is looked at behind its name.
fn refusal_of_edit(op: &Result<Edit, JsonFault>, refusal: Option<LineWhy>) -> Option<LineWhy>
    ensures { result ≡ steps.refusal_of_edit op.now refusal }
{
    match refusal {
        Some(why) => Some(why),
        None => match op {
            Ok(_) => None,
            Err(fault) => Some(LineWhy::Json(*fault)),
        },
    }
}

/// Does a step that isn't refused, at this moment, which is its line's number. The tale says whether the desk stands for a world.
pub fn take_step<B: Shelves, O: Objects>(
    alloc: Global,
    lanes: &mut Lanes<B>,
    objects: &mut ToldObjects<O>,
    names: &mut Names,
    step: Step,
    moment: u64,
    _may: &Tale<bool>,
) -> Result<Written, Stop>
where
    B::K: Drop,
    ghost good: { Bool }
    requires moment { moment ≤ largest }
    requires stands { MayStand good lanes.old }
    requires accepted { refusal_by names.old.table.values step ≡ None }
    requires short { IsShortStep step }
    requires few { (n : ℕ) × (AreBounded n names.old.table.values × (n < largest)) }
    ensures does { (w : World) → good ≡ true → WorldStands lanes.old objects.old names.old.table.values w → HoldsOwn w.store → w.moment ≡ moment →
        StepTakes (done lanes.old.limits w step) lanes.new objects.new names.new.table.values result }
    ensures runs { (first steps : ℕ) → HasRun first steps lanes.old → RunsLinking first (steps + 1) objects.old objects.new lanes.new result }
    ensures limits { lanes.new.limits ≡ lanes.old.limits }
    ensures counts { objects.old.faults ≤ objects.new.faults }
    ensures numbers { OnOk result ((n : ℕ) → AreBounded n names.old.table.values → AreBounded (n + 1) names.new.table.values) }
{
    // (a law, and no work: its clause is for the proof)
    steps_leave_others();
    others_leave_containers();
    containers_stay_based();
    match step {
        Step::Send(name, text) => {
            send_as(alloc, lanes, objects, names, name, text.as_str(), moment)
        }
        Step::Collect(name) => collect_as(alloc, lanes, objects, names, &name, moment),
        Step::Close(name) => close_as(alloc, lanes, objects, names, &name, moment),
        Step::Scribe(name) => one(alloc, scribe(alloc, lanes, objects, &name, moment)),
        Step::Checkpoint(name) => one(alloc, checkpoint(alloc, lanes, &name, moment)),
        Step::Restart(name, number) => one(alloc, restart(alloc, lanes, &name, number, moment)),
        Step::Reopen(name) => one(alloc, reopen(alloc, lanes, &name, moment)),
        Step::Sweep(name, silence) => one(alloc, sweep(alloc, lanes, &name, silence, moment)),
        Step::Count(name) => one(alloc, count(alloc, lanes, &name, moment)),
        Step::Tasks(name) => one(alloc, tasks(alloc, lanes, &name, moment)),
        Step::Load(name, document, pick) => {
            load_as(alloc, lanes, objects, names, name, &document, &pick, moment)
        }
        Step::Pump(name) => pump_as(alloc, lanes, objects, names, &name, moment),
        Step::Edit(name, op) => match op {
            Ok(op) => edit_as(alloc, lanes, objects, names, &name, op, moment),
            Err(_) => unreachable!(),
        },
        Step::Beat(name) => beat_as(alloc, lanes, objects, names, &name, moment),
        Step::Summarize(name) => summarize_as(alloc, lanes, objects, names, &name, moment),
        Step::Show(name) => show_named(alloc, lanes, objects, names, &name, moment),
        Step::Roam(name, document) => {
            roam_as(alloc, lanes, objects, names, name, &document, moment)
        }
        Step::Say(name, op) => say_as(alloc, lanes, objects, names, &name, op, moment),
        Step::Lose(name) => lose_as(alloc, lanes, objects, names, &name, moment),
        Step::Back(name) => back_as(alloc, lanes, objects, names, &name, moment),
        Step::Acked(name) => acked_as(alloc, lanes, objects, names, &name, moment),
    }
}
