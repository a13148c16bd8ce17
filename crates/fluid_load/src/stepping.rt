//! A step of a script that may be refused.
ghost use Rattle.std.specs.Prelude.{◌≡◌, ◌≤◌, ◌<◌, ◌+◌, ℕ, Bool, true, OnOk};
ghost use Rattle.fluid_types.specs.Forms.{largest};
ghost use Rattle.fluid_transcript.specs.World.{World};
ghost use Rattle.fluid_desk.specs.Stopping.{HasRun};
ghost use Rattle.fluid_holding.specs.Holding.{HoldsOwn};
ghost use Rattle.fluid_containers.specs.Ending.{RunsLinking};
ghost use Rattle.fluid_containers.specs.Stepping.{MayStand};
ghost use Rattle.fluid_world.specs.Naming.{AreBounded, IsShortStep};
ghost use Rattle.fluid_world.specs.Standing.{WorldStands};
ghost use Rattle.fluid_workload.specs.Working.{behind_step};
ghost use Rattle.fluid_load.specs.Standing.{PassTakes};

use fluid_desk::Stop;
use fluid_door_link::ToldObjects;
use fluid_lanes::Lanes;
use fluid_log::Shelves;
use fluid_steps::Step;
use fluid_store::Objects;
use fluid_tale::Tale;
use fluid_world::{Names, refusal, take_step};
use std::alloc::Global;

/// Does a step at the moment 0, unless it is refused: then it is passed over. What it writes isn't kept.
pub(crate) fn pass_step<B: Shelves, O: Objects>(
    alloc: Global,
    lanes: &mut Lanes<B>,
    objects: &mut ToldObjects<O>,
    names: &mut Names,
    step: Step,
    may: &Tale<bool>,
) -> Result<(), Stop>
where
    B::K: Drop,
    ghost good: { Bool }
    requires stands { MayStand good lanes.old }
    requires short { IsShortStep step }
    requires few { (n : ℕ) × (AreBounded n names.old.table.values × (n < largest)) }
    ensures does { (w : World) → good ≡ true → WorldStands lanes.old objects.old names.old.table.values w → HoldsOwn w.store → w.moment ≡ 0 →
        PassTakes (behind_step lanes.old.limits w step) lanes.new objects.new names.new.table.values result }
    ensures runs { (first steps : ℕ) → HasRun first steps lanes.old → RunsLinking first (steps + 1) objects.old objects.new lanes.new result }
    ensures limits { lanes.new.limits ≡ lanes.old.limits }
    ensures counts { objects.old.faults ≤ objects.new.faults }
    ensures numbers { OnOk result ((n : ℕ) → AreBounded n names.old.table.values → AreBounded (n + 1) names.new.table.values) }
{
    match refusal(names, &step) {
        Some(_) => Ok(()),
        None => match take_step(alloc, lanes, objects, names, step, 0, may) {
            Ok(_) => Ok(()),
            Err(stop) => Err(stop),
        },
    }
}
