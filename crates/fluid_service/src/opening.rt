// How a door is made of a lane.
ghost use Rattle.std.specs.Prelude.{◌≡◌, List, IfOk, IfErr};
ghost use Rattle.fluid_lane.specs.declared.steps.Step.{Step as AStep};
ghost use Rattle.fluid_lane.specs.Standing.{LaneStands};
ghost use Rattle.fluid_doors.specs.Terms.{terms_of};
ghost use Rattle.fluid_service.specs.Visiting.{IsSplitOf};
ghost use Rattle.fluid_service.specs.Opening.{AreDoorOf};

use crate::visit::Visit;
use fluid_doors::{Door, Pass};
use fluid_lane::Lane;
use fluid_log::Keeper;
use fluid_types::DocName;
use std::alloc::Global;
use std::sync::{Arc, Wait};

/// Two visits of the document of this lane, by one door. With no memory the lane comes back.
pub(crate) fn open_door<R: Wait, K: Keeper + Drop>(
    rt: &R,
    alloc: Global,
    name: DocName,
    lane: Lane<K>,
) -> Result<(Visit<K>, Visit<K>), Lane<K>>
    requires { (l : List AStep) × LaneStands lane l }
    ensures visits { IfOk result (AreDoorOf name lane) }
    ensures back { IfErr result (λ back. ((l : List AStep) × LaneStands back l) × (terms_of back ≡ terms_of lane)) }
{
    match Door::open(alloc, name, lane) {
        Ok((door, pass)) => share(rt, alloc, door, pass),
        Err((lane, _)) => Err(lane),
    }
}

// Two visits by a door that nobody else has. With no memory the door is ended.
fn share<R: Wait, K: Keeper + Drop>(
    rt: &R,
    alloc: Global,
    door: Door<K>,
    pass: Pass<K>,
) -> Result<(Visit<K>, Visit<K>), Lane<K>>
    requires { pass.turn ≡ door.turn }
    ensures visits { IfOk result (λ v. (v.0 ≡ record { door = door; pass = pass }) × IsSplitOf v.0 v.1) }
    ensures back { IfErr result (λ back. ((l : List AStep) × LaneStands back l) × (terms_of back ≡ door.turn.fixed)) }
{
    match Arc::new(alloc, door) {
        Ok(door) => {
            let mut first = Visit::new(door, pass);
            match first.fork() {
                Ok(second) => Ok((first, second)),
                Err(_) => Err(first.end(rt)),
            }
        }
        Err(refused) => Err(refused.value.end(rt, pass)),
    }
}
