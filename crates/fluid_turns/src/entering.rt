//! A submission on the lane of the document.
ghost use Rattle.std.specs.Prelude.{◌≡◌, ◌+◌, ℕ, true};
ghost use Rattle.fluid_types.specs.Fits.{Fits};
ghost use Rattle.fluid_rules.specs.declared.limits.Limits.{Limits as ALimits};
ghost use Rattle.fluid_transcript.specs.World.{World, Document, is_open};
ghost use Rattle.fluid_desk.specs.Stands.{IsLaneOf, DeskStands};
ghost use Rattle.fluid_desk.specs.Stopping.{HasRun, LaneRuns, RunsOn};
ghost use Rattle.fluid_workload.specs.Working.{work};
ghost use Rattle.fluid_turns.specs.Entering.{EntersLane, EntersDesk, IsSubmission, unentered_by};

use fluid_desk::{Stop, stop_of};
use fluid_lane::{Lane, LaneFault};
use fluid_lanes::Lanes;
use fluid_log::{Keeper, Shelves};
use fluid_types::{DocName, Raw, Verdict};
use std::alloc::Global;

/// Enters a submission on a document that is open: its verdict, none where the document is full. On one that isn't open nothing is
/// entered.
pub fn enter<B: Shelves>(
    alloc: Global,
    lanes: &mut Lanes<B>,
    document: &DocName,
    raw: &Raw,
) -> Result<Option<Verdict>, Stop>
where
    B::K: Drop,
    requires fits { Fits raw.now }
    requires kind { IsSubmission raw.now }
    ensures does { (w : World) (client : ℕ) → DeskStands lanes.old w → is_open w work ≡ true → document.now ≡ work → EntersDesk lanes.old.limits w client raw.now lanes.new result }
    ensures runs { (first steps : ℕ) → HasRun first steps lanes.old → RunsOn first (steps + 1) lanes.new result }
    ensures limits { lanes.new.limits ≡ lanes.old.limits }
{
    if !lanes.is_open(document) {
        return Ok(None);
    }
    enter_lane(alloc, lanes.lent(document), raw)
}

fn enter_lane<K: Keeper>(
    alloc: Global,
    lane: &mut Lane<K>,
    raw: &Raw,
) -> Result<Option<Verdict>, Stop>
    requires fits { Fits raw.now }
    requires kind { IsSubmission raw.now }
    ensures does { (limits : ALimits) (d : Document) → IsLaneOf limits lane.old d → EntersLane limits d raw.now lane.new result }
    ensures runs { LaneRuns lane.old lane.new result }
{
    match lane.submit(alloc, raw) {
        Ok(verdict) => Ok(Some(verdict)),
        Err(fault) => unentered(fault),
    }
}

fn unentered(fault: LaneFault) -> Result<Option<Verdict>, Stop>
    ensures { result ≡ unentered_by fault }
{
    match fault {
        LaneFault::Full(_) => Ok(None),
        other => Err(stop_of(other)),
    }
}
