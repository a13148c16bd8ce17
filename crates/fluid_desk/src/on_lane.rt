//! The steps on the lane of a document that is open.
ghost use Rattle.std.specs.Prelude.{◌≡◌, ◌≤◌, ℕ};
ghost use Rattle.fluid_types.specs.Forms.{largest};
ghost use Rattle.fluid_rules.specs.declared.limits.Limits.{Limits as ALimits};
ghost use Rattle.fluid_transcript.specs.World.{World, Document, ledger_of};
ghost use Rattle.fluid_transcript.specs.Documents.{checkpointed, counted_up, restarted, swept};
ghost use Rattle.fluid_desk.specs.Stands.{IsLaneOf};
ghost use Rattle.fluid_desk.specs.Stopping.{LaneRuns};
ghost use Rattle.fluid_desk.specs.Acting.{ActDoes, AreNumbers, SaysUnstored, SaysUnrestarted};

use crate::lines::{
    Numbers, count_line, full_line, large_line, line_or_stop, no_checkpoint_line, restarted_line,
    stored_line, swept_line,
};
use crate::stop::{Stop, stop_of};
use fluid_json::Text;
use fluid_lane::{Lane, LaneFault};
use fluid_log::Keeper;
use fluid_types::DocName;
use std::alloc::Global;

/// How many entries a document has, and what numbers.
pub(crate) fn count<K: Keeper>(alloc: Global, name: &DocName, lane: &Lane<K>) -> Result<Text, Stop>
    ensures does { (limits : ALimits) (w : World) (d : Document) → IsLaneOf limits lane.now d → ActDoes limits (counted_up w d name.now) d lane.now result }
    ensures runs { LaneRuns lane.now lane.now result }
{
    line_or_stop(count_line(alloc, name, numbers_of(lane)))
}

/// Stores a checkpoint, where there is room for one and its text isn't too large.
pub(crate) fn checkpoint<K: Keeper>(
    alloc: Global,
    name: &DocName,
    lane: &mut Lane<K>,
) -> Result<Text, Stop>
    ensures does { (limits : ALimits) (w : World) (d : Document) → IsLaneOf limits lane.old d → ActDoes limits (checkpointed limits w d name.now) d lane.new result }
    ensures runs { LaneRuns lane.old lane.new result }
{
    let entries = lane.entered();
    match lane.checkpoint(alloc) {
        Ok(number) => line_or_stop(stored_line(alloc, name, number, entries)),
        Err(fault) => unstored(alloc, name, fault),
    }
}

/// Begins again from a stored checkpoint.
pub(crate) fn restart<K: Keeper>(
    alloc: Global,
    name: &DocName,
    lane: &mut Lane<K>,
    number: u64,
) -> Result<Text, Stop>
    ensures does { (limits : ALimits) (w : World) (d : Document) → IsLaneOf limits lane.old d → ActDoes limits (restarted w d name.now number) d lane.new result }
    ensures runs { LaneRuns lane.old lane.new result }
{
    match lane.restart(alloc, number) {
        Ok(()) => line_or_stop(restarted_line(alloc, name, number, numbers_of(lane))),
        Err(fault) => unrestarted(alloc, name, fault),
    }
}

/// The first client that was silent for more than so long leaves.
pub(crate) fn sweep<K: Keeper>(
    alloc: Global,
    name: &DocName,
    lane: &mut Lane<K>,
    moment: u64,
    silence: u64,
) -> Result<Text, Stop>
    requires moment { moment ≤ largest }
    ensures does { (limits : ALimits) (w : World) (d : Document) → IsLaneOf limits lane.old d → w.moment ≡ moment → ActDoes limits (swept w d name.now silence) d lane.new result }
    ensures runs { LaneRuns lane.old lane.new result }
{
    match lane.sweep(alloc, moment, silence) {
        Ok(swept) => line_or_stop(swept_line(alloc, name, &swept)),
        Err(fault) => Err(stop_of(fault)),
    }
}

/// What a lane says of its document.
pub(crate) fn numbers_of<K: Keeper>(lane: &Lane<K>) -> Numbers
    ensures { (limits : ALimits) (d : Document) → IsLaneOf limits lane.now d → AreNumbers result (ledger_of d) }
{
    Numbers {
        entries: lane.entered(),
        sequence: lane.seq(),
        minimum: lane.min(),
    }
}

// What is written where no checkpoint was stored.
fn unstored(alloc: Global, name: &DocName, fault: LaneFault) -> Result<Text, Stop>
    ensures { SaysUnstored name.now fault result }
{
    match fault {
        LaneFault::CheckpointsFull => line_or_stop(full_line(alloc, name)),
        LaneFault::TooLarge(bytes) => line_or_stop(large_line(alloc, name, bytes)),
        other => Err(stop_of(other)),
    }
}

// What is written where a document didn't begin again.
fn unrestarted(alloc: Global, name: &DocName, fault: LaneFault) -> Result<Text, Stop>
    ensures { SaysUnrestarted name.now fault result }
{
    match fault {
        LaneFault::NoCheckpoint { asked, stored } => {
            line_or_stop(no_checkpoint_line(alloc, name, asked, stored))
        }
        other => Err(stop_of(other)),
    }
}
