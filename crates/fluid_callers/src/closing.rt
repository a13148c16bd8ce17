//! A connection leaves.
ghost use Rattle.std.specs.Prelude.{◌≡◌, ◌≤◌, ◌+◌, ℕ, List, IfOk};
ghost use Rattle.fluid_types.specs.Fits.{Fits};
ghost use Rattle.fluid_types.specs.Forms.{largest};
ghost use Rattle.fluid_rules.specs.declared.limits.Limits.{Limits as ALimits};
ghost use Rattle.fluid_steps.specs.declared.steps.Step.TheVariants as step;
ghost use Rattle.fluid_transcript.specs.World.{World, Document};
ghost use Rattle.fluid_transcript.specs.Lines as lines;
ghost use Rattle.fluid_transcript.specs.Connections.{voice_of};
ghost use Rattle.fluid_transcript.specs.Sound.{IsSoundVoice};
ghost use Rattle.fluid_transcript.specs.Transcript.{done};
ghost use Rattle.fluid_desk.specs.Stands.{IsLaneOf, DeskStands};
ghost use Rattle.fluid_desk.specs.Stopping.{HasRun, LaneRuns, RunsOn};
ghost use Rattle.fluid_desk.specs.Acting.{IsLeave};
ghost use Rattle.fluid_callers.specs.Hearing.{EntersLane};
ghost use Rattle.fluid_callers.specs.Calling.{LeavesDesk, CloseDoes};

use fluid_desk::{Stop, line_or_stop, ready, stop_of};
use fluid_json::{NoMemory, Text};
use fluid_lane::Lane;
use fluid_lanes::Lanes;
use fluid_log::{Keeper, Shelves};
use fluid_readback::leaves_and_reports_fit;
use fluid_steps::ScriptName;
use fluid_types::{ClientId, DocName, Raw, Verdict};
use fluid_voice::{Voice, VoiceState};
use std::alloc::Global;

/// A connection leaves: its client leaves the document to which it writes. Its name can't be used again.
pub fn close<B: Shelves>(
    alloc: Global,
    lanes: &mut Lanes<B>,
    voice: &Voice,
    name: &ScriptName,
    moment: u64,
) -> Result<Text, Stop>
where
    B::K: Drop,
    requires moment { moment ≤ largest }
    ensures does { (w : World) → DeskStands lanes.old w → IsSoundVoice w voice.now → voice_of w name.now ≡ voice.now → w.moment ≡ moment →
        CloseDoes (done lanes.old.limits w (step.Close name.now)) name.now lanes.new result }
    ensures runs { (before steps : ℕ) → HasRun before steps lanes.old → RunsOn before (steps + 1) lanes.new result }
    ensures limits { lanes.new.limits ≡ lanes.old.limits }
{
    match leave(alloc, lanes, voice.state(), moment) {
        Ok(()) => line_or_stop(closed_line(alloc, name)),
        Err(stop) => Err(stop),
    }
}

// The client of a connection that writes leaves its document.
fn leave<B: Shelves>(
    alloc: Global,
    lanes: &mut Lanes<B>,
    state: &VoiceState,
    moment: u64,
) -> Result<(), Stop>
where
    B::K: Drop,
    requires moment { moment ≤ largest }
    ensures does { (w : World) (c : List ℕ) → DeskStands lanes.old w → IsSoundVoice w state.now → w.moment ≡ moment → LeavesDesk w c state.now lanes.new result }
    ensures runs { (before steps : ℕ) → HasRun before steps lanes.old → RunsOn before (steps + 1) lanes.new result }
    ensures limits { lanes.new.limits ≡ lanes.old.limits }
{
    match state {
        VoiceState::Fresh => Ok(()),
        VoiceState::Reading(_, _) => Ok(()),
        VoiceState::Writing(document, id, _) => leave_document(alloc, lanes, document, id, moment),
        VoiceState::Used => Ok(()),
    }
}

// The client leaves this document, which is open.
fn leave_document<B: Shelves>(
    alloc: Global,
    lanes: &mut Lanes<B>,
    document: &DocName,
    id: &ClientId,
    moment: u64,
) -> Result<(), Stop>
where
    B::K: Drop,
    requires moment { moment ≤ largest }
    ensures does { (w : World) (c : List ℕ) (next : ℕ) → DeskStands lanes.old w → IsSoundVoice w (VoiceState.Writing document.now id.now next) → w.moment ≡ moment →
        LeavesDesk w c (VoiceState.Writing document.now id.now next) lanes.new result }
    ensures runs { (before steps : ℕ) → HasRun before steps lanes.old → RunsOn before (steps + 1) lanes.new result }
    ensures limits { lanes.new.limits ≡ lanes.old.limits }
{
    match ready(alloc, lanes, document, moment) {
        Ok(true) => leave_lane(alloc, lanes.lent(document), id, moment),
        Ok(false) => Ok(()),
        Err(stop) => Err(stop),
    }
}

// The leave is entered.
fn leave_lane<K: Keeper>(
    alloc: Global,
    lane: &mut Lane<K>,
    id: &ClientId,
    moment: u64,
) -> Result<(), Stop>
    requires moment { moment ≤ largest }
    ensures does { (limits : ALimits) (d : Document) → IsLaneOf limits lane.old d → EntersLane limits d (Raw.Leave id.now moment) lane.new result }
    ensures runs { LaneRuns lane.old lane.new result }
{
    // (a law, and no work: its clause is for the proof)
    leaves_and_reports_fit();
    // (read for its clause alone)
    let _name = id.as_str();
    match id.copy(alloc) {
        Ok(id) => enter(alloc, lane, &Raw::Leave { id, moment }),
        Err(NoMemory) => Err(Stop::NoMemory),
    }
}

fn enter<K: Keeper>(alloc: Global, lane: &mut Lane<K>, raw: &Raw) -> Result<(), Stop>
    requires fits { Fits raw.now }
    requires leave { IsLeave raw.now }
    ensures does { (limits : ALimits) (d : Document) → IsLaneOf limits lane.old d → EntersLane limits d raw.now lane.new result }
    ensures runs { LaneRuns lane.old lane.new result }
{
    match lane.submit(alloc, raw) {
        Ok(verdict) => {
            let_go(verdict);
            Ok(())
        }
        Err(fault) => Err(stop_of(fault)),
    }
}

// Nobody is told what became of a leave.
fn let_go(_verdict: Verdict) {}

fn closed_line(alloc: Global, name: &ScriptName) -> Result<Text, NoMemory>
    ensures { IfOk result (λ line. line ≡ lines.closed_line name.now) }
{
    let name = name.as_str();
    let line = format!(in alloc; "{name} closed")?;
    Ok(Text::new(line))
}
