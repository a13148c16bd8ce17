//! The steps on a document. Each opens its document at its first use, at a moment that is the number of its line, and gives the line
//! that is written for it, without its end, or says why the script ends there.
ghost use Rattle.std.specs.Prelude.{◌≡◌, ◌≤◌, ◌+◌, ℕ};
ghost use Rattle.fluid_types.specs.Forms.{largest};
ghost use Rattle.fluid_steps.specs.declared.steps.Step.TheVariants as step;
ghost use Rattle.fluid_transcript.specs.World.{World};
ghost use Rattle.fluid_transcript.specs.Transcript.{done};
ghost use Rattle.fluid_desk.specs.Stands.{DeskStands, StoreStands};
ghost use Rattle.fluid_desk.specs.Stopping.{HasRun, RunsOn};
ghost use Rattle.fluid_desk.specs.Acting.{DeskDoes};
ghost use Rattle.fluid_desk.specs.Scribing.{DeskDoesWith, RunsWith};

use crate::first_use::{ready, turned_away};
use crate::lines::{line_or_stop, reopened_line, turned_away_line};
use crate::stop::Stop;
use crate::{on_lane, scribing};
use fluid_document::kept_is_loaded;
use fluid_json::Text;
use fluid_lanes::Lanes;
use fluid_log::Shelves;
use fluid_store::Objects;
use fluid_types::DocName;
use std::alloc::Global;

/// How many entries a document has, its last number and its minimum.
pub fn count<B: Shelves>(
    alloc: Global,
    lanes: &mut Lanes<B>,
    name: &DocName,
    moment: u64,
) -> Result<Text, Stop>
where
    B::K: Drop,
    requires moment { moment ≤ largest }
    ensures does { (w : World) → DeskStands lanes.old w → w.moment ≡ moment → DeskDoes (done lanes.old.limits w (step.Count name.now)) lanes.new result }
    ensures runs { (before steps : ℕ) → HasRun before steps lanes.old → RunsOn before (steps + 1) lanes.new result }
    ensures limits { lanes.new.limits ≡ lanes.old.limits }
{
    match ready(alloc, lanes, name, moment) {
        Ok(true) => on_lane::count(alloc, name, lanes.lent(name)),
        Ok(false) => line_or_stop(turned_away_line(alloc, name)),
        Err(stop) => Err(stop),
    }
}

/// Stores a checkpoint of a document.
pub fn checkpoint<B: Shelves>(
    alloc: Global,
    lanes: &mut Lanes<B>,
    name: &DocName,
    moment: u64,
) -> Result<Text, Stop>
where
    B::K: Drop,
    requires moment { moment ≤ largest }
    ensures does { (w : World) → DeskStands lanes.old w → w.moment ≡ moment → DeskDoes (done lanes.old.limits w (step.Checkpoint name.now)) lanes.new result }
    ensures runs { (before steps : ℕ) → HasRun before steps lanes.old → RunsOn before (steps + 1) lanes.new result }
    ensures limits { lanes.new.limits ≡ lanes.old.limits }
{
    match ready(alloc, lanes, name, moment) {
        Ok(true) => on_lane::checkpoint(alloc, name, lanes.lent(name)),
        Ok(false) => line_or_stop(turned_away_line(alloc, name)),
        Err(stop) => Err(stop),
    }
}

/// A document begins again from its stored checkpoint of this number, counted from 0.
pub fn restart<B: Shelves>(
    alloc: Global,
    lanes: &mut Lanes<B>,
    name: &DocName,
    number: u64,
    moment: u64,
) -> Result<Text, Stop>
where
    B::K: Drop,
    requires moment { moment ≤ largest }
    ensures does { (w : World) → DeskStands lanes.old w → w.moment ≡ moment → DeskDoes (done lanes.old.limits w (step.Restart name.now number)) lanes.new result }
    ensures runs { (before steps : ℕ) → HasRun before steps lanes.old → RunsOn before (steps + 1) lanes.new result }
    ensures limits { lanes.new.limits ≡ lanes.old.limits }
{
    match ready(alloc, lanes, name, moment) {
        Ok(true) => on_lane::restart(alloc, name, lanes.lent(name), number),
        Ok(false) => line_or_stop(turned_away_line(alloc, name)),
        Err(stop) => Err(stop),
    }
}

/// The first client of a document, in byte order of ids, that was silent for more than so many milliseconds leaves.
pub fn sweep<B: Shelves>(
    alloc: Global,
    lanes: &mut Lanes<B>,
    name: &DocName,
    silence: u64,
    moment: u64,
) -> Result<Text, Stop>
where
    B::K: Drop,
    requires moment { moment ≤ largest }
    ensures does { (w : World) → DeskStands lanes.old w → w.moment ≡ moment → DeskDoes (done lanes.old.limits w (step.Sweep name.now silence)) lanes.new result }
    ensures runs { (before steps : ℕ) → HasRun before steps lanes.old → RunsOn before (steps + 1) lanes.new result }
    ensures limits { lanes.new.limits ≡ lanes.old.limits }
{
    match ready(alloc, lanes, name, moment) {
        Ok(true) => on_lane::sweep(alloc, name, lanes.lent(name), moment, silence),
        Ok(false) => line_or_stop(turned_away_line(alloc, name)),
        Err(stop) => Err(stop),
    }
}

/// The scribe looks at the pending summarize of a document: where there is one, the objects of its version are put where its tree
/// is held, and a report is entered.
pub fn scribe<B: Shelves, O: Objects>(
    alloc: Global,
    lanes: &mut Lanes<B>,
    objects: &mut O,
    name: &DocName,
    moment: u64,
) -> Result<Text, Stop>
where
    B::K: Drop,
    requires moment { moment ≤ largest }
    ensures does { (w : World) → DeskStands lanes.old w → StoreStands (O.seen objects.old) w → w.moment ≡ moment →
        DeskDoesWith (done lanes.old.limits w (step.Scribe name.now)) lanes.new (O.seen objects.new) result }
    ensures runs { (before steps : ℕ) → HasRun before steps lanes.old → RunsWith before (steps + 1) (O.seen objects.old) lanes.new (O.seen objects.new) result }
    ensures limits { lanes.new.limits ≡ lanes.old.limits }
    ensures counts { (O.seen objects.old).faults ≤ (O.seen objects.new).faults }
{
    match ready(alloc, lanes, name, moment) {
        Ok(true) => scribing::scribe(alloc, name, lanes.lent(name), objects, moment),
        Ok(false) => line_or_stop(turned_away_line(alloc, name)),
        Err(stop) => Err(stop),
    }
}

/// A document is closed, and opened as by a new process.
pub fn reopen<B: Shelves>(
    alloc: Global,
    lanes: &mut Lanes<B>,
    name: &DocName,
    moment: u64,
) -> Result<Text, Stop>
where
    B::K: Drop,
    requires moment { moment ≤ largest }
    ensures does { (w : World) → DeskStands lanes.old w → w.moment ≡ moment → DeskDoes (done lanes.old.limits w (step.Reopen name.now)) lanes.new result }
    ensures runs { (before steps : ℕ) → HasRun before steps lanes.old → RunsOn before (steps + 1) lanes.new result }
    ensures limits { lanes.new.limits ≡ lanes.old.limits }
{
    kept_is_loaded();
    match lanes.reopen(alloc, name, moment) {
        Ok(()) => line_or_stop(reopened_line(alloc, name, on_lane::numbers_of(lanes.lent(name)))),
        Err(fault) => match turned_away(fault) {
            Ok(()) => line_or_stop(turned_away_line(alloc, name)),
            Err(stop) => Err(stop),
        },
    }
}
