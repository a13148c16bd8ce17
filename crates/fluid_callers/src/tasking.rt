//! What the messages of a document make of its queues and tasks.
ghost use Rattle.std.specs.Prelude.{◌≡◌, ◌≤◌, ◌+◌, ℕ, IfOk};
ghost use Rattle.fluid_types.specs.Order.{AreFirst};
ghost use Rattle.fluid_types.specs.Forms.{largest};
ghost use Rattle.fluid_rules.specs.declared.limits.Limits.{Limits as ALimits};
ghost use Rattle.fluid_steps.specs.declared.steps.Step.TheVariants as step;
ghost use Rattle.fluid_tasks.specs.Kept.{StandsFor};
ghost use Rattle.fluid_transcript.specs.World.{World, Document as ADocument};
ghost use Rattle.fluid_transcript.specs.Documents.{told_tasks};
ghost use Rattle.fluid_transcript.specs.Transcript.{done};
ghost use Rattle.fluid_desk.specs.Stands.{IsLaneOf, DeskStands};
ghost use Rattle.fluid_desk.specs.Stopping.{HasRun};
ghost use Rattle.fluid_desk.specs.Acting.{ActDoes, DeskDoes};
ghost use Rattle.fluid_callers.specs.Ending.{LaneReads, RunsReading};
ghost use Rattle.fluid_callers.specs.Tasking.{line_at, line_behind};

use crate::collecting::messages_from;
use fluid_desk::{Stop, line_or_stop, ready, turned_away_line};
use fluid_json::{NoMemory, Text};
use fluid_lane::Lane;
use fluid_lanes::Lanes;
use fluid_log::{Keeper, Shelves};
use fluid_tasks::Tasks;
use fluid_types::{DocName, Message};
use std::alloc::Global;

/// The queues and tasks of a document, as its messages make them, and the number of the last of these.
pub fn tasks<B: Shelves>(
    alloc: Global,
    lanes: &mut Lanes<B>,
    name: &DocName,
    moment: u64,
) -> Result<Text, Stop>
where
    B::K: Drop,
    requires moment { moment ≤ largest }
    ensures does { (w : World) → DeskStands lanes.old w → w.moment ≡ moment → DeskDoes (done lanes.old.limits w (step.Tasks name.now)) lanes.new result }
    ensures runs { (first steps : ℕ) → HasRun first steps lanes.old → RunsReading first (steps + 1) lanes.new result }
    ensures limits { lanes.new.limits ≡ lanes.old.limits }
{
    match ready(alloc, lanes, name, moment) {
        Ok(true) => tasks_on(alloc, name, lanes.lent(name)),
        Ok(false) => line_or_stop(turned_away_line(alloc, name)),
        Err(stop) => Err(stop),
    }
}

// The same on the lane of the document.
fn tasks_on<K: Keeper>(alloc: Global, name: &DocName, lane: &mut Lane<K>) -> Result<Text, Stop>
    ensures does { (limits : ALimits) (w : World) (d : ADocument) → IsLaneOf limits lane.old d → ActDoes limits (told_tasks w d name.now) d lane.new result }
    ensures runs { LaneReads lane.old lane.new result }
{
    let behind = lane.seq() + 1;
    let messages = messages_from(alloc, lane, 1, behind)?;
    line_or_stop(tasks_line(alloc, name, messages.as_slice()))
}

// What is written of the queues and tasks that the first messages of an order make.
fn tasks_line(alloc: Global, name: &DocName, messages: &[Message]) -> Result<Text, NoMemory>
    requires { AreFirst messages.now }
    ensures { IfOk result (λ line. line ≡ line_behind name.now messages.now) }
{
    let tasks = tasks_behind(alloc, messages)?;
    let shown = tasks.print(alloc)?;
    line(alloc, name, tasks.heard(), shown.as_str())
}

fn tasks_behind(alloc: Global, messages: &[Message]) -> Result<Tasks, NoMemory>
    requires { AreFirst messages.now }
    ensures { IfOk result (λ tasks. StandsFor tasks messages.now) }
{
    let mut tasks = Tasks::new(alloc);
    for message in messages {
        tasks.apply(alloc, message)?;
    }
    Ok(tasks)
}

fn line(alloc: Global, name: &DocName, number: u64, shown: &str) -> Result<Text, NoMemory>
    ensures { IfOk result (λ line. line ≡ line_at name.now number shown.now) }
{
    let name = name.as_str();
    let line = format!(in alloc; "{name} tasks at {number}: {shown}")?;
    Ok(Text::new(line))
}
