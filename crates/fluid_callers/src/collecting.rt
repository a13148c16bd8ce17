//! A connection is given the messages of its document that weren't delivered.
ghost use Rattle.std.specs.Prelude.{◌≡◌, ◌≤◌, ◌<◌, ◌+◌, ◌-◌, ◌++◌, ◌∷◌, [], ℕ, List, Some, IfOk, OnOk, MatchResult, length};
ghost use Rattle.fluid_types.specs.Ledger.{order};
ghost use Rattle.fluid_types.specs.Order.{AreNumberedFrom};
ghost use Rattle.fluid_types.specs.declared.messages.Message.{Message as AMessage};
ghost use Rattle.fluid_types.specs.Forms.{largest};
ghost use Rattle.fluid_rules.specs.declared.limits.Limits.{Limits as ALimits};
ghost use Rattle.fluid_steps.specs.declared.steps.Step.TheVariants as step;
ghost use Rattle.fluid_voice.specs.States.{document_name};
ghost use Rattle.fluid_voice.specs.Feed.{most_in_event};
ghost use Rattle.fluid_codec.specs.declared.replies.Reply.TheVariants.{Ops};
ghost use Rattle.fluid_transcript.specs.World.{World, Document as ADocument, ledger_of};
ghost use Rattle.fluid_transcript.specs.Connections.{voice_of};
ghost use Rattle.fluid_transcript.specs.Lines.{reply_line};
ghost use Rattle.fluid_transcript.specs.Sound.{IsSoundVoice};
ghost use Rattle.fluid_transcript.specs.Transcript.{done, written};
ghost use Rattle.fluid_desk.specs.Stands.{IsLaneOf, DeskStands};
ghost use Rattle.fluid_desk.specs.Stopping.{IsHonest, steps_on, HasRun};
ghost use Rattle.fluid_callers.specs.Ending.{LaneReads, RunsReading};
ghost use Rattle.fluid_callers.specs.Hearing.{event_lines, IsNextOf, Fetched, GathersBy};
ghost use Rattle.fluid_callers.specs.Calling.{CallDoes, GatherDoes};

use crate::hearing::delta_stop;
use crate::written::Written;
use fluid_desk::{Stop, ready};
use fluid_json::NoMemory;
use fluid_lane::Lane;
use fluid_lanes::Lanes;
use fluid_log::{Keeper, Shelves};
use fluid_steps::ScriptName;
use fluid_types::{DocName, Message, Messages};
use fluid_voice::{MOST_IN_EVENT, Voice, VoiceState};
use std::alloc::Global;

/// A connection is given all messages up to the last that weren't delivered, in op events: a line is written for each of these.
pub fn collect<B: Shelves>(
    alloc: Global,
    lanes: &mut Lanes<B>,
    voice: &mut Voice,
    name: &ScriptName,
    moment: u64,
) -> Result<Written, Stop>
where
    B::K: Drop,
    requires moment { moment ≤ largest }
    ensures does { (w : World) → DeskStands lanes.old w → IsSoundVoice w voice.old → voice_of w name.now ≡ voice.old → w.moment ≡ moment →
        CallDoes (done lanes.old.limits w (step.Collect name.now)) name.now lanes.new voice.new result }
    ensures runs { (first steps : ℕ) → HasRun first steps lanes.old → RunsReading first (steps + 1) lanes.new result }
    ensures limits { lanes.new.limits ≡ lanes.old.limits }
{
    match gather(alloc, lanes, voice, name, moment) {
        Ok((lines, next)) => {
            voice.advance(next);
            Ok(lines)
        }
        Err(stop) => Err(stop),
    }
}

// The lines, and the number behind the last message; 0 where there is no document.
fn gather<B: Shelves>(
    alloc: Global,
    lanes: &mut Lanes<B>,
    voice: &Voice,
    name: &ScriptName,
    moment: u64,
) -> Result<(Written, u64), Stop>
where
    B::K: Drop,
    requires moment { moment ≤ largest }
    ensures does { (w : World) → DeskStands lanes.old w → IsSoundVoice w voice.now → voice_of w name.now ≡ voice.now → w.moment ≡ moment →
        GatherDoes (done lanes.old.limits w (step.Collect name.now)) name.now lanes.new voice.now result }
    ensures runs { (first steps : ℕ) → HasRun first steps lanes.old → RunsReading first (steps + 1) lanes.new result }
    ensures limits { lanes.new.limits ≡ lanes.old.limits }
{
    match voice.state() {
        VoiceState::Fresh => Ok((Written::none(alloc), 0)),
        VoiceState::Reading(document, next) => {
            gather_of(alloc, lanes, voice, name, document, *next, moment)
        }
        VoiceState::Writing(document, _, next) => {
            gather_of(alloc, lanes, voice, name, document, *next, moment)
        }
        VoiceState::Used => Ok((Written::none(alloc), 0)),
    }
}

fn gather_of<B: Shelves>(
    alloc: Global,
    lanes: &mut Lanes<B>,
    voice: &Voice,
    name: &ScriptName,
    document: &DocName,
    next: u64,
    moment: u64,
) -> Result<(Written, u64), Stop>
where
    B::K: Drop,
    requires moment { moment ≤ largest }
    ensures does { (w : World) → IsNextOf document.now next voice.now → DeskStands lanes.old w → IsSoundVoice w voice.now → voice_of w name.now ≡ voice.now →
        w.moment ≡ moment → GatherDoes (done lanes.old.limits w (step.Collect name.now)) name.now lanes.new voice.now result }
    ensures runs { (first steps : ℕ) → HasRun first steps lanes.old → RunsReading first (steps + 1) lanes.new result }
    ensures limits { lanes.new.limits ≡ lanes.old.limits }
{
    match ready(alloc, lanes, document, moment) {
        Ok(true) => gather_lane(alloc, lanes.lent(document), voice, name, next),
        Ok(false) => Ok((Written::none(alloc), 0)),
        Err(stop) => Err(stop),
    }
}

fn gather_lane<K: Keeper>(
    alloc: Global,
    lane: &mut Lane<K>,
    voice: &Voice,
    name: &ScriptName,
    next: u64,
) -> Result<(Written, u64), Stop>
    ensures does { (limits : ALimits) (d : ADocument) (document : List ℕ) → IsNextOf document next voice.now → IsLaneOf limits lane.old d →
        GathersBy limits d name.now voice.now lane.new result }
    ensures runs { LaneReads lane.old lane.new result }
{
    let behind = lane.seq() + 1;
    let messages = messages_from(alloc, lane, next.max(1), behind)?;
    let mut lines = Written::none(alloc);
    push_events(alloc, &mut lines, voice, name, messages)?;
    Ok((lines, behind))
}

/// The messages from one number to before another, which is behind the last; none where the first isn't below it.
pub fn messages_from<K: Keeper>(
    alloc: Global,
    lane: &mut Lane<K>,
    from: u64,
    behind: u64,
) -> Result<Vec<Message>, Stop>
    requires first { 0 < from }
    requires last { behind ≡ lane.old.entries.state.sequencer.sequence + 1 }
    ensures does { (limits : ALimits) (d : ADocument) → IsLaneOf limits lane.old d → MatchResult result (λ messages. Fetched limits d from lane.new messages.items) (IsHonest (steps_on d lane.new)) }
    ensures runs { LaneReads lane.old lane.new result }
    ensures numbered { IfOk result (λ messages. AreNumberedFrom from messages.items) }
{
    if behind <= from {
        return Ok(Vec::new(alloc));
    }
    match lane.range(alloc, from, behind) {
        Ok(messages) => Ok(messages),
        Err(fault) => Err(delta_stop(fault)),
    }
}

// Puts the line of each op event behind the others: events are as large as may be.
fn push_events(
    alloc: Global,
    lines: &mut Written,
    voice: &Voice,
    name: &ScriptName,
    messages: Vec<Message>,
) -> Result<(), NoMemory>
    ensures { OnOk result ((document : List ℕ) → document_name voice.now ≡ Some document → lines.new ≡ lines.old ++ event_lines name.now document messages.items) }
{
    let mut event = Vec::new(alloc);
    for message in messages {
        event = with_message(alloc, lines, voice, name, event, message)?;
    }
    if event.is_empty() {
        return Ok(());
    }
    push_event(alloc, lines, voice, name, event)
}

// The messages of an event with one more, none where these are as many as may be: then the event's line is put behind the others.
fn with_message(
    alloc: Global,
    lines: &mut Written,
    voice: &Voice,
    name: &ScriptName,
    event: Vec<Message>,
    message: Message,
) -> Result<Vec<Message>, NoMemory>
    requires { length event.items < most_in_event }
    ensures short { IfOk result (λ more. length more.items < most_in_event) }
    ensures lines { IfOk result (λ more. (document : List ℕ) (ahead : List AMessage) → document_name voice.now ≡ Some document →
        lines.new ++ event_lines name.now document (more.items ++ ahead) ≡ lines.old ++ event_lines name.now document (event.items ++ message ∷ ahead)) }
{
    let mut event = event;
    event.push(message)?;
    if (event.len() as u64) < MOST_IN_EVENT {
        return Ok(event);
    }
    push_event(alloc, lines, voice, name, event)?;
    Ok(Vec::new(alloc))
}

fn push_event(
    alloc: Global,
    lines: &mut Written,
    voice: &Voice,
    name: &ScriptName,
    messages: Vec<Message>,
) -> Result<(), NoMemory>
    requires some { 0 < length messages.items }
    requires few { length messages.items ≤ most_in_event }
    ensures { OnOk result ((document : List ℕ) → document_name voice.now ≡ Some document →
        lines.new ≡ lines.old ++ written (reply_line name.now (Ops document messages.items) ∷ [])) }
{
    match voice.event(alloc, Messages::new(messages))? {
        Some(event) => lines.push_reply(alloc, name, &event),
        None => Ok(()),
    }
}
