//! What the scribe does about the pending summarize of a document whose lane is in hand.
ghost use Rattle.std.specs.Prelude.{◌≡◌, ◌≤◌, ◌++◌, ℕ, Some, IfOk, codes, decimal};
ghost use Rattle.fluid_rules.specs.Scribe.{reported};
ghost use Rattle.fluid_types.specs.Forms.{largest};
ghost use Rattle.fluid_core.specs.Entering.{IsUpTo};
ghost use Rattle.fluid_rules.specs.declared.answers.Answer.{Answer};
ghost use Rattle.fluid_rules.specs.declared.limits.Limits.{Limits as ALimits};
ghost use Rattle.fluid_transcript.specs.World.{World, Document, ledger_of};
ghost use Rattle.fluid_transcript.specs.Documents.{scribed};
ghost use Rattle.fluid_transcript.specs.Lines as lines;
ghost use Rattle.fluid_desk.specs.Stands.{IsLaneOf, StoreStands};
ghost use Rattle.fluid_desk.specs.Stopping.{LaneRuns};
ghost use Rattle.fluid_desk.specs.Scribing.{text_of, message_in, IsReplied, SaysUnput, ActDoesWith, LaneRunsWith, Concludes};

use crate::lines::line_or_stop;
use crate::stop::{Stop, StoredFault, stop_of};
use fluid_json::{Json, NoMemory, Text};
use fluid_lane::Lane;
use fluid_log::Keeper;
use fluid_readback::leaves_and_reports_fit;
use fluid_scribe::Job;
use fluid_store::{Objects, StoreFault};
use fluid_tree::Id;
use fluid_types::{DocName, Field, Kind, Verdict};
use fluid_versions::put_version;
use std::alloc::Global;

/// The pending summarize is answered, where there is one: the objects of its version are put where its tree is held, and a report
/// is entered.
pub(crate) fn scribe<K: Keeper, O: Objects>(
    alloc: Global,
    name: &DocName,
    lane: &mut Lane<K>,
    objects: &mut O,
    moment: u64,
) -> Result<Text, Stop>
    requires moment { moment ≤ largest }
    ensures does { (limits : ALimits) (w : World) (d : Document) → IsLaneOf limits lane.old d → StoreStands (O.seen objects.old) w → w.moment ≡ moment →
        ActDoesWith limits (scribed w d name.now) d lane.new (O.seen objects.new) result }
    ensures runs { LaneRunsWith lane.old lane.new (O.seen objects.old) (O.seen objects.new) result }
{
    match lane.job(alloc) {
        Ok(Some(job)) => match put_version(alloc, objects, &job) {
            Ok(found) => conclude(alloc, name, lane, job.summary, found, moment),
            Err(fault) => unput(alloc, name, fault),
        },
        Ok(None) => line_or_stop(idle_line(alloc, name)),
        Err(NoMemory) => Err(Stop::NoMemory),
    }
}

// The report is entered.
fn conclude<K: Keeper>(
    alloc: Global,
    name: &DocName,
    lane: &mut Lane<K>,
    summary: u64,
    found: bool,
    moment: u64,
) -> Result<Text, Stop>
    requires moment { moment ≤ largest }
    requires number { IsUpTo largest summary }
    ensures does { (limits : ALimits) (d : Document) → IsLaneOf limits lane.old d →
        Concludes limits d name.now summary found moment lane.new result }
    ensures runs { LaneRuns lane.old lane.new result }
{
    // (a law, and no work: its clause is for the proof)
    leaves_and_reports_fit();
    match lane.conclude(alloc, summary, found, moment) {
        Ok(verdict) => line_or_stop(answer_line(alloc, name, summary, &verdict)),
        Err(fault) => Err(stop_of(fault)),
    }
}

// What is written where the objects of the version weren't put.
fn unput(alloc: Global, name: &DocName, fault: StoreFault) -> Result<Text, Stop>
    ensures { SaysUnput name.now fault result }
{
    match fault {
        StoreFault::Clash { id, .. } => line_or_stop(clash_line(alloc, name, &id)),
        StoreFault::StoreFailed(note) => Err(Stop::StoreFault(note)),
        StoreFault::NoMemory => Err(Stop::NoMemory),
        other => Err(Stop::BadStored(StoredFault::Object(other))),
    }
}

fn idle_line(alloc: Global, name: &DocName) -> Result<Text, NoMemory>
    ensures { IfOk result (λ line. line ≡ lines.idle_line name.now) }
{
    let name = name.as_str();
    let line = format!(in alloc; "{name} scribe idle")?;
    Ok(Text::new(line))
}

// What the verdict on a report says.
fn answer_line(
    alloc: Global,
    name: &DocName,
    summary: u64,
    verdict: &Verdict,
) -> Result<Text, NoMemory>
    ensures { (said : Answer) → IsReplied summary said verdict.now → IfOk result (λ line. line ≡ lines.answer_line name.now summary said) }
{
    match verdict {
        Verdict::Sequenced(message) => {
            message_line(alloc, name, summary, message.kind, &message.contents)
        }
        Verdict::Nacked(_) => idle_line(alloc, name),
        Verdict::Dropped => idle_line(alloc, name),
        Verdict::Absorbed => idle_line(alloc, name),
    }
}

fn message_line(
    alloc: Global,
    name: &DocName,
    summary: u64,
    kind: Kind,
    contents: &Json,
) -> Result<Text, NoMemory>
    ensures { (said : Answer) → reported summary said ≡ Some (kind, contents.now) → IfOk result (λ line. line ≡ lines.answer_line name.now summary said) }
{
    match kind {
        Kind::SummaryNack => nack_line(alloc, name, summary, message_in(contents)),
        _ => ack_line(alloc, name, summary),
    }
}

fn ack_line(alloc: Global, name: &DocName, summary: u64) -> Result<Text, NoMemory>
    ensures { IfOk result (λ line. line ≡ lines.of_name name.now (codes "scribe ack " ++ decimal summary)) }
{
    let name = name.as_str();
    let line = format!(in alloc; "{name} scribe ack {summary}")?;
    Ok(Text::new(line))
}

fn nack_line(alloc: Global, name: &DocName, summary: u64, text: &str) -> Result<Text, NoMemory>
    ensures { IfOk result (λ line. line ≡ lines.of_name name.now (codes "scribe nack " ++ (decimal summary ++ (codes ": " ++ text.now)))) }
{
    let name = name.as_str();
    let line = format!(in alloc; "{name} scribe nack {summary}: {text}")?;
    Ok(Text::new(line))
}

// The member `message`, where it is a text.
fn message_in(contents: &Json) -> &str
    ensures { result.now ≡ message_in contents.now }
{
    match contents.member(Field::Message.name()) {
        Some(message) => text_of(message),
        None => "",
    }
}

fn text_of(json: &Json) -> &str
    ensures { result.now ≡ text_of json.now }
{
    match json.as_text() {
        Some(text) => text,
        None => "",
    }
}

fn clash_line(alloc: Global, name: &DocName, id: &Id) -> Result<Text, NoMemory>
    ensures { IfOk result (λ line. line ≡ lines.scribe_clash_line name.now id.now) }
{
    let digits = id.print(alloc)?;
    digits_line(alloc, name, digits.as_str())
}

fn digits_line(alloc: Global, name: &DocName, digits: &str) -> Result<Text, NoMemory>
    ensures { IfOk result (λ line. line ≡ lines.of_name name.now (codes "scribe " ++ (codes "clash " ++ digits.now))) }
{
    let name = name.as_str();
    let line = format!(in alloc; "{name} scribe clash {digits}")?;
    Ok(Text::new(line))
}
