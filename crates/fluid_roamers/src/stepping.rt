//! The steps of a roamer.
ghost use Rattle.std.specs.Prelude.{◌≡◌, ◌≤◌, ◌+◌, ◌∷◌, [], ℕ, length, Some, None, Ok, IfOk, OnOk, true, false};
ghost use Rattle.std.specs.FinMap.{get};
ghost use Rattle.fluid_types.specs.Forms.{largest};
ghost use Rattle.fluid_edits.specs.declared.edit.Edit.{Edit as AnEdit};
ghost use Rattle.fluid_edits.specs.Forms.{contents_of};
ghost use Rattle.fluid_edits.specs.Replay.{replay_edits};
ghost use Rattle.fluid_runtime.specs.Shown.{shown};
ghost use Rattle.fluid_rules.specs.declared.limits.Limits.{Limits as ALimits};
ghost use Rattle.fluid_steps.specs.declared.steps.Step.TheVariants as step;
ghost use Rattle.fluid_transcript.specs.World.{World, Document as ADocument, Roamer as ARoamerOf, roamer as a_roamer, ledger_of};
ghost use Rattle.fluid_transcript.specs.Lines as lines;
ghost use Rattle.fluid_transcript.specs.Roamers as steps;
ghost use Rattle.fluid_transcript.specs.Sound.{IsSound};
ghost use Rattle.fluid_transcript.specs.Transcript.{done};
ghost use Rattle.fluid_voice.specs.declared.refusals.ConnectRefusal.TheVariants.{TooManyDocuments};
ghost use Rattle.fluid_holding.specs.Laws.{Stands};
ghost use Rattle.fluid_desk.specs.Acting.{DeskDoes, IsLine};
ghost use Rattle.fluid_desk.specs.Stands.{DeskStands, IsLaneOf};
ghost use Rattle.fluid_desk.specs.Stopping.{HasRun};
ghost use Rattle.fluid_callers.specs.Ending.{LaneReads, RunsReading};
ghost use Rattle.fluid_containers.specs.Joining.{HasJoined, joined_to};
ghost use Rattle.fluid_containers.specs.Stepping.{IsShort};
ghost use Rattle.fluid_roamers.specs.Behind.{ComesBack, IsBehindLeave};
ghost use Rattle.fluid_roamers.specs.Roaming.{IsRoamerIn, IsRoamerOf, IsRoaming};
ghost use Rattle.fluid_roamers.specs.Stepping.{IsSendableIf, IsRefusedFor, IsTurnedAway, IsUnsaid, LaneRoams, LaneSteps, RoamDoes, StepDoes};
ghost use Rattle.fluid_roamers.specs.Taking.{IsSendable};

use crate::entering::{enter, join};
use crate::hearing::hear;
use crate::lines::{acked_line, back_line, lost_line, roams_line, said_line};
use crate::roamer::Roamer;
use crate::sending::{Sent, send, send_all};
use fluid_containers::{edit_fault_line, refused_line, shown_line, turned_away_line};
use fluid_desk::{Stop, line_or_stop, ready};
use fluid_door_link::ToldObjects;
use fluid_edits::Edit;
use fluid_holding::{containers_catch_up, containers_load, others_leave_containers};
use fluid_json::Text;
use fluid_lane::Lane;
use fluid_lanes::Lanes;
use fluid_log::{Keeper, Shelves};
use fluid_readback::leaves_and_reports_fit;
use fluid_runtime::EditFault;
use fluid_steps::ScriptName;
use fluid_store::Objects;
use fluid_types::{ClientId, DocName, Raw};
use fluid_voice::ConnectRefusal;
use std::alloc::Global;

// ---- roam

/// A client of a new roamer joins a document, which is opened at its first use. There is no roamer where the join is refused, or where
/// as many documents are open as may be. The line that is written stands beside.
pub fn roam<B: Shelves, O: Objects>(
    alloc: Global,
    lanes: &mut Lanes<B>,
    objects: &mut ToldObjects<O>,
    name: &ScriptName,
    document: &DocName,
    moment: u64,
) -> Result<(Text, Option<Roamer>), Stop>
where
    B::K: Drop,
    requires moment { moment ≤ largest }
    ensures does { (w : World) → DeskStands lanes.old w → IsSound w → w.moment ≡ moment → get w.names name.now ≡ None →
        RoamDoes (done lanes.old.limits w (step.Roam name.now document.now)) name.now lanes.new result }
    ensures store { objects.new ≡ objects.old }
    ensures runs { (first steps : ℕ) → HasRun first steps lanes.old → RunsReading first (steps + 1) lanes.new result }
    ensures limits { lanes.new.limits ≡ lanes.old.limits }
    ensures kept { IfOk result (λ made. IsSendableIf made.1) }
{
    match ready(alloc, lanes, document, moment) {
        Ok(true) => roam_lane(alloc, lanes.lent(document), objects, name, document, moment),
        Ok(false) => turned_away(alloc, name),
        Err(stop) => Err(stop),
    }
}

// As many documents are open as may be.
fn turned_away(alloc: Global, name: &ScriptName) -> Result<(Text, Option<Roamer>), Stop>
    ensures { IsTurnedAway name.now result }
{
    refused(alloc, name, ConnectRefusal::TooManyDocuments)
}

fn roam_lane<K: Keeper, O: Objects>(
    alloc: Global,
    lane: &mut Lane<K>,
    objects: &mut ToldObjects<O>,
    name: &ScriptName,
    document: &DocName,
    moment: u64,
) -> Result<(Text, Option<Roamer>), Stop>
    requires moment { moment ≤ largest }
    ensures does { (limits : ALimits) (w : World) (d : ADocument) → IsLaneOf limits lane.old d → w.moment ≡ moment →
        LaneRoams limits (steps.roamed limits w d name.now document.now) d name.now document.now lane.new result }
    ensures store { objects.new ≡ objects.old }
    ensures runs { LaneReads lane.old lane.new result }
    ensures kept { IfOk result (λ made. IsSendableIf made.1) }
{
    let joined = join(alloc, lane, objects, document, moment)?;
    match joined {
        Ok(client) => roam_as(alloc, lane, name, document, client),
        Err(refusal) => refused(alloc, name, refusal),
    }
}

// The join is refused.
fn refused(
    alloc: Global,
    name: &ScriptName,
    refusal: ConnectRefusal,
) -> Result<(Text, Option<Roamer>), Stop>
    ensures { IsRefusedFor name.now refusal result }
{
    let line = line_or_stop(turned_away_line(alloc, name.as_str(), refusal))?;
    Ok((line, None))
}

// Behind the client's join.
fn roam_as<K: Keeper>(
    alloc: Global,
    lane: &mut Lane<K>,
    name: &ScriptName,
    document: &DocName,
    client: ClientId,
) -> Result<(Text, Option<Roamer>), Stop>
    ensures does { (limits : ALimits) (w : World) (d : ADocument) → HasJoined limits w d client → IsLaneOf limits lane.old (joined_to limits w d) →
        LaneRoams limits (steps.roamed limits w d name.now document.now) d name.now document.now lane.new result }
    ensures runs { LaneReads lane.old lane.new result }
    ensures kept { IfOk result (λ made. IsSendableIf made.1) }
{
    // (a law, and no work: its clause is for the proof)
    containers_load();
    let place = document.copy(alloc)?;
    let own = client.copy(alloc)?;
    let mut roamer = Roamer::new(alloc, place, own);
    hear(alloc, lane, &mut roamer)?;
    roamer.join(alloc, client)?;
    let line = line_or_stop(roams_line(alloc, name, document, &roamer.client, roamer.seq()))?;
    Ok((line, Some(roamer)))
}

// ---- say

/// A roamer's user edits a channel. The edit is sent unless the roamer is lost. Where the script ends here, the roamer is of no more
/// use.
pub fn say<B: Shelves, O: Objects>(
    alloc: Global,
    lanes: &mut Lanes<B>,
    objects: &mut ToldObjects<O>,
    roamer: &mut Roamer,
    name: &ScriptName,
    edit: Edit,
    moment: u64,
) -> Result<Text, Stop>
where
    B::K: Drop,
    requires moment { moment ≤ largest }
    requires short { IsShort edit }
    requires kept { IsSendable roamer.old.outbox }
    ensures does { (w : World) (k : ARoamerOf) → DeskStands lanes.old w → IsSound w → w.moment ≡ moment → get w.names name.now ≡ Some (a_roamer k) → IsRoamerOf w roamer.old k →
        StepDoes (done lanes.old.limits w (step.Say name.now (Ok edit))) name.now lanes.new roamer.new result }
    ensures store { objects.new ≡ objects.old }
    ensures runs { (first steps : ℕ) → HasRun first steps lanes.old → RunsReading first (steps + 1) lanes.new result }
    ensures limits { lanes.new.limits ≡ lanes.old.limits }
    ensures kept { OnOk result (IsSendable roamer.new.outbox) }
{
    let document = roamer.document.copy(alloc)?;
    match ready(alloc, lanes, &document, moment) {
        Ok(true) => say_lane(
            alloc,
            lanes.lent(&document),
            objects,
            roamer,
            name,
            edit,
            moment,
        ),
        Ok(false) => beyond(alloc, &document),
        Err(stop) => Err(stop),
    }
}

fn say_lane<K: Keeper, O: Objects>(
    alloc: Global,
    lane: &mut Lane<K>,
    objects: &mut ToldObjects<O>,
    roamer: &mut Roamer,
    name: &ScriptName,
    edit: Edit,
    moment: u64,
) -> Result<Text, Stop>
    requires moment { moment ≤ largest }
    requires short { IsShort edit }
    requires kept { IsSendable roamer.old.outbox }
    ensures does { (limits : ALimits) (w : World) (d : ADocument) (k : ARoamerOf) → IsLaneOf limits lane.old d → w.moment ≡ moment → Stands (ledger_of d) k.client →
        IsRoamerIn (ledger_of d) roamer.old k → LaneSteps limits (steps.said limits w d name.now k edit) d k name.now lane.new roamer.new result }
    ensures store { objects.new ≡ objects.old }
    ensures runs { LaneReads lane.old lane.new result }
    ensures kept { OnOk result (IsSendable roamer.new.outbox) }
{
    match roamer.lay_over(alloc, edit) {
        Ok(number) => send_said(alloc, lane, objects, roamer, name, number, moment),
        Err(fault) => unsaid(alloc, name, fault),
    }
}

// The edit wasn't laid over.
fn unsaid(alloc: Global, name: &ScriptName, fault: EditFault) -> Result<Text, Stop>
    ensures { IsUnsaid name.now fault result }
{
    match fault {
        EditFault::NoChannel => line_or_stop(edit_fault_line(alloc, name, EditFault::NoChannel)),
        EditFault::WrongKind => line_or_stop(edit_fault_line(alloc, name, EditFault::WrongKind)),
        EditFault::OutOfRange => line_or_stop(edit_fault_line(alloc, name, EditFault::OutOfRange)),
        EditFault::Exists => line_or_stop(edit_fault_line(alloc, name, EditFault::Exists)),
        EditFault::NoMemory => Err(Stop::NoMemory),
    }
}

// The edit of this number was laid over.
fn send_said<K: Keeper, O: Objects>(
    alloc: Global,
    lane: &mut Lane<K>,
    objects: &mut ToldObjects<O>,
    roamer: &mut Roamer,
    name: &ScriptName,
    number: u64,
    moment: u64,
) -> Result<Text, Stop>
    requires moment { moment ≤ largest }
    requires kept { IsSendable roamer.old.outbox }
    ensures does { (limits : ALimits) (w : World) (d : ADocument) (k : ARoamerOf) (edit : AnEdit) → IsLaneOf limits lane.old d → w.moment ≡ moment → Stands (ledger_of d) k.client →
        IsRoaming (ledger_of d) roamer.old (steps.with_edit k edit) (edit ∷ []) → number ≡ steps.edits k →
        LaneSteps limits (steps.laid_over limits w (ledger_of d) name.now k edit (contents_of edit) k.is_lost) d k name.now lane.new roamer.new result }
    ensures store { objects.new ≡ objects.old }
    ensures runs { LaneReads lane.old lane.new result }
    ensures kept { OnOk result (IsSendable roamer.new.outbox) }
{
    if roamer.is_lost() {
        return line_or_stop(said_line(alloc, name, number));
    }
    let sent = send(alloc, lane, objects, roamer, moment)?;
    match sent {
        Sent::Nothing => line_or_stop(said_line(alloc, name, number)),
        Sent::Taken => line_or_stop(said_line(alloc, name, number)),
        Sent::Refused(rule) => line_or_stop(refused_line(alloc, name, &rule)),
    }
}

// ---- lose

/// A roamer's connection is lost.
pub fn lose<B: Shelves>(
    alloc: Global,
    lanes: &mut Lanes<B>,
    roamer: &mut Roamer,
    name: &ScriptName,
    moment: u64,
) -> Result<Text, Stop>
where
    B::K: Drop,
    requires moment { moment ≤ largest }
    ensures does { (w : World) (k : ARoamerOf) → DeskStands lanes.old w → IsSound w → w.moment ≡ moment → get w.names name.now ≡ Some (a_roamer k) → IsRoamerOf w roamer.old k →
        StepDoes (done lanes.old.limits w (step.Lose name.now)) name.now lanes.new roamer.new result }
    ensures runs { (first steps : ℕ) → HasRun first steps lanes.old → RunsReading first (steps + 1) lanes.new result }
    ensures limits { lanes.new.limits ≡ lanes.old.limits }
    ensures kept { IsSendable roamer.old.outbox → IsSendable roamer.new.outbox }
{
    match ready(alloc, lanes, &roamer.document, moment) {
        Ok(true) => lose_now(alloc, roamer, name),
        Ok(false) => beyond(alloc, &roamer.document),
        Err(stop) => Err(stop),
    }
}

fn lose_now(alloc: Global, roamer: &mut Roamer, name: &ScriptName) -> Result<Text, Stop>
    ensures does { (limits : ALimits) (w : World) (d : ADocument) (k : ARoamerOf) → IsRoamerIn (ledger_of d) roamer.old k → IsRoamerIn (ledger_of d) roamer.new (record k { is_lost = true }) }
    ensures line { IsLine (lines.lost_line name.now) result }
    ensures kept { IsSendable roamer.old.outbox → IsSendable roamer.new.outbox }
{
    roamer.lose();
    line_or_stop(lost_line(alloc, name))
}

// ---- back

/// A lost roamer comes back: its last client leaves, and a new one joins and sends what doesn't stand. Where the script ends here, the
/// roamer is of no more use.
pub fn back<B: Shelves, O: Objects>(
    alloc: Global,
    lanes: &mut Lanes<B>,
    objects: &mut ToldObjects<O>,
    roamer: &mut Roamer,
    name: &ScriptName,
    moment: u64,
) -> Result<Text, Stop>
where
    B::K: Drop,
    requires moment { moment ≤ largest }
    requires kept { IsSendable roamer.old.outbox }
    ensures does { (w : World) (k : ARoamerOf) → DeskStands lanes.old w → IsSound w → w.moment ≡ moment → get w.names name.now ≡ Some (a_roamer k) → k.is_lost ≡ true → IsRoamerOf w roamer.old k →
        StepDoes (done lanes.old.limits w (step.Back name.now)) name.now lanes.new roamer.new result }
    ensures store { objects.new ≡ objects.old }
    ensures runs { (first steps : ℕ) → HasRun first steps lanes.old → RunsReading first (steps + 1) lanes.new result }
    ensures limits { lanes.new.limits ≡ lanes.old.limits }
    ensures kept { OnOk result (IsSendable roamer.new.outbox) }
{
    let document = roamer.document.copy(alloc)?;
    match ready(alloc, lanes, &document, moment) {
        Ok(true) => back_lane(alloc, lanes.lent(&document), objects, roamer, name, moment),
        Ok(false) => beyond(alloc, &document),
        Err(stop) => Err(stop),
    }
}

fn back_lane<K: Keeper, O: Objects>(
    alloc: Global,
    lane: &mut Lane<K>,
    objects: &mut ToldObjects<O>,
    roamer: &mut Roamer,
    name: &ScriptName,
    moment: u64,
) -> Result<Text, Stop>
    requires moment { moment ≤ largest }
    requires kept { IsSendable roamer.old.outbox }
    ensures does { (limits : ALimits) (w : World) (d : ADocument) (k : ARoamerOf) → IsLaneOf limits lane.old d → w.moment ≡ moment → Stands (ledger_of d) k.client → k.is_lost ≡ true →
        IsRoamerIn (ledger_of d) roamer.old k → LaneSteps limits (steps.came_back limits w d name.now k) d k name.now lane.new roamer.new result }
    ensures store { objects.new ≡ objects.old }
    ensures runs { LaneReads lane.old lane.new result }
    ensures kept { OnOk result (IsSendable roamer.new.outbox) }
{
    // (laws, and no work: their clauses are for the proof)
    leaves_and_reports_fit();
    others_leave_containers();
    // (read for their clauses alone)
    let _name = roamer.client.as_str();
    let _entered = lane.entered();
    let id = roamer.client.copy(alloc)?;
    enter(alloc, lane, objects, Raw::Leave { id, moment })?;
    let joined = join(alloc, lane, objects, &roamer.document, moment)?;
    match joined {
        Ok(client) => back_as(alloc, lane, objects, roamer, name, client, moment),
        Err(refusal) => line_or_stop(turned_away_line(alloc, name.as_str(), refusal)),
    }
}

// Behind the leave and the join.
fn back_as<K: Keeper, O: Objects>(
    alloc: Global,
    lane: &mut Lane<K>,
    objects: &mut ToldObjects<O>,
    roamer: &mut Roamer,
    name: &ScriptName,
    client: ClientId,
    moment: u64,
) -> Result<Text, Stop>
    requires moment { moment ≤ largest }
    requires kept { IsSendable roamer.old.outbox }
    ensures does { (limits : ALimits) (w : World) (d : ADocument) (k : ARoamerOf) → HasJoined limits w d client → IsLaneOf limits lane.old (joined_to limits w d) → w.moment ≡ moment →
        IsBehindLeave (ledger_of d) (length d.raws) roamer.old k → ComesBack limits w d k name.now lane.new roamer.new result }
    ensures store { objects.new ≡ objects.old }
    ensures runs { LaneReads lane.old lane.new result }
    ensures kept { OnOk result (IsSendable roamer.new.outbox) }
{
    // (laws, and no work: their clauses are for the proof)
    containers_catch_up();
    containers_load();
    others_leave_containers();
    hear(alloc, lane, roamer)?;
    roamer.join(alloc, client)?;
    let number = roamer.seq();
    let refused = send_all(alloc, lane, objects, roamer, moment)?;
    match refused {
        None => line_or_stop(back_line(alloc, name, &roamer.client, number)),
        Some(rule) => line_or_stop(refused_line(alloc, name, &rule)),
    }
}

// ---- acked, show

/// A roamer takes in the messages up to the last, and tells how many of its edits stand. Where the script ends here, the roamer is of
/// no more use.
pub fn acked<B: Shelves>(
    alloc: Global,
    lanes: &mut Lanes<B>,
    roamer: &mut Roamer,
    name: &ScriptName,
    moment: u64,
) -> Result<Text, Stop>
where
    B::K: Drop,
    requires moment { moment ≤ largest }
    requires kept { IsSendable roamer.old.outbox }
    ensures does { (w : World) (k : ARoamerOf) → DeskStands lanes.old w → IsSound w → w.moment ≡ moment → get w.names name.now ≡ Some (a_roamer k) → IsRoamerOf w roamer.old k →
        StepDoes (done lanes.old.limits w (step.Acked name.now)) name.now lanes.new roamer.new result }
    ensures runs { (first steps : ℕ) → HasRun first steps lanes.old → RunsReading first (steps + 1) lanes.new result }
    ensures limits { lanes.new.limits ≡ lanes.old.limits }
    ensures kept { OnOk result (IsSendable roamer.new.outbox) }
{
    let document = roamer.document.copy(alloc)?;
    match ready(alloc, lanes, &document, moment) {
        Ok(true) => acked_lane(alloc, lanes.lent(&document), roamer, name),
        Ok(false) => beyond(alloc, &document),
        Err(stop) => Err(stop),
    }
}

fn acked_lane<K: Keeper>(
    alloc: Global,
    lane: &mut Lane<K>,
    roamer: &mut Roamer,
    name: &ScriptName,
) -> Result<Text, Stop>
    requires kept { IsSendable roamer.old.outbox }
    ensures does { (limits : ALimits) (w : World) (d : ADocument) (k : ARoamerOf) → IsLaneOf limits lane.old d → Stands (ledger_of d) k.client → IsRoamerIn (ledger_of d) roamer.old k →
        LaneSteps limits (steps.acked w d name.now k) d k name.now lane.new roamer.new result }
    ensures runs { LaneReads lane.old lane.new result }
    ensures kept { OnOk result (IsSendable roamer.new.outbox) }
{
    containers_catch_up();
    hear(alloc, lane, roamer)?;
    line_or_stop(acked_line(alloc, name, roamer.stood(), roamer.edits))
}

/// What a roamer shows.
pub fn show<B: Shelves>(
    alloc: Global,
    lanes: &mut Lanes<B>,
    roamer: &Roamer,
    name: &ScriptName,
    moment: u64,
) -> Result<Text, Stop>
where
    B::K: Drop,
    requires moment { moment ≤ largest }
    ensures does { (w : World) (k : ARoamerOf) → DeskStands lanes.old w → IsSound w → w.moment ≡ moment → get w.names name.now ≡ Some (a_roamer k) → IsRoamerOf w roamer.now k →
        DeskDoes (done lanes.old.limits w (step.Show name.now)) lanes.new result }
    ensures runs { (first steps : ℕ) → HasRun first steps lanes.old → RunsReading first (steps + 1) lanes.new result }
    ensures limits { lanes.new.limits ≡ lanes.old.limits }
{
    match ready(alloc, lanes, &roamer.document, moment) {
        Ok(true) => show_now(alloc, roamer, name),
        Ok(false) => beyond(alloc, &roamer.document),
        Err(stop) => Err(stop),
    }
}

fn show_now(alloc: Global, roamer: &Roamer, name: &ScriptName) -> Result<Text, Stop>
    ensures { IsLine (lines.shown_line name.now roamer.now.outbox.heard_to (shown (replay_edits roamer.now.app.channels roamer.now.app.pending))) result }
{
    let state = roamer.state(alloc)?;
    line_or_stop(shown_line(alloc, name.as_str(), roamer.seq(), &state))
}

// A roamer's document is open: it was opened for it.
fn beyond(alloc: Global, document: &DocName) -> Result<Text, Stop>
    ensures { IsLine (lines.turned_away_line document.now TooManyDocuments) result }
{
    line_or_stop(turned_away_line(alloc, document.as_str(), ConnectRefusal::TooManyDocuments))
}
