//! The steps of a container that was loaded.
ghost use Rattle.std.specs.Prelude.{◌≡◌, ◌≤◌, ◌<◌, ◌+◌, ℕ, Bool, true, Some, Ok, Err};
ghost use Rattle.std.specs.FinMap.{get};
ghost use Rattle.fluid_types.specs.Forms.{largest};
ghost use Rattle.fluid_loader.specs.Calls.{shown_channels};
ghost use Rattle.fluid_loader.specs.Fitting.{MaySubmit};
ghost use Rattle.fluid_runtime.specs.Shown.{shown};
ghost use Rattle.fluid_steps.specs.declared.steps.Step.TheVariants as step;
ghost use Rattle.fluid_transcript.specs.World.{World, Document, Container as AContainerOf, container, ledger_of};
ghost use Rattle.fluid_transcript.specs.Containers as steps;
ghost use Rattle.fluid_transcript.specs.Lines as lines;
ghost use Rattle.fluid_transcript.specs.Sound.{IsSound};
ghost use Rattle.fluid_transcript.specs.Transcript.{done};
ghost use Rattle.fluid_voice.specs.declared.refusals.ConnectRefusal.TheVariants.{TooManyDocuments};
ghost use Rattle.fluid_rules.specs.declared.limits.Limits.{Limits as ALimits};
ghost use Rattle.fluid_holding.specs.Holding.{HoldsOwn};
ghost use Rattle.fluid_holding.specs.Laws.{Stands};
ghost use Rattle.fluid_desk.specs.Acting.{DeskDoes, IsLine};
ghost use Rattle.fluid_desk.specs.Stands.{DeskStands, StoreStands, IsLaneOf};
ghost use Rattle.fluid_desk.specs.Stopping.{HasRun, RunsOn};
ghost use Rattle.fluid_door_link.specs.Coursing.{HasStood};
ghost use Rattle.fluid_containers.specs.Holders.{IsHolderIn, IsHolderOf};
ghost use Rattle.fluid_containers.specs.Ending.{RunsLinking};
ghost use Rattle.fluid_containers.specs.Saying.{SaysBeaten, SaysEdited, SaysProposed, SaysPumped};
ghost use Rattle.fluid_containers.specs.Stepping.{IsShort, LaneLinks, LaneSteps, MayStand, StepDoes};

use crate::holder::Holder;
use crate::lines::{
    at_line, beat_line, clash_line, edit_fault_line, edited_line, refused_line, shown_line,
    summarized_line, turned_away_line,
};
use crate::stops::stop_for;
use fluid_desk::{Stop, line_or_stop, ready};
use fluid_door_link::{Begun, Course, DoorLink, Notes, ToldObjects};
use fluid_edits::Edit;
use fluid_holding::{
    based_trees_are_taken, based_trees_are_whole, containers_catch_up, submissions_are_counted,
};
use fluid_json::{NoMemory, Text};
use fluid_lane::Lane;
use fluid_lanes::Lanes;
use fluid_loader::{Container, LoadFault};
use fluid_log::{Keeper, Shelves};
use fluid_steps::ScriptName;
use fluid_store::Objects;
use fluid_tree::Id;
use fluid_types::DocName;
use fluid_voice::ConnectRefusal;
use std::alloc::Global;
use std::marker::Brand;

// ---- pump

/// A container takes in the messages up to the last.
pub fn pump<B: Shelves, O: Objects>(
    alloc: Global,
    lanes: &mut Lanes<B>,
    objects: &mut ToldObjects<O>,
    holder: &mut Holder,
    name: &ScriptName,
    moment: u64,
) -> Result<Text, Stop>
where
    B::K: Drop,
    ghost good: { Bool }
    requires moment { moment ≤ largest }
    requires stands { MayStand good lanes.old }
    ensures does { (w : World) (k : AContainerOf) → good ≡ true → DeskStands lanes.old w → StoreStands objects.old w → IsSound w → w.moment ≡ moment →
        get w.names name.now ≡ Some (container k) → IsHolderOf w holder.old k →
        StepDoes (done lanes.old.limits w (step.Pump name.now)) name.now lanes.new objects.new holder.new result }
    ensures runs { (first steps : ℕ) → HasRun first steps lanes.old → RunsLinking first (steps + 1) objects.old objects.new lanes.new result }
    ensures counts { objects.old.faults ≤ objects.new.faults }
    ensures numbers { holder.new.container.last ≤ holder.old.container.last + 1 }
    ensures limits { lanes.new.limits ≡ lanes.old.limits }
{
    let document = holder.document.copy(alloc)?;
    match ready(alloc, lanes, &document, moment) {
        Ok(true) => {
            pump_lane::<B::K, O, Brand>(alloc, lanes.lent(&document), objects, holder, name, moment)
        }
        Ok(false) => beyond(alloc, &document),
        Err(stop) => Err(stop),
    }
}

// On the lane of its document.
fn pump_lane<K: Keeper, O: Objects, W: Begun>(
    alloc: Global,
    lane: &mut Lane<K>,
    objects: &mut ToldObjects<O>,
    holder: &mut Holder,
    name: &ScriptName,
    moment: u64,
) -> Result<Text, Stop>
    requires moment { moment ≤ largest }
    requires lane { lane.old ≡ W.began }
    requires store { objects.old ≡ W.before }
    requires stood { W.good ≡ true → HasStood W.began }
    ensures does { W.good ≡ true → (limits : ALimits) (w : World) (d : Document) (k : AContainerOf) → IsLaneOf limits lane.old d → StoreStands objects.old w → w.moment ≡ moment →
        Stands (ledger_of d) k → IsHolderIn (ledger_of d) w.store holder.old k →
        LaneSteps limits (steps.pumped w d name.now k) d k name.now lane.new objects.new holder.new result }
    ensures runs { LaneLinks lane.old lane.new objects.old objects.new result }
    ensures numbers { holder.new.container.last ≤ holder.old.container.last + 1 }
{
    containers_catch_up();
    let own = holder.client.copy(alloc)?;
    own.as_str();
    let mut notes = Notes::new(alloc, own);
    let mut course: Course<K, O, W> = Course::begin(lane, objects);
    let answer = {
        let mut link = DoorLink::new(moment, lane, objects, &mut course, &mut notes);
        let answer = holder.container.pump(alloc, &mut link);
        link.know();
        answer
    };
    match course.into_stop() {
        Some(fault) => Err(stop_for(fault)),
        None => pumped(alloc, name, answer),
    }
}

// What is written of it, where nothing failed but for want of memory.
fn pumped(alloc: Global, name: &ScriptName, answer: Result<u64, LoadFault>) -> Result<Text, Stop>
    ensures { SaysPumped name.now answer result }
{
    match answer {
        Ok(number) => line_or_stop(at_line(alloc, name, number)),
        Err(_) => Err(Stop::NoMemory),
    }
}

// ---- edit

/// A container's client edits a channel.
pub fn edit<B: Shelves, O: Objects>(
    alloc: Global,
    lanes: &mut Lanes<B>,
    objects: &mut ToldObjects<O>,
    holder: &mut Holder,
    name: &ScriptName,
    edit: Edit,
    moment: u64,
) -> Result<Text, Stop>
where
    B::K: Drop,
    ghost good: { Bool }
    requires moment { moment ≤ largest }
    requires stands { MayStand good lanes.old }
    requires short { IsShort edit }
    requires numbers { holder.old.container.last < largest }
    ensures does { (w : World) (k : AContainerOf) → good ≡ true → DeskStands lanes.old w → StoreStands objects.old w → IsSound w → w.moment ≡ moment →
        get w.names name.now ≡ Some (container k) → IsHolderOf w holder.old k →
        StepDoes (done lanes.old.limits w (step.Edit name.now (Ok edit))) name.now lanes.new objects.new holder.new result }
    ensures runs { (first steps : ℕ) → HasRun first steps lanes.old → RunsLinking first (steps + 1) objects.old objects.new lanes.new result }
    ensures counts { objects.old.faults ≤ objects.new.faults }
    ensures numbers { holder.new.container.last ≤ holder.old.container.last + 1 }
    ensures limits { lanes.new.limits ≡ lanes.old.limits }
{
    let document = holder.document.copy(alloc)?;
    match ready(alloc, lanes, &document, moment) {
        Ok(true) => {
            edit_lane::<B::K, O, Brand>(
                alloc,
                lanes.lent(&document),
                objects,
                holder,
                name,
                edit,
                moment,
            )
        }
        Ok(false) => beyond(alloc, &document),
        Err(stop) => Err(stop),
    }
}

fn edit_lane<K: Keeper, O: Objects, W: Begun>(
    alloc: Global,
    lane: &mut Lane<K>,
    objects: &mut ToldObjects<O>,
    holder: &mut Holder,
    name: &ScriptName,
    edit: Edit,
    moment: u64,
) -> Result<Text, Stop>
    requires moment { moment ≤ largest }
    requires lane { lane.old ≡ W.began }
    requires store { objects.old ≡ W.before }
    requires stood { W.good ≡ true → HasStood W.began }
    requires short { IsShort edit }
    requires numbers { holder.old.container.last < largest }
    ensures does { W.good ≡ true → (limits : ALimits) (w : World) (d : Document) (k : AContainerOf) → IsLaneOf limits lane.old d → StoreStands objects.old w → w.moment ≡ moment →
        Stands (ledger_of d) k → IsHolderIn (ledger_of d) w.store holder.old k →
        LaneSteps limits (steps.edited limits w d name.now k edit) d k name.now lane.new objects.new holder.new result }
    ensures runs { LaneLinks lane.old lane.new objects.old objects.new result }
    ensures numbers { holder.new.container.last ≤ holder.old.container.last + 1 }
{
    submissions_are_counted();
    known_to_fit(&holder.container);
    let own = holder.client.copy(alloc)?;
    own.as_str();
    let mut notes = Notes::new(alloc, own);
    let mut course: Course<K, O, W> = Course::begin(lane, objects);
    let answer = {
        let mut link = DoorLink::new(moment, lane, objects, &mut course, &mut notes);
        let answer = holder.container.edit(alloc, &mut link, edit);
        link.know();
        answer
    };
    match course.into_stop() {
        Some(fault) => Err(stop_for(fault)),
        None => edited(alloc, name, answer),
    }
}

fn edited(alloc: Global, name: &ScriptName, answer: Result<(), LoadFault>) -> Result<Text, Stop>
    ensures { SaysEdited name.now answer result }
{
    match answer {
        Ok(()) => line_or_stop(edited_line(alloc, name)),
        Err(LoadFault::Edit(fault)) => line_or_stop(edit_fault_line(alloc, name, fault)),
        Err(LoadFault::Refused(nack)) => line_or_stop(refused_line(alloc, name, &nack.rule)),
        Err(_) => Err(Stop::NoMemory),
    }
}

// ---- beat

/// A container's client says where it is by a noop.
pub fn beat<B: Shelves, O: Objects>(
    alloc: Global,
    lanes: &mut Lanes<B>,
    objects: &mut ToldObjects<O>,
    holder: &mut Holder,
    name: &ScriptName,
    moment: u64,
) -> Result<Text, Stop>
where
    B::K: Drop,
    ghost good: { Bool }
    requires moment { moment ≤ largest }
    requires stands { MayStand good lanes.old }
    requires numbers { holder.old.container.last < largest }
    ensures does { (w : World) (k : AContainerOf) → good ≡ true → DeskStands lanes.old w → StoreStands objects.old w → IsSound w → w.moment ≡ moment →
        get w.names name.now ≡ Some (container k) → IsHolderOf w holder.old k →
        StepDoes (done lanes.old.limits w (step.Beat name.now)) name.now lanes.new objects.new holder.new result }
    ensures runs { (first steps : ℕ) → HasRun first steps lanes.old → RunsLinking first (steps + 1) objects.old objects.new lanes.new result }
    ensures counts { objects.old.faults ≤ objects.new.faults }
    ensures numbers { holder.new.container.last ≤ holder.old.container.last + 1 }
    ensures limits { lanes.new.limits ≡ lanes.old.limits }
{
    let document = holder.document.copy(alloc)?;
    match ready(alloc, lanes, &document, moment) {
        Ok(true) => {
            beat_lane::<B::K, O, Brand>(alloc, lanes.lent(&document), objects, holder, name, moment)
        }
        Ok(false) => beyond(alloc, &document),
        Err(stop) => Err(stop),
    }
}

fn beat_lane<K: Keeper, O: Objects, W: Begun>(
    alloc: Global,
    lane: &mut Lane<K>,
    objects: &mut ToldObjects<O>,
    holder: &mut Holder,
    name: &ScriptName,
    moment: u64,
) -> Result<Text, Stop>
    requires moment { moment ≤ largest }
    requires lane { lane.old ≡ W.began }
    requires store { objects.old ≡ W.before }
    requires stood { W.good ≡ true → HasStood W.began }
    requires numbers { holder.old.container.last < largest }
    ensures does { W.good ≡ true → (limits : ALimits) (w : World) (d : Document) (k : AContainerOf) → IsLaneOf limits lane.old d → StoreStands objects.old w → w.moment ≡ moment →
        Stands (ledger_of d) k → IsHolderIn (ledger_of d) w.store holder.old k →
        LaneSteps limits (steps.beaten limits w d name.now k) d k name.now lane.new objects.new holder.new result }
    ensures runs { LaneLinks lane.old lane.new objects.old objects.new result }
    ensures numbers { holder.new.container.last ≤ holder.old.container.last + 1 }
{
    submissions_are_counted();
    known_to_fit(&holder.container);
    let own = holder.client.copy(alloc)?;
    own.as_str();
    let mut notes = Notes::new(alloc, own);
    let mut course: Course<K, O, W> = Course::begin(lane, objects);
    let answer = {
        let mut link = DoorLink::new(moment, lane, objects, &mut course, &mut notes);
        let answer = holder.container.beat(alloc, &mut link);
        link.know();
        answer
    };
    match course.into_stop() {
        Some(fault) => Err(stop_for(fault)),
        None => beaten(alloc, name, holder.container.seq(), answer),
    }
}

fn beaten(
    alloc: Global,
    name: &ScriptName,
    number: u64,
    answer: Result<(), LoadFault>,
) -> Result<Text, Stop>
    ensures { SaysBeaten name.now number answer result }
{
    match answer {
        Ok(()) => line_or_stop(beat_line(alloc, name, number)),
        Err(LoadFault::Refused(nack)) => line_or_stop(refused_line(alloc, name, &nack.rule)),
        Err(_) => Err(Stop::NoMemory),
    }
}

// ---- summarize

/// A container uploads its channels and proposes them as a summary.
pub fn summarize<B: Shelves, O: Objects>(
    alloc: Global,
    lanes: &mut Lanes<B>,
    objects: &mut ToldObjects<O>,
    holder: &mut Holder,
    name: &ScriptName,
    moment: u64,
) -> Result<Text, Stop>
where
    B::K: Drop,
    ghost good: { Bool }
    requires moment { moment ≤ largest }
    requires stands { MayStand good lanes.old }
    requires numbers { holder.old.container.last < largest }
    ensures does { (w : World) (k : AContainerOf) → good ≡ true → DeskStands lanes.old w → StoreStands objects.old w → IsSound w → w.moment ≡ moment →
        get w.names name.now ≡ Some (container k) → IsHolderOf w holder.old k → HoldsOwn w.store →
        StepDoes (done lanes.old.limits w (step.Summarize name.now)) name.now lanes.new objects.new holder.new result }
    ensures runs { (first steps : ℕ) → HasRun first steps lanes.old → RunsLinking first (steps + 1) objects.old objects.new lanes.new result }
    ensures counts { objects.old.faults ≤ objects.new.faults }
    ensures numbers { holder.new.container.last ≤ holder.old.container.last + 1 }
    ensures limits { lanes.new.limits ≡ lanes.old.limits }
{
    let document = holder.document.copy(alloc)?;
    match ready(alloc, lanes, &document, moment) {
        Ok(true) => {
            summarize_lane::<B::K, O, Brand>(
                alloc,
                lanes.lent(&document),
                objects,
                holder,
                name,
                moment,
            )
        }
        Ok(false) => beyond(alloc, &document),
        Err(stop) => Err(stop),
    }
}

fn summarize_lane<K: Keeper, O: Objects, W: Begun>(
    alloc: Global,
    lane: &mut Lane<K>,
    objects: &mut ToldObjects<O>,
    holder: &mut Holder,
    name: &ScriptName,
    moment: u64,
) -> Result<Text, Stop>
    requires moment { moment ≤ largest }
    requires lane { lane.old ≡ W.began }
    requires store { objects.old ≡ W.before }
    requires stood { W.good ≡ true → HasStood W.began }
    requires numbers { holder.old.container.last < largest }
    ensures does { W.good ≡ true → (limits : ALimits) (w : World) (d : Document) (k : AContainerOf) → IsLaneOf limits lane.old d → StoreStands objects.old w → w.moment ≡ moment →
        Stands (ledger_of d) k → IsHolderIn (ledger_of d) w.store holder.old k → HoldsOwn w.store →
        LaneSteps limits (steps.summarized limits w d name.now k) d k name.now lane.new objects.new holder.new result }
    ensures runs { LaneLinks lane.old lane.new objects.old objects.new result }
    ensures numbers { holder.new.container.last ≤ holder.old.container.last + 1 }
{
    submissions_are_counted();
    based_trees_are_taken();
    based_trees_are_whole();
    known_to_fit(&holder.container);
    let own = holder.client.copy(alloc)?;
    own.as_str();
    let mut notes = Notes::new(alloc, own);
    let mut course: Course<K, O, W> = Course::begin(lane, objects);
    let answer = {
        let mut link = DoorLink::new(moment, lane, objects, &mut course, &mut notes);
        let answer = holder.container.summarize(alloc, &mut link);
        link.know();
        answer
    };
    match course.into_stop() {
        Some(fault) => Err(stop_for(fault)),
        None => proposed(alloc, name, holder.container.seq(), answer),
    }
}

fn proposed(
    alloc: Global,
    name: &ScriptName,
    number: u64,
    answer: Result<Id, LoadFault>,
) -> Result<Text, Stop>
    ensures { SaysProposed name.now number answer result }
{
    match answer {
        Ok(_) => line_or_stop(summarized_line(alloc, name, number)),
        Err(fault) => unproposed(alloc, name, fault),
    }
}

fn unproposed(alloc: Global, name: &ScriptName, fault: LoadFault) -> Result<Text, Stop>
    ensures { (number : ℕ) → SaysProposed name.now number (Err fault) result }
{
    match fault {
        LoadFault::Refused(nack) => line_or_stop(refused_line(alloc, name, &nack.rule)),
        LoadFault::Clash { id, .. } => line_or_stop(clash_line(alloc, name, &id)),
        _ => Err(Stop::NoMemory),
    }
}

// ---- show

/// What a container shows.
pub fn show<B: Shelves>(
    alloc: Global,
    lanes: &mut Lanes<B>,
    holder: &Holder,
    name: &ScriptName,
    moment: u64,
) -> Result<Text, Stop>
where
    B::K: Drop,
    requires moment { moment ≤ largest }
    ensures does { (w : World) (k : AContainerOf) → DeskStands lanes.old w → IsSound w → w.moment ≡ moment →
        get w.names name.now ≡ Some (container k) → IsHolderOf w holder.now k →
        DeskDoes (done lanes.old.limits w (step.Show name.now)) lanes.new result }
    ensures runs { (before steps : ℕ) → HasRun before steps lanes.old → RunsOn before (steps + 1) lanes.new result }
    ensures limits { lanes.new.limits ≡ lanes.old.limits }
{
    match ready(alloc, lanes, &holder.document, moment) {
        Ok(true) => shown(alloc, name.as_str(), &holder.container),
        Ok(false) => beyond(alloc, &holder.document),
        Err(stop) => Err(stop),
    }
}

/// The line of what it shows.
pub(crate) fn shown(alloc: Global, name: &str, container: &Container) -> Result<Text, Stop>
    ensures { IsLine (lines.shown_line name.now container.now.number (shown (shown_channels container.now))) result }
{
    let state = container.state(alloc)?;
    line_or_stop(shown_line(alloc, name, container.seq(), &state))
}

// ---- parts

// A container's document is open: it was opened for it.
pub(crate) fn beyond(alloc: Global, document: &DocName) -> Result<Text, Stop>
    ensures { IsLine (lines.turned_away_line document.now TooManyDocuments) result }
{
    line_or_stop(turned_away_line(alloc, document.as_str(), ConnectRefusal::TooManyDocuments))
}

// Its next submission fits a record.
fn known_to_fit(container: &Container)
    requires { container.now.last < largest }
    ensures { MaySubmit container.now }
{
    if !container.has_numbers() {
        unreachable!()
    }
}
