//! A container joins a document and is loaded.
ghost use Rattle.std.specs.Prelude.{◌≡◌, ◌≤◌, ◌+◌, ℕ, Bool, List, true, None, Some, IfOk, IfErr};
ghost use Rattle.std.specs.List.{last_or};
ghost use Rattle.std.specs.FinMap.{get};
ghost use Rattle.fluid_types.specs.Ledger.{Ledger};
ghost use Rattle.fluid_types.specs.Forms.{largest};
ghost use Rattle.fluid_rules.specs.declared.limits.Limits.{Limits as ALimits};
ghost use Rattle.fluid_steps.specs.declared.steps.Step.TheVariants as step;
ghost use Rattle.fluid_store.specs.Held.{Held as AreHeld};
ghost use Rattle.fluid_transcript.specs.World.{World, Document, ledger_of};
ghost use Rattle.fluid_transcript.specs.Containers as steps;
ghost use Rattle.fluid_transcript.specs.Sound.{IsSound};
ghost use Rattle.fluid_transcript.specs.Transcript.{done, last_pick, loaded_last_in};
ghost use Rattle.fluid_desk.specs.declared.stop.Stop.TheVariants.{NoMemory as OutOfMemory};
ghost use Rattle.fluid_desk.specs.Acting.{IsLine};
ghost use Rattle.fluid_desk.specs.Scribing.{DeskDoesWith};
ghost use Rattle.fluid_desk.specs.Stands.{DeskStands, IsLaneOf, StoreStands};
ghost use Rattle.fluid_desk.specs.Stopping.{HasRun};
ghost use Rattle.fluid_door_link.specs.Coursing.{HasStood};
ghost use Rattle.fluid_containers.specs.Ending.{RunsLinking};
ghost use Rattle.fluid_containers.specs.Saying.{IsHeldBy};
ghost use Rattle.fluid_containers.specs.Stepping.{IsFresh, LaneLinks, LoadDoes, MayStand};
ghost use Rattle.fluid_containers.specs.Joining.{HasJoined, joined_to};
ghost use Rattle.fluid_containers.specs.Loading.{Becomes, IsTurnedAway, LaneEndsIn, LaneLoads, LaneLoadsAs, end_line};

use crate::holder::Holder;
use crate::joining::join;
use crate::lines::{bad_summary_line, loaded_line, no_summary_line, turned_away_line};
use crate::stepping::{beyond, shown};
use crate::stops::stop_for;
use fluid_desk::{Stop, line_or_stop, ready};
use fluid_door_link::{Begun, Course, DoorLink, Notes, ToldObjects};
use fluid_holding::containers_load;
use fluid_json::{NoMemory, Text};
use fluid_lane::Lane;
use fluid_lanes::Lanes;
use fluid_loader::{Container, LoadFault, Pick};
use fluid_log::{Keeper, Shelves};
use fluid_steps::ScriptName;
use fluid_store::Objects;
use fluid_types::{ClientId, DocName};
use fluid_voice::ConnectRefusal;
use std::alloc::Global;
use std::marker::Brand;

/// What became of a load.
#[derive(Drop)]
pub enum Loaded {
    /// The container.
    Held(Holder),
    /// The join is refused, or as many documents are open as may be.
    TurnedAway(ConnectRefusal),
    NoSummary,
    /// The object at this path of the summary isn't held or is outside its form.
    BadSummary(Text),
}

/// A client joins a document, which is opened at its first use, and a container is loaded for it. The line that is written for it
/// stands beside.
pub fn load<B: Shelves, O: Objects>(
    alloc: Global,
    lanes: &mut Lanes<B>,
    objects: &mut ToldObjects<O>,
    name: &ScriptName,
    document: &DocName,
    pick: &Pick,
    moment: u64,
) -> Result<(Text, Loaded), Stop>
where
    B::K: Drop,
    ghost good: { Bool }
    requires moment { moment ≤ largest }
    requires stands { MayStand good lanes.old }
    ensures does { (w : World) → good ≡ true → DeskStands lanes.old w → StoreStands objects.old w → IsSound w → w.moment ≡ moment → get w.names name.now ≡ None →
        LoadDoes (done lanes.old.limits w (step.Load name.now document.now pick.now)) name.now lanes.new objects.new result }
    ensures runs { (first steps : ℕ) → HasRun first steps lanes.old → RunsLinking first (steps + 1) objects.old objects.new lanes.new result }
    ensures counts { objects.old.faults ≤ objects.new.faults }
    ensures fresh { IfOk result (λ made. IsFresh made.1) }
    ensures limits { lanes.new.limits ≡ lanes.old.limits }
{
    match ready(alloc, lanes, document, moment) {
        Ok(true) => load_on(
            alloc,
            lanes.lent(document),
            objects,
            name,
            document,
            pick,
            moment,
        ),
        Ok(false) => turned_away(alloc, name),
        Err(stop) => Err(stop),
    }
}

// As many documents are open as may be.
fn turned_away(alloc: Global, name: &ScriptName) -> Result<(Text, Loaded), Stop>
    ensures { IsTurnedAway name.now result }
{
    let refusal = ConnectRefusal::TooManyDocuments;
    let line = line_or_stop(turned_away_line(alloc, name.as_str(), refusal))?;
    Ok((line, Loaded::TurnedAway(refusal)))
}

fn load_on<K: Keeper, O: Objects>(
    alloc: Global,
    lane: &mut Lane<K>,
    objects: &mut ToldObjects<O>,
    name: &ScriptName,
    document: &DocName,
    pick: &Pick,
    moment: u64,
) -> Result<(Text, Loaded), Stop>
    ghost good: { Bool }
    requires moment { moment ≤ largest }
    requires stood { good ≡ true → HasStood lane.old }
    ensures does { (limits : ALimits) (w : World) (d : Document) → good ≡ true → IsLaneOf limits lane.old d → StoreStands objects.old w → w.moment ≡ moment →
        LaneLoadsAs limits w d name.now document.now pick.now lane.new objects.new result }
    ensures runs { LaneLinks lane.old lane.new objects.old objects.new result }
    ensures fresh { IfOk result (λ made. IsFresh made.1) }
{
    let loaded = load_lane(alloc, lane, objects, document, pick, moment)?;
    let line = line_or_stop(load_line(alloc, name, document, &loaded))?;
    Ok((line, loaded))
}

/// A container with a name of its own is loaded, from the last acknowledged summary where there is one. The line is what it shows.
pub fn load_last<B: Shelves, O: Objects>(
    alloc: Global,
    lanes: &mut Lanes<B>,
    objects: &mut ToldObjects<O>,
    document: &DocName,
    moment: u64,
) -> Result<Text, Stop>
where
    B::K: Drop,
    ghost good: { Bool }
    requires moment { moment ≤ largest }
    requires stands { MayStand good lanes.old }
    ensures does { (w : World) → good ≡ true → DeskStands lanes.old w → StoreStands objects.old w → IsSound w → w.moment ≡ moment →
        DeskDoesWith (loaded_last_in lanes.old.limits w document.now) lanes.new objects.new result }
    ensures runs { (first steps : ℕ) → HasRun first steps lanes.old → RunsLinking first (steps + 1) objects.old objects.new lanes.new result }
    ensures counts { objects.old.faults ≤ objects.new.faults }
    ensures limits { lanes.new.limits ≡ lanes.old.limits }
{
    match ready(alloc, lanes, document, moment) {
        Ok(true) => load_last_on(alloc, lanes.lent(document), objects, document, moment),
        Ok(false) => beyond(alloc, document),
        Err(stop) => Err(stop),
    }
}

fn load_last_on<K: Keeper, O: Objects>(
    alloc: Global,
    lane: &mut Lane<K>,
    objects: &mut ToldObjects<O>,
    document: &DocName,
    moment: u64,
) -> Result<Text, Stop>
    ghost good: { Bool }
    requires moment { moment ≤ largest }
    requires stood { good ≡ true → HasStood lane.old }
    ensures does { (limits : ALimits) (w : World) (d : Document) → good ≡ true → IsLaneOf limits lane.old d → StoreStands objects.old w → w.moment ≡ moment →
        LaneEndsIn limits w d document.now (last_pick d) lane.new objects.new result }
    ensures runs { LaneLinks lane.old lane.new objects.old objects.new result }
{
    let pick = latest_if_any(lane);
    let loaded = load_lane(alloc, lane, objects, document, &pick, moment)?;
    last_line(alloc, document, &loaded)
}

// The last acknowledged summary where there is one.
fn latest_if_any<K: Keeper>(lane: &Lane<K>) -> Pick
    ensures { (limits : ALimits) (d : Document) → IsLaneOf limits lane.now d → result ≡ last_pick d }
{
    if lane.acks().is_empty() {
        Pick::Empty
    } else {
        Pick::Latest
    }
}

// A client joins, and then its container is loaded.
fn load_lane<K: Keeper, O: Objects>(
    alloc: Global,
    lane: &mut Lane<K>,
    objects: &mut ToldObjects<O>,
    document: &DocName,
    pick: &Pick,
    moment: u64,
) -> Result<Loaded, Stop>
    ghost good: { Bool }
    requires moment { moment ≤ largest }
    requires stood { good ≡ true → HasStood lane.old }
    ensures does { (limits : ALimits) (w : World) (d : Document) → good ≡ true → IsLaneOf limits lane.old d → StoreStands objects.old w → w.moment ≡ moment →
        LaneLoads limits w d document.now pick.now lane.new objects.new result }
    ensures runs { LaneLinks lane.old lane.new objects.old objects.new result }
    ensures fresh { IfOk result IsFresh }
{
    match join(alloc, lane, objects, document, moment)? {
        Ok(client) => {
            load_as::<K, O, Brand>(alloc, lane, objects, document, client, pick, moment)
        }
        Err(refusal) => Ok(Loaded::TurnedAway(refusal)),
    }
}

// Behind the client's join.
fn load_as<K: Keeper, O: Objects, W: Begun>(
    alloc: Global,
    lane: &mut Lane<K>,
    objects: &mut ToldObjects<O>,
    document: &DocName,
    client: ClientId,
    pick: &Pick,
    moment: u64,
) -> Result<Loaded, Stop>
    requires moment { moment ≤ largest }
    requires lane { lane.old ≡ W.began }
    requires store { objects.old ≡ W.before }
    requires stood { W.good ≡ true → HasStood W.began }
    ensures does { W.good ≡ true → (limits : ALimits) (w : World) (d : Document) → HasJoined limits w d client → IsLaneOf limits lane.old (joined_to limits w d) → StoreStands objects.old w →
        LaneLoads limits w d document.now pick.now lane.new objects.new result }
    ensures runs { LaneLinks lane.old lane.new objects.old objects.new result }
    ensures fresh { IfOk result IsFresh }
{
    containers_load();
    let own = client.copy(alloc)?;
    let name = document.copy(alloc)?;
    let mut notes = Notes::new(alloc, own);
    let mut course: Course<K, O, W> = Course::begin(lane, objects);
    let answer = {
        let mut link = DoorLink::new(moment, lane, objects, &mut course, &mut notes);
        let answer = Container::load(alloc, &mut link, pick);
        link.know();
        answer
    };
    match course.into_stop() {
        Some(fault) => Err(stop_for(fault)),
        None => held_by(name, client, answer),
    }
}

fn held_by(
    document: DocName,
    client: ClientId,
    answer: Result<Container, LoadFault>,
) -> Result<Loaded, Stop>
    ensures { IsHeldBy document client answer result }
{
    match answer {
        Ok(container) => Ok(Loaded::Held(Holder {
            document,
            client,
            container,
        })),
        Err(LoadFault::NoSummary) => Ok(Loaded::NoSummary),
        Err(LoadFault::BadSummary(path)) => Ok(Loaded::BadSummary(path)),
        Err(_) => Err(Stop::NoMemory),
    }
}

fn load_line(
    alloc: Global,
    name: &ScriptName,
    document: &DocName,
    loaded: &Loaded,
) -> Result<Text, NoMemory>
    ensures { (l : Ledger) (held : AreHeld) (loading : steps.Loading) → Becomes l held loading loaded.now → IfOk result (λ line. line ≡ steps.load_line name.now document.now loading) }
{
    let own = name.as_str();
    match loaded {
        Loaded::Held(holder) => loaded_line(alloc, name, document, holder.container.seq()),
        Loaded::TurnedAway(refusal) => turned_away_line(alloc, own, *refusal),
        Loaded::NoSummary => no_summary_line(alloc, own),
        Loaded::BadSummary(path) => bad_summary_line(alloc, own, path.as_str()),
    }
}

fn last_line(alloc: Global, document: &DocName, loaded: &Loaded) -> Result<Text, Stop>
    ensures says { (l : Ledger) (held : AreHeld) (loading : steps.Loading) → Becomes l held loading loaded.now → IsLine (end_line l document.now loading) result }
    ensures memory { IfErr result (λ stop. stop ≡ OutOfMemory) }
{
    let name = document.as_str();
    match loaded {
        Loaded::Held(holder) => shown(alloc, name, &holder.container),
        Loaded::TurnedAway(refusal) => line_or_stop(turned_away_line(alloc, name, *refusal)),
        Loaded::NoSummary => line_or_stop(no_summary_line(alloc, name)),
        Loaded::BadSummary(path) => line_or_stop(bad_summary_line(alloc, name, path.as_str())),
    }
}
