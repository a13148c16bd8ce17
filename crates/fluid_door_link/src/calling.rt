//! Calls on a lane and a store that are lent, and what is kept of them.
ghost use Rattle.std.specs.Prelude.{◌≡◌, ℕ, ◌+◌, ◌<◌, ◌≤◌, ◌^◌, Ok, Err, Some, None, IfOk, option_map, MatchResult};
ghost use Rattle.fluid_types.specs.Fits.{Fits};
ghost use Rattle.fluid_loader.specs.Listed.{link_fault};
ghost use Rattle.fluid_door_link.specs.Failing.{CountsTree, IsNoRefusal, IsTreeCounted, kept_of_deltas, kept_of_lane, kept_of_store, link_deltas};
ghost use Rattle.fluid_door_link.specs.Coursing.{IsAlong};
ghost use Rattle.fluid_door_link.specs.Linking.{EntersBy, GetsBy, IsSubmission, ReadsBy, TreesBy, UploadsBy, answer_of_lane};
ghost use Rattle.fluid_door_link.specs.Telling.{told_by};

use crate::course::{Begun, Course};
use crate::fault::LentFault;
use crate::told_objects::ToldObjects;
use fluid_deltas::DeltaFault;
use fluid_io::FaultNote;
use fluid_json::Bytes;
use fluid_lane::{Lane, LaneFault};
use fluid_loader::LinkFault;
use fluid_log::Keeper;
use fluid_store::{ObjectFault, Objects, StoreFault, upload};
use fluid_tree::{Id, Node};
use fluid_types::{Messages, Raw, Verdict};
use std::alloc::Global;

// ---- on the lane

/// Enters a submission, and gives its verdict; none where the document is full for it.
pub(crate) fn enter<K: Keeper, O: Objects, W: Begun>(
    alloc: Global,
    lane: &mut Lane<K>,
    objects: &ToldObjects<O>,
    course: &mut Course<K, O, W>,
    raw: &Raw,
) -> Result<Option<Verdict>, LinkFault>
    requires fits { Fits raw.now }
    requires kind { IsSubmission raw.now }
    requires at { course.old ≡ record { lane = lane.old; store = objects.now; stop = None } }
    ensures at { course.new ≡ record { lane = lane.new; store = objects.now; stop = course.new.stop } }
    ensures kept { IsNoRefusal course.new.stop }
    ensures does { EntersBy raw.now (told_by W.good lane.old objects.now) (told_by W.good lane.new objects.now) result }
{
    course.know();
    match lane.submit(alloc, raw) {
        Ok(verdict) => {
            course.follow(lane, objects);
            Ok(Some(verdict))
        }
        Err(fault) => unentered(lane, objects, course, fault),
    }
}

// What is kept of an entry that a lane refused, and what is answered.
fn unentered<K: Keeper, O: Objects, W: Begun>(
    lane: &Lane<K>,
    objects: &ToldObjects<O>,
    course: &mut Course<K, O, W>,
    fault: LaneFault,
) -> Result<Option<Verdict>, LinkFault>
    requires { IsAlong W.good W.began W.before (record { lane = lane.now; store = objects.now; stop = kept_of_lane fault }) }
    ensures at { course.new ≡ record { lane = lane.now; store = objects.now; stop = kept_of_lane fault } }
    ensures answer { result ≡ answer_of_lane fault }
{
    match fault {
        LaneFault::Full(_) => {
            course.follow(lane, objects);
            Ok(None)
        }
        LaneFault::NoMemory => {
            course.follow(lane, objects);
            Err(LinkFault::NoMemory)
        }
        other => {
            course.fail(lane, objects, LentFault::Lane(other));
            Err(LinkFault::Failed)
        }
    }
}

/// Reads all messages from this number on.
pub(crate) fn read<K: Keeper, O: Objects, W: Begun>(
    alloc: Global,
    lane: &mut Lane<K>,
    objects: &ToldObjects<O>,
    course: &mut Course<K, O, W>,
    from: u64,
) -> Result<Messages, LinkFault>
    requires above { 0 < from }
    requires fits { from ≤ 2 ^ 53 }
    requires at { course.old ≡ record { lane = lane.old; store = objects.now; stop = None } }
    ensures at { course.new ≡ record { lane = lane.new; store = objects.now; stop = course.new.stop } }
    ensures kept { IsNoRefusal course.new.stop }
    ensures does { ReadsBy from (told_by W.good lane.old objects.now) (told_by W.good lane.new objects.now) result }
{
    course.know();
    let behind = lane.seq() + 1;
    if behind <= from {
        return Ok(Messages::new(Vec::new(alloc)));
    }
    match lane.range(alloc, from, behind) {
        Ok(messages) => {
            course.follow(lane, objects);
            Ok(Messages::new(messages))
        }
        Err(fault) => Err(unread(lane, objects, course, fault)),
    }
}

// What is kept of messages that weren't read, and what is answered.
fn unread<K: Keeper, O: Objects, W: Begun>(
    lane: &Lane<K>,
    objects: &ToldObjects<O>,
    course: &mut Course<K, O, W>,
    fault: DeltaFault,
) -> LinkFault
    requires { IsAlong W.good W.began W.before (record { lane = lane.now; store = objects.now; stop = kept_of_deltas fault }) }
    ensures at { course.new ≡ record { lane = lane.now; store = objects.now; stop = kept_of_deltas fault } }
    ensures answer { result ≡ link_deltas fault }
{
    match fault {
        DeltaFault::NoMemory => {
            course.follow(lane, objects);
            LinkFault::NoMemory
        }
        other => {
            course.fail(lane, objects, LentFault::Deltas(other));
            LinkFault::Failed
        }
    }
}

// ---- on the store

/// The bytes that are held under the id.
pub(crate) fn get<K: Keeper, O: Objects, W: Begun>(
    alloc: Global,
    lane: &Lane<K>,
    objects: &mut ToldObjects<O>,
    course: &mut Course<K, O, W>,
    id: &Id,
) -> Result<Option<Bytes>, LinkFault>
    requires at { course.old ≡ record { lane = lane.now; store = objects.old; stop = None } }
    ensures at { course.new ≡ record { lane = lane.now; store = objects.new; stop = course.new.stop } }
    ensures kept { IsNoRefusal course.new.stop }
    ensures does { GetsBy id.now (told_by W.good lane.now objects.old) (told_by W.good lane.now objects.new) result }
{
    course.know();
    let before = objects.faults();
    match objects.get(alloc, id) {
        Ok(bytes) => {
            course.follow(lane, objects);
            Ok(bytes)
        }
        Err(ObjectFault::NoMemory) => {
            course.follow(lane, objects);
            Err(LinkFault::NoMemory)
        }
        Err(ObjectFault::Failed) => {
            let after = objects.faults();
            let fault = StoreFault::StoreFailed(FaultNote { before, after });
            course.fail(lane, objects, LentFault::Store(fault));
            Err(LinkFault::Failed)
        }
    }
}

/// Puts the objects of a tree over the earlier one with the id `base`. One that what is held refuses is counted.
pub(crate) fn put<K: Keeper, O: Objects, W: Begun>(
    alloc: Global,
    lane: &Lane<K>,
    objects: &mut ToldObjects<O>,
    course: &mut Course<K, O, W>,
    bad_trees: &mut u64,
    tree: &Node,
    base: Option<&Id>,
) -> Result<Id, LinkFault>
    requires at { course.old ≡ record { lane = lane.now; store = objects.old; stop = None } }
    ensures at { course.new ≡ record { lane = lane.now; store = objects.new; stop = course.new.stop } }
    ensures does { UploadsBy tree.now (option_map (λ id. id.now) base.entry) (told_by W.good lane.now objects.old) (told_by W.good lane.now objects.new) result }
    ensures counted { IsTreeCounted course.new.stop bad_trees.new }
    ensures trees { TreesBy tree.now (option_map (λ id. id.now) base.entry) (told_by W.good lane.now objects.old) (told_by W.good lane.now objects.new) bad_trees.old bad_trees.new result }
{
    course.know();
    match upload(alloc, objects, tree, base) {
        Ok(id) => {
            course.follow(lane, objects);
            Ok(id)
        }
        Err(fault) => Err(unput(lane, objects, course, bad_trees, fault)),
    }
}

// What is kept of a tree that wasn't put, and what is answered.
fn unput<K: Keeper, O: Objects, W: Begun>(
    lane: &Lane<K>,
    objects: &ToldObjects<O>,
    course: &mut Course<K, O, W>,
    bad_trees: &mut u64,
    fault: StoreFault,
) -> LinkFault
    requires { IsAlong W.good W.began W.before (record { lane = lane.now; store = objects.now; stop = kept_of_store fault }) }
    ensures at { course.new ≡ record { lane = lane.now; store = objects.now; stop = kept_of_store fault } }
    ensures answer { result ≡ link_fault fault }
    ensures trees { CountsTree fault bad_trees.old bad_trees.new }
{
    match fault {
        StoreFault::Clash { id, kept, new } => {
            course.follow(lane, objects);
            LinkFault::Clash { id, kept, new }
        }
        StoreFault::NoMemory => {
            course.follow(lane, objects);
            LinkFault::NoMemory
        }
        StoreFault::StoreFailed(note) => {
            let fault = StoreFault::StoreFailed(note);
            course.fail(lane, objects, LentFault::Store(fault));
            LinkFault::Failed
        }
        refused => {
            *bad_trees = bad_trees.saturating_add(1);
            course.fail(lane, objects, LentFault::Store(refused));
            LinkFault::Failed
        }
    }
}
