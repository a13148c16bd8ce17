//! A link over a lane and a store of objects that are lent.
ghost use Rattle.std.specs.Prelude.{◌≡◌, ◌++◌, ◌∷◌, [], ◌<◌, ◌^◌, None, List, map, OnOk, OnErr, IfOk};
ghost use Rattle.std.specs.Coded.{Coded-set};
ghost use Rattle.fluid_types.specs.declared.messages.Message.{Message};
ghost use Rattle.fluid_tree.specs.Summary.{children};
ghost use Rattle.fluid_lane.specs.Standing.{Standing};
ghost use Rattle.fluid_store.specs.Storing.{Storing};
ghost use Rattle.fluid_door_link.specs.Coursing.{Along, along_code, IsAlong};
ghost use Rattle.fluid_door_link.specs.Failing.{IsTreeCounted};

use crate::answers::{answered, counted, few, note, picked};
use crate::calling::{enter, get, put, read};
use crate::course::{Begun, Course};
use crate::handles::keep;
use crate::notes::Notes;
use crate::told_objects::ToldObjects;
use fluid_json::{Bytes, NoMemory};
use fluid_lane::Lane;
use fluid_loader::laws::picked_numbers_are_within;
use fluid_loader::{Given, Link, LinkFault, Pick, handles_in};
use fluid_log::Keeper;
use fluid_orders::orders_are_told;
use fluid_store::Objects;
use fluid_tree::{Id, Node, SummaryRef};
use fluid_types::{ClientId, Messages, NackRule, Raw, Submission};
use fluid_voice::front_nack;
use std::alloc::Global;

/// One client's way to a document whose lane is lent, at one moment, in milliseconds. It counts each fault of the lane and of the store
/// but want of memory; the course keeps it, and no call is made behind it. All that owns memory is lent, too: what a generic struct
/// leaves behind its references isn't known where it owns something.
#[derive(Drop)]
pub struct DoorLink<'a, K: Keeper, O: Objects, W: Begun> {
    pub moment: u64,
    pub lane: &'a mut Lane<K>,
    pub objects: &'a mut ToldObjects<O>,
    pub course: &'a mut Course<K, O, W>,
    pub notes: &'a mut Notes,
    pub faults: u64,
    pub refusals: u64,
    /// How many trees what is held refused.
    pub bad_trees: u64,
    pub ghost in_time: { moment < 2 ^ 53 },
    pub ghost at: { course.now ≡ record { lane = lane.now; store = objects.now; stop = course.now.stop } } by { Coded-set along_code course.now (record { lane = lane.now; store = objects.now; stop = course.now.stop }) },
    pub ghost trees: { IsTreeCounted course.now.stop bad_trees },
}

impl<'a, K: Keeper, O: Objects, W: Begun> DoorLink<'a, K, O, W> {
    /// A link by which nothing was done yet. Takes no memory.
    pub fn new(
        moment: u64,
        lane: &'a mut Lane<K>,
        objects: &'a mut ToldObjects<O>,
        course: &'a mut Course<K, O, W>,
        notes: &'a mut Notes,
    ) -> DoorLink<'a, K, O, W>
        requires moment { moment < 2 ^ 53 }
        requires at { course.old ≡ record { lane = lane.old; store = objects.old; stop = None } }
        ensures moment { result.moment ≡ moment }
        ensures lane { (result.lane.ghost_name ≡ lane.entry.ghost_name) × (result.lane.now ≡ lane.old) }
        ensures objects { (result.objects.ghost_name ≡ objects.entry.ghost_name) × (result.objects.now ≡ objects.old) }
        ensures course { (result.course.ghost_name ≡ course.entry.ghost_name) × (result.course.now ≡ course.old) }
        ensures notes { (result.notes.ghost_name ≡ notes.entry.ghost_name) × (result.notes.now ≡ notes.old) }
        ensures counts { (result.faults ≡ 0) × ((result.refusals ≡ 0) × (result.bad_trees ≡ 0)) }
    {
        DoorLink {
            moment,
            lane,
            objects,
            course,
            notes,
            faults: 0,
            refusals: 0,
            bad_trees: 0,
        }
    }

    /// What became of the lane and of the store.
    pub fn know(&self)
        ensures at { self.now.course.now ≡ record { lane = self.now.lane.now; store = self.now.objects.now; stop = self.now.course.now.stop } }
        ensures along { IsAlong W.good W.began W.before self.now.course.now }
        ensures trees { IsTreeCounted self.now.course.now.stop self.now.bad_trees }
    {
        self.course.know();
    }
}

impl<'a, K: Keeper, O: Objects, W: Begun> Link for DoorLink<'a, K, O, W> {
    ghost use Rattle.std.specs.Prelude.{[], ◌∷◌};
    ghost use Rattle.fluid_door_link.specs.Telling.{told_by};

    ghost seen = { λ l. record {
      client = l.notes.now.client;
      moment = l.moment;
      told = told_by W.good l.lane.now l.objects.now;
      faults = l.faults;
      refusals = l.refusals;
      bad_trees = l.bad_trees;
      messages = l.notes.now.messages.items;
      objects = l.notes.now.fetched.items;
      handles = l.notes.now.handles.items;
      taken = l.notes.now.taken.items;
    } };

    ghost lent = { λ l. l.lane.ghost_name ∷ l.objects.ghost_name ∷ l.course.ghost_name ∷ l.notes.ghost_name ∷ [] };

    fn id(&self) -> &ClientId {
        orders_are_told();
        self.course.know();
        self.objects.know();
        &self.notes.client
    }

    fn summary(&mut self, _alloc: Global, pick: &Pick) -> Result<Option<SummaryRef>, LinkFault> {
        if self.course.is_stopped() {
            return Err(LinkFault::NoMemory);
        }
        // (a law, and no work: its clause is for the proof)
        picked_numbers_are_within();
        orders_are_told();
        self.course.know();
        Ok(few(picked(self.lane.acks(), pick)))
    }

    fn object(&mut self, alloc: Global, id: &Id) -> Result<Option<Bytes>, LinkFault> {
        if self.course.is_stopped() {
            return Err(LinkFault::NoMemory);
        }
        match get(alloc, self.lane, self.objects, self.course, id) {
            Ok(bytes) => match self.notes.fetched.push(*id) {
                Ok(()) => Ok(bytes),
                Err(_) => Err(LinkFault::NoMemory),
            },
            Err(fault) => Err(counted(&mut self.faults, &mut self.refusals, fault)),
        }
    }

    fn deltas(&mut self, alloc: Global, from: u64) -> Result<Messages, LinkFault> {
        if self.course.is_stopped() {
            return Err(LinkFault::NoMemory);
        }
        match read(alloc, self.lane, self.objects, self.course, from) {
            Ok(messages) => match note(alloc, &mut self.notes.messages, messages.as_slice()) {
                Ok(()) => Ok(messages),
                Err(NoMemory) => Err(LinkFault::NoMemory),
            },
            Err(fault) => Err(counted(&mut self.faults, &mut self.refusals, fault)),
        }
    }

    fn submit(&mut self, alloc: Global, submission: Submission) -> Result<Given, LinkFault> {
        if self.course.is_stopped() {
            return Err(LinkFault::NoMemory);
        }
        let id = match self.notes.client.copy(alloc) {
            Ok(id) => id,
            Err(NoMemory) => return Err(LinkFault::NoMemory),
        };
        let raw = Raw::Submit {
            id,
            submission,
            moment: self.moment,
        };
        match enter(alloc, self.lane, self.objects, self.course, &raw) {
            Ok(Some(verdict)) => answered(&mut self.refusals, &mut self.notes.taken, raw, verdict),
            Ok(None) => {
                self.refusals = self.refusals.saturating_add(1);
                Ok(Given::Nacked(front_nack(NackRule::Full)))
            }
            Err(fault) => Err(counted(&mut self.faults, &mut self.refusals, fault)),
        }
    }

    fn upload(&mut self, alloc: Global, tree: &Node, base: Option<&Id>) -> Result<Id, LinkFault> {
        if self.course.is_stopped() {
            return Err(LinkFault::NoMemory);
        }
        if !keep(&mut self.notes.handles, handles_in(tree)) {
            return Err(LinkFault::NoMemory);
        }
        match put(
            alloc,
            self.lane,
            self.objects,
            self.course,
            &mut self.bad_trees,
            tree,
            base,
        ) {
            Ok(id) => Ok(id),
            Err(fault) => Err(counted(&mut self.faults, &mut self.refusals, fault)),
        }
    }

    fn faults(&self) -> u64 {
        self.faults
    }
}
