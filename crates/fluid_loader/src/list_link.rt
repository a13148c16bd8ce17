//! A link over a list of messages, objects in memory, and the answers that submissions are to get.
ghost use Rattle.std.specs.Prelude.{IsTrue, [], ◌∷◌, ◌≡◌, ◌<◌, ◌≤◌, ◌^◌, ◌-◌, List, OnOk, OnErr, ◌++◌, map, option_map, IfOk};
ghost use Rattle.fluid_tree.specs.Summary.{children};
ghost use Rattle.fluid_types.specs.declared.messages.Message.{Message};
ghost use Rattle.fluid_loader.specs.Link.{count_all, count_handles, one_if_handle};
ghost use Rattle.fluid_loader.specs.Listed.{IsCounted, IsTail, PutInto, link_fault};

use crate::acknowledging::picked_in;
use crate::laws::picked_numbers_are_within;
use crate::{Given, Link, LinkFault, Order, Pick};
use fluid_io::FaultPlan;
use fluid_json::{Bytes, NoMemory, Text};
use fluid_store::{MemoryObjects, ObjectFault, Objects, StoreFault, upload};
use fluid_tree::{Id, Node, SummaryRef};
use fluid_types::{ClientId, Message, Messages, Submission};
use std::alloc::Global;
use std::collections::VecDeque;

/// A link that tells its order and its objects, and no ledger.
#[derive(Drop)]
pub struct ListLink {
    pub client: ClientId,
    pub order: Order,
    pub objects: MemoryObjects,
    /// What the next submissions get, oldest first; where none is left they are taken.
    pub answers: VecDeque<Given>,
    /// Which calls fail.
    pub plan: FaultPlan,
    pub refusals: u64,
    /// The numbers of the messages that were fetched.
    pub messages: Vec<u64>,
    /// The ids of the objects that were fetched.
    pub fetched: Vec<Id>,
    /// How many nodes of each uploaded tree were handles.
    pub handles: Vec<u64>,
    /// The submissions that were taken.
    pub taken: Vec<Submission>,
}

impl Link for ListLink {
    ghost use Rattle.std.specs.Prelude.{[], Some};
    ghost use Rattle.fluid_loader.specs.Listed.{listed};

    ghost seen = { λ l. record {
      client = l.client;
      moment = 0;
      told = Some (listed l.order l.objects.held);
      faults = l.plan.faults;
      refusals = l.refusals;
      bad_trees = 0;
      messages = l.messages.items;
      objects = l.fetched.items;
      handles = l.handles.items;
      taken = l.taken.items;
    } };

    ghost lent = { λ l. [] };

    fn id(&self) -> &ClientId {
        self.order.as_slice();
        self.objects.gets();
        &self.client
    }

    fn summary(&mut self, _alloc: Global, pick: &Pick) -> Result<Option<SummaryRef>, LinkFault> {
        // (a law, and no work: its clause is for the proof)
        picked_numbers_are_within();
        if self.plan.fails() {
            return Err(LinkFault::Failed);
        }
        Ok(picked_in(self.order.as_slice(), pick))
    }

    fn object(&mut self, alloc: Global, id: &Id) -> Result<Option<Bytes>, LinkFault> {
        if self.plan.fails() {
            return Err(LinkFault::Failed);
        }
        match self.objects.get(alloc, id) {
            Ok(bytes) => match self.fetched.push(*id) {
                Ok(()) => Ok(bytes),
                Err(_) => Err(LinkFault::NoMemory),
            },
            Err(ObjectFault::Failed) => {
                self.plan.count_fault();
                Err(LinkFault::Failed)
            }
            Err(ObjectFault::NoMemory) => Err(LinkFault::NoMemory),
        }
    }

    fn deltas(&mut self, alloc: Global, from: u64) -> Result<Messages, LinkFault> {
        if self.plan.fails() {
            return Err(LinkFault::Failed);
        }
        match tail(alloc, &self.order, from) {
            Ok(messages) => match note(alloc, &mut self.messages, messages.as_slice()) {
                Ok(()) => Ok(Messages::new(messages)),
                Err(NoMemory) => Err(LinkFault::NoMemory),
            },
            Err(NoMemory) => Err(LinkFault::NoMemory),
        }
    }

    fn submit(&mut self, _alloc: Global, submission: Submission) -> Result<Given, LinkFault> {
        if self.plan.fails() {
            return Err(LinkFault::Failed);
        }
        match self.answers.pop_front() {
            Some(Given::Nacked(nack)) => {
                self.refusals = self.refusals.saturating_add(1);
                Ok(Given::Nacked(nack))
            }
            _ => match self.taken.push(submission) {
                Ok(()) => Ok(Given::Taken),
                Err(_) => Err(LinkFault::NoMemory),
            },
        }
    }

    fn upload(&mut self, alloc: Global, tree: &Node, base: Option<&Id>) -> Result<Id, LinkFault> {
        if self.plan.fails() {
            return Err(LinkFault::Failed);
        }
        match put(alloc, &mut self.objects, tree, base) {
            Ok(id) => {
                if keep(&mut self.handles, handles_in(tree)) {
                    return Ok(id);
                }
                Err(LinkFault::NoMemory)
            }
            Err(fault) => Err(counted(&mut self.plan, &mut self.refusals, fault)),
        }
    }

    fn faults(&self) -> u64 {
        self.plan.faults()
    }
}

// ---- messages

// The messages from this number on.
fn tail(alloc: Global, order: &Order, from: u64) -> Result<Vec<Message>, NoMemory>
    requires above { 0 < from }
    requires fits { from ≤ 2 ^ 53 }
    ensures { IfOk result (λ messages. IsTail from order.now messages.items) }
{
    let messages = order.as_slice();
    let count = messages.len();
    let start = start_of(count, from);
    copied(alloc, &messages[start..])
}

// How many of so many messages stand before the one with this number.
fn start_of(count: usize, from: u64) -> usize
    requires above { 0 < from }
    ensures within { result ≤ count }
    ensures before { result ≤ from - 1 }
    ensures end { result < from - 1 → count ≤ result }
{
    let before = (from - 1) as usize;
    if before < count {
        return before;
    }
    count
}

fn copied(alloc: Global, messages: &[Message]) -> Result<Vec<Message>, NoMemory>
    ensures { IfOk result (λ copies. copies.items ≡ messages.now) }
{
    let mut copies = Vec::with_capacity(alloc, messages.len())?;
    for message in messages {
        let copy = message.copy(alloc)?;
        copies.push(copy)?;
    }
    Ok(copies)
}

// Notes the numbers of these messages.
fn note(alloc: Global, numbers: &mut Vec<u64>, messages: &[Message]) -> Result<(), NoMemory>
    ensures noted { OnOk result (numbers.new.items ≡ numbers.old.items ++ map (λ m. m.number) messages.now) }
    ensures unchanged { OnErr result (numbers.new.items ≡ numbers.old.items) }
{
    let mut more = numbers_of(alloc, messages)?;
    numbers.append(&mut more)?;
    Ok(())
}

fn numbers_of(alloc: Global, messages: &[Message]) -> Result<Vec<u64>, NoMemory>
    ensures { IfOk result (λ numbers. numbers.items ≡ map (λ m. m.number) messages.now) }
{
    let mut numbers = Vec::with_capacity(alloc, messages.len())?;
    for message in messages {
        numbers.push(message.number)?;
    }
    Ok(numbers)
}

// ---- objects

// Puts the objects of a tree.
fn put(
    alloc: Global,
    objects: &mut MemoryObjects,
    tree: &Node,
    base: Option<&Id>,
) -> Result<Id, LinkFault>
    ensures { (order : List Message) → PutInto tree.now (option_map (λ id. id.now) base.entry) order objects.old.held objects.new.held result }
{
    match upload(alloc, objects, tree, base) {
        Ok(id) => Ok(id),
        Err(fault) => Err(link_fault(fault)),
    }
}

// Counts a fault of the objects, or a clash as a refusal.
fn counted(plan: &mut FaultPlan, refusals: &mut u64, fault: LinkFault) -> LinkFault
    ensures same { result ≡ fault }
    ensures counted { IsCounted fault plan.old.faults plan.new.faults refusals.old refusals.new }
{
    match fault {
        LinkFault::Failed => {
            plan.count_fault();
            LinkFault::Failed
        }
        LinkFault::Clash { id, kept, new } => {
            *refusals = refusals.saturating_add(1);
            LinkFault::Clash { id, kept, new }
        }
        LinkFault::NoMemory => LinkFault::NoMemory,
    }
}

// The fault of a link for one of its store.
fn link_fault(fault: StoreFault) -> LinkFault
    ensures { result ≡ link_fault fault }
{
    match fault {
        StoreFault::Clash { id, kept, new } => LinkFault::Clash { id, kept, new },
        StoreFault::NoMemory => LinkFault::NoMemory,
        StoreFault::StoreFailed(_) => LinkFault::Failed,
        StoreFault::Missing(_) => LinkFault::Failed,
        StoreFault::BadObject { .. } => LinkFault::Failed,
        StoreFault::Tree(_) => LinkFault::Failed,
        StoreFault::NoPath(_) => LinkFault::Failed,
    }
}

// ---- handles

// Keeps a count behind the others, and answers whether it did.
fn keep(counts: &mut Vec<u64>, count: u64) -> bool
    ensures { IsTrue result → counts.new.items ≡ counts.old.items ++ count ∷ [] }
{
    counts.push(count).is_ok()
}

/// How many of the nodes of a tree are handles. Takes no memory.
pub fn handles_in(tree: &Node) -> u64
    ensures { result ≡ count_handles tree.now }
{
    match tree.as_tree() {
        Some(nodes) => count(nodes),
        None => 0,
    }
}

fn count(nodes: &[(Text, Node)]) -> u64
    ensures { result ≡ count_all (children nodes.now) }
{
    let mut count = 0_u64;
    for (_, node) in nodes {
        count += one_if_handle(node);
    }
    count
}

fn one_if_handle(node: &Node) -> u64
    ensures one { result ≡ one_if_handle node.now }
    ensures most { result ≤ 1 }
{
    if node.as_handle().is_some() {
        return 1;
    }
    0
}
