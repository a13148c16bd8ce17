// Queues by their names: the free items of each, and who holds the others.
ghost use Rattle.std.specs.Prelude.{◌≡◌, List, ℕ, is_some, true, OnOk, OnErr};
ghost use Rattle.std.specs.Ordering.{nat_cmp};
ghost use Rattle.std.specs.BTreeMap.{get};
ghost use Rattle.std.specs.List.Sorted.{IsStrictlySortedBy};
ghost use Rattle.fluid_tasks.specs.Past.{first, is_text};
ghost use Rattle.fluid_tasks.specs.Kept.{SameNames, Makes, Changes, at, IsEmptyQueue, IsSameQueue, IsAdded, IsGiven, IsTakenBack, IsFinished, free_at, held_at, is_returned, IsBack, AreBack};

use crate::line::Line;
use crate::tasks::Item;
use fluid_json::NoMemory;
use fluid_types::ClientId;
use std::alloc::Global;
use std::collections::{BTreeMap, BTreeSet};

/// A queue: its free items, and who holds the others.
#[derive(Drop)]
pub(crate) struct Queue {
    pub(crate) line: Line,
    // The holders by the numbers of the items. No more items are held than the line has out.
    pub(crate) held: BTreeMap<u64, ClientId>,
}

impl Queue {
    fn new(alloc: Global) -> Queue
        ensures { IsEmptyQueue result }
    {
        Queue {
            line: Line::new(alloc),
            held: BTreeMap::new(alloc),
        }
    }

    fn is_held_by(&self, item: u64, client: &str) -> bool
        ensures { result ≡ is_text (get nat_cmp self.now.held item) client.now }
    {
        match self.held.get(&item) {
            Some(holder) => holder.as_str() == client,
            None => false,
        }
    }

    fn add(&mut self, item: u64) -> Result<(), NoMemory>
        ensures added { OnOk result (IsAdded item self.old self.new) }
        ensures unchanged { OnErr result (self.new ≡ self.old) }
    {
        self.line.add(item)
    }

    fn give(&mut self, item: u64, client: ClientId) -> Result<(), NoMemory>
        ensures given { OnOk result (IsGiven item client self.old self.new) }
        ensures unchanged { OnErr result (IsSameQueue self.old self.new) }
    {
        drop(self.held.insert(item, client)?);
        self.line.give();
        Ok(())
    }

    fn take_back(&mut self, item: u64)
        ensures { IsTakenBack item self.old self.new }
    {
        drop(self.held.remove(&item));
        self.line.give_back(item);
    }

    fn finish(&mut self, item: u64)
        ensures { IsFinished item self.old self.new }
    {
        drop(self.held.remove(&item));
        self.line.forget();
    }
}

/// Makes an empty queue of this name where there is none.
pub(crate) fn make_queue(
    alloc: Global,
    queues: &mut BTreeMap<String, Queue>,
    name: &str,
) -> Result<(), NoMemory>
    ensures kept { Makes IsEmptyQueue queues.old queues.new }
    ensures made { OnOk result (is_some (at queues.new name.now) ≡ true) }
{
    if queues.contains_key(name) {
        return Ok(());
    }
    let key = String::from_str(alloc, name)?;
    drop(queues.insert(key, Queue::new(alloc))?);
    Ok(())
}

/// Adds a free item to a queue.
pub(crate) fn add_to(
    queues: &mut BTreeMap<String, Queue>,
    name: &str,
    item: u64,
) -> Result<(), NoMemory>
    ensures added { OnOk result (Changes (IsAdded item) name.now queues.old queues.new) }
    ensures unchanged { OnErr result (SameNames queues.old queues.new) }
{
    match queues.get_mut(name) {
        Some(queue) => queue.add(item),
        None => Ok(()),
    }
}

/// The item that is given next.
pub(crate) fn first_free(queues: &BTreeMap<String, Queue>, name: &str) -> Option<u64>
    ensures { result ≡ first (free_at (at queues.now name.now)) }
{
    match queues.get(name) {
        Some(queue) => queue.line.free().first().copied(),
        None => None,
    }
}

/// Gives the first free item of a queue, which is this one, to a client.
pub(crate) fn give(
    queues: &mut BTreeMap<String, Queue>,
    name: &str,
    item: u64,
    client: ClientId,
) -> Result<(), NoMemory>
    ensures given { OnOk result (Changes (IsGiven item client) name.now queues.old queues.new) }
    ensures unchanged { OnErr result (Changes IsSameQueue name.now queues.old queues.new) }
{
    match queues.get_mut(name) {
        Some(queue) => queue.give(item, client),
        None => Ok(()),
    }
}

/// Whether the client holds the item of this queue.
pub(crate) fn is_held_by(
    queues: &BTreeMap<String, Queue>,
    name: &str,
    item: u64,
    client: &str,
) -> bool
    ensures { result ≡ is_text (held_at (at queues.now name.now) item) client.now }
{
    match queues.get(name) {
        Some(queue) => queue.is_held_by(item, client),
        None => false,
    }
}

/// Makes an item of a queue that is held free. Takes no memory.
pub(crate) fn take_back(queues: &mut BTreeMap<String, Queue>, name: &str, item: u64)
    ensures { Changes (IsTakenBack item) name.now queues.old queues.new }
{
    if let Some(queue) = queues.get_mut(name) {
        queue.take_back(item);
    }
}

/// An item of a queue that is held comes no more.
pub(crate) fn finish(queues: &mut BTreeMap<String, Queue>, name: &str, item: u64)
    ensures { Changes (IsFinished item) name.now queues.old queues.new }
{
    if let Some(queue) = queues.get_mut(name) {
        queue.finish(item);
    }
}

/// Makes those of some items free that this client holds, each in its own queue. Takes no memory.
pub(crate) fn take_all_back(
    items: &BTreeMap<u64, Item>,
    queues: &mut BTreeMap<String, Queue>,
    client: &str,
    held: &BTreeSet<u64>,
)
    ensures back { (q : List ℕ) → AreBack (get nat_cmp items.now) client.now q held.now.keys (at queues.old q) (at queues.new q) }
    ensures sorted { IsStrictlySortedBy nat_cmp held.now.keys }
{
    for item in held {
        take_one_back(items, queues, client, *item);
    }
}

fn take_one_back(
    items: &BTreeMap<u64, Item>,
    queues: &mut BTreeMap<String, Queue>,
    client: &str,
    item: u64,
)
    ensures { (q : List ℕ) → IsBack (is_returned (get nat_cmp items.now) client.now q (at queues.old q) item) item (at queues.old q) (at queues.new q) }
{
    let Some(kept) = items.get(&item) else {
        return;
    };
    let name = kept.queue.as_str();
    if is_held_by(queues, name, item, client) {
        take_back(queues, name, item);
    }
}
