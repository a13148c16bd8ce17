// What each client holds and stands for. All of it is noted; what is noted may also be so no more.
ghost use Rattle.std.specs.Prelude.{◌≡◌, ◌==◌, ℕ, List, true, false, cond, Some, None, is_some, bytes_eq, string_bytes, OnOk, OnErr};
ghost use Rattle.std.specs.Ordering.{nat_cmp};
ghost use Rattle.std.specs.BTreeMap.{get_by_text};
ghost use Rattle.std.specs.BTreeSet.{contains};
ghost use Rattle.fluid_tasks.specs.Kept.{Makes, IsEmptyHoldings, at, has_item, task_at, KeepsItems, NotesTask, SameClients};

use fluid_json::NoMemory;
use std::alloc::Global;
use std::collections::{BTreeMap, BTreeSet};

/// The items that a client holds, and since which number it stands for which task.
#[derive(Drop)]
pub(crate) struct Holdings {
    pub(crate) items: BTreeSet<u64>,
    pub(crate) tasks: BTreeMap<String, u64>,
}

impl Holdings {
    fn new(alloc: Global) -> Holdings
        ensures { IsEmptyHoldings result }
    {
        Holdings {
            items: BTreeSet::new(alloc),
            tasks: BTreeMap::new(alloc),
        }
    }

    fn note_item(&mut self, item: u64) -> Result<(), NoMemory>
        ensures kept { (n : ℕ) → contains nat_cmp self.old.items n ≡ true → contains nat_cmp self.new.items n ≡ true }
        ensures tasks { self.new.tasks ≡ self.old.tasks }
        ensures noted { OnOk result (contains nat_cmp self.new.items item ≡ true) }
    {
        self.items.insert(item)?;
        Ok(())
    }

    fn forget_item(&mut self, item: u64)
        ensures items { (n : ℕ) → (item == n) ≡ false → contains nat_cmp self.new.items n ≡ contains nat_cmp self.old.items n }
        ensures tasks { self.new.tasks ≡ self.old.tasks }
    {
        self.items.remove(&item);
    }

    fn note_task(&mut self, task: String, number: u64) -> Result<(), NoMemory>
        ensures items { self.new.items ≡ self.old.items }
        ensures noted { OnOk result ((u : List ℕ) → get_by_text self.new.tasks u ≡ cond (bytes_eq (string_bytes task) u) (Some number) (get_by_text self.old.tasks u)) }
        ensures unchanged { OnErr result ((u : List ℕ) → get_by_text self.new.tasks u ≡ get_by_text self.old.tasks u) }
    {
        drop(self.tasks.insert(task, number)?);
        Ok(())
    }

    fn forget_task(&mut self, task: &str)
        ensures items { self.new.items ≡ self.old.items }
        ensures forgotten { (u : List ℕ) → get_by_text self.new.tasks u ≡ cond (bytes_eq task.now u) None (get_by_text self.old.tasks u) }
    {
        drop(self.tasks.remove(task));
    }
}

// Makes a place for what a client holds and stands for.
fn make_holdings(
    alloc: Global,
    clients: &mut BTreeMap<String, Holdings>,
    client: &str,
) -> Result<(), NoMemory>
    ensures kept { Makes IsEmptyHoldings clients.old clients.new }
    ensures made { OnOk result (is_some (at clients.new client.now) ≡ true) }
{
    if clients.contains_key(client) {
        return Ok(());
    }
    let key = String::from_str(alloc, client)?;
    drop(clients.insert(key, Holdings::new(alloc))?);
    Ok(())
}

/// Notes that a client holds an item.
pub(crate) fn note_item(
    alloc: Global,
    clients: &mut BTreeMap<String, Holdings>,
    client: &str,
    item: u64,
) -> Result<(), NoMemory>
    ensures kept { SameClients clients.old clients.new }
    ensures noted { OnOk result (has_item (at clients.new client.now) item ≡ true) }
{
    make_holdings(alloc, clients, client)?;
    note_item_of(clients, client, item)
}

fn note_item_of(
    clients: &mut BTreeMap<String, Holdings>,
    client: &str,
    item: u64,
) -> Result<(), NoMemory>
    ensures kept { SameClients clients.old clients.new }
    ensures noted { is_some (at clients.old client.now) ≡ true → OnOk result (has_item (at clients.new client.now) item ≡ true) }
{
    match clients.get_mut(client) {
        Some(holdings) => holdings.note_item(item),
        None => Ok(()),
    }
}

/// An item is held by this client no more.
pub(crate) fn forget_item(clients: &mut BTreeMap<String, Holdings>, client: &str, item: u64)
    ensures { KeepsItems client.now item clients.old clients.new }
{
    if let Some(holdings) = clients.get_mut(client) {
        holdings.forget_item(item);
    }
}

/// Since which number a client stands for a task, where that is noted.
pub(crate) fn noted_task(
    clients: &BTreeMap<String, Holdings>,
    client: &str,
    task: &str,
) -> Option<u64>
    ensures { result ≡ task_at (at clients.now client.now) task.now }
{
    let holdings = clients.get(client)?;
    holdings.tasks.get(task).copied()
}

/// Notes that a client stands for a task since this number.
pub(crate) fn note_task(
    alloc: Global,
    clients: &mut BTreeMap<String, Holdings>,
    client: &str,
    task: &str,
    number: u64,
) -> Result<(), NoMemory>
    ensures noted { OnOk result (NotesTask client.now task.now (Some number) clients.old clients.new) }
    ensures unchanged { OnErr result (SameClients clients.old clients.new) }
{
    make_holdings(alloc, clients, client)?;
    let key = String::from_str(alloc, task)?;
    note_task_of(clients, client, key, number)
}

fn note_task_of(
    clients: &mut BTreeMap<String, Holdings>,
    client: &str,
    task: String,
    number: u64,
) -> Result<(), NoMemory>
    ensures noted { is_some (at clients.old client.now) ≡ true → OnOk result (NotesTask client.now (string_bytes task) (Some number) clients.old clients.new) }
    ensures unchanged { OnErr result (SameClients clients.old clients.new) }
{
    match clients.get_mut(client) {
        Some(holdings) => holdings.note_task(task, number),
        None => Ok(()),
    }
}

/// A client stands for a task no more.
pub(crate) fn forget_task(clients: &mut BTreeMap<String, Holdings>, client: &str, task: &str)
    ensures { NotesTask client.now task.now None clients.old clients.new }
{
    if let Some(holdings) = clients.get_mut(client) {
        holdings.forget_task(task);
    }
}
