// Tasks by their names: the candidates of each, by the numbers since which they stand.
ghost use Rattle.std.specs.Prelude.{◌≡◌, List, ℕ, is_some, true, OnOk, OnErr, option_map};
ghost use Rattle.std.specs.BTreeMap.{get_by_text};
ghost use Rattle.fluid_tasks.specs.Past.{first, is_text};
ghost use Rattle.fluid_tasks.specs.Kept.{SameNames, Makes, Changes, IsEmptyTask, WithCandidate, IsWithout, IsWithoutClient, HasNoCandidates, IsSameTask, candidate_at, entries_at, HasSteppedDown, at};

use fluid_json::NoMemory;
use fluid_types::ClientId;
use std::alloc::Global;
use std::collections::BTreeMap;

/// The candidates of a task by the numbers since which they stand.
pub(crate) type Candidates = BTreeMap<u64, ClientId>;

/// Makes a task of this name without candidates where there is none.
pub(crate) fn make_task(
    alloc: Global,
    tasks: &mut BTreeMap<String, Candidates>,
    name: &str,
) -> Result<(), NoMemory>
    ensures kept { Makes IsEmptyTask tasks.old tasks.new }
    ensures made { OnOk result (is_some (at tasks.new name.now) ≡ true) }
{
    if tasks.contains_key(name) {
        return Ok(());
    }
    let key = String::from_str(alloc, name)?;
    drop(tasks.insert(key, BTreeMap::new(alloc))?);
    Ok(())
}

/// Whether the client stands for the task since this number.
pub(crate) fn stands_since(
    tasks: &BTreeMap<String, Candidates>,
    name: &str,
    number: u64,
    client: &str,
) -> bool
    ensures { result ≡ is_text (candidate_at (at tasks.now name.now) number) client.now }
{
    let Some(candidates) = tasks.get(name) else {
        return false;
    };
    match candidates.get(&number) {
        Some(candidate) => candidate.as_str() == client,
        None => false,
    }
}

/// The holder of a task: its first candidate.
pub(crate) fn holder<'a>(
    tasks: &'a BTreeMap<String, Candidates>,
    name: &str,
) -> Option<&'a ClientId>
    ensures { option_map (λ client. client.now) result ≡ option_map (λ e. e.1) (first (entries_at (at tasks.now name.now))) }
{
    let candidates = tasks.get(name)?;
    let (_number, client) = candidates.first_key_value()?;
    Some(client)
}

/// Whether the client is the holder of a task.
pub(crate) fn is_holder(tasks: &BTreeMap<String, Candidates>, name: &str, client: &str) -> bool
    ensures { result ≡ is_text (option_map (λ e. e.1) (first (entries_at (at tasks.now name.now)))) client.now }
{
    match holder(tasks, name) {
        Some(own) => own.as_str() == client,
        None => false,
    }
}

/// A client stands for a task from this number on.
pub(crate) fn stand(
    tasks: &mut BTreeMap<String, Candidates>,
    name: &str,
    number: u64,
    client: ClientId,
) -> Result<(), NoMemory>
    ensures stands { OnOk result (Changes (WithCandidate number client) name.now tasks.old tasks.new) }
    ensures unchanged { OnErr result (Changes IsSameTask name.now tasks.old tasks.new) }
{
    match tasks.get_mut(name) {
        Some(candidates) => insert(candidates, number, client),
        None => Ok(()),
    }
}

fn insert(candidates: &mut Candidates, number: u64, client: ClientId) -> Result<(), NoMemory>
    ensures stands { OnOk result (WithCandidate number client candidates.old candidates.new) }
    ensures unchanged { OnErr result (IsSameTask candidates.old candidates.new) }
{
    drop(candidates.insert(number, client)?);
    Ok(())
}

// Who stands for a task since this number stands no longer.
fn step_down(tasks: &mut BTreeMap<String, Candidates>, name: &str, number: u64)
    ensures { Changes (IsWithout number) name.now tasks.old tasks.new }
{
    if let Some(candidates) = tasks.get_mut(name) {
        drop(candidates.remove(&number));
    }
}

/// Nobody stands for a task any more.
pub(crate) fn clear(tasks: &mut BTreeMap<String, Candidates>, name: &str)
    ensures { Changes HasNoCandidates name.now tasks.old tasks.new }
{
    if let Some(candidates) = tasks.get_mut(name) {
        candidates.clear();
    }
}

/// A client stands no longer for those of some tasks for which it stands since the number that is noted beside it.
pub(crate) fn step_down_everywhere(
    tasks: &mut BTreeMap<String, Candidates>,
    client: &str,
    noted: &BTreeMap<String, u64>,
)
    ensures { (u : List ℕ) → HasSteppedDown client.now (get_by_text noted.now u) (at tasks.old u) (at tasks.new u) }
{
    for (name, number) in noted {
        step_down_once(tasks, name.as_str(), *number, client);
    }
}

/// A client stands no longer for a task, where it stands since this number.
pub(crate) fn step_down_once(
    tasks: &mut BTreeMap<String, Candidates>,
    name: &str,
    number: u64,
    client: &str,
)
    ensures { Changes (IsWithoutClient client.now number) name.now tasks.old tasks.new }
{
    if stands_since(tasks, name, number, client) {
        step_down(tasks, name, number);
    }
}
