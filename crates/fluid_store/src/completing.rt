//! Whether all of a summary tree is held.
ghost use Rattle.std.specs.Prelude.{◌≡◌, ◌+◌, ◌*◌, ◌≤◌, ◌&&◌, Bool, List, ℕ, IfOk, IfErr};
ghost use Rattle.std.specs.FinMap.{len};
ghost use Rattle.std.specs.List.{list_all};
ghost use Rattle.fluid_io.specs.Causes.{Tells};
ghost use Rattle.fluid_store.specs.Fetching.{Reads};
ghost use Rattle.fluid_store.specs.Complete.{CompleteSays, FindsEntries, LevelSays, ids_of};

use crate::fetching::find;
use crate::{Objects, StoreFault};
use fluid_tree::{Id, MOST_TREES, Object, ObjectEntries, ObjectEntry};
use std::alloc::Global;
use std::collections::BTreeSet;

/// How many levels of ids there may be: those of trees inside one another, and the blobs below them.
const MOST_LEVELS: usize = MOST_TREES + 1;

/// Whether the object under the id and all objects below it are held in the grammar, at most 32 trees inside one another.
/// Modes aren't looked at. It goes level by level, with a set of ids for each, and ends at a level without ids.
pub fn complete<O: Objects>(alloc: Global, objects: &mut O, id: &Id) -> Result<bool, StoreFault>
    ensures reads { Reads (O.seen objects.old) (O.seen objects.new) }
    ensures says { CompleteSays id.now (O.seen objects.old) (O.seen objects.new) result }
    ensures gets { Tells (O.seen objects.old).content (λ held. (O.seen objects.new).gets ≤ (O.seen objects.old).gets + 33 * (len held + 1)) }
{
    let mut level = BTreeSet::new(alloc);
    level.insert(*id)?;
    for above in 0..MOST_LEVELS {
        let Some(next) = look_through(alloc, objects, level, MOST_LEVELS - 1 - above)? else {
            return Ok(false);
        };
        if next.is_empty() {
            return Ok(true);
        }
        level = next;
    }
    Ok(true)
}

// The ids below those of one level, where so many more trees may stand inside one another; none where not all under
// one of them is held.
fn look_through<O: Objects>(
    alloc: Global,
    objects: &mut O,
    level: BTreeSet<Id>,
    trees: usize,
) -> Result<Option<BTreeSet<Id>>, StoreFault>
    ensures reads { Reads (O.seen objects.old) (O.seen objects.new) }
    ensures says { LevelSays trees level.keys (O.seen objects.old) (O.seen objects.new) result }
    ensures gets { Tells (O.seen objects.old).content (λ held. (O.seen objects.new).gets ≤ (O.seen objects.old).gets + (len held + 1)) }
{
    let mut next = BTreeSet::new(alloc);
    for id in level {
        let Some(entries) = entries_at(alloc, objects, &id, trees)? else {
            return Ok(None);
        };
        add_ids(&mut next, entries.as_slice())?;
    }
    Ok(Some(next))
}

// The entries of the object under an id, none of a blob; no answer where it isn't held in the grammar, or is one tree
// too many.
fn entries_at<O: Objects>(
    alloc: Global,
    objects: &mut O,
    id: &Id,
    trees: usize,
) -> Result<Option<ObjectEntries>, StoreFault>
    ensures { FindsEntries trees id.now (O.seen objects.old) (O.seen objects.new) result }
{
    match find(alloc, objects, id) {
        Ok(Object::Blob(_)) => Ok(Some(ObjectEntries::new(alloc))),
        Ok(Object::Tree(entries)) => {
            if trees == 0 {
                return Ok(None);
            }
            Ok(Some(entries))
        }
        Err(StoreFault::Missing(_)) => Ok(None),
        Err(StoreFault::BadObject(_, _)) => Ok(None),
        Err(StoreFault::Tree(_)) => Ok(None),
        Err(fault) => Err(fault),
    }
}

// Adds the ids of the entries.
fn add_ids(ids: &mut BTreeSet<Id>, entries: &[ObjectEntry]) -> Result<(), StoreFault>
    ensures ids { IfOk result (λ _. (test : List ℕ → Bool) → list_all test ids.new.keys ≡ (list_all test ids.old.keys && list_all test (ids_of entries.now))) }
    ensures fault { IfErr result (λ fault. fault ≡ StoreFault.NoMemory) }
{
    for entry in entries {
        ids.insert(entry.id)?;
    }
    Ok(())
}
