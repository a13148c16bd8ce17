//! Reads a summary tree back.
ghost use Rattle.std.specs.Prelude.{◌≡◌, ◌≤◌, IfOk};
ghost use Rattle.fluid_json.specs.Unless.{IsUnless};
ghost use Rattle.fluid_io.specs.Causes.{Tells};
ghost use Rattle.fluid_tree.specs.Reading.{object_read};
ghost use Rattle.fluid_tree.specs.Summary.{depth};
ghost use Rattle.fluid_store.specs.Standing.{Stands};
ghost use Rattle.fluid_store.specs.Fetching.{Answers, Finds, Reads, child_by, fetched, misread, node_within, read_as, tree_by};

use crate::keeping::look;
use crate::laws::what_is_fetched_stands;
use crate::{Objects, StoreFault};
use fluid_tree::{Entries, Id, MOST_TREES, Node, Object, ObjectEntry, TreeFault, read_object};
use std::alloc::Global;

/// The node that stands under the id, with all below it. Entries are looked at in their order, each with all below it
/// before the next, and the first fault is the answer. An object that several entries name is read for each of them.
pub fn fetch<O: Objects>(alloc: Global, objects: &mut O, id: &Id) -> Result<Node, StoreFault>
    ensures reads { Reads (O.seen objects.old) (O.seen objects.new) }
    ensures says { Answers (λ held. fetched held 32 id.now) (O.seen objects.old) (O.seen objects.new) result }
    ensures stands { IfOk result (λ node. Tells (O.seen objects.old).content (λ held. Stands held id.now node × (depth node ≤ 32))) }
{
    what_is_fetched_stands();
    let object = find(alloc, objects, id)?;
    node_of(alloc, objects, object, MOST_TREES)
}

// The object under an id.
pub(crate) fn find<O: Objects>(
    alloc: Global,
    objects: &mut O,
    id: &Id,
) -> Result<Object, StoreFault>
    ensures { Finds id.now (O.seen objects.old) (O.seen objects.new) result }
{
    let found = look(alloc, objects, id)?;
    match found {
        None => Err(StoreFault::Missing(*id)),
        Some(bytes) => read_under(alloc, id, bytes.as_slice()),
    }
}

// The object that the bytes under an id are.
fn read_under(alloc: Global, id: &Id, bytes: &[u8]) -> Result<Object, StoreFault>
    ensures { IsUnless StoreFault.NoMemory result (read_as id.now (object_read bytes.now)) }
{
    match read_object(alloc, bytes) {
        Ok(object) => Ok(object),
        Err(fault) => Err(misread(id, fault)),
    }
}

// The fault of bytes under an id that aren't an object.
fn misread(id: &Id, fault: TreeFault) -> StoreFault
    ensures { result ≡ misread id.now fault }
{
    match fault {
        TreeFault::BadObject(place) => StoreFault::BadObject(*id, place),
        TreeFault::NoMemory => StoreFault::NoMemory,
        other => StoreFault::Tree(other),
    }
}

// The node whose own object this is, where so many more trees may stand inside one another.
#[cycle(nodes)]
fn node_of<O: Objects>(
    alloc: Global,
    objects: &mut O,
    object: Object,
    levels: usize,
) -> Result<Node, StoreFault>
    ensures reads { Reads (O.seen objects.old) (O.seen objects.new) }
    ensures says { Answers (λ held. node_within held levels object) (O.seen objects.old) (O.seen objects.new) result }
{
    match object {
        Object::Blob(content) => Ok(Node::blob(content)),
        Object::Tree(entries) => {
            if levels == 0 {
                return Err(StoreFault::Tree(TreeFault::TooDeep));
            }
            tree_of(alloc, objects, entries.as_slice(), levels - 1)
        }
    }
}

// The tree of the entries' nodes.
#[cycle(nodes)]
fn tree_of<O: Objects>(
    alloc: Global,
    objects: &mut O,
    entries: &[ObjectEntry],
    levels: usize,
) -> Result<Node, StoreFault>
    ensures reads { Reads (O.seen objects.old) (O.seen objects.new) }
    ensures says { Answers (λ held. tree_by (child_by held (node_within held levels)) entries.now) (O.seen objects.old) (O.seen objects.new) result }
{
    let mut nodes = Entries::new(alloc);
    for entry in entries {
        let node = child_of(alloc, objects, entry, levels)?;
        let name = entry.name.copy(alloc)?;
        nodes.push(name, node)?;
    }
    Ok(Node::tree(nodes))
}

// The node of an entry, whose object is of the kind that the entry's mode says.
#[cycle(nodes)]
fn child_of<O: Objects>(
    alloc: Global,
    objects: &mut O,
    entry: &ObjectEntry,
    levels: usize,
) -> Result<Node, StoreFault>
    ensures reads { Reads (O.seen objects.old) (O.seen objects.new) }
    ensures says { Answers (λ held. child_by held (node_within held levels) entry.now) (O.seen objects.old) (O.seen objects.new) result }
{
    let object = find(alloc, objects, &entry.id)?;
    if object.is_tree() != entry.tree {
        return Err(StoreFault::BadObject(entry.id, 0));
    }
    node_of(alloc, objects, object, levels)
}
