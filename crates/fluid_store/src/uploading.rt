//! Puts objects one after the other, and a whole summary tree.
ghost use Rattle.std.specs.Prelude.{◌≡◌, IfOk, Option, option_map};
ghost use Rattle.fluid_io.specs.Causes.{Tells};
ghost use Rattle.fluid_store.specs.Fetching.{Answers, Reads};
ghost use Rattle.fluid_store.specs.Following.{known_if};
ghost use Rattle.fluid_store.specs.Keeping.{Counts, Stores};
ghost use Rattle.fluid_store.specs.Parts.{earlier_if, part_over};
ghost use Rattle.fluid_store.specs.Putting.{putting, IsPutting};
ghost use Rattle.fluid_store.specs.Uploading.{IsEarlier, IsSizedIf, Lists, StandsResolved, Uploads};
ghost use Rattle.fluid_tree.specs.Summary.{Summary};

use crate::following::{Earlier, earlier_at};
use crate::keeping::keep;
use crate::laws::what_is_resolved_stands;
use crate::listing::{Part, StoredObject, list_node};
use crate::{Objects, StoreFault};
use fluid_tree::{Id, MOST_TREES, Node};
use std::alloc::Global;

/// Puts the objects of a summary tree, and answers its id. Those of a tree's nodes are put, in the order of its
/// entries, before the tree's own; an object that is held is never changed. A handle stands for what its path leads to in the
/// earlier tree with the id `base`, for which nothing is put; where there is none, or its path leads nowhere, that is `NoPath`.
/// The tree is looked at whole before the first object is put, so its own first fault leaves the store alone.
pub fn upload<O: Objects>(
    alloc: Global,
    objects: &mut O,
    node: &Node,
    base: Option<&Id>,
) -> Result<Id, StoreFault>
    ensures counts { Counts (O.seen objects.old) (O.seen objects.new) }
    ensures does { Uploads (option_map (λ id. id.now) base.entry) node.now (O.seen objects.old) (O.seen objects.new) result }
    ensures stands { IfOk result (λ id. Tells (O.seen objects.old).content (λ held. (earlier : Option Summary) →
        IsEarlier held (option_map (λ id. id.now) base.entry) earlier → Tells (O.seen objects.new).content (λ now. StandsResolved now earlier node.now id))) }
{
    what_is_resolved_stands();
    known_size(base);
    let part = list_over(alloc, objects, base, node)?;
    store_objects(alloc, objects, part.objects.as_slice())?;
    Ok(part.place.id)
}

// The id of an earlier tree has 20 bytes.
fn known_size(base: Option<&Id>)
    ensures { IsSizedIf (option_map (λ id. id.now) base.entry) }
{
    if let Some(id) = base {
        id.as_bytes();
    }
}

// The part of a tree over an earlier one.
fn list_over<O: Objects>(
    alloc: Global,
    objects: &mut O,
    base: Option<&Id>,
    node: &Node,
) -> Result<Part, StoreFault>
    ensures reads { Reads (O.seen objects.old) (O.seen objects.new) }
    ensures says { Lists (λ held. part_over held (option_map (λ id. id.now) base.entry) node.now) (O.seen objects.old) (O.seen objects.new) result }
{
    let earlier = earlier_if(alloc, objects, base)?;
    list_node(alloc, objects, &earlier, MOST_TREES, node)
}

fn earlier_if<O: Objects>(
    alloc: Global,
    objects: &mut O,
    base: Option<&Id>,
) -> Result<Option<Earlier>, StoreFault>
    ensures reads { Reads (O.seen objects.old) (O.seen objects.new) }
    ensures says { Answers (λ held. earlier_if held (option_map (λ id. id.now) base.entry)) (O.seen objects.old) (O.seen objects.new) (known_if result) }
{
    match base {
        Some(id) => {
            let earlier = earlier_at(alloc, objects, id)?;
            Ok(Some(earlier))
        }
        None => Ok(None),
    }
}

/// Puts these objects, one after the other, each under its id, or finds it there, and ends at the first fault. An object that is
/// held is never changed: where other bytes are held under an id, that is a `Clash`. Those before it stay.
pub fn store_objects<O: Objects>(
    alloc: Global,
    objects: &mut O,
    list: &[StoredObject],
) -> Result<(), StoreFault>
    ensures counts { Counts (O.seen objects.old) (O.seen objects.new) }
    ensures does { Stores list.now (O.seen objects.old) (O.seen objects.new) result }
    ensures puts { Tells (O.seen objects.old).content (λ held.
        IsPutting (putting held list.now) (O.seen objects.new).content result) }
{
    for object in list {
        keep(alloc, objects, &object.id, object.bytes.as_slice())?;
    }
    Ok(())
}
