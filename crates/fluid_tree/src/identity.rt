ghost use Rattle.std.specs.Prelude.{◌≡◌, ◌++◌};
ghost use Rattle.fluid_json.specs.Unless.{IsUnless};
ghost use Rattle.fluid_tree.specs.Summary.{children};
ghost use Rattle.fluid_tree.specs.Identity.{id_within, id_answer, blob_id, tree_id, entries_within};
ghost use Rattle.fluid_tree.specs.Listed.{listed};

use crate::fault::TreeFault;
use crate::id::Id;
use crate::names::first_refused_child;
use crate::node::{Kind, Node};
use crate::object::ObjectEntry;
use crate::writing::{blob_bytes, tree_bytes};
use fluid_json::{Bytes, Text};
use std::alloc::Global;

/// How many trees may stand inside one another.
pub const MOST_TREES: usize = 32;

/// The id of a summary tree.
pub fn id_of(alloc: Global, node: &Node) -> Result<Id, TreeFault>
    ensures { IsUnless TreeFault.NoMemory result (id_answer node.now) }
{
    id_within(alloc, node, MOST_TREES)
}

#[cycle(id)]
#[tactic(auto, unfolding(crate::specs::Identity::id_within))]
fn id_within(alloc: Global, node: &Node, levels: usize) -> Result<Id, TreeFault>
    ensures { IsUnless TreeFault.NoMemory result (id_within levels node.now) }
{
    match &node.kind {
        Kind::Blob(content) => blob_id(alloc, content),
        Kind::Handle(path) => {
            let path = path.copy(alloc)?;
            Err(TreeFault::HandleLeft(path))
        }
        Kind::Tree(entries) => {
            if levels == 0 {
                return Err(TreeFault::TooDeep);
            }
            tree_id(alloc, entries.as_slice(), levels - 1)
        }
    }
}

fn blob_id(alloc: Global, content: &Bytes) -> Result<Id, TreeFault>
    ensures { IsUnless TreeFault.NoMemory result (blob_id content.now) }
{
    let bytes = blob_bytes(alloc, content.as_slice())?;
    Ok(Id::of(bytes.as_slice()))
}

#[cycle(id)]
fn tree_id(alloc: Global, entries: &[(Text, Node)], levels: usize) -> Result<Id, TreeFault>
    ensures { IsUnless TreeFault.NoMemory result (tree_id levels (children entries.now)) }
{
    let refused = first_refused_child(alloc, entries)?;
    match refused {
        Some(name) => Err(TreeFault::BadName(name)),
        None => {
            let entries = entries_within(alloc, entries, levels)?;
            let bytes = tree_bytes(alloc, entries.as_slice())?;
            Ok(Id::of(bytes.as_slice()))
        }
    }
}

// The entries of these nodes, each with its id.
#[cycle(id)]
fn entries_within(
    alloc: Global,
    nodes: &[(Text, Node)],
    levels: usize,
) -> Result<Vec<ObjectEntry>, TreeFault>
    ensures { IsUnless TreeFault.NoMemory (listed result) (entries_within levels (children nodes.now)) }
{
    let mut entries = Vec::with_capacity(alloc, nodes.len())?;
    for (name, node) in nodes {
        let id = id_within(alloc, node, levels)?;
        let name = name.copy(alloc)?;
        entries.push(ObjectEntry {
            name,
            tree: node.is_tree(),
            id,
        })?;
    }
    Ok(entries)
}
