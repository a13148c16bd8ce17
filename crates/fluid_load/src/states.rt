//! The id of a container's channels.
ghost use Rattle.std.specs.Prelude.{◌≡◌, IfOk, Ok};
ghost use Rattle.std.specs.FinMap.{get};
ghost use Rattle.fluid_tree.specs.Identity.{id_answer};
ghost use Rattle.fluid_transcript.specs.World.{World};
ghost use Rattle.fluid_transcript.specs.Containers.{app_id};
ghost use Rattle.fluid_workload.specs.Summary.{channels_of};
ghost use Rattle.fluid_world.specs.Standing.{IsNamed};

use fluid_containers::Holder;
use fluid_json::NoMemory;
use fluid_steps::ScriptName;
use fluid_tree::{Entries, Id, Node, TreeFault, id_of};
use fluid_world::Names;
use std::alloc::Global;

/// The id of the app tree of a container; of the empty one where the name is no container's.
pub(crate) fn state(alloc: Global, names: &Names, name: &ScriptName) -> Result<Id, NoMemory>
    ensures { (w : World) → IsNamed w (get names.now.table.values name.now) (get w.names name.now) → IfOk result (λ id. id ≡ app_id (channels_of w (get w.names name.now))) }
{
    if names.refusal_as_container(name).is_some() {
        let nothing = Node::tree(Entries::new(alloc));
        return tree_id(alloc, &nothing);
    }
    state_of(alloc, names.holder(name))
}

fn state_of(alloc: Global, holder: &Holder) -> Result<Id, NoMemory>
    ensures { IfOk result (λ id. id ≡ app_id holder.now.container.channels) }
{
    let tree = holder.container.tree(alloc)?;
    tree_id(alloc, &tree)
}

fn tree_id(alloc: Global, tree: &Node) -> Result<Id, NoMemory>
    ensures { IfOk result (λ id. id_answer tree.now ≡ Ok id) }
{
    match id_of(alloc, tree) {
        Ok(id) => Ok(id),
        Err(fault) => Err(wanting(fault)),
    }
}

// An app tree has an id.
fn wanting(_fault: TreeFault) -> NoMemory {
    NoMemory
}
