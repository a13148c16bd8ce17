// The tree of a version: what the application asked for, and the order's state.
ghost use Rattle.std.specs.Prelude.{◌≡◌, [], ◌∷◌, Ok, IfOk, codes};
ghost use Rattle.fluid_types.specs.Quorum.{Quorum as AQuorum};
ghost use Rattle.fluid_types.specs.Blobs.{blobs_of};
ghost use Rattle.fluid_tree.specs.Identity.{id_answer};
ghost use Rattle.fluid_tree.specs.Object.{bytes_answer};
ghost use Rattle.fluid_rules.specs.Scribe.{protocol, tree_entry, version};
ghost use Rattle.fluid_scribe.specs.Versions.{IsState, HasId, HasBytes};

use fluid_json::{Bytes, NoMemory, Text};
use fluid_quorum::Quorum;
use fluid_tree::{Id, Node, Object, ObjectEntries, ObjectEntry, TreeFault, id_of, object_bytes};
use std::alloc::Global;

/// The four blobs of a quorum.
pub(crate) fn protocol_of(alloc: Global, quorum: &Quorum) -> Result<Node, NoMemory>
    ensures { IfOk result (λ tree. tree ≡ protocol (blobs_of quorum.now)) }
{
    let state = quorum.to_blobs(alloc)?;
    Ok(state)
}

/// The id of a version: that of the tree of `.app`, with this id, and `.protocol`, which is this tree.
pub(crate) fn version(alloc: Global, app: Id, state: &Node) -> Result<Id, NoMemory>
    requires { IsState state.now }
    ensures { (q : AQuorum) → state.now ≡ protocol (blobs_of q) → IfOk result (λ id. id ≡ version app (blobs_of q)) }
{
    let state = id_of_tree(alloc, state)?;
    let entries = version_entries(alloc, app, state)?;
    let bytes = bytes_of(alloc, &Object::Tree(entries))?;
    Ok(Id::of(bytes.as_slice()))
}

// The id of a tree that has one: none of its names is refused, and it has no handle.
fn id_of_tree(alloc: Global, tree: &Node) -> Result<Id, NoMemory>
    requires { HasId tree.now }
    ensures { IfOk result (λ id. id_answer tree.now ≡ Ok id) }
{
    match id_of(alloc, tree) {
        Ok(id) => Ok(id),
        Err(TreeFault::NoMemory) => Err(NoMemory),
        Err(_) => unreachable!(),
    }
}

// The bytes of an object that has some: none of its names is refused.
fn bytes_of(alloc: Global, object: &Object) -> Result<Bytes, NoMemory>
    requires { HasBytes object.now }
    ensures { IfOk result (λ bytes. bytes_answer object.now ≡ Ok bytes) }
{
    match object_bytes(alloc, object) {
        Ok(bytes) => Ok(bytes),
        Err(TreeFault::NoMemory) => Err(NoMemory),
        Err(_) => unreachable!(),
    }
}

/// The entries of the tree of a version: the tree of the app and that of the quorum, by their ids.
pub fn version_entries(alloc: Global, app: Id, state: Id) -> Result<ObjectEntries, NoMemory>
    ensures { IfOk result (λ entries. entries ≡ tree_entry (codes ".app") app ∷ tree_entry (codes ".protocol") state ∷ []) }
{
    let mut entries = ObjectEntries::new(alloc);
    let name = Text::copied(alloc, ".app")?;
    entries.push(ObjectEntry {
        name,
        tree: true,
        id: app,
    })?;
    let name = Text::copied(alloc, ".protocol")?;
    entries.push(ObjectEntry {
        name,
        tree: true,
        id: state,
    })?;
    Ok(entries)
}
