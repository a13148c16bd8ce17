// The tree in which a summary keeps channels.
ghost use Rattle.std.specs.Prelude.{◌≡◌, ◌++◌, [], ◌∷◌, Ok, IfOk, OnOk};
ghost use Rattle.fluid_tree.specs.Summary.{blob, handle};
ghost use Rattle.fluid_runtime.specs.AppTree.{content_of, channel_node, app_tree, tree_since, answer, AreBounded, IsReadAsItself};
ghost use Rattle.fluid_runtime.specs.Slots.{channel_of_object, channels_of, changed_of, is_changed, node_at, AreNamed};

use crate::slots::{Object, Slot};
use fluid_json::{Bytes, NoMemory, Text};
use fluid_table::SortedMap;
use fluid_tree::{Entries as Nodes, Node, Path};
use fluid_types::Word;
use std::alloc::Global;

/// The tree of these channels.
pub(crate) fn tree_of(alloc: Global, slots: &SortedMap<Text, Slot>) -> Result<Node, NoMemory>
    ensures tree { IfOk result (λ node. node ≡ app_tree (channels_of slots.now.values)) }
    ensures reads_back { IfOk result (λ node. AreNamed slots.now.values → AreBounded (channels_of slots.now.values) →
        answer node ≡ Ok (channels_of slots.now.values)) }
{
    let slice = slots.as_slice();
    let mut nodes = Nodes::new(alloc);
    for (address, slot) in slice {
        let name = address.copy(alloc)?;
        let node = channel_node(alloc, &slot.object)?;
        nodes.push(name, node)?;
    }
    Ok(Node::tree(nodes))
}

/// The tree of these channels in which one that hasn't changed since the mark is a handle of its address.
pub(crate) fn tree_since(
    alloc: Global,
    slots: &SortedMap<Text, Slot>,
    mark: Option<u128>,
) -> Result<Node, NoMemory>
    ensures { IfOk result (λ node. node ≡ tree_since (changed_of mark slots.now.values) (channels_of slots.now.values)) }
{
    let slice = slots.as_slice();
    let mut nodes = Nodes::new(alloc);
    for (address, slot) in slice {
        let name = address.copy(alloc)?;
        let node = node_at(alloc, mark, address, slot)?;
        nodes.push(name, node)?;
    }
    Ok(Node::tree(nodes))
}

// The node of a channel in such a tree.
fn node_at(alloc: Global, mark: Option<u128>, address: &Text, slot: &Slot) -> Result<Node, NoMemory>
    ensures { IfOk result (λ node. node ≡ node_at mark address.now slot.now) }
{
    if is_changed(slot, mark) {
        channel_node(alloc, &slot.object)
    } else {
        handle_of(alloc, address)
    }
}

/// Whether an edit behind the mark has counted for the channel; without a mark it has.
fn is_changed(slot: &Slot, mark: Option<u128>) -> bool
    ensures { result ≡ is_changed mark slot.now }
{
    match mark {
        Some(mark) => mark < slot.last,
        None => true,
    }
}

fn handle_of(alloc: Global, address: &Text) -> Result<Node, NoMemory>
    ensures { IfOk result (λ node. node ≡ handle (address.now ∷ [])) }
{
    let name = address.copy(alloc)?;
    let mut names = Vec::with_capacity(alloc, 1)?;
    names.push(name)?;
    Ok(Node::handle(Path::from_vec(names)))
}

fn channel_node(alloc: Global, object: &Object) -> Result<Node, NoMemory>
    ensures node { IfOk result (λ node. node ≡ channel_node (channel_of_object object.now)) }
    ensures reads_back { OnOk result (IsReadAsItself (channel_of_object object.now)) }
{
    let content = content_of(alloc, object)?;
    let kind = Bytes::copied(alloc, object.kind().word().as_bytes())?;
    let mut nodes = Nodes::new(alloc);
    put_blob(alloc, &mut nodes, "content", content)?;
    put_blob(alloc, &mut nodes, "kind", kind)?;
    Ok(Node::tree(nodes))
}

fn content_of(alloc: Global, object: &Object) -> Result<Bytes, NoMemory>
    ensures content { IfOk result (λ blob. blob ≡ content_of (channel_of_object object.now)) }
    ensures reads_back { OnOk result (IsReadAsItself (channel_of_object object.now)) }
{
    match object {
        Object::Map(map) => map.to_blob(alloc),
        Object::Counter(counter) => counter.to_blob(alloc),
    }
}

fn put_blob(alloc: Global, nodes: &mut Nodes, name: &str, content: Bytes) -> Result<(), NoMemory>
    ensures { OnOk result (nodes.new ≡ nodes.old ++ (name.now, blob content) ∷ []) }
{
    let name = Text::copied(alloc, name)?;
    nodes.push(name, Node::blob(content))?;
    Ok(())
}
