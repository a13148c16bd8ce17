// The channels that the tree of a summary keeps.
ghost use Rattle.std.specs.Prelude.{◌≡◌, ◌⊎◌, IfOk, IfErr, IfSome, OnOk, option_map, Ok, Err};
ghost use Rattle.fluid_json.specs.Unless.{IsUnless};
ghost use Rattle.fluid_tree.specs.Summary.{children, as_children};
ghost use Rattle.fluid_types.specs.Names.{IsName};
ghost use Rattle.fluid_types.specs.declared.fault.BlobFault.TheVariants.{NoMemory as no_memory, BadBlob as bad_blob};
ghost use Rattle.fluid_runtime.specs.AppTree.{path, find_child, kind_in, channel_in, content_in, next, channel_answer, entry_answer, answer};
ghost use Rattle.fluid_runtime.specs.Slots.{channel_of_object, channels_of, AreNamed, IsQuiet, IsSound};
ghost use Rattle.fluid_runtime.specs.Loaded.{read_object, read_slots, content_answer};

use crate::slots::{Object, Slot};
use fluid_counter::SharedCounter;
use fluid_counter::laws::only_content_is_read;
use fluid_edits::ChannelKind;
use fluid_json::{NoMemory, Text};
use fluid_map::SharedMap;
use fluid_table::SortedMap;
use fluid_tree::Node;
use fluid_types::{Address, BlobFault, NameFault, Word};
use std::alloc::Global;

const CONTENT: &str = "content";

const KIND: &str = "kind";

/// The channels of the tree, each as if no edit had counted for it.
#[tactic(auto, unfolding(crate::specs::AppTree::answer))]
pub(crate) fn slots_of(alloc: Global, tree: &Node) -> Result<SortedMap<Text, Slot>, BlobFault>
    ensures answer { IsUnless BlobFault.NoMemory (read_slots result) (answer tree.now) }
    ensures sound { IfOk result (λ slots. IsSound 0 slots.values) }
    ensures named { IfOk result (λ slots. AreNamed slots.values) }
{
    let Some(entries) = tree.as_tree() else {
        return Err(fault(alloc, ""));
    };
    let mut slots = SortedMap::new(alloc);
    for (name, node) in entries {
        let object = entry_of(alloc, &slots, name.as_str(), node)?;
        let name = name.copy(alloc)?;
        slots.reserve(1)?;
        slots.insert(name, Slot { object, last: 0 });
    }
    Ok(slots)
}

// The object of an entry: a tree named by an address, which has no channel yet.
fn entry_of(
    alloc: Global,
    slots: &SortedMap<Text, Slot>,
    name: &str,
    node: &Node,
) -> Result<Object, BlobFault>
    ensures answer { IsUnless BlobFault.NoMemory (read_object result) (entry_answer (channels_of slots.now.values) name.now node.now) }
    ensures quiet { IfOk result (IsQuiet 0) }
    ensures name { OnOk result (IsName name.now) }
{
    if slots.get(name).is_some() {
        return Err(fault(alloc, name));
    }
    match Address::read(alloc, name) {
        Ok(_) => {}
        Err(NameFault::NoMemory) => return Err(BlobFault::NoMemory),
        Err(NameFault::BadName) => return Err(fault(alloc, name)),
    }
    match node.as_tree() {
        Some(parts) => object_of(alloc, name, parts),
        None => Err(fault(alloc, name)),
    }
}

// The object of a channel's subtree: its content, its kind, and nothing else.
fn object_of(alloc: Global, address: &str, parts: &[(Text, Node)]) -> Result<Object, BlobFault>
    ensures answer { IsUnless BlobFault.NoMemory (read_object result) (channel_answer address.now (children parts.now)) }
    ensures quiet { IfOk result (IsQuiet 0) }
{
    let (content, rest) = next(alloc, address, CONTENT, parts)?;
    let kind = find_child(rest, KIND).and_then(kind_in);
    let object = content_at(alloc, address, kind, content)?;
    let (node, rest) = next(alloc, address, KIND, rest)?;
    if kind_in(node).is_none() {
        return Err(fault_at(alloc, address, KIND));
    }
    match rest.first() {
        Some((name, _)) => Err(fault_at(alloc, address, name.as_str())),
        None => Ok(object),
    }
}

// The object that the node of the content says.
fn content_at(
    alloc: Global,
    address: &str,
    kind: Option<ChannelKind>,
    node: &Node,
) -> Result<Object, BlobFault>
    ensures answer { IsUnless BlobFault.NoMemory (read_object result) (content_answer address.now kind node.now) }
    ensures quiet { IfOk result (IsQuiet 0) }
{
    let Some(bytes) = node.as_blob() else {
        return Err(fault_at(alloc, address, CONTENT));
    };
    let Some(object) = content_in(alloc, kind, bytes)? else {
        return Err(fault_at(alloc, address, CONTENT));
    };
    Ok(object)
}

// The entry of the wanted name, which is the next, and those behind it.
fn next<'a>(
    alloc: Global,
    address: &str,
    wanted: &str,
    parts: &'a [(Text, Node)],
) -> Result<(&'a Node, &'a [(Text, Node)]), BlobFault>
    ensures next { IfOk result (λ r. next address.now wanted.now (children parts.now) ≡ Ok (r.0.now, children r.1.now)) }
    ensures fault { IfErr result (λ fault. (fault ≡ no_memory) ⊎ (next address.now wanted.now (children parts.now) ≡ Err fault)) }
{
    let Some(((name, node), rest)) = parts.split_first() else {
        return Err(fault_at(alloc, address, wanted));
    };
    if name.as_str() == wanted {
        return Ok((node, rest));
    }
    if name.as_str() < wanted {
        return Err(fault_at(alloc, address, name.as_str()));
    }
    Err(fault_at(alloc, address, wanted))
}

fn find_child<'a>(parts: &'a [(Text, Node)], name: &str) -> Option<&'a Node>
    ensures { option_map (λ node. node.now) result ≡ find_child name.now (children parts.now) }
{
    for (own, node) in parts {
        if own.as_str() == name {
            return Some(node);
        }
    }
    None
}

fn kind_in(node: &Node) -> Option<ChannelKind>
    ensures { result ≡ kind_in node.now }
{
    let word = node.as_blob()?;
    if word == ChannelKind::Map.word().as_bytes() {
        return Some(ChannelKind::Map);
    }
    if word == ChannelKind::Counter.word().as_bytes() {
        return Some(ChannelKind::Counter);
    }
    None
}

// ---- contents

// The object that a content of this kind says; where no kind is said, any content is in its form.
fn content_in(
    alloc: Global,
    kind: Option<ChannelKind>,
    content: &[u8],
) -> Result<Option<Object>, NoMemory>
    ensures object { IfOk result (λ object. option_map channel_of_object object ≡ content_in kind content.now) }
    ensures quiet { IfOk result (λ object. IfSome object (IsQuiet 0)) }
{
    match kind {
        Some(ChannelKind::Map) => map_in(alloc, content),
        Some(ChannelKind::Counter) => counter_in(alloc, content),
        None => Ok(Some(Object::fresh(alloc, ChannelKind::Map))),
    }
}

fn map_in(alloc: Global, content: &[u8]) -> Result<Option<Object>, NoMemory>
    ensures object { IfOk result (λ object. option_map channel_of_object object ≡ channel_in ChannelKind.Map content.now) }
    ensures quiet { IfOk result (λ object. IfSome object (IsQuiet 0)) }
{
    match SharedMap::from_blob(alloc, content) {
        Ok(map) => Ok(Some(Object::Map(map))),
        Err(BlobFault::NoMemory) => Err(NoMemory),
        Err(BlobFault::BadBlob(_)) => Ok(None),
    }
}

fn counter_in(alloc: Global, content: &[u8]) -> Result<Option<Object>, NoMemory>
    ensures object { IfOk result (λ object. option_map channel_of_object object ≡ channel_in ChannelKind.Counter content.now) }
    ensures quiet { IfOk result (λ object. IfSome object (IsQuiet 0)) }
{
    // (a law, and no work: its clause is for the proof)
    only_content_is_read();
    match SharedCounter::from_blob(alloc, content) {
        Ok(counter) => Ok(Some(Object::Counter(counter))),
        Err(BlobFault::NoMemory) => Err(NoMemory),
        Err(BlobFault::BadBlob(_)) => Ok(None),
    }
}

// ---- faults

fn fault(alloc: Global, path: &str) -> BlobFault
    ensures { (result ≡ no_memory) ⊎ (result ≡ bad_blob path.now) }
{
    match Text::copied(alloc, path) {
        Ok(path) => BlobFault::BadBlob(path),
        Err(NoMemory) => BlobFault::NoMemory,
    }
}

fn fault_at(alloc: Global, address: &str, name: &str) -> BlobFault
    ensures { (result ≡ no_memory) ⊎ (result ≡ bad_blob (path address.now name.now)) }
{
    match format!(in alloc; "{address}/{name}") {
        Ok(path) => BlobFault::BadBlob(Text::new(path)),
        Err(_) => BlobFault::NoMemory,
    }
}
