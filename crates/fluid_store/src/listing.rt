//! The objects of a summary tree, in the order in which they are put.
ghost use Rattle.std.specs.Prelude.{◌≡◌, ◌⊎◌, [], ◌∷◌, ◌++◌, IfOk, map, option_map};
ghost use Rattle.fluid_json.specs.Unless.{IsUnless};
ghost use Rattle.fluid_tree.specs.Names.{first_refused};
ghost use Rattle.fluid_tree.specs.Summary.{children, names};
ghost use Rattle.fluid_store.specs.Listed.{object_of, joined, keyed_of};
ghost use Rattle.fluid_store.specs.Following.{known_all};
ghost use Rattle.fluid_store.specs.Fetching.{Reads};
ghost use Rattle.fluid_store.specs.Parts.{blob_part, tree_part, part_within, parts_within, tree_within, leads_in, refusal, unrefused, with_own};
ghost use Rattle.fluid_store.specs.Uploading.{Lists};

use crate::following::{Earlier, Place, at_path};
use crate::{Objects, StoreFault};
use fluid_json::{Bytes, NoMemory, Text};
use fluid_tree::{
    Id, Node, Object, ObjectEntries, ObjectEntry, Path, TreeFault, blob_bytes, object_bytes,
    sort_key, tree_bytes,
};
use std::alloc::Global;
use std::collections::BTreeMap;
use std::marker::Model;

/// An object as a store holds it: its bytes under its id.
#[derive(Drop)]
pub struct StoredObject {
    pub id: Id,
    pub bytes: Bytes,
}

impl StoredObject {
    /// The object with these bytes, under the id that they have. Takes no memory.
    pub fn of(bytes: Vec<u8>) -> StoredObject
        ensures { result ≡ object_of bytes.items }
    {
        let id = Id::of(bytes.as_slice());
        StoredObject {
            id,
            bytes: Bytes::new(bytes),
        }
    }
}

/// Objects, one behind the other.
#[derive(Drop)]
pub(crate) struct StoredObjects {
    vec: Vec<StoredObject>,
}

impl Model for StoredObjects {
    ghost use Rattle.std.specs.Prelude.{List};
    ghost use Rattle.fluid_store.specs.declared.listing.StoredObject.{StoredObject as Stored};

    ghost Value = { List Stored };

    ghost view = { λ o. o.vec.items };
}

impl StoredObjects {
    fn from_vec(vec: Vec<StoredObject>) -> StoredObjects
        ensures { result ≡ vec.items }
    {
        StoredObjects { vec }
    }

    pub(crate) fn as_slice(&self) -> &[StoredObject]
        ensures { result.now ≡ self.now }
    {
        self.vec.as_slice()
    }

    fn into_vec(self) -> Vec<StoredObject>
        ensures { result.items ≡ self }
    {
        let StoredObjects { vec } = self;
        vec
    }
}

/// What stands for a node in the tree above it, and the objects that are put for it.
#[derive(Drop)]
pub(crate) struct Part {
    pub(crate) place: Place,
    pub(crate) objects: StoredObjects,
}

/// The parts of a tree's nodes, under their names.
#[derive(Drop)]
pub(crate) struct Parts {
    vec: Vec<(Text, Part)>,
}

impl Model for Parts {
    ghost use Rattle.fluid_store.specs.Parts.{Named};

    ghost Value = { Named };

    ghost view = { λ p. p.vec.items };
}

impl Parts {
    fn new(alloc: Global) -> Parts
        ensures { result ≡ [] }
    {
        Parts {
            vec: Vec::new(alloc),
        }
    }

    fn push(&mut self, name: Text, part: Part) -> Result<(), NoMemory>
        ensures { IfOk result (λ _. self.new ≡ self.old ++ (name, part) ∷ []) }
    {
        self.vec.push((name, part))?;
        Ok(())
    }

    fn into_vec(self) -> Vec<(Text, Part)>
        ensures { result.items ≡ self }
    {
        let Parts { vec } = self;
        vec
    }
}

// ---- nodes

/// The part of a node, where so many more trees may stand inside one another.
#[cycle(listing)]
pub(crate) fn list_node<O: Objects>(
    alloc: Global,
    objects: &mut O,
    earlier: &Option<Earlier>,
    levels: usize,
    node: &Node,
) -> Result<Part, StoreFault>
    ensures reads { Reads (O.seen objects.old) (O.seen objects.new) }
    ensures says { Lists (λ held. part_within (leads_in held (option_map known_all earlier.now)) levels node.now) (O.seen objects.old) (O.seen objects.new) result }
{
    if let Some(nodes) = node.as_tree() {
        if levels == 0 {
            return Err(StoreFault::Tree(TreeFault::TooDeep));
        }
        return list_tree(alloc, objects, earlier, levels - 1, nodes);
    }
    if let Some(path) = node.as_handle() {
        return list_handle(alloc, objects, earlier, path);
    }
    let part = list_blob(alloc, node.as_blob().unwrap_or(&[]))?;
    Ok(part)
}

// A tree's names are looked at before its nodes.
#[cycle(listing)]
fn list_tree<O: Objects>(
    alloc: Global,
    objects: &mut O,
    earlier: &Option<Earlier>,
    levels: usize,
    nodes: &[(Text, Node)],
) -> Result<Part, StoreFault>
    ensures reads { Reads (O.seen objects.old) (O.seen objects.new) }
    ensures says { Lists (λ held. tree_within (leads_in held (option_map known_all earlier.now)) levels (children nodes.now)) (O.seen objects.old) (O.seen objects.new) result }
{
    check_names(alloc, nodes)?;
    let parts = list_nodes(alloc, objects, earlier, levels, nodes)?;
    let part = joined_part(alloc, parts)?;
    Ok(part)
}

#[cycle(listing)]
fn list_nodes<O: Objects>(
    alloc: Global,
    objects: &mut O,
    earlier: &Option<Earlier>,
    levels: usize,
    nodes: &[(Text, Node)],
) -> Result<Parts, StoreFault>
    ensures reads { Reads (O.seen objects.old) (O.seen objects.new) }
    ensures says { Lists (λ held. parts_within (leads_in held (option_map known_all earlier.now)) levels (children nodes.now)) (O.seen objects.old) (O.seen objects.new) result }
{
    let mut parts = Parts::new(alloc);
    for (name, node) in nodes {
        let part = list_node(alloc, objects, earlier, levels, node)?;
        let name = name.copy(alloc)?;
        parts.push(name, part)?;
    }
    Ok(parts)
}

// The part of a handle: nothing is put for it.
fn list_handle<O: Objects>(
    alloc: Global,
    objects: &mut O,
    earlier: &Option<Earlier>,
    path: &[Text],
) -> Result<Part, StoreFault>
    ensures reads { Reads (O.seen objects.old) (O.seen objects.new) }
    ensures says { Lists (λ held. leads_in held (option_map known_all earlier.now) path.now) (O.seen objects.old) (O.seen objects.new) result }
{
    let Some(earlier) = earlier else {
        return Err(no_path(alloc, path));
    };
    let Some(place) = at_path(alloc, objects, earlier, path)? else {
        return Err(no_path(alloc, path));
    };
    Ok(Part {
        place,
        objects: StoredObjects::from_vec(Vec::new(alloc)),
    })
}

// The fault of a handle that leads nowhere.
fn no_path(alloc: Global, path: &[Text]) -> StoreFault
    ensures { (result ≡ StoreFault.NoMemory) ⊎ (result ≡ StoreFault.NoPath path.now) }
{
    match copied(alloc, path) {
        Ok(names) => StoreFault::NoPath(Path::from_vec(names)),
        Err(NoMemory) => StoreFault::NoMemory,
    }
}

fn copied(alloc: Global, names: &[Text]) -> Result<Vec<Text>, NoMemory>
    ensures { IfOk result (λ copies. copies.items ≡ names.now) }
{
    let mut copies = Vec::with_capacity(alloc, names.len())?;
    for name in names {
        let name = name.copy(alloc)?;
        copies.push(name)?;
    }
    Ok(copies)
}

// ---- one object

fn list_blob(alloc: Global, content: &[u8]) -> Result<Part, NoMemory>
    ensures { IfOk result (λ part. part ≡ blob_part content.now) }
{
    let bytes = blob_bytes(alloc, content)?;
    with_own(false, Vec::new(alloc), bytes)
}

// The part of a tree with these parts.
fn joined_part(alloc: Global, parts: Parts) -> Result<Part, NoMemory>
    ensures { IfOk result (λ part. part ≡ tree_part parts) }
{
    let parts = parts.into_vec();
    let mut entries = Vec::with_capacity(alloc, parts.len())?;
    let mut below = BTreeMap::new(alloc);
    for (name, part) in parts {
        let Part { place, objects } = part;
        let entry = ObjectEntry {
            name,
            tree: place.tree,
            id: place.id,
        };
        let key = sort_key(alloc, &entry)?;
        drop(below.insert(key, objects)?);
        entries.push(entry)?;
    }
    let objects = joined(alloc, below)?;
    let bytes = tree_bytes(alloc, entries.as_slice())?;
    with_own(true, objects, bytes)
}

// One list behind the other.
fn joined(
    alloc: Global,
    below: BTreeMap<String, StoredObjects>,
) -> Result<Vec<StoredObject>, NoMemory>
    ensures { IfOk result (λ all. all.items ≡ joined (keyed_of below.entries)) }
{
    let mut all = Vec::new(alloc);
    for (key, objects) in below {
        drop(key);
        let mut part = objects.into_vec();
        all.append(&mut part)?;
    }
    Ok(all)
}

// A node's own object behind those of the nodes in it.
fn with_own(tree: bool, below: Vec<StoredObject>, bytes: Vec<u8>) -> Result<Part, NoMemory>
    ensures { IfOk result (λ part. part ≡ with_own tree below.items bytes.items) }
{
    let mut objects = below;
    let own = StoredObject::of(bytes);
    let id = own.id;
    objects.push(own)?;
    Ok(Part {
        place: Place { tree, id },
        objects: StoredObjects::from_vec(objects),
    })
}

// ---- names

// Names that the object of a tree may have. The object is made without its nodes, for its names alone.
fn check_names(alloc: Global, nodes: &[(Text, Node)]) -> Result<(), StoreFault>
    ensures { IsUnless StoreFault.NoMemory result (unrefused (first_refused [] (names (children nodes.now)))) }
{
    let entries = bare_entries(alloc, nodes)?;
    match object_bytes(alloc, &Object::Tree(entries)) {
        Ok(bytes) => {
            drop(bytes);
            Ok(())
        }
        Err(fault) => Err(refusal(fault)),
    }
}

fn refusal(fault: TreeFault) -> StoreFault
    ensures { result ≡ refusal fault }
{
    match fault {
        TreeFault::NoMemory => StoreFault::NoMemory,
        other => StoreFault::Tree(other),
    }
}

// Entries of these names.
fn bare_entries(alloc: Global, nodes: &[(Text, Node)]) -> Result<ObjectEntries, NoMemory>
    ensures { IfOk result (λ entries. map (λ e. e.name) entries ≡ names (children nodes.now)) }
{
    let mut entries = ObjectEntries::new(alloc);
    for (name, _) in nodes {
        let name = name.copy(alloc)?;
        entries.push(ObjectEntry {
            name,
            tree: false,
            id: Id::new([0; 20]),
        })?;
    }
    Ok(entries)
}
