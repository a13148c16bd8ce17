// Summary trees and the objects of Git.
use fluid_json::{Bytes, JsonFault, NoMemory, Text, read};
use fluid_tree::{
    Entries, Id, Node, Object, ObjectEntries, ObjectEntry, Path, TreeFault, from_json, id_of,
    object_bytes, read_object,
};
use std::alloc::Global;

// What went wrong, in a word and what belongs to it.
fn fault_told(alloc: Global, fault: &TreeFault) -> Result<Text, NoMemory> {
    let told = match fault {
        TreeFault::BadName(name) => format!(in alloc; "bad name {}", name.as_str())?,
        TreeFault::TooDeep => String::from_str(alloc, "too deep")?,
        TreeFault::BadObject(place) => format!(in alloc; "bad object at {place}")?,
        TreeFault::HandleLeft(path) => handle_told(alloc, path)?,
        TreeFault::Attachment => String::from_str(alloc, "attachment")?,
        TreeFault::BadForm => String::from_str(alloc, "bad form")?,
        TreeFault::NoMemory => return Err(NoMemory),
    };
    Ok(Text::new(told))
}

// The names of a path, each behind a blank.
fn handle_told(alloc: Global, path: &Path) -> Result<String, NoMemory> {
    let copy = path.copy(alloc)?;
    let mut told = String::from_str(alloc, "handle of")?;
    for name in copy.as_slice() {
        told.push_str(" ")?;
        told.push_str(name.as_str())?;
    }
    Ok(told)
}

// The id of the summary tree that a text spells.
pub(crate) fn told(alloc: Global, text: &str) -> Result<Text, NoMemory> {
    match read(alloc, text) {
        Ok(value) => match from_json(alloc, &value) {
            Ok(node) => id_told(alloc, &node),
            Err(fault) => fault_told(alloc, &fault),
        },
        Err(JsonFault::NoMemory) => Err(NoMemory),
        Err(_) => Text::copied(alloc, "no JSON"),
    }
}

fn id_told(alloc: Global, node: &Node) -> Result<Text, NoMemory> {
    match id_of(alloc, node) {
        Ok(id) => id.print(alloc),
        Err(fault) => fault_told(alloc, &fault),
    }
}

// The id of a blob of these bytes.
pub(crate) fn blob(alloc: Global, bytes: &[u8]) -> Result<Text, NoMemory> {
    let node = Node::blob(Bytes::copied(alloc, bytes)?);
    id_told(alloc, &node)
}

// The id of a tree of empty blobs of these names.
pub(crate) fn named(alloc: Global, names: &str) -> Result<Text, NoMemory> {
    let mut entries = Entries::new(alloc);
    for name in names.split(' ') {
        push_blob(alloc, &mut entries, name)?;
    }
    let node = Node::tree(entries);
    id_told(alloc, &node)
}

fn push_blob(alloc: Global, entries: &mut Entries, name: &str) -> Result<(), NoMemory> {
    let name = Text::copied(alloc, name)?;
    let content = Bytes::copied(alloc, b"")?;
    entries.push(name, Node::blob(content))
}

// The id that a text writes.
pub(crate) fn id(alloc: Global, text: &str) -> Result<Text, NoMemory> {
    match Id::read(text) {
        Some(id) => id.print(alloc),
        None => Text::copied(alloc, "no id"),
    }
}

// What the bytes of an object say.
pub(crate) fn object(alloc: Global, bytes: &[u8]) -> Result<Text, NoMemory> {
    match read_object(alloc, bytes) {
        Ok(Object::Blob(content)) => blob_told(alloc, content.as_slice()),
        Ok(Object::Tree(entries)) => entries_told(alloc, &entries),
        Err(fault) => fault_told(alloc, &fault),
    }
}

fn blob_told(alloc: Global, content: &[u8]) -> Result<Text, NoMemory> {
    let digits = hex::encode(alloc, content)?;
    let told = format!(in alloc; "blob {}", digits.as_str())?;
    Ok(Text::new(told))
}

// The names, with a slash behind that of a tree.
fn entries_told(alloc: Global, entries: &ObjectEntries) -> Result<Text, NoMemory> {
    let mut told = String::from_str(alloc, "tree")?;
    for entry in entries.as_slice() {
        told.push_str(" ")?;
        told.push_str(entry.name.as_str())?;
        told.push_str(if entry.tree { "/" } else { "" })?;
    }
    Ok(Text::new(told))
}

// Whether each prefix of an object's bytes is refused at its end.
pub(crate) fn prefixes(alloc: Global, bytes: &[u8]) -> Result<Text, NoMemory> {
    for length in 0..bytes.len() {
        if place_of(alloc, &bytes[..length]) != Some(length as u64) {
            return Ok(Text::new(format!(in alloc; "not that of {length}")?));
        }
    }
    object(alloc, bytes)
}

fn place_of(alloc: Global, bytes: &[u8]) -> Option<u64> {
    match read_object(alloc, bytes) {
        Err(TreeFault::BadObject(place)) => Some(place),
        _ => None,
    }
}

// The digits of a tree's bytes, with these names: a tree where a slash stands behind it. All have the id of nothing.
pub(crate) fn written(alloc: Global, names: &str) -> Result<Text, NoMemory> {
    let mut entries = ObjectEntries::new(alloc);
    for name in names.split(' ') {
        push_entry(alloc, &mut entries, name)?;
    }
    match object_bytes(alloc, &Object::Tree(entries)) {
        Ok(bytes) => Ok(Text::new(hex::encode(alloc, bytes.as_slice())?)),
        Err(fault) => fault_told(alloc, &fault),
    }
}

fn push_entry(alloc: Global, entries: &mut ObjectEntries, name: &str) -> Result<(), NoMemory> {
    let (bare, tree) = match name.strip_suffix("/") {
        Some(bare) => (bare, true),
        None => (name, false),
    };
    let name = Text::copied(alloc, bare)?;
    entries.push(ObjectEntry {
        name,
        tree,
        id: Id::of(b""),
    })
}
