ghost use Rattle.std.specs.Prelude.{◌≡◌, ◌++◌, flat_map, string_bytes, IfOk};
ghost use Rattle.fluid_json.specs.Unless.{IsUnless};
ghost use Rattle.std.specs.Prelude.{[], map};
ghost use Rattle.fluid_tree.specs.Names.{first_refused};
ghost use Rattle.fluid_tree.specs.Object.{mode, unless_refused, entry_bytes, sort_key, in_order, with_header, tree_bytes, object_bytes, bytes_answer};
ghost use Rattle.fluid_tree.specs.Sorted.{Stands};

use crate::fault::TreeFault;
use crate::names::first_refused_entry;
use crate::object::{Object, ObjectEntry};
use fluid_json::{Bytes, NoMemory};
use std::alloc::Global;
use std::collections::BTreeMap;

/// The bytes of an object. A tree's entries may be handed in in any order; the bytes have them in theirs.
#[tactic(auto, unfolding(crate::specs::Object::bytes_answer, crate::specs::Object::object_bytes))]
pub fn object_bytes(alloc: Global, object: &Object) -> Result<Bytes, TreeFault>
    ensures { IsUnless TreeFault.NoMemory result (bytes_answer object.now) }
{
    match object {
        Object::Blob(content) => {
            let bytes = blob_bytes(alloc, content.as_slice())?;
            Ok(Bytes::new(bytes))
        }
        Object::Tree(entries) => checked_tree_bytes(alloc, entries.as_slice()),
    }
}

/// The bytes of a blob's object.
#[tactic(auto, unfolding(crate::specs::Object::object_bytes))]
pub fn blob_bytes(alloc: Global, content: &[u8]) -> Result<Vec<u8>, NoMemory>
    ensures { IfOk result (λ bytes. bytes.items ≡ object_bytes (Object.Blob content.now)) }
{
    let bytes = with_header(alloc, "blob", content)?;
    Ok(bytes)
}

fn checked_tree_bytes(alloc: Global, entries: &[ObjectEntry]) -> Result<Bytes, TreeFault>
    ensures { IsUnless TreeFault.NoMemory result (unless_refused (first_refused [] (map (λ e. e.name) entries.now)) (tree_bytes entries.now)) }
{
    let refused = first_refused_entry(alloc, entries)?;
    match refused {
        Some(name) => Err(TreeFault::BadName(name)),
        None => {
            let bytes = tree_bytes(alloc, entries)?;
            Ok(Bytes::new(bytes))
        }
    }
}

/// The bytes of a tree's object, of entries whose names aren't refused. They may be handed in in any order.
#[tactic(auto, unfolding(crate::specs::Object::tree_bytes))]
pub fn tree_bytes(alloc: Global, entries: &[ObjectEntry]) -> Result<Vec<u8>, NoMemory>
    ensures { IfOk result (λ bytes. bytes.items ≡ tree_bytes entries.now) }
{
    let sorted = sorted(alloc, entries)?;
    let body = joined(alloc, sorted)?;
    let bytes = with_header(alloc, "tree", body.as_slice())?;
    Ok(bytes)
}

#[tactic(auto, unfolding(crate::specs::Object::with_header))]
fn with_header(alloc: Global, word: &str, body: &[u8]) -> Result<Vec<u8>, NoMemory>
    ensures { IfOk result (λ bytes. bytes.items ≡ with_header word.now body.now) }
{
    let mut digits = itoa::Buffer::new();
    let mut bytes = Vec::with_capacity(alloc, body.len().saturating_add(32))?;
    bytes.extend_from_slice(word.as_bytes())?;
    bytes.push(b' ')?;
    bytes.extend_from_slice(digits.format(body.len()).as_bytes())?;
    bytes.push(0)?;
    bytes.extend_from_slice(body)?;
    Ok(bytes)
}

// The bytes of each entry at the key by which it is compared.
fn sorted(alloc: Global, entries: &[ObjectEntry]) -> Result<BTreeMap<String, Vec<u8>>, NoMemory>
    ensures { IfOk result (λ sorted. Stands sorted.entries (in_order entries.now)) }
{
    let mut sorted = BTreeMap::new(alloc);
    for entry in entries {
        let key = sort_key(alloc, entry)?;
        let bytes = entry_bytes(alloc, entry)?;
        drop(sorted.insert(key, bytes)?);
    }
    Ok(sorted)
}

fn joined(alloc: Global, sorted: BTreeMap<String, Vec<u8>>) -> Result<Vec<u8>, NoMemory>
    ensures { IfOk result (λ body. body.items ≡ flat_map (λ e. e.1.items) sorted.entries) }
{
    let mut body = Vec::new(alloc);
    for (key, bytes) in sorted {
        drop(key);
        body.extend_from_slice(bytes.as_slice())?;
    }
    Ok(body)
}

/// The key by which an entry is compared: its name, and for a tree a `/` behind it.
pub fn sort_key(alloc: Global, entry: &ObjectEntry) -> Result<String, NoMemory>
    ensures { IfOk result (λ key. string_bytes key ≡ sort_key entry.now.tree entry.now.name) }
{
    let mut key = String::from_str(alloc, entry.name.as_str())?;
    if entry.tree {
        key.push_str("/")?;
    }
    Ok(key)
}

#[tactic(auto, unfolding(crate::specs::Object::entry_bytes))]
fn entry_bytes(alloc: Global, entry: &ObjectEntry) -> Result<Vec<u8>, NoMemory>
    ensures { IfOk result (λ bytes. bytes.items ≡ entry_bytes entry.now) }
{
    let mut bytes = Vec::new(alloc);
    bytes.extend_from_slice(mode(entry.tree))?;
    bytes.push(b' ')?;
    bytes.extend_from_slice(entry.name.as_str().as_bytes())?;
    bytes.push(0)?;
    bytes.extend_from_slice(entry.id.as_bytes())?;
    Ok(bytes)
}

fn mode(tree: bool) -> &'static [u8]
    ensures { result.now ≡ mode tree }
{
    if tree { b"40000" } else { b"100644" }
}
