// The objects of a version.
ghost use Rattle.std.specs.Prelude.{◌≡◌, IfOk, map};
ghost use Rattle.fluid_tree.specs.Summary.{children};
ghost use Rattle.fluid_tree.specs.Object.{object_bytes};
ghost use Rattle.fluid_tree.specs.declared.object.Object.{Object as AnObject};
ghost use Rattle.fluid_rules.specs.Scribe.{blob_entry};
ghost use Rattle.fluid_store.specs.Listed.{object_of};
ghost use Rattle.fluid_versions.specs.Versions.{blobs_in, content_of, contents, version_objects};

use fluid_json::{NoMemory, Text};
use fluid_scribe::version_entries;
use fluid_store::StoredObject;
use fluid_tree::{Id, Node, ObjectEntries, ObjectEntry, blob_bytes, tree_bytes};
use std::alloc::Global;

// The objects of the version with this tree as `.app` and this one as `.protocol`, in the order in which they are put.
pub(crate) fn list_objects(
    alloc: Global,
    app: &Id,
    state: &Node,
) -> Result<Vec<StoredObject>, NoMemory>
    ensures { IfOk result (λ objects. objects.items ≡ version_objects app.now (blobs_in state.now)) }
{
    let nodes = nodes_of(state);
    let mut objects = blobs_of(alloc, nodes)?;
    let own = tree_of(alloc, &entries_of(alloc, nodes)?)?;
    let version = tree_of(alloc, &version_entries(alloc, *app, own.id)?)?;
    objects.push(own)?;
    objects.push(version)?;
    Ok(objects)
}

// The nodes of a tree.
fn nodes_of(state: &Node) -> &[(Text, Node)]
    ensures { contents (children result.now) ≡ blobs_in state.now }
{
    match state.as_tree() {
        Some(nodes) => nodes,
        None => &[],
    }
}

// The content of a blob.
fn content_of(node: &Node) -> &[u8]
    ensures { result.now ≡ content_of node.now }
{
    match node.as_blob() {
        Some(content) => content,
        None => &[],
    }
}

// The object of each blob.
fn blobs_of(alloc: Global, nodes: &[(Text, Node)]) -> Result<Vec<StoredObject>, NoMemory>
    ensures { IfOk result (λ objects. objects.items ≡ map (λ b. object_of (object_bytes (AnObject.Blob b.1))) (contents (children nodes.now))) }
{
    let mut objects = Vec::new(alloc);
    for (_, node) in nodes {
        let object = blob_of(alloc, node)?;
        objects.push(object)?;
    }
    Ok(objects)
}

fn blob_of(alloc: Global, node: &Node) -> Result<StoredObject, NoMemory>
    ensures { IfOk result (λ object. object ≡ object_of (object_bytes (AnObject.Blob (content_of node.now)))) }
{
    let bytes = blob_bytes(alloc, content_of(node))?;
    Ok(StoredObject::of(bytes))
}

// The entries of the tree of these blobs.
fn entries_of(alloc: Global, nodes: &[(Text, Node)]) -> Result<ObjectEntries, NoMemory>
    ensures { IfOk result (λ entries. entries ≡ map blob_entry (contents (children nodes.now))) }
{
    let mut entries = ObjectEntries::new(alloc);
    for (name, node) in nodes {
        let entry = entry_of(alloc, name, node)?;
        entries.push(entry)?;
    }
    Ok(entries)
}

fn entry_of(alloc: Global, name: &Text, node: &Node) -> Result<ObjectEntry, NoMemory>
    ensures { IfOk result (λ entry. entry ≡ blob_entry (name.now, content_of node.now)) }
{
    let bytes = blob_bytes(alloc, content_of(node))?;
    let id = Id::of(bytes.as_slice());
    let name = name.copy(alloc)?;
    Ok(ObjectEntry {
        name,
        tree: false,
        id,
    })
}

// The object of a tree with these entries.
fn tree_of(alloc: Global, entries: &ObjectEntries) -> Result<StoredObject, NoMemory>
    ensures { IfOk result (λ object. object ≡ object_of (object_bytes (AnObject.Tree entries.now))) }
{
    let bytes = tree_bytes(alloc, entries.as_slice())?;
    Ok(StoredObject::of(bytes))
}
