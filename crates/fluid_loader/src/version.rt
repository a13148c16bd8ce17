//! The version that a summary's handle names: the tree of `.app` and `.protocol`, read object by object.
ghost use Rattle.std.specs.Prelude.{◌≡◌, ◌⊎◌, suc, Ok, IfOk, IfErr, OnOk};
ghost use Rattle.fluid_tree.specs.Summary.{children};
ghost use Rattle.fluid_runtime.specs.App.{loaded};
ghost use Rattle.fluid_store.specs.Standing.{object_at};
ghost use Rattle.fluid_quorum.specs.Reading.{number_in};
ghost use Rattle.fluid_loader.specs.Calls.{FetchesIn, LoadReads, Sees, IsAnswer, IsFault};
ghost use Rattle.fluid_loader.specs.Version.{IsIn, HasId, no_node, as_inner, as_leaf, node_within, nodes_within, under, first_of, next, channels_answer, of_number, quorum_answer, version_answer, id_named, version_at};
ghost use Rattle.fluid_loader.specs.Said.{known, said, channels_said};

use crate::container::failed;
use crate::{Link, LoadFault};
use fluid_json::{NoMemory, Text};
use fluid_quorum::laws::attributes_are_read;
use fluid_quorum::{Quorum, number_in};
use fluid_runtime::App;
use fluid_tree::{
    Entries, Id, Node, Object, ObjectEntry, Path, SummaryRef, TreeFault, read_object,
};
use fluid_types::BlobFault;
use std::alloc::Global;

const APP: &str = ".app";

const PROTOCOL: &str = ".protocol";

// How many trees stand inside one another in a version: itself, `.app`, and a channel.
const LEVELS: usize = 3;

/// What a version says.
#[derive(Drop)]
pub(crate) struct Version {
    pub(crate) app: App,
    pub(crate) quorum: Quorum,
    /// The id of the tree of the channels.
    pub(crate) base: Id,
}

/// The version of a summary. Objects are fetched in the order of the tree, as far as a version's form reaches; one that isn't
/// held or isn't an object stands as a handle, which no form has.
pub(crate) fn read_version<L: Link>(
    alloc: Global,
    link: &mut L,
    summary: &SummaryRef,
) -> Result<Version, LoadFault>
    ensures lent { L.lent link.new ≡ L.lent link.old }
    ensures reads { LoadReads (L.seen link.old) (L.seen link.new) }
    ensures fetched { OnOk result (FetchesIn (λ document one. IsIn document.held 3 one summary.now.handle) (L.seen link.old) (L.seen link.new)) }
    ensures fresh { IfOk result (λ v. (v.app ≡ loaded v.app.channels) × (v.quorum.number ≡ summary.now.number)) }
    ensures sees { Sees (λ held. version_at held summary.now) (L.seen link.old) (L.seen link.new) (known result) }
{
    let Some(Object::Tree(entries)) = object_at(alloc, link, &summary.handle)? else {
        return Err(bad(alloc, "."));
    };
    let nodes = read_nodes(alloc, link, entries.as_slice(), LEVELS - 1)?;
    let (app, quorum) = version_in(alloc, nodes.as_slice(), summary.number)?;
    let base = id_named(entries.as_slice(), APP, summary.handle);
    Ok(Version { app, quorum, base })
}

// The id of the entry of this name.
fn id_named(entries: &[ObjectEntry], name: &str, otherwise: Id) -> Id
    ensures { result ≡ id_named otherwise name.now entries.now }
{
    for entry in entries {
        if entry.name.as_str() == name {
            return entry.id;
        }
    }
    otherwise
}

// ---- objects

// The nodes of entries, where so many more trees may stand inside one another.
#[cycle(nodes)]
fn read_nodes<L: Link>(
    alloc: Global,
    link: &mut L,
    entries: &[ObjectEntry],
    levels: usize,
) -> Result<Entries, LoadFault>
    ensures lent { L.lent link.new ≡ L.lent link.old }
    ensures reads { LoadReads (L.seen link.old) (L.seen link.new) }
    ensures fetched { OnOk result (FetchesIn (λ document one. HasId (IsIn document.held levels one) entries.now) (L.seen link.old) (L.seen link.new)) }
    ensures sees { Sees (λ held. Ok (nodes_within held levels entries.now)) (L.seen link.old) (L.seen link.new) result }
{
    let mut nodes = Entries::new(alloc);
    for entry in entries {
        let node = read_node(alloc, link, entry, levels)?;
        let name = entry.name.copy(alloc)?;
        nodes.push(name, node)?;
    }
    Ok(nodes)
}

// The node of an entry; a handle where there is none in the form of a version.
#[cycle(nodes)]
fn read_node<L: Link>(
    alloc: Global,
    link: &mut L,
    entry: &ObjectEntry,
    levels: usize,
) -> Result<Node, LoadFault>
    ensures lent { L.lent link.new ≡ L.lent link.old }
    ensures reads { LoadReads (L.seen link.old) (L.seen link.new) }
    ensures fetched { OnOk result (FetchesIn (λ document one. IsIn document.held levels one entry.now.id) (L.seen link.old) (L.seen link.new)) }
    ensures sees { Sees (λ held. Ok (node_within held levels entry.now)) (L.seen link.old) (L.seen link.new) result }
{
    if !entry.tree {
        return read_blob(alloc, link, &entry.id);
    }
    if levels == 0 {
        return Ok(no_node(alloc));
    }
    read_tree(alloc, link, &entry.id, levels - 1)
}

// The tree under an id, in which so many more may stand inside one another.
#[cycle(nodes)]
fn read_tree<L: Link>(
    alloc: Global,
    link: &mut L,
    id: &Id,
    levels: usize,
) -> Result<Node, LoadFault>
    ensures lent { L.lent link.new ≡ L.lent link.old }
    ensures reads { LoadReads (L.seen link.old) (L.seen link.new) }
    ensures fetched { OnOk result (FetchesIn (λ document one. IsIn document.held (suc levels) one id.now) (L.seen link.old) (L.seen link.new)) }
    ensures sees { Sees (λ held. Ok (as_inner (node_within held levels) (object_at held id.now))) (L.seen link.old) (L.seen link.new) result }
{
    match object_at(alloc, link, id)? {
        Some(Object::Tree(entries)) => {
            let nodes = read_nodes(alloc, link, entries.as_slice(), levels)?;
            Ok(Node::tree(nodes))
        }
        Some(Object::Blob(_)) => Ok(no_node(alloc)),
        None => Ok(no_node(alloc)),
    }
}

// The blob under an id.
fn read_blob<L: Link>(alloc: Global, link: &mut L, id: &Id) -> Result<Node, LoadFault>
    ensures lent { L.lent link.new ≡ L.lent link.old }
    ensures reads { LoadReads (L.seen link.old) (L.seen link.new) }
    ensures fetched { OnOk result (FetchesIn (λ document one. one ≡ id.now) (L.seen link.old) (L.seen link.new)) }
    ensures sees { Sees (λ held. Ok (as_leaf (object_at held id.now))) (L.seen link.old) (L.seen link.new) result }
{
    match object_at(alloc, link, id)? {
        Some(Object::Blob(content)) => Ok(Node::blob(content)),
        Some(Object::Tree(_)) => Ok(no_node(alloc)),
        None => Ok(no_node(alloc)),
    }
}

fn no_node(alloc: Global) -> Node
    ensures { result ≡ no_node }
{
    Node::handle(Path::from_vec(Vec::new(alloc)))
}

// The object under an id, where one is held there.
fn object_at<L: Link>(alloc: Global, link: &mut L, id: &Id) -> Result<Option<Object>, LoadFault>
    ensures lent { L.lent link.new ≡ L.lent link.old }
    ensures reads { LoadReads (L.seen link.old) (L.seen link.new) }
    ensures fetched { OnOk result (FetchesIn (λ document one. one ≡ id.now) (L.seen link.old) (L.seen link.new)) }
    ensures sees { Sees (λ held. Ok (object_at held id.now)) (L.seen link.old) (L.seen link.new) result }
{
    let before = link.faults();
    let bytes = match link.object(alloc, id) {
        Ok(bytes) => bytes,
        Err(fault) => return Err(failed(link, before, fault)),
    };
    let Some(bytes) = bytes else {
        return Ok(None);
    };
    match read_object(alloc, bytes.as_slice()) {
        Ok(object) => Ok(Some(object)),
        Err(TreeFault::NoMemory) => Err(LoadFault::NoMemory),
        Err(_) => Ok(None),
    }
}

// ---- what they say

fn version_in(
    alloc: Global,
    nodes: &[(Text, Node)],
    number: u64,
) -> Result<(App, Quorum), LoadFault>
    ensures fresh { IfOk result (λ v. (v.0 ≡ loaded v.0.channels) × (v.1.number ≡ number)) }
    ensures answer { IsAnswer (said result) (version_answer number (children nodes.now)) }
{
    let (app, rest) = next(alloc, APP, nodes)?;
    let app = app_in(alloc, app)?;
    let (protocol, rest) = next(alloc, PROTOCOL, rest)?;
    let quorum = quorum_in(alloc, protocol, number)?;
    match rest.first() {
        Some((name, _)) => Err(bad(alloc, name.as_str())),
        None => Ok((app, quorum)),
    }
}

// The entry of the wanted name, which is the next, and those behind it.
fn next<'a>(
    alloc: Global,
    wanted: &str,
    nodes: &'a [(Text, Node)],
) -> Result<(&'a Node, &'a [(Text, Node)]), LoadFault>
    ensures next { IfOk result (λ r. next wanted.now (children nodes.now) ≡ Ok (r.0.now, children r.1.now)) }
    ensures fault { IfErr result (λ fault. IsFault fault (next wanted.now (children nodes.now))) }
{
    let Some(((name, node), rest)) = nodes.split_first() else {
        return Err(bad(alloc, wanted));
    };
    if name.as_str() == wanted {
        return Ok((node, rest));
    }
    Err(first_of(alloc, name.as_str(), wanted))
}

// Of another entry and the tree that is wanted, the one that stands first.
fn first_of(alloc: Global, name: &str, wanted: &str) -> LoadFault
    ensures { (result ≡ LoadFault.NoMemory) ⊎ (result ≡ LoadFault.BadSummary (first_of name.now wanted.now)) }
{
    let Ok(place) = format!(in alloc; "{wanted}/") else {
        return LoadFault::NoMemory;
    };
    if name < place.as_str() {
        bad(alloc, name)
    } else {
        bad(alloc, wanted)
    }
}

fn app_in(alloc: Global, node: &Node) -> Result<App, LoadFault>
    ensures fresh { IfOk result (λ app. app ≡ loaded app.channels) }
    ensures answer { IsAnswer (channels_said result) (channels_answer node.now) }
{
    match App::from_tree(alloc, node) {
        Ok(app) => Ok(app),
        Err(BlobFault::BadBlob(path)) => Err(bad_in(alloc, APP, path.as_str())),
        Err(BlobFault::NoMemory) => Err(LoadFault::NoMemory),
    }
}

// The attributes stand before the other blobs, so their number is asked first.
fn quorum_in(alloc: Global, node: &Node, number: u64) -> Result<Quorum, LoadFault>
    ensures fresh { IfOk result (λ q. q.number ≡ number) }
    ensures answer { IsAnswer result (quorum_answer number node.now) }
{
    // (a law, and no work: its clause is for the proof)
    attributes_are_read();
    if !node.is_tree() {
        return Err(bad(alloc, PROTOCOL));
    }
    has_number(alloc, node, number)?;
    match Quorum::from_blobs(alloc, node) {
        Ok(quorum) => Ok(quorum),
        Err(BlobFault::BadBlob(name)) => Err(bad_in(alloc, PROTOCOL, name.as_str())),
        Err(BlobFault::NoMemory) => Err(LoadFault::NoMemory),
    }
}

// The number of the attributes, where these are in their form, is the summary's.
fn has_number(alloc: Global, node: &Node, number: u64) -> Result<(), LoadFault>
    ensures { IsAnswer result (of_number number (number_in node.now)) }
{
    if let Some(own) = number_in(alloc, node)? {
        if own != number {
            return Err(bad_in(alloc, PROTOCOL, "attributes"));
        }
    }
    Ok(())
}

// ---- faults

fn bad(alloc: Global, path: &str) -> LoadFault
    ensures { (result ≡ LoadFault.NoMemory) ⊎ (result ≡ LoadFault.BadSummary path.now) }
{
    match Text::copied(alloc, path) {
        Ok(path) => LoadFault::BadSummary(path),
        Err(NoMemory) => LoadFault::NoMemory,
    }
}

// The fault of what stands under the name, or of this itself where the path is empty.
fn bad_in(alloc: Global, name: &str, path: &str) -> LoadFault
    ensures { (result ≡ LoadFault.NoMemory) ⊎ (result ≡ LoadFault.BadSummary (under name.now path.now)) }
{
    if path.is_empty() {
        return bad(alloc, name);
    }
    match format!(in alloc; "{name}/{path}") {
        Ok(path) => LoadFault::BadSummary(Text::new(path)),
        Err(_) => LoadFault::NoMemory,
    }
}
