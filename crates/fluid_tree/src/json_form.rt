ghost use Rattle.std.specs.Prelude.{◌≡◌, ◌==◌, Err, Some, None, if◌then◌else◌, option_map, option_and_then, codes, IfOk};
ghost use Rattle.std.specs.List.{list_any, slice_split};
ghost use Rattle.fluid_json.specs.Unless.{IsUnless};
ghost use Rattle.fluid_json.specs.Tree.{find, members, as_members};
ghost use Rattle.fluid_tree.specs.Names.{is_bad};
ghost use Rattle.fluid_tree.specs.FromJson.{formed, text_at, without_slash, path_of, bad_key, nodes_by, tree_by, entries_at, blob_of, handle_of, attachment_of, type_of, node_within, node_answer};

use crate::fault::TreeFault;
use crate::identity::MOST_TREES;
use crate::names::is_bad;
use crate::node::{Entries, Node, Path};
use fluid_json::{Bytes, Json, NoMemory, Text};
use std::alloc::Global;

/// The summary tree that a JSON value spells.
pub fn from_json(alloc: Global, value: &Json) -> Result<Node, TreeFault>
    ensures { IsUnless TreeFault.NoMemory result (node_answer value.now) }
{
    node_within(alloc, value, MOST_TREES)
}

#[cycle(json_node)]
#[tactic(auto, unfolding(crate::specs::FromJson::node_within))]
fn node_within(alloc: Global, value: &Json, levels: usize) -> Result<Node, TreeFault>
    ensures { IsUnless TreeFault.NoMemory result (node_within levels value.now) }
{
    match type_of(value) {
        Some(1) => {
            let Some(entries) = entries_at(value) else {
                return Err(TreeFault::BadForm);
            };
            if levels == 0 {
                return Err(TreeFault::TooDeep);
            }
            tree_by(alloc, entries, levels - 1)
        }
        Some(2) => blob_of(alloc, value),
        Some(3) => handle_of(alloc, value),
        Some(4) => Err(attachment_of(value)),
        _ => Err(TreeFault::BadForm),
    }
}

#[cycle(json_node)]
fn tree_by(alloc: Global, entries: &[(Text, Json)], levels: usize) -> Result<Node, TreeFault>
    ensures { IsUnless TreeFault.NoMemory result (tree_by (node_within levels) (members entries.now)) }
{
    let bad = bad_key(alloc, entries)?;
    match bad {
        Some(key) => Err(TreeFault::BadName(key)),
        None => children_by(alloc, entries, levels),
    }
}

#[cycle(json_node)]
fn children_by(alloc: Global, entries: &[(Text, Json)], levels: usize) -> Result<Node, TreeFault>
    ensures { IsUnless TreeFault.NoMemory result (nodes_by (node_within levels) (members entries.now)) }
{
    let mut nodes = Entries::new(alloc);
    for (name, value) in entries {
        let node = node_within(alloc, value, levels)?;
        let name = name.copy(alloc)?;
        nodes.push(name, node)?;
    }
    Ok(Node::tree(nodes))
}

fn type_of(value: &Json) -> Option<i64>
    ensures { result ≡ type_of value.now }
{
    match value.member("type") {
        Some(found) => found.as_whole(),
        None => None,
    }
}

fn entries_at(value: &Json) -> Option<&[(Text, Json)]>
    ensures { option_map (λ entries. members entries.now) result ≡ option_and_then as_members (find (codes "tree") value.now) }
{
    match value.member("tree") {
        Some(found) => found.as_pairs(),
        None => None,
    }
}

fn text_at<'a>(value: &'a Json, key: &str) -> Option<&'a str>
    ensures { option_map (λ s. s.now) result ≡ text_at key.now value.now }
{
    match value.member(key) {
        Some(found) => found.as_text(),
        None => None,
    }
}

#[tactic(auto, unfolding(crate::specs::FromJson::blob_of))]
fn blob_of(alloc: Global, value: &Json) -> Result<Node, TreeFault>
    ensures { IsUnless TreeFault.NoMemory result (blob_of value.now) }
{
    match text_at(value, "content") {
        Some(content) => {
            let content = Bytes::copied(alloc, content.as_bytes())?;
            Ok(Node::blob(content))
        }
        None => Err(TreeFault::BadForm),
    }
}

#[tactic(auto, unfolding(crate::specs::FromJson::handle_of))]
fn handle_of(alloc: Global, value: &Json) -> Result<Node, TreeFault>
    ensures { IsUnless TreeFault.NoMemory result (handle_of value.now) }
{
    match text_at(value, "handle") {
        Some(text) => {
            let path = path_of(alloc, text)?;
            match path {
                Some(path) => Ok(Node::handle(path)),
                None => Err(TreeFault::BadForm),
            }
        }
        None => Err(TreeFault::BadForm),
    }
}

// Why an attachment is refused.
#[tactic(auto, unfolding(crate::specs::FromJson::attachment_of))]
fn attachment_of(value: &Json) -> TreeFault
    ensures { Err result ≡ attachment_of value.now }
{
    match text_at(value, "id") {
        Some(_) => TreeFault::Attachment,
        None => TreeFault::BadForm,
    }
}

// The first key that no entry may have as its name.
#[tactic(auto, unfolding(crate::specs::FromJson::bad_key))]
fn bad_key(alloc: Global, entries: &[(Text, Json)]) -> Result<Option<Text>, NoMemory>
    ensures { IfOk result (λ bad. bad ≡ bad_key (members entries.now)) }
{
    for (key, _) in entries {
        if is_bad(key.as_str()) {
            let key = key.copy(alloc)?;
            return Ok(Some(key));
        }
    }
    Ok(None)
}

// The names of a path, where none is bad.
#[tactic(auto, unfolding(crate::specs::FromJson::path_of))]
fn path_of(alloc: Global, text: &str) -> Result<Option<Path>, NoMemory>
    ensures { IfOk result (λ path. path ≡ path_of text.now) }
{
    let names = names_of(alloc, without_slash(text))?;
    match names {
        Some(names) => Ok(Some(Path::from_vec(names))),
        None => Ok(None),
    }
}

// Without the `/` in front, where there is one.
fn without_slash(text: &str) -> &str
    ensures { result.now ≡ without_slash text.now }
{
    match text.split_once('/') {
        Some((first, rest)) => { if first.is_empty() { rest } else { text } }
        None => text,
    }
}

fn names_of(alloc: Global, text: &str) -> Result<Option<Vec<Text>>, NoMemory>
    ensures { IfOk result (λ names. option_map (λ v. v.items) names
        ≡ (if list_any is_bad (slice_split (λ x. x == 47) text.now) then None else Some (slice_split (λ x. x == 47) text.now))) }
{
    let mut names = Vec::new(alloc);
    let mut rest = text;
    while let Some((name, more)) = rest.split_once('/') {
        if is_bad(name) {
            return Ok(None);
        }
        let name = Text::copied(alloc, name)?;
        names.push(name)?;
        rest = more;
    }
    if is_bad(rest) {
        return Ok(None);
    }
    let name = Text::copied(alloc, rest)?;
    names.push(name)?;
    Ok(Some(names))
}
