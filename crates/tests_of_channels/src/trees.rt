// Trees of summaries in one line.
use crate::play::copied;
use fluid_json::{Bytes, NoMemory, Text};
use fluid_tree::{Entries, Node, Path};
use std::alloc::Global;
use std::process::Abort;

/// The tree of a line: its channels with `; ` between them, each an address, `: ` and its entries, or itself one entry.
pub(crate) fn tree_of(rt: &impl Abort, alloc: Global, line: &str) -> Node {
    let mut channels = Entries::new(alloc);
    for channel in line.split("; ") {
        put_channel(rt, alloc, &mut channels, channel);
    }
    Node::tree(channels)
}

fn put_channel(rt: &impl Abort, alloc: Global, channels: &mut Entries, channel: &str) {
    match channel.split_once(": ") {
        Some((address, parts)) => {
            let mut entries = Entries::new(alloc);
            for part in parts.split(' ') {
                put_entry(rt, alloc, &mut entries, part);
            }
            let name = copied(rt, alloc, address);
            channels
                .push(name, Node::tree(entries))
                .expect(rt, "memory");
        }
        None => put_entry(rt, alloc, channels, channel),
    }
}

// `name=content` is a blob, `name@` a handle, another word the empty tree of this name.
fn put_entry(rt: &impl Abort, alloc: Global, entries: &mut Entries, word: &str) {
    let (name, node) = match (word.split_once('='), word.split_once('@')) {
        (Some((name, content)), _) => {
            let content = Bytes::copied(alloc, content.as_bytes()).expect(rt, "memory");
            (name, Node::blob(content))
        }
        (None, Some((name, _))) => (name, Node::handle(Path::from_vec(Vec::new(alloc)))),
        (None, None) => (word, Node::tree(Entries::new(alloc))),
    };
    if !name.is_empty() {
        entries
            .push(copied(rt, alloc, name), node)
            .expect(rt, "memory");
    }
}

/// The tree in one line: `name(..)` for a tree, `name=content` for a blob, `name@` for a handle.
pub(crate) fn outline(rt: &impl Abort, alloc: Global, tree: &Node) -> Text {
    let mut out = String::new(alloc);
    put_outline(&mut out, tree).expect(rt, "memory");
    Text::new(out)
}

fn put_outline(out: &mut String, tree: &Node) -> Result<(), NoMemory> {
    let Some(channels) = tree.as_tree() else {
        return Ok(());
    };
    for (name, node) in channels {
        out.push_str(name.as_str())?;
        put_channel_outline(out, node)?;
    }
    Ok(())
}

fn put_channel_outline(out: &mut String, node: &Node) -> Result<(), NoMemory> {
    let Some(parts) = node.as_tree() else {
        out.push_str("@ ")?;
        return Ok(());
    };
    out.push('(')?;
    for (part, blob) in parts {
        out.push_str(part.as_str())?;
        out.push('=')?;
        put_blob(out, blob)?;
        out.push(' ')?;
    }
    out.push_str(") ")?;
    Ok(())
}

fn put_blob(out: &mut String, blob: &Node) -> Result<(), NoMemory> {
    let Some(content) = blob.as_blob() else {
        return Ok(());
    };
    if let Ok(text) = str::from_utf8(content) {
        out.push_str(text)?;
    }
    Ok(())
}
