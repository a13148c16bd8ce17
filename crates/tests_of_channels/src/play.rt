// A small language over an `App`: each line is one call, and its answer is a text.
//
//     edit E      lays an edit over: `edited`, or the fault
//     own E       the client's own op of this edit is the next message; other E: another client's
//     own noop, other noop      the next message is a noop with the contents of an attach of `z`
//     hear JSON   another client's op with these contents is the next message
//     back        takes the newest edit back
//     mark        from now on `since` tells what has changed
//     show        what is shown; tree: the summary's tree; since: the tree that tells what has changed
//     load T      goes on with the channels of a summary's tree, where it is one: else `bad`, a blank and the path
//     load-blob   the same of a blob
//
// An edit E is `attach A KIND`, `set A KEY JSON`, `delete A KEY`, `clear A` or `add A N`.
use crate::trees::{outline, tree_of};
use fluid_json::{Bytes, Json, Text, print, read};
use fluid_runtime::{App, ChannelKind, Edit, EditFault};
use fluid_tree::Node;
use fluid_types::{Address, BlobFault, Kind, Message};
use std::alloc::Global;
use std::process::Abort;

/// Plays lines on a fresh app, and compares the answer of each.
pub(crate) fn play(rt: &impl Abort, alloc: Global, lines: &[(&str, &str)]) {
    let mut app = App::new(alloc);
    for (line, wanted) in lines {
        let told = told(rt, alloc, &mut app, line);
        assert!(rt; told.as_str() == *wanted, "at {line}");
    }
    drop(app);
}

fn told(rt: &impl Abort, alloc: Global, app: &mut App, line: &str) -> Text {
    match line.split_once(' ') {
        Some(("edit", rest)) => edited(rt, alloc, app, rest),
        Some(("own", "noop")) => applied(rt, alloc, app, Kind::Noop, attach_z(rt, alloc), true),
        Some(("other", "noop")) => applied(rt, alloc, app, Kind::Noop, attach_z(rt, alloc), false),
        Some(("own", rest)) => applied(rt, alloc, app, Kind::Op, contents(rt, alloc, rest), true),
        Some(("other", rest)) => applied(
            rt,
            alloc,
            app,
            Kind::Op,
            contents(rt, alloc, rest),
            false,
        ),
        Some(("load", rest)) => loaded(rt, alloc, app, &tree_of(rt, alloc, rest)),
        Some(("hear", rest)) => {
            let json = read(alloc, rest).expect(rt, "JSON");
            applied(rt, alloc, app, Kind::Op, json, false)
        }
        _ => asked(rt, alloc, app, line),
    }
}

fn asked(rt: &impl Abort, alloc: Global, app: &mut App, line: &str) -> Text {
    match line {
        "back" => {
            app.take_back();
            copied(rt, alloc, "")
        }
        "mark" => {
            app.mark();
            copied(rt, alloc, "")
        }
        "load-blob" => loaded(rt, alloc, app, &Node::blob(Bytes::new(Vec::new(alloc)))),
        "show" => {
            let json = app.visible(alloc).expect(rt, "memory");
            print(alloc, &json).expect(rt, "memory")
        }
        "tree" => outline(rt, alloc, &app.to_tree(alloc).expect(rt, "memory")),
        "since" => outline(rt, alloc, &app.to_tree_since(alloc).expect(rt, "memory")),
        _ => copied(rt, alloc, "no such line"),
    }
}

fn loaded(rt: &impl Abort, alloc: Global, app: &mut App, tree: &Node) -> Text {
    match App::from_tree(alloc, tree) {
        Ok(read) => {
            *app = read;
            copied(rt, alloc, "")
        }
        Err(BlobFault::BadBlob(path)) => {
            let path = path.as_str();
            Text::new(format!(in alloc; "bad {path}").expect(rt, "memory"))
        }
        Err(BlobFault::NoMemory) => copied(rt, alloc, "NoMemory"),
    }
}

pub(crate) fn copied(rt: &impl Abort, alloc: Global, text: &str) -> Text {
    Text::copied(alloc, text).expect(rt, "memory")
}

fn edited(rt: &impl Abort, alloc: Global, app: &mut App, line: &str) -> Text {
    let edit = edit_of(rt, alloc, line);
    let answer = match app.edit(alloc, edit) {
        Ok(json) => {
            drop(json);
            "edited"
        }
        Err(EditFault::NoChannel) => "NoChannel",
        Err(EditFault::WrongKind) => "WrongKind",
        Err(EditFault::OutOfRange) => "OutOfRange",
        Err(EditFault::Exists) => "Exists",
        Err(EditFault::NoMemory) => "NoMemory",
    };
    copied(rt, alloc, answer)
}

/// The next message, of this kind and with these contents.
pub(crate) fn applied(
    rt: &impl Abort,
    alloc: Global,
    app: &mut App,
    kind: Kind,
    contents: Json,
    own: bool,
) -> Text {
    let message = Message {
        client: None,
        client_number: 1,
        reference: 0,
        number: 1,
        minimum: 0,
        kind,
        contents,
        system: None,
        metadata: None,
        moment: 0,
    };
    assert!(rt; app.has_room(), "room");
    app.apply(alloc, &message, own).expect(rt, "memory");
    drop(message);
    copied(rt, alloc, "")
}

fn attach_z(rt: &impl Abort, alloc: Global) -> Json {
    contents(rt, alloc, "attach z map")
}

fn contents(rt: &impl Abort, alloc: Global, line: &str) -> Json {
    let edit = edit_of(rt, alloc, line);
    edit.to_json(alloc).expect(rt, "memory")
}

fn edit_of(rt: &impl Abort, alloc: Global, line: &str) -> Edit {
    let (verb, rest) = line.split_once(' ').expect(rt, "a verb");
    let (name, rest) = rest.split_once(' ').unwrap_or((rest, ""));
    let address = Address::read(alloc, name).expect(rt, "an address");
    match verb {
        "attach" => {
            let kind = if rest == "map" {
                ChannelKind::Map
            } else {
                ChannelKind::Counter
            };
            Edit::Attach(address, kind)
        }
        "set" => {
            let (key, value) = rest.split_once(' ').expect(rt, "a key");
            let value = read(alloc, value).expect(rt, "JSON");
            Edit::Set(address, copied(rt, alloc, key), value)
        }
        "delete" => Edit::Delete(address, copied(rt, alloc, rest)),
        "clear" => Edit::Clear(address),
        _ => Edit::Increment(address, rest.parse().expect(rt, "a number")),
    }
}
