// A small language over containers of one document; each line is one call, and its answer is a text. P is `p`, `q` or `r`.
//
//     load P none, load P latest, load P ID      P joins and is loaded: `at N`, or the fault; reload P ..: without a join
//     fetched P          the numbers of the messages and the ids of the objects that were fetched by the last load
//     pump P, beat P, show P      as in their names; at P: the container's number
//     edit P E           an edit; what is taken is sequenced at once
//     summarize P        `at N with H: ID`, H being the number of handles; tree P: the id of its tree
//     scribe             the scribe answers the pending summary: `ack N` or `nack N`
//     enter RAW          an entry; message TEXT: a message behind the others, whatever the core has, or `not next`
//     put TREE           a summary tree is put: its id; spoil ID TEXT: this text is put under the id
//     refuse             the next submission is refused
//     fail K             the K-th call of the link from now on fails
use crate::document::{Document, copied, join, new_document, said, sequence};
use crate::edits::edit_of;
use crate::told::{fault_or, fault_text, numbered};
use fluid_json::{Text, print};
use fluid_loader::{Container, Link, ListLink, Pick};
use fluid_tree::{Id, id_of};
use fluid_types::ClientId;
use std::alloc::Global;
use std::process::Abort;

#[derive(Drop)]
struct Client {
    id: ClientId,
    container: Option<Container>,
}

#[derive(Drop)]
struct World {
    document: Document,
    p: Client,
    q: Client,
    r: Client,
}

pub(crate) fn play(rt: &impl Abort, alloc: Global, lines: &[(&str, &str)]) {
    let mut world = World {
        document: new_document(rt, alloc),
        p: new_client(rt, alloc),
        q: new_client(rt, alloc),
        r: new_client(rt, alloc),
    };
    for (line, wanted) in lines {
        let told = told(rt, alloc, &mut world, line);
        let told = told.as_str();
        assert!(rt; told == *wanted, "at {line}: {told}");
    }
    drop(world);
}

fn new_client(rt: &impl Abort, alloc: Global) -> Client {
    Client {
        id: ClientId::of_entry(alloc, 0).expect(rt, "memory"),
        container: None,
    }
}

fn told(rt: &impl Abort, alloc: Global, world: &mut World, line: &str) -> Text {
    let (verb, rest) = line.split_once(' ').unwrap_or((line, ""));
    let (name, more) = rest.split_once(' ').unwrap_or((rest, ""));
    let document = &mut world.document;
    match name {
        "p" => told_by(rt, alloc, document, &mut world.p, verb, more),
        "q" => told_by(rt, alloc, document, &mut world.q, verb, more),
        "r" => told_by(rt, alloc, document, &mut world.r, verb, more),
        _ => said(rt, alloc, document, verb, rest),
    }
}

fn told_by(
    rt: &impl Abort,
    alloc: Global,
    document: &mut Document,
    client: &mut Client,
    verb: &str,
    rest: &str,
) -> Text {
    if verb == "load" {
        client.id = join(rt, alloc, document);
    }
    document.link.client = client.id.copy(alloc).expect(rt, "memory");
    if verb == "load" || verb == "reload" {
        return loaded(rt, alloc, &mut document.link, client, rest);
    }
    let Some(container) = &mut client.container else {
        return copied(rt, alloc, "not loaded");
    };
    let told = asked(rt, alloc, container, &mut document.link, verb, rest);
    sequence(rt, alloc, document);
    told
}

fn loaded(
    rt: &impl Abort,
    alloc: Global,
    link: &mut ListLink,
    client: &mut Client,
    pick: &str,
) -> Text {
    link.messages = Vec::new(alloc);
    link.fetched = Vec::new(alloc);
    let pick = match pick {
        "none" => Pick::Empty,
        "latest" => Pick::Latest,
        digits => Pick::Handle(Id::read(digits).expect(rt, "an id")),
    };
    let answer = Container::load(alloc, link, &pick);
    match answer {
        Ok(container) => {
            let number = container.seq();
            client.container = Some(container);
            numbered(rt, alloc, number)
        }
        Err(fault) => fault_text(rt, alloc, &fault),
    }
}

fn asked(
    rt: &impl Abort,
    alloc: Global,
    container: &mut Container,
    link: &mut ListLink,
    verb: &str,
    rest: &str,
) -> Text {
    match verb {
        "at" => numbered(rt, alloc, container.seq()),
        "pump" => pumped(rt, alloc, container, link),
        "show" => {
            let json = container.state(alloc).expect(rt, "memory");
            print(alloc, &json).expect(rt, "memory")
        }
        "tree" => tree_id(rt, alloc, container),
        "edit" => edited(rt, alloc, container, link, rest),
        "beat" => beaten(rt, alloc, container, link),
        "summarize" => summarized(rt, alloc, container, link),
        "fetched" => fetched(rt, alloc, link),
        _ => copied(rt, alloc, "no such line"),
    }
}

fn tree_id(rt: &impl Abort, alloc: Global, container: &Container) -> Text {
    let tree = container.tree(alloc).expect(rt, "memory");
    let id = id_of(alloc, &tree).ok().expect(rt, "a tree");
    drop(tree);
    id.print(alloc).expect(rt, "memory")
}

fn pumped(rt: &impl Abort, alloc: Global, container: &mut Container, link: &mut ListLink) -> Text {
    match container.pump(alloc, link) {
        Ok(number) => numbered(rt, alloc, number),
        Err(fault) => fault_text(rt, alloc, &fault),
    }
}

fn edited(
    rt: &impl Abort,
    alloc: Global,
    container: &mut Container,
    link: &mut ListLink,
    line: &str,
) -> Text {
    let edit = edit_of(rt, alloc, line);
    let contents = edit.to_json(alloc).expect(rt, "memory");
    contents.canonical();
    let text = print(alloc, &contents).expect(rt, "memory");
    if text.as_str().len() > 1000 || !container.has_numbers() {
        panic!(rt; "it doesn't fit");
    }
    link.id().as_str();
    let answer = container.edit(alloc, link, edit);
    fault_or(rt, alloc, &answer, "edited")
}

fn beaten(rt: &impl Abort, alloc: Global, container: &mut Container, link: &mut ListLink) -> Text {
    if !container.has_numbers() {
        panic!(rt; "no number is left");
    }
    link.id().as_str();
    let answer = container.beat(alloc, link);
    fault_or(rt, alloc, &answer, "beats")
}

fn summarized(
    rt: &impl Abort,
    alloc: Global,
    container: &mut Container,
    link: &mut ListLink,
) -> Text {
    if !container.has_numbers() {
        panic!(rt; "no number is left");
    }
    link.id().as_str();
    match container.summarize(alloc, link) {
        Ok(id) => {
            let (number, digits) = (container.seq(), id.print(alloc).expect(rt, "memory"));
            let handles = link.handles.last().copied().unwrap_or(0);
            let digits = digits.as_str();
            Text::new(format!(in alloc; "at {number} with {handles}: {digits}").expect(
                rt, "memory",
            ))
        }
        Err(fault) => fault_text(rt, alloc, &fault),
    }
}

fn fetched(rt: &impl Abort, alloc: Global, link: &ListLink) -> Text {
    let mut told = String::new(alloc);
    for number in &link.messages {
        told = format!(in alloc; "{told}{number} ").expect(rt, "memory");
    }
    for id in &link.fetched {
        let digits = id.print(alloc).expect(rt, "memory");
        let digits = digits.as_str();
        told = format!(in alloc; "{told}\n{digits}").expect(rt, "memory");
    }
    Text::new(told)
}
