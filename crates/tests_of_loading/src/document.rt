// A document: a core, which gives entries their place in the order, and the link over this order and its objects.
use fluid_codec::{print_message, read_raw};
use fluid_core::Core;
use fluid_io::FaultPlan;
use fluid_json::{Json, Text, read};
use fluid_loader::{Given, ListLink, Order};
use fluid_store::{MemoryObjects, Objects, upload};
use fluid_tree::{Id, from_json};
use fluid_types::{ClientId, Kind, Message, Nack, NackRule, Raw, Scopes, Verdict};
use fluid_versions::put_version;
use std::alloc::Global;
use std::collections::VecDeque;
use std::process::Abort;

#[derive(Drop)]
pub(crate) struct Document {
    pub(crate) link: ListLink,
    core: Core,
    // How many entries it has.
    entries: u64,
}

pub(crate) fn new_document(rt: &impl Abort, alloc: Global) -> Document {
    Document {
        link: ListLink {
            client: ClientId::of_entry(alloc, 0).expect(rt, "memory"),
            order: Order::new(alloc),
            objects: MemoryObjects::new(alloc, Vec::new(alloc)),
            answers: VecDeque::new(alloc),
            plan: FaultPlan::new(Vec::new(alloc)),
            refusals: 0,
            messages: Vec::new(alloc),
            fetched: Vec::new(alloc),
            handles: Vec::new(alloc),
            taken: Vec::new(alloc),
        },
        core: Core::new(alloc),
        entries: 0,
    }
}

pub(crate) fn copied(rt: &impl Abort, alloc: Global, text: &str) -> Text {
    Text::copied(alloc, text).expect(rt, "memory")
}

// ---- entries

// A client with all scopes joins, under the id that its entry's number gives.
pub(crate) fn join(rt: &impl Abort, alloc: Global, document: &mut Document) -> ClientId {
    let id = ClientId::of_entry(alloc, document.entries).expect(rt, "memory");
    let raw = Raw::Join {
        id: id.copy(alloc).expect(rt, "memory"),
        scopes: Scopes {
            read: true,
            write: true,
            summary: true,
        },
        detail: Json::null(),
        moment: 0,
    };
    enter(rt, alloc, document, &raw);
    drop(raw);
    id
}

// What the link has taken gets its place in the order.
pub(crate) fn sequence(rt: &impl Abort, alloc: Global, document: &mut Document) {
    let mut taken = Vec::new(alloc);
    taken.append(&mut document.link.taken).expect(rt, "memory");
    for submission in taken {
        let id = document.link.client.copy(alloc).expect(rt, "memory");
        let raw = Raw::Submit {
            id,
            submission,
            moment: 0,
        };
        enter(rt, alloc, document, &raw);
        drop(raw);
    }
}

// The kind of the message that the entry gets, if any.
fn enter(rt: &impl Abort, alloc: Global, document: &mut Document, raw: &Raw) -> Option<Kind> {
    assert!(rt; document.core.seq() < 1000 && raw.is_in_range());
    let ready = document.core.prepare(alloc, raw).expect(rt, "memory");
    let verdict = document.core.commit(ready);
    document.entries = document.entries.saturating_add(1);
    let kind = match &verdict {
        Verdict::Sequenced(message) => {
            Some(sequenced(rt, alloc, &mut document.link.order, message))
        }
        _ => None,
    };
    drop(verdict);
    kind
}

fn sequenced(rt: &impl Abort, alloc: Global, order: &mut Order, message: &Message) -> Kind {
    let text = print_message(alloc, message).expect(rt, "memory");
    push(rt, alloc, order, text.as_str());
    message.kind
}

fn push(rt: &impl Abort, alloc: Global, order: &mut Order, text: &str) {
    let pushed = order.push(alloc, text).expect(rt, "memory");
    assert!(rt; pushed, "not the next message: {text}");
}

// ---- lines of the document alone

pub(crate) fn said(
    rt: &impl Abort,
    alloc: Global,
    document: &mut Document,
    verb: &str,
    rest: &str,
) -> Text {
    match verb {
        "scribe" => scribed(rt, alloc, document),
        "enter" => {
            let raw = read_raw(alloc, rest).ok().expect(rt, "a record");
            enter(rt, alloc, document, &raw);
            drop(raw);
            copied(rt, alloc, "")
        }
        "message" => {
            let pushed = document.link.order.push(alloc, rest).expect(rt, "memory");
            copied(rt, alloc, if pushed { "" } else { "not next" })
        }
        "spoil" => {
            let (id, text) = rest.split_once(' ').unwrap_or((rest, ""));
            let id = Id::read(id).expect(rt, "an id");
            let objects = &mut document.link.objects;
            objects
                .put(alloc, &id, text.as_bytes())
                .ok()
                .expect(rt, "memory");
            copied(rt, alloc, "")
        }
        "put" => put(rt, alloc, &mut document.link.objects, rest),
        "refuse" => {
            let refusal = Given::Nacked(Nack {
                rule: NackRule::Full,
                operation: None,
                minimum: 0,
            });
            document
                .link
                .answers
                .push_back(refusal)
                .expect(rt, "memory");
            copied(rt, alloc, "")
        }
        "fail" => {
            let call = rest.parse().ok().expect(rt, "a number");
            fail(rt, alloc, &mut document.link.plan, call);
            copied(rt, alloc, "")
        }
        _ => copied(rt, alloc, "no such line"),
    }
}

// The pending summary is looked for in the store, its version put, and a report on it entered.
fn scribed(rt: &impl Abort, alloc: Global, document: &mut Document) -> Text {
    let Some(job) = document.core.job(alloc).expect(rt, "memory") else {
        return copied(rt, alloc, "idle");
    };
    let summary = job.summary;
    let found = put_version(alloc, &mut document.link.objects, &job)
        .ok()
        .expect(rt, "a store");
    drop(job);
    let report = Raw::Report {
        summary,
        found,
        moment: 0,
    };
    match enter(rt, alloc, document, &report) {
        Some(Kind::SummaryAck) => {
            Text::new(format!(in alloc; "ack {summary}").expect(rt, "memory"))
        }
        _ => Text::new(format!(in alloc; "nack {summary}").expect(rt, "memory")),
    }
}

// Puts the summary tree of a text, and tells its id.
fn put(rt: &impl Abort, alloc: Global, objects: &mut MemoryObjects, text: &str) -> Text {
    let json = read(alloc, text).ok().expect(rt, "JSON");
    let node = from_json(alloc, &json).ok().expect(rt, "a tree");
    let id = upload(alloc, objects, &node, None)
        .ok()
        .expect(rt, "an upload");
    drop(node);
    drop(json);
    id.print(alloc).expect(rt, "memory")
}

// The call of this number, counted from now on, is the one that fails. The count of faults stays.
fn fail(rt: &impl Abort, alloc: Global, plan: &mut FaultPlan, call: u64) {
    let mut calls = Vec::new(alloc);
    calls.push(call).expect(rt, "memory");
    let faults = plan.faults();
    *plan = FaultPlan::new(calls);
    for _ in 0..faults {
        plan.count_fault();
    }
}
