// The texts of raw records.
use std::alloc::Global;
use std::process::Abort;

#[derive(Drop)]
pub enum Entry {
    Join(&'static str),
    Leave(&'static str),
    // With its client number and its reference.
    Op(&'static str, u64, i64),
    // A noop with null contents, and one with others.
    Quiet(&'static str, u64, i64),
    Loud(&'static str, u64, i64),
}

// The record of an entry at this moment.
pub fn record(rt: &impl Abort, alloc: Global, entry: &Entry, moment: u64) -> String {
    match entry {
        Entry::Join(id) => join(rt, alloc, *id, moment),
        Entry::Leave(id) => leave(rt, alloc, *id, moment),
        Entry::Op(id, number, reference) => submit(
            rt,
            alloc,
            *id,
            (*number, *reference),
            ("op", "null"),
            moment,
        ),
        Entry::Quiet(id, number, reference) => submit(
            rt,
            alloc,
            *id,
            (*number, *reference),
            ("noop", "null"),
            moment,
        ),
        Entry::Loud(id, number, reference) => submit(
            rt,
            alloc,
            *id,
            (*number, *reference),
            ("noop", r#""x""#),
            moment,
        ),
    }
}

fn join(rt: &impl Abort, alloc: Global, id: &str, moment: u64) -> String {
    format!(in alloc;
        r#"{{"clientId":"{id}","moment":{moment},"raw":"join","scopes":["doc:write"]}}"#
    ).expect(rt, "memory")
}

fn leave(rt: &impl Abort, alloc: Global, id: &str, moment: u64) -> String {
    format!(in alloc; r#"{{"clientId":"{id}","moment":{moment},"raw":"leave"}}"#).expect(
        rt, "memory",
    )
}

fn submit(
    rt: &impl Abort,
    alloc: Global,
    id: &str,
    numbers: (u64, i64),
    said: (&str, &str),
    moment: u64,
) -> String {
    let (number, reference) = numbers;
    let (kind, contents) = said;
    format!(in alloc;
        r#"{{"clientId":"{id}","moment":{moment},"operation":{{"clientSequenceNumber":{number},"contents":{contents},"referenceSequenceNumber":{reference},"type":"{kind}"}},"raw":"submit"}}"#
    ).expect(rt, "memory")
}
