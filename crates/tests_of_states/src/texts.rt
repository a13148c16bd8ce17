// The texts of raw records and of messages.
use std::alloc::Global;
use std::process::Abort;

// A summary without a head, of the empty tree as Git names it.
pub const PROPOSAL: &str = r#"{"handle":"4b825dc642cb6eb9a060e54bf8d69288fbee4904","head":""}"#;

pub enum Entry {
    // May read and write.
    Join(&'static str),
    // May write summaries, too.
    Summarizer(&'static str),
    Leave(&'static str),
    // With its client number and its reference.
    Op(&'static str, u64, i64),
    Summarize(&'static str, u64, i64),
    // Builds on the last acknowledged summary.
    Next(&'static str, u64, i64),
    // With these contents.
    Summarizing(&'static str, u64, i64, &'static str),
    Propose(&'static str, u64, i64, &'static str),
    Noop(&'static str, u64, i64, &'static str),
    // On this number, and whether the tree was found.
    Report(u64, bool),
}

// The record of an entry. Each kind has a moment of its own.
pub fn record(rt: &impl Abort, alloc: Global, entry: &Entry) -> String {
    match entry {
        Entry::Join(id) => join(rt, alloc, *id, r#""doc:read","doc:write""#),
        Entry::Summarizer(id) => join(rt, alloc, *id, r#""doc:write","summary:write""#),
        Entry::Leave(id) => leave(rt, alloc, *id),
        Entry::Op(id, number, reference) => submit(
            rt, alloc, *id, "op", *number, *reference, "null",
        ),
        Entry::Summarize(id, number, reference) | Entry::Next(id, number, reference) => {
            submit(rt, alloc, *id, "summarize", *number, *reference, PROPOSAL)
        }
        Entry::Summarizing(id, number, reference, contents) => {
            submit(rt, alloc, *id, "summarize", *number, *reference, contents)
        }
        Entry::Propose(id, number, reference, contents) => {
            submit(rt, alloc, *id, "propose", *number, *reference, contents)
        }
        Entry::Noop(id, number, reference, contents) => {
            submit(rt, alloc, *id, "noop", *number, *reference, contents)
        }
        Entry::Report(summary, found) => report(rt, alloc, *summary, *found),
    }
}

fn join(rt: &impl Abort, alloc: Global, id: &str, scopes: &str) -> String {
    format!(in alloc;
        r#"{{"clientId":"{id}","detail":null,"moment":5,"raw":"join","scopes":[{scopes}]}}"#
    ).expect(rt, "memory")
}

fn leave(rt: &impl Abort, alloc: Global, id: &str) -> String {
    format!(in alloc; r#"{{"clientId":"{id}","moment":6,"raw":"leave"}}"#).expect(rt, "memory")
}

fn submit(
    rt: &impl Abort,
    alloc: Global,
    id: &str,
    kind: &str,
    number: u64,
    reference: i64,
    contents: &str,
) -> String {
    format!(in alloc;
        r#"{{"clientId":"{id}","moment":7,"operation":{{"clientSequenceNumber":{number},"contents":{contents},"referenceSequenceNumber":{reference},"type":"{kind}"}},"raw":"submit"}}"#
    ).expect(rt, "memory")
}

fn report(rt: &impl Abort, alloc: Global, summary: u64, found: bool) -> String {
    format!(in alloc;
        r#"{{"found":{found},"moment":8,"raw":"report","summary":{summary}}}"#
    ).expect(rt, "memory")
}

// The text of a message; `data` is that member with a comma behind it, or nothing.
pub fn message(
    rt: &impl Abort,
    alloc: Global,
    numbers: (u64, u64),
    kind: &str,
    reference: i64,
    contents: &str,
    data: &str,
) -> String {
    let (number, minimum) = numbers;
    format!(in alloc;
        r#"{{"clientId":null,"clientSequenceNumber":-1,"contents":{contents},{data}"minimumSequenceNumber":{minimum},"referenceSequenceNumber":{reference},"sequenceNumber":{number},"timestamp":5,"type":"{kind}"}}"#
    ).expect(rt, "memory")
}
