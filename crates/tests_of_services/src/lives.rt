// Connections over documents and objects.
use crate::desks::{CALM, Desk, Setting};
use fluid_lane::Limits;
use std::alloc::Global;
use std::process::Abort;

pub enum Step {
    // A text is heard, and this is said, one reply a line.
    Hears(&'static str, &'static str),
    // The other connection speaks.
    Turns,
    // A new one speaks.
    Renews,
    Stands(&'static str),
    // Its leave is entered.
    Leaves,
    // A document is opened, and this is told; or it is closed and opened as a new process does.
    Opens(&'static str, &'static str),
    Reopens(&'static str, &'static str),
    // Documents of so many names are opened.
    OpensMany(u64),
    // The names of the open documents.
    Names(&'static str),
    // The entries, messages and clients of `d`.
    Counts(u64, u64, u64),
    // A checkpoint of `d` is stored.
    Stores,
    // The pending summary of `d` is acknowledged.
    Scribes,
    // Other bytes are put under the id of an object.
    Spoils(&'static str, &'static str),
}

fn do_step(rt: &impl Abort, alloc: Global, desk: &mut Desk, step: &Step) {
    match step {
        Step::Hears(text, wanted) => desk.hear(rt, alloc, *text, *wanted),
        Step::Turns => desk.turn(),
        Step::Renews => desk.renew(),
        Step::Stands(wanted) => desk.stand(rt, alloc, *wanted),
        Step::Leaves => desk.leave(rt, alloc, ""),
        Step::Opens(name, wanted) => desk.open(rt, alloc, *name, false, *wanted),
        Step::Reopens(name, wanted) => desk.open(rt, alloc, *name, true, *wanted),
        Step::OpensMany(count) => desk.open_many(rt, alloc, *count),
        Step::Names(wanted) => desk.name(rt, alloc, *wanted),
        Step::Stores => desk.checkpoint(rt, alloc, "d"),
        Step::Counts(entered, last, clients) => {
            desk.count(rt, alloc, "d", (*entered, *last, *clients));
        }
        Step::Scribes => desk.scribe(rt, alloc, "d"),
        Step::Spoils(id, bytes) => desk.spoil(rt, alloc, *id, *bytes),
    }
}

// Steps on a new desk; all is closed at the end, and the log of `d` has so many records.
pub fn live(rt: &impl Abort, alloc: Global, setting: &Setting, steps: &[Step], records: usize) {
    let mut desk = Desk::new(rt, alloc, setting);
    for step in steps {
        do_step(rt, alloc, &mut desk, step);
    }
    desk.close(rt, alloc, records);
}

const CONNECT: &str =
    r#"["connect_document",{"id":"d","mode":"write","scopes":["doc:read","doc:write"]}]"#;

const CONNECTED: &str =
    r#"["connect_document_success",{"checkpointSequenceNumber":0,"clientId":"c0","maxMessageSize":1048576,"mode":"write","version":"1"}]"#;

const READ: &str = r#"["connect_document",{"id":"d","mode":"read","scopes":["doc:read"]}]"#;

const FOREIGN: &str =
    r#"["nack","d",[{"content":{"code":400,"message":"foreign client","type":"BadRequestError"},"operation":null,"sequenceNumber":-1}]]"#;

const READ_ONLY: &str =
    r#"["nack","d",[{"content":{"code":403,"message":"read only connection","type":"InvalidScopeError"},"operation":null,"sequenceNumber":-1}]]"#;

const NOT_CONNECTED: &str =
    r#"["nack","",[{"content":{"code":400,"message":"not connected","type":"BadRequestError"},"operation":null,"sequenceNumber":-1}]]"#;

const NOT_WHOLE: &str =
    r#"["nack","d",[{"content":{"code":400,"message":"bad event: a number is not whole","type":"BadRequestError"},"operation":null,"sequenceNumber":-1}]]"#;

const DOCUMENT_FULL: &str =
    r#"["connect_document_error",{"code":429,"message":"document is full"}]"#;

const TOO_MANY_CLIENTS: &str =
    r#"["connect_document_error",{"code":429,"message":"too many clients"}]"#;

const READ_MISSING: &str =
    r#"["connect_document_error",{"code":403,"message":"doc:read is missing"}]"#;

// Two connections of one document.
const SHARED: &[Step] = &[
    Step::Hears(
        "hello",
        r#"["nack","",[{"content":{"code":400,"message":"bad event: not JSON","type":"BadRequestError"},"operation":null,"sequenceNumber":-1}]]"#,
    ),
    Step::Hears(
        r#"["dance"]"#,
        r#"["nack","",[{"content":{"code":400,"message":"bad event: unknown event","type":"BadRequestError"},"operation":null,"sequenceNumber":-1}]]"#,
    ),
    Step::Hears(r#"["submitOp","c0",[]]"#, NOT_CONNECTED),
    Step::Hears(
        r#"["connect_document",{"id":"d","mode":"read","scopes":[]}]"#,
        READ_MISSING,
    ),
    Step::Stands("fresh"),
    Step::Hears(r#"["getDeltas",1,1]"#, NOT_CONNECTED),
    Step::Hears(CONNECT, CONNECTED),
    Step::Stands("writing d c0 1"),
    // Nothing is entered of a text with a number that isn't whole.
    Step::Hears(
        r#"["submitOp","c0",[{"clientSequenceNumber":1,"contents":"a","referenceSequenceNumber":1,"type":"op"},{"clientSequenceNumber":2,"contents":1.5,"referenceSequenceNumber":1,"type":"op"}]]"#,
        NOT_WHOLE,
    ),
    Step::Counts(1, 1, 1),
    // The second is a repeat, the fourth leaves a gap.
    Step::Hears(
        r#"["submitOp","c0",[{"clientSequenceNumber":1,"contents":"a","referenceSequenceNumber":1,"type":"op"},{"clientSequenceNumber":1,"contents":"a","referenceSequenceNumber":1,"type":"op"},{"clientSequenceNumber":2,"contents":"b","referenceSequenceNumber":2,"type":"op"},{"clientSequenceNumber":9,"contents":"c","referenceSequenceNumber":2,"type":"op"}]]"#,
        r#"["nack","d",[{"content":{"code":400,"message":"Gap in client sequence numbers","type":"BadRequestError"},"operation":{"clientSequenceNumber":9,"contents":"c","referenceSequenceNumber":2,"type":"op"},"sequenceNumber":2}]]"#,
    ),
    Step::Counts(5, 3, 1),
    Step::Turns,
    // Who may only read does so, whatever was asked for.
    Step::Hears(
        r#"["connect_document",{"id":"d","mode":"write","scopes":["doc:read"]}]"#,
        r#"["connect_document_success",{"checkpointSequenceNumber":3,"clientId":null,"maxMessageSize":1048576,"mode":"read","version":"1"}]"#,
    ),
    Step::Stands("reading d 4"),
    Step::Hears(
        r#"["submitOp","c0",[{"clientSequenceNumber":3,"contents":"x","referenceSequenceNumber":2,"type":"op"}]]"#,
        READ_ONLY,
    ),
    Step::Hears(
        r#"["getDeltas",2,4]"#,
        r#"["deltas",2,[{"clientId":"c0","clientSequenceNumber":1,"contents":"a","minimumSequenceNumber":1,"referenceSequenceNumber":1,"sequenceNumber":2,"timestamp":7,"type":"op"},{"clientId":"c0","clientSequenceNumber":2,"contents":"b","minimumSequenceNumber":2,"referenceSequenceNumber":2,"sequenceNumber":3,"timestamp":7,"type":"op"}]]"#,
    ),
    Step::Hears(r#"["getDeltas",4,4]"#, r#"["deltas",4,[]]"#),
    Step::Hears(
        r#"["getDeltas",4,5]"#,
        r#"["nack","d",[{"content":{"code":400,"message":"bad event: bad field to: out of range","type":"BadRequestError"},"operation":null,"sequenceNumber":-1}]]"#,
    ),
    Step::Hears(r#"["getSummary","latest"]"#, r#"["summary",null,null]"#),
    Step::Renews,
    // The entries before it are five, so its id is c5.
    Step::Hears(
        CONNECT,
        r#"["connect_document_success",{"checkpointSequenceNumber":3,"clientId":"c5","maxMessageSize":1048576,"mode":"write","version":"1"}]"#,
    ),
    Step::Hears(
        r#"["submitOp","c0",[{"clientSequenceNumber":3,"contents":"x","referenceSequenceNumber":2,"type":"op"}]]"#,
        FOREIGN,
    ),
    Step::Counts(6, 4, 2),
    Step::Hears(
        CONNECT,
        r#"["connect_document_error",{"code":400,"message":"already connected"}]"#,
    ),
    Step::Leaves,
    Step::Stands("used"),
    Step::Counts(7, 5, 1),
    Step::Turns,
    Step::Leaves,
    Step::Counts(8, 6, 0),
];

// Three entries that count, and one client.
const LIMITED: &[Step] = &[
    Step::Hears(CONNECT, CONNECTED),
    Step::Turns,
    Step::Hears(CONNECT, TOO_MANY_CLIENTS),
    Step::Stands("fresh"),
    Step::Turns,
    Step::Hears(
        r#"["submitOp","c0",[{"clientSequenceNumber":1,"contents":"a","referenceSequenceNumber":1,"type":"op"},{"clientSequenceNumber":2,"contents":"b","referenceSequenceNumber":1,"type":"op"},{"clientSequenceNumber":3,"contents":"c","referenceSequenceNumber":1,"type":"op"},{"clientSequenceNumber":4,"contents":"d","referenceSequenceNumber":1,"type":"op"}]]"#,
        "[\"nack\",\"d\",[{\"content\":{\"code\":429,\"message\":\"document is full\",\"type\":\"LimitExceededError\"},\"operation\":null,\"sequenceNumber\":-1}]]\n\
         [\"nack\",\"d\",[{\"content\":{\"code\":429,\"message\":\"document is full\",\"type\":\"LimitExceededError\"},\"operation\":null,\"sequenceNumber\":-1}]]",
    ),
    Step::Counts(3, 3, 1),
    Step::Turns,
    Step::Hears(CONNECT, DOCUMENT_FULL),
    // Who reads enters nothing.
    Step::Hears(
        READ,
        r#"["connect_document_success",{"checkpointSequenceNumber":3,"clientId":null,"maxMessageSize":1048576,"mode":"read","version":"1"}]"#,
    ),
    Step::Turns,
    // A leave doesn't count.
    Step::Leaves,
    Step::Counts(4, 4, 0),
];

// The blob "hello\n", whose id git gives as ce013625030ba8dba906f756967f9e9ca394464a; the second call of the store fails.
const OBJECTS: &[Step] = &[
    Step::Hears(CONNECT, CONNECTED),
    Step::Hears(
        r#"["getObject","ce013625030ba8dba906f756967f9e9ca394464a"]"#,
        r#"["object","ce013625030ba8dba906f756967f9e9ca394464a",null]"#,
    ),
    Step::Hears(
        r#"["getObject","ce013625030ba8dba906f756967f9e9ca394464a"]"#,
        "store failed",
    ),
    Step::Hears(
        r#"["putObject","626c6f6220360068656c6c6f0a"]"#,
        r#"["objectStored","ce013625030ba8dba906f756967f9e9ca394464a"]"#,
    ),
    Step::Hears(
        r#"["putObject","626c6f6220360068656c6c6f0a"]"#,
        r#"["objectStored","ce013625030ba8dba906f756967f9e9ca394464a"]"#,
    ),
    Step::Hears(
        r#"["getObject","ce013625030ba8dba906f756967f9e9ca394464a"]"#,
        r#"["object","ce013625030ba8dba906f756967f9e9ca394464a","626c6f6220360068656c6c6f0a"]"#,
    ),
    Step::Spoils("ce013625030ba8dba906f756967f9e9ca394464a", "other"),
    Step::Hears(r#"["putObject","626c6f6220360068656c6c6f0a"]"#, "clash"),
    Step::Hears(
        r#"["getObject","ce013625030ba8dba906f756967f9e9ca394464a"]"#,
        r#"["object","ce013625030ba8dba906f756967f9e9ca394464a","6f74686572"]"#,
    ),
    Step::Counts(1, 1, 1),
];

// A summary of an empty tree at number 1, whose version `git mktree` gives the id.
const SUMMARIES: &[Step] = &[
    Step::Hears(
        r#"["connect_document",{"id":"d","scopes":["doc:read","doc:write","summary:write"]}]"#,
        CONNECTED,
    ),
    Step::Hears(
        r#"["submitOp","c0",[{"clientSequenceNumber":1,"contents":{"handle":"4b825dc642cb6eb9a060e54bf8d69288fbee4904","head":""},"referenceSequenceNumber":1,"type":"summarize"}]]"#,
        "",
    ),
    Step::Hears(r#"["getSummary","latest"]"#, r#"["summary",null,null]"#),
    Step::Scribes,
    Step::Counts(3, 3, 1),
    Step::Hears(
        r#"["getSummary","latest"]"#,
        r#"["summary","307926ba63f968c14e80c66d2f02b188fadfdb6c",1]"#,
    ),
    Step::Hears(
        r#"["getSummary","307926ba63f968c14e80c66d2f02b188fadfdb6c"]"#,
        r#"["summary","307926ba63f968c14e80c66d2f02b188fadfdb6c",1]"#,
    ),
    Step::Hears(
        r#"["getSummary","4b825dc642cb6eb9a060e54bf8d69288fbee4904"]"#,
        r#"["summary",null,null]"#,
    ),
];

#[test]
fn connections_live_over_documents(rt: HostRuntime) {
    let alloc = rt.alloc();
    live(&rt, alloc, &CALM, SHARED, 8);
    let few = Limits {
        entries: 3,
        clients: 1,
        checkpoints: 1,
        bytes: 1_048_576,
    };
    live(
        &rt,
        alloc,
        &Setting {
            limits: few,
            ..CALM
        },
        LIMITED,
        4,
    );
    live(
        &rt,
        alloc,
        &Setting {
            store_fails: &[2],
            ..CALM
        },
        OBJECTS,
        1,
    );
    live(&rt, alloc, &CALM, SUMMARIES, 3);
}
