// Wires that end, fail, or are hostile.
ghost use Rattle.std.specs.Prelude.{◌≤◌};
ghost use Rattle.fluid_log.specs.declared.keeper.TheConstants.{LONGEST_KEPT};

use crate::sitting::{MayVisit, lines, numbers, push, restarted, says, serve, sit, visited, wire};
use fluid_io::{LONGEST_TEXT, MemorySink, MemorySource};
use fluid_json::Text;
use fluid_lane::Limits;
use fluid_lines::{LineWire, MemoryWire};
use fluid_log::MemoryShelves;
use fluid_service::Service;
use fluid_store::MemoryObjects;
use std::alloc::Global;
use std::collections::VecDeque;
use std::process::Abort;
use std::sync::Wait;
use std::test::Fail;

pub const WRITE: &str =
    r#"["connect_document",{"id":"d","mode":"write","scopes":["doc:read","doc:write"]}]
["submitOp","c0",[{"clientSequenceNumber":1,"contents":"a","referenceSequenceNumber":1,"type":"op"},{"clientSequenceNumber":1,"contents":"a","referenceSequenceNumber":1,"type":"op"},{"clientSequenceNumber":2,"contents":"b","referenceSequenceNumber":1,"type":"op"}]]"#;

pub const READ: &str = r#"["connect_document",{"id":"d","mode":"read","scopes":["doc:read"]}]
["submitOp","c0",[{"clientSequenceNumber":1,"contents":null,"referenceSequenceNumber":1,"type":"op"}]]"#;

pub const WHOLE: &str =
    r#"["connect_document_success",{"checkpointSequenceNumber":0,"clientId":"c0","maxMessageSize":1048576,"mode":"write","version":"1"}]
["op","d",[{"clientId":null,"clientSequenceNumber":-1,"contents":null,"data":"{\"clientId\":\"c0\",\"detail\":null}","minimumSequenceNumber":0,"referenceSequenceNumber":-1,"sequenceNumber":1,"timestamp":7,"type":"join"}]]
["op","d",[{"clientId":"c0","clientSequenceNumber":1,"contents":"a","minimumSequenceNumber":1,"referenceSequenceNumber":1,"sequenceNumber":2,"timestamp":7,"type":"op"},{"clientId":"c0","clientSequenceNumber":2,"contents":"b","minimumSequenceNumber":1,"referenceSequenceNumber":1,"sequenceNumber":3,"timestamp":7,"type":"op"}]]
"#;

pub const FIRST_SAID: &str =
    r#"["connect_document_success",{"checkpointSequenceNumber":0,"clientId":"c0","maxMessageSize":1048576,"mode":"write","version":"1"}]
"#;

pub const TORN: &str =
    r#"["connect_document_success",{"checkpointSequenceNumber":0,"clientId":"c0","maxMessageSize":1048576,"mode":"write","version":"1"}]
["op","d",[{"clientId":null,"clientSequenceNumber":-1,"contents":null,"data":"{\"clientId\":\"c0\",\"detail\":null}","minimumSequenceNumber":0,"referenceSequenceNumber":-1,"sequenceNumber":1,"timestamp":7,"type":"join"}]]
"#;

// The answer to a text that isn't JSON.
const UNREAD: &str =
    r#"["nack","d",[{"content":{"code":400,"message":"bad event: not JSON","type":"BadRequestError"},"operation":null,"sequenceNumber":-1}]]
"#;

const RANGE: &str = r#"["connect_document",{"id":"d","mode":"read","scopes":["doc:read"]}]
["getDeltas",1,4]"#;

const RANGED: &str =
    r#"["connect_document_success",{"checkpointSequenceNumber":3,"clientId":null,"maxMessageSize":1048576,"mode":"read","version":"1"}]
["deltas",1,[{"clientId":null,"clientSequenceNumber":-1,"contents":null,"data":"{\"clientId\":\"c0\",\"detail\":null}","minimumSequenceNumber":0,"referenceSequenceNumber":-1,"sequenceNumber":1,"timestamp":7,"type":"join"},{"clientId":"c0","clientSequenceNumber":1,"contents":"a","minimumSequenceNumber":1,"referenceSequenceNumber":1,"sequenceNumber":2,"timestamp":7,"type":"op"},{"clientId":null,"clientSequenceNumber":-1,"contents":null,"data":"\"c0\"","minimumSequenceNumber":3,"referenceSequenceNumber":-1,"sequenceNumber":3,"timestamp":7,"type":"leave"}]]
"#;

const CONNECT: &str =
    r#"["connect_document",{"id":"d","mode":"write","scopes":["doc:read","doc:write"]}]"#;

const FOURTH: &str =
    r#"["connect_document_success",{"checkpointSequenceNumber":3,"clientId":"c4","maxMessageSize":1048576,"mode":"write","version":"1"}]
["op","d",[{"clientId":null,"clientSequenceNumber":-1,"contents":null,"data":"{\"clientId\":\"c4\",\"detail\":null}","minimumSequenceNumber":3,"referenceSequenceNumber":-1,"sequenceNumber":4,"timestamp":7,"type":"join"}]]
"#;

const FILL: &str =
    r#"["connect_document",{"id":"d","mode":"write","scopes":["doc:read","doc:write"]}]
["submitOp","c0",[{"clientSequenceNumber":1,"contents":null,"referenceSequenceNumber":1,"type":"op"},{"clientSequenceNumber":2,"contents":null,"referenceSequenceNumber":1,"type":"op"},{"clientSequenceNumber":3,"contents":null,"referenceSequenceNumber":1,"type":"op"},{"clientSequenceNumber":4,"contents":null,"referenceSequenceNumber":1,"type":"op"}]]"#;

const FILLED: &str =
    r#"["connect_document_success",{"checkpointSequenceNumber":0,"clientId":"c0","maxMessageSize":1048576,"mode":"write","version":"1"}]
["op","d",[{"clientId":null,"clientSequenceNumber":-1,"contents":null,"data":"{\"clientId\":\"c0\",\"detail\":null}","minimumSequenceNumber":0,"referenceSequenceNumber":-1,"sequenceNumber":1,"timestamp":7,"type":"join"}]]
["nack","d",[{"content":{"code":429,"message":"document is full","type":"LimitExceededError"},"operation":null,"sequenceNumber":-1}]]
["nack","d",[{"content":{"code":429,"message":"document is full","type":"LimitExceededError"},"operation":null,"sequenceNumber":-1}]]
["op","d",[{"clientId":"c0","clientSequenceNumber":1,"contents":null,"minimumSequenceNumber":1,"referenceSequenceNumber":1,"sequenceNumber":2,"timestamp":7,"type":"op"},{"clientId":"c0","clientSequenceNumber":2,"contents":null,"minimumSequenceNumber":1,"referenceSequenceNumber":1,"sequenceNumber":3,"timestamp":7,"type":"op"}]]
"#;

const PUT: &str =
    r#"["connect_document",{"id":"d","mode":"write","scopes":["doc:read","doc:write"]}]
["putObject","626c6f6220360068656c6c6f0a"]"#;

const READ_TWO: &str = r#"["connect_document",{"id":"d","mode":"read","scopes":["doc:read"]}]
["getDeltas",1,3]"#;

const NOOP: &str =
    r#"["connect_document",{"id":"d","mode":"write","scopes":["doc:read","doc:write"]}]
["submitOp","c0",[{"clientSequenceNumber":1,"contents":null,"referenceSequenceNumber":1,"type":"noop"}]]"#;

const FOREIGN: &str =
    r#"["connect_document",{"id":"d","mode":"write","scopes":["doc:read","doc:write"]}]
["submitOp","c5",[{"clientSequenceNumber":1,"contents":null,"referenceSequenceNumber":1,"type":"op"}]]"#;

const SUBMIT: &str =
    r#"["submitOp","c0",[{"clientSequenceNumber":1,"contents":"a","referenceSequenceNumber":1,"type":"op"},{"clientSequenceNumber":1,"contents":"a","referenceSequenceNumber":1,"type":"op"},{"clientSequenceNumber":2,"contents":"b","referenceSequenceNumber":1,"type":"op"}]]"#;

const FIRST: &str =
    r#"["submitOp","c0",[{"clientSequenceNumber":1,"contents":null,"referenceSequenceNumber":1,"type":"op"}"#;

const MORE: &str =
    r#",{"clientSequenceNumber":1,"contents":null,"referenceSequenceNumber":1,"type":"op"}"#;

const LAST: &str = r#"]]"#;

const READER: &str =
    r#"["connect_document_success",{"checkpointSequenceNumber":2,"clientId":null,"maxMessageSize":1048576,"mode":"read","version":"1"}]
"#;

// How many messages a document has afterwards, as a reader is told.
pub fn has_messages<R: Abort + Wait>(
    rt: &R,
    alloc: Global,
    service: &Service<MemoryShelves>,
    visit: MayVisit,
    messages: u64,
) {
    let mut objects = MemoryObjects::new(alloc, Vec::new(alloc));
    let mut reader = lines(rt, alloc, READ, 0, 2);
    let back = sit(
        rt,
        alloc,
        service,
        &mut objects,
        &mut reader,
        visit,
        "the wire failed 0 0 0 0 1",
    );
    let wanted = format!(in alloc;
        r#"["connect_document_success",{{"checkpointSequenceNumber":{messages},"clientId":null,"maxMessageSize":1048576,"mode":"read","version":"1"}}]"#
    );
    let mut wanted = wanted.expect(rt, "memory");
    wanted.push('\n').expect(rt, "memory");
    says(rt, alloc, &reader, wanted.as_str());
    drop(wanted);
    drop(reader);
    drop(back);
    drop(objects);
}

// Runs a session over this wire: what comes of it, which texts go out, where that is asked, and how many messages the document has
// behind it.
fn run<R: Abort + Wait>(
    rt: &R,
    alloc: Global,
    limits: Limits,
    wire: MemoryWire,
    wanted: &str,
    texts: Option<&str>,
    messages: u64,
)
    requires { limits.bytes ≤ LONGEST_KEPT }
{
    let service = serve(rt, alloc, limits);
    let mut objects = MemoryObjects::new(alloc, numbers(rt, alloc, &[1]));
    let mut wire = wire;
    let visit = sit(rt, alloc, &service, &mut objects, &mut wire, None, wanted);
    if let Some(texts) = texts {
        says(rt, alloc, &wire, texts);
    }
    has_messages(rt, alloc, &service, visit, messages);
    drop(wire);
    drop(objects);
    drop(service);
}

// The receive and the send that fail, what comes of a wire with two texts, which texts go out, and how many messages the document
// has behind the leave.
const FAILING: [(u64, u64, &str, &str, u64); 7] = [
    (0, 0, "closed 2 1 0 0 0", WHOLE, 4),
    (1, 0, "the wire failed 0 0 0 0 0", "", 0),
    (2, 0, "the wire failed 0 0 0 0 0", TORN, 2),
    (3, 0, "the wire failed 2 1 0 0 0", WHOLE, 4),
    (0, 1, "the wire failed 0 0 0 0 0", "", 2),
    (0, 2, "the wire failed 0 0 0 0 0", FIRST_SAID, 2),
    (0, 3, "the wire failed 2 1 0 0 0", TORN, 4),
];

#[test]
fn each_call_of_a_wire_fails(rt: HostRuntime) -> Result<(), Fail> {
    let alloc = rt.alloc();
    for (receive, send, wanted, texts, messages) in FAILING {
        let wire = lines(&rt, alloc, WRITE, receive, send);
        run(
            &rt,
            alloc,
            Limits::FULL,
            wire,
            wanted,
            Some(texts),
            messages,
        );
    }
    Ok(())
}

// A session over lines, byte for byte.
fn over_lines<R: Abort + Wait>(
    rt: &R,
    alloc: Global,
    visit: MayVisit,
    wanted: &str,
    written: &str,
) -> MayVisit {
    let service = serve(rt, alloc, Limits::FULL);
    let mut objects = MemoryObjects::new(alloc, Vec::new(alloc));
    let bytes = Vec::from_slice(alloc, WRITE.as_bytes()).expect(rt, "memory");
    let source = MemorySource::new(bytes, Vec::new(alloc));
    let mut wire = LineWire::new(source, MemorySink::new(alloc, Vec::new(alloc)));
    let back = sit(rt, alloc, &service, &mut objects, &mut wire, visit, wanted);
    let (source, sink) = wire.into_parts();
    assert!(rt; sink.written() == written.as_bytes(), "written");
    drop(source);
    drop(sink);
    drop(objects);
    drop(service);
    back
}

// A session over a wire with these lines.
fn with_visit<R: Abort + Wait>(
    rt: &R,
    alloc: Global,
    text: &str,
    visit: MayVisit,
    wanted: &str,
    texts: &str,
) -> MayVisit {
    let service = serve(rt, alloc, Limits::FULL);
    let mut objects = MemoryObjects::new(alloc, Vec::new(alloc));
    let mut wire = lines(rt, alloc, text, 0, 0);
    let back = sit(rt, alloc, &service, &mut objects, &mut wire, visit, wanted);
    says(rt, alloc, &wire, texts);
    drop(wire);
    drop(objects);
    drop(service);
    back
}

#[test]
fn lines_are_answered(rt: HostRuntime) -> Result<(), Fail> {
    let alloc = rt.alloc();
    let back = over_lines(&rt, alloc, None, "closed 2 1 0 0 0", WHOLE);
    drop(back);
    // The fourth append fails and adds its record: it is cut off before the leave, which is the fourth entry.
    let visit = Some(visited(&rt, alloc, 4));
    let back = over_lines(&rt, alloc, visit, "the log failed 0 1 1 1 0 0 0", TORN);
    let back = with_visit(&rt, alloc, RANGE, back, "closed 0 0 0 0 0", RANGED);
    let back = with_visit(&rt, alloc, CONNECT, back, "closed 0 0 0 0 0", FOURTH);
    drop(back);
    // Behind a restart messages are read, of which the first read fails.
    let visit = Some(visited(&rt, alloc, 7));
    let back = with_visit(&rt, alloc, CONNECT, visit, "closed 0 0 0 0 0", TORN);
    let back = restarted(&rt, alloc, back);
    let back = with_visit(
        &rt,
        alloc,
        READ_TWO,
        back,
        "the deltas failed 0 1 0 0 0 0 0",
        READER,
    );
    drop(back);
    Ok(())
}

const FEW: Limits = Limits {
    entries: 3,
    clients: 1,
    checkpoints: 1,
    bytes: 1_048_576,
};

// A wire on which a connect comes and then one text so often.
fn often(rt: &impl Abort, alloc: Global, text: &str, count: u64) -> MemoryWire {
    let mut texts = VecDeque::new(alloc);
    push(rt, alloc, &mut texts, CONNECT);
    for _ in 0..count {
        push(rt, alloc, &mut texts, text);
    }
    wire(rt, alloc, texts, 0, 0)
}

// The same of each prefix of a text.
fn prefixes(rt: &impl Abort, alloc: Global, text: &str) -> MemoryWire {
    let mut texts = VecDeque::new(alloc);
    push(rt, alloc, &mut texts, CONNECT);
    let mut prefix = String::new(alloc);
    for c in text.chars() {
        push(rt, alloc, &mut texts, prefix.as_str());
        prefix.push(c).expect(rt, "memory");
    }
    drop(prefix);
    wire(rt, alloc, texts, 0, 0)
}

// A text behind which another stands so often.
fn long(
    rt: &impl Abort,
    alloc: Global,
    first: &str,
    more: &str,
    count: usize,
    last: &str,
) -> String {
    let mut text = String::new(alloc);
    text.push_str(first).expect(rt, "memory");
    for _ in 0..count {
        text.push_str(more).expect(rt, "memory");
    }
    text.push_str(last).expect(rt, "memory");
    text
}

#[test]
fn hostile_wires_end(rt: HostRuntime) -> Result<(), Fail> {
    let alloc = rt.alloc();
    let full = Limits::FULL;
    run(
        &rt,
        alloc,
        FEW,
        lines(&rt, alloc, FILL, 0, 0),
        "closed 2 0 0 0 1",
        Some(FILLED),
        4,
    );
    run(
        &rt,
        alloc,
        full,
        lines(&rt, alloc, PUT, 0, 0),
        "the store failed 0 1 0 0 0 0 0",
        Some(TORN),
        2,
    );
    run(
        &rt,
        alloc,
        full,
        lines(&rt, alloc, NOOP, 0, 0),
        "closed 0 0 0 1 0",
        Some(TORN),
        2,
    );
    run(
        &rt,
        alloc,
        full,
        lines(&rt, alloc, FOREIGN, 0, 0),
        "closed 0 0 0 0 1",
        None,
        2,
    );
    let nacks = long(&rt, alloc, TORN, UNREAD, 1_000, "");
    run(
        &rt,
        alloc,
        full,
        often(&rt, alloc, "hello", 1001),
        "abused 1000 0 0 0 0 1000",
        Some(nacks.as_str()),
        2,
    );
    drop(nacks);
    run(
        &rt,
        alloc,
        full,
        prefixes(&rt, alloc, SUBMIT),
        "closed 0 0 0 0 265",
        None,
        2,
    );
    let copies = long(&rt, alloc, FIRST, MORE, 9_999, LAST);
    run(
        &rt,
        alloc,
        full,
        often(&rt, alloc, copies.as_str(), 1),
        "closed 1 9999 0 0 0",
        None,
        3,
    );
    drop(copies);
    let spaces = long(&rt, alloc, " ", " ", LONGEST_TEXT, "");
    run(
        &rt,
        alloc,
        full,
        often(&rt, alloc, spaces.as_str(), 1),
        "too long 1048577 0 0 0 0 0",
        None,
        2,
    );
    drop(spaces);
    Ok(())
}
