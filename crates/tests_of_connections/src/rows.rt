// The lives.
ghost use Rattle.std.specs.Prelude.{◌≡◌};

use crate::lives::{Step, life, numbers, serve, shelves, shelves_with, visited};
use fluid_json::Bytes;
use fluid_lane::Limits;
use fluid_locked::LockedObjects;
use fluid_store::{MemoryObjects, ObjectFault, Objects};
use fluid_tree::Id;
use std::alloc::Global;
use std::sync::Mutex;
use std::test::Fail;

const CONNECT: &str =
    r#"["connect_document",{"id":"d","scopes":["doc:read","doc:write","summary:write"]}]"#;

const CONNECTED: &str =
    r#"["connect_document_success",{"checkpointSequenceNumber":0,"clientId":"c0","maxMessageSize":1048576,"mode":"write","version":"1"}]"#;

const NOT_CONNECTED: &str =
    r#"["nack","",[{"content":{"code":400,"message":"not connected","type":"BadRequestError"},"operation":null,"sequenceNumber":-1}]]"#;

const FULL: &str =
    r#"["nack","d",[{"content":{"code":429,"message":"document is full","type":"LimitExceededError"},"operation":null,"sequenceNumber":-1}]]"#;

const JOINED: &str =
    r#"["op","d",[{"clientId":null,"clientSequenceNumber":-1,"contents":null,"data":"{\"clientId\":\"c0\",\"detail\":null}","minimumSequenceNumber":0,"referenceSequenceNumber":-1,"sequenceNumber":1,"timestamp":5,"type":"join"}]]"#;

const OP: &str =
    r#"["submitOp","c0",[{"clientSequenceNumber":1,"contents":null,"referenceSequenceNumber":1,"type":"op"}]]"#;

// A record of a log.
const JOIN: &str =
    r#"{"clientId":"c0","detail":null,"moment":4,"raw":"join","scopes":["doc:read","doc:write"]}"#;

// Who isn't connected is answered by nacks, and who only reads may not write.
const FRESH: [(u8, Step); 12] = [
    (
        1,
        Step::Hears(
            "hello",
            r#"["nack","",[{"content":{"code":400,"message":"bad event: not JSON","type":"BadRequestError"},"operation":null,"sequenceNumber":-1}]]"#,
        ),
    ),
    (
        1,
        Step::Hears(
            r#"["dance"]"#,
            r#"["nack","",[{"content":{"code":400,"message":"bad event: unknown event","type":"BadRequestError"},"operation":null,"sequenceNumber":-1}]]"#,
        ),
    ),
    (1, Step::Hears(r#"["submitOp","c0",[]]"#, NOT_CONNECTED)),
    (
        1,
        Step::Hears(
            r#"["getObject","ce013625030ba8dba906f756967f9e9ca394464a"]"#,
            NOT_CONNECTED,
        ),
    ),
    (1, Step::Collects("")),
    (
        1,
        Step::Hears(
            r#"["connect_document",{"id":"d","mode":"read","scopes":[]}]"#,
            r#"["connect_document_error",{"code":403,"message":"doc:read is missing"}]"#,
        ),
    ),
    (
        1,
        Step::Hears(
            r#"["connect_document",{"id":"d","mode":"write","scopes":["doc:read"]}]"#,
            r#"["connect_document_success",{"checkpointSequenceNumber":0,"clientId":null,"maxMessageSize":1048576,"mode":"read","version":"1"}]"#,
        ),
    ),
    (
        1,
        Step::Hears(
            r#"["submitOp","c0",[{"clientSequenceNumber":1,"contents":null,"referenceSequenceNumber":0,"type":"op"}]]"#,
            r#"["nack","d",[{"content":{"code":403,"message":"read only connection","type":"InvalidScopeError"},"operation":null,"sequenceNumber":-1}]]"#,
        ),
    ),
    (
        1,
        Step::Hears(
            CONNECT,
            r#"["connect_document_error",{"code":400,"message":"already connected"}]"#,
        ),
    ),
    (1, Step::Collects("")),
    (1, Step::Leaves("left")),
    (1, Step::Collects("")),
];

// A writer gets its join first, and what it enters as it was entered. Numbers that aren't whole enter nothing. A noop without contents is
// absorbed, and a connection that is made of what comes back goes on from what that had seen.
const WRITES: [(u8, Step); 22] = [
    (1, Step::Hears(CONNECT, CONNECTED)),
    (1, Step::Collects(JOINED)),
    (1, Step::Collects("")),
    (
        1,
        Step::Hears(
            r#"["submitOp","c0",[{"clientSequenceNumber":1,"contents":1.5,"referenceSequenceNumber":1,"type":"op"}]]"#,
            r#"["nack","d",[{"content":{"code":400,"message":"bad event: a number is not whole","type":"BadRequestError"},"operation":null,"sequenceNumber":-1}]]"#,
        ),
    ),
    (
        1,
        Step::Hears(
            r#"["submitOp","c5",[{"clientSequenceNumber":1,"contents":null,"referenceSequenceNumber":1,"type":"op"}]]"#,
            r#"["nack","d",[{"content":{"code":400,"message":"foreign client","type":"BadRequestError"},"operation":null,"sequenceNumber":-1}]]"#,
        ),
    ),
    (
        1,
        Step::Hears(
            CONNECT,
            r#"["connect_document_error",{"code":400,"message":"already connected"}]"#,
        ),
    ),
    (1, Step::Hears(OP, "1 0 0 0")),
    (
        1,
        Step::Collects(
            r#"["op","d",[{"clientId":"c0","clientSequenceNumber":1,"contents":null,"minimumSequenceNumber":1,"referenceSequenceNumber":1,"sequenceNumber":2,"timestamp":5,"type":"op"}]]"#,
        ),
    ),
    (
        1,
        Step::Hears(
            r#"["submitOp","c0",[{"clientSequenceNumber":2,"contents":null,"referenceSequenceNumber":2,"type":"noop"}]]"#,
            "0 0 0 1",
        ),
    ),
    (1, Step::Collects("")),
    (
        1,
        Step::Hears(
            r#"["submitOp","c0",[{"clientSequenceNumber":1,"contents":null,"referenceSequenceNumber":2,"type":"op"},{"clientSequenceNumber":4,"contents":null,"referenceSequenceNumber":2,"type":"op"}]]"#,
            r#"["nack","d",[{"content":{"code":400,"message":"Gap in client sequence numbers","type":"BadRequestError"},"operation":{"clientSequenceNumber":4,"contents":null,"referenceSequenceNumber":2,"type":"op"},"sequenceNumber":2}]]
0 1 1 0"#,
        ),
    ),
    (1, Step::Collects("")),
    (
        1,
        Step::Hears(
            r#"["getDeltas",1,3]"#,
            r#"["deltas",1,[{"clientId":null,"clientSequenceNumber":-1,"contents":null,"data":"{\"clientId\":\"c0\",\"detail\":null}","minimumSequenceNumber":0,"referenceSequenceNumber":-1,"sequenceNumber":1,"timestamp":5,"type":"join"},{"clientId":"c0","clientSequenceNumber":1,"contents":null,"minimumSequenceNumber":1,"referenceSequenceNumber":1,"sequenceNumber":2,"timestamp":5,"type":"op"}]]"#,
        ),
    ),
    (1, Step::Hears(r#"["getDeltas",3,3]"#, r#"["deltas",3,[]]"#)),
    (
        1,
        Step::Hears(
            r#"["getDeltas",3,4]"#,
            r#"["nack","d",[{"content":{"code":400,"message":"bad event: bad field to: out of range","type":"BadRequestError"},"operation":null,"sequenceNumber":-1}]]"#,
        ),
    ),
    (
        1,
        Step::Hears(
            r#"["getDeltas",4,4]"#,
            r#"["nack","d",[{"content":{"code":400,"message":"bad event: bad field from: out of range","type":"BadRequestError"},"operation":null,"sequenceNumber":-1}]]"#,
        ),
    ),
    (
        1,
        Step::Hears(r#"["getSummary","latest"]"#, r#"["summary",null,null]"#),
    ),
    (1, Step::Leaves("left")),
    (1, Step::Collects("")),
    (1, Step::Again),
    (
        1,
        Step::Hears(
            CONNECT,
            r#"["connect_document_success",{"checkpointSequenceNumber":3,"clientId":"c6","maxMessageSize":1048576,"mode":"write","version":"1"}]"#,
        ),
    ),
    (
        1,
        Step::Collects(
            r#"["op","d",[{"clientId":null,"clientSequenceNumber":-1,"contents":null,"data":"{\"clientId\":\"c6\",\"detail\":null}","minimumSequenceNumber":3,"referenceSequenceNumber":-1,"sequenceNumber":4,"timestamp":5,"type":"join"}]]"#,
        ),
    ),
];

// What another connection enters comes with the next collection, and with no later one.
const TURNS: [(u8, Step); 11] = [
    (1, Step::Hears(CONNECT, CONNECTED)),
    (1, Step::Collects(JOINED)),
    (
        2,
        Step::Hears(
            CONNECT,
            r#"["connect_document_success",{"checkpointSequenceNumber":1,"clientId":"c1","maxMessageSize":1048576,"mode":"write","version":"1"}]"#,
        ),
    ),
    (
        1,
        Step::Collects(
            r#"["op","d",[{"clientId":null,"clientSequenceNumber":-1,"contents":null,"data":"{\"clientId\":\"c1\",\"detail\":null}","minimumSequenceNumber":0,"referenceSequenceNumber":-1,"sequenceNumber":2,"timestamp":5,"type":"join"}]]"#,
        ),
    ),
    (
        2,
        Step::Collects(
            r#"["op","d",[{"clientId":null,"clientSequenceNumber":-1,"contents":null,"data":"{\"clientId\":\"c1\",\"detail\":null}","minimumSequenceNumber":0,"referenceSequenceNumber":-1,"sequenceNumber":2,"timestamp":5,"type":"join"}]]"#,
        ),
    ),
    (
        2,
        Step::Hears(
            r#"["submitOp","c1",[{"clientSequenceNumber":1,"contents":null,"referenceSequenceNumber":2,"type":"op"}]]"#,
            "1 0 0 0",
        ),
    ),
    (
        1,
        Step::Collects(
            r#"["op","d",[{"clientId":"c1","clientSequenceNumber":1,"contents":null,"minimumSequenceNumber":0,"referenceSequenceNumber":2,"sequenceNumber":3,"timestamp":5,"type":"op"}]]"#,
        ),
    ),
    (1, Step::Collects("")),
    (2, Step::Leaves("left")),
    (
        1,
        Step::Collects(
            r#"["op","d",[{"clientId":null,"clientSequenceNumber":-1,"contents":null,"data":"\"c1\"","minimumSequenceNumber":0,"referenceSequenceNumber":-1,"sequenceNumber":4,"timestamp":5,"type":"leave"}]]"#,
        ),
    ),
    (1, Step::Collects("")),
];

// Of many messages an event brings 64.
const MANY: [(u8, Step); 4] = [
    (1, Step::Hears(CONNECT, CONNECTED)),
    (1, Step::Submits(70, "70 0 0 0")),
    (
        1,
        Step::Collects(
            r#"64 messages
7 messages"#,
        ),
    ),
    (1, Step::Collects("")),
];

// Objects are put and got by who is connected.
const PUTS: [(u8, Step); 6] = [
    (1, Step::Hears(CONNECT, CONNECTED)),
    (
        1,
        Step::Hears(
            r#"["putObject","626c6f6220360068656c6c6f0a"]"#,
            r#"["objectStored","ce013625030ba8dba906f756967f9e9ca394464a"]"#,
        ),
    ),
    (
        1,
        Step::Hears(
            r#"["getObject","ce013625030ba8dba906f756967f9e9ca394464a"]"#,
            r#"["object","ce013625030ba8dba906f756967f9e9ca394464a","626c6f6220360068656c6c6f0a"]"#,
        ),
    ),
    (
        1,
        Step::Hears(
            r#"["putObject","626c6f6220360068656c6c6f0a"]"#,
            r#"["objectStored","ce013625030ba8dba906f756967f9e9ca394464a"]"#,
        ),
    ),
    (
        1,
        Step::Hears(
            r#"["getObject","4b825dc642cb6eb9a060e54bf8d69288fbee4904"]"#,
            r#"["object","4b825dc642cb6eb9a060e54bf8d69288fbee4904",null]"#,
        ),
    ),
    (
        1,
        Step::Hears(
            r#"["putObject","626c6f6220320078"]"#,
            r#"["nack","d",[{"content":{"code":400,"message":"bad event: bad field object: not allowed","type":"BadRequestError"},"operation":null,"sequenceNumber":-1}]]"#,
        ),
    ),
];

// A summary of no channels at the join's number is acknowledged, and so it is found by its handle.
const SUMMARY: [(u8, Step); 8] = [
    (1, Step::Hears(CONNECT, CONNECTED)),
    (
        1,
        Step::Hears(
            r#"["putObject","74726565203000"]"#,
            r#"["objectStored","4b825dc642cb6eb9a060e54bf8d69288fbee4904"]"#,
        ),
    ),
    (
        1,
        Step::Hears(
            r#"["submitOp","c0",[{"clientSequenceNumber":1,"contents":{"handle":"4b825dc642cb6eb9a060e54bf8d69288fbee4904","head":""},"referenceSequenceNumber":1,"type":"summarize"}]]"#,
            "1 0 0 0",
        ),
    ),
    (
        1,
        Step::Hears(r#"["getSummary","latest"]"#, r#"["summary",null,null]"#),
    ),
    (1, Step::Works),
    (
        1,
        Step::Hears(
            r#"["getSummary","latest"]"#,
            r#"["summary","307926ba63f968c14e80c66d2f02b188fadfdb6c",1]"#,
        ),
    ),
    (
        1,
        Step::Hears(
            r#"["getSummary","307926ba63f968c14e80c66d2f02b188fadfdb6c"]"#,
            r#"["summary","307926ba63f968c14e80c66d2f02b188fadfdb6c",1]"#,
        ),
    ),
    (
        1,
        Step::Hears(
            r#"["getSummary","4b825dc642cb6eb9a060e54bf8d69288fbee4904"]"#,
            r#"["summary",null,null]"#,
        ),
    ),
];

// Behind the submission that finds the document full none is asked. It may still be read.
const FILLS: [(u8, Step); 7] = [
    (1, Step::Hears(CONNECT, CONNECTED)),
    (
        1,
        Step::Hears(
            r#"["submitOp","c0",[{"clientSequenceNumber":1,"contents":null,"referenceSequenceNumber":1,"type":"op"},{"clientSequenceNumber":2,"contents":null,"referenceSequenceNumber":2,"type":"op"},{"clientSequenceNumber":3,"contents":null,"referenceSequenceNumber":3,"type":"op"},{"clientSequenceNumber":4,"contents":null,"referenceSequenceNumber":3,"type":"op"}]]"#,
            r#"["nack","d",[{"content":{"code":429,"message":"document is full","type":"LimitExceededError"},"operation":null,"sequenceNumber":-1}]]
["nack","d",[{"content":{"code":429,"message":"document is full","type":"LimitExceededError"},"operation":null,"sequenceNumber":-1}]]
2 0 0 0"#,
        ),
    ),
    (
        1,
        Step::Hears(
            r#"["submitOp","c0",[{"clientSequenceNumber":3,"contents":null,"referenceSequenceNumber":3,"type":"op"}]]"#,
            FULL,
        ),
    ),
    (
        1,
        Step::Collects(
            r#"["op","d",[{"clientId":null,"clientSequenceNumber":-1,"contents":null,"data":"{\"clientId\":\"c0\",\"detail\":null}","minimumSequenceNumber":0,"referenceSequenceNumber":-1,"sequenceNumber":1,"timestamp":5,"type":"join"},{"clientId":"c0","clientSequenceNumber":1,"contents":null,"minimumSequenceNumber":1,"referenceSequenceNumber":1,"sequenceNumber":2,"timestamp":5,"type":"op"},{"clientId":"c0","clientSequenceNumber":2,"contents":null,"minimumSequenceNumber":2,"referenceSequenceNumber":2,"sequenceNumber":3,"timestamp":5,"type":"op"}]]"#,
        ),
    ),
    (1, Step::Leaves("left")),
    (
        2,
        Step::Hears(
            CONNECT,
            r#"["connect_document_error",{"code":429,"message":"document is full"}]"#,
        ),
    ),
    (
        2,
        Step::Hears(
            r#"["connect_document",{"id":"d","mode":"read","scopes":["doc:read"]}]"#,
            r#"["connect_document_success",{"checkpointSequenceNumber":4,"clientId":null,"maxMessageSize":1048576,"mode":"read","version":"1"}]"#,
        ),
    ),
];

// One client is joined already. A document whose join was refused isn't connected to, and another one may be.
const CROWDS: [(u8, Step); 4] = [
    (1, Step::Hears(CONNECT, CONNECTED)),
    (
        2,
        Step::Hears(
            CONNECT,
            r#"["connect_document_error",{"code":429,"message":"too many clients"}]"#,
        ),
    ),
    (2, Step::Hears(OP, NOT_CONNECTED)),
    (
        2,
        Step::Hears(
            r#"["connect_document",{"id":"e","scopes":["doc:read","doc:write"]}]"#,
            CONNECTED,
        ),
    ),
];

// Of the 1,025th document it is told that too many are open; one that is open is connected to.
const OPENS: [(u8, Step); 3] = [
    (
        1,
        Step::Opens(
            1024,
            r#"["connect_document_error",{"code":429,"message":"too many clients"}]"#,
        ),
    ),
    (
        1,
        Step::Hears(
            CONNECT,
            r#"["connect_document_error",{"code":429,"message":"too many documents"}]"#,
        ),
    ),
    (
        1,
        Step::Hears(
            r#"["connect_document",{"id":"d7","mode":"read","scopes":["doc:read"]}]"#,
            r#"["connect_document_success",{"checkpointSequenceNumber":0,"clientId":null,"maxMessageSize":1048576,"mode":"read","version":"1"}]"#,
        ),
    ),
];

// Shelves that fail once.
const SHELVES: [(u8, Step); 4] = [
    (1, Step::Hears(CONNECT, "the shelves failed")),
    (1, Step::Collects("")),
    (1, Step::Hears(CONNECT, CONNECTED)),
    (1, Step::Leaves("left")),
];

// A store of which the first call, the third and the sixth fail: a put looks first.
const STORES: [(u8, Step); 7] = [
    (1, Step::Hears(CONNECT, CONNECTED)),
    (
        1,
        Step::Hears(
            r#"["putObject","626c6f6220360068656c6c6f0a"]"#,
            "the store failed",
        ),
    ),
    (
        1,
        Step::Hears(
            r#"["putObject","626c6f6220360068656c6c6f0a"]"#,
            "the store failed",
        ),
    ),
    (
        1,
        Step::Hears(
            r#"["putObject","626c6f6220360068656c6c6f0a"]"#,
            r#"["objectStored","ce013625030ba8dba906f756967f9e9ca394464a"]"#,
        ),
    ),
    (
        1,
        Step::Hears(
            r#"["getObject","ce013625030ba8dba906f756967f9e9ca394464a"]"#,
            "the store failed",
        ),
    ),
    (
        1,
        Step::Hears(
            r#"["getObject","ce013625030ba8dba906f756967f9e9ca394464a"]"#,
            r#"["object","ce013625030ba8dba906f756967f9e9ca394464a","626c6f6220360068656c6c6f0a"]"#,
        ),
    ),
    (1, Step::Hears(OP, "1 0 0 0")),
];

// A store that holds other bytes under an id.
const CLASH: [(u8, Step); 3] = [
    (1, Step::Hears(CONNECT, CONNECTED)),
    (
        1,
        Step::Hears(
            r#"["putObject","626c6f6220360068656c6c6f0a"]"#,
            "another object",
        ),
    ),
    (
        1,
        Step::Hears(
            r#"["getObject","ce013625030ba8dba906f756967f9e9ca394464a"]"#,
            r#"["object","ce013625030ba8dba906f756967f9e9ca394464a","00"]"#,
        ),
    ),
];

// A store that finds no memory.
const POOR: [(u8, Step); 5] = [
    (1, Step::Hears(CONNECT, CONNECTED)),
    (
        1,
        Step::Hears(
            r#"["getObject","ce013625030ba8dba906f756967f9e9ca394464a"]"#,
            "no memory",
        ),
    ),
    (
        1,
        Step::Hears(r#"["putObject","626c6f6220360068656c6c6f0a"]"#, "no memory"),
    ),
    (1, Step::Hears(OP, "1 0 0 0")),
    (1, Step::Leaves("left")),
];

// The appends of the first join, of the first submission and of the leave fail. What comes back is the visit that was handed in.
const LOG: [(u8, Step); 8] = [
    (1, Step::Hears(CONNECT, "the log failed")),
    (1, Step::Hears(CONNECT, CONNECTED)),
    (
        1,
        Step::Hears(
            r#"["submitOp","c0",[{"clientSequenceNumber":1,"contents":null,"referenceSequenceNumber":1,"type":"op"},{"clientSequenceNumber":2,"contents":null,"referenceSequenceNumber":1,"type":"op"}]]"#,
            "the log failed",
        ),
    ),
    (1, Step::Hears(OP, "1 0 0 0")),
    (1, Step::Leaves("the log failed")),
    (1, Step::Leaves("left")),
    (1, Step::Again),
    (
        1,
        Step::Hears(
            CONNECT,
            r#"["connect_document_success",{"checkpointSequenceNumber":3,"clientId":"c3","maxMessageSize":1048576,"mode":"write","version":"1"}]"#,
        ),
    ),
];

// Behind a restart messages are read, of which the first read fails, and the fourth.
const DELTAS: [(u8, Step); 7] = [
    (1, Step::Hears(CONNECT, CONNECTED)),
    (1, Step::Hears(OP, "1 0 0 0")),
    (1, Step::Works),
    (1, Step::Collects("the deltas failed")),
    (
        1,
        Step::Collects(
            r#"["op","d",[{"clientId":null,"clientSequenceNumber":-1,"contents":null,"data":"{\"clientId\":\"c0\",\"detail\":null}","minimumSequenceNumber":0,"referenceSequenceNumber":-1,"sequenceNumber":1,"timestamp":5,"type":"join"},{"clientId":"c0","clientSequenceNumber":1,"contents":null,"minimumSequenceNumber":1,"referenceSequenceNumber":1,"sequenceNumber":2,"timestamp":5,"type":"op"}]]"#,
        ),
    ),
    (1, Step::Hears(r#"["getDeltas",1,3]"#, "the deltas failed")),
    (
        1,
        Step::Hears(
            r#"["getDeltas",1,3]"#,
            r#"["deltas",1,[{"clientId":null,"clientSequenceNumber":-1,"contents":null,"data":"{\"clientId\":\"c0\",\"detail\":null}","minimumSequenceNumber":0,"referenceSequenceNumber":-1,"sequenceNumber":1,"timestamp":5,"type":"join"},{"clientId":"c0","clientSequenceNumber":1,"contents":null,"minimumSequenceNumber":1,"referenceSequenceNumber":1,"sequenceNumber":2,"timestamp":5,"type":"op"}]]"#,
        ),
    ),
];

// Where 4,096 messages are in memory, the next one needs room, and the first delta that is put for it fails.
const ROOM: [(u8, Step); 3] = [
    (1, Step::Hears(CONNECT, CONNECTED)),
    (
        1,
        Step::Submits(
            4096,
            r#"the deltas failed at an entry
4095 0 0 0"#,
        ),
    ),
    (
        1,
        Step::Hears(
            r#"["submitOp","c0",[{"clientSequenceNumber":4096,"contents":null,"referenceSequenceNumber":1,"type":"op"}]]"#,
            "1 0 0 0",
        ),
    ),
];

// The log of `d` has c0's join at 4. The call at which that is read fails, and then the one that is to append c0's leave: nobody is
// connected, and the next start finds the log as it was. What is entered behind it all is the join, one leave, and the join of who connects.
const STARTS: [(u8, Step); 9] = [
    (1, Step::Hears(CONNECT, "the log failed at a start")),
    (1, Step::Collects("")),
    (1, Step::Hears(OP, NOT_CONNECTED)),
    (1, Step::Hears(CONNECT, "the log failed at a start")),
    (
        2,
        Step::Hears(
            r#"["connect_document",{"id":"e","scopes":["doc:read","doc:write"]}]"#,
            CONNECTED,
        ),
    ),
    (
        1,
        Step::Hears(
            CONNECT,
            r#"["connect_document_success",{"checkpointSequenceNumber":2,"clientId":"c2","maxMessageSize":1048576,"mode":"write","version":"1"}]"#,
        ),
    ),
    (
        1,
        Step::Collects(
            r#"["op","d",[{"clientId":null,"clientSequenceNumber":-1,"contents":null,"data":"{\"clientId\":\"c2\",\"detail\":null}","minimumSequenceNumber":2,"referenceSequenceNumber":-1,"sequenceNumber":3,"timestamp":5,"type":"join"}]]"#,
        ),
    ),
    (
        1,
        Step::Hears(
            r#"["getDeltas",1,4]"#,
            r#"["deltas",1,[{"clientId":null,"clientSequenceNumber":-1,"contents":null,"data":"{\"clientId\":\"c0\",\"detail\":null}","minimumSequenceNumber":0,"referenceSequenceNumber":-1,"sequenceNumber":1,"timestamp":4,"type":"join"},{"clientId":null,"clientSequenceNumber":-1,"contents":null,"data":"\"c0\"","minimumSequenceNumber":2,"referenceSequenceNumber":-1,"sequenceNumber":2,"timestamp":5,"type":"leave"},{"clientId":null,"clientSequenceNumber":-1,"contents":null,"data":"{\"clientId\":\"c2\",\"detail\":null}","minimumSequenceNumber":2,"referenceSequenceNumber":-1,"sequenceNumber":3,"timestamp":5,"type":"join"}]]"#,
        ),
    ),
    (1, Step::Leaves("left")),
];

// The log of `d` has a record that isn't one. Who asked for `d` isn't connected, and may connect to another document.
const SPOILT: [(u8, Step); 5] = [
    (1, Step::Hears(CONNECT, "a record is bad at a start")),
    (1, Step::Hears(CONNECT, "a record is bad at a start")),
    (1, Step::Hears(OP, NOT_CONNECTED)),
    (
        1,
        Step::Hears(
            r#"["connect_document",{"id":"e","scopes":["doc:read","doc:write"]}]"#,
            CONNECTED,
        ),
    ),
    (2, Step::Hears(CONNECT, "a record is bad at a start")),
];

// As many entries as three, and one client.
const FEW: Limits = Limits {
    entries: 3,
    clients: 1,
    checkpoints: 1,
    bytes: 1_048_576,
};

// No client.
const NONE: Limits = Limits {
    entries: 3,
    clients: 0,
    checkpoints: 1,
    bytes: 1_048_576,
};

#[test]
fn texts_are_answered(rt: HostRuntime) -> Result<(), Fail> {
    let alloc = rt.alloc();
    let store = Mutex::new(MemoryObjects::new(alloc, Vec::new(alloc)));
    let mut objects = LockedObjects::new(&rt, &store);
    let first = serve(&rt, alloc, shelves(&rt, alloc, &[]), Limits::FULL);
    life(&rt, alloc, &first, &mut objects, None, &FRESH);
    life(&rt, alloc, &first, &mut objects, None, &WRITES);
    let second = serve(&rt, alloc, shelves(&rt, alloc, &[]), Limits::FULL);
    life(&rt, alloc, &second, &mut objects, None, &TURNS);
    let third = serve(&rt, alloc, shelves(&rt, alloc, &[]), Limits::FULL);
    life(&rt, alloc, &third, &mut objects, None, &MANY);
    let fourth = serve(&rt, alloc, shelves(&rt, alloc, &[]), Limits::FULL);
    life(&rt, alloc, &fourth, &mut objects, None, &PUTS);
    let visit = visited(&rt, alloc, &[]);
    life(&rt, alloc, &fourth, &mut objects, Some(visit), &SUMMARY);
    Ok(())
}

#[test]
fn limits_are_reached(rt: HostRuntime) -> Result<(), Fail> {
    let alloc = rt.alloc();
    let mut objects = MemoryObjects::new(alloc, Vec::new(alloc));
    let full = serve(&rt, alloc, shelves(&rt, alloc, &[]), FEW);
    life(&rt, alloc, &full, &mut objects, None, &FILLS);
    let crowded = serve(&rt, alloc, shelves(&rt, alloc, &[]), FEW);
    life(&rt, alloc, &crowded, &mut objects, None, &CROWDS);
    let many = serve(&rt, alloc, shelves(&rt, alloc, &[]), NONE);
    life(&rt, alloc, &many, &mut objects, None, &OPENS);
    Ok(())
}

// A store that finds no memory.
#[derive(Drop)]
struct Poor {
    gets: u64,
}

impl Objects for Poor {
    ghost use Rattle.std.specs.Prelude.{None};

    ghost seen = { λ store. record { content = None; faults = 0; gets = store.gets } };

    fn get(&mut self, _alloc: Global, _id: &Id) -> Result<Option<Bytes>, ObjectFault> {
        self.gets = self.gets.saturating_add(1);
        Err(ObjectFault::NoMemory)
    }

    fn put(&mut self, _alloc: Global, _id: &Id, _bytes: &[u8]) -> Result<(), ObjectFault> {
        Err(ObjectFault::NoMemory)
    }

    fn faults(&self) -> u64 {
        0
    }
}

#[test]
fn services_and_stores_fail(rt: HostRuntime) -> Result<(), Fail> {
    let alloc = rt.alloc();
    let mut sound = MemoryObjects::new(alloc, Vec::new(alloc));
    let first = serve(&rt, alloc, shelves(&rt, alloc, &[1]), Limits::FULL);
    life(&rt, alloc, &first, &mut sound, None, &SHELVES);
    let store = Mutex::new(MemoryObjects::new(alloc, numbers(&rt, alloc, &[1, 3, 6])));
    let mut failing = LockedObjects::new(&rt, &store);
    let second = serve(&rt, alloc, shelves(&rt, alloc, &[]), Limits::FULL);
    life(&rt, alloc, &second, &mut failing, None, &STORES);
    let id = Id::of(b"blob 6\0hello\n");
    assert!(rt; sound.put(alloc, &id, &[0]).is_ok());
    let third = serve(&rt, alloc, shelves(&rt, alloc, &[]), Limits::FULL);
    life(&rt, alloc, &third, &mut sound, None, &CLASH);
    let fourth = serve(&rt, alloc, shelves(&rt, alloc, &[]), Limits::FULL);
    life(&rt, alloc, &fourth, &mut Poor { gets: 0 }, None, &POOR);
    Ok(())
}

#[test]
fn keepers_fail(rt: HostRuntime) -> Result<(), Fail> {
    let alloc = rt.alloc();
    let mut objects = MemoryObjects::new(alloc, Vec::new(alloc));
    let service = serve(&rt, alloc, shelves(&rt, alloc, &[]), Limits::FULL);
    let log = visited(&rt, alloc, &[1, 4, 7]);
    life(&rt, alloc, &service, &mut objects, Some(log), &LOG);
    let deltas = visited(&rt, alloc, &[7, 10]);
    life(&rt, alloc, &service, &mut objects, Some(deltas), &DELTAS);
    let joined = serve(
        &rt,
        alloc,
        shelves_with(&rt, alloc, JOIN, &[2, 4]),
        Limits::FULL,
    );
    life(&rt, alloc, &joined, &mut objects, None, &STARTS);
    let spoilt = serve(&rt, alloc, shelves_with(&rt, alloc, "{", &[]), Limits::FULL);
    life(&rt, alloc, &spoilt, &mut objects, None, &SPOILT);
    Ok(())
}

#[test]
fn a_document_needs_room(rt: HostRuntime) -> Result<(), Fail> {
    let alloc = rt.alloc();
    let mut objects = MemoryObjects::new(alloc, Vec::new(alloc));
    let service = serve(&rt, alloc, shelves(&rt, alloc, &[]), Limits::FULL);
    let room = visited(&rt, alloc, &[4097]);
    life(&rt, alloc, &service, &mut objects, Some(room), &ROOM);
    Ok(())
}
