// Lives of connections: what each hears, what that asks for, how it ends, and what is said.
use crate::telling::{told_acts, told_leave, told_replies, told_state};
use crate::worlds::{End, end_of, message};
use fluid_codec::print_event;
use fluid_types::Messages;
use fluid_voice::{Act, ActEnd, Voice, has_front_nack};
use std::alloc::Global;
use std::process::Abort;

// All is heard at this moment.
const MOMENT: u64 = 7;

enum Step {
    // A connection begins.
    Fresh,
    // A text is heard, and these are its acts, one a line.
    Hears(&'static str, &'static str),
    // The next act ends so, and these are its replies, one a line.
    Ends(End, &'static str),
    // A text is heard that asks for nothing but this reply.
    Says(&'static str, &'static str),
    // The replies to the last act count as those to a text that wasn't read.
    Unread(bool),
    // Where it stands.
    Stands(&'static str),
    // It would leave so.
    Leaves(&'static str),
    // One message is told so; none where this is empty.
    Tells(&'static str),
    // The messages before this number were delivered.
    Delivers(u64),
    // Its leave is sequenced.
    Goes,
    Closes,
}

#[derive(Drop)]
struct Life {
    voice: Voice,
    // The last of them is the next to be done.
    acts: Vec<Act>,
    unread: bool,
}

impl Life {
    fn new(alloc: Global) -> Life {
        Life {
            voice: Voice::new(),
            acts: Vec::new(alloc),
            unread: false,
        }
    }

    fn hear(&mut self, rt: &impl Abort, alloc: Global, text: &str, wanted: &str) {
        let acts = self.voice.acts(alloc, text, MOMENT).expect(rt, "memory");
        let told = told_acts(alloc, acts.as_slice()).expect(rt, "memory");
        assert!(rt; told.as_str() == wanted, "acts of {text}: {told}");
        let mut acts = acts.into_vec();
        acts.reverse();
        self.acts = acts;
        drop(told);
    }

    fn end(&mut self, rt: &impl Abort, alloc: Global, end: &End, wanted: &str) {
        let act = self.acts.pop().expect(rt, "an act");
        if let Act::Enter(_) = &act {
            self.hand_on(rt, alloc, end_of(rt, alloc, end, &act), wanted);
        }
        let end = end_of(rt, alloc, end, &act);
        let replies = self.voice.take(alloc, act, end).expect(rt, "memory");
        let told = told_replies(alloc, replies.as_slice()).expect(rt, "memory");
        assert!(rt; told.as_str() == wanted, "replies: {told}");
        self.unread = has_front_nack(replies.as_slice());
        drop(told);
        drop(replies);
    }

    // The same of an entry that was handed on.
    fn hand_on(&self, rt: &impl Abort, alloc: Global, end: ActEnd, wanted: &str) {
        let replies = self.voice.take_entry(alloc, end).expect(rt, "memory");
        let told = told_replies(alloc, replies.as_slice()).expect(rt, "memory");
        assert!(rt; told.as_str() == wanted, "replies: {told}");
        drop(told);
        drop(replies);
    }

    fn tell(&self, rt: &impl Abort, alloc: Global, wanted: &str) {
        let mut messages = Vec::new(alloc);
        messages.push(message(rt, alloc)).expect(rt, "memory");
        let messages = Messages::new(messages);
        match self.voice.event(alloc, messages).expect(rt, "memory") {
            Some(reply) => {
                let text = print_event(alloc, &reply).expect(rt, "memory");
                let told = text.as_str();
                assert!(rt; told == wanted, "tells: {told}");
                drop(text);
                drop(reply);
            }
            None => assert!(rt; wanted.is_empty(), "tells nothing"),
        }
    }

    fn say(&mut self, rt: &impl Abort, alloc: Global, text: &str, wanted: &str) {
        let acts = self.voice.acts(alloc, text, MOMENT).expect(rt, "memory");
        self.acts = acts.into_vec();
        self.end(rt, alloc, &End::Said, wanted);
        assert!(rt; self.acts.is_empty(), "more acts of {text}");
    }

    fn stand(&self, rt: &impl Abort, alloc: Global, wanted: &str) {
        let told = told_state(alloc, self.voice.state()).expect(rt, "memory");
        assert!(rt; told.as_str() == wanted, "stands: {told}");
        drop(told);
    }

    fn leave(&self, rt: &impl Abort, alloc: Global, wanted: &str) {
        let act = self.voice.leave(alloc, MOMENT).expect(rt, "memory");
        let told = told_leave(alloc, &act).expect(rt, "memory");
        assert!(rt; told.as_str() == wanted, "leaves: {told}");
        drop(told);
        drop(act);
    }

    fn go(&mut self, rt: &impl Abort, alloc: Global) {
        let act = self.voice.leave(alloc, MOMENT).expect(rt, "memory");
        let act = act.expect(rt, "a leave");
        let refused = ActEnd::FullNow;
        self.voice.take_leave(&refused);
        assert!(rt; self.voice.writes(), "it has left");
        let end = end_of(rt, alloc, &End::Sequenced, &act);
        self.voice.take_leave(&end);
        drop(refused);
        drop(end);
        drop(act);
    }

    fn close(&mut self, rt: &impl Abort) {
        if self.voice.writes() {
            panic!(rt; "a leave is to be entered");
        }
        self.voice.close();
    }

    fn do_step(&mut self, rt: &impl Abort, alloc: Global, step: &Step) {
        match step {
            Step::Fresh => *self = Life::new(alloc),
            Step::Hears(text, wanted) => self.hear(rt, alloc, *text, *wanted),
            Step::Ends(end, wanted) => self.end(rt, alloc, end, *wanted),
            Step::Says(text, wanted) => self.say(rt, alloc, *text, *wanted),
            Step::Unread(wanted) => assert!(rt; self.unread == *wanted, "unread"),
            Step::Stands(wanted) => self.stand(rt, alloc, *wanted),
            Step::Leaves(wanted) => self.leave(rt, alloc, *wanted),
            Step::Tells(wanted) => self.tell(rt, alloc, *wanted),
            Step::Delivers(next) => self.voice.advance(*next),
            Step::Goes => self.go(rt, alloc),
            Step::Closes => self.close(rt),
        }
    }
}

fn live(rt: &impl Abort, alloc: Global, steps: &[Step]) {
    let mut life = Life::new(alloc);
    for step in steps {
        life.do_step(rt, alloc, step);
    }
    assert!(rt; life.acts.is_empty(), "acts are left");
    drop(life);
}

const CONNECT: &str =
    r#"["connect_document",{"id":"d","mode":"write","scopes":["doc:read","doc:write"]}]"#;

const CONNECTED: &str =
    r#"["connect_document_success",{"checkpointSequenceNumber":0,"clientId":"c0","maxMessageSize":1048576,"mode":"write","version":"1"}]"#;

const NOT_CONNECTED: &str =
    r#"["nack","",[{"content":{"code":400,"message":"not connected","type":"BadRequestError"},"operation":null,"sequenceNumber":-1}]]"#;

const READ_ONLY: &str =
    r#"["nack","d",[{"content":{"code":403,"message":"read only connection","type":"InvalidScopeError"},"operation":null,"sequenceNumber":-1}]]"#;

const FOREIGN: &str =
    r#"["nack","d",[{"content":{"code":400,"message":"foreign client","type":"BadRequestError"},"operation":null,"sequenceNumber":-1}]]"#;

const FULL: &str =
    r#"["nack","d",[{"content":{"code":429,"message":"document is full","type":"LimitExceededError"},"operation":null,"sequenceNumber":-1}]]"#;

const NOT_WHOLE: &str =
    r#"["nack","d",[{"content":{"code":400,"message":"bad event: a number is not whole","type":"BadRequestError"},"operation":null,"sequenceNumber":-1}]]"#;

const READ_MISSING: &str =
    r#"["connect_document_error",{"code":403,"message":"doc:read is missing"}]"#;

const ALREADY_CONNECTED: &str =
    r#"["connect_document_error",{"code":400,"message":"already connected"}]"#;

// A connection to no document.
const FRESH: &[Step] = &[
    Step::Fresh,
    Step::Stands("fresh"),
    Step::Leaves(""),
    Step::Tells(""),
    Step::Says(
        "hello",
        r#"["nack","",[{"content":{"code":400,"message":"bad event: not JSON","type":"BadRequestError"},"operation":null,"sequenceNumber":-1}]]"#,
    ),
    Step::Unread(true),
    Step::Says(
        "",
        r#"["nack","",[{"content":{"code":400,"message":"bad event: not JSON","type":"BadRequestError"},"operation":null,"sequenceNumber":-1}]]"#,
    ),
    Step::Says(
        r#"["dance"]"#,
        r#"["nack","",[{"content":{"code":400,"message":"bad event: unknown event","type":"BadRequestError"},"operation":null,"sequenceNumber":-1}]]"#,
    ),
    Step::Says(
        r#"["getDeltas",1]"#,
        r#"["nack","",[{"content":{"code":400,"message":"bad event: bad field to: missing","type":"BadRequestError"},"operation":null,"sequenceNumber":-1}]]"#,
    ),
    Step::Says(
        r#"["putObject","6"]"#,
        r#"["nack","",[{"content":{"code":400,"message":"bad event: bad field object: not allowed","type":"BadRequestError"},"operation":null,"sequenceNumber":-1}]]"#,
    ),
    Step::Says(r#"["submitOp","c0",[]]"#, NOT_CONNECTED),
    Step::Unread(true),
    // Neither a range nor the bytes of an object are looked at before a connect.
    Step::Says(r#"["getDeltas",0,9]"#, NOT_CONNECTED),
    Step::Says(r#"["putObject","00"]"#, NOT_CONNECTED),
    Step::Says(r#"["getSummary","latest"]"#, NOT_CONNECTED),
    Step::Says(
        r#"["getObject","4b825dc642cb6eb9a060e54bf8d69288fbee4904"]"#,
        NOT_CONNECTED,
    ),
    Step::Says(
        r#"["connect_document",{"id":"d","mode":"read","scopes":[]}]"#,
        READ_MISSING,
    ),
    Step::Unread(false),
    Step::Says(
        r#"["connect_document",{"id":"d","scopes":["doc:write","summary:write"]}]"#,
        READ_MISSING,
    ),
    Step::Stands("fresh"),
    // A missing mode is "write", and its client is the detail of the join.
    Step::Hears(
        r#"["connect_document",{"client":{"b":[1],"a":null},"id":"d","scopes":["doc:write","doc:read","summary:write"]},5]"#,
        "connect d joins rws {\"a\":null,\"b\":[1]} 7",
    ),
    Step::Ends(
        End::Joined("c41", 12),
        r#"["connect_document_success",{"checkpointSequenceNumber":11,"clientId":"c41","maxMessageSize":1048576,"mode":"write","version":"1"}]"#,
    ),
    Step::Stands("writing d c41 12"),
];

// A connection that reads.
const READING: &[Step] = &[
    Step::Fresh,
    Step::Hears(
        r#"["connect_document",{"id":"d","mode":"write","scopes":["doc:read"]}]"#,
        "connect d reads r-- null 7",
    ),
    Step::Ends(
        End::Told(5),
        r#"["connect_document_success",{"checkpointSequenceNumber":5,"clientId":null,"maxMessageSize":1048576,"mode":"read","version":"1"}]"#,
    ),
    Step::Stands("reading d 6"),
    Step::Leaves(""),
    Step::Says(
        r#"["submitOp","c0",[{"clientSequenceNumber":1,"contents":1,"referenceSequenceNumber":1,"type":"op"}]]"#,
        READ_ONLY,
    ),
    Step::Unread(true),
    Step::Says(r#"["submitOp","c0",[]]"#, READ_ONLY),
    Step::Says(CONNECT, ALREADY_CONNECTED),
    Step::Says(
        r#"["connect_document",{"id":"e","mode":"read","scopes":[]}]"#,
        ALREADY_CONNECTED,
    ),
    Step::Unread(false),
    Step::Stands("reading d 6"),
    Step::Delivers(9),
    Step::Stands("reading d 9"),
    Step::Closes,
    Step::Stands("used"),
    Step::Fresh,
    Step::Hears(
        r#"["connect_document",{"id":"d","mode":"read","scopes":["doc:read","doc:write"]}]"#,
        "connect d reads rw- null 7",
    ),
    Step::Ends(
        End::Told(0),
        r#"["connect_document_success",{"checkpointSequenceNumber":0,"clientId":null,"maxMessageSize":1048576,"mode":"read","version":"1"}]"#,
    ),
    Step::Stands("reading d 1"),
];

// A client that writes.
const WRITING: &[Step] = &[
    Step::Fresh,
    Step::Hears(CONNECT, "connect d joins rw- null 7"),
    Step::Ends(End::Joined("c0", 1), CONNECTED),
    Step::Stands("writing d c0 1"),
    Step::Hears(
        r#"["submitOp","c0",[{"clientSequenceNumber":1,"contents":"a","referenceSequenceNumber":1,"type":"op"},{"clientSequenceNumber":1,"contents":"a","referenceSequenceNumber":1,"type":"op"},{"clientSequenceNumber":2,"contents":"b","referenceSequenceNumber":1,"type":"op"}]]"#,
        r#"enter {"clientId":"c0","moment":7,"operation":{"clientSequenceNumber":1,"contents":"a","referenceSequenceNumber":1,"type":"op"},"raw":"submit"}
enter {"clientId":"c0","moment":7,"operation":{"clientSequenceNumber":1,"contents":"a","referenceSequenceNumber":1,"type":"op"},"raw":"submit"}
enter {"clientId":"c0","moment":7,"operation":{"clientSequenceNumber":2,"contents":"b","referenceSequenceNumber":1,"type":"op"},"raw":"submit"}"#,
    ),
    Step::Ends(End::Sequenced, ""),
    Step::Ends(End::Dropped, ""),
    Step::Ends(End::Sequenced, ""),
    Step::Unread(false),
    // Lists inside the list are joined in their order.
    Step::Hears(
        r#"["submitOp","c0",[[{"clientSequenceNumber":3,"referenceSequenceNumber":-1,"type":"noop"}],[],{"clientSequenceNumber":9,"contents":{},"metadata":null,"referenceSequenceNumber":1,"type":"summarize"}]]"#,
        r#"enter {"clientId":"c0","moment":7,"operation":{"clientSequenceNumber":3,"contents":null,"referenceSequenceNumber":-1,"type":"noop"},"raw":"submit"}
enter {"clientId":"c0","moment":7,"operation":{"clientSequenceNumber":9,"contents":{},"metadata":null,"referenceSequenceNumber":1,"type":"summarize"},"raw":"submit"}"#,
    ),
    Step::Ends(End::Absorbed, ""),
    Step::Ends(
        End::Nacked(1),
        r#"["nack","d",[{"content":{"code":400,"message":"Gap in client sequence numbers","type":"BadRequestError"},"operation":{"clientSequenceNumber":9,"contents":{},"metadata":null,"referenceSequenceNumber":1,"type":"summarize"},"sequenceNumber":1}]]"#,
    ),
    Step::Unread(false),
    Step::Hears(r#"["submitOp","c0",[]]"#, ""),
    Step::Says(r#"["submitOp","c5",[]]"#, FOREIGN),
    Step::Unread(true),
    Step::Says(
        r#"["submitOp","c5",[{"clientSequenceNumber":1,"contents":1,"referenceSequenceNumber":1,"type":"op"}]]"#,
        FOREIGN,
    ),
    Step::Says(
        r#"["submitOp","c0",[{"clientSequenceNumber":1,"contents":1.5,"referenceSequenceNumber":1,"type":"op"}]]"#,
        NOT_WHOLE,
    ),
    Step::Says(CONNECT, ALREADY_CONNECTED),
    Step::Stands("writing d c0 1"),
    Step::Tells(
        r#"["op","d",[{"clientId":"c0","clientSequenceNumber":1,"contents":"a","minimumSequenceNumber":1,"referenceSequenceNumber":1,"sequenceNumber":2,"timestamp":7,"type":"op"}]]"#,
    ),
    Step::Delivers(4),
    Step::Stands("writing d c0 4"),
    // What was delivered stays so.
    Step::Delivers(2),
    Step::Stands("writing d c0 4"),
    Step::Leaves(r#"enter {"clientId":"c0","moment":7,"raw":"leave"}"#),
    Step::Goes,
    Step::Stands("used"),
    Step::Tells(""),
    Step::Leaves(""),
    Step::Delivers(5),
    Step::Stands("used"),
    Step::Hears(CONNECT, ""),
    Step::Hears("hello", ""),
    // An end that its connect can't have.
    Step::Fresh,
    Step::Hears(CONNECT, "connect d joins rw- null 7"),
    Step::Ends(End::Told(3), ""),
    Step::Stands("fresh"),
];

// At the limits of documents, entries and clients.
const LIMITS: &[Step] = &[
    Step::Fresh,
    Step::Hears(CONNECT, "connect d joins rw- null 7"),
    Step::Ends(
        End::TooManyDocuments,
        r#"["connect_document_error",{"code":429,"message":"too many documents"}]"#,
    ),
    Step::Stands("fresh"),
    Step::Hears(CONNECT, "connect d joins rw- null 7"),
    Step::Ends(
        End::Full,
        r#"["connect_document_error",{"code":429,"message":"document is full"}]"#,
    ),
    Step::Stands("fresh"),
    Step::Hears(CONNECT, "connect d joins rw- null 7"),
    Step::Ends(
        End::TooMany,
        r#"["connect_document_error",{"code":429,"message":"too many clients"}]"#,
    ),
    Step::Unread(false),
    Step::Stands("fresh"),
    Step::Hears(CONNECT, "connect d joins rw- null 7"),
    Step::Ends(End::Joined("c0", 1), CONNECTED),
    Step::Hears(
        r#"["submitOp","c0",[{"clientSequenceNumber":1,"contents":1,"referenceSequenceNumber":1,"type":"op"},{"clientSequenceNumber":2,"contents":2,"referenceSequenceNumber":1,"type":"op"}]]"#,
        r#"enter {"clientId":"c0","moment":7,"operation":{"clientSequenceNumber":1,"contents":1,"referenceSequenceNumber":1,"type":"op"},"raw":"submit"}
enter {"clientId":"c0","moment":7,"operation":{"clientSequenceNumber":2,"contents":2,"referenceSequenceNumber":1,"type":"op"},"raw":"submit"}"#,
    ),
    Step::Ends(End::Full, FULL),
    Step::Unread(true),
    Step::Ends(End::Full, FULL),
    Step::Stands("writing d c0 1"),
];

const FROM_OUT_OF_RANGE: &str =
    r#"["nack","d",[{"content":{"code":400,"message":"bad event: bad field from: out of range","type":"BadRequestError"},"operation":null,"sequenceNumber":-1}]]"#;

const TO_OUT_OF_RANGE: &str =
    r#"["nack","d",[{"content":{"code":400,"message":"bad event: bad field to: out of range","type":"BadRequestError"},"operation":null,"sequenceNumber":-1}]]"#;

// Ranges of messages.
const RANGES: &[Step] = &[
    Step::Fresh,
    Step::Hears(CONNECT, "connect d joins rw- null 7"),
    Step::Ends(End::Joined("c0", 1), CONNECTED),
    Step::Hears(r#"["getDeltas",4,4]"#, "deltas 4 4"),
    Step::Ends(End::Order(3), r#"["deltas",4,[]]"#),
    Step::Unread(false),
    Step::Hears(r#"["getDeltas",4,5]"#, "deltas 4 5"),
    Step::Ends(End::Order(3), TO_OUT_OF_RANGE),
    Step::Unread(true),
    Step::Hears(r#"["getDeltas",1,4]"#, "deltas 1 4"),
    Step::Ends(End::Order(3), r#"["deltas",1,[]]"#),
    Step::Hears(r#"["getDeltas",5,5]"#, "deltas 5 5"),
    Step::Ends(End::Order(3), FROM_OUT_OF_RANGE),
    Step::Hears(r#"["getDeltas",0,0]"#, "deltas 0 0"),
    Step::Ends(End::Order(3), FROM_OUT_OF_RANGE),
    Step::Hears(r#"["getDeltas",-1,2]"#, "deltas -1 2"),
    Step::Ends(End::Order(3), FROM_OUT_OF_RANGE),
    Step::Hears(r#"["getDeltas",3,2]"#, "deltas 3 2"),
    Step::Ends(End::Order(3), TO_OUT_OF_RANGE),
    Step::Hears(
        r#"["getDeltas",1,-9223372036854775808]"#,
        "deltas 1 -9223372036854775808",
    ),
    Step::Ends(End::Order(3), TO_OUT_OF_RANGE),
    Step::Hears(
        r#"["getDeltas",9223372036854775807,1]"#,
        "deltas 9223372036854775807 1",
    ),
    Step::Ends(End::Order(3), FROM_OUT_OF_RANGE),
    Step::Hears(r#"["getDeltas",1,2049]"#, "deltas 1 2049"),
    Step::Ends(End::Order(5000), r#"["deltas",1,[]]"#),
    Step::Hears(r#"["getDeltas",1,2050]"#, "deltas 1 2050"),
    Step::Ends(End::Order(5000), TO_OUT_OF_RANGE),
    Step::Hears(r#"["getDeltas",2953,5001]"#, "deltas 2953 5001"),
    Step::Ends(End::Order(5000), r#"["deltas",2953,[]]"#),
    Step::Hears(r#"["getDeltas",1,1]"#, "deltas 1 1"),
    Step::Ends(End::Order(0), r#"["deltas",1,[]]"#),
    Step::Hears(
        r#"["getDeltas",9007199254740992,9007199254740992]"#,
        "deltas 9007199254740992 9007199254740992",
    ),
    Step::Ends(
        End::Order(9_007_199_254_740_991),
        r#"["deltas",9007199254740992,[]]"#,
    ),
    Step::Stands("writing d c0 1"),
];

// Objects and summaries.
const ASKING: &[Step] = &[
    Step::Fresh,
    Step::Hears(
        r#"["connect_document",{"id":"d","mode":"read","scopes":["doc:read"]}]"#,
        "connect d reads r-- null 7",
    ),
    Step::Ends(
        End::Told(3),
        r#"["connect_document_success",{"checkpointSequenceNumber":3,"clientId":null,"maxMessageSize":1048576,"mode":"read","version":"1"}]"#,
    ),
    Step::Hears(
        r#"["putObject","626c6f6220360068656c6c6f0a"]"#,
        "put ce013625030ba8dba906f756967f9e9ca394464a",
    ),
    Step::Ends(
        End::Stored,
        r#"["objectStored","ce013625030ba8dba906f756967f9e9ca394464a"]"#,
    ),
    Step::Hears(
        r#"["getObject","ce013625030ba8dba906f756967f9e9ca394464a"]"#,
        "get ce013625030ba8dba906f756967f9e9ca394464a",
    ),
    Step::Ends(
        End::Held(b"blob 6\0hello\n"),
        r#"["object","ce013625030ba8dba906f756967f9e9ca394464a","626c6f6220360068656c6c6f0a"]"#,
    ),
    Step::Hears(
        r#"["getObject","4b825dc642cb6eb9a060e54bf8d69288fbee4904"]"#,
        "get 4b825dc642cb6eb9a060e54bf8d69288fbee4904",
    ),
    Step::Ends(
        End::NotHeld,
        r#"["object","4b825dc642cb6eb9a060e54bf8d69288fbee4904",null]"#,
    ),
    // One byte too few, and none.
    Step::Says(
        r#"["putObject","626c6f6220360068656c6c6f"]"#,
        r#"["nack","d",[{"content":{"code":400,"message":"bad event: bad field object: not allowed","type":"BadRequestError"},"operation":null,"sequenceNumber":-1}]]"#,
    ),
    Step::Unread(true),
    Step::Says(
        r#"["putObject",""]"#,
        r#"["nack","d",[{"content":{"code":400,"message":"bad event: bad field object: not allowed","type":"BadRequestError"},"operation":null,"sequenceNumber":-1}]]"#,
    ),
    Step::Hears(r#"["getSummary","latest"]"#, "summary latest"),
    Step::Ends(End::Acks(&[]), r#"["summary",null,null]"#),
    Step::Hears(r#"["getSummary","latest"]"#, "summary latest"),
    Step::Ends(
        End::Acks(ACKS),
        r#"["summary","4b825dc642cb6eb9a060e54bf8d69288fbee4904",12]"#,
    ),
    Step::Hears(
        r#"["getSummary","ce013625030ba8dba906f756967f9e9ca394464a"]"#,
        "summary ce013625030ba8dba906f756967f9e9ca394464a",
    ),
    Step::Ends(
        End::Acks(ACKS),
        r#"["summary","ce013625030ba8dba906f756967f9e9ca394464a",9]"#,
    ),
    Step::Hears(
        r#"["getSummary","4b825dc642cb6eb9a060e54bf8d69288fbee4904"]"#,
        "summary 4b825dc642cb6eb9a060e54bf8d69288fbee4904",
    ),
    Step::Ends(
        End::Acks(ACKS),
        r#"["summary","4b825dc642cb6eb9a060e54bf8d69288fbee4904",12]"#,
    ),
    Step::Hears(
        r#"["getSummary","e69de29bb2d1d6434b8b29ae775ad8c2e48c5391"]"#,
        "summary e69de29bb2d1d6434b8b29ae775ad8c2e48c5391",
    ),
    Step::Ends(End::Acks(ACKS), r#"["summary",null,null]"#),
    Step::Stands("reading d 4"),
];

// The first and the last have one handle.
const ACKS: &[(&str, u64)] = &[
    ("4b825dc642cb6eb9a060e54bf8d69288fbee4904", 5),
    ("ce013625030ba8dba906f756967f9e9ca394464a", 9),
    ("4b825dc642cb6eb9a060e54bf8d69288fbee4904", 12),
];

#[test]
fn texts_ask_and_are_answered(rt: HostRuntime) {
    let alloc = rt.alloc();
    live(&rt, alloc, FRESH);
    live(&rt, alloc, READING);
    live(&rt, alloc, WRITING);
    live(&rt, alloc, LIMITS);
    live(&rt, alloc, RANGES);
    live(&rt, alloc, ASKING);
}
