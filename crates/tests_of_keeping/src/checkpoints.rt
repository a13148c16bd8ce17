// Texts of checkpoints: what they are read as, what is printed, and which fault the others have.
use fluid_checkpoint::{CheckpointFault, Form, Moments, State, print, read};
use fluid_json::Bytes;
use fluid_types::ClientId;
use std::alloc::Global;
use std::process::Abort;

const MEMBERS: usize = 11;

// The members of a text beside its version, in their order, and a value of each. One client has joined.
const GOOD: [(&str, &str); MEMBERS] = [
    ("acks", "[]"),
    (
        "base",
        r#"{"attributes":{"minimumSequenceNumber":0,"sequenceNumber":0},"quorumMembers":[],"quorumProposals":[],"quorumValues":[]}"#,
    ),
    (
        "behind",
        r#"[{"clientId":null,"clientSequenceNumber":-1,"contents":null,"data":"{\"clientId\":\"c0\",\"detail\":null}","minimumSequenceNumber":0,"referenceSequenceNumber":-1,"sequenceNumber":1,"timestamp":5,"type":"join"}]"#,
    ),
    (
        "clients",
        r#"[{"id":"c0","last":0,"nacked":false,"reference":0,"scopes":["doc:write"]}]"#,
    ),
    ("counted", "1"),
    ("entered", "1"),
    ("heard", r#"[{"id":"c0","moment":5}]"#),
    ("minima", "[]"),
    ("minimum", "0"),
    ("pending", "[]"),
    ("sequence", "1"),
];

// Its text in version 2, as it is printed, and in version 1.
const SECOND: &str =
    r#"{"acks":[],"base":{"attributes":{"minimumSequenceNumber":0,"sequenceNumber":0},"quorumMembers":[],"quorumProposals":[],"quorumValues":[]},"behind":[{"clientId":null,"clientSequenceNumber":-1,"contents":null,"data":"{\"clientId\":\"c0\",\"detail\":null}","minimumSequenceNumber":0,"referenceSequenceNumber":-1,"sequenceNumber":1,"timestamp":5,"type":"join"}],"clients":[{"id":"c0","last":0,"nacked":false,"reference":0,"scopes":["doc:write"]}],"counted":1,"entered":1,"heard":[{"id":"c0","moment":5}],"minima":[],"minimum":0,"pending":[],"sequence":1,"version":2}"#;

const FIRST: &str =
    r#"{"acks":[],"base":{"attributes":{"minimumSequenceNumber":0,"sequenceNumber":0},"quorumMembers":[],"quorumProposals":[],"quorumValues":[]},"behind":[{"clientId":null,"clientSequenceNumber":-1,"contents":null,"data":"{\"clientId\":\"c0\",\"detail\":null}","minimumSequenceNumber":0,"referenceSequenceNumber":-1,"sequenceNumber":1,"timestamp":5,"type":"join"}],"clients":[{"id":"c0","last":0,"nacked":false,"reference":0,"scopes":["doc:write"]}],"counted":1,"entered":1,"minima":[],"minimum":0,"pending":[],"sequence":1,"version":1}"#;

#[derive(Clone, Copy, Debug, PartialEq)]
enum Told {
    BadText,
    // The place of the member in the list above, and the number of members for the version.
    BadField(usize),
    Version(u64),
    One(u64),
    Two,
}

fn place(name: &str) -> usize {
    GOOD.iter()
        .position(|member| member.0 == name)
        .unwrap_or(if name == "version" {
            MEMBERS
        } else {
            MEMBERS + 1
        })
}

// A propose message with so many lists in one another as contents, in a list.
fn nested(rt: &impl Abort, alloc: Global, lists: u64) -> String {
    let mut text = String::from_str(
        alloc,
        r#"[{"clientId":"a","clientSequenceNumber":1,"contents":"#,
    )
    .expect(rt, "memory");
    for _ in 0..lists {
        text.push_str("[").expect(rt, "memory");
    }
    for _ in 0..lists {
        text.push_str("]").expect(rt, "memory");
    }
    text.push_str(
        r#","minimumSequenceNumber":0,"referenceSequenceNumber":0,"sequenceNumber":2,"timestamp":5,"type":"propose"}]"#,
    ).expect(rt, "memory");
    text
}

// What bytes are read as.
fn read_as(rt: &impl Abort, alloc: Global, bytes: &[u8]) -> Told {
    let read = read(alloc, bytes);
    let told = match &read {
        Ok(Form::Two(_)) => Told::Two,
        Ok(Form::One(entered)) => Told::One(*entered),
        Err(CheckpointFault::BadText) => Told::BadText,
        Err(CheckpointFault::BadField(name)) => Told::BadField(place(name.as_str())),
        Err(CheckpointFault::Version(number)) => Told::Version(*number),
        Err(CheckpointFault::NoMemory) => panic!(rt; "memory"),
    };
    drop(read);
    told
}

// The text of these members, with other values of those from one place to another, or without the one at a place.
fn text_with(
    rt: &impl Abort,
    alloc: Global,
    version: &str,
    from: usize,
    to: usize,
    value: Option<&str>,
) -> String {
    let mut text = String::from_str(alloc, "{").expect(rt, "memory");
    for at in 0..MEMBERS {
        let (name, good) = GOOD[at];
        let given = if from <= at && at < to {
            value
        } else {
            Some(good)
        };
        if let Some(given) = given {
            let member = format!(in alloc; "\"{name}\":{given},").expect(rt, "memory");
            text.push_str(member.as_str()).expect(rt, "memory");
        }
    }
    let last = format!(in alloc; "\"version\":{version}}}").expect(rt, "memory");
    text.push_str(last.as_str()).expect(rt, "memory");
    text
}

fn assert_told(rt: &impl Abort, alloc: Global, text: &str, wanted: Told) {
    let found = read_as(rt, alloc, text.as_bytes());
    assert!(rt; found == wanted, "{found:?} for {wanted:?}: {text}");
}

fn assert_with(
    rt: &impl Abort,
    alloc: Global,
    version: &str,
    places: (usize, usize),
    value: Option<&str>,
    wanted: Told,
) {
    let text = text_with(rt, alloc, version, places.0, places.1, value);
    assert_told(rt, alloc, text.as_str(), wanted);
    drop(text);
}

// What is no text of a checkpoint, and the version, which is looked at before the other members.
const TEXTS: &[(&str, Told)] = &[
    ("", Told::BadText),
    ("x", Told::BadText),
    ("[]", Told::BadText),
    ("2", Told::BadText),
    (r#"{"version":2"#, Told::BadText),
    (r#"{"version":2,"entered":1.5}"#, Told::BadText),
    (r#"{"version":2,"other":[1e3]}"#, Told::BadText),
    ("{}", Told::BadField(MEMBERS)),
    (r#"{"acks":1}"#, Told::BadField(MEMBERS)),
    (r#"{"version":null}"#, Told::BadField(MEMBERS)),
    (r#"{"version":"2"}"#, Told::BadField(MEMBERS)),
    (r#"{"version":[2]}"#, Told::BadField(MEMBERS)),
    (r#"{"version":9}"#, Told::Version(9)),
    (r#"{"version":0,"entered":1}"#, Told::Version(0)),
    (r#"{"version":3,"acks":1}"#, Told::Version(3)),
    (r#"{"version":-1}"#, Told::Version(0)),
    (
        r#"{"version":9223372036854775807}"#,
        Told::Version(9_223_372_036_854_775_807),
    ),
    (r#"{"version":1}"#, Told::BadField(0)),
    (r#"{"version":2}"#, Told::BadField(0)),
    (SECOND, Told::Two),
    (FIRST, Told::One(1)),
];

// Members that are in their form, though what they say may lie outside the order.
const INSIDE: &[(&str, &str)] = &[
    (
        "acks",
        r#"[{"handle":"4b825dc642cb6eb9a060e54bf8d69288fbee4904","number":7,"other":1},{"handle":"4b825dc642cb6eb9a060e54bf8d69288fbee4904","number":7}]"#,
    ),
    (
        "base",
        r#"{"attributes":{"minimumSequenceNumber":9,"other":1,"sequenceNumber":9007199254740991},"other":[],"quorumMembers":[{"clientId":"b","detail":[1],"key":2,"sequenceNumber":4}],"quorumProposals":[{"detail":1,"key":"k","sequenceNumber":3,"value":null}],"quorumValues":[{"approvalSequenceNumber":8,"key":"code","other":{},"sequenceNumber":7,"value":"v"}]}"#,
    ),
    ("behind", "[]"),
    (
        "behind",
        r#"[{"clientId":"a","clientSequenceNumber":1,"minimumSequenceNumber":9,"referenceSequenceNumber":0,"sequenceNumber":0,"timestamp":5,"type":"propose"},{"clientId":null,"clientSequenceNumber":-1,"contents":null,"data":"\"c0\"","minimumSequenceNumber":0,"referenceSequenceNumber":-1,"sequenceNumber":77,"timestamp":5,"type":"leave"}]"#,
    ),
    ("clients", "[]"),
    (
        "clients",
        r#"[{"id":"a","last":9007199254740991,"nacked":true,"other":1,"reference":77,"scopes":["doc:read","summary:write"]},{"id":"c0","last":0,"nacked":false,"reference":0,"scopes":[]}]"#,
    ),
    ("counted", "9007199254740991"),
    ("entered", "0"),
    ("heard", "[]"),
    (
        "heard",
        r#"[{"id":"a","moment":0},{"id":"c1","moment":9007199254740991}]"#,
    ),
    ("minima", "[[0,9],[5,3],[9007199254740991,0]]"),
    ("minimum", "77"),
    (
        "pending",
        r#"[{"clientId":"c0","clientSequenceNumber":1,"contents":null,"minimumSequenceNumber":0,"referenceSequenceNumber":0,"sequenceNumber":0,"timestamp":5,"type":"summarize"},{"clientId":"c0","clientSequenceNumber":1,"contents":null,"minimumSequenceNumber":0,"referenceSequenceNumber":0,"sequenceNumber":5,"timestamp":5,"type":"summarize"}]"#,
    ),
    ("sequence", "0"),
];

// Members that are outside their form.
const OUTSIDE: &[(&str, &str)] = &[
    ("acks", "null"),
    ("acks", "{}"),
    ("acks", "[1]"),
    (
        "acks",
        r#"[{"handle":"4b825dc642cb6eb9a060e54bf8d69288fbee4904"}]"#,
    ),
    ("acks", r#"[{"number":7}]"#),
    (
        "acks",
        r#"[{"handle":"4B825DC642CB6EB9A060E54BF8D69288FBEE4904","number":7}]"#,
    ),
    (
        "acks",
        r#"[{"handle":"4b825dc642cb6eb9a060e54bf8d69288fbee490","number":7}]"#,
    ),
    (
        "acks",
        r#"[{"handle":"4b825dc642cb6eb9a060e54bf8d69288fbee4904","number":-1}]"#,
    ),
    (
        "acks",
        r#"[{"handle":"4b825dc642cb6eb9a060e54bf8d69288fbee4904","number":9007199254740992}]"#,
    ),
    ("base", "[]"),
    ("base", "{}"),
    (
        "base",
        r#"{"attributes":{"minimumSequenceNumber":0,"sequenceNumber":0},"quorumMembers":[],"quorumValues":[]}"#,
    ),
    (
        "base",
        r#"{"attributes":{"minimumSequenceNumber":0},"quorumMembers":[],"quorumProposals":[],"quorumValues":[]}"#,
    ),
    (
        "base",
        r#"{"attributes":{"minimumSequenceNumber":0,"sequenceNumber":9007199254740992},"quorumMembers":[],"quorumProposals":[],"quorumValues":[]}"#,
    ),
    (
        "base",
        r#"{"attributes":{"minimumSequenceNumber":0,"sequenceNumber":9},"quorumMembers":[{"clientId":"b","detail":1,"sequenceNumber":4},{"clientId":"a","detail":1,"sequenceNumber":5}],"quorumProposals":[],"quorumValues":[]}"#,
    ),
    (
        "base",
        r#"{"attributes":{"minimumSequenceNumber":0,"sequenceNumber":9},"quorumMembers":[],"quorumProposals":[{"key":"k","sequenceNumber":3,"value":null},{"key":"k","sequenceNumber":2,"value":null}],"quorumValues":[]}"#,
    ),
    (
        "base",
        r#"{"attributes":{"minimumSequenceNumber":0,"sequenceNumber":9},"quorumMembers":[],"quorumProposals":[],"quorumValues":[{"approvalSequenceNumber":8,"key":"k","sequenceNumber":7,"value":1},{"approvalSequenceNumber":8,"key":"a","sequenceNumber":7,"value":1}]}"#,
    ),
    (
        "base",
        r#"{"attributes":{"minimumSequenceNumber":0,"sequenceNumber":9},"quorumMembers":[],"quorumProposals":[],"quorumValues":"[]"}"#,
    ),
    (
        "base",
        r#"{"attributes":[],"quorumMembers":[],"quorumProposals":[],"quorumValues":[]}"#,
    ),
    (
        "base",
        r#"{"attributes":{"minimumSequenceNumber":0,"sequenceNumber":9},"quorumMembers":[1],"quorumProposals":[],"quorumValues":[]}"#,
    ),
    (
        "base",
        r#"{"attributes":{"minimumSequenceNumber":1,"sequenceNumber":0},"quorumMembers":[],"quorumProposals":[],"quorumValues":[]}"#,
    ),
    (
        "base",
        r#"{"attributes":{"minimumSequenceNumber":0,"sequenceNumber":9},"quorumMembers":[{"clientId":"a","detail":1,"sequenceNumber":10}],"quorumProposals":[],"quorumValues":[]}"#,
    ),
    ("behind", "{}"),
    ("behind", "[null]"),
    (
        "behind",
        r#"[{"clientId":null,"clientSequenceNumber":-1,"contents":null,"minimumSequenceNumber":0,"referenceSequenceNumber":-1,"sequenceNumber":1,"type":"join"}]"#,
    ),
    (
        "behind",
        r#"[{"clientId":"a","clientSequenceNumber":1,"contents":null,"minimumSequenceNumber":0,"referenceSequenceNumber":0,"sequenceNumber":1,"timestamp":5,"type":"op"}]"#,
    ),
    (
        "behind",
        r#"[{"clientId":"a","clientSequenceNumber":1,"contents":null,"minimumSequenceNumber":0,"referenceSequenceNumber":0,"sequenceNumber":2,"timestamp":5,"type":"propose"},{"clientId":"a","clientSequenceNumber":2,"contents":null,"minimumSequenceNumber":0,"referenceSequenceNumber":0,"sequenceNumber":2,"timestamp":5,"type":"propose"}]"#,
    ),
    (
        "behind",
        r#"[{"clientId":"a","clientSequenceNumber":1,"contents":null,"minimumSequenceNumber":0,"referenceSequenceNumber":0,"sequenceNumber":2,"timestamp":5,"type":"propose"},{"clientId":"a","clientSequenceNumber":2,"contents":null,"minimumSequenceNumber":0,"referenceSequenceNumber":0,"sequenceNumber":1,"timestamp":5,"type":"propose"}]"#,
    ),
    ("clients", "{}"),
    ("clients", r#"["c0"]"#),
    (
        "clients",
        r#"[{"id":"c 0","last":0,"nacked":false,"reference":0,"scopes":[]}]"#,
    ),
    (
        "clients",
        r#"[{"id":"c0","last":-1,"nacked":false,"reference":0,"scopes":[]}]"#,
    ),
    (
        "clients",
        r#"[{"id":"c0","last":0,"nacked":0,"reference":0,"scopes":[]}]"#,
    ),
    (
        "clients",
        r#"[{"id":"c0","last":0,"nacked":false,"scopes":[]}]"#,
    ),
    (
        "clients",
        r#"[{"id":"c0","last":0,"nacked":false,"reference":0,"scopes":"doc:write"}]"#,
    ),
    (
        "clients",
        r#"[{"id":"c0","last":0,"nacked":false,"reference":0,"scopes":["doc:write",1]}]"#,
    ),
    (
        "clients",
        r#"[{"id":"c0","last":0,"nacked":false,"reference":0,"scopes":["doc:admin"]}]"#,
    ),
    (
        "clients",
        r#"[{"id":"c0","last":0,"nacked":false,"reference":0,"scopes":["doc:write","doc:read"]}]"#,
    ),
    (
        "clients",
        r#"[{"id":"c0","last":0,"nacked":false,"reference":0,"scopes":["doc:write","doc:write"]}]"#,
    ),
    (
        "clients",
        r#"[{"id":"c1","last":0,"nacked":false,"reference":0,"scopes":[]},{"id":"c0","last":0,"nacked":false,"reference":0,"scopes":[]}]"#,
    ),
    (
        "clients",
        r#"[{"id":"c0","last":0,"nacked":false,"reference":0,"scopes":[]},{"id":"c0","last":0,"nacked":false,"reference":0,"scopes":[]}]"#,
    ),
    ("counted", r#""1""#),
    ("counted", "-1"),
    ("counted", "9007199254740992"),
    ("entered", "true"),
    ("entered", "-1"),
    ("entered", "9007199254740992"),
    ("heard", "null"),
    ("heard", r#"[{"id":"c0"}]"#),
    ("heard", r#"[{"moment":5}]"#),
    ("heard", r#"[{"id":"","moment":5}]"#),
    ("heard", r#"[{"id":"c0","moment":-5}]"#),
    (
        "heard",
        r#"[{"id":"c1","moment":5},{"id":"c0","moment":5}]"#,
    ),
    (
        "heard",
        r#"[{"id":"c0","moment":5},{"id":"c0","moment":5}]"#,
    ),
    ("minima", "{}"),
    ("minima", "[1]"),
    ("minima", "[[1]]"),
    ("minima", "[[1,1,1]]"),
    ("minima", r#"[[1,"1"]]"#),
    ("minima", "[[-1,1]]"),
    ("minima", "[[1,9007199254740992]]"),
    ("minima", "[[2,1],[1,2]]"),
    ("minima", "[[1,1],[1,2]]"),
    ("minimum", "null"),
    ("minimum", "-1"),
    ("pending", "1"),
    (
        "pending",
        r#"[{"clientId":"a","clientSequenceNumber":1,"contents":null,"minimumSequenceNumber":0,"referenceSequenceNumber":0,"sequenceNumber":1,"timestamp":5,"type":"propose"}]"#,
    ),
    (
        "pending",
        r#"[{"clientId":"c0","clientSequenceNumber":1,"contents":null,"minimumSequenceNumber":0,"referenceSequenceNumber":0,"sequenceNumber":5,"timestamp":5,"type":"summarize"},{"clientId":"c0","clientSequenceNumber":1,"contents":null,"minimumSequenceNumber":0,"referenceSequenceNumber":0,"sequenceNumber":4,"timestamp":5,"type":"summarize"}]"#,
    ),
    (
        "pending",
        r#"[{"clientId":"c0","clientSequenceNumber":1,"contents":null,"minimumSequenceNumber":0,"referenceSequenceNumber":0,"sequenceNumber":9007199254740992,"timestamp":5,"type":"summarize"}]"#,
    ),
    ("sequence", "[]"),
    ("sequence", "9007199254740992"),
];

const HEARD: usize = 6;

// Behind the base, as many lists in one another as contents have: the message, the list of messages and the text are three more.
const NESTED: &[(u64, Told)] = &[
    (97, Told::Two),
    (99, Told::Two),
    (100, Told::Two),
    (117, Told::Two),
    (118, Told::BadText),
];

fn assert_inside(rt: &impl Abort, alloc: Global, name: &str, value: &str) {
    let at = place(name);
    assert_with(
        rt,
        alloc,
        "2",
        (at, at.wrapping_add(1)),
        Some(value),
        Told::Two,
    );
}

// What stands behind the member may be outside its form too.
fn assert_outside(rt: &impl Abort, alloc: Global, name: &str, value: &str) {
    let at = place(name);
    let one = (at, at.wrapping_add(1));
    let bad = Told::BadField(at);
    let first = if at == HEARD { Told::One(1) } else { bad };
    assert_with(rt, alloc, "2", one, Some(value), bad);
    assert_with(rt, alloc, "2", (at, MEMBERS), Some(value), bad);
    assert_with(rt, alloc, "1", one, Some(value), first);
}

fn assert_lacking(rt: &impl Abort, alloc: Global, at: usize) {
    let one = (at, at.wrapping_add(1));
    assert_with(rt, alloc, "2", one, None, Told::BadField(at));
    assert_with(rt, alloc, "0", (at, MEMBERS), None, Told::Version(0));
}

#[test]
fn a_text_is_read_or_its_first_fault_is_told(rt: HostRuntime) {
    let alloc = rt.alloc();
    for (text, wanted) in TEXTS {
        assert_told(&rt, alloc, *text, *wanted);
    }
    let found = read_as(&rt, alloc, &[0x7b, 0xff, 0x7d]);
    assert!(&rt; found == Told::BadText, "no UTF-8");
    for (lists, wanted) in NESTED {
        let value = nested(&rt, alloc, *lists);
        assert_with(&rt, alloc, "2", (2, 3), Some(value.as_str()), *wanted);
        drop(value);
    }
    for (name, value) in INSIDE {
        assert_inside(&rt, alloc, *name, *value);
    }
    for (name, value) in OUTSIDE {
        assert_outside(&rt, alloc, *name, *value);
    }
    for at in 0..MEMBERS {
        assert_lacking(&rt, alloc, at);
    }
    assert_with(&rt, alloc, "1", (HEARD, HEARD + 1), None, Told::One(1));
}

// The text that is printed of the state that a text says.
fn printed(rt: &impl Abort, alloc: Global, text: &str) -> Bytes {
    let read = read(alloc, text.as_bytes());
    let bytes = match &read {
        Ok(Form::Two(state)) => print(alloc, state).expect(rt, "memory"),
        _ => panic!(rt; "no state"),
    };
    drop(read);
    bytes
}

fn assert_printed(rt: &impl Abort, alloc: Global, text: &str) {
    let bytes = printed(rt, alloc, text);
    assert!(rt; bytes.as_slice() == text.as_bytes(), "{text}");
    drop(bytes);
}

// Values as they are printed.
const PRINTED: &[(&str, &str)] = &[
    (
        "acks",
        r#"[{"handle":"4b825dc642cb6eb9a060e54bf8d69288fbee4904","number":7},{"handle":"453c662eb3db7e41c59bf46ed8fa23f546fdb48d","number":9}]"#,
    ),
    (
        "base",
        r#"{"attributes":{"minimumSequenceNumber":9,"sequenceNumber":12},"quorumMembers":[{"clientId":"b","detail":[1],"sequenceNumber":4}],"quorumProposals":[{"key":"k\"","sequenceNumber":11,"value":null}],"quorumValues":[{"approvalSequenceNumber":8,"key":"code","sequenceNumber":7,"value":"v"}]}"#,
    ),
    (
        "clients",
        r#"[{"id":"a","last":3,"nacked":true,"reference":77,"scopes":["doc:read","doc:write","summary:write"]},{"id":"c0","last":0,"nacked":false,"reference":0,"scopes":[]}]"#,
    ),
    (
        "heard",
        r#"[{"id":"c0","moment":0},{"id":"c1","moment":9007199254740991}]"#,
    ),
    ("minima", "[[2,1],[5,3]]"),
    (
        "pending",
        r#"[{"clientId":"c0","clientSequenceNumber":1,"contents":{"a":[]},"metadata":null,"minimumSequenceNumber":0,"referenceSequenceNumber":0,"sequenceNumber":3,"timestamp":5,"type":"summarize"},{"clientId":"c0","clientSequenceNumber":2,"contents":null,"minimumSequenceNumber":0,"referenceSequenceNumber":0,"sequenceNumber":5,"timestamp":5,"type":"summarize"}]"#,
    ),
];

#[test]
fn the_text_of_a_state_is_read_and_printed(rt: HostRuntime) {
    let alloc = rt.alloc();
    assert_printed(&rt, alloc, SECOND);
    for (name, value) in PRINTED {
        let at = place(*name);
        let text = text_with(&rt, alloc, "2", at, at.wrapping_add(1), Some(*value));
        assert_printed(&rt, alloc, text.as_str());
        drop(text);
    }
}

// The moment in a client's row.
fn moment_of(rt: &impl Abort, alloc: Global, state: &State, id: &str) -> Option<u64> {
    let id = ClientId::read(alloc, id).expect(rt, "a name");
    let row = state.sequencer.clients.row(&id)?;
    Some(row.heard)
}

// The two lists of ids may differ: a moment of nobody joined counts for nothing, and a client without one has 0.
const JOINED: &str =
    r#"[{"id":"a","last":0,"nacked":false,"reference":0,"scopes":[]},{"id":"c0","last":0,"nacked":false,"reference":0,"scopes":[]}]"#;

#[test]
fn moments_stand_in_the_rows_of_their_clients(rt: HostRuntime) {
    let alloc = rt.alloc();
    let text = text_with(&rt, alloc, "2", 3, 4, Some(JOINED));
    let read = read(alloc, text.as_bytes());
    let Ok(Form::Two(state)) = &read else {
        panic!(&rt; "no state");
    };
    for (id, wanted) in [("a", Some(0)), ("c0", Some(5)), ("b", None)] {
        assert!(&rt; moment_of(&rt, alloc, state, id) == wanted, "{id}");
    }
    let moments = Moments::of(alloc, &state.sequencer.clients).expect(&rt, "memory");
    assert!(&rt; moments.as_slice().len() == 2 && state.heard.as_slice().len() == 1);
    drop(moments);
    drop(read);
    drop(text);
}
