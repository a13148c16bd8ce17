// The quorum: an order of fourteen messages, joins and leaves, and blobs with each fault.
use crate::texts::message;
use fluid_codec::read_message;
use fluid_json::{Bytes, Text};
use fluid_quorum::{BlobFault, Quorum};
use fluid_tree::{Entries, Node};
use fluid_types::Message;
use std::alloc::Global;
use std::process::Abort;
use std::str;

enum Step {
    // So many messages that say nothing, the last with the minimum one below its number.
    Fresh(u64),
    // The number, the minimum and the contents.
    Propose(u64, u64, &'static str),
    Op(u64, u64),
    // Noop messages up to this number, of which the last has this minimum.
    Advance(u64, u64),
    // The number and the member `data` with a comma behind it.
    Join(u64, &'static str),
    Leave(u64, &'static str),
    // How many proposals are pending.
    Pending(usize),
    // The number and the approval number of a key's value.
    Value(&'static str, Option<(u64, u64)>),
    // The number of a member's join.
    Member(&'static str, Option<u64>),
    // How many members are in.
    Members(usize),
    // The number and the minimum of the last message.
    Last(u64, u64),
}

fn apply(rt: &impl Abort, alloc: Global, quorum: &mut Quorum, message: &Message) {
    assert!(rt; quorum.number() < 1000);
    assert!(rt; message.number == quorum.number() + 1);
    quorum.apply(alloc, message).expect(rt, "memory");
}

fn take(
    rt: &impl Abort,
    alloc: Global,
    quorum: &mut Quorum,
    numbers: (u64, u64),
    kind: &str,
    contents: &str,
    data: &str,
) {
    let text = message(rt, alloc, numbers, kind, 0, contents, data);
    let message = read_message(alloc, text.as_str()).expect(rt, "a message");
    apply(rt, alloc, quorum, &message);
    drop(message);
}

fn begin(rt: &impl Abort, alloc: Global, quorum: &mut Quorum, count: u64) {
    *quorum = Quorum::new(alloc);
    for before in 0..count {
        let numbers = (before.saturating_add(1), before);
        take(rt, alloc, quorum, numbers, "op", "null", "");
    }
}

fn accepted(quorum: &Quorum, key: &str) -> Option<(u64, u64)> {
    let accepted = quorum.value(key)?;
    Some((accepted.number, accepted.approval))
}

fn joined(quorum: &Quorum, id: &str) -> Option<u64> {
    let member = quorum.member(id)?;
    Some(member.number)
}

// Takes a message.
fn enter(rt: &impl Abort, alloc: Global, quorum: &mut Quorum, step: &Step) {
    match step {
        Step::Fresh(count) => begin(rt, alloc, quorum, *count),
        Step::Propose(number, minimum, contents) => {
            let numbers = (*number, *minimum);
            take(rt, alloc, quorum, numbers, "propose", *contents, "");
        }
        Step::Op(number, minimum) => {
            take(rt, alloc, quorum, (*number, *minimum), "op", "null", "");
        }
        Step::Advance(number, minimum) => {
            quorum.advance(*number, *minimum).expect(rt, "memory");
        }
        Step::Join(number, data) => take(rt, alloc, quorum, (*number, 0), "join", "null", *data),
        Step::Leave(number, data) => take(rt, alloc, quorum, (*number, 0), "leave", "null", *data),
        _ => {}
    }
}

// Looks at what is kept.
fn look(rt: &impl Abort, alloc: Global, quorum: &Quorum, step: &Step) {
    match step {
        Step::Pending(count) => assert!(rt; quorum.pending().len() == *count, "{count} pending"),
        Step::Value(key, wanted) => assert!(rt; accepted(quorum, *key) == *wanted, "{key}"),
        Step::Member(id, wanted) => assert!(rt; joined(quorum, *id) == *wanted, "{id}"),
        Step::Members(count) => {
            let members = quorum.members(alloc).expect(rt, "memory");
            assert!(rt; members.len() == *count, "{count} members");
        }
        Step::Last(number, minimum) => {
            assert!(rt;
                quorum.number() == *number && quorum.minimum() == *minimum,
                "{number}"
            );
        }
        _ => {}
    }
}

fn assert_steps(rt: &impl Abort, alloc: Global, quorum: &mut Quorum, steps: &[Step]) {
    for step in steps {
        enter(rt, alloc, quorum, step);
        look(rt, alloc, quorum, step);
    }
}

const CODE: &str = r#"{"key":"code","value":"v2"}"#;

const PROPOSALS: &[Step] = &[
    // one is accepted where the minimum reaches it
    Step::Fresh(11),
    Step::Propose(12, 10, CODE),
    Step::Propose(13, 11, r#"{"key":"mode","value":1}"#),
    Step::Pending(2),
    Step::Value("code", None),
    Step::Op(14, 12),
    Step::Pending(1),
    Step::Value("code", Some((12, 14))),
    Step::Last(14, 12),
    // perhaps by its own message
    Step::Fresh(11),
    Step::Propose(12, 12, CODE),
    Step::Value("code", Some((12, 12))),
    // of two of one key the later decides
    Step::Fresh(11),
    Step::Propose(12, 10, CODE),
    Step::Propose(13, 11, r#"{"key":"code","value":"v3"}"#),
    Step::Op(14, 13),
    Step::Pending(0),
    Step::Value("code", Some((13, 14))),
    // contents may be a text that spells the object
    Step::Fresh(0),
    Step::Propose(1, 0, r#""{\"key\":\"code\",\"value\":\"v2\"}""#),
    Step::Pending(1),
    Step::Propose(2, 0, "5"),
    Step::Propose(3, 0, r#"{"key":1,"value":2}"#),
    Step::Propose(4, 0, r#"{"key":"code"}"#),
    Step::Pending(1),
];

// Who leaves and joins again is in by the later join.
const JOINS: &[Step] = &[
    Step::Fresh(0),
    Step::Join(1, r#""data":"{\"clientId\":\"b\",\"detail\":1}","#),
    Step::Join(2, r#""data":"{\"clientId\":\"a\",\"detail\":null}","#),
    Step::Leave(3, r#""data":"\"b\"","#),
    Step::Member("b", None),
    Step::Join(4, r#""data":"{\"clientId\":\"b\",\"detail\":2}","#),
    Step::Join(5, r#""data":"{\"clientId\":\"not a name\",\"detail\":2}","#),
    Step::Join(6, r#""data":"{\"clientId\":\"c\"}","#),
    Step::Member("a", Some(2)),
    Step::Member("b", Some(4)),
    Step::Member("c", None),
    Step::Members(2),
];

#[test]
fn messages_are_taken(rt: HostRuntime) {
    let alloc = rt.alloc();
    let mut quorum = Quorum::new(alloc);
    assert_steps(&rt, alloc, &mut quorum, PROPOSALS);
    assert_steps(&rt, alloc, &mut quorum, JOINS);
    drop(quorum);
}

// ---- blobs

const NAMES: [&str; 4] = [
    "attributes",
    "quorumMembers",
    "quorumProposals",
    "quorumValues",
];

// The blobs of the joins above, of a key's value and of a second proposal of that key, which is pending.
const GOOD: [&str; 4] = [
    r#"{"minimumSequenceNumber":7,"sequenceNumber":8}"#,
    r#"[{"clientId":"a","detail":null,"sequenceNumber":2},{"clientId":"b","detail":2,"sequenceNumber":4}]"#,
    r#"[{"key":"code","sequenceNumber":8,"value":[1]}]"#,
    r#"[{"approvalSequenceNumber":8,"key":"code","sequenceNumber":7,"value":"v2"}]"#,
];

const NEWS: &[Step] = &[
    Step::Propose(7, 5, CODE),
    Step::Propose(8, 7, r#"{"key":"code","value":[1]}"#),
];

fn content(tree: &Node, place: usize) -> Option<&str> {
    let entries = tree.as_tree()?;
    let (_, node) = entries.get(place)?;
    let bytes = node.as_blob()?;
    str::from_utf8(bytes).ok()
}

fn assert_written(rt: &impl Abort, alloc: Global, quorum: &Quorum) {
    let tree = quorum.to_blobs(alloc).expect(rt, "memory");
    for (place, wanted) in GOOD.iter().enumerate() {
        assert!(rt; content(&tree, place) == Some(*wanted), "{wanted}");
    }
    drop(tree);
}

fn assert_copied(rt: &impl Abort, alloc: Global, quorum: &Quorum) {
    let copy = quorum.copy(alloc).expect(rt, "memory");
    assert_written(rt, alloc, &copy);
    drop(copy);
}

fn assert_read_back(rt: &impl Abort, alloc: Global, quorum: &Quorum) {
    let tree = quorum.to_blobs(alloc).expect(rt, "memory");
    let read = Quorum::from_blobs(alloc, &tree).ok().expect(rt, "a quorum");
    assert_written(rt, alloc, &read);
    drop(read);
    drop(tree);
}

#[test]
fn blobs_are_the_texts_of_the_quorum(rt: HostRuntime) {
    let alloc = rt.alloc();
    let mut quorum = Quorum::new(alloc);
    assert_steps(&rt, alloc, &mut quorum, JOINS);
    assert_steps(&rt, alloc, &mut quorum, NEWS);
    assert_written(&rt, alloc, &quorum);
    assert_copied(&rt, alloc, &quorum);
    assert_read_back(&rt, alloc, &quorum);
    drop(quorum);
}

fn push(rt: &impl Abort, alloc: Global, entries: &mut Entries, name: &str, node: Node) {
    let name = Text::copied(alloc, name).expect(rt, "memory");
    entries.push(name, node).expect(rt, "memory");
}

fn blob(rt: &impl Abort, alloc: Global, content: &[u8]) -> Node {
    Node::blob(Bytes::copied(alloc, content).expect(rt, "memory"))
}

// A tree of these blobs, without the one in this place.
fn tree_without(rt: &impl Abort, alloc: Global, contents: &[&str; 4], absent: usize) -> Entries {
    let mut entries = Entries::new(alloc);
    for place in 0..4 {
        if place != absent {
            let node = blob(rt, alloc, contents[place].as_bytes());
            push(rt, alloc, &mut entries, NAMES[place], node);
        }
    }
    entries
}

// The place of the blob that isn't read; none where all are.
fn unread(rt: &impl Abort, alloc: Global, tree: &Node) -> Option<usize> {
    let answer = Quorum::from_blobs(alloc, tree);
    let place = match &answer {
        Ok(_) => None,
        Err(BlobFault::BadBlob(name)) => NAMES.iter().position(|it| *it == name.as_str()),
        Err(BlobFault::NoMemory) => panic!(rt; "memory"),
    };
    drop(answer);
    place
}

fn assert_unread(rt: &impl Abort, alloc: Global, tree: Node, wanted: Option<usize>, row: &str) {
    assert!(rt; unread(rt, alloc, &tree) == wanted, "{row}");
    drop(tree);
}

// All blobs but the one in this place are good.
fn assert_contents(rt: &impl Abort, alloc: Global, place: usize, content: &str) {
    assert!(rt; place < 4);
    let mut contents = GOOD;
    contents[place] = content;
    let tree = Node::tree(tree_without(rt, alloc, &contents, 4));
    assert_unread(rt, alloc, tree, Some(place), content);
}

// Another node stands in place of the blob in this place.
fn assert_node(rt: &impl Abort, alloc: Global, place: usize, node: Node) {
    assert!(rt; place < 4);
    let mut entries = tree_without(rt, alloc, &GOOD, place);
    push(rt, alloc, &mut entries, NAMES[place], node);
    assert_unread(rt, alloc, Node::tree(entries), Some(place), NAMES[place]);
}

const OUTSIDE: &[(usize, &str)] = &[
    (0, r#"{"minimumSequenceNumber":7,"sequenceNumber": 8}"#),
    (
        0,
        r#"{"minimumSequenceNumber":7,"sequenceNumber":9007199254740992}"#,
    ),
    (0, r#"{"minimumSequenceNumber":5,"sequenceNumber":0}"#),
    (0, r#"{"sequenceNumber":8}"#),
    (0, "[]"),
    (
        1,
        r#"[{"clientId":"b","detail":2,"sequenceNumber":4},{"clientId":"a","detail":null,"sequenceNumber":2}]"#,
    ),
    (
        1,
        r#"[{"clientId":"a b","detail":null,"sequenceNumber":2}]"#,
    ),
    (1, r#"[{"clientId":"a","sequenceNumber":2}]"#),
    (1, r#"[{"clientId":"a","detail":null,"sequenceNumber":0}]"#),
    (1, r#"[{"clientId":"a","detail":null,"sequenceNumber":9}]"#),
    (2, r#"[{"key":"mode","sequenceNumber":9,"value":[1]}]"#),
    (
        2,
        r#"[{"key":"mode","sequenceNumber":8,"value":[1]},{"key":"mode","sequenceNumber":8,"value":[1]}]"#,
    ),
    (2, r#"[{"key":"mode","sequenceNumber":8}]"#),
    (2, r#"[{"key":1,"sequenceNumber":8,"value":[1]}]"#),
    (3, "not JSON"),
    (
        3,
        r#"[{"approvalSequenceNumber":8,"sequenceNumber":7,"value":"v2"}]"#,
    ),
    (
        3,
        r#"[{"approvalSequenceNumber":9,"key":"code","sequenceNumber":7,"value":"v2"}]"#,
    ),
    (
        3,
        r#"[{"approvalSequenceNumber":8,"key":"mode","sequenceNumber":7,"value":1},{"approvalSequenceNumber":8,"key":"code","sequenceNumber":7,"value":1}]"#,
    ),
    (
        3,
        r#"[{"approvalSequenceNumber":8,"key":"code","sequenceNumber":0,"value":"v2"}]"#,
    ),
];

const EMPTY: [&str; 4] = [
    r#"{"minimumSequenceNumber":0,"sequenceNumber":0}"#,
    "[]",
    "[]",
    "[]",
];

#[test]
fn the_first_blob_outside_its_form_is_named(rt: HostRuntime) {
    let alloc = rt.alloc();
    for (place, content) in OUTSIDE {
        assert_contents(&rt, alloc, *place, content);
    }
    for place in 0..4 {
        let missing = Node::tree(tree_without(&rt, alloc, &GOOD, place));
        assert_unread(&rt, alloc, missing, Some(place), "missing");
        assert_node(&rt, alloc, place, blob(&rt, alloc, &[0x5b, 0xff, 0x5d]));
        assert_node(&rt, alloc, place, Node::tree(Entries::new(alloc)));
    }
    assert_unread(&rt, alloc, blob(&rt, alloc, b"[]"), Some(0), "no tree");
    let empty = Node::tree(tree_without(&rt, alloc, &EMPTY, 4));
    assert_unread(&rt, alloc, empty, None, "no messages");
}

// ---- noop messages

// The blobs behind message 6 with minimum 3, which has reached one of two pending proposals.
const DUE: [&str; 4] = [
    r#"{"minimumSequenceNumber":3,"sequenceNumber":6}"#,
    "[]",
    r#"[{"key":"code","sequenceNumber":3,"value":"v2"},{"key":"mode","sequenceNumber":5,"value":1}]"#,
    "[]",
];

// Messages 7, 8 and 9 have the present minimum, and 10 has the new one.
const APART: &[Step] = &[
    Step::Advance(10, 5),
    Step::Value("code", Some((3, 7))),
    Step::Value("mode", Some((5, 10))),
    Step::Pending(0),
    Step::Last(10, 5),
    // a number that isn't above it, and a minimum that falls
    Step::Advance(10, 9),
    Step::Last(10, 5),
    Step::Advance(12, 4),
    Step::Last(10, 5),
    Step::Advance(11, 5),
    Step::Last(11, 5),
];

// The next message is the last too.
const AT_ONCE: &[Step] = &[
    Step::Advance(7, 5),
    Step::Value("code", Some((3, 7))),
    Step::Value("mode", Some((5, 7))),
    Step::Last(7, 5),
];

// The minimum doesn't reach the second proposal.
const ONE_OF_TWO: &[Step] = &[
    Step::Advance(9, 4),
    Step::Value("code", Some((3, 7))),
    Step::Value("mode", None),
    Step::Pending(1),
    Step::Last(9, 4),
];

// Behind the good blobs: the pending proposal takes the place of the value that its key has.
const SECOND: &[Step] = &[
    Step::Value("code", Some((7, 8))),
    Step::Advance(9, 7),
    Step::Value("code", Some((7, 8))),
    Step::Pending(1),
    Step::Advance(10, 8),
    Step::Value("code", Some((8, 10))),
    Step::Pending(0),
];

fn assert_advanced(rt: &impl Abort, alloc: Global, tree: &Node, steps: &[Step]) {
    let mut quorum = Quorum::from_blobs(alloc, tree).ok().expect(rt, "a quorum");
    assert_steps(rt, alloc, &mut quorum, steps);
    drop(quorum);
}

#[test]
fn noops_bring_a_quorum_to_a_number(rt: HostRuntime) {
    let alloc = rt.alloc();
    let tree = Node::tree(tree_without(&rt, alloc, &DUE, 4));
    assert_advanced(&rt, alloc, &tree, APART);
    assert_advanced(&rt, alloc, &tree, AT_ONCE);
    assert_advanced(&rt, alloc, &tree, ONE_OF_TWO);
    drop(tree);
    let good = Node::tree(tree_without(&rt, alloc, &GOOD, 4));
    assert_advanced(&rt, alloc, &good, SECOND);
    drop(good);
}
