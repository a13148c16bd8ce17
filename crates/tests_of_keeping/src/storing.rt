// The store of Git's objects.
use fluid_json::{Text, read};
use fluid_store::{
    MemoryObjects, ObjectFault, Objects, StoreFault, complete, fetch, store_object, upload,
};
use fluid_tree::{
    Entries, Id, Node, ObjectEntries, ObjectEntry, TreeFault, from_json, id_of, tree_bytes,
};
use std::alloc::Global;
use std::process::Abort;

// The ids that Git prints for the objects below.
const IDS: [&str; 13] = [
    "e69de29bb2d1d6434b8b29ae775ad8c2e48c5391",
    "4b825dc642cb6eb9a060e54bf8d69288fbee4904",
    "ce013625030ba8dba906f756967f9e9ca394464a",
    "6c5eb816ec8cace4aaf30d9245ab712256f64058",
    "c96f1b512ac253fd899a0c1d81043866f2e750f0",
    "63533312ccca4ec2fb5ebde859e70eed4d482f82",
    "3d800f5d507af8fcb2388be1a6d6cef4f3452ea0",
    "56b7e737070846518a2144e165ad916af6203912",
    "d25ce14f7accb5bb45811397d87758089e31f80f",
    "21d4be4a5fb321923cb352b0bd626dcad1baacc9",
    "5d927cbf4590dd96799530b2af3e1e70be5fea4c",
    "6ac11413754d9d3c61b409c6a79cf3df6aaf872b",
    "a65d62ce0baf39eda0df4b1cb9c1b8c60368e9a4",
];

// The places of these ids: an empty blob and an empty tree, a file of `hello` and a line feed,
const EMPTY_BLOB: usize = 0;

const EMPTY_TREE: usize = 1;

const HELLO: usize = 2;
// a tree with the empty blobs `a.b` and `a0` and the empty tree `a`,
const SAMPLE: usize = 3;
// a tree with the empty tree and the empty blob as its trees `a` and `b`, and one with the empty tree as its blobs,
const TREES: usize = 4;

const BLOBS: usize = 5;
// 32 trees in one another under the name `t`, and a tree that has them as `a` and as `b`,
const NESTED: usize = 6;

const DEEPER: usize = 7;
// an earlier tree, and what stands for handles into it.
const EARLIER: usize = 8;

const AS_BEFORE: usize = 9;

const ANOTHER_NAME: usize = 10;

const FROM_BELOW: usize = 11;

const INNER: usize = 12;

const HELLO_BYTES: &[u8] = b"blob 6\x00hello\n";

const SAMPLE_TEXT: &str =
    r#"{"type":1,"tree":{"a":{"type":1,"tree":{}},"a.b":{"type":2,"content":""},"a0":{"type":2,"content":""}}}"#;

// With a tree in a tree.
const EARLIER_TEXT: &str =
    r#"{"type":1,"tree":{"k":{"type":1,"tree":{"l":{"type":1,"tree":{"n":{"type":2,"content":"x"}}}}},"m":{"type":2,"content":"y"}}}"#;

// What is asked of a store. An id is named by its place above.
#[derive(Clone, Copy)]
enum Act {
    // A new store, in which one call fails, or none where it is call 0.
    Begin(u64),
    Put(&'static [u8]),
    // A tree with two entries, `a` and `b`, trees or blobs.
    PutPair(usize, usize, bool),
    // Bytes are put under an id that may not be theirs.
    Plant(usize, &'static [u8]),
    Upload(&'static str),
    // Over the tree with this id.
    UploadOver(usize, &'static str),
    // So many trees in one another, each the next one's under this name.
    UploadNested(usize, &'static str),
    // Whether the fault of putting the first bytes tells them, and the other ones as what is held.
    Clashes(&'static [u8], &'static [u8]),
    Holds(usize, &'static [u8]),
    IsWhole(usize),
    Fetch(usize),
    // How many objects are held, and how many were looked up.
    Count,
    Gets,
}

#[derive(Clone, Copy, Debug, PartialEq)]
enum Told {
    // The id that is answered, or that of what is read.
    Done(usize),
    Is(bool),
    Count(u64),
    // The count of faults rose from 0 to 1.
    Failed,
    Clash(usize),
    Missing(usize),
    // At this place.
    Bad(usize, u64),
    BadName,
    TooDeep,
    NoPath,
    AnotherFault,
}

fn id_at(rt: &impl Abort, at: usize) -> Id {
    let text = IDS.get(at).expect(rt, "an id of these tests");
    Id::read(*text).expect(rt, "an id")
}

// The place of an id, and the number of them where it is another.
fn place(id: &Id) -> usize {
    for (at, text) in IDS.iter().enumerate() {
        if Id::read(*text) == Some(*id) {
            return at;
        }
    }
    IDS.len()
}

fn fault_of(fault: &StoreFault) -> Told {
    match fault {
        StoreFault::StoreFailed(note) if note.before == 0 && note.after == 1 => Told::Failed,
        StoreFault::Clash { id, .. } => Told::Clash(place(id)),
        StoreFault::Missing(id) => Told::Missing(place(id)),
        StoreFault::BadObject(id, at) => Told::Bad(place(id), *at),
        StoreFault::Tree(TreeFault::BadName(_)) => Told::BadName,
        StoreFault::Tree(TreeFault::TooDeep) => Told::TooDeep,
        StoreFault::NoPath(_) => Told::NoPath,
        _ => Told::AnotherFault,
    }
}

fn done(answer: &Result<Id, StoreFault>) -> Told {
    match answer {
        Ok(id) => Told::Done(place(id)),
        Err(fault) => fault_of(fault),
    }
}

fn put(alloc: Global, objects: &mut MemoryObjects, bytes: &[u8]) -> Told {
    let answer = store_object(alloc, objects, bytes);
    let told = done(&answer);
    drop(answer);
    told
}

fn put_over(alloc: Global, objects: &mut MemoryObjects, node: Node, earlier: Option<&Id>) -> Told {
    let answer = upload(alloc, objects, &node, earlier);
    let told = done(&answer);
    drop(answer);
    drop(node);
    told
}

fn fetched(rt: &impl Abort, alloc: Global, objects: &mut MemoryObjects, at: usize) -> Told {
    let answer = fetch(alloc, objects, &id_at(rt, at));
    let told = match &answer {
        Ok(node) => read_as(alloc, node),
        Err(fault) => fault_of(fault),
    };
    drop(answer);
    told
}

fn completed(rt: &impl Abort, alloc: Global, objects: &mut MemoryObjects, at: usize) -> Told {
    let answer = complete(alloc, objects, &id_at(rt, at));
    let told = match &answer {
        Ok(whole) => Told::Is(*whole),
        Err(fault) => fault_of(fault),
    };
    drop(answer);
    told
}

// The id of what is read.
fn read_as(alloc: Global, node: &Node) -> Told {
    match id_of(alloc, node) {
        Ok(id) => Told::Done(place(&id)),
        Err(_) => Told::AnotherFault,
    }
}

fn plant(
    rt: &impl Abort,
    alloc: Global,
    objects: &mut MemoryObjects,
    at: usize,
    bytes: &[u8],
) -> Told {
    match objects.put(alloc, &id_at(rt, at), bytes) {
        Ok(()) => Told::Done(at),
        Err(ObjectFault::Failed) => Told::Failed,
        Err(ObjectFault::NoMemory) => Told::AnotherFault,
    }
}

fn holds(
    rt: &impl Abort,
    alloc: Global,
    objects: &mut MemoryObjects,
    at: usize,
    bytes: &[u8],
) -> bool {
    match objects.get(alloc, &id_at(rt, at)) {
        Ok(Some(held)) => held.as_slice() == bytes,
        _ => false,
    }
}

fn clashes(alloc: Global, objects: &mut MemoryObjects, bytes: &[u8], held: &[u8]) -> bool {
    let answer = store_object(alloc, objects, bytes);
    let told = match &answer {
        Err(StoreFault::Clash { kept, new, .. }) => {
            kept.as_slice() == held && new.as_slice() == bytes
        }
        _ => false,
    };
    drop(answer);
    told
}

// A store in which one call fails, or none where it is call 0.
fn store(rt: &impl Abort, alloc: Global, failing: u64) -> MemoryObjects {
    let failing = Vec::from_slice(alloc, &[failing]).expect(rt, "memory");
    MemoryObjects::new(alloc, failing)
}

fn node(rt: &impl Abort, alloc: Global, text: &str) -> Node {
    let value = read(alloc, text).ok().expect(rt, "a JSON value");
    let node = from_json(alloc, &value).ok().expect(rt, "a summary tree");
    drop(value);
    node
}

// So many trees in one another, each the next one's under this name.
fn nested(rt: &impl Abort, alloc: Global, trees: usize, name: &str) -> Node {
    let mut node = Node::tree(Entries::new(alloc));
    for _ in 1..trees {
        let mut entries = Entries::new(alloc);
        let name = Text::copied(alloc, name).expect(rt, "memory");
        entries.push(name, node).expect(rt, "memory");
        node = Node::tree(entries);
    }
    node
}

// The bytes of a tree with two entries, `a` and `b`, trees or blobs.
fn pair(rt: &impl Abort, alloc: Global, ids: (Id, Id), trees: bool) -> Vec<u8> {
    let (head, mode): (&[u8], &[u8]) = if trees {
        (b"tree 56\x00", b"40000 ")
    } else {
        (b"tree 58\x00", b"100644 ")
    };
    let mut bytes = Vec::from_slice(alloc, head).expect(rt, "memory");
    for (name, id) in [(b"a\x00", ids.0), (b"b\x00", ids.1)] {
        bytes.extend_from_slice(mode).expect(rt, "memory");
        bytes.extend_from_slice(name).expect(rt, "memory");
        bytes.extend_from_slice(id.as_bytes()).expect(rt, "memory");
    }
    bytes
}

fn put_pair(
    rt: &impl Abort,
    alloc: Global,
    objects: &mut MemoryObjects,
    ids: (Id, Id),
    trees: bool,
) -> Told {
    let bytes = pair(rt, alloc, ids, trees);
    let told = put(alloc, objects, bytes.as_slice());
    drop(bytes);
    told
}

fn tell(rt: &impl Abort, alloc: Global, objects: &mut MemoryObjects, act: &Act) -> Told {
    match act {
        Act::Begin(failing) => {
            *objects = store(rt, alloc, *failing);
            Told::Count(0)
        }
        Act::Put(bytes) => put(alloc, objects, *bytes),
        Act::PutPair(first, second, trees) => {
            let ids = (id_at(rt, *first), id_at(rt, *second));
            put_pair(rt, alloc, objects, ids, *trees)
        }
        Act::Plant(at, bytes) => plant(rt, alloc, objects, *at, *bytes),
        Act::Upload(text) => put_over(alloc, objects, node(rt, alloc, *text), None),
        Act::UploadOver(at, text) => {
            let earlier = id_at(rt, *at);
            put_over(alloc, objects, node(rt, alloc, *text), Some(&earlier))
        }
        Act::UploadNested(trees, name) => {
            put_over(alloc, objects, nested(rt, alloc, *trees, *name), None)
        }
        Act::Clashes(bytes, held) => Told::Is(clashes(alloc, objects, *bytes, *held)),
        Act::Holds(at, bytes) => Told::Is(holds(rt, alloc, objects, *at, *bytes)),
        Act::IsWhole(at) => completed(rt, alloc, objects, *at),
        Act::Fetch(at) => fetched(rt, alloc, objects, *at),
        Act::Count => Told::Count(objects.count() as u64),
        Act::Gets => Told::Count(objects.gets()),
    }
}

fn assert_told(
    rt: &impl Abort,
    alloc: Global,
    objects: &mut MemoryObjects,
    row: usize,
    act: &Act,
    wanted: Told,
) {
    let told = tell(rt, alloc, objects, act);
    assert!(rt; told == wanted, "row {row}: {told:?}, not {wanted:?}");
}

const ACTS: &[(Act, Told)] = &[
    // a tree is put and read back: one blob, which two entries name, and two trees
    (Act::IsWhole(SAMPLE), Told::Is(false)),
    (Act::Fetch(SAMPLE), Told::Missing(SAMPLE)),
    (Act::Upload(SAMPLE_TEXT), Told::Done(SAMPLE)),
    (Act::Count, Told::Count(3)),
    (Act::IsWhole(SAMPLE), Told::Is(true)),
    (Act::Fetch(SAMPLE), Told::Done(SAMPLE)),
    (Act::Put(HELLO_BYTES), Told::Done(HELLO)),
    (Act::Put(HELLO_BYTES), Told::Done(HELLO)),
    (Act::Count, Told::Count(4)),
    // where the call fails, nothing is put; of other bytes under one id the later ones are held
    (Act::Begin(1), Told::Count(0)),
    (Act::Plant(EMPTY_BLOB, b"one"), Told::Failed),
    (Act::Count, Told::Count(0)),
    (Act::Plant(EMPTY_BLOB, b"one"), Told::Done(EMPTY_BLOB)),
    (Act::Plant(EMPTY_BLOB, b"two"), Told::Done(EMPTY_BLOB)),
    (Act::Count, Told::Count(1)),
    (Act::Holds(EMPTY_BLOB, b"two"), Told::Is(true)),
    // other bytes are held under the id of one of a tree's objects: those before it are put
    (Act::Begin(0), Told::Count(0)),
    (Act::Plant(EMPTY_BLOB, b"other"), Told::Done(EMPTY_BLOB)),
    (Act::Upload(SAMPLE_TEXT), Told::Clash(EMPTY_BLOB)),
    (Act::Count, Told::Count(1)),
    (Act::Holds(EMPTY_BLOB, b"other"), Told::Is(true)),
    (Act::Clashes(b"blob 0\x00", b"other"), Told::Is(true)),
    (Act::Begin(0), Told::Count(0)),
    (Act::Plant(EMPTY_TREE, b"other"), Told::Done(EMPTY_TREE)),
    (Act::Upload(SAMPLE_TEXT), Told::Clash(EMPTY_TREE)),
    (Act::Count, Told::Count(2)),
    (Act::Holds(EMPTY_TREE, b"other"), Told::Is(true)),
    (Act::Begin(0), Told::Count(0)),
    (Act::Plant(SAMPLE, b"other"), Told::Done(SAMPLE)),
    (Act::Upload(SAMPLE_TEXT), Told::Clash(SAMPLE)),
    (Act::Count, Told::Count(3)),
    (Act::Holds(SAMPLE, b"other"), Told::Is(true)),
    // a tree that is refused leaves the store alone; an earlier one has to be held
    (Act::Begin(0), Told::Count(0)),
    (Act::Upload(r#"{"type":3,"handle":"k/l"}"#), Told::NoPath),
    (Act::UploadNested(33, "t"), Told::TooDeep),
    (Act::UploadNested(2, "a/b"), Told::BadName),
    (Act::Gets, Told::Count(0)),
    (Act::UploadOver(HELLO, SAMPLE_TEXT), Told::Missing(HELLO)),
    (Act::Count, Told::Count(0)),
    // 32 trees in one another are read back, and with one more round them they aren't
    (Act::Begin(0), Told::Count(0)),
    (Act::UploadNested(32, "t"), Told::Done(NESTED)),
    (Act::IsWhole(NESTED), Told::Is(true)),
    (Act::Fetch(NESTED), Told::Done(NESTED)),
    (Act::PutPair(NESTED, NESTED, true), Told::Done(DEEPER)),
    (Act::IsWhole(DEEPER), Told::Is(false)),
    (Act::Fetch(DEEPER), Told::TooDeep),
    // of two that are missing, the first one is told
    (Act::Begin(0), Told::Count(0)),
    (
        Act::PutPair(EMPTY_TREE, EMPTY_BLOB, true),
        Told::Done(TREES),
    ),
    (Act::IsWhole(TREES), Told::Is(false)),
    (Act::Fetch(TREES), Told::Missing(EMPTY_TREE)),
    (Act::Put(b"tree 0\x00"), Told::Done(EMPTY_TREE)),
    (Act::IsWhole(TREES), Told::Is(false)),
    (Act::Fetch(TREES), Told::Missing(EMPTY_BLOB)),
    // an object of another kind than its entry says: whether all is held doesn't hang on it
    (Act::Put(b"blob 0\x00"), Told::Done(EMPTY_BLOB)),
    (Act::IsWhole(TREES), Told::Is(true)),
    (Act::Fetch(TREES), Told::Bad(EMPTY_BLOB, 0)),
    (
        Act::PutPair(EMPTY_TREE, EMPTY_TREE, false),
        Told::Done(BLOBS),
    ),
    (Act::IsWhole(BLOBS), Told::Is(true)),
    (Act::Fetch(BLOBS), Told::Bad(EMPTY_TREE, 0)),
    // bytes outside the grammar
    (
        Act::Plant(EMPTY_BLOB, b"blob 2\x00x"),
        Told::Done(EMPTY_BLOB),
    ),
    (Act::IsWhole(EMPTY_BLOB), Told::Is(false)),
    (Act::Fetch(EMPTY_BLOB), Told::Bad(EMPTY_BLOB, 8)),
];

#[test]
fn a_store_answers_act_by_act(rt: HostRuntime) {
    let alloc = rt.alloc();
    let mut objects = store(&rt, alloc, 0);
    for (row, (act, wanted)) in ACTS.iter().enumerate() {
        assert_told(&rt, alloc, &mut objects, row, act, *wanted);
    }
    drop(objects);
}

// An object is put, a tree is put, looked at, and read.
const CALLS: [Act; 4] = [
    Act::Put(HELLO_BYTES),
    Act::Upload(SAMPLE_TEXT),
    Act::IsWhole(SAMPLE),
    Act::Fetch(SAMPLE),
];

// How many of them pass before one fails where one call of the store does, and how many objects are held then.
fn passed(rt: &impl Abort, alloc: Global, failing: u64) -> (usize, usize) {
    let mut objects = store(rt, alloc, failing);
    let mut passed = 0_usize;
    for act in &CALLS {
        if tell(rt, alloc, &mut objects, act) == Told::Failed {
            break;
        }
        passed = passed.saturating_add(1);
    }
    let count = objects.count();
    drop(objects);
    (passed, count)
}

// The object is looked up by call 1 and put by call 2. The upload makes calls 3 to 9: it finds the blob the second time. The tree
// is looked through by calls 10 to 12, and read by 13 to 16.
const FAILING: &[(u64, (usize, usize))] = &[
    (1, (0, 0)),
    (2, (0, 0)),
    (3, (1, 1)),
    (4, (1, 1)),
    (5, (1, 2)),
    (6, (1, 2)),
    (7, (1, 3)),
    (8, (1, 3)),
    (9, (1, 3)),
    (10, (2, 4)),
    (11, (2, 4)),
    (12, (2, 4)),
    (13, (3, 4)),
    (14, (3, 4)),
    (15, (3, 4)),
    (16, (3, 4)),
    (17, (4, 4)),
];

#[test]
fn a_call_fails_where_the_store_fails(rt: HostRuntime) {
    let alloc = rt.alloc();
    for (failing, wanted) in FAILING {
        let told = passed(&rt, alloc, *failing);
        assert!(rt; told == *wanted, "{told:?} where call {failing} fails");
    }
}

// Trees of which each but the last names the next one twice: each is looked at once.
#[test]
fn each_of_32_trees_is_looked_at_once(rt: HostRuntime) {
    let alloc = rt.alloc();
    let mut objects = store(&rt, alloc, 0);
    let mut id = Id::of(b"tree 0\x00");
    put(alloc, &mut objects, b"tree 0\x00");
    for _ in 0..31 {
        let bytes = pair(&rt, alloc, (id, id), true);
        put(alloc, &mut objects, bytes.as_slice());
        id = Id::of(bytes.as_slice());
        drop(bytes);
    }
    let before = objects.gets();
    let whole = complete(alloc, &mut objects, &id);
    assert!(rt; objects.count() == 32 && matches!(&whole, Ok(true)));
    assert!(rt; objects.gets().saturating_sub(before) == 32);
    drop(whole);
    drop(objects);
}

// Handles into the earlier tree, what is told, and the text of what stands then, where something does.
const OVER_EARLIER: [(&str, Told, &str); 8] = [
    // a tree, a blob, and both where they stood
    (
        r#"{"type":1,"tree":{"k":{"type":3,"handle":"k"},"m":{"type":2,"content":"z"}}}"#,
        Told::Done(AS_BEFORE),
        r#"{"type":1,"tree":{"k":{"type":1,"tree":{"l":{"type":1,"tree":{"n":{"type":2,"content":"x"}}}}},"m":{"type":2,"content":"z"}}}"#,
    ),
    (
        r#"{"type":1,"tree":{"a":{"type":3,"handle":"m"},"b":{"type":1,"tree":{}}}}"#,
        Told::Done(ANOTHER_NAME),
        r#"{"type":1,"tree":{"a":{"type":2,"content":"y"},"b":{"type":1,"tree":{}}}}"#,
    ),
    (
        r#"{"type":1,"tree":{"k":{"type":3,"handle":"k"},"m":{"type":3,"handle":"/m"}}}"#,
        Told::Done(EARLIER),
        EARLIER_TEXT,
    ),
    // deeper ones, and one alone
    (
        r#"{"type":1,"tree":{"m":{"type":3,"handle":"k/l/n"},"o":{"type":3,"handle":"k/l"}}}"#,
        Told::Done(FROM_BELOW),
        r#"{"type":1,"tree":{"m":{"type":2,"content":"x"},"o":{"type":1,"tree":{"n":{"type":2,"content":"x"}}}}}"#,
    ),
    (
        r#"{"type":3,"handle":"k/l"}"#,
        Told::Done(INNER),
        r#"{"type":1,"tree":{"n":{"type":2,"content":"x"}}}"#,
    ),
    // no such name, in a tree and in a blob
    (
        r#"{"type":1,"tree":{"a":{"type":3,"handle":"a"}}}"#,
        Told::NoPath,
        "",
    ),
    (
        r#"{"type":1,"tree":{"a":{"type":3,"handle":"k/m"}}}"#,
        Told::NoPath,
        "",
    ),
    (
        r#"{"type":1,"tree":{"a":{"type":3,"handle":"m/n"}}}"#,
        Told::NoPath,
        "",
    ),
];

// What stands is whole, and put again it is there already.
fn assert_stands(
    rt: &impl Abort,
    alloc: Global,
    objects: &mut MemoryObjects,
    row: usize,
    at: usize,
    text: &'static str,
) {
    let done = Told::Done(at);
    assert_told(rt, alloc, objects, row, &Act::IsWhole(at), Told::Is(true));
    assert_told(rt, alloc, objects, row, &Act::Fetch(at), done);
    let held = objects.count();
    assert_told(rt, alloc, objects, row, &Act::Upload(text), done);
    assert!(rt; objects.count() == held, "row {row}");
}

#[test]
fn handles_stand_for_what_they_lead_to(rt: HostRuntime) {
    let alloc = rt.alloc();
    for (row, (handles, wanted, text)) in OVER_EARLIER.iter().enumerate() {
        let mut objects = store(&rt, alloc, 0);
        let earlier = Act::Upload(EARLIER_TEXT);
        assert_told(&rt, alloc, &mut objects, row, &earlier, Told::Done(EARLIER));
        let over = Act::UploadOver(EARLIER, *handles);
        assert_told(&rt, alloc, &mut objects, row, &over, *wanted);
        let alone = Act::Upload(*handles);
        assert_told(&rt, alloc, &mut objects, row, &alone, Told::NoPath);
        if let Told::Done(at) = wanted {
            assert_stands(&rt, alloc, &mut objects, row, *at, *text);
        }
        drop(objects);
    }
}
