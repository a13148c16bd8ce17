// Documents, whose lane is started over a keeper and called on, and what their keepers have then.
use crate::calls::{Call, made, named};
use fluid_json::Bytes;
use fluid_lane::{Lane, LaneFault, Limits};
use fluid_log::{Keeper, LONGEST_KEPT, MemoryKeeper};
use std::alloc::Global;
use std::process::Abort;

// Three entries, one client, one checkpoint.
pub const FEW: Limits = Limits {
    entries: 3,
    clients: 1,
    checkpoints: 1,
    bytes: 1_048_576,
};

// A document, whose lane is open or whose keeper came back.
#[derive(Drop)]
enum Document {
    Open(Lane<MemoryKeeper>),
    Shut(MemoryKeeper),
}

// Puts one more answer behind the others.
pub fn put(rt: &impl Abort, told: &mut String, answer: &str) {
    if !told.is_empty() {
        told.push_str("; ").expect(rt, "memory");
    }
    told.push_str(answer).expect(rt, "memory");
}

fn begun(rt: &impl Abort, lane: Lane<MemoryKeeper>, told: &mut String) -> Document {
    assert!(rt;
        lane.number() == lane.entered() && lane.last_side().is_none() && lane.clients().count() == 0
    );
    put(rt, told, "begun");
    Document::Open(lane)
}

fn given_back(
    rt: &impl Abort,
    alloc: Global,
    back: (MemoryKeeper, LaneFault),
    told: &mut String,
) -> Document {
    let (keeper, fault) = back;
    let name = named(rt, alloc, &fault);
    put(rt, told, name.as_str());
    drop(fault);
    Document::Shut(keeper)
}

// Starts a lane over the keeper, which comes back with a fault.
fn start(
    rt: &impl Abort,
    alloc: Global,
    limits: Limits,
    keeper: MemoryKeeper,
    told: &mut String,
) -> Document {
    assert!(rt; limits.bytes <= LONGEST_KEPT as u64);
    match Lane::start(alloc, keeper, limits, 9) {
        Ok(lane) => begun(rt, lane, told),
        Err(back) => given_back(rt, alloc, back, told),
    }
}

// The keeper, whose lane is closed where it is open.
fn shut(document: Document) -> MemoryKeeper {
    match document {
        Document::Open(lane) => lane.close(),
        Document::Shut(keeper) => keeper,
    }
}

// Makes a call on a lane that is open.
fn go_on(rt: &impl Abort, alloc: Global, document: &mut Document, call: Call, told: &mut String) {
    match document {
        Document::Open(lane) => {
            let answer = made(rt, alloc, lane, call);
            put(rt, told, answer.as_str());
        }
        Document::Shut(_) => panic!(rt; "no lane is open"),
    }
}

// Makes the calls in turn, and puts their answers behind one another. The keeper is closed behind the last.
pub fn live(
    rt: &impl Abort,
    alloc: Global,
    limits: Limits,
    keeper: MemoryKeeper,
    calls: &[Call],
) -> (String, MemoryKeeper) {
    let mut told = String::new(alloc);
    let mut document = Document::Shut(keeper);
    for call in calls {
        if matches!(call, Call::Start) {
            document = start(rt, alloc, limits, shut(document), &mut told);
        } else {
            go_on(rt, alloc, &mut document, *call, &mut told);
        }
    }
    (told, shut(document))
}

// ---- keepers

pub fn keeper_of(rt: &impl Abort, alloc: Global, failing: &[u64], adding: &[u64]) -> MemoryKeeper {
    let failing = Vec::from_slice(alloc, failing).expect(rt, "memory");
    let adding = Vec::from_slice(alloc, adding).expect(rt, "memory");
    MemoryKeeper::new(alloc, failing, adding)
}

// How many records, deltas and checkpoints are kept, how many records were read, and how many faults were counted.
pub type Counts = (u64, u64, u64, u64, u64);

pub fn counts(keeper: &MemoryKeeper) -> Counts {
    (
        keeper.len(),
        keeper.deltas(),
        keeper.checkpoints(),
        keeper.reads(),
        keeper.faults(),
    )
}

// These texts and no others are kept.
pub fn assert_texts(rt: &impl Abort, kept: &[Bytes], wanted: &[&str]) {
    assert!(rt; kept.len() == wanted.len());
    for (text, line) in kept.iter().zip(wanted) {
        assert!(rt; text.as_slice() == line.as_bytes(), "{line}");
    }
}

// Lives over this keeper, and looks at the answers and at what is kept.
pub fn assert_life(
    rt: &impl Abort,
    alloc: Global,
    limits: Limits,
    keeper: MemoryKeeper,
    calls: &[Call],
    answers: &str,
    kept: Counts,
) {
    let (told, keeper) = live(rt, alloc, limits, keeper, calls);
    assert_eq!(rt; told.as_str(), answers);
    assert!(rt; counts(&keeper) == kept, "{answers}");
    drop(keeper);
}
