//! The worker beside sessions: what it does at its hints, and that no fault ends it.

use crossbeam_channel::unbounded;
use fluid_hints::Bell;
use fluid_hosting::session;
use fluid_io::FixedClock;
use fluid_json::Text;
use fluid_lane::Limits;
use fluid_lines::{MemoryWire, WireScript};
use fluid_log::{MemoryKeeper, MemoryShelves};
use fluid_service::{Service, new_shelves_are_kept};
use fluid_store::MemoryObjects;
use fluid_types::DocName;
use fluid_worker::work;
use std::alloc::Global;
use std::collections::VecDeque;
use std::process::Abort;
use std::sync::{Mutex, Wait};

const CONNECT: &str =
    r#"["connect_document",{"id":"d","mode":"write","scopes":["doc:read","doc:write","summary:write"]}]"#;

// A summary whose tree isn't held.
const SUMMARIZE: &str =
    r#"["submitOp","c0",[{"clientSequenceNumber":1,"contents":{"handle":"0123456789abcdef0123456789abcdef01234567","head":"","message":"","parents":[]},"referenceSequenceNumber":1,"type":"summarize"}]]"#;

// Which calls of the store fail, how many hints come, and how many records and checkpoints are kept then. A join, a summarize and
// a leave are entered before the hints. The summary is answered at the first hint at which the store doesn't fail, and a
// checkpoint comes behind the answer.
const ROUNDS: [(&[u64], usize, usize, usize); 6] = [
    (&[], 0, 3, 0),
    (&[], 1, 4, 1),
    (&[1], 1, 3, 0),
    (&[1], 2, 4, 1),
    (&[1, 2, 3], 3, 3, 0),
    (&[1, 2, 3], 5, 4, 1),
];

#[test]
fn a_fault_ends_one_answer_and_not_the_worker(rt: HostRuntime) {
    for row in &ROUNDS {
        keeps(&rt, rt.alloc(), row);
    }
}

fn keeps<R: Wait + Abort>(rt: &R, alloc: Global, row: &(&[u64], usize, usize, usize)) {
    let (failing, hints, records, checkpoints) = row;
    let shelves = MemoryShelves::new(alloc, Vec::new(alloc));
    new_shelves_are_kept(&shelves);
    let Ok(service) = Service::new(alloc, shelves, Limits::FULL) else {
        panic!(rt; "memory");
    };
    let failing = Vec::from_slice(alloc, failing).expect(rt, "memory");
    let mut objects = MemoryObjects::new(alloc, failing);
    summarize(rt, alloc, &service, &mut objects);
    work_at(rt, alloc, &service, &mut objects, *hints);
    drop(objects);
    let shelves = service.close(rt);
    let name = DocName::read(alloc, "d").expect(rt, "a name");
    has_kept(rt, shelves.get(&name), *records, *checkpoints);
    drop(name);
    drop(shelves);
}

pub(crate) fn has_kept(
    rt: &impl Abort,
    keeper: Option<&MemoryKeeper>,
    records: usize,
    checkpoints: usize,
) {
    let Some(keeper) = keeper else {
        panic!(rt; "no keeper");
    };
    assert!(rt; keeper.records().len() == records, "{records} records");
    assert!(rt;
        keeper.checkpoint_texts().len() == checkpoints,
        "{checkpoints} checkpoints"
    );
}

// One connection, which asks for a summary and goes.
fn summarize<R: Wait + Abort>(
    rt: &R,
    alloc: Global,
    service: &Service<MemoryShelves>,
    objects: &mut MemoryObjects,
) {
    let mut wire = wire(rt, alloc);
    let (report, key, visit) = session(
        rt,
        alloc,
        service,
        objects,
        &mut wire,
        &FixedClock::new(7),
        service.key(),
        None,
    );
    drop(visit);
    drop(key);
    drop(report);
    drop(wire);
}

fn wire(rt: &impl Abort, alloc: Global) -> MemoryWire {
    let mut texts = VecDeque::new(alloc);
    for text in [CONNECT, SUMMARIZE] {
        let text = Text::copied(alloc, text).expect(rt, "memory");
        texts.push_back(text).expect(rt, "memory");
    }
    let script = WireScript {
        texts,
        failing_receives: Vec::new(alloc),
        failing_sends: Vec::new(alloc),
        quiet_receives: Vec::new(alloc),
    };
    MemoryWire::new(alloc, script)
}

// Runs a worker to which so many hints are given.
fn work_at<R: Wait + Abort>(
    rt: &R,
    alloc: Global,
    service: &Service<MemoryShelves>,
    objects: &mut MemoryObjects,
    hints: usize,
) {
    let (sender, hinted) = unbounded(alloc).expect(rt, "memory");
    for _ in 0..hints {
        sender.send(rt, ()).expect(rt, "a hint");
    }
    drop(sender);
    let bell = Mutex::new(Bell::new());
    work(
        rt,
        alloc,
        service,
        objects,
        &FixedClock::new(7),
        &bell,
        &hinted,
    );
    drop(hinted);
}
