//! The short life of a lane within limits, over disks of which one stops at a call, and what is found behind a crash.
ghost use Rattle.std.specs.Prelude.{◌≤◌, List, ℕ, length};
ghost use Rattle.fluid_types.specs.Names.{IsName};
ghost use Rattle.fluid_types.specs.Forms.{largest};
ghost use Rattle.fluid_types.specs.Fits.{Fits};
ghost use Rattle.fluid_readback.specs.Laws.{longest_text};
ghost use Rattle.fluid_lane.specs.Standing.{IsLeaveOrSubmission};

use crate::files::{has, opened};
use fluid_codec::{Event, read_event, read_raw};
use fluid_disk::MemoryDisk;
use fluid_disk_keeper::{DiskKeeper, Disks};
use fluid_json::{Json, LARGEST};
use fluid_lane::{Lane, Limits};
use fluid_readback::read_entries_fit;
use fluid_types::{Raw, Scopes};
use std::alloc::Global;
use std::process::Abort;

type OnDisks = Lane<DiskKeeper<MemoryDisk>>;

// Three entries, one client, one checkpoint.
const FEW: Limits = Limits {
    entries: 3,
    clients: 1,
    checkpoints: 1,
    bytes: 1_048_576,
};

const CONNECT: &str =
    r#"["connect_document",{"id":"d","mode":"write","scopes":["doc:read","doc:write","summary:write"]}]"#;

// What is submitted behind the join. The third finds the lane full.
const SUBMITTED: [&str; 4] = [
    r#"{"clientId":"c0","moment":5,"operation":{"clientSequenceNumber":1,"contents":null,"referenceSequenceNumber":1,"type":"op"},"raw":"submit"}"#,
    r#"{"clientId":"c0","moment":5,"operation":{"clientSequenceNumber":2,"contents":null,"referenceSequenceNumber":2,"type":"op"},"raw":"submit"}"#,
    r#"{"clientId":"c0","moment":5,"operation":{"clientSequenceNumber":3,"contents":null,"referenceSequenceNumber":3,"type":"op"},"raw":"submit"}"#,
    r#"{"clientId":"c0","moment":7,"raw":"leave"}"#,
];

// The records of the log behind the whole life.
const ENTERED: [&[u8]; 4] = [
    br#"{"clientId":"c0","detail":null,"moment":4,"raw":"join","scopes":["doc:read","doc:write","summary:write"]}"#,
    br#"{"clientId":"c0","moment":5,"operation":{"clientSequenceNumber":1,"contents":null,"referenceSequenceNumber":1,"type":"op"},"raw":"submit"}"#,
    br#"{"clientId":"c0","moment":5,"operation":{"clientSequenceNumber":2,"contents":null,"referenceSequenceNumber":2,"type":"op"},"raw":"submit"}"#,
    br#"{"clientId":"c0","moment":7,"raw":"leave"}"#,
];

// The messages of their order, which are the deltas.
const MESSAGES: [&[u8]; 4] = [
    br#"{"clientId":null,"clientSequenceNumber":-1,"contents":null,"data":"{\"clientId\":\"c0\",\"detail\":null}","minimumSequenceNumber":0,"referenceSequenceNumber":-1,"sequenceNumber":1,"timestamp":4,"type":"join"}"#,
    br#"{"clientId":"c0","clientSequenceNumber":1,"contents":null,"minimumSequenceNumber":1,"referenceSequenceNumber":1,"sequenceNumber":2,"timestamp":5,"type":"op"}"#,
    br#"{"clientId":"c0","clientSequenceNumber":2,"contents":null,"minimumSequenceNumber":2,"referenceSequenceNumber":2,"sequenceNumber":3,"timestamp":5,"type":"op"}"#,
    br#"{"clientId":null,"clientSequenceNumber":-1,"contents":null,"data":"\"c0\"","minimumSequenceNumber":4,"referenceSequenceNumber":-1,"sequenceNumber":4,"timestamp":7,"type":"leave"}"#,
];

// ---- the disks

fn stopping(alloc: Global, stops: bool, stop: u64) -> MemoryDisk {
    let stop = if stops { stop } else { u64::MAX };
    MemoryDisk::stopping(alloc, Vec::new(alloc), stop)
}

// Empty disks, of which one stops at this call.
fn disks(alloc: Global, which: u64, stop: u64) -> Disks<MemoryDisk> {
    Disks {
        log: stopping(alloc, which == 0, stop),
        deltas: stopping(alloc, which == 1, stop),
        checkpoints: stopping(alloc, which == 2, stop),
    }
}

// ---- the life

// A leave or a submission that fits a log.
fn raw_of(rt: &impl Abort, alloc: Global, text: &str) -> Raw
    ensures fits { Fits result }
    ensures kind { IsLeaveOrSubmission result }
{
    read_entries_fit();
    assert!(rt; text.len() <= 1_048_576);
    match read_raw(alloc, text) {
        Ok(raw) if matches!(raw, Raw::Leave { .. } | Raw::Submit { .. }) => raw,
        _ => panic!(rt; "no leave and no submission"),
    }
}

fn submit(rt: &impl Abort, alloc: Global, lane: &mut OnDisks, text: &str) {
    let raw = raw_of(rt, alloc, text);
    let answer = lane.submit(alloc, &raw);
    drop(answer);
    drop(raw);
}

// The scopes and the detail of the client: under any id its join fits a log.
fn client(rt: &impl Abort, alloc: Global, connect: &str) -> (Scopes, Json)
    requires { length connect.now ≤ longest_text }
    ensures { (id : List ℕ) (moment : ℕ) → IsName id → moment ≤ largest → Fits (Raw.Join id result.0 result.1 moment) }
{
    read_entries_fit();
    match read_event(alloc, connect) {
        Ok(Event::Connect { scopes, client, .. }) => (scopes, client),
        _ => panic!(rt; "no connect"),
    }
}

fn join(rt: &impl Abort, alloc: Global, lane: &mut OnDisks, connect: &str, moment: u64)
    requires { length connect.now ≤ longest_text }
{
    let number = lane.entered();
    if number > LARGEST {
        panic!(rt; "no number of an entry");
    }
    if moment > LARGEST {
        panic!(rt; "no moment");
    }
    let (scopes, detail) = client(rt, alloc, connect);
    let answer = lane.join(alloc, scopes, detail, moment);
    drop(answer);
}

fn store(alloc: Global, lane: &mut OnDisks) {
    let answer = lane.checkpoint(alloc);
    drop(answer);
}

fn live(rt: &impl Abort, alloc: Global, lane: &mut OnDisks) {
    join(rt, alloc, lane, CONNECT, 4);
    join(rt, alloc, lane, CONNECT, 4);
    for text in SUBMITTED {
        submit(rt, alloc, lane, text);
    }
    store(alloc, lane);
    store(alloc, lane);
}

// How many entries are entered once a lane has lived over a keeper, and its disks.
fn lived_over(
    rt: &impl Abort,
    alloc: Global,
    keeper: DiskKeeper<MemoryDisk>,
) -> (u64, Disks<MemoryDisk>) {
    match Lane::start(alloc, keeper, FEW, 9) {
        Ok(lane) => {
            let mut lane = lane;
            live(rt, alloc, &mut lane);
            let entered = lane.entered();
            (entered, lane.close().close())
        }
        Err((keeper, fault)) => {
            drop(fault);
            (0, keeper.close())
        }
    }
}

// The same over disks.
fn lived(rt: &impl Abort, alloc: Global, disks: Disks<MemoryDisk>) -> (u64, Disks<MemoryDisk>) {
    match DiskKeeper::open(alloc, disks) {
        Ok(keeper) => lived_over(rt, alloc, keeper),
        Err((disks, _)) => (0, disks),
    }
}

// ---- the crash

// What a crash of this disk leaves are the first of these records, and no fewer than so many.
fn assert_prefix(
    rt: &impl Abort,
    alloc: Global,
    disk: MemoryDisk,
    pick: u64,
    least: u64,
    records: &[&[u8]],
) {
    let mut file = opened(rt, alloc, disk.crash(pick));
    let count = file.len();
    assert!(rt; least <= count && count <= records.len() as u64);
    assert!(rt; has(rt, alloc, &mut file, &records[..count as usize]));
    drop(file);
}

// Lives over disks of which one stops at a call, lets all three crash, and looks at what is found: of the log all entries that
// were entered, and at most one more. How many were entered.
fn crashes(rt: &impl Abort, alloc: Global, which: u64, stop: u64, pick: u64) -> u64 {
    let (entered, disks) = lived(rt, alloc, disks(alloc, which, stop));
    let Disks {
        log,
        deltas,
        checkpoints,
    } = disks;
    let most = entered.saturating_add(1).min(4) as usize;
    assert_prefix(rt, alloc, log, pick, entered, &ENTERED[..most]);
    assert_prefix(rt, alloc, deltas, pick, 0, &MESSAGES);
    assert!(rt; opened(rt, alloc, checkpoints.crash(pick)).len() <= 1);
    entered
}

// The calls on the log's disk that the whole life takes, three to open it and four for each entry; of the others opening alone
// decides whether entries are entered.
const CALLS: [u64; 3] = [19, 3, 3];

#[test]
fn a_crash_at_each_call_of_a_lane_leaves_what_was_entered(rt: HostRuntime) {
    let alloc = rt.alloc();
    for (which, calls) in CALLS.iter().enumerate() {
        for pick in 0..4 {
            for stop in 1..24 {
                let entered = crashes(&rt, alloc, which as u64, stop, pick);
                assert!(&rt;
                    (entered == 4) == (stop > *calls),
                    "disk {which}, stop {stop}: {entered}"
                );
            }
        }
    }
}
