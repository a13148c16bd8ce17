// Starts over keepers that aren't empty: what is damaged is refused, and clients that are joined leave.
use crate::calls::Call;
use crate::faults::LOG;
use crate::lives::{Counts, FEW, assert_life, assert_texts, keeper_of, live};
use fluid_lane::Limits;
use fluid_log::{Keeper, LONGEST_KEPT, MemoryKeeper};
use std::alloc::Global;
use std::process::Abort;

// Appends a record that isn't empty.
fn append(rt: &impl Abort, alloc: Global, keeper: &mut MemoryKeeper, record: &str) {
    assert!(rt; record.len() <= LONGEST_KEPT);
    if !record.is_empty() {
        assert!(rt; keeper.append(alloc, record.as_bytes()).is_ok());
    }
}

// Stores a checkpoint that isn't empty.
fn store(rt: &impl Abort, alloc: Global, keeper: &mut MemoryKeeper, checkpoint: &str) {
    assert!(rt; checkpoint.len() <= LONGEST_KEPT);
    if !checkpoint.is_empty() {
        assert!(rt;
            keeper
                .store_checkpoint(alloc, checkpoint.as_bytes())
                .is_ok()
        );
    }
}

// A keeper with the records of c0's join and first operation, and behind them one more and two checkpoints, none where it is empty.
fn damaged(rt: &impl Abort, alloc: Global, record: &str, older: &str, newer: &str) -> MemoryKeeper {
    let mut keeper = keeper_of(rt, alloc, &[], &[]);
    append(rt, alloc, &mut keeper, LOG[0]);
    append(rt, alloc, &mut keeper, LOG[1]);
    append(rt, alloc, &mut keeper, record);
    store(rt, alloc, &mut keeper, older);
    store(rt, alloc, &mut keeper, newer);
    keeper
}

// Checkpoints of version 1 of one entry and of three, and of version 2: of no entry, the same with a client that never joined, of
// three entries, of one with two messages, of one with one message.
const FIRST: &str =
    r#"{"acks":[],"base":{"attributes":{"minimumSequenceNumber":0,"sequenceNumber":0},"quorumMembers":[],"quorumProposals":[],"quorumValues":[]},"behind":[{"clientId":null,"clientSequenceNumber":-1,"contents":null,"data":"{\"clientId\":\"c0\",\"detail\":null}","minimumSequenceNumber":0,"referenceSequenceNumber":-1,"sequenceNumber":1,"timestamp":5,"type":"join"}],"clients":[{"id":"c0","last":0,"nacked":false,"reference":0,"scopes":["doc:write"]}],"counted":1,"entered":1,"minima":[],"minimum":0,"pending":[],"sequence":1,"version":1}"#;

const FIRST_OF_THREE: &str =
    r#"{"acks":[],"base":{"attributes":{"minimumSequenceNumber":0,"sequenceNumber":0},"quorumMembers":[],"quorumProposals":[],"quorumValues":[]},"behind":[{"clientId":null,"clientSequenceNumber":-1,"contents":null,"data":"{\"clientId\":\"c0\",\"detail\":null}","minimumSequenceNumber":0,"referenceSequenceNumber":-1,"sequenceNumber":1,"timestamp":5,"type":"join"}],"clients":[{"id":"c0","last":0,"nacked":false,"reference":0,"scopes":["doc:write"]}],"counted":1,"entered":3,"minima":[],"minimum":0,"pending":[],"sequence":1,"version":1}"#;

const NOTHING: &str =
    r#"{"acks":[],"base":{"attributes":{"minimumSequenceNumber":0,"sequenceNumber":0},"quorumMembers":[],"quorumProposals":[],"quorumValues":[]},"behind":[],"clients":[],"counted":0,"entered":0,"heard":[],"minima":[],"minimum":0,"pending":[],"sequence":0,"version":2}"#;

const NEVER_JOINED: &str =
    r#"{"acks":[],"base":{"attributes":{"minimumSequenceNumber":0,"sequenceNumber":0},"quorumMembers":[],"quorumProposals":[],"quorumValues":[]},"behind":[],"clients":[{"id":"c9","last":0,"nacked":false,"reference":0,"scopes":["doc:write"]}],"counted":0,"entered":0,"heard":[{"id":"c9","moment":5}],"minima":[],"minimum":0,"pending":[],"sequence":0,"version":2}"#;

const THREE: &str =
    r#"{"acks":[],"base":{"attributes":{"minimumSequenceNumber":0,"sequenceNumber":0},"quorumMembers":[],"quorumProposals":[],"quorumValues":[]},"behind":[],"clients":[],"counted":1,"entered":3,"heard":[],"minima":[],"minimum":0,"pending":[],"sequence":0,"version":2}"#;

const TWO_MESSAGES: &str =
    r#"{"acks":[],"base":{"attributes":{"minimumSequenceNumber":0,"sequenceNumber":0},"quorumMembers":[],"quorumProposals":[],"quorumValues":[]},"behind":[],"clients":[],"counted":1,"entered":1,"heard":[],"minima":[],"minimum":0,"pending":[],"sequence":2,"version":2}"#;

const ONE_MESSAGE: &str =
    r#"{"acks":[],"base":{"attributes":{"minimumSequenceNumber":0,"sequenceNumber":0},"quorumMembers":[],"quorumProposals":[],"quorumValues":[]},"behind":[],"clients":[],"counted":1,"entered":1,"heard":[],"minima":[],"minimum":0,"pending":[],"sequence":1,"version":2}"#;

// a third record and two checkpoints, the calls on the lane, their answers, and what is kept then
const DAMAGED: &[(&str, &str, &str, &[Call], &str, Counts)] = &[
    ("{", "", "", &[Call::Start], "BadRecord(2)", (3, 0, 0, 3, 0)),
    (
        "",
        FIRST,
        "{}",
        &[Call::Start],
        "BadCheckpoint(1) BadField(version)",
        (2, 0, 2, 0, 0),
    ),
    (
        "",
        "",
        FIRST_OF_THREE,
        &[Call::Start],
        "BadCheckpoint(0) BadField(entered)",
        (2, 0, 1, 0, 0),
    ),
    (
        "",
        "",
        THREE,
        &[Call::Start],
        "BadCheckpoint(0) BadField(entered)",
        (2, 0, 1, 0, 0),
    ),
    // more messages than entries, and more than there are deltas
    (
        "",
        "",
        TWO_MESSAGES,
        &[Call::Start],
        "BadCheckpoint(0) BadField(sequence)",
        (2, 0, 1, 0, 0),
    ),
    (
        "",
        "",
        ONE_MESSAGE,
        &[Call::Start],
        "BadCheckpoint(0) BadField(sequence)",
        (2, 0, 1, 0, 0),
    ),
    (
        "",
        "",
        r#"{"version":9}"#,
        &[Call::Start],
        "BadCheckpoint(0) Version(9)",
        (2, 0, 1, 0, 0),
    ),
    (
        "",
        "",
        "x",
        &[Call::Start],
        "BadCheckpoint(0) BadText",
        (2, 0, 1, 0, 0),
    ),
    // the checkpoint comes before the record, and what stands before its entries isn't read
    (
        "{",
        "",
        "x",
        &[Call::Start],
        "BadCheckpoint(0) BadText",
        (3, 0, 1, 0, 0),
    ),
    // the newest is taken, and what another has is told where it is asked for; behind the leave of c0 nobody is joined
    (
        "",
        "x",
        FIRST,
        &[
            Call::Start,
            Call::Restart(0),
            Call::Restart(1),
            Call::Join,
            Call::State,
            Call::Sides,
        ],
        "begun; BadCheckpoint(0) BadText; restarted 1; c3 4/3; 4 entries, 4/3, 0 acks, 1 clients; \
            2 found, 1 sides, last Some(Restarted(1))",
        (4, 0, 2, 5, 0),
    ),
    // a client that is joined by the checkpoint and by no entry
    (
        "",
        NEVER_JOINED,
        FIRST,
        &[Call::Start, Call::Restart(0), Call::State],
        "begun; BadCheckpoint(0) BadField(clients); 3 entries, 3/3, 0 acks, 0 clients",
        (3, 0, 2, 5, 0),
    ),
    // a join that the checkpoint doesn't know of: over its entries nobody else is joined
    (
        "",
        "",
        NOTHING,
        &[Call::Start, Call::Restart(0), Call::Join, Call::Restart(0)],
        "begun; restarted 0; c3 4/3; restarted 0",
        (4, 0, 1, 9, 0),
    ),
];

#[test]
fn what_is_damaged_is_refused(rt: HostRuntime) {
    let alloc = rt.alloc();
    for (record, older, newer, calls, answers, kept) in DAMAGED {
        let keeper = damaged(&rt, alloc, record, older, newer);
        assert_life(&rt, alloc, FEW, keeper, calls, answers, *kept);
    }
}

// ---- how many records are read

// The calls before a restart: checkpoints of no entry, of three and of nine entries of ten.
const TEN: [Call; 14] = [
    Call::Start,
    Call::Checkpoint,
    Call::Join,
    Call::Op(1, 1),
    Call::Op(2, 2),
    Call::Checkpoint,
    Call::Op(3, 3),
    Call::Op(4, 4),
    Call::Op(5, 5),
    Call::Op(6, 6),
    Call::Op(7, 7),
    Call::Op(8, 8),
    Call::Checkpoint,
    Call::Op(9, 9),
];

const ENTERED: &str =
    "begun; stored 0; c0 1/0; 2/1; 3/2; stored 1; 4/3; 5/4; 6/5; 7/6; 8/7; 9/8; stored 2; 10/9; ";

// the checkpoint, the answer, and how many records are read
const READS: [(u64, &str, u64); 4] = [
    (0, "restarted 0", 10),
    (1, "restarted 1", 7),
    (2, "restarted 2", 1),
    (3, "NoCheckpoint(3, 3)", 0),
];

#[test]
fn a_restart_reads_the_records_behind_its_checkpoint(rt: HostRuntime) {
    let alloc = rt.alloc();
    for (number, answer, reads) in &READS {
        let mut calls = Vec::from_slice(alloc, &TEN).expect(&rt, "memory");
        calls.push(Call::Restart(*number)).expect(&rt, "memory");
        calls.push(Call::State).expect(&rt, "memory");
        let answers = format!(in alloc;
            "{ENTERED}{answer}; 10 entries, 10/9, 0 acks, 1 clients"
        ).expect(&rt, "memory");
        let keeper = keeper_of(&rt, alloc, &[], &[]);
        assert_life(
            &rt,
            alloc,
            Limits::FULL,
            keeper,
            &calls,
            answers.as_str(),
            (10, 9, 3, *reads, 0),
        );
    }
}

// Ten records that leave nobody joined, with a checkpoint of version 1: all are read, by a start and by a restart.
#[test]
fn a_checkpoint_of_version_1_reads_all(rt: HostRuntime) {
    let alloc = rt.alloc();
    let mut keeper = keeper_of(&rt, alloc, &[], &[]);
    for _ in 0..5 {
        append(&rt, alloc, &mut keeper, LOG[0]);
        append(&rt, alloc, &mut keeper, LOG[5]);
    }
    store(&rt, alloc, &mut keeper, FIRST);
    let calls = [Call::Start, Call::Restart(0), Call::State];
    let answers = "begun; restarted 0; 10 entries, 10/10, 0 acks, 0 clients";
    assert_life(
        &rt,
        alloc,
        Limits::FULL,
        keeper,
        &calls,
        answers,
        (10, 0, 1, 20, 0),
    );
}

// ---- leaves

const CROWD: [Call; 16] = [
    Call::Start,
    Call::Join,
    Call::Join,
    Call::Join,
    Call::Join,
    Call::Join,
    Call::Join,
    Call::Join,
    Call::Join,
    Call::Join,
    Call::Join,
    Call::Join,
    Call::Start,
    Call::Start,
    Call::State,
    Call::Sides,
];

// Leaves in byte order of ids.
const LEAVES: [&str; 11] = [
    r#"{"clientId":"c0","moment":9,"raw":"leave"}"#,
    r#"{"clientId":"c1","moment":9,"raw":"leave"}"#,
    r#"{"clientId":"c10","moment":9,"raw":"leave"}"#,
    r#"{"clientId":"c2","moment":9,"raw":"leave"}"#,
    r#"{"clientId":"c3","moment":9,"raw":"leave"}"#,
    r#"{"clientId":"c4","moment":9,"raw":"leave"}"#,
    r#"{"clientId":"c5","moment":9,"raw":"leave"}"#,
    r#"{"clientId":"c6","moment":9,"raw":"leave"}"#,
    r#"{"clientId":"c7","moment":9,"raw":"leave"}"#,
    r#"{"clientId":"c8","moment":9,"raw":"leave"}"#,
    r#"{"clientId":"c9","moment":9,"raw":"leave"}"#,
];

// Eleven clients join. At the next start this append of a leave fails, and this one adds its record all the same; behind the
// start after it there are the leaves.
fn assert_leaves(rt: &impl Abort, alloc: Global, failing: u64, adding: u64, answers: &str) {
    let keeper = keeper_of(rt, alloc, &[failing], &[adding]);
    let (told, keeper) = live(rt, alloc, Limits::FULL, keeper, &CROWD);
    assert!(rt; told.as_str() == answers, "where call {failing} fails");
    let leaves = keeper.records().get(11..).expect(rt, "eleven joins");
    assert_texts(rt, leaves, &LEAVES);
    drop(keeper);
}

const BEGUN: &str =
    "begun; c0 1/0; c1 2/0; c2 3/0; c3 4/0; c4 5/0; c5 6/0; c6 7/0; c7 8/0; c8 9/0; c9 10/0; c10 11/0; begun; begun; \
    22 entries, 22/22, 0 acks, 0 clients; 0 found, 0 sides, last None";

const FAILED: &str =
    "begun; c0 1/0; c1 2/0; c2 3/0; c3 4/0; c4 5/0; c5 6/0; c6 7/0; c7 8/0; c8 9/0; c9 10/0; c10 11/0; LogFailed(0, 1); begun; \
    22 entries, 22/22, 0 acks, 0 clients; 0 found, 0 sides, last None";

// The second start reads 11 records by calls 12 to 22, and appends leaves by 23 to 33.
#[test]
fn a_start_enters_a_leave_for_each_client(rt: HostRuntime) {
    let alloc = rt.alloc();
    assert_leaves(&rt, alloc, 0, 0, BEGUN);
    assert_leaves(&rt, alloc, 23, 0, FAILED);
    assert_leaves(&rt, alloc, 25, 0, FAILED);
    assert_leaves(&rt, alloc, 25, 25, FAILED);
    assert_leaves(&rt, alloc, 33, 33, FAILED);
}
