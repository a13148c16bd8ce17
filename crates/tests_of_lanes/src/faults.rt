// A life in which each call of the keeper fails once.
use crate::calls::Call;
use crate::lives::{Counts, assert_texts, counts, keeper_of, live, put};
use fluid_lane::Limits;
use fluid_log::MemoryKeeper;
use std::alloc::Global;
use std::process::Abort;

// A short life, and what each call answers where none fails. Calls of the keeper that can fail:
//   Start       none
//   Join        1 append
//   Op          2 append
//   Summarize   3 append
//   Report      4 append
//   Checkpoint  5 to 8 put_delta, 9 store_checkpoint
//   Op          10 append
//   Restart     11 checkpoint, 12 read
//   Start       13 checkpoint, 14 read, 15 append
//   Join        16 append
const LIFE: [(Call, &str); 10] = [
    (Call::Start, "begun"),
    (Call::Join, "c0 1/0"),
    (Call::Op(1, 1), "2/1"),
    (Call::Summarize(2, 2), "3/2"),
    (Call::Report(3, false), "4/2"),
    (Call::Checkpoint, "stored 0"),
    (Call::Op(3, 4), "5/4"),
    (Call::Restart(0), "restarted 0"),
    (Call::Start, "begun"),
    (Call::Join, "c6 7/6"),
];

pub const LOG: [&str; 7] = [
    r#"{"clientId":"c0","detail":null,"moment":4,"raw":"join","scopes":["doc:read","doc:write","summary:write"]}"#,
    r#"{"clientId":"c0","moment":5,"operation":{"clientSequenceNumber":1,"contents":null,"referenceSequenceNumber":1,"type":"op"},"raw":"submit"}"#,
    r#"{"clientId":"c0","moment":5,"operation":{"clientSequenceNumber":2,"contents":{"handle":"4b825dc642cb6eb9a060e54bf8d69288fbee4904","head":""},"referenceSequenceNumber":2,"type":"summarize"},"raw":"submit"}"#,
    r#"{"found":false,"moment":6,"raw":"report","summary":3}"#,
    r#"{"clientId":"c0","moment":5,"operation":{"clientSequenceNumber":3,"contents":null,"referenceSequenceNumber":4,"type":"op"},"raw":"submit"}"#,
    r#"{"clientId":"c0","moment":9,"raw":"leave"}"#,
    r#"{"clientId":"c6","detail":null,"moment":4,"raw":"join","scopes":["doc:read","doc:write","summary:write"]}"#,
];

// The base is message 2, behind which the summaryNack of 4 leaves nothing waiting; message 3 raised the minimum.
const CHECKPOINT: &str =
    r#"{"acks":[],"base":{"attributes":{"minimumSequenceNumber":1,"sequenceNumber":2},"quorumMembers":[{"clientId":"c0","detail":null,"sequenceNumber":1}],"quorumProposals":[],"quorumValues":[]},"behind":[],"clients":[{"id":"c0","last":2,"nacked":false,"reference":2,"scopes":["doc:read","doc:write","summary:write"]}],"counted":3,"entered":4,"heard":[{"id":"c0","moment":5}],"minima":[[3,2]],"minimum":2,"pending":[],"sequence":4,"version":2}"#;

// The calls of the life up to the one in this place, or all, and that one twice.
fn life_calls(rt: &impl Abort, alloc: Global, place: usize, whole: bool) -> Vec<Call> {
    let mut calls = Vec::new(alloc);
    for (number, (call, _)) in LIFE.iter().enumerate() {
        if number == place {
            calls.push(*call).expect(rt, "memory");
        }
        if number < place || whole {
            calls.push(*call).expect(rt, "memory");
        }
    }
    calls
}

// The answers of these calls, where the one in this place is refused the first time.
fn life_answers(rt: &impl Abort, alloc: Global, place: usize, fault: &str, whole: bool) -> String {
    let mut told = String::new(alloc);
    for (number, (_, answer)) in LIFE.iter().enumerate() {
        if number == place {
            put(rt, &mut told, fault);
        }
        if number < place || whole {
            put(rt, &mut told, answer);
        }
    }
    told
}

// Lives over a keeper with one call that fails, up to the refusal or on to the end.
fn lived(
    rt: &impl Abort,
    alloc: Global,
    failing: (u64, u64),
    refusal: (usize, &str),
    whole: bool,
) -> MemoryKeeper {
    let keeper = keeper_of(rt, alloc, &[failing.0], &[failing.1]);
    let calls = life_calls(rt, alloc, refusal.0, whole);
    let (told, keeper) = live(rt, alloc, Limits::FULL, keeper, &calls);
    let answers = life_answers(rt, alloc, refusal.0, refusal.1, whole);
    let call = failing.0;
    assert!(rt;
        told.as_str() == answers.as_str(),
        "where call {call} fails"
    );
    keeper
}

// Behind the refusal its records are the first of the log, and its counts these.
fn assert_keeps(
    rt: &impl Abort,
    alloc: Global,
    failing: (u64, u64),
    refusal: (usize, &str),
    wanted: Counts,
) {
    let keeper = lived(rt, alloc, failing, refusal, false);
    assert!(rt; counts(&keeper) == wanted, "{wanted:?}");
    let log = LOG.get(..wanted.0 as usize).expect(rt, "at most seven");
    assert_texts(rt, keeper.records(), log);
    drop(keeper);
}

// The whole life, where the call on the lane is made once more: the whole log, the checkpoint and four deltas are kept.
fn assert_keeps_all(rt: &impl Abort, alloc: Global, failing: (u64, u64), refusal: (usize, &str)) {
    let keeper = lived(rt, alloc, failing, refusal, true);
    assert_texts(rt, keeper.records(), &LOG);
    assert_texts(rt, keeper.checkpoint_texts(), &[CHECKPOINT]);
    let (_, deltas, _, _, faults) = counts(&keeper);
    assert!(rt;
        deltas == 4 && faults == 1,
        "{deltas} deltas, {faults} faults"
    );
    drop(keeper);
}

const LOG_FAILED: &str = "LogFailed(0, 1)";

const DELTA_FAILED: &str = "DeltaFailed(0, 1)";

// The call that fails and the one that adds its record all the same, the place in the life of the call on the lane with its answer,
// and what is kept behind it, a record that was added all the same among it.
const REFUSALS: [((u64, u64), (usize, &str), Counts); 23] = [
    ((1, 0), (1, LOG_FAILED), (0, 0, 0, 0, 1)),
    ((1, 1), (1, LOG_FAILED), (1, 0, 0, 0, 1)),
    ((2, 0), (2, LOG_FAILED), (1, 0, 0, 0, 1)),
    ((2, 2), (2, LOG_FAILED), (2, 0, 0, 0, 1)),
    ((3, 0), (3, LOG_FAILED), (2, 0, 0, 0, 1)),
    ((3, 3), (3, LOG_FAILED), (3, 0, 0, 0, 1)),
    ((4, 0), (4, LOG_FAILED), (3, 0, 0, 0, 1)),
    ((4, 4), (4, LOG_FAILED), (4, 0, 0, 0, 1)),
    ((5, 0), (5, DELTA_FAILED), (4, 0, 0, 0, 1)),
    ((6, 0), (5, DELTA_FAILED), (4, 1, 0, 0, 1)),
    ((7, 0), (5, DELTA_FAILED), (4, 2, 0, 0, 1)),
    ((8, 0), (5, DELTA_FAILED), (4, 3, 0, 0, 1)),
    ((9, 0), (5, LOG_FAILED), (4, 4, 0, 0, 1)),
    ((10, 0), (6, LOG_FAILED), (4, 4, 1, 0, 1)),
    ((10, 10), (6, LOG_FAILED), (5, 4, 1, 0, 1)),
    ((11, 0), (7, LOG_FAILED), (5, 4, 1, 0, 1)),
    ((12, 0), (7, LOG_FAILED), (5, 4, 1, 0, 1)),
    ((13, 0), (8, LOG_FAILED), (5, 4, 1, 1, 1)),
    ((14, 0), (8, LOG_FAILED), (5, 4, 1, 1, 1)),
    ((15, 0), (8, LOG_FAILED), (5, 4, 1, 2, 1)),
    ((15, 15), (8, LOG_FAILED), (6, 4, 1, 2, 1)),
    ((16, 0), (9, LOG_FAILED), (6, 4, 1, 2, 1)),
    ((16, 16), (9, LOG_FAILED), (7, 4, 1, 2, 1)),
];

#[test]
fn each_call_of_the_keeper_fails_once(rt: HostRuntime) {
    let alloc = rt.alloc();
    for (failing, refusal, behind) in &REFUSALS {
        assert_keeps(&rt, alloc, *failing, *refusal, *behind);
        assert_keeps_all(&rt, alloc, *failing, *refusal);
    }
}
