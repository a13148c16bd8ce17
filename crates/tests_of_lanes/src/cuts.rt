// An append that failed may have added its record: the next call that enters cuts the log first.
use crate::calls::Call;
use crate::lives::{Counts, FEW, assert_life, keeper_of};
use fluid_lane::Limits;

// the most entries, the calls of the keeper that fail and that add their record, the calls on the lane, their answers, and what
// is kept then
const LIVES: &[(u64, &[u64], &[u64], &[Call], &str, Counts)] = &[
    // a checkpoint that can't be stored
    (
        3,
        &[1],
        &[],
        &[Call::Start, Call::Checkpoint, Call::Checkpoint, Call::Sides],
        "begun; LogFailed(0, 1); stored 0; 0 found, 2 sides, last Some(Stored(0))",
        (0, 0, 1, 0, 1),
    ),
    // the cut fails, and then the call is made or refused: one that enters, a checkpoint, a restart
    (
        3,
        &[2, 3],
        &[2],
        &[
            Call::Start,
            Call::Join,
            Call::Op(1, 1),
            Call::Op(1, 1),
            Call::Op(1, 1),
        ],
        "begun; c0 1/0; LogFailed(0, 1); LogFailed(1, 2); 2/1",
        (2, 0, 0, 0, 2),
    ),
    (
        3,
        &[2, 3],
        &[2],
        &[
            Call::Start,
            Call::Join,
            Call::Op(1, 1),
            Call::Join,
            Call::Join,
        ],
        "begun; c0 1/0; LogFailed(0, 1); LogFailed(1, 2); TooManyClients",
        (1, 0, 0, 0, 2),
    ),
    (
        1,
        &[2, 3],
        &[2],
        &[
            Call::Start,
            Call::Join,
            Call::Leave,
            Call::Op(1, 1),
            Call::Op(1, 1),
        ],
        "begun; c0 1/0; LogFailed(0, 1); LogFailed(1, 2); Full(1)",
        (1, 0, 0, 0, 2),
    ),
    (
        3,
        &[2, 3],
        &[2],
        &[
            Call::Start,
            Call::Join,
            Call::Op(1, 1),
            Call::Checkpoint,
            Call::Checkpoint,
        ],
        "begun; c0 1/0; LogFailed(0, 1); LogFailed(1, 2); stored 0",
        (1, 1, 1, 0, 2),
    ),
    (
        3,
        &[4, 5],
        &[4],
        &[
            Call::Start,
            Call::Join,
            Call::Checkpoint,
            Call::Op(1, 1),
            Call::Restart(0),
            Call::Restart(1),
            Call::Restart(0),
            Call::Op(1, 1),
            Call::State,
            Call::Sides,
        ],
        "begun; c0 1/0; stored 0; LogFailed(0, 1); LogFailed(1, 2); NoCheckpoint(1, 1); restarted 0; 2/1; \
            2 entries, 2/1, 0 acks, 1 clients; 0 found, 4 sides, last Some(Restarted(0))",
        (2, 1, 1, 0, 2),
    ),
    // the cut is made, and the call behind it refused: no fault is counted, and no side step made
    (
        3,
        &[2],
        &[2],
        &[
            Call::Start,
            Call::Join,
            Call::Op(1, 1),
            Call::Join,
            Call::Sides,
            Call::State,
        ],
        "begun; c0 1/0; LogFailed(0, 1); TooManyClients; \
            0 found, 1 sides, last Some(Failed(FaultNote { before: 0, after: 1 })); 1 entries, 1/0, 0 acks, 1 clients",
        (1, 0, 0, 0, 1),
    ),
    (
        1,
        &[2],
        &[2],
        &[
            Call::Start,
            Call::Join,
            Call::Leave,
            Call::Op(1, 1),
            Call::Sides,
        ],
        "begun; c0 1/0; LogFailed(0, 1); Full(1); \
            0 found, 1 sides, last Some(Failed(FaultNote { before: 0, after: 1 }))",
        (1, 0, 0, 0, 1),
    ),
    (
        3,
        &[2],
        &[2],
        &[
            Call::Start,
            Call::Join,
            Call::Op(1, 1),
            Call::Restart(0),
            Call::Sides,
        ],
        "begun; c0 1/0; LogFailed(0, 1); NoCheckpoint(0, 0); \
            0 found, 1 sides, last Some(Failed(FaultNote { before: 0, after: 1 }))",
        (1, 0, 0, 0, 1),
    ),
    (
        3,
        &[2],
        &[2],
        &[
            Call::Start,
            Call::Checkpoint,
            Call::Join,
            Call::Checkpoint,
            Call::Sides,
        ],
        "begun; stored 0; LogFailed(0, 1); CheckpointsFull; \
            0 found, 2 sides, last Some(Failed(FaultNote { before: 0, after: 1 }))",
        (0, 0, 1, 0, 1),
    ),
    // the cut is made, and the call too: a checkpoint, a restart
    (
        3,
        &[2],
        &[2],
        &[
            Call::Start,
            Call::Join,
            Call::Op(1, 1),
            Call::Checkpoint,
            Call::Sides,
        ],
        "begun; c0 1/0; LogFailed(0, 1); stored 0; 0 found, 2 sides, last Some(Stored(0))",
        (1, 1, 1, 0, 1),
    ),
    (
        3,
        &[4],
        &[4],
        &[
            Call::Start,
            Call::Join,
            Call::Checkpoint,
            Call::Op(1, 1),
            Call::Restart(0),
            Call::Sides,
        ],
        "begun; c0 1/0; stored 0; LogFailed(0, 1); restarted 0; 0 found, 3 sides, last Some(Restarted(0))",
        (1, 1, 1, 0, 1),
    ),
    // what a failed append added is an entry to the next start
    (
        3,
        &[2],
        &[2],
        &[
            Call::Start,
            Call::Join,
            Call::Op(1, 1),
            Call::Start,
            Call::Join,
            Call::Sides,
        ],
        "begun; c0 1/0; LogFailed(0, 1); begun; c3 4/3; 0 found, 0 sides, last None",
        (4, 0, 0, 2, 1),
    ),
    // a sweep whose append fails, with and without its record, owes a cut, which comes before the next append
    (
        3,
        &[2],
        &[2],
        &[
            Call::Start,
            Call::Join,
            Call::Sweep(9, 2),
            Call::State,
            Call::Sweep(9, 2),
            Call::Sides,
        ],
        "begun; c0 1/0; LogFailed(0, 1); 1 entries, 1/0, 0 acks, 1 clients; swept c0 2/2; \
            0 found, 1 sides, last Some(Failed(FaultNote { before: 0, after: 1 }))",
        (2, 0, 0, 0, 1),
    ),
    (
        3,
        &[2],
        &[],
        &[
            Call::Start,
            Call::Join,
            Call::Sweep(9, 2),
            Call::Sweep(9, 2),
        ],
        "begun; c0 1/0; LogFailed(0, 1); swept c0 2/2",
        (2, 0, 0, 0, 1),
    ),
    (
        3,
        &[2, 3],
        &[2],
        &[
            Call::Start,
            Call::Join,
            Call::Sweep(9, 2),
            Call::Sweep(9, 2),
            Call::Sweep(9, 2),
            Call::Sides,
        ],
        "begun; c0 1/0; LogFailed(0, 1); LogFailed(1, 2); swept c0 2/2; \
            0 found, 2 sides, last Some(Failed(FaultNote { before: 1, after: 2 }))",
        (2, 0, 0, 0, 2),
    ),
    // where nobody is silent none is made, and an operation that wasn't entered wasn't heard
    (
        3,
        &[2],
        &[2],
        &[Call::Start, Call::Join, Call::Op(1, 1), Call::Sweep(6, 2)],
        "begun; c0 1/0; LogFailed(0, 1); swept none",
        (2, 0, 0, 0, 1),
    ),
    (
        3,
        &[2],
        &[2],
        &[
            Call::Start,
            Call::Join,
            Call::Op(1, 1),
            Call::Sweep(7, 2),
            Call::State,
        ],
        "begun; c0 1/0; LogFailed(0, 1); swept c0 2/2; 2 entries, 2/2, 0 acks, 0 clients",
        (2, 0, 0, 0, 1),
    ),
    // a range needs no cut and makes none
    (
        3,
        &[2],
        &[2],
        &[Call::Start, Call::Join, Call::Op(1, 1), Call::Range(1, 2)],
        "begun; c0 1/0; LogFailed(0, 1); messages 1",
        (2, 0, 0, 0, 1),
    ),
];

#[test]
fn a_cut_that_is_owed_comes_before_a_refusal(rt: HostRuntime) {
    let alloc = rt.alloc();
    for (entries, failing, adding, calls, answers, kept) in LIVES {
        let limits = Limits {
            entries: *entries,
            ..FEW
        };
        let keeper = keeper_of(&rt, alloc, failing, adding);
        assert_life(&rt, alloc, limits, keeper, calls, answers, *kept);
    }
}
