// Lives within limits.
use crate::calls::Call;
use crate::lives::{Counts, FEW, assert_life, keeper_of};
use fluid_lane::Limits;

// the bytes of a checkpoint, the calls, their answers, and what is kept then
const LIVES: &[(u64, &[Call], &str, Counts)] = &[
    (
        1_048_576,
        &[
            Call::Start,
            Call::Join,
            Call::Join,
            Call::Op(1, 1),
            Call::Op(2, 2),
            Call::Op(3, 3),
            Call::Join,
            Call::Report(3, true),
            Call::Leave,
            Call::Range(1, 5),
            Call::Range(2, 4),
            Call::Range(5, 5),
            Call::Checkpoint,
            Call::Checkpoint,
            Call::Restart(1),
            Call::Restart(0),
            Call::Join,
            Call::Sides,
            Call::Start,
            Call::Sides,
        ],
        "begun; c0 1/0; TooManyClients; 2/1; 3/2; Full(3); Full(3); dropped; 4/4; messages 1 2 3 4; messages 2 3; messages; \
            stored 0; CheckpointsFull; NoCheckpoint(1, 1); restarted 0; Full(3); 0 found, 2 sides, last Some(Restarted(0)); \
            begun; 1 found, 0 sides, last None",
        (5, 4, 1, 0, 0),
    ),
    // a summary
    (
        1_048_576,
        &[
            Call::Start,
            Call::Job,
            Call::Join,
            Call::Op(1, 1),
            Call::Summarize(2, 2),
            Call::Job,
            Call::Report(3, true),
            Call::Job,
            Call::State,
            Call::Sides,
            Call::Report(3, true),
            Call::Start,
            Call::State,
            Call::Sides,
        ],
        "begun; job None; c0 1/0; 2/1; 3/2; job Some(3); 4/2; job None; 4 entries, 4/2, 1 acks, 1 clients; 0 found, 0 sides, last None; \
            dropped; begun; 6 entries, 5/5, 1 acks, 0 clients; 0 found, 0 sides, last None",
        (6, 0, 0, 5, 0),
    ),
    // the text of a checkpoint of nothing has 260 bytes, and one of c0's join alone 589
    (
        10,
        &[Call::Start, Call::Checkpoint, Call::Sides],
        "begun; TooLarge(260); 0 found, 0 sides, last None",
        (0, 0, 0, 0, 0),
    ),
    (
        588,
        &[Call::Start, Call::Join, Call::Checkpoint],
        "begun; c0 1/0; TooLarge(589)",
        (1, 1, 0, 0, 0),
    ),
    (
        260,
        &[Call::Start, Call::Checkpoint, Call::Sides],
        "begun; stored 0; 0 found, 1 sides, last Some(Stored(0))",
        (0, 0, 1, 0, 0),
    ),
];

// the calls, their answers, and what is kept then
const SWEPT: &[(&[Call], &str, Counts)] = &[
    // c1 is heard of at 4, and c0 at 5
    (
        &[
            Call::Start,
            Call::Sweep(9, 0),
            Call::Join,
            Call::Join,
            Call::Op(1, 1),
            Call::Sweep(6, 2),
            Call::Sweep(7, 2),
            Call::Sweep(7, 2),
            Call::Sweep(8, 2),
            Call::Sweep(8, 2),
            Call::State,
            Call::Sides,
        ],
        "begun; swept none; c0 1/0; c1 2/0; 3/0; swept none; swept c1 4/1; swept none; swept c0 5/5; swept none; \
            5 entries, 5/5, 0 acks, 0 clients; 0 found, 0 sides, last None",
        (5, 0, 0, 0, 0),
    ),
    // the first in byte order of ids goes first, and nobody is silent before the moment at which it was heard of
    (
        &[
            Call::Start,
            Call::Join,
            Call::Join,
            Call::Sweep(4, 0),
            Call::Sweep(3, 9),
            Call::Sweep(5, 0),
            Call::Sweep(5, 0),
            Call::Sweep(5, 0),
        ],
        "begun; c0 1/0; c1 2/0; swept none; swept none; swept c0 3/0; swept c1 4/4; swept none",
        (4, 0, 0, 0, 0),
    ),
];

#[test]
fn who_was_silent_for_too_long_leaves(rt: HostRuntime) {
    let alloc = rt.alloc();
    for (calls, answers, kept) in SWEPT {
        let keeper = keeper_of(&rt, alloc, &[], &[]);
        assert_life(&rt, alloc, Limits::FULL, keeper, calls, answers, *kept);
    }
}

#[test]
fn a_lane_keeps_to_its_limits(rt: HostRuntime) {
    let alloc = rt.alloc();
    for (bytes, calls, answers, kept) in LIVES {
        let limits = Limits {
            bytes: *bytes,
            ..FEW
        };
        let keeper = keeper_of(&rt, alloc, &[], &[]);
        assert_life(&rt, alloc, limits, keeper, calls, answers, *kept);
    }
}
