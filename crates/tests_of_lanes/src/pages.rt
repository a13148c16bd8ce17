// Lives of more messages than may be in memory: of 4,096 the oldest 256 go to the keeper before one more comes.
use crate::calls::Call;
use crate::lives::{Counts, assert_life, keeper_of};
use fluid_lane::Limits;

// The join is message 1, and the operation with client number n message n + 1.
//
// The calls of the keeper that fail, the calls on the lane, their answers, and what is kept then.
const LIVES: &[(&[u64], &[Call], &str, Counts)] = &[
    // 4,096 messages are all in memory
    (
        &[],
        &[Call::Start, Call::Join, Call::Ops(1, 4_096)],
        "begun; c0 1/0; 4096/1",
        (4_096, 0, 0, 0, 0),
    ),
    // Behind 4,096 appends the fourth put of a page fails: three are put, and by the next call the others.
    (
        &[4_100],
        &[
            Call::Start,
            Call::Join,
            Call::Ops(1, 4_096),
            Call::Op(4_096, 1),
            Call::State,
        ],
        "begun; c0 1/0; 4096/1; DeltaFailed(0, 1); 4096 entries, 4096/1, 0 acks, 1 clients",
        (4_096, 3, 0, 0, 1),
    ),
    (
        &[4_100],
        &[
            Call::Start,
            Call::Join,
            Call::Ops(1, 4_096),
            Call::Op(4_096, 1),
            Call::Op(4_096, 1),
            Call::Range(256, 258),
            Call::Sides,
        ],
        "begun; c0 1/0; 4096/1; DeltaFailed(0, 1); 4097/1; messages 256 257; \
            0 found, 1 sides, last Some(Failed(FaultNote { before: 0, after: 1 }))",
        (4_097, 256, 0, 0, 1),
    ),
    // A restart from nothing of a lane that has dropped message 1: checkpoint 0 is stored (call 1), the join appends (2), message 1
    // is put (3), checkpoint 1 stored (4) and read (5), 4,096 append (6 to 4,101), checkpoint 0 is read (4,102) and 4,097 records
    // (4,103 to 8,199), and the next puts message 2.
    (
        &[8_200],
        &[
            Call::Start,
            Call::Checkpoint,
            Call::Join,
            Call::Checkpoint,
            Call::Restart(1),
            Call::Ops(1, 4_097),
            Call::Restart(0),
        ],
        "begun; stored 0; c0 1/0; stored 1; restarted 1; 4097/1; DeltaFailed(0, 1)",
        (4_097, 1, 2, 4_097, 1),
    ),
    (
        &[8_200],
        &[
            Call::Start,
            Call::Checkpoint,
            Call::Join,
            Call::Checkpoint,
            Call::Restart(1),
            Call::Ops(1, 4_097),
            Call::Restart(0),
            Call::Restart(0),
            Call::State,
            Call::Sides,
        ],
        "begun; stored 0; c0 1/0; stored 1; restarted 1; 4097/1; DeltaFailed(0, 1); restarted 0; 4097 entries, 4097/1, 0 acks, 1 clients; \
            0 found, 5 sides, last Some(Restarted(0))",
        (4_097, 256, 2, 8_194, 1),
    ),
    // A start whose leave needs room: 4,096 append (1 to 4,096) and are read (4,097 to 8,192), and the next puts message 1.
    (
        &[8_193],
        &[
            Call::Start,
            Call::Join,
            Call::Ops(1, 4_096),
            Call::Start,
            Call::Start,
            Call::State,
        ],
        "begun; c0 1/0; 4096/1; DeltaFailed(0, 1); begun; 4097 entries, 4097/4097, 0 acks, 0 clients",
        (4_097, 256, 0, 8_192, 1),
    ),
    // A start that reads more than may be in memory, and puts one message, which the keeper lacks: the join appends (1), message 1
    // is put (2) and the checkpoint stored (3), 4,095 append (4 to 4,098), messages 2 to 256 are put (4,099 to 4,353), two append
    // (4,354 and 4,355), the checkpoint is read (4,356) and 4,097 records (4,357 to 8,453), and the next puts message 257.
    (
        &[8_454],
        &[
            Call::Start,
            Call::Join,
            Call::Checkpoint,
            Call::Ops(1, 4_098),
            Call::Start,
        ],
        "begun; c0 1/0; stored 0; 4098/1; DeltaFailed(0, 1)",
        (4_098, 256, 1, 4_097, 1),
    ),
    (
        &[8_454],
        &[
            Call::Start,
            Call::Join,
            Call::Checkpoint,
            Call::Ops(1, 4_098),
            Call::Start,
            Call::Start,
            Call::State,
            Call::Sides,
        ],
        "begun; c0 1/0; stored 0; 4098/1; DeltaFailed(0, 1); begun; 4099 entries, 4099/4099, 0 acks, 0 clients; \
            1 found, 0 sides, last None",
        (4_099, 257, 1, 8_194, 1),
    ),
];

#[test]
fn behind_so_many_messages_the_oldest_page_goes(rt: HostRuntime) {
    let alloc = rt.alloc();
    for (failing, calls, answers, kept) in LIVES {
        let keeper = keeper_of(&rt, alloc, failing, &[]);
        assert_life(&rt, alloc, Limits::FULL, keeper, calls, answers, *kept);
    }
}
