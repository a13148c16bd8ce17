// Runs of three edits, with a loss at each point of sending and hearing them. Their rows stand in `fluid_outbox/specs/Examples.antt`
// (`Losses`) too, where each is computed from the definitions; here `next` is called in vain as well.
use crate::play::{Row, play, play_on};
use fluid_outbox::Outbox;
use std::alloc::Global;
use std::process::Abort;

const BEGUN: [Row; 4] = [
    ("push 10", "0", "0 false"),
    ("push 11", "1", "0 false"),
    ("push 12", "2", "0 false"),
    ("join a", "", "0 true"),
];

const SENT_AND_HEARD: [Row; 6] = [
    ("next", "1:10", "0 true"),
    ("next", "2:11", "0 true"),
    ("next", "3:12", "0 true"),
    ("op a 1", "", "1 true"),
    ("op a 2", "", "2 true"),
    ("op a 3", "", "3 true"),
];

// The connection is lost behind so many of these.
fn lost_behind(rt: &impl Abort, alloc: Global, count: usize, rest: &[Row]) {
    let mut outbox = Outbox::new(alloc);
    play_on(rt, alloc, &mut outbox, &BEGUN);
    play_on(
        rt,
        alloc,
        &mut outbox,
        SENT_AND_HEARD.get(..count).expect(rt, "at most six"),
    );
    play_on(rt, alloc, &mut outbox, rest);
    drop(outbox);
}

// Nothing was sent under the id that is lost: no leave is awaited.
#[test]
fn before_sending(rt: HostRuntime) {
    lost_behind(
        &rt,
        rt.alloc(),
        0,
        &[
            ("lost", "", "0 false"),
            ("next", "none", "0 false"),
            ("join b", "", "0 true"),
            ("next", "1:10", "0 true"),
            ("leave a", "", "0 true"),
            ("next", "2:11", "0 true"),
            ("next", "3:12", "0 true"),
            ("next", "none", "0 true"),
            ("op b 1", "", "1 true"),
            ("op b 2", "", "2 true"),
            ("op b 3", "", "3 true"),
        ],
    );
}

// One was sent, and it doesn't stand when the leave comes.
#[test]
fn behind_the_first(rt: HostRuntime) {
    lost_behind(
        &rt,
        rt.alloc(),
        1,
        &[
            ("lost", "", "0 false"),
            ("join b", "", "0 false"),
            ("next", "none", "0 false"),
            ("leave a", "", "0 true"),
            ("next", "1:10", "0 true"),
            ("next", "2:11", "0 true"),
            ("next", "3:12", "0 true"),
            ("op b 1", "", "1 true"),
            ("op b 2", "", "2 true"),
            ("op b 3", "", "3 true"),
        ],
    );
}

// Two were sent, and the first stands all the same.
#[test]
fn behind_the_second(rt: HostRuntime) {
    lost_behind(
        &rt,
        rt.alloc(),
        2,
        &[
            ("lost", "", "0 false"),
            ("next", "none", "0 false"),
            ("op a 1", "", "1 false"),
            ("join b", "", "1 false"),
            ("next", "none", "1 false"),
            ("leave a", "", "1 true"),
            ("next", "1:11", "1 true"),
            ("next", "2:12", "1 true"),
            ("next", "none", "1 true"),
            ("op b 1", "", "2 true"),
            ("op b 2", "", "3 true"),
        ],
    );
}

// All were sent, and all stand before the leave.
#[test]
fn behind_the_third(rt: HostRuntime) {
    lost_behind(
        &rt,
        rt.alloc(),
        3,
        &[
            ("lost", "", "0 false"),
            ("join b", "", "0 false"),
            ("op a 1", "", "1 false"),
            ("op a 2", "", "2 false"),
            ("op a 3", "", "3 false"),
            ("next", "none", "3 false"),
            ("leave a", "", "3 true"),
            ("next", "none", "3 true"),
        ],
    );
}

// One was heard. Of the two that are sent again one stands when the next id is lost too.
#[test]
fn behind_hearing_one(rt: HostRuntime) {
    lost_behind(
        &rt,
        rt.alloc(),
        4,
        &[
            ("lost", "", "1 false"),
            ("join b", "", "1 false"),
            ("next", "none", "1 false"),
            ("leave a", "", "1 true"),
            ("next", "1:11", "1 true"),
            ("next", "2:12", "1 true"),
            ("op b 1", "", "2 true"),
            ("lost", "", "2 false"),
            ("leave b", "", "2 false"),
            ("next", "none", "2 false"),
            ("join c", "", "2 true"),
            ("next", "1:12", "2 true"),
            ("op c 1", "", "3 true"),
        ],
    );
}

// Two were heard.
#[test]
fn behind_hearing_two(rt: HostRuntime) {
    lost_behind(
        &rt,
        rt.alloc(),
        5,
        &[
            ("lost", "", "2 false"),
            ("join b", "", "2 false"),
            ("next", "none", "2 false"),
            ("leave a", "", "2 true"),
            ("next", "1:12", "2 true"),
            ("op b 1", "", "3 true"),
        ],
    );
}

// All were heard: the leave is awaited all the same.
#[test]
fn behind_hearing_three(rt: HostRuntime) {
    lost_behind(
        &rt,
        rt.alloc(),
        6,
        &[
            ("lost", "", "3 false"),
            ("join b", "", "3 false"),
            ("next", "none", "3 false"),
            ("leave a", "", "3 true"),
            ("next", "none", "3 true"),
        ],
    );
}

// Edits that are added while others are on their way, and an id that is joined where one is current.
#[test]
fn edits_are_sent_in_turn(rt: HostRuntime) {
    play(
        &rt,
        rt.alloc(),
        &[
            ("next", "none", "0 false"),
            ("push 10", "0", "0 false"),
            ("next", "none", "0 false"),
            ("join a", "", "0 true"),
            ("push 11", "1", "0 true"),
            ("next", "1:10", "0 true"),
            ("op b 1", "", "0 true"),
            ("next", "2:11", "0 true"),
            ("next", "none", "0 true"),
            ("op a 1", "", "1 true"),
            ("push 12", "2", "1 true"),
            ("next", "3:12", "1 true"),
            ("op a 2", "", "2 true"),
            ("op a 3", "", "3 true"),
            ("next", "none", "3 true"),
            ("join b", "current", "3 true"),
        ],
    );
}

// A leave that was heard while its id was current isn't awaited any more; what is on its way waits again at the loss.
#[test]
fn a_leave_before_the_loss(rt: HostRuntime) {
    play(
        &rt,
        rt.alloc(),
        &[
            ("push 10", "0", "0 false"),
            ("push 11", "1", "0 false"),
            ("join a", "", "0 true"),
            ("next", "1:10", "0 true"),
            ("leave a", "", "0 true"),
            ("next", "2:11", "0 true"),
            ("next", "none", "0 true"),
            ("lost", "", "0 false"),
            ("join b", "", "0 true"),
            ("next", "1:10", "0 true"),
            ("next", "2:11", "0 true"),
            ("op b 1", "", "1 true"),
            ("op b 2", "", "2 true"),
        ],
    );
}

// Losses and a new edit while a leave is awaited, and messages that say nothing of these edits.
#[test]
fn losses_while_a_leave_is_awaited(rt: HostRuntime) {
    play(
        &rt,
        rt.alloc(),
        &[
            ("push 10", "0", "0 false"),
            ("push 11", "1", "0 false"),
            ("join a", "", "0 true"),
            ("next", "1:10", "0 true"),
            ("lost", "", "0 false"),
            ("join b", "", "0 false"),
            ("lost", "", "0 false"),
            ("lost", "", "0 false"),
            ("leave b", "", "0 false"),
            ("next", "none", "0 false"),
            ("join c", "", "0 false"),
            ("op c 1", "", "0 false"),
            ("noop a 1", "", "0 false"),
            ("op a 1", "", "1 false"),
            ("op a 1", "", "1 false"),
            ("push 12", "2", "1 false"),
            ("next", "none", "1 false"),
            ("leave aa", "", "1 false"),
            ("leave a", "", "1 true"),
            ("next", "1:11", "1 true"),
            ("next", "2:12", "1 true"),
            ("op a 1", "", "1 true"),
            ("op c 2", "", "1 true"),
            ("op c 1", "", "2 true"),
            ("op c 2", "", "3 true"),
        ],
    );
}
