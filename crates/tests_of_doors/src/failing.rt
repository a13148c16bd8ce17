// A document whose keeper fails once: the next submission is sequenced all the same.
ghost use Rattle.std.specs.Prelude.{◌≡◌};

use crate::callers::{is_sequenced, join, open};
use crate::operation::Operation;
use fluid_cast::Cursor;
use fluid_doors::{Door, Pass};
use fluid_log::MemoryKeeper;
use std::alloc::Global;
use std::process::Abort;
use std::sync::Wait;

// A call on a document of which c0 is a client.
#[derive(Clone, Copy)]
enum Call {
    Join,
    Submit,
    Checkpoint,
    Restart,
    Collect,
}

// What a document of this test is asked for: its keeper is called once for the join, once for each operation, three times for the
// checkpoint (two deltas, and its text), twice for the restart (that text, and a record), and twice for the collection (two deltas).
const LIFE: [Call; 7] = [
    Call::Join,
    Call::Submit,
    Call::Checkpoint,
    Call::Submit,
    Call::Restart,
    Call::Collect,
    Call::Submit,
];

const KEEPER_CALLS: u64 = 11;

// Makes a call, and tells whether it was made. A submission is the operation behind those that were sent.
fn make<R: Wait + Abort>(
    rt: &R,
    alloc: Global,
    door: &Door<MemoryKeeper>,
    pass: Pass<MemoryKeeper>,
    call: Call,
    sent: &mut u64,
) -> (Pass<MemoryKeeper>, bool)
    requires { pass.turn ≡ door.now.turn }
    ensures { result.0.turn ≡ door.now.turn }
{
    match call {
        Call::Join => join(rt, alloc, door, pass),
        Call::Submit => {
            let number = sent.wrapping_add(1);
            let raw = Operation::read(rt, alloc, "c0", number).into_raw();
            let (pass, answer) = door.submit(rt, alloc, pass, raw);
            let made = is_sequenced(&answer);
            drop(answer);
            if made {
                *sent = number;
            }
            (pass, made)
        }
        Call::Checkpoint => {
            let (pass, answer) = door.checkpoint(rt, alloc, pass);
            (pass, answer.is_ok())
        }
        Call::Restart => {
            let (pass, answer) = door.restart(rt, alloc, pass, 0);
            (pass, answer.is_ok())
        }
        Call::Collect => {
            let (pass, answer) = door.collect(rt, alloc, pass, &Cursor { next: 1 }, 64);
            (pass, answer.is_ok())
        }
    }
}

// Behind a call that wasn't made: the next submission is sequenced, and the call is made. Nobody submits before the join.
fn go_on<R: Wait + Abort>(
    rt: &R,
    alloc: Global,
    door: &Door<MemoryKeeper>,
    pass: Pass<MemoryKeeper>,
    call: Call,
    sent: &mut u64,
) -> Pass<MemoryKeeper>
    requires { pass.turn ≡ door.now.turn }
    ensures { result.turn ≡ door.now.turn }
{
    let (one, other) = match call {
        Call::Join => (Call::Join, Call::Submit),
        call => (Call::Submit, call),
    };
    let (pass, first) = make(rt, alloc, door, pass, one, sent);
    let (pass, second) = make(rt, alloc, door, pass, other, sent);
    assert!(rt; first && second, "the keeper fails once");
    pass
}

// How many calls weren't made, where this call of the keeper fails.
fn live<R: Wait + Abort>(rt: &R, alloc: Global, failing: u64) -> u64 {
    let (door, pass) = open(rt, alloc, &[failing]);
    let mut pass = pass;
    let mut sent = 0;
    let mut failures = 0_u64;
    for call in LIFE {
        let (after, made) = make(rt, alloc, &door, pass, call, &mut sent);
        pass = after;
        if !made {
            failures = failures.wrapping_add(1);
            pass = go_on(rt, alloc, &door, pass, call, &mut sent);
        }
    }
    let lane = door.end(rt, pass);
    assert!(rt;
        lane.entered() == sent.wrapping_add(1),
        "a join and the operations"
    );
    drop(lane);
    failures
}

#[test]
fn each_failure_leaves_the_next_submission_sequenced(rt: HostRuntime) {
    for failing in 1..=KEEPER_CALLS {
        assert!(rt; live(&rt, rt.alloc(), failing) == 1, "call {failing}");
    }
    assert!(rt;
        live(&rt, rt.alloc(), KEEPER_CALLS + 1) == 0,
        "no call fails"
    );
}
