// Two callers of a document in two threads, who then meet.
ghost use Rattle.std.specs.Prelude.{◌≡◌, true, [], ◌∷◌};
ghost use Rattle.tests_of_doors.specs.Meeting.{HasEntered, HasBoth};

use crate::callers::{join, open};
use crate::operation::Operation;
use fluid_cast::Cursor;
use fluid_doors::{Door, Pass, know};
use fluid_log::MemoryKeeper;
use fluid_types::{Message, Verdict};
use std::alloc::Global;
use std::process::Abort;
use std::sync::Wait;
use std::thread;
use std::thread::Threads;

// How many operations each caller submits.
const EACH: u64 = 500;

// The operations of a client, from its first on.
fn operations(rt: &impl Abort, alloc: Global, client: &str) -> Vec<Operation> {
    let mut all = Vec::new(alloc);
    for number in 1..=EACH {
        let operation = Operation::read(rt, alloc, client, number);
        all.push(operation).expect(rt, "memory");
    }
    all
}

// Submits these operations one after another; each is sequenced.
fn submit_all<R: Wait + Abort>(
    rt: &R,
    alloc: Global,
    door: &Door<MemoryKeeper>,
    pass: Pass<MemoryKeeper>,
    operations: Vec<Operation>,
) -> Pass<MemoryKeeper>
    requires { pass.turn ≡ door.now.turn }
    ensures { HasEntered operations.items pass result }
{
    let mut pass = pass;
    for operation in operations {
        pass = submit(rt, alloc, door, pass, operation);
    }
    pass
}

fn submit<R: Wait + Abort>(
    rt: &R,
    alloc: Global,
    door: &Door<MemoryKeeper>,
    pass: Pass<MemoryKeeper>,
    operation: Operation,
) -> Pass<MemoryKeeper>
    requires { pass.turn ≡ door.now.turn }
    ensures { HasEntered (operation ∷ []) pass result }
{
    let (pass, answer) = door.submit(rt, alloc, pass, operation.into_raw());
    match answer {
        Ok(Verdict::Sequenced(message)) => drop(message),
        _ => panic!(rt; "not sequenced"),
    }
    pass
}

// Two callers side by side.
fn submit_both<R: Threads + Wait + Sync + Abort>(
    rt: &R,
    alloc: Global,
    door: &Door<MemoryKeeper>,
    first: Pass<MemoryKeeper>,
    second: Pass<MemoryKeeper>,
    firsts: Vec<Operation>,
    seconds: Vec<Operation>,
) -> (Pass<MemoryKeeper>, Pass<MemoryKeeper>)
    requires { (first.turn ≡ door.now.turn) × (second.turn ≡ door.now.turn) }
    ensures first { HasEntered firsts.items first result.0 }
    ensures second { HasEntered seconds.items second result.1 }
{
    thread::join(
        rt,
        move || -> Pass<MemoryKeeper>
            requires { first.turn ≡ door.now.turn }
            ensures { HasEntered firsts.items first result }
        { submit_all(rt, alloc, door, first, firsts) },
        move || -> Pass<MemoryKeeper>
            requires { second.turn ≡ door.now.turn }
            ensures { HasEntered seconds.items second result }
        { submit_all(rt, alloc, door, second, seconds) },
    )
}

// Two passes meet. Two new ones come back: the first has seen what the first of them saw then, the second what the second saw.
fn meet(
    door: &Door<MemoryKeeper>,
    first: Pass<MemoryKeeper>,
    second: Pass<MemoryKeeper>,
) -> (Pass<MemoryKeeper>, Pass<MemoryKeeper>)
    requires told { door.now.turn.fixed.told ≡ true }
    requires turn { (first.turn ≡ door.now.turn) × (second.turn ≡ door.now.turn) }
    ensures turn { (result.0.turn ≡ door.now.turn) × (result.1.turn ≡ door.now.turn) }
    ensures first { HasBoth first second result.0.seen }
    ensures second { HasBoth first second result.1.seen }
{
    know(&first);
    know(&second);
    let (mut one, mut other) = door.meet(first, second);
    let mut as_one = door.fork(&mut one);
    let mut as_other = door.fork(&mut other);
    know(&as_one);
    know(&as_other);
    // Each is told what the other has seen: a pass says of what it has seen that no more of it is its own.
    let told_one = door.fork(&mut as_one);
    let told_other = door.fork(&mut as_other);
    let (_, other_later) = door.meet(told_one, other);
    let (_, one_later) = door.meet(told_other, one);
    know(&one_later);
    know(&other_later);
    (as_one, as_other)
}

// The operations of a client among these messages are all of its operations, in their order.
fn has_all_of(messages: &[Message], client: &str) -> bool {
    messages
        .iter()
        .filter(|message| match &message.client {
            Some(id) => id.as_str() == client,
            None => false,
        })
        .map(|message| message.client_number)
        .eq(1..=EACH as i64)
}

#[test]
fn two_callers_meet_in_one_order(rt: HostRuntime) {
    let alloc = rt.alloc();
    let (door, pass) = open(&rt, alloc, &[]);
    let (first, is_first) = join(&rt, alloc, &door, pass);
    let (second, is_second) = join(&rt, alloc, &door, door.pass());
    assert!(rt; is_first && is_second, "two clients");
    let firsts = operations(&rt, alloc, "c0");
    let seconds = operations(&rt, alloc, "c1");
    let (first, second) = submit_both(&rt, alloc, &door, first, second, firsts, seconds);
    let (first, second) = meet(&door, first, second);
    let (second, answer) = door.collect(&rt, alloc, second, &Cursor { next: 1 }, 4 * EACH);
    drop(second);
    match &answer {
        Ok(Some(event)) => assert!(rt; event.count() == 2 + 2 * EACH, "each once"),
        _ => panic!(rt; "not collected"),
    }
    drop(answer);
    let mut lane = door.end(&rt, first);
    assert!(rt; lane.entered() == 2 + 2 * EACH, "nothing else");
    let last = lane.seq();
    match &lane.range(alloc, 1, last + 1) {
        Ok(messages) => assert!(rt;
            has_all_of(messages, "c0") && has_all_of(messages, "c1"),
            "all of both"
        ),
        Err(_) => panic!(rt; "not read"),
    }
    drop(lane);
}
