// Sessions that go cycle by cycle: they are the sessions that run to their end in one call.

use crate::rows::{FIRST_SAID, TORN, WHOLE, WRITE, has_messages};
use crate::sitting::{MOMENT, numbers, push, says, serve, told_report};
use fluid_hosting::Hosted;
use fluid_io::FixedClock;
use fluid_lane::Limits;
use fluid_lines::{MemoryWire, WireScript};
use fluid_log::MemoryShelves;
use fluid_store::MemoryObjects;
use std::alloc::Global;
use std::collections::VecDeque;
use std::process::Abort;
use std::sync::Wait;
use std::test::Fail;

// The receives that are quiet, and the receive and the send that fail; how many cycles a session takes over a wire with two texts, what
// comes of it, which texts go out, and how many messages the document has behind the leave. A cycle hears one text, and collects before it.
type Row = (
    &'static [u64],
    u64,
    u64,
    u64,
    &'static str,
    &'static str,
    u64,
);

const ROWS: [Row; 8] = [
    (&[], 0, 0, 3, "closed 2 1 0 0 0", WHOLE, 4),
    (&[1], 0, 0, 4, "closed 2 1 0 0 0", WHOLE, 4),
    (&[2, 3, 5], 0, 0, 6, "closed 2 1 0 0 0", WHOLE, 4),
    (&[], 1, 0, 1, "the wire failed 0 0 0 0 0", "", 0),
    (&[2], 3, 0, 3, "the wire failed 0 0 0 0 0", TORN, 2),
    (&[], 0, 1, 1, "the wire failed 0 0 0 0 0", "", 2),
    (&[], 0, 2, 2, "the wire failed 0 0 0 0 0", FIRST_SAID, 2),
    (&[2], 0, 3, 4, "the wire failed 2 1 0 0 0", TORN, 4),
];

#[test]
fn cycles_are_a_session(rt: HostRuntime) -> Result<(), Fail> {
    for row in &ROWS {
        cycles(&rt, rt.alloc(), row);
    }
    Ok(())
}

fn cycles<R: Abort + Wait>(rt: &R, alloc: Global, row: &Row) {
    let (quiet, receive, send, count, wanted, texts, messages) = row;
    let service = serve(rt, alloc, Limits::FULL);
    let mut objects = MemoryObjects::new(alloc, Vec::new(alloc));
    let mut wire = quiet_wire(rt, alloc, quiet, *receive, *send);
    let mut hosted = Hosted::new(&service, service.key(), None);
    let mut told = String::new(alloc);
    for cycled in 0..*count {
        assert!(rt; !hosted.is_over(), "over behind {cycled}");
        cycle_once(rt, alloc, &mut hosted, &mut objects, &mut wire, &mut told);
    }
    assert!(rt; told.as_str() == *wanted, "{told}");
    drop(told);
    says(rt, alloc, &wire, texts);
    if !hosted.is_over() {
        panic!(rt; "not over");
    }
    let (key, visit) = hosted.into_parts();
    drop(key);
    has_messages(rt, alloc, &service, visit, *messages);
    drop(wire);
    drop(objects);
    drop(service);
}

// One cycle. What comes of the session is told, where it is over then.
fn cycle_once<R: Abort + Wait>(
    rt: &R,
    alloc: Global,
    hosted: &mut Hosted<MemoryShelves>,
    objects: &mut MemoryObjects,
    wire: &mut MemoryWire,
    told: &mut String,
) {
    if hosted.is_over() {
        return;
    }
    let clock = FixedClock::new(MOMENT);
    if let Some(report) = hosted.cycle(rt, alloc, objects, wire, &clock) {
        let text = told_report(alloc, &report).expect(rt, "memory");
        told.push_str(text.as_str()).expect(rt, "memory");
        drop(text);
        drop(report);
    }
}

fn quiet_wire(
    rt: &impl Abort,
    alloc: Global,
    quiet: &[u64],
    receive: u64,
    send: u64,
) -> MemoryWire {
    let mut texts = VecDeque::new(alloc);
    for line in WRITE.lines() {
        push(rt, alloc, &mut texts, line);
    }
    let script = WireScript {
        texts,
        failing_receives: numbers(rt, alloc, &[receive]),
        failing_sends: numbers(rt, alloc, &[send]),
        quiet_receives: numbers(rt, alloc, quiet),
    };
    MemoryWire::new(alloc, script)
}
