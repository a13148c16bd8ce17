use crate::peers::{
    HOURLY, Heard, Host, PATIENT, connected, greeted, listening, met, names_streams, write_bytes,
};
use std::alloc::Global;
use std::io::Write;
use std::thread;
use std::time::Duration;

// Two wires of one document, and a third of another one. Wires with their stations go to threads here, which the prover takes of
// the runtime itself alone.
#[test]
fn a_text_is_heard_by_the_others_of_its_document_at_once(rt: HostRuntime) {
    let alloc = rt.alloc();
    for attended in [false, true] {
        let mut front = listening(&rt, alloc, true, HOURLY);
        let (mut stream, mut first) = connected(&rt, alloc, &mut front, attended);
        let (_other, mut second) = connected(&rt, alloc, &mut front, attended);
        let (mut apart, mut third) = connected(&rt, alloc, &mut front, attended);
        first.follow(&rt, "a");
        second.follow(&rt, "b");
        second.follow(&rt, "a");
        third.follow(&rt, "b");
        // that its peer takes texts ends the first wait of each wire
        second.rest(&rt, alloc, 1);
        third.rest(&rt, alloc, 1);
        let stranger = thread::spawn(&rt, move || third.hear(&rt, alloc) == Heard::Text).expect(
            &rt, "a thread",
        );
        write_bytes(&rt, &mut stream, b"text\n");
        // the second wire is told of the text, and that the first one is gone
        let listener = thread::spawn(&rt, move || second.rest(&rt, alloc, 2)).expect(
            &rt, "a thread",
        );
        assert!(rt; first.hear(&rt, alloc) == Heard::Text, "{attended}");
        thread::sleep(&rt, Duration::from_millis(50));
        assert!(rt; first.send(&rt, alloc, "reply").is_ok(), "{attended}");
        thread::sleep(&rt, Duration::from_millis(50));
        drop(first);
        let told = listener.join(&rt) < Duration::from_secs(1);
        assert!(rt; told, "in a second: {attended}");
        write_bytes(&rt, &mut apart, b"text\n");
        let alone = stranger.join(&rt);
        assert!(rt;
            alone,
            "one of another document is told of nothing: {attended}"
        );
        drop(front);
    }
}

// What a peer sends bit by bit: a line without an end, and pings.
const DRIPS: [(bool, &[u8]); 2] = [(true, b"a"), (false, b"\x89\x80\0\0\0\0")];

fn drips_are_quiet<R: Host>(
    rt: R,
    alloc: Global,
    lines: bool,
    drip: &'static [u8],
    attended: bool,
) {
    let mut waits = PATIENT;
    waits.tick_milliseconds = 5000;
    let (mut stream, mut wire) = greeted(&rt, alloc, lines, waits, attended);
    let dripper = thread::spawn(&rt, move || {
        for _ in 0..200 {
            if stream.write_all(drip).is_err() {
                break;
            }
            thread::sleep(&rt, Duration::from_millis(50));
        }
    })
    .expect(&rt, "a thread");
    for _ in 0..8 {
        assert!(rt;
            wire.rest(&rt, alloc, 1) < Duration::from_secs(1),
            "lines: {lines}, {attended}"
        );
    }
    drop(wire);
    dripper.join(&rt);
}

#[test]
fn a_peer_that_sends_bit_by_bit_keeps_nobody_from_looking_round(rt: HostRuntime) {
    names_streams(None);
    let alloc = rt.alloc();
    for attended in [false, true] {
        for (lines, drip) in DRIPS {
            drips_are_quiet(rt, alloc, lines, drip, attended);
        }
    }
}

// A wire at a station is due at the ticks of its station, the first of which comes within a tick.
fn sleeps_grow<R: Host>(rt: R, alloc: Global, attended: bool, least: u64) {
    let mut waits = PATIENT;
    waits.tick_milliseconds = 100;
    let (mut stream, mut wire) = met(&rt, alloc, true, waits, attended);
    // that its peer takes texts ends its first wait
    wire.rest(&rt, alloc, 1);
    assert!(rt;
        wire.rest(&rt, alloc, 4) >= Duration::from_millis(least),
        "1, 2, 4 and 8 ticks: {attended}"
    );
    write_bytes(&rt, &mut stream, b"text\n");
    assert!(rt; wire.hear(&rt, alloc) == Heard::Text, "{attended}");
    assert!(rt;
        wire.rest(&rt, alloc, 1) < Duration::from_millis(350),
        "behind a text one tick: {attended}"
    );
    drop(wire);
}

#[test]
fn a_wire_that_nobody_calls_sleeps_longer_and_longer(rt: HostRuntime) {
    names_streams(None);
    let alloc = rt.alloc();
    sleeps_grow(rt, alloc, false, 1500);
    sleeps_grow(rt, alloc, true, 1400);
}
