//! A wire that gives hints: when it gives one, and that all else is the inner wire's.

use crossbeam_channel::{Receiver, unbounded};
use fluid_hints::{Bell, HintWire};
use fluid_json::Text;
use fluid_lines::{MemoryWire, Recv, Wire, WireFault, WireScript};
use std::alloc::Global;
use std::collections::VecDeque;
use std::marker::Model;
use std::process::Abort;
use std::sync::{Mutex, Wait};

// A wire on which three texts come, and a quiet answer behind the second.
fn three(rt: &impl Abort, alloc: Global) -> MemoryWire {
    let mut texts = VecDeque::new(alloc);
    for text in ["a", "b", "c"] {
        let text = Text::copied(alloc, text).expect(rt, "memory");
        texts.push_back(text).expect(rt, "memory");
    }
    let script = WireScript {
        texts,
        failing_receives: Vec::new(alloc),
        failing_sends: Vec::new(alloc),
        quiet_receives: Vec::from_slice(alloc, &[3]).expect(rt, "memory"),
    };
    MemoryWire::new(alloc, script)
}

// What is done at a step.
#[derive(Clone, Copy)]
enum Step {
    Receive,
    // the worker takes a hint, and clears the flag
    Work,
}

// The steps, each with how many hints wait behind it. A text that came in gives a hint at the next receive, a second one only
// where the flag was cleared meanwhile.
const STEPS: [(Step, usize); 12] = [
    (Step::Receive, 0),
    (Step::Receive, 1),
    (Step::Receive, 1),
    (Step::Work, 0),
    (Step::Receive, 1),
    (Step::Receive, 1),
    (Step::Work, 0),
    (Step::Receive, 1),
    (Step::Work, 0),
    (Step::Receive, 0),
    (Step::Work, 0),
    (Step::Receive, 0),
];

fn work<R: Wait>(rt: &R, bell: &Mutex<Bell>, hinted: &Receiver<()>) {
    let _ = hinted.try_recv(rt);
    bell.lock(rt).clear();
}

#[test]
fn a_hint_comes_when_a_text_was_worked_off(rt: HostRuntime) {
    let alloc = rt.alloc();
    let (hints, hinted) = unbounded(alloc).expect(&rt, "memory");
    let bell = Mutex::new(Bell::new());
    let mut wire = HintWire::new(three(&rt, alloc), &bell, &hints);
    for (step, waiting) in STEPS {
        match step {
            Step::Receive => drop(wire.recv(&rt, alloc)),
            Step::Work => work(&rt, &bell, &hinted),
        }
        assert!(rt; hinted.len() == waiting);
    }
}

#[test]
fn a_hint_that_is_refused_leaves_the_flag_clear(rt: HostRuntime) {
    let alloc = rt.alloc();
    let (hints, hinted) = unbounded(alloc).expect(&rt, "memory");
    drop(hinted);
    let bell = Mutex::new(Bell::new());
    let mut wire = HintWire::new(three(&rt, alloc), &bell, &hints);
    drop(wire.recv(&rt, alloc));
    drop(wire.recv(&rt, alloc));
    assert!(rt; !bell.lock(&rt).hint);
}

// A wire that keeps what it is told to follow, and to send, and gives these hints.
#[derive(Drop)]
struct Told {
    followed: String,
    sent: String,
    is_free: bool,
    is_handed_on: bool,
}

impl Model for Told {
    ghost use Rattle.std.specs.Prelude.{None};
    ghost use Rattle.fluid_lines.specs.Wires.{Wiring};

    ghost Value = { Wiring };

    ghost view = { λ _. record { history = None; texts = None; quiets = 0; faults = 0 } };
}

impl Wire for Told {
    ghost seen = { λ w. w };

    fn recv<R: Wait>(&mut self, _rt: &R, _alloc: Global) -> Result<Recv, WireFault> {
        Err(WireFault::NoMemory)
    }

    fn send<R: Wait>(&mut self, _rt: &R, _alloc: Global, text: &str) -> Result<(), WireFault> {
        self.sent.push_str(text)?;
        Ok(())
    }

    fn follow<R: Wait>(&mut self, _rt: &R, name: &str) {
        let _ = self.followed.push_str(name);
    }

    fn is_free<R: Wait>(&mut self, _rt: &R) -> bool {
        self.is_free
    }

    fn is_handed_on<R: Wait>(&mut self, _rt: &R) -> bool {
        self.is_handed_on
    }
}

#[test]
fn what_is_asked_and_told_is_handed_on(rt: HostRuntime) {
    let alloc = rt.alloc();
    let (hints, _hinted) = unbounded(alloc).expect(&rt, "memory");
    let bell = Mutex::new(Bell::new());
    let told = Told {
        followed: String::new(alloc),
        sent: String::new(alloc),
        is_free: true,
        is_handed_on: false,
    };
    let mut wire = HintWire::new(told, &bell, &hints);
    assert!(rt; wire.is_free(&rt) && !wire.is_handed_on(&rt));
    wire.follow(&rt, "d");
    drop(wire.send(&rt, alloc, "text"));
    let told = wire.into_wire();
    assert!(rt; told.followed.as_str() == "d");
    assert!(rt; told.sent.as_str() == "text");
    let told = Told {
        is_free: false,
        is_handed_on: true,
        ..told
    };
    let mut wire = HintWire::new(told, &bell, &hints);
    assert!(rt; !wire.is_free(&rt) && wire.is_handed_on(&rt));
}
