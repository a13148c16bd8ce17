//! `serve` through the top call: its statuses, each for its cause, and two connections beside one another.

use crate::laws::new_desks_tell;
use crate::run::run_first;
use fluid_front::{
    Front, FrontFault, MemoryBell, MemoryFront, MemoryStation, Spawner, StationSpawner,
    ThreadSpawner,
};
use fluid_io::{Failed, FixedClock, MemorySink, MemorySource, Sink, Source};
use fluid_json::Text;
use fluid_lines::{MemoryWire, Recv, Wire, WireFault, WireScript};
use fluid_log::MemoryShelves;
use fluid_serve::Desk;
use fluid_service::new_shelves_are_kept;
use fluid_store::MemoryObjects;
use std::alloc::Global;
use std::collections::VecDeque;
use std::marker::Model;
use std::net::Net;
use std::process::Abort;
use std::sync::Wait;
use std::sync::atomic::{AtomicU64, Ordering};
use std::thread;
use std::thread::Threads;

// ---- one run

/// Runs words over a new desk whose shelves and whose store fail at these calls, this front and this spawner, and gives the
/// status.
pub(crate) fn run_on<R, S, K, F, P>(
    rt: &R,
    alloc: Global,
    words: &[Text],
    input: &mut S,
    output: &mut K,
    failing: (&[u64], &[u64]),
    front: F,
    spawner: P,
) -> u8
where
    R: Threads + Wait + Net + Sync + Abort,
    S: Source,
    K: Sink,
    F: Front + Send + Drop,
    F::W: Send + Drop,
    F::S: Send + Drop,
    F::B: Send + Sync + Drop,
    P: Spawner + Send + Drop,
{
    let (of_shelves, of_store) = failing;
    let failing = Vec::from_slice(alloc, of_shelves).expect(rt, "memory");
    let shelves = MemoryShelves::new(alloc, failing);
    let failing = Vec::from_slice(alloc, of_store).expect(rt, "memory");
    let objects = MemoryObjects::new(alloc, failing);
    new_shelves_are_kept(&shelves);
    new_desks_tell(&shelves, &objects);
    let (status, desk, front, spawner) = run_first(
        rt,
        alloc,
        words,
        input,
        output,
        Desk {
            shelves,
            objects,
            clock: FixedClock::new(7),
        },
        front,
        spawner,
    );
    drop(spawner);
    drop(front);
    drop(desk);
    status
}

// The same with words between blanks, where nothing is read and nothing written.
fn serves<R, F, P>(rt: &R, alloc: Global, words: &str, front: F, spawner: P) -> u8
where
    R: Threads + Wait + Net + Sync + Abort,
    F: Front + Send + Drop,
    F::W: Send + Drop,
    F::S: Send + Drop,
    F::B: Send + Sync + Drop,
    P: Spawner + Send + Drop,
{
    let mut all = Vec::new(alloc);
    for word in words.split(' ') {
        let word = Text::copied(alloc, word).expect(rt, "memory");
        all.push(word).expect(rt, "memory");
    }
    let mut input = MemorySource::in_pieces(Vec::new(alloc), 1, Vec::new(alloc));
    let mut output = MemorySink::in_pieces(alloc, 1, Vec::new(alloc));
    let status = run_on(
        rt,
        alloc,
        &all,
        &mut input,
        &mut output,
        (&[], &[]),
        front,
        spawner,
    );
    assert!(rt; output.written().is_empty());
    drop(output);
    drop(input);
    drop(all);
    status
}

// ---- statuses

// Words, how many wires the front has, which of its calls fail (the first is `listen`), how many stations there may be, and the
// status.
const ENDS: [(&str, usize, &[u64], u32, u8); 9] = [
    ("serve 0 --lines", 0, &[], 9, 0),
    ("serve 0", 3, &[], 9, 0),
    ("serve 0 --connections 2 --lines", 3, &[], 9, 0),
    ("serve 0 --connections 0", 3, &[2], 0, 0),
    ("serve 0", 3, &[1], 9, 9),
    ("serve 0", 3, &[2], 9, 9),
    ("serve 0", 3, &[5], 9, 9),
    ("serve 0", 3, &[], 0, 10),
    ("serve 0 --connections 2", 3, &[], 2, 0),
];

/// A front with so many wires on which nothing comes.
pub(crate) fn front_of(
    rt: &impl Abort,
    alloc: Global,
    wires: usize,
    failing: &[u64],
) -> MemoryFront<MemoryWire> {
    let mut all = VecDeque::new(alloc);
    for _ in 0..wires {
        let script = WireScript {
            texts: VecDeque::new(alloc),
            failing_receives: Vec::new(alloc),
            failing_sends: Vec::new(alloc),
            quiet_receives: Vec::new(alloc),
        };
        all.push_back(MemoryWire::new(alloc, script))
            .expect(rt, "memory");
    }
    let failing = Vec::from_slice(alloc, failing).expect(rt, "memory");
    MemoryFront::new(all, failing)
}

#[test]
fn each_status_of_serve_has_its_cause(rt: HostRuntime) {
    let alloc = rt.alloc();
    for (words, wires, failing, stations, wanted) in ENDS {
        let front = front_of(&rt, alloc, wires, failing);
        let status = serves(&rt, alloc, words, front, StationSpawner::new(stations));
        assert!(rt; status == wanted, "{words}: {status}");
    }
    // the second of two wires has no thread
    let front = front_of(&rt, alloc, 2, &[]);
    assert!(rt; serves(&rt, alloc, "serve 0", front, ThreadSpawner::at_most(1)) == 10);
}

// ---- two that wait for one another

const CONNECT: &str =
    r#"["connect_document",{"id":"d","mode":"write","scopes":["doc:read","doc:write"]}]"#;

const SUCCESS: &str = r#"["connect_document_success","#;

// How often a wire looks whether the other was answered.
const LOOKS: u64 = 10_000_000;

// How often a wire says that it isn't free, and how often that it isn't handed on.
const BUSY: u64 = 3;

// What two wires know of one another, how often they were asked whether they are handed on, and where their front listens: twice
// the port, and one more for lines. One that looked too often, or had a call while it wasn't free, has given up.
#[derive(Drop)]
struct Pair {
    connected: [AtomicU64; 2],
    given_up: AtomicU64,
    handed_on: AtomicU64,
    listened: AtomicU64,
}

// A wire that connects, is quiet or waits until the other one was sent its success, and ends then. It counts its looks and what it
// is sent.
#[derive(Drop)]
struct Patient<'a> {
    pair: &'a Pair,
    is_first: bool,
    waits: bool,
    has_connected: bool,
    looks: u64,
    sent: u64,
    asked: u64,
    left: u64,
}

impl<'a> Patient<'a> {
    fn own(&self) -> &AtomicU64 {
        let [first, second] = &self.pair.connected;
        if self.is_first { first } else { second }
    }

    fn other(&self) -> &AtomicU64 {
        let [first, second] = &self.pair.connected;
        if self.is_first { second } else { first }
    }

    fn give_up(&self) {
        self.pair.given_up.store(1, Ordering::SeqCst);
    }

    fn has_call(&self) {
        if self.asked <= BUSY {
            self.give_up();
        }
    }

    // Waits until the other was sent its success.
    fn await_other(&self) {
        for _ in 0..LOOKS {
            if self.other().load(Ordering::SeqCst) == 1 {
                return;
            }
            thread::yield_now();
        }
        self.give_up();
    }
}

impl<'a> Model for Patient<'a> {
    ghost use Rattle.std.specs.Prelude.{None};
    ghost use Rattle.fluid_lines.specs.Wires.{Wiring};

    ghost Value = { Wiring };

    ghost view = { λ w. record { history = None; texts = None; quiets = w.looks; faults = 0 } };
}

impl<'a> Wire for Patient<'a> {
    ghost seen = { λ w. w };

    fn recv<R: Wait>(&mut self, _rt: &R, alloc: Global) -> Result<Recv, WireFault> {
        self.has_call();
        if !self.has_connected {
            self.has_connected = true;
            return Ok(Recv::Text(Text::copied(alloc, CONNECT)?));
        }
        if self.waits {
            self.await_other();
            return Ok(Recv::End);
        }
        if self.other().load(Ordering::SeqCst) == 1 {
            return Ok(Recv::End);
        }
        if self.looks >= LOOKS {
            self.give_up();
            return Ok(Recv::End);
        }
        self.looks = self.looks.saturating_add(1);
        thread::yield_now();
        Ok(Recv::Quiet)
    }

    fn send<R: Wait>(&mut self, _rt: &R, _alloc: Global, text: &str) -> Result<(), WireFault> {
        self.has_call();
        self.sent = self.sent.saturating_add(1);
        if text.starts_with(SUCCESS) {
            self.own().store(1, Ordering::SeqCst);
        }
        Ok(())
    }

    fn is_free<R: Wait>(&mut self, _rt: &R) -> bool {
        self.asked = self.asked.saturating_add(1);
        self.asked > BUSY
    }

    fn is_handed_on<R: Wait>(&mut self, _rt: &R) -> bool {
        self.pair.handed_on.fetch_add(1, Ordering::SeqCst);
        self.left = self.left.saturating_add(1);
        self.left > BUSY
    }
}

// A front that gives two of them.
#[derive(Drop)]
struct TwoPatient<'a> {
    pair: &'a Pair,
    wait: bool,
    given: u64,
    nones: u64,
}

impl<'a> Model for TwoPatient<'a> {
    ghost use Rattle.std.specs.Prelude.{None};
    ghost use Rattle.fluid_front.specs.Fronts.{Fronting};

    ghost Value = { Fronting };

    ghost view = { λ f. record { left = None; given = f.given; nones = f.nones; faults = 0 } };
}

impl<'a> Front for TwoPatient<'a> {
    type W = Patient<'a>;

    type S = MemoryStation<Patient<'a>>;

    type B = MemoryBell;

    ghost seen = { λ f. f };

    fn listen<R: Wait>(&mut self, _rt: &R, port: u16, lines: bool) -> Result<(), Failed> {
        let place = u64::from(port) * 2 + u64::from(lines);
        self.pair.listened.store(place, Ordering::SeqCst);
        Ok(())
    }

    fn accept<R: Wait>(
        &mut self,
        _rt: &R,
        _alloc: Global,
    ) -> Result<Option<Patient<'a>>, FrontFault> {
        if self.given >= 2 {
            self.nones = self.nones.saturating_add(1);
            return Ok(None);
        }
        let is_first = self.given == 0;
        self.given = self.given.saturating_add(1);
        Ok(Some(Patient {
            pair: self.pair,
            is_first,
            waits: self.wait,
            has_connected: false,
            looks: 0,
            sent: 0,
            asked: 0,
            left: 0,
        }))
    }

    fn station(&mut self, alloc: Global) -> Result<MemoryStation<Patient<'a>>, FrontFault> {
        Ok(MemoryStation::new(alloc)?)
    }
}

// Words, and where the front has to listen for them.
const BY_LINES: (&str, u64) = ("serve 0 --connections 2 --lines", 1);

const AT_A_PORT: (&str, u64) = ("serve 7070 --connections 2", 14_140);

#[test]
fn connections_run_beside_one_another(rt: HostRuntime) {
    let alloc = rt.alloc();
    runs_beside(&rt, alloc, BY_LINES, false, StationSpawner::new(1));
    runs_beside(&rt, alloc, AT_A_PORT, false, StationSpawner::new(2));
    // a wire that waits holds its thread
    runs_beside(&rt, alloc, BY_LINES, true, ThreadSpawner::new());
    runs_beside(&rt, alloc, AT_A_PORT, true, StationSpawner::new(2));
}

fn runs_beside<R, P>(rt: &R, alloc: Global, words: (&str, u64), wait: bool, spawner: P)
where
    R: Threads + Wait + Net + Sync + Abort,
    P: Spawner + Send + Drop,
{
    let pair = Pair {
        connected: [AtomicU64::new(0), AtomicU64::new(0)],
        given_up: AtomicU64::new(0),
        handed_on: AtomicU64::new(0),
        listened: AtomicU64::new(0),
    };
    let front = TwoPatient {
        pair: &pair,
        wait,
        given: 0,
        nones: 0,
    };
    let (words, place) = words;
    let status = serves(rt, alloc, words, front, spawner);
    assert!(rt; status == 0, "{status}");
    for connected in &pair.connected {
        assert!(rt; connected.load(Ordering::SeqCst) == 1);
    }
    assert!(rt; pair.given_up.load(Ordering::SeqCst) == 0);
    assert!(rt; pair.handed_on.load(Ordering::SeqCst) == 2 * (BUSY + 1));
    assert!(rt; pair.listened.load(Ordering::SeqCst) == place);
}
