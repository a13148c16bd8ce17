use fluid_front::{
    Front, FrontEnd, FrontFault, Gate, Handler, HereSpawner, MemoryBell, MemoryFront,
    MemoryStation, OpenGate, Spawner, Station, StationSpawner, ThreadSpawner,
};
use fluid_io::Failed;
use fluid_json::{NoMemory, Text};
use fluid_lines::{MemoryWire, Recv, Wire, WireScript};
use std::alloc::Global;
use std::collections::VecDeque;
use std::marker::Model;
use std::process::Abort;
use std::sync::atomic::{AtomicU64, Ordering};
use std::sync::{Mutex, Wait};
use std::test::Fail;
use std::thread;
use std::thread::Threads;

// Which receives of the first wires are quiet, so that their jobs end one after another in any order of steps.
const QUIET: [&[u64]; 3] = [&[1, 3], &[], &[1, 2, 3, 5, 6]];

// A front with a wire for each text, on which this text comes in.
fn front_of(
    alloc: Global,
    texts: &[&str],
    failing: &[u64],
) -> Result<MemoryFront<MemoryWire>, Fail> {
    let mut wires = VecDeque::new(alloc);
    for (text, quiet) in texts.iter().zip(QUIET) {
        let mut incoming = VecDeque::new(alloc);
        incoming.push_back(Text::copied(alloc, text)?)?;
        let script = WireScript {
            texts: incoming,
            failing_receives: Vec::new(alloc),
            failing_sends: Vec::new(alloc),
            quiet_receives: Vec::from_slice(alloc, quiet)?,
        };
        wires.push_back(MemoryWire::new(alloc, script))?;
    }
    Ok(MemoryFront::new(wires, Vec::from_slice(alloc, failing)?))
}

// Notes each wire's number with each text that came in on it, and a full stop for each job that ended.
#[derive(Drop)]
struct Notes {
    alloc: Global,
    notes: Mutex<String>,
    second: AtomicU64,
}

impl Notes {
    fn new(alloc: Global) -> Notes {
        Notes {
            alloc,
            notes: Mutex::new(String::new(alloc)),
            second: AtomicU64::new(0),
        }
    }

    fn note<R: Wait>(&self, rt: &R, number: u64, word: &str) {
        if let Ok(note) = format!(in self.alloc; "{number}{word} ") {
            let _ = self.notes.lock(rt).push_str(note.as_str());
        }
    }

    fn told<R: Wait>(&self, rt: &R) -> Result<String, Fail> {
        Ok(self.notes.lock(rt).clone()?)
    }
}

impl Handler<MemoryWire> for Notes {
    ghost use Rattle.std.specs.Prelude.{true};

    type Job = (u64, MemoryWire);

    ghost is_over = { λ _. true };

    fn begin<R: Wait>(&self, _rt: &R, number: u64, wire: MemoryWire) -> (u64, MemoryWire) {
        (number, wire)
    }

    fn cycle<R: Wait>(&self, rt: &R, job: &mut (u64, MemoryWire)) -> bool {
        let number = job.0;
        match job.1.recv(rt, self.alloc) {
            Ok(Recv::Text(text)) => {
                self.note(rt, number, text.as_str());
                true
            }
            Ok(Recv::Quiet) => true,
            _ => false,
        }
    }

    fn end<R: Wait>(&self, rt: &R, job: (u64, MemoryWire)) {
        let number = job.0;
        drop(job);
        self.note(rt, number, ".");
        if number == 2 {
            self.second.store(1, Ordering::SeqCst);
        }
    }
}

#[test]
fn wires_are_numbered_from_one_in_their_order(rt: HostRuntime) -> Result<(), Fail> {
    let alloc = rt.alloc();
    let rows: [(u32, &[u64], FrontEnd, &str); 7] = [
        (5, &[], FrontEnd::Done(3), "1a 1. 2b 2. 3c 3. "),
        (3, &[], FrontEnd::Done(3), "1a 1. 2b 2. 3c 3. "),
        (2, &[], FrontEnd::Done(2), "1a 1. 2b 2. "),
        (0, &[], FrontEnd::Done(0), ""),
        (5, &[1], FrontEnd::FrontFailed, ""),
        (5, &[3], FrontEnd::FrontFailed, "1a 1. 2b 2. "),
        (5, &[4], FrontEnd::FrontFailed, "1a 1. 2b 2. 3c 3. "),
    ];
    for (connections, failing, end, want) in rows {
        let front = front_of(alloc, &["a", "b", "c"], failing)?;
        let notes = Notes::new(alloc);
        let (ended, _front) = HereSpawner.serve_all(
            &rt,
            alloc,
            front,
            &notes,
            &OpenGate,
            connections,
        );
        assert_eq!(rt; ended, end);
        assert_eq!(rt; notes.told(&rt)?.as_str(), want);
    }
    Ok(())
}

#[test]
fn the_front_comes_back_with_what_it_has_left(rt: HostRuntime) -> Result<(), Fail> {
    let alloc = rt.alloc();
    let mut front = front_of(alloc, &["a", "b", "c"], &[1])?;
    assert_eq!(rt; front.listen(&rt, 0, true).is_err(), true);
    assert_eq!(rt; front.listen(&rt, 0, true).is_ok(), true);
    let notes = Notes::new(alloc);
    let (ended, mut front) = ThreadSpawner::new().serve_all(
        &rt, alloc, front, &notes, &OpenGate, 2,
    );
    assert_eq!(rt; ended, FrontEnd::Done(2));
    assert_eq!(rt; notes.told(&rt)?.len(), "1a 1. 2b 2. ".len());
    match front.accept(&rt, alloc) {
        Ok(Some(wire)) => notes.handle(&rt, 3, wire),
        _ => assert!(rt; false, "a wire is left"),
    }
    match front.accept(&rt, alloc) {
        Ok(None) => {}
        _ => assert!(rt; false, "no wire is left"),
    }
    Ok(())
}

// Holds the first wire's job until the second wire was handled, and gives up after so many looks.
#[derive(Drop)]
struct HoldFirst<'a> {
    notes: &'a Notes,
    given_up: AtomicU64,
}

const LOOKS: u64 = 10_000_000;

impl Gate for HoldFirst<'_> {
    fn at<R: Wait>(&self, _rt: &R, number: u64) {
        if number != 1 {
            return;
        }
        for _ in 0..LOOKS {
            if self.notes.second.load(Ordering::SeqCst) == 1 {
                return;
            }
            thread::yield_now();
        }
        self.given_up.store(1, Ordering::SeqCst);
    }
}

// The second wire is served while the first one's job is held.
fn second_is_served_first<R: Threads + Wait + Sync + Abort, P: Spawner + Drop>(
    rt: &R,
    alloc: Global,
    front: MemoryFront<MemoryWire>,
    spawner: P,
) {
    let mut spawner = spawner;
    let notes = Notes::new(alloc);
    let gate = HoldFirst {
        notes: &notes,
        given_up: AtomicU64::new(0),
    };
    let (ended, _front) = spawner.serve_all(rt, alloc, front, &notes, &gate, 2);
    assert!(rt; ended == FrontEnd::Done(2));
    assert!(rt; gate.given_up.load(Ordering::SeqCst) == 0);
    assert!(rt; notes.notes.lock(rt).as_str() == "2b 2. 1a 1. ");
}

#[test]
fn wires_are_served_beside_one_another(rt: HostRuntime) -> Result<(), Fail> {
    let alloc = rt.alloc();
    let front = front_of(alloc, &["a", "b"], &[])?;
    second_is_served_first(&rt, alloc, front, ThreadSpawner::new());
    let front = front_of(alloc, &["a", "b"], &[])?;
    second_is_served_first(&rt, alloc, front, StationSpawner::new(2));
    Ok(())
}

#[test]
fn the_job_behind_the_most_threads_is_refused(rt: HostRuntime) -> Result<(), Fail> {
    let alloc = rt.alloc();
    let front = front_of(alloc, &["a", "b"], &[])?;
    let notes = Notes::new(alloc);
    let (ended, _front) = ThreadSpawner::at_most(1).serve_all(
        &rt, alloc, front, &notes, &OpenGate, 2,
    );
    assert_eq!(rt; ended, FrontEnd::SpawnRefused(2));
    assert_eq!(rt; notes.told(&rt)?.as_str(), "1a 1. ");
    Ok(())
}

// Whether both have the same words, in whatever order.
fn are_alike(told: &str, want: &str) -> bool {
    told.len() == want.len() && want.split(' ').all(|word| told.contains(word))
}

#[test]
fn a_few_threads_serve_many_wires(rt: HostRuntime) -> Result<(), Fail> {
    let alloc = rt.alloc();
    let rows: [(u32, u32, &[u64], FrontEnd, &str); 8] = [
        (1, 5, &[], FrontEnd::Done(3), "1a 1. 2b 2. 3c 3. "),
        (2, 5, &[], FrontEnd::Done(3), "1a 1. 2b 2. 3c 3. "),
        (9, 3, &[], FrontEnd::Done(3), "1a 1. 2b 2. 3c 3. "),
        (4, 2, &[], FrontEnd::Done(2), "1a 1. 2b 2. "),
        (2, 0, &[], FrontEnd::Done(0), ""),
        (2, 5, &[3], FrontEnd::FrontFailed, "1a 1. 2b 2. "),
        (0, 5, &[], FrontEnd::SpawnRefused(1), ""),
        (0, 0, &[], FrontEnd::Done(0), ""),
    ];
    for (threads, connections, failing, end, want) in rows {
        let front = front_of(alloc, &["a", "b", "c"], failing)?;
        let notes = Notes::new(alloc);
        let (ended, _front) = StationSpawner::new(threads).serve_all(
            &rt,
            alloc,
            front,
            &notes,
            &OpenGate,
            connections,
        );
        assert_eq!(rt; ended, end);
        assert!(rt;
            are_alike(notes.told(&rt)?.as_str(), want),
            "{threads} threads"
        );
    }
    Ok(())
}

// A station that can't wait for the first of its wires.
#[derive(Drop)]
struct Narrow {
    station: MemoryStation<MemoryWire>,
    refused: bool,
}

impl Station<MemoryWire, MemoryBell> for Narrow {
    fn bell(&self) -> Result<MemoryBell, NoMemory> {
        self.station.bell()
    }

    fn add<R: Wait>(
        &mut self,
        rt: &R,
        place: usize,
        wire: &mut MemoryWire,
    ) -> Result<(), FrontFault> {
        if !self.refused {
            self.refused = true;
            return Err(FrontFault::Failed);
        }
        self.station.add(rt, place, wire)
    }

    fn remove(&mut self, place: usize) {
        self.station.remove(place);
    }

    fn cycled(&mut self, place: usize) {
        self.station.cycled(place);
    }

    fn wait<R: Wait>(&mut self, rt: &R) {
        self.station.wait(rt);
    }

    fn due(&mut self) -> Option<usize> {
        self.station.due()
    }
}

// A front that has so many such stations, and fails so behind them. It counts its faults itself.
#[derive(Drop)]
struct NarrowFront {
    front: MemoryFront<MemoryWire>,
    stations: u64,
    fault: FrontFault,
    faults: u64,
}

impl Model for NarrowFront {
    ghost use Rattle.std.specs.Prelude.{Some};
    ghost use Rattle.fluid_front.specs.Fronts.{Fronting};

    ghost Value = { Fronting };

    ghost view = { λ f. record {
      left = Some f.front.left;
      given = f.front.given;
      nones = f.front.nones;
      faults = f.faults;
    } };
}

impl Front for NarrowFront {
    type W = MemoryWire;

    type S = Narrow;

    type B = MemoryBell;

    ghost seen = { λ f. f };

    fn listen<R: Wait>(&mut self, rt: &R, port: u16, lines: bool) -> Result<(), Failed> {
        match self.front.listen(rt, port, lines) {
            Ok(()) => Ok(()),
            Err(Failed) => {
                self.faults = self.faults.saturating_add(1);
                Err(Failed)
            }
        }
    }

    fn accept<R: Wait>(&mut self, rt: &R, alloc: Global) -> Result<Option<MemoryWire>, FrontFault> {
        match self.front.accept(rt, alloc) {
            Ok(given) => Ok(given),
            Err(FrontFault::NoMemory) => Err(FrontFault::NoMemory),
            Err(FrontFault::Failed) => {
                self.faults = self.faults.saturating_add(1);
                Err(FrontFault::Failed)
            }
        }
    }

    fn station(&mut self, alloc: Global) -> Result<Narrow, FrontFault> {
        if self.stations == 0 {
            if self.fault == FrontFault::Failed {
                self.faults = self.faults.saturating_add(1);
            }
            return Err(self.fault);
        }
        self.stations = self.stations.saturating_sub(1);
        Ok(Narrow {
            station: self.front.station(alloc)?,
            refused: false,
        })
    }
}

#[test]
fn a_wire_that_a_station_cannot_wait_for_has_its_job(rt: HostRuntime) -> Result<(), Fail> {
    let alloc = rt.alloc();
    let rows: [(u64, FrontFault, FrontEnd, &str); 4] = [
        (
            1,
            FrontFault::Failed,
            FrontEnd::Done(3),
            "1a 1. 2b 2. 3c 3. ",
        ),
        (
            1,
            FrontFault::NoMemory,
            FrontEnd::Done(3),
            "1a 1. 2b 2. 3c 3. ",
        ),
        (0, FrontFault::Failed, FrontEnd::SpawnRefused(1), ""),
        (0, FrontFault::NoMemory, FrontEnd::NoMemory, ""),
    ];
    for (stations, fault, end, want) in rows {
        let front = NarrowFront {
            front: front_of(alloc, &["a", "b", "c"], &[])?,
            stations,
            fault,
            faults: 0,
        };
        let notes = Notes::new(alloc);
        let (ended, _front) = StationSpawner::new(3).serve_all(
            &rt, alloc, front, &notes, &OpenGate, 5,
        );
        assert_eq!(rt; ended, end);
        assert!(rt; are_alike(notes.told(&rt)?.as_str(), want), "{stations}");
    }
    Ok(())
}
