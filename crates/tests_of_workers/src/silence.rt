//! Whoever is silent for too long, while his connection stands: taken for gone at the clock's moment, and not a millisecond sooner.

use crate::rounds::has_kept;
use crossbeam_channel::unbounded;
use fluid_hints::Bell;
use fluid_hosting::session;
use fluid_io::FixedClock;
use fluid_json::{NoMemory, Text};
use fluid_lane::Limits;
use fluid_lines::{Recv, Wire, WireFault};
use fluid_log::MemoryShelves;
use fluid_service::{Service, new_shelves_are_kept};
use fluid_store::MemoryObjects;
use fluid_types::DocName;
use fluid_worker::work;
use std::alloc::Global;
use std::marker::Model;
use std::process::Abort;
use std::sync::{Mutex, Wait};

const CONNECT: &str =
    r#"["connect_document",{"id":"d","mode":"write","scopes":["doc:read","doc:write"]}]"#;

// When the worker looks, and how many records are kept behind the session: its join at 7, the leave of one who was silent for more
// than 300,000 milliseconds, and the leave of the connection's end.
const MOMENTS: [(u32, usize); 3] = [(7, 2), (300_007, 2), (300_008, 3)];

#[test]
fn who_is_silent_for_more_than_five_minutes_is_taken_for_gone(rt: HostRuntime) {
    for (moment, records) in MOMENTS {
        keeps(&rt, rt.alloc(), moment, records);
    }
}

fn keeps<R: Wait + Abort>(rt: &R, alloc: Global, moment: u32, records: usize) {
    let shelves = MemoryShelves::new(alloc, Vec::new(alloc));
    new_shelves_are_kept(&shelves);
    let Ok(service) = Service::new(alloc, shelves, Limits::FULL) else {
        panic!(rt; "memory");
    };
    connect(rt, alloc, &service, moment);
    let shelves = service.close(rt);
    let name = DocName::read(alloc, "d").expect(rt, "a name");
    has_kept(rt, shelves.get(&name), records, 0);
    drop(name);
    drop(shelves);
}

fn connect<R: Wait>(rt: &R, alloc: Global, service: &Service<MemoryShelves>, moment: u32) {
    let mut wire = Silent {
        service,
        moment,
        has_connected: false,
        sent: 0,
    };
    let mut objects = MemoryObjects::new(alloc, Vec::new(alloc));
    let (report, key, visit) = session(
        rt,
        alloc,
        service,
        &mut objects,
        &mut wire,
        &FixedClock::new(7),
        service.key(),
        None,
    );
    drop(visit);
    drop(key);
    drop(report);
    drop(objects);
    drop(wire);
}

// A wire that connects, says nothing while the worker gets a hint, and ends. It counts what it is sent.
#[derive(Drop)]
struct Silent<'a> {
    service: &'a Service<MemoryShelves>,
    moment: u32,
    has_connected: bool,
    sent: u64,
}

impl<'a> Model for Silent<'a> {
    ghost use Rattle.std.specs.Prelude.{None};
    ghost use Rattle.fluid_lines.specs.Wires.{Wiring};

    ghost Value = { Wiring };

    ghost view = { λ _. record { history = None; texts = None; quiets = 0; faults = 0 } };
}

impl<'a> Wire for Silent<'a> {
    ghost seen = { λ w. w };

    fn recv<R: Wait>(&mut self, rt: &R, alloc: Global) -> Result<Recv, WireFault> {
        if !self.has_connected {
            self.has_connected = true;
            return Ok(Recv::Text(Text::copied(alloc, CONNECT)?));
        }
        work_once(rt, alloc, self.service, self.moment)?;
        Ok(Recv::End)
    }

    fn send<R: Wait>(&mut self, _rt: &R, _alloc: Global, _text: &str) -> Result<(), WireFault> {
        self.sent = self.sent.saturating_add(1);
        Ok(())
    }
}

// Runs a worker to which one hint is given, at this moment.
fn work_once<R: Wait>(
    rt: &R,
    alloc: Global,
    service: &Service<MemoryShelves>,
    moment: u32,
) -> Result<(), NoMemory> {
    let Ok((hints, hinted)) = unbounded(alloc) else {
        return Err(NoMemory);
    };
    let sent = hints.send(rt, ());
    drop(hints);
    if sent.is_err() {
        return Err(NoMemory);
    }
    let bell = Mutex::new(Bell::new());
    let mut objects = MemoryObjects::new(alloc, Vec::new(alloc));
    work(
        rt,
        alloc,
        service,
        &mut objects,
        &FixedClock::new(u64::from(moment)),
        &bell,
        &hinted,
    );
    Ok(())
}
