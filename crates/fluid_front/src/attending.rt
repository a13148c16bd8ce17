//! A few threads with a station each, and many jobs at each of them.
ghost use Rattle.std.specs.Prelude.{◌≡◌, ℕ, ◌<◌, IfOk, IfSome, length, true};

use crate::{Bell, FrontFault, Gate, Handler, Station};
use fluid_json::NoMemory;
use std::alloc::Global;
use std::collections::VecDeque;
use std::mem;
use std::sync::{Mutex, Wait};

/// Wires on their way to the thread that works on them.
#[derive(Drop)]
struct Arrivals<W> {
    // each with how many came before it
    wires: VecDeque<(u32, W)>,
    // no more come
    is_closed: bool,
}

/// Where a thread gets its wires, and what wakes it for one.
#[derive(Drop)]
pub(crate) struct Inbox<W, B> {
    alloc: Global,
    arrivals: Mutex<Arrivals<W>>,
    bell: B,
}

impl<W, B: Bell> Inbox<W, B> {
    pub(crate) fn new(alloc: Global, bell: B) -> Inbox<W, B> {
        Inbox {
            alloc,
            arrivals: Mutex::new(Arrivals {
                wires: VecDeque::new(alloc),
                is_closed: false,
            }),
            bell,
        }
    }

    /// Hands a wire on, before which the front gave so many. Where memory lacks it isn't handed on.
    pub(crate) fn put<R: Wait>(&self, rt: &R, before: u32, wire: W) -> Result<(), NoMemory>
    where
        W: Drop,
    {
        self.arrivals.lock(rt).wires.push_back((before, wire))?;
        self.bell.ring();
        Ok(())
    }

    /// No more wires come.
    pub(crate) fn close<R: Wait>(&self, rt: &R) {
        self.arrivals.lock(rt).is_closed = true;
        self.bell.ring();
    }

    // What has come, and whether more may come.
    fn take<R: Wait>(&self, rt: &R) -> (VecDeque<(u32, W)>, bool) {
        let mut arrivals = self.arrivals.lock(rt);
        let wires = mem::replace(&mut arrivals.wires, VecDeque::new(self.alloc));
        (wires, arrivals.is_closed)
    }
}

// The jobs of one thread, by their places.
#[derive(Drop)]
struct Jobs<J> {
    jobs: Vec<Option<J>>,
    free: Vec<usize>,
    count: usize,
}

impl<J: Drop> Jobs<J> {
    fn new(alloc: Global) -> Jobs<J> {
        Jobs {
            jobs: Vec::new(alloc),
            free: Vec::new(alloc),
            count: 0,
        }
    }

    // A place for one more.
    fn place(&mut self) -> Result<usize, NoMemory>
        ensures { IfOk result (λ place. place < length self.new.jobs.items) }
    {
        if let Some(place) = self.free.pop() {
            if place < self.jobs.len() {
                return Ok(place);
            }
        }
        let place = self.jobs.len();
        self.free.reserve(place.saturating_add(1))?;
        self.jobs.push(None)?;
        Ok(place)
    }

    fn put(&mut self, place: usize, job: J)
        requires { place < length self.old.jobs.items }
    {
        self.jobs[place] = Some(job);
        self.count = self.count.saturating_add(1);
    }

    // There is no job at this place any more.
    fn leave(&mut self, place: usize) {
        self.count = self.count.saturating_sub(1);
        self.release(place);
    }

    // Nobody has this place.
    fn release(&mut self, place: usize) {
        let _ = self.free.push(place);
    }
}

/// Works on the wires that come into an inbox, each with a job of its own, until no more come and all jobs have ended.
pub(crate) fn attend<R, W, B, S, H, G>(
    rt: &R,
    alloc: Global,
    station: S,
    inbox: &Inbox<W, B>,
    handler: &H,
    gate: &G,
)
where
    R: Wait,
    W: Drop,
    B: Bell,
    S: Station<W, B> + Drop,
    H: Handler<W>,
    H::Job: Drop,
    G: Gate,
{
    let mut station = station;
    let mut jobs = Jobs::new(alloc);
    for _ in rt.forever() {
        let is_closed = welcome(rt, &mut station, &mut jobs, inbox, handler, gate);
        if is_closed && jobs.count == 0 {
            return;
        }
        station.wait(rt);
        for _ in rt.forever() {
            let Some(place) = station.due() else {
                break;
            };
            cycle::<R, W, B, S, H>(rt, &mut station, &mut jobs, handler, place);
        }
    }
}

// Begins a job for each wire that has come, and says whether no more come.
fn welcome<R, W, B, S, H, G>(
    rt: &R,
    station: &mut S,
    jobs: &mut Jobs<H::Job>,
    inbox: &Inbox<W, B>,
    handler: &H,
    gate: &G,
) -> bool
where
    R: Wait,
    W: Drop,
    B: Bell,
    S: Station<W, B>,
    H: Handler<W>,
    H::Job: Drop,
    G: Gate,
{
    let (wires, is_closed) = inbox.take(rt);
    for (before, wire) in wires {
        let number = u64::from(before) + 1;
        gate.at(rt, number);
        begin::<R, W, B, S, H>(rt, station, jobs, handler, number, wire);
    }
    is_closed
}

// Begins the job of a wire. One that the station can't wait for has all of its steps at once.
fn begin<R, W, B, S, H>(
    rt: &R,
    station: &mut S,
    jobs: &mut Jobs<H::Job>,
    handler: &H,
    number: u64,
    wire: W,
)
where
    R: Wait,
    W: Drop,
    S: Station<W, B>,
    H: Handler<W>,
    H::Job: Drop,
    requires { 0 < number }
{
    let mut wire = wire;
    match admit::<R, W, B, S, H::Job>(rt, station, jobs, &mut wire) {
        Ok(place) => {
            let job = handler.begin(rt, number, wire);
            jobs.put(place, job);
        }
        Err(_) => handler.handle(rt, number, wire),
    }
}

// A place for a wire, at which the station waits for it.
fn admit<R, W, B, S, J>(
    rt: &R,
    station: &mut S,
    jobs: &mut Jobs<J>,
    wire: &mut W,
) -> Result<usize, FrontFault>
where
    R: Wait,
    S: Station<W, B>,
    J: Drop,
    ensures { IfOk result (λ place. place < length jobs.new.jobs.items) }
{
    let place = jobs.place()?;
    match station.add(rt, place, wire) {
        Ok(()) => Ok(place),
        Err(fault) => {
            jobs.release(place);
            Err(fault)
        }
    }
}

// The job of this place has one step, and ends where it was its last.
fn cycle<R, W, B, S, H>(rt: &R, station: &mut S, jobs: &mut Jobs<H::Job>, handler: &H, place: usize)
where
    R: Wait,
    S: Station<W, B>,
    H: Handler<W>,
    H::Job: Drop,
{
    let Some(seat) = jobs.jobs.get_mut(place) else {
        return;
    };
    match step::<R, W, H>(rt, handler, seat) {
        Some(job) => {
            station.remove(place);
            jobs.leave(place);
            handler.end(rt, job);
        }
        None => station.cycled(place),
    }
}

// One step of a job, which comes out of its seat where it was the last.
fn step<R, W, H>(rt: &R, handler: &H, seat: &mut Option<H::Job>) -> Option<H::Job>
where
    R: Wait,
    H: Handler<W>,
    ensures { IfSome result (λ job. H.is_over job ≡ true) }
{
    match seat {
        Some(job) => {
            if handler.cycle(rt, job) {
                return None;
            }
        }
        None => return None,
    }
    seat.take()
}
