//! How the wires of a front are served: one job for each.
ghost use Rattle.std.specs.Prelude.{◌≡◌, ℕ, ◌+◌, ◌-◌, ◌*◌, ◌^◌, ◌<◌, ◌≤◌, false};
ghost use Rattle.fluid_front.specs.Fronts.{CountsStay, GivesNothing};
ghost use Rattle.fluid_front.specs.Serving.{MayEnd, Refuses, Serves, in_threads, is_threaded};
ghost use Rattle.fluid_front.specs.declared.spawner.Way.{Way};

use crate::attending::{Inbox, attend};
use crate::{Bell, Front, FrontFault, Gate, Handler, Station};
use fluid_json::NoMemory;
use std::alloc::Global;
use std::marker::{Model, PhantomData};
use std::sync::{Arc, Wait};
use std::thread;
use std::thread::Threads;

/// How the work on a front ended. A number counts wires.
#[derive(Clone, Copy, Debug, PartialEq, Eq)]
pub enum FrontEnd {
    /// So many wires were served: as many as were asked for, or all that the front gave.
    Done(u64),
    FrontFailed,
    /// The job of this wire wasn't started: no thread for it, or no station.
    SpawnRefused(u64),
    NoMemory,
}

/// How `serve_all` of a spawner of this type ended. Nothing else can make one, and one of another type can't be handed on,
/// so that nothing else can tell a spawner of a refusal.
#[derive(Drop)]
pub struct Ended<S> {
    end: FrontEnd,
    of: PhantomData<S>,
}

impl<S> Model for Ended<S> {
    ghost use Rattle.fluid_front.specs.declared.spawner.FrontEnd.{FrontEnd};

    ghost Value = { FrontEnd };

    ghost view = { λ e. e.end };
}

impl<S> Ended<S> {
    fn with(end: FrontEnd) -> Ended<S>
        ensures { result ≡ end }
    {
        Ended {
            end,
            of: PhantomData,
        }
    }

    /// How it ended.
    pub fn end(&self) -> FrontEnd
        ensures { result ≡ self.now }
    {
        self.end
    }
}

/// How jobs run.
#[derive(Clone, Copy, Debug, PartialEq, Eq)]
pub enum Way {
    /// Each at its place, one behind the other. None is refused.
    Here,
    /// Each in a thread of its own, of which one call of `serve_all` starts so many at most.
    InThreads(u32),
    /// In so many threads at most, each with a station at which it works on many of them.
    AtStations(u32),
}

/// Serves wires in jobs: each at its place, each in a thread, or many in each of a few threads.
pub trait Spawner: Sized {
    /// How often a job couldn't be started.
    ghost refusals: { Self → ℕ };

    /// What `way` answers. That `serve_all` goes by it is by its code.
    ghost runs: { Self → Way };

    /// How its jobs run.
    fn way(&self) -> Way
        ensures { result ≡ runs self.now };

    /// Counts a refusal, where the work on a front ended by one. `serve_all` calls it at its end.
    fn note_end(&mut self, ended: &Ended<Self>)
        requires { MayEnd (is_threaded (runs self.old)) ended.now }
        ensures refusals { Refuses (refusals self.old) (refusals self.new) ended.now }
        ensures runs { runs self.new ≡ runs self.old };

    /// Gives each wire that the front gives to a job of its own, numbered from 1 in that order: the job passes the
    /// gate, and then the handler works on the wire. At most `connections` wires are served. All jobs have ended
    /// when it answers, and the front comes back in every case.
    final fn serve_all<R, F, H, G>(
        &mut self,
        rt: &R,
        alloc: Global,
        front: F,
        handler: &H,
        gate: &G,
        connections: u32,
    ) -> (FrontEnd, F)
    where
        R: Threads + Wait + Sync,
        F: Front + Send + Drop,
        F::W: Send + Drop,
        F::S: Send + Drop,
        F::B: Send + Sync + Drop,
        H: Handler<F::W> + Sync,
        H::Job: Send + Drop,
        G: Gate + Sync,
        ensures front { Serves connections (F.seen front) (F.seen result.1) result.0 }
        ensures refusals { Refuses (refusals self.old) (refusals self.new) result.0 }
        ensures runs { runs self.new ≡ runs self.old }
    {
        let (end, front) = match self.way() {
            Way::Here => serve_here(rt, alloc, front, handler, gate, connections),
            Way::InThreads(most) => {
                serve_in_threads(rt, alloc, front, handler, gate, connections, most)
            }
            Way::AtStations(most) => {
                serve_at_stations(rt, alloc, front, handler, gate, connections, most)
            }
        };
        self.note_end(&Ended::with(end));
        (end, front)
    }
}

/// Runs each job at its place, one after the other.
#[derive(Drop)]
pub struct HereSpawner;

impl Spawner for HereSpawner {
    ghost use Rattle.fluid_front.specs.declared.spawner.Way.TheVariants.{Here};

    ghost refusals = { λ _. 0 };

    ghost runs = { λ _. Here };

    fn way(&self) -> Way {
        Way::Here
    }

    fn note_end(&mut self, _ended: &Ended<HereSpawner>) {}
}

/// Runs the jobs as threads of one scope.
#[derive(Drop)]
pub struct ThreadSpawner {
    most: u32,
    refusals: u64,
}

impl Model for ThreadSpawner {
    ghost use Rattle.fluid_front.specs.Serving.{Spawning};

    ghost Value = { Spawning };

    ghost view = { λ s. record { most = s.most; refusals = s.refusals } };
}

impl ThreadSpawner {
    /// No job was refused. A call of `serve_all` starts 2^32 - 1 threads at most.
    pub fn new() -> ThreadSpawner
        ensures { result ≡ in_threads (2 ^ 32 - 1) }
    {
        ThreadSpawner::at_most(u32::MAX)
    }

    /// No job was refused. A call of `serve_all` starts so many threads, and the job behind them is refused.
    pub fn at_most(threads: u32) -> ThreadSpawner
        ensures { result ≡ in_threads threads }
    {
        ThreadSpawner {
            most: threads,
            refusals: 0,
        }
    }
}

impl Spawner for ThreadSpawner {
    ghost use Rattle.fluid_front.specs.declared.spawner.Way.TheVariants.{InThreads};

    ghost refusals = { λ spawning. spawning.refusals };

    ghost runs = { λ spawning. InThreads spawning.most };

    fn way(&self) -> Way {
        Way::InThreads(self.most)
    }

    fn note_end(&mut self, ended: &Ended<ThreadSpawner>) {
        if let FrontEnd::SpawnRefused(_) = ended.end() {
            self.refusals = self.refusals.saturating_add(1);
        }
    }
}

/// Runs the jobs at stations, in a few threads of one scope.
#[derive(Drop)]
pub struct StationSpawner {
    most: u32,
    refusals: u64,
}

impl Model for StationSpawner {
    ghost use Rattle.fluid_front.specs.Serving.{Spawning};

    ghost Value = { Spawning };

    ghost view = { λ s. record { most = s.most; refusals = s.refusals } };
}

impl StationSpawner {
    /// No job was refused. A call of `serve_all` starts so many threads at most, and refuses the first job where it can start none.
    pub fn new(threads: u32) -> StationSpawner
        ensures { result ≡ in_threads threads }
    {
        StationSpawner {
            most: threads,
            refusals: 0,
        }
    }
}

impl Spawner for StationSpawner {
    ghost use Rattle.fluid_front.specs.declared.spawner.Way.TheVariants.{AtStations};

    ghost refusals = { λ spawning. spawning.refusals };

    ghost runs = { λ spawning. AtStations spawning.most };

    fn way(&self) -> Way {
        Way::AtStations(self.most)
    }

    fn note_end(&mut self, ended: &Ended<StationSpawner>) {
        if let FrontEnd::SpawnRefused(_) = ended.end() {
            self.refusals = self.refusals.saturating_add(1);
        }
    }
}

// Serves the wires one after the other.
fn serve_here<R, F, H, G>(
    rt: &R,
    alloc: Global,
    front: F,
    handler: &H,
    gate: &G,
    connections: u32,
) -> (FrontEnd, F)
where
    R: Wait,
    F: Front,
    H: Handler<F::W>,
    G: Gate,
    ensures front { Serves connections (F.seen front) (F.seen result.1) result.0 }
    ensures started { MayEnd false result.0 }
{
    let mut front = front;
    for served in 0..connections {
        let number = u64::from(served) + 1;
        match front.accept(rt, alloc) {
            Ok(Some(wire)) => job(rt, handler, gate, number, wire),
            Ok(None) => return (FrontEnd::Done(u64::from(served)), front),
            Err(FrontFault::Failed) => return (FrontEnd::FrontFailed, front),
            Err(FrontFault::NoMemory) => return (FrontEnd::NoMemory, front),
        }
    }
    (FrontEnd::Done(u64::from(connections)), front)
}

// Serves the wires in threads of one scope, at most so many, which owns the front and gives it back when all threads have
// ended.
fn serve_in_threads<R, F, H, G>(
    rt: &R,
    alloc: Global,
    front: F,
    handler: &H,
    gate: &G,
    connections: u32,
    most: u32,
) -> (FrontEnd, F)
where
    R: Threads + Wait + Sync,
    F: Front + Drop,
    F::W: Send + Drop,
    H: Handler<F::W> + Sync,
    G: Gate + Sync,
    ensures { Serves connections (F.seen front) (F.seen result.1) result.0 }
{
    thread::scope(
        thread::scope_env(),
        rt,
        move |scope| -> (FrontEnd, F)
            ensures { Serves connections (F.seen front) (F.seen result.1) result.0 }
        {
            let mut front = front;
            for served in 0..connections {
                let number = u64::from(served) + 1;
                match front.accept(rt, alloc) {
                    Ok(Some(wire)) => {
                        if served >= most {
                            return (FrontEnd::SpawnRefused(number), front);
                        }
                        if scope
                            .spawn(move || job(rt, handler, gate, number, wire))
                            .is_err()
                        {
                            return (FrontEnd::SpawnRefused(number), front);
                        }
                    }
                    Ok(None) => return (FrontEnd::Done(u64::from(served)), front),
                    Err(FrontFault::Failed) => return (FrontEnd::FrontFailed, front),
                    Err(FrontFault::NoMemory) => return (FrontEnd::NoMemory, front),
                }
            }
            (FrontEnd::Done(u64::from(connections)), front)
        },
    )
}

// The work on one wire.
fn job<R, W, H, G>(rt: &R, handler: &H, gate: &G, number: u64, wire: W)
where
    R: Wait,
    H: Handler<W>,
    G: Gate,
    requires { 0 < number }
{
    gate.at(rt, number);
    handler.handle(rt, number, wire);
}

// Serves the wires at stations, in at most so many threads of one scope, which owns the front and gives it back when all
// threads have ended.
fn serve_at_stations<R, F, H, G>(
    rt: &R,
    alloc: Global,
    front: F,
    handler: &H,
    gate: &G,
    connections: u32,
    most: u32,
) -> (FrontEnd, F)
where
    R: Threads + Wait + Sync,
    F: Front + Send + Drop,
    F::W: Send + Drop,
    F::S: Send + Drop,
    F::B: Send + Sync + Drop,
    H: Handler<F::W> + Sync,
    H::Job: Send + Drop,
    G: Gate + Sync,
    ensures { Serves connections (F.seen front) (F.seen result.1) result.0 }
{
    let mut front = front;
    let Ok((desks, inboxes)) = open_desks(alloc, &mut front, most) else {
        return (FrontEnd::NoMemory, front);
    };
    thread::scope(
        thread::scope_env(),
        rt,
        move |scope| -> (FrontEnd, F)
            ensures { Serves connections (F.seen front) (F.seen result.1) result.0 }
        {
            let mut started = 0usize;
            for desk in desks {
                let Desk { station, inbox } = desk;
                if scope
                    .spawn(move || attend(rt, alloc, station, &*inbox, handler, gate))
                    .is_err()
                {
                    break;
                }
                started = started.saturating_add(1);
            }
            let mut front = front;
            let attended = inboxes.get(..started).unwrap_or(&[]);
            let end = hand_out(rt, alloc, &mut front, attended, connections);
            close_all(rt, inboxes.as_slice());
            (end, front)
        },
    )
}

// A station, and where its thread gets its wires.
#[derive(Drop)]
struct Desk<S, W, B> {
    station: S,
    inbox: Arc<Inbox<W, B>>,
}

// The stations of a front, in their order, and their inboxes once more.
type Desks<S, W, B> = (Vec<Desk<S, W, B>>, Vec<Arc<Inbox<W, B>>>);

// So many stations of a front at most. It has no memory where there was none for the first of them.
fn open_desks<F>(
    alloc: Global,
    front: &mut F,
    most: u32,
) -> Result<Desks<F::S, F::W, F::B>, NoMemory>
where
    F: Front,
    F::W: Drop,
    F::S: Drop,
    F::B: Drop,
    ensures counts { CountsStay (F.seen front.old) (F.seen front.new) }
    ensures same { GivesNothing (F.seen front.old) (F.seen front.new) }
{
    let mut desks = Vec::new(alloc);
    let mut inboxes = Vec::new(alloc);
    for _ in 0..most {
        match open_desk(alloc, front, &mut desks, &mut inboxes) {
            Ok(()) => {}
            Err(FrontFault::NoMemory) if desks.is_empty() => return Err(NoMemory),
            Err(_) => break,
        }
    }
    Ok((desks, inboxes))
}

fn open_desk<F>(
    alloc: Global,
    front: &mut F,
    desks: &mut Vec<Desk<F::S, F::W, F::B>>,
    inboxes: &mut Vec<Arc<Inbox<F::W, F::B>>>,
) -> Result<(), FrontFault>
where
    F: Front,
    F::W: Drop,
    F::S: Drop,
    F::B: Drop,
    ensures counts { CountsStay (F.seen front.old) (F.seen front.new) }
    ensures same { GivesNothing (F.seen front.old) (F.seen front.new) }
{
    let station = front.station(alloc)?;
    let bell = station.bell()?;
    let inbox = Arc::new(alloc, Inbox::new(alloc, bell))?;
    inboxes.push(inbox.clone()?)?;
    desks.push(Desk { station, inbox })?;
    Ok(())
}

fn close_all<R: Wait, W, B: Bell>(rt: &R, inboxes: &[Arc<Inbox<W, B>>]) {
    for inbox in inboxes {
        inbox.close(rt);
    }
}

// Hands the wires of a front to inboxes, one behind the other.
fn hand_out<R, F, B>(
    rt: &R,
    alloc: Global,
    front: &mut F,
    inboxes: &[Arc<Inbox<F::W, B>>],
    connections: u32,
) -> FrontEnd
where
    R: Wait,
    F: Front,
    F::W: Drop,
    B: Bell,
    ensures { Serves connections (F.seen front.old) (F.seen front.new) result }
{
    let mut next = 0;
    for served in 0..connections {
        let number = u64::from(served) + 1;
        match front.accept(rt, alloc) {
            Ok(Some(wire)) => {
                if next >= inboxes.len() {
                    next = 0;
                }
                let Some(inbox) = inboxes.get(next) else {
                    return FrontEnd::SpawnRefused(number);
                };
                next += 1;
                if inbox.put(rt, served, wire).is_err() {
                    return FrontEnd::NoMemory;
                }
            }
            Ok(None) => return FrontEnd::Done(u64::from(served)),
            Err(FrontFault::Failed) => return FrontEnd::FrontFailed,
            Err(FrontFault::NoMemory) => return FrontEnd::NoMemory,
        }
    }
    FrontEnd::Done(u64::from(connections))
}
