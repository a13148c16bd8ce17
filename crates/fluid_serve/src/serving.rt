//! The two parts of `serve`, and how they end.

ghost use Rattle.fluid_front.specs.Serving.{Refuses, Serves};
ghost use Rattle.fluid_serve.specs.Desks.{AreReady, ShelvesComeBack};
ghost use Rattle.fluid_service.specs.Closing.{Closes};

use crate::desk::Desk;
use crate::sessions::Sessions;
use crossbeam_channel::{Receiver, Sender, unbounded};
use fluid_front::{Front, FrontEnd, OpenGate, Spawner};
use fluid_hints::Bell;
use fluid_io::Clock;
use fluid_lane::Limits;
use fluid_locked::LockedObjects;
use fluid_log::Shelves;
use fluid_service::Service;
use fluid_store::Objects;
use fluid_worker::work;
use std::alloc::Global;
use std::sync::{Mutex, Wait};
use std::thread;
use std::thread::Threads;

/// Listens at a port of the front, and serves so many of its wires, each with a session in a job of its own. Beside them runs a worker,
/// which answers summaries and takes out whoever is silent for too long. The end is the one of the sessions, or that the front couldn't
/// listen, or that memory was wanting before anything was done.
pub fn serve<R, B, O, C, F, P>(
    rt: &R,
    alloc: Global,
    desk: Desk<B, O, C>,
    front: F,
    spawner: P,
    port: u16,
    connections: u32,
    lines: bool,
) -> (FrontEnd, Desk<B, O, C>, F, P)
where
    R: Threads + Wait + Sync,
    B: Shelves + Send + Drop,
    B::K: Send + Drop,
    O: Objects + Send + Drop,
    C: Clock + Sync + Drop,
    F: Front + Send + Drop,
    F::W: Send + Drop,
    F::S: Send + Drop,
    F::B: Send + Sync + Drop,
    P: Spawner + Send + Drop,
    requires { AreReady B.K.seen (B.seen desk.shelves) }
    ensures front { Serves connections (F.seen front) (F.seen result.2) result.0 }
    ensures refusals { Refuses (P.refusals spawner) (P.refusals result.3) result.0 }
    ensures shelves { ShelvesComeBack (B.seen desk.shelves) (B.seen result.1.shelves) }
{
    let Desk {
        shelves,
        objects,
        clock,
    } = desk;
    let (end, shelves, objects, front, spawner) = match Service::new(alloc, shelves, Limits::FULL) {
        Ok(service) => serve_over(
            rt,
            alloc,
            service,
            objects,
            &clock,
            front,
            spawner,
            port,
            connections,
            lines,
        ),
        Err((shelves, _)) => (FrontEnd::NoMemory, shelves, objects, front, spawner),
    };
    let desk = Desk {
        shelves,
        objects,
        clock,
    };
    (end, desk, front, spawner)
}

// The same over a service in which no document is open, which it closes.
fn serve_over<R, B, O, C, F, P>(
    rt: &R,
    alloc: Global,
    service: Service<B>,
    objects: O,
    clock: &C,
    front: F,
    spawner: P,
    port: u16,
    connections: u32,
    lines: bool,
) -> (FrontEnd, B, O, F, P)
where
    R: Threads + Wait + Sync,
    B: Shelves + Send + Drop,
    B::K: Send + Drop,
    O: Objects + Send + Drop,
    C: Clock + Sync + Drop,
    F: Front + Send + Drop,
    F::W: Send + Drop,
    F::S: Send + Drop,
    F::B: Send + Sync + Drop,
    P: Spawner + Send + Drop,
    ensures front { Serves connections (F.seen front) (F.seen result.3) result.0 }
    ensures refusals { Refuses (P.refusals spawner) (P.refusals result.4) result.0 }
    ensures shelves { Closes service (B.seen result.1) }
{
    let mut front = front;
    let Ok((hints, hinted)) = unbounded(alloc) else {
        return (
            FrontEnd::NoMemory,
            service.close(rt),
            objects,
            front,
            spawner,
        );
    };
    if front.listen(rt, port, lines).is_err() {
        return (
            FrontEnd::FrontFailed,
            service.close(rt),
            objects,
            front,
            spawner,
        );
    }
    let objects = Mutex::new(objects);
    let (end, front, spawner) = run_both(
        rt,
        alloc,
        &service,
        &objects,
        clock,
        front,
        spawner,
        connections,
        hints,
        hinted,
    );
    let shelves = service.close(rt);
    (end, shelves, objects.into_inner(), front, spawner)
}

// The sessions, and the worker beside them, which ends when they have.
fn run_both<R, B, O, C, F, P>(
    rt: &R,
    alloc: Global,
    service: &Service<B>,
    objects: &Mutex<O>,
    clock: &C,
    front: F,
    spawner: P,
    connections: u32,
    hints: Sender<()>,
    hinted: Receiver<()>,
) -> (FrontEnd, F, P)
where
    R: Threads + Wait + Sync,
    B: Shelves + Send + Drop,
    B::K: Send + Drop,
    O: Objects + Send + Drop,
    C: Clock + Sync + Drop,
    F: Front + Send + Drop,
    F::W: Send + Drop,
    F::S: Send + Drop,
    F::B: Send + Sync + Drop,
    P: Spawner + Send + Drop,
    ensures front { Serves connections (F.seen front) (F.seen result.1) result.0 }
    ensures refusals { Refuses (P.refusals spawner) (P.refusals result.2) result.0 }
{
    let bell = Mutex::new(Bell::new());
    let bell = &bell;
    let (served, ()) = thread::join(
        rt,
        move || -> (FrontEnd, F, P)
            ensures front { Serves connections (F.seen front) (F.seen result.1) result.0 }
            ensures refusals { Refuses (P.refusals spawner) (P.refusals result.2) result.0 }
        {
            let mut spawner = spawner;
            let sessions = Sessions {
                alloc,
                service,
                objects,
                clock,
                bell,
                hints: &hints,
            };
            let (end, front) = spawner.serve_all(
                rt,
                alloc,
                front,
                &sessions,
                &OpenGate,
                connections,
            );
            (end, front, spawner)
        },
        move || {
            let mut objects = LockedObjects::new(rt, objects);
            work(rt, alloc, service, &mut objects, clock, bell, &hinted);
        },
    );
    served
}
