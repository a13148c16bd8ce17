//! How operations are submitted: to a lane, and to the documents of a service from threads side by side.
use crate::operations::{Operation, client, is_sequenced, operations};
use fluid_json::Text;
use fluid_lane::{Lane, Limits};
use fluid_log::{Keeper, MemoryKeeper, MemoryShelves};
use fluid_service::{Service, Visit, new_shelves_are_kept};
use fluid_types::DocName;
use std::alloc::Global;
use std::sync::Wait;
use std::sync::atomic::{AtomicU64, Ordering};
use std::thread;
use std::thread::Threads;
use std::time::{Clock, Instant};

/// How many entries there are, and the microseconds of the submissions.
#[derive(Clone, Copy)]
pub(crate) struct Taken {
    pub(crate) entries: u64,
    pub(crate) micros: u64,
}

// The microseconds since then.
fn since(rt: &impl Clock, start: Instant) -> Option<u64> {
    let taken = start.elapsed(rt).ok()?;
    u64::try_from(taken.as_micros()).ok()
}

// ---- a lane that nobody shares

/// One client's operations on a lane over a keeper in memory.
pub(crate) fn submit_alone(rt: &impl Clock, alloc: Global, count: u64) -> Option<Taken> {
    let keeper = MemoryKeeper::new(alloc, Vec::new(alloc), Vec::new(alloc));
    let mut lane = Lane::start(alloc, keeper, Limits::FULL, 3).ok()?;
    join_lane(alloc, &mut lane)?;
    let operations = operations(alloc, "c0", count)?;
    let start = Instant::now(rt).ok()?;
    submit_to_lane(alloc, &mut lane, operations)?;
    let micros = since(rt, start)?;
    Some(Taken {
        entries: lane.entered(),
        micros,
    })
}

fn join_lane<K: Keeper>(alloc: Global, lane: &mut Lane<K>) -> Option<()> {
    let _number = lane.entered();
    let (scopes, detail) = client(alloc)?;
    match lane.join(alloc, scopes, detail, 4) {
        Ok(_joined) => Some(()),
        Err(_fault) => None,
    }
}

fn submit_to_lane<K: Keeper>(
    alloc: Global,
    lane: &mut Lane<K>,
    operations: Vec<Operation>,
) -> Option<()> {
    for operation in operations {
        if !is_sequenced(&lane.submit(alloc, operation.raw())) {
            return None;
        }
    }
    Some(())
}

// ---- documents that are shared

// What the threads tell one another: how many are ready, whether they are to begin, and how many were refused something.
#[derive(Drop)]
struct Course {
    ready: AtomicU64,
    begun: AtomicU64,
    refused: AtomicU64,
}

/// The operations of clients in threads of their own, each of whom has a visit of one of the documents.
pub(crate) fn submit_in_threads<R: Threads + Wait + Clock + Sync>(
    rt: &R,
    alloc: Global,
    threads: u64,
    documents: u64,
    count: u64,
) -> Option<Taken> {
    let shelves = MemoryShelves::new(alloc, Vec::new(alloc));
    new_shelves_are_kept(&shelves);
    let service = Service::new(alloc, shelves, Limits::FULL).ok()?;
    let visits = join_all(rt, alloc, &service, threads, documents)?;
    let course = Course {
        ready: AtomicU64::new(0),
        begun: AtomicU64::new(0),
        refused: AtomicU64::new(0),
    };
    let micros = run(rt, alloc, &course, visits, threads, count)?;
    if course.refused.load(Ordering::SeqCst) > 0 {
        return None;
    }
    let shelves = service.close(rt);
    Some(Taken {
        entries: count_all(alloc, &shelves, documents)?,
        micros,
    })
}

// The name of a document.
fn name_of(alloc: Global, number: u64) -> Option<DocName> {
    let text = format!(in alloc; "d{number}").ok()?;
    DocName::read(alloc, text.as_str()).ok()
}

// One who has joined a document, with the id.
#[derive(Drop)]
struct Joined {
    visit: Visit<MemoryKeeper>,
    id: Text,
}

// As many clients as threads, on the documents in turn.
fn join_all<R: Wait>(
    rt: &R,
    alloc: Global,
    service: &Service<MemoryShelves>,
    threads: u64,
    documents: u64,
) -> Option<Vec<Joined>> {
    let mut key = service.key();
    let mut all = Vec::new(alloc);
    for thread in 0..threads {
        let name = name_of(alloc, thread.checked_rem(documents)?)?;
        let (after, answer) = service.door(rt, alloc, key, &name, 3);
        key = after;
        let joined = join(rt, alloc, answer.ok()?)?;
        all.push(joined).ok()?;
    }
    Some(all)
}

fn join<R: Wait>(rt: &R, alloc: Global, visit: Visit<MemoryKeeper>) -> Option<Joined> {
    let (scopes, detail) = client(alloc)?;
    let (door, pass) = visit.into_parts();
    let (pass, answer) = door.join(rt, alloc, pass, scopes, detail, 4);
    let (id, _message) = answer.ok()?;
    let id = Text::copied(alloc, id.as_str()).ok()?;
    Some(Joined {
        visit: Visit::new(door, pass),
        id,
    })
}

// Lets the clients submit side by side, and gives the microseconds from their common begin to the last one's end.
fn run<R: Threads + Wait + Clock + Sync>(
    rt: &R,
    alloc: Global,
    course: &Course,
    clients: Vec<Joined>,
    threads: u64,
    count: u64,
) -> Option<u64> {
    let start = thread::scope(thread::scope_env(), rt, move |scope| {
        for client in clients {
            if scope
                .spawn(move || submit_all(rt, alloc, course, client, count))
                .is_err()
            {
                course.refused.store(1, Ordering::SeqCst);
                course.begun.store(1, Ordering::SeqCst);
                return None;
            }
        }
        wait_for(rt, &course.ready, threads);
        let start = Instant::now(rt).ok();
        course.begun.store(1, Ordering::SeqCst);
        start
    });
    since(rt, start?)
}

// Waits until a word has reached a number.
fn wait_for<R: Wait>(rt: &R, word: &AtomicU64, number: u64) {
    for _ in rt.forever() {
        if word.load(Ordering::SeqCst) >= number {
            return;
        }
        thread::yield_now();
    }
}

// What a thread does: it makes its operations, waits for the others, and submits.
fn submit_all<R: Wait>(rt: &R, alloc: Global, course: &Course, client: Joined, count: u64) {
    let operations = operations(alloc, client.id.as_str(), count);
    course.ready.fetch_add(1, Ordering::SeqCst);
    wait_for(rt, &course.begun, 1);
    let is_done = match operations {
        Some(operations) => submit_each(rt, alloc, client.visit, operations),
        None => false,
    };
    if !is_done {
        course.refused.store(1, Ordering::SeqCst);
    }
}

// Whether each was sequenced.
fn submit_each<R: Wait>(
    rt: &R,
    alloc: Global,
    visit: Visit<MemoryKeeper>,
    operations: Vec<Operation>,
) -> bool {
    let (door, pass) = visit.into_parts();
    let mut pass = pass;
    for operation in operations {
        let (after, answer) = door.submit(rt, alloc, pass, operation.into_raw());
        pass = after;
        if !is_sequenced(&answer) {
            return false;
        }
    }
    true
}

// How many records the documents have, all of which were closed.
fn count_all(alloc: Global, shelves: &MemoryShelves, documents: u64) -> Option<u64> {
    let mut all = 0_u64;
    for number in 0..documents {
        let name = name_of(alloc, number)?;
        let keeper = shelves.get(&name)?;
        all = all.wrapping_add(keeper.records().len() as u64);
    }
    Some(all)
}
