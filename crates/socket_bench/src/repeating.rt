//! Sessions that repeat: each text that one receives goes to all of its room, in one order.

use fluid_front::Handler;
use fluid_json::{NoMemory, Text};
use fluid_lines::{Recv, Wire};
use std::alloc::Global;
use std::sync::atomic::{AtomicUsize, Ordering};
use std::sync::{Mutex, Wait};

// How many texts one look takes at most.
const MOST: usize = 64;

/// The texts of a room, in their order.
#[derive(Drop)]
struct Texts {
    all: Mutex<Vec<Text>>,
    // how many there are, for who looks in vain
    count: AtomicUsize,
}

impl Texts {
    fn new(alloc: Global) -> Texts {
        Texts {
            all: Mutex::new(Vec::new(alloc)),
            count: AtomicUsize::new(0),
        }
    }

    fn add<R: Wait>(&self, rt: &R, text: Text) -> Result<(), NoMemory> {
        let mut all = self.all.lock(rt);
        all.push(text)?;
        self.count.store(all.len(), Ordering::SeqCst);
        Ok(())
    }

    // The texts behind the first `seen`, `MOST` at most.
    fn behind<R: Wait>(&self, rt: &R, alloc: Global, seen: usize) -> Result<Vec<Text>, NoMemory> {
        let mut taken = Vec::new(alloc);
        if self.count.load(Ordering::SeqCst) <= seen {
            return Ok(taken);
        }
        let all = self.all.lock(rt);
        for text in all.as_slice().get(seen..).unwrap_or(&[]).iter().take(MOST) {
            taken.push(text.copy(alloc)?)?;
        }
        Ok(taken)
    }
}

/// Repeats the texts of its wires, all in one room.
#[derive(Drop)]
pub(crate) struct Repeating {
    alloc: Global,
    texts: Texts,
}

impl Repeating {
    pub(crate) fn new(alloc: Global) -> Repeating {
        Repeating {
            alloc,
            texts: Texts::new(alloc),
        }
    }

    // Sends what is new, and answers how many texts were seen then; none where the wire failed.
    fn send_new<R: Wait, W: Wire>(&self, rt: &R, wire: &mut W, seen: usize) -> Option<usize> {
        let mut seen = seen;
        let texts = self.texts.behind(rt, self.alloc, seen).ok()?;
        for text in &texts {
            wire.send(rt, self.alloc, text.as_str()).ok()?;
            seen = seen.saturating_add(1);
        }
        Some(seen)
    }

    // One receive. Whether the wire goes on.
    fn receive<R: Wait, W: Wire>(&self, rt: &R, wire: &mut W) -> bool {
        match wire.recv(rt, self.alloc) {
            Ok(Recv::Text(text)) => self.texts.add(rt, text).is_ok(),
            Ok(Recv::Quiet) => true,
            _ => false,
        }
    }
}

/// A session, and how many texts of the room it has sent.
#[derive(Drop)]
pub(crate) struct Session<W: Wire> {
    wire: W,
    seen: usize,
}

impl<W: Wire + Drop> Handler<W> for Repeating {
    ghost use Rattle.std.specs.Prelude.{true};

    type Job = Session<W>;

    ghost is_over = { λ _. true };

    fn begin<R: Wait>(&self, rt: &R, _number: u64, wire: W) -> Session<W> {
        let mut wire = wire;
        let seen = self.texts.count.load(Ordering::SeqCst);
        wire.follow(rt, "room");
        Session { wire, seen }
    }

    fn cycle<R: Wait>(&self, rt: &R, job: &mut Session<W>) -> bool {
        if !job.wire.is_free(rt) {
            return true;
        }
        if !self.receive(rt, &mut job.wire) {
            return false;
        }
        match self.send_new(rt, &mut job.wire, job.seen) {
            Some(seen) => {
                job.seen = seen;
                true
            }
            None => false,
        }
    }

    fn end<R: Wait>(&self, _rt: &R, job: Session<W>) {
        drop(job);
    }
}
