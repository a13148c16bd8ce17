//! Where many wires are waited for at once.

use crate::FrontFault;
use fluid_json::NoMemory;
use std::alloc::Global;
use std::marker::PhantomData;
use std::sync::atomic::{AtomicU64, Ordering};
use std::sync::{Arc, Wait};

/// Ends the wait of a station, from any thread.
pub trait Bell {
    fn ring(&self);
}

/// Waits for many wires at once, for one thread. Each wire has a place of its own. Nothing is claimed of when a place is due.
pub trait Station<W, B> {
    /// What ends its waits.
    fn bell(&self) -> Result<B, NoMemory>;

    /// Waits from now on for this wire too. It waits no more for whichever had the place. Where it can't wait for the wire, a wire
    /// that never waits fails at its next receive.
    fn add<R: Wait>(&mut self, rt: &R, place: usize, wire: &mut W) -> Result<(), FrontFault>;

    /// The wire of this place goes.
    fn remove(&mut self, place: usize);

    /// The wire of this place had a cycle.
    fn cycled(&mut self, place: usize);

    /// Waits until there may be something to do for some of its wires, or until it is rung.
    fn wait<R: Wait>(&mut self, rt: &R);

    /// The place of the next wire for which there may be something to do.
    fn due(&mut self) -> Option<usize>;
}

// The states of a bell.
const STILL: u64 = 0;

const RUNG: u64 = 1;

/// A station for wires that never wait: all are due at once, and it waits only where it has none.
#[derive(Drop)]
pub struct MemoryStation<W> {
    state: Arc<AtomicU64>,
    places: Vec<usize>,
    // how many of them were due since the last wait
    given: usize,
    of: PhantomData<W>,
}

impl<W> MemoryStation<W> {
    /// It waits for no wire.
    pub fn new(alloc: Global) -> Result<MemoryStation<W>, NoMemory> {
        Ok(MemoryStation {
            state: Arc::new(alloc, AtomicU64::new(STILL))?,
            places: Vec::new(alloc),
            given: 0,
            of: PhantomData,
        })
    }
}

/// The bell of a station in memory.
#[derive(Drop)]
pub struct MemoryBell {
    state: Arc<AtomicU64>,
}

impl Bell for MemoryBell {
    fn ring(&self) {
        self.state.store(RUNG, Ordering::SeqCst);
        self.state.wake_one();
    }
}

impl<W> Station<W, MemoryBell> for MemoryStation<W> {
    fn bell(&self) -> Result<MemoryBell, NoMemory> {
        Ok(MemoryBell {
            state: self.state.clone()?,
        })
    }

    fn add<R: Wait>(&mut self, _rt: &R, place: usize, _wire: &mut W) -> Result<(), FrontFault> {
        self.places.push(place)?;
        Ok(())
    }

    fn remove(&mut self, place: usize) {
        self.places.retain(|one| *one != place);
    }

    fn cycled(&mut self, _place: usize) {}

    fn wait<R: Wait>(&mut self, rt: &R) {
        if self.places.is_empty() {
            self.state.park(rt, STILL as u32);
        }
        self.state.store(STILL, Ordering::SeqCst);
        self.given = 0;
    }

    fn due(&mut self) -> Option<usize> {
        let place = *self.places.get(self.given)?;
        self.given = self.given.saturating_add(1);
        Some(place)
    }
}
