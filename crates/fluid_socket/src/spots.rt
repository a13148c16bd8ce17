//! Wires that are waited for at a station, as they and their station see each other.

use fluid_json::NoMemory;
use mio::Waker;
use std::alloc::Global;
use std::mem;
use std::sync::atomic::{AtomicBool, AtomicU64, Ordering};
use std::sync::{Arc, Mutex, Wait};

// The states of a station's thread: awake; told of something since it looked last; asleep.
const AWAKE: u64 = 0;

const TOLD: u64 = 1;

const ASLEEP: u64 = 2;

/// What a wire and its station tell each other. Both are of one thread.
#[derive(Drop)]
pub(crate) struct Spot {
    // the socket may have something, or take something
    readable: AtomicBool,
    writable: AtomicBool,
    // the peer's end may be behind what the socket has
    ended: AtomicBool,
    // the room of its document called
    called: AtomicBool,
    // how many ticks have passed since the wire looked last
    ticks: AtomicU64,
    // the wire is to have a cycle behind those that are due
    again: AtomicBool,
    // for how many ticks it may rest
    rest: AtomicU64,
}

impl Spot {
    pub(crate) fn new(alloc: Global) -> Result<Arc<Spot>, NoMemory> {
        Ok(Arc::new(
            alloc,
            Spot {
                readable: AtomicBool::new(true),
                writable: AtomicBool::new(true),
                ended: AtomicBool::new(false),
                called: AtomicBool::new(false),
                ticks: AtomicU64::new(0),
                again: AtomicBool::new(false),
                rest: AtomicU64::new(1),
            },
        )?)
    }

    /// The system said what the socket is ready for.
    pub(crate) fn ready(&self, reads: bool, writes: bool, ended: bool) {
        if reads {
            self.readable.store(true, Ordering::Relaxed);
        }
        if writes {
            self.writable.store(true, Ordering::Relaxed);
        }
        if ended {
            self.ended.store(true, Ordering::Relaxed);
        }
    }

    pub(crate) fn take_readable(&self) -> bool {
        if !self.readable.load(Ordering::Relaxed) {
            return false;
        }
        self.readable.store(false, Ordering::Relaxed);
        true
    }

    pub(crate) fn take_writable(&self) -> bool {
        if !self.writable.load(Ordering::Relaxed) {
            return false;
        }
        self.writable.store(false, Ordering::Relaxed);
        true
    }

    pub(crate) fn has_ended(&self) -> bool {
        self.ended.load(Ordering::Relaxed)
    }

    /// The room of its document called.
    pub(crate) fn call(&self) {
        self.called.store(true, Ordering::Relaxed);
    }

    pub(crate) fn take_called(&self) -> bool {
        if !self.called.load(Ordering::Relaxed) {
            return false;
        }
        self.called.store(false, Ordering::Relaxed);
        true
    }

    pub(crate) fn tick(&self) {
        let ticks = self.ticks.load(Ordering::Relaxed);
        self.ticks.store(ticks.saturating_add(1), Ordering::Relaxed);
    }

    pub(crate) fn take_ticks(&self) -> u32 {
        let ticks = self.ticks.load(Ordering::Relaxed);
        if ticks > 0 {
            self.ticks.store(0, Ordering::Relaxed);
        }
        ticks.min(u64::from(u32::MAX)) as u32
    }

    /// The wire is to have another cycle soon.
    pub(crate) fn call_again(&self) {
        self.again.store(true, Ordering::Relaxed);
    }

    pub(crate) fn take_again(&self) -> bool {
        if !self.again.load(Ordering::Relaxed) {
            return false;
        }
        self.again.store(false, Ordering::Relaxed);
        true
    }

    pub(crate) fn set_rest(&self, ticks: u32) {
        self.rest.store(u64::from(ticks), Ordering::Relaxed);
    }

    pub(crate) fn rest(&self) -> u64 {
        self.rest.load(Ordering::Relaxed)
    }
}

/// A station, as others call it.
#[derive(Drop)]
pub(crate) struct Hub {
    // among the stations of a front
    number: u64,
    state: AtomicU64,
    waker: Waker,
    // the corners for which it was called since it looked last, in their order
    called: Mutex<Vec<Arc<Circle>>>,
}

impl Hub {
    pub(crate) fn new(alloc: Global, number: u64, waker: Waker) -> Result<Arc<Hub>, NoMemory> {
        Ok(Arc::new(
            alloc,
            Hub {
                number,
                state: AtomicU64::new(AWAKE),
                waker,
                called: Mutex::new(Vec::new(alloc)),
            },
        )?)
    }

    /// Whether its thread may sleep: it wasn't called since it looked last.
    pub(crate) fn lie_down(&self) -> bool {
        self.state
            .compare_exchange(AWAKE, ASLEEP, Ordering::SeqCst, Ordering::SeqCst)
            .is_ok()
    }

    /// Whether it was called since its thread looked last.
    pub(crate) fn is_told(&self) -> bool {
        self.state.load(Ordering::Relaxed) == TOLD
    }

    /// Its thread is awake, and looks now.
    pub(crate) fn rise(&self) {
        self.state.store(AWAKE, Ordering::SeqCst);
    }

    /// Calls its thread.
    pub(crate) fn call(&self) {
        if self.state.swap(TOLD, Ordering::SeqCst) == ASLEEP {
            let _ = self.waker.wake();
        }
    }

    /// The calls of its corners since they were taken last, in exchange for an empty list.
    pub(crate) fn take_called<R: Wait>(&self, rt: &R, list: &mut Vec<Arc<Circle>>) {
        mem::swap(&mut *self.called.lock(rt), list);
    }
}

/// One of the wires of a corner.
#[derive(Drop)]
pub(crate) struct Attendant {
    place: usize,
    gone: AtomicBool,
}

impl Attendant {
    pub(crate) fn leave(&self) {
        self.gone.store(true, Ordering::SeqCst);
    }
}

/// The wires of one document that are waited for at one station.
#[derive(Drop)]
pub(crate) struct Corner {
    hub: Arc<Hub>,
    circle: Arc<Circle>,
}

impl Corner {
    pub(crate) fn new(alloc: Global, hub: Arc<Hub>) -> Result<Corner, NoMemory> {
        let circle = Arc::new(
            alloc,
            Circle {
                called: AtomicBool::new(false),
                members: Mutex::new(Vec::new(alloc)),
            },
        )?;
        Ok(Corner { hub, circle })
    }

    pub(crate) fn is_of(&self, hub: &Arc<Hub>) -> bool {
        self.hub.number == hub.number
    }

    /// Those that are here.
    pub(crate) fn circle(&self) -> Result<Arc<Circle>, NoMemory> {
        Ok(self.circle.clone()?)
    }

    /// Calls the station for all that are here.
    pub(crate) fn call<R: Wait>(&self, rt: &R) {
        if self.circle.called.load(Ordering::SeqCst) {
            return;
        }
        let mut called = self.hub.called.lock(rt);
        let is_new = self.put(&mut called);
        drop(called);
        if is_new {
            self.hub.call();
        }
    }

    /// The same, where nobody has the station's list at the moment.
    pub(crate) fn try_call(&self) {
        let Some(mut called) = self.hub.called.try_lock() else {
            return;
        };
        let is_new = self.put(&mut called);
        drop(called);
        if is_new {
            self.hub.call();
        }
    }

    // Puts a call into the station's list, unless one stands there that isn't answered yet. It says whether it did.
    fn put(&self, called: &mut Vec<Arc<Circle>>) -> bool {
        if self.circle.called.swap(true, Ordering::SeqCst) {
            return false;
        }
        let is_put = match self.circle() {
            Ok(circle) => called.push(circle).is_ok(),
            Err(_) => false,
        };
        if !is_put {
            self.circle.called.store(false, Ordering::SeqCst);
        }
        is_put
    }
}

/// Who is in a corner. Its station has this alone of it, and not the corner, which has the station.
#[derive(Drop)]
pub(crate) struct Circle {
    // the station was called and hasn't answered yet
    called: AtomicBool,
    members: Mutex<Vec<Arc<Attendant>>>,
}

impl Circle {
    /// One more is here, at this place of the station.
    pub(crate) fn enter<R: Wait>(
        &self,
        rt: &R,
        alloc: Global,
        place: usize,
    ) -> Result<Arc<Attendant>, NoMemory> {
        let attendant = Arc::new(
            alloc,
            Attendant {
                place,
                gone: AtomicBool::new(false),
            },
        )?;
        self.members.lock(rt).push(attendant.clone()?)?;
        Ok(attendant)
    }

    /// The station answers a call: what is done with the place of each who is here.
    pub(crate) fn answer<R: Wait, F: FnMut(usize)>(&self, rt: &R, mut each: F)
        requires { F.IsAlwaysCallable each }
    {
        self.called.store(false, Ordering::SeqCst);
        let mut members = self.members.lock(rt);
        members.retain(|member| !member.gone.load(Ordering::SeqCst));
        for member in members.iter() {
            each(member.place);
        }
    }
}
