//! Calls to wake: what one wire's text changed is heard by the other wires of its document at once. Nothing rests on a call:
//! who isn't called hears by its tick.
//! The wires of a document have a room. A call goes to a few sleepers, and each of them passes it on when it has done what it was
//! called for; so a large room is never awake all at once.

use crate::spots::{Attendant, Circle, Corner, Hub, Spot};
use fluid_json::NoMemory;
use mio::Waker;
use std::alloc::Global;
use std::collections::BTreeMap;
use std::sync::atomic::{AtomicBool, AtomicU64, Ordering};
use std::sync::{Arc, Mutex, Wait};

// How many wires of a room are awake at once because of calls: of a small room so many, and of a large one one of so many members,
// so that who only listens has its share of the turns beside those who are awake by texts of their own.
const LEAST_WIDTH: usize = 4;

const MEMBERS_FOR_EACH: usize = 16;

// The states of a sleeper: awake; told of a call since it looked last; asleep.
const AWAKE: u64 = 0;

const TOLD: u64 = 1;

const ASLEEP: u64 = 2;

/// A wire that may sleep.
#[derive(Drop)]
struct Sleeper {
    state: AtomicU64,
    waker: Waker,
}

impl Sleeper {
    // Whether the wire may sleep: it wasn't called since it looked last.
    fn lie_down(&self) -> bool {
        self.state
            .compare_exchange(AWAKE, ASLEEP, Ordering::SeqCst, Ordering::SeqCst)
            .is_ok()
    }

    // Whether the wire was called since it looked last.
    fn look(&self) -> bool {
        self.state.swap(AWAKE, Ordering::SeqCst) == TOLD
    }

    // Calls the wire, and says whether that woke it.
    fn call(&self) -> bool {
        if self.state.swap(TOLD, Ordering::SeqCst) != ASLEEP {
            return false;
        }
        let _ = self.waker.wake();
        true
    }
}

// A wire as a member of one room.
#[derive(Drop)]
struct Member {
    sleeper: Arc<Sleeper>,
    gone: AtomicBool,
}

impl Member {
    // Whether the wire has left the room.
    fn is_gone(&self) -> bool {
        self.gone.load(Ordering::SeqCst)
    }
}

// The members of a room in their order, and how far a call has come.
#[derive(Drop)]
struct Ring {
    members: Vec<Arc<Member>>,
    // the place of the next one to be called
    next: usize,
    // how many are still to be called
    left: usize,
}

impl Ring {
    // Wakes the next one that is asleep, and says whether there was one. Those that are awake are only told.
    fn pass(&mut self) -> bool {
        for _ in 0..self.left {
            self.left = self.left.saturating_sub(1);
            let Some(member) = self.members.get(self.next) else {
                self.next = 0;
                continue;
            };
            self.next = self.next.saturating_add(1);
            if !member.is_gone() && member.sleeper.call() {
                return true;
            }
        }
        false
    }

    // How many may be awake because of calls.
    fn width(&self) -> u64 {
        (self.members.len() / MEMBERS_FOR_EACH).max(LEAST_WIDTH) as u64
    }

    // Calls all, beginning with as many as may be awake beside those that already are.
    fn begin(&mut self, running: &AtomicU64) {
        // one more than there are, since the place behind the last one counts as one
        self.left = self.members.len().saturating_add(1);
        for _ in running.load(Ordering::SeqCst)..self.width() {
            if !self.pass() {
                return;
            }
            running.fetch_add(1, Ordering::SeqCst);
        }
    }

    // One more is in the room. A call that goes round goes one further, so that it still reaches the others.
    fn enter(&mut self, member: Arc<Member>) -> Result<(), NoMemory> {
        self.leave_out_the_gone();
        self.members.push(member)?;
        if self.left > 0 {
            self.left = self.left.saturating_add(1);
        }
        Ok(())
    }

    // Where somebody has gone, the places have shifted: a call that goes round reaches all once more.
    fn leave_out_the_gone(&mut self) {
        let before = self.members.len();
        self.members.retain(|member| !member.is_gone());
        if self.left > 0 && self.members.len() < before {
            self.left = self.members.len().saturating_add(1);
        }
    }
}

/// The wires of one document.
#[derive(Drop)]
struct Room {
    name: String,
    ring: Mutex<Ring>,
    // those of its wires that are waited for at stations
    corners: Mutex<Vec<Corner>>,
    // how many were woken and haven't passed the call on yet
    running: AtomicU64,
    // how many follow the document
    wires: AtomicU64,
}

impl Room {
    fn new(alloc: Global, name: &str) -> Result<Room, NoMemory> {
        let ring = Ring {
            members: Vec::new(alloc),
            next: 0,
            left: 0,
        };
        Ok(Room {
            name: String::from_str(alloc, name)?,
            ring: Mutex::new(ring),
            corners: Mutex::new(Vec::new(alloc)),
            running: AtomicU64::new(0),
            wires: AtomicU64::new(0),
        })
    }

    fn enter<R: Wait>(&self, rt: &R, member: Arc<Member>) -> Result<(), NoMemory> {
        self.ring.lock(rt).enter(member)
    }

    fn is_empty(&self) -> bool {
        self.wires.load(Ordering::SeqCst) == 0
    }

    fn call<R: Wait>(&self, rt: &R) {
        for corner in self.corners.lock(rt).iter() {
            corner.call(rt);
        }
        self.ring.lock(rt).begin(&self.running);
    }

    // Those of its wires that are waited for at this station.
    fn circle<R: Wait>(
        &self,
        rt: &R,
        alloc: Global,
        hub: &Arc<Hub>,
    ) -> Result<Arc<Circle>, NoMemory> {
        let mut corners = self.corners.lock(rt);
        if let Some(corner) = corners.iter().find(|corner| corner.is_of(hub)) {
            return corner.circle();
        }
        let corner = Corner::new(alloc, hub.clone()?)?;
        let circle = corner.circle()?;
        corners.push(corner)?;
        Ok(circle)
    }

    fn pass_on<R: Wait>(&self, rt: &R) {
        if !self.ring.lock(rt).pass() {
            self.one_fewer_runs();
        }
    }

    // A call ends here. Where none is known to run, as for a wire that was woken in another room, nothing changes.
    fn one_fewer_runs(&self) {
        for _ in 0..u64::MAX {
            let running = self.running.load(Ordering::SeqCst);
            let fewer = running.saturating_sub(1);
            if self
                .running
                .compare_exchange(running, fewer, Ordering::SeqCst, Ordering::SeqCst)
                .is_ok()
            {
                return;
            }
        }
    }

    // A wire that is gone calls the others where nobody has the room at the moment; else they hear of it by their ticks.
    fn leave(&self, called: bool) {
        if called {
            self.one_fewer_runs();
        }
        self.wires.fetch_sub(1, Ordering::SeqCst);
        if let Some(corners) = self.corners.try_lock() {
            for corner in corners.iter() {
                corner.try_call();
            }
        }
        if let Some(mut ring) = self.ring.try_lock() {
            ring.leave_out_the_gone();
            ring.begin(&self.running);
        }
    }
}

/// The rooms of a front, by the names of their documents.
#[derive(Drop)]
pub(crate) struct Rooms {
    alloc: Global,
    rooms: Mutex<Named>,
}

#[derive(Drop)]
struct Named {
    rooms: BTreeMap<String, Arc<Room>>,
    // with so many rooms, those that nobody is in go before a new one is made
    sweep_at: usize,
}

impl Named {
    // The room of this name: the one that is there, or a new one.
    fn room(&mut self, alloc: Global, name: &str) -> Result<Arc<Room>, NoMemory> {
        if let Some(room) = self.rooms.get(name) {
            return Ok(room.clone()?);
        }
        if self.rooms.len() >= self.sweep_at {
            self.rooms.retain(|_, room| !room.is_empty());
            self.sweep_at = self.rooms.len().saturating_mul(2).max(16);
        }
        let room = Arc::new(alloc, Room::new(alloc, name)?)?;
        self.rooms
            .insert(String::from_str(alloc, name)?, room.clone()?)?;
        Ok(room)
    }

    fn close(&mut self, name: &str) {
        let is_empty = match self.rooms.get(name) {
            Some(room) => room.is_empty(),
            None => false,
        };
        if is_empty {
            let _ = self.rooms.remove(name);
        }
    }
}

impl Rooms {
    pub(crate) fn new(alloc: Global) -> Rooms {
        let named = Named {
            rooms: BTreeMap::new(alloc),
            sweep_at: 16,
        };
        Rooms {
            alloc,
            rooms: Mutex::new(named),
        }
    }

    // A seat in the room of this name.
    fn enter<R: Wait>(&self, rt: &R, name: &str, resting: &Resting) -> Result<Seat, NoMemory> {
        let mut rooms = self.rooms.lock(rt);
        let room = rooms.room(self.alloc, name)?;
        let member = match resting {
            Resting::Asleep(sleeper) => {
                let member = Member {
                    sleeper: sleeper.clone()?,
                    gone: AtomicBool::new(false),
                };
                let member = Arc::new(self.alloc, member)?;
                room.enter(rt, member.clone()?)?;
                Membership::Asleep(member)
            }
            Resting::At(hub, _, place) => {
                let circle = room.circle(rt, self.alloc, hub)?;
                Membership::At(circle.enter(rt, self.alloc, *place)?)
            }
            Resting::Nowhere => return Err(NoMemory),
        };
        room.wires.fetch_add(1, Ordering::SeqCst);
        Ok(Seat { room, member })
    }

    // Lets the room of this name go where it is empty and nobody has the rooms at the moment.
    fn close(&self, name: &str) {
        if let Some(mut rooms) = self.rooms.try_lock() {
            rooms.close(name);
        }
    }
}

// A room with the one who is in it.
#[derive(Drop)]
struct Seat {
    room: Arc<Room>,
    member: Membership,
}

// How one is in a room.
#[derive(Drop)]
enum Membership {
    Asleep(Arc<Member>),
    At(Arc<Attendant>),
}

impl Membership {
    fn leave(&self) {
        match self {
            Membership::Asleep(member) => member.gone.store(true, Ordering::SeqCst),
            Membership::At(attendant) => attendant.leave(),
        }
    }
}

// How a wire is waited for.
#[derive(Drop)]
enum Resting {
    /// It sleeps by itself.
    Asleep(Arc<Sleeper>),
    /// At a station.
    At(Arc<Hub>, Arc<Spot>, usize),
    /// Not yet.
    Nowhere,
}

/// A wire's place among the wires of its document.
pub(crate) struct Place {
    rooms: Arc<Rooms>,
    resting: Resting,
    seat: Option<Seat>,
    // it gave a text, of whose work the others haven't been told
    changed: bool,
    // it was woken by a call, which it has to pass on
    called: bool,
}

impl Place {
    /// The wire follows no document yet.
    pub(crate) fn new(alloc: Global, rooms: Arc<Rooms>, waker: Waker) -> Result<Place, NoMemory> {
        let sleeper = Arc::new(
            alloc,
            Sleeper {
                state: AtomicU64::new(AWAKE),
                waker,
            },
        )?;
        Ok(Place {
            rooms,
            resting: Resting::Asleep(sleeper),
            seat: None,
            changed: false,
            called: false,
        })
    }

    /// The same, of a wire that is going to be waited for at a station.
    pub(crate) fn nowhere(rooms: Arc<Rooms>) -> Place {
        Place {
            rooms,
            resting: Resting::Nowhere,
            seat: None,
            changed: false,
            called: false,
        }
    }

    /// The wire is waited for at a station.
    pub(crate) fn settle(&mut self, hub: Arc<Hub>, spot: Arc<Spot>, place: usize) {
        self.resting = Resting::At(hub, spot, place);
    }

    /// What it and its station tell each other.
    pub(crate) fn spot(&self) -> Option<&Spot> {
        match &self.resting {
            Resting::At(_, spot, _) => Some(&**spot),
            Resting::Asleep(_) => None,
            Resting::Nowhere => None,
        }
    }

    /// Whether it never waits.
    pub(crate) fn is_polled(&self) -> bool {
        !matches!(&self.resting, Resting::Asleep(_))
    }

    /// The wire follows the document of this name, and no other. Where memory lacks it follows none.
    pub(crate) fn follow<R: Wait>(&mut self, rt: &R, name: &str) {
        if let Some(seat) = &self.seat {
            if seat.room.name.as_str() == name {
                return;
            }
        }
        self.leave();
        self.seat = self.rooms.enter(rt, name, &self.resting).ok();
    }

    /// The wire gives a text: what was told of before it is heard behind it.
    pub(crate) fn give(&mut self) {
        self.changed = true;
        self.look();
    }

    /// The text that the wire gave last has been worked off: the others of its document are called.
    pub(crate) fn tell<R: Wait>(&mut self, rt: &R) {
        if self.changed {
            self.changed = false;
            if let Some(seat) = &self.seat {
                seat.room.call(rt);
            }
        }
    }

    /// What the wire was called for has been done: the call is passed on.
    pub(crate) fn pass_on<R: Wait>(&mut self, rt: &R) {
        if self.called {
            self.called = false;
            if let Some(seat) = &self.seat {
                seat.room.pass_on(rt);
            }
        }
    }

    /// Whether the wire may sleep now: where it was called, it may not.
    pub(crate) fn lie_down(&mut self) -> bool {
        match &self.resting {
            Resting::Asleep(sleeper) => sleeper.lie_down(),
            Resting::At(_, _, _) => false,
            Resting::Nowhere => false,
        }
    }

    /// The wire is awake. Whether it was called since it looked last.
    pub(crate) fn look(&mut self) -> bool {
        match &self.resting {
            Resting::Asleep(sleeper) => sleeper.look(),
            Resting::At(_, _, _) => false,
            Resting::Nowhere => false,
        }
    }

    /// The same behind a sleep, from which a call wakes.
    pub(crate) fn rise(&mut self) -> bool {
        let called = self.look();
        if called {
            self.called = true;
        }
        called
    }

    /// The wire leaves its room.
    pub(crate) fn leave(&mut self) {
        let Some(seat) = self.seat.take() else {
            return;
        };
        seat.member.leave();
        seat.room.leave(self.called);
        self.called = false;
        self.rooms.close(seat.room.name.as_str());
    }
}

impl Drop for Place {
    fn drop(mut self) {
        self.leave();
        let Place {
            rooms: _,
            resting: _,
            seat: _,
            changed: _,
            called: _,
        } = self;
    }
}
