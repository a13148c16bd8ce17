//! A station for wires over TCP.

use crate::spots::{Circle, Hub, Spot};
use crate::wire::SocketWire;
use fluid_front::{Bell, FrontFault, Station};
use fluid_json::NoMemory;
use mio::unix::SourceFd;
use mio::{Events, Interest, Poll, Token, Waker};
use std::alloc::Global;
use std::collections::VecDeque;
use std::io;
use std::io::ErrorKind;
use std::net::Net;
use std::sync::{Arc, Wait};
use std::time::{Clock, Duration};

const CALL: Token = Token(0);

// How many sockets one look at the system tells of at most.
const MOST_EVENTS: usize = 512;

// How often it looks before it sleeps.
const LOOKS: u32 = 100;

// How often it looks at most for more to hear before it delivers what was heard.
const MOST_LOOKS: usize = 256;

// A wire that is waited for.
#[derive(Drop)]
struct Seat {
    spot: Arc<Spot>,
    is_due: bool,
    // the ticks until it is due whatever comes
    left: u64,
}

impl Seat {
    // Its wire had a cycle. It says whether that asked for another one.
    fn cycled(&mut self) -> bool {
        self.is_due = false;
        self.left = self.spot.rest();
        self.spot.take_again()
    }

    // A tick has passed. It says whether its wire is due for that.
    fn tick(&mut self) -> bool {
        self.spot.tick();
        self.left = self.left.saturating_sub(1);
        self.left == 0
    }
}

/// Waits for many sockets at once, for calls of the rooms of their documents, and for the time. A wire is due when its socket has or
/// takes something, when its room calls, when it asked for another cycle, and behind some ticks.
#[derive(Drop)]
pub struct TcpStation<N: Net + Clock> {
    alloc: Global,
    clock: N,
    poll: Poll,
    events: Events<Global>,
    hub: Arc<Hub>,
    seats: Vec<Option<Seat>>,
    due: VecDeque<usize>,
    // those that asked for another cycle
    again: VecDeque<usize>,
    // the calls that it answers
    called: Vec<Arc<Circle>>,
    // how many looks are left until what was heard is delivered
    looks: usize,
    // calls that aren't answered yet
    is_put_off: bool,
    tick: Duration,
    // the moment of the last tick
    last: Duration,
}

impl<N: Net + Clock> TcpStation<N> {
    pub(crate) fn new(
        alloc: Global,
        net: N,
        number: u64,
        tick: Duration,
    ) -> Result<TcpStation<N>, FrontFault>
    where
        N: Drop,
    {
        match TcpStation::open(alloc, net, number, tick) {
            Ok(station) => Ok(station),
            Err(error) => match error.kind() {
                ErrorKind::OutOfMemory => Err(FrontFault::NoMemory),
                _ => Err(FrontFault::Failed),
            },
        }
    }

    fn open(alloc: Global, net: N, number: u64, tick: Duration) -> io::Result<TcpStation<N>>
    where
        N: Drop,
    {
        let poll = Poll::new(&net)?;
        let waker = Waker::new(poll.registry(), CALL)?;
        let Ok(hub) = Hub::new(alloc, number, waker) else {
            return Err(io::Error::from(ErrorKind::OutOfMemory));
        };
        let events = Events::with_capacity(alloc, MOST_EVENTS)?;
        let last = net.monotonic()?;
        Ok(TcpStation {
            alloc,
            clock: net,
            poll,
            events,
            hub,
            seats: Vec::new(alloc),
            due: VecDeque::new(alloc),
            again: VecDeque::new(alloc),
            called: Vec::new(alloc),
            looks: 0,
            is_put_off: false,
            tick,
            last,
        })
    }

    // Looks which sockets are ready, and sleeps where nothing is to be done.
    fn look(&mut self, now: Duration) {
        let is_idle = !self.is_put_off && self.again.is_empty() && self.due.is_empty();
        if is_idle && !self.finds_soon() && self.hub.lie_down() {
            self.ask(self.tick.saturating_sub(now.saturating_sub(self.last)));
        } else if !is_idle || self.events.is_empty() {
            self.gather();
        }
        self.hub.rise();
        self.note_ready();
    }

    // Looks for more to hear before what was heard is delivered, so that a wire is sent all of it at once.
    fn gather(&mut self) {
        for _ in 0..self.looks.saturating_add(1) {
            self.looks = self.looks.saturating_sub(1);
            self.ask(Duration::ZERO);
            if !self.events.is_empty() {
                return;
            }
        }
    }

    // Whether there is something to do within a few looks: what comes so soon costs nobody a call to wake it.
    fn finds_soon(&mut self) -> bool {
        for _ in 0..LOOKS {
            self.ask(Duration::ZERO);
            if !self.events.is_empty() || self.hub.is_told() {
                return true;
            }
        }
        false
    }

    // Asks the system what the sockets are ready for, and waits for it so long at most. Where it fails there are no events.
    fn ask(&mut self, longest: Duration) {
        let _ = self.poll.poll(&mut self.events, Some(longest));
    }

    // Those whose sockets are ready.
    fn note_ready(&mut self) {
        for event in self.events.iter() {
            let token = event.token();
            if token == CALL {
                continue;
            }
            let place = token.0.saturating_sub(1);
            if let Some(Some(seat)) = self.seats.get_mut(place) {
                seat.spot.ready(
                    event.is_readable() || event.is_read_closed() || event.is_error(),
                    event.is_writable() || event.is_write_closed() || event.is_error(),
                    event.is_read_closed() || event.is_error(),
                );
                put(&mut self.due, seat, place);
            }
        }
    }

    // Those whose rooms called until now. Who is called meanwhile is heard at the next wait.
    fn answer_calls<R: Wait>(&mut self, rt: &R) {
        self.hub.take_called(rt, &mut self.called);
        for circle in self.called.drain(..) {
            let seats = &mut self.seats;
            let due = &mut self.due;
            circle.answer(rt, |place| {
                if let Some(Some(seat)) = seats.get_mut(place) {
                    seat.spot.call();
                    put(due, seat, place);
                }
            });
        }
    }

    fn pass_time(&mut self, now: Duration) {
        for _ in 0..u64::MAX {
            if now.saturating_sub(self.last) < self.tick {
                return;
            }
            self.last = self.last.saturating_add(self.tick);
            for (place, seat) in self.seats.iter_mut().enumerate() {
                let Some(seat) = seat else {
                    continue;
                };
                if seat.tick() {
                    put(&mut self.due, seat, place);
                }
            }
        }
    }
}

// Puts a place at the end of those that are due, for which there is room.
fn put(due: &mut VecDeque<usize>, seat: &mut Seat, place: usize) {
    if !seat.is_due {
        seat.is_due = due.push_back(place).is_ok();
    }
}

/// What ends the waits of a station.
#[derive(Drop)]
pub struct TcpBell {
    hub: Arc<Hub>,
}

impl Bell for TcpBell {
    fn ring(&self) {
        self.hub.call();
    }
}

impl<N: Net + Clock> Station<SocketWire, TcpBell> for TcpStation<N> {
    fn bell(&self) -> Result<TcpBell, NoMemory> {
        Ok(TcpBell {
            hub: self.hub.clone()?,
        })
    }

    fn add<R: Wait>(
        &mut self,
        _rt: &R,
        place: usize,
        wire: &mut SocketWire,
    ) -> Result<(), FrontFault> {
        for _ in self.seats.len()..place.saturating_add(1) {
            self.seats.push(None)?;
        }
        self.due.reserve(self.seats.len())?;
        self.again.reserve(self.seats.len())?;
        let spot = Spot::new(self.alloc)?;
        let own = spot.clone()?;
        let hub = self.hub.clone()?;
        let registered = self.poll.registry().register(
            &mut SourceFd(&wire.descriptor()),
            Token(place.saturating_add(1)),
            Interest::READABLE | Interest::WRITABLE,
        );
        if registered.is_err() {
            return Err(FrontFault::Failed);
        }
        wire.settle(hub, own, place);
        let mut seat = Seat {
            spot,
            is_due: false,
            left: 1,
        };
        put(&mut self.due, &mut seat, place);
        if let Some(here) = self.seats.get_mut(place) {
            *here = Some(seat);
        }
        Ok(())
    }

    fn remove(&mut self, place: usize) {
        if let Some(seat) = self.seats.get_mut(place) {
            *seat = None;
        }
    }

    fn cycled(&mut self, place: usize) {
        if let Some(Some(seat)) = self.seats.get_mut(place) {
            if seat.cycled() {
                let _ = self.again.push_back(place);
            }
        }
    }

    fn due(&mut self) -> Option<usize> {
        self.due.pop_front()
    }

    fn wait<R: Wait>(&mut self, rt: &R) {
        let now = self.clock.monotonic().unwrap_or(self.last);
        self.look(now);
        // what comes in is heard before what was heard is delivered
        self.is_put_off = self.looks > 0 && !self.due.is_empty();
        if self.is_put_off {
            return;
        }
        self.answer_calls(rt);
        for place in self.again.drain(..) {
            if let Some(Some(seat)) = self.seats.get_mut(place) {
                put(&mut self.due, seat, place);
            }
        }
        // a look costs a small part of what it takes to send something to one wire
        self.looks = self.due.len().min(MOST_LOOKS);
        let now = self.clock.monotonic().unwrap_or(self.last);
        self.pass_time(now);
    }
}
