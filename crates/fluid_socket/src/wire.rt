//! A wire over TCP.
ghost use Rattle.std.specs.Prelude.{◌≡◌, ℕ, ◌+◌, ◌-◌, ◌*◌, ◌^◌, ◌<◌, ◌≤◌, None};
ghost use Rattle.fluid_lines.specs.Wires.{Receives, Sends, Stays};

use crate::connection::Connection;
use crate::rooms::Place;
use crate::spots::{Hub, Spot};
use crate::step::{Sent, Step};
use fluid_io::LONGEST_TEXT;
use fluid_json::Text;
use fluid_lines::{Recv, Wire, WireFault};
use std::alloc::Global;
use std::marker::Model;
use std::os::fd::RawFd;
use std::sync::{Arc, Wait};

/// How long a wire waits, in ticks.
#[derive(Clone, Copy, Debug, PartialEq, Eq)]
pub struct Waits {
    /// A wire that sleeps wakes behind so many milliseconds, also where nobody calls it; while nothing happens its next sleeps
    /// last 2, 4, 8 and then 16 of these ticks.
    pub tick_milliseconds: u64,
    /// How often a handshake may wait for the peer before it fails, each time for a tick at most.
    pub handshake_ticks: u32,
    /// A send fails where the peer takes nothing for so many ticks.
    pub send_ticks: u32,
    /// A peer that is silent for so many ticks is asked for a sign of life.
    pub silent_ticks: u32,
    /// Where it was asked so often in vain, its wire ends. Lines have no such question.
    pub pings: u32,
}

impl Default for Waits {
    ghost use Rattle.std.specs.Prelude.{◌≡◌};

    ghost is_default = { λ waits. waits ≡ record {
      tick_milliseconds = 1000;
      handshake_ticks = 20;
      send_ticks = 11;
      silent_ticks = 30;
      pings = 2;
    } };

    /// A tick of a second, 20 for a handshake, 11 for a send, two questions behind 30 each.
    fn default() -> Waits {
        Waits {
            tick_milliseconds: 1000,
            handshake_ticks: 20,
            send_ticks: 11,
            silent_ticks: 30,
            pings: 2,
        }
    }
}

/// A wire over TCP, with one message of a WebSocket for each text, or one line. It tells nothing of what comes and goes.
/// It waits by itself, or, where its front gave a station before, it waits in none of its calls: it holds what it sends until its
/// cycle is over, and fails where no station waits for it.
/// Behind every answer but a text and `Quiet` only the end comes, and behind a send that failed too. A peer that keeps to the
/// rules of its framing no more is told why it is left, where its framing has a word for that.
#[derive(Drop)]
pub struct SocketWire {
    connection: Connection,
    place: Place,
    quiets: u64,
    faults: u64,
}

impl Model for SocketWire {
    ghost use Rattle.std.specs.Prelude.{None};
    ghost use Rattle.fluid_lines.specs.Wires.{Wiring};

    ghost Value = { Wiring };

    ghost view = { λ w. record { history = None; texts = None; quiets = w.quiets; faults = w.faults } };
}

impl SocketWire {
    // Nothing was received or sent, and nothing was counted.
    pub(crate) fn new(connection: Connection, place: Place) -> SocketWire
        ensures { result ≡ record { history = None; texts = None; quiets = 0; faults = 0 } }
    {
        SocketWire {
            connection,
            place,
            quiets: 0,
            faults: 0,
        }
    }

    /// From now on it is waited for at a station.
    pub(crate) fn settle(&mut self, hub: Arc<Hub>, spot: Arc<Spot>, place: usize)
        ensures { self.new ≡ self.old }
    {
        self.place.settle(hub, spot, place);
    }

    pub(crate) fn descriptor(&mut self) -> RawFd
        ensures { self.new ≡ self.old }
    {
        self.connection.descriptor()
    }

    // What has come in.
    fn next<R: Wait>(&mut self, rt: &R, alloc: Global) -> Step
        ensures { self.new ≡ self.old }
    {
        if !self.place.is_polled() {
            return self.connection.receive(rt, alloc, &mut self.place);
        }
        match self.place.spot() {
            Some(spot) => self.connection.look(alloc, spot),
            None => self.connection.give_up(),
        }
    }

    // Sends a text, or holds it.
    fn put<R: Wait>(&mut self, rt: &R, alloc: Global, text: &str) -> Sent
        ensures { self.new ≡ self.old }
    {
        if self.place.is_polled() {
            return self.connection.hold(alloc, text);
        }
        self.connection.send(rt, alloc, text, &mut self.place)
    }

    // Gives a text, unless it is too long.
    fn give(&mut self, text: Text) -> Result<Recv, WireFault>
        ensures same { self.new ≡ self.old }
        ensures does { Receives self.old self.old result }
    {
        self.place.give();
        let size = text.as_str().len();
        if size > LONGEST_TEXT {
            return Ok(Recv::TooLong(size as u64));
        }
        Ok(Recv::Text(text))
    }

    // Counts a quiet answer.
    fn quiet(&mut self) -> Result<Recv, WireFault>
        ensures stays { Stays self.old self.new }
        ensures does { Receives self.old self.new result }
    {
        self.quiets = self.quiets.saturating_add(1);
        Ok(Recv::Quiet)
    }

    // Counts a fault.
    fn failed(&mut self) -> WireFault
        ensures stays { Stays self.old self.new }
        ensures fault { result ≡ WireFault.Failed }
        ensures does { Receives self.old self.new (Err WireFault.Failed) }
    {
        self.faults = self.faults.saturating_add(1);
        WireFault::Failed
    }
}

impl Wire for SocketWire {
    ghost seen = { λ w. w };

    /// It waits until there is an answer: a text, the end, or that the one who receives is to look round, since another wire
    /// of its document gave a text or a tick has passed. At a station it is quiet where nothing has come in.
    fn recv<R: Wait>(&mut self, rt: &R, alloc: Global) -> Result<Recv, WireFault> {
        self.place.tell(rt);
        self.place.pass_on(rt);
        match self.next(rt, alloc) {
            Step::Text(text) => self.give(text),
            Step::TooLong(size) => Ok(Recv::TooLong(size.max(LONGEST_TEXT as u64 + 1))),
            Step::End => Ok(Recv::End),
            Step::NoMemory => Err(WireFault::NoMemory),
            Step::Failed => Err(self.failed()),
            Step::Quiet => self.quiet(),
            Step::Passed => self.quiet(),
            Step::Blocked => self.quiet(),
        }
    }

    /// It waits until the peer has taken the text. At a station the text is held, and where the peer doesn't take it in time, a later
    /// receive fails. Where memory lacks, nothing was sent.
    fn send<R: Wait>(&mut self, rt: &R, alloc: Global, text: &str) -> Result<(), WireFault> {
        self.place.tell(rt);
        match self.put(rt, alloc, text) {
            Sent::Whole => Ok(()),
            Sent::NoMemory => Err(WireFault::NoMemory),
            Sent::Failed => Err(self.failed()),
            Sent::Blocked => Err(self.failed()),
        }
    }

    fn follow<R: Wait>(&mut self, rt: &R, name: &str) {
        self.place.follow(rt, name);
    }

    /// It goes on with what the peer didn't take, and counts for how long it has taken nothing.
    fn is_free<R: Wait>(&mut self, rt: &R) -> bool {
        self.place.tell(rt);
        match self.place.spot() {
            Some(spot) => self.connection.is_free(spot),
            None => true,
        }
    }

    /// It leaves its document, since nobody receives any more.
    fn is_handed_on<R: Wait>(&mut self, rt: &R) -> bool {
        self.place.tell(rt);
        self.place.leave();
        match self.place.spot() {
            Some(spot) => self.connection.is_handed_on(spot),
            None => true,
        }
    }
}
