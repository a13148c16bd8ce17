//! A connection that never waits: what is done at each of its cycles. What comes in is taken as far as it is there, and what goes out
//! is held until there is nothing more to take.

use crate::connection::{Connection, Framing, LONGEST_REST};
use crate::messages;
use crate::spots::Spot;
use crate::step::{Sent, Step};
use std::alloc::Global;
use std::mem;
use tungstenite::HandshakeError;

// With so many bytes it doesn't wait for the end of its cycle.
const MUCH_HELD: usize = 65_536;

impl Connection {
    /// What has come in, of a connection that never waits.
    pub(crate) fn look(&mut self, alloc: Global, spot: &Spot) -> Step {
        if self.closed {
            return Step::End;
        }
        if self.failed {
            self.failed = false;
            return Step::Failed;
        }
        let ticks = spot.take_ticks();
        if spot.take_readable() {
            self.silent = 0;
            self.pings = 0;
            if spot.has_ended() {
                if let Some(stream) = self.framing.stream() {
                    stream.end();
                }
            }
            self.ready();
        } else {
            self.silent = self.silent.saturating_add(ticks);
        }
        if spot.take_called() || ticks == 0 {
            self.rest = 1;
        }
        let step = self.step(alloc, spot, ticks);
        spot.set_rest(self.rest);
        step
    }

    fn step(&mut self, alloc: Global, spot: &Spot, ticks: u32) -> Step {
        if let Some(step) = self.open_now() {
            return step;
        }
        self.refill();
        for _ in 0..u64::MAX {
            match self.framing.receive(alloc) {
                Step::Passed => {}
                Step::Blocked => break,
                Step::Text(text) => {
                    self.rest = 1;
                    spot.call_again();
                    self.keep();
                    return Step::Text(text);
                }
                step => {
                    self.close();
                    return step;
                }
            }
        }
        self.kept = false;
        if self.is_spent() {
            spot.call_again();
        }
        if self.push_out() == Sent::Failed {
            self.failed = false;
            return Step::Failed;
        }
        self.be_silent(ticks)
    }

    // Nothing more comes in. What is held still goes out, as far as the peer takes it.
    fn close(&mut self) {
        self.closed = true;
        if self.push_out() != Sent::Blocked {
            self.framing = Framing::Over;
        }
    }

    /// No station waits for it, so nothing comes in.
    pub(crate) fn give_up(&mut self) -> Step {
        if self.closed {
            return Step::End;
        }
        self.closed = true;
        self.framing = Framing::Over;
        Step::Failed
    }

    // A text is given. What is held goes out behind it, but for what was held behind one before.
    fn keep(&mut self) {
        if self.kept {
            let _ = self.push_out();
        }
        self.kept = true;
    }

    // So many ticks have passed without a word of the peer.
    fn be_silent(&mut self, ticks: u32) -> Step {
        if ticks == 0 {
            return Step::Quiet;
        }
        self.rest = self.rest.saturating_mul(2).min(LONGEST_REST);
        if self.silent < self.waits.silent_ticks {
            self.rest = self.rest.min(self.waits.silent_ticks - self.silent);
            return Step::Quiet;
        }
        self.ask()
    }

    // Sends what is held, as far as the peer takes it.
    fn push_out(&mut self) -> Sent {
        self.held = 0;
        let sent = self.framing.flush();
        match sent {
            Sent::Blocked => {
                if !self.stuck {
                    self.stuck = true;
                    self.still = 0;
                }
                self.rest = 1;
            }
            _ => self.stuck = false,
        }
        if sent == Sent::Failed {
            self.fail();
        }
        sent
    }

    // Nothing more comes in or goes out: the next receive says so.
    fn fail(&mut self) {
        self.framing = Framing::Over;
        self.stuck = false;
        self.failed = true;
    }

    /// Whether the peer has taken what was held, or the connection has failed.
    pub(crate) fn is_free(&mut self, spot: &Spot) -> bool {
        if !self.stuck {
            return true;
        }
        let ticks = spot.take_ticks();
        if ticks == 0 && !spot.take_writable() {
            spot.set_rest(1);
            return false;
        }
        let sent = self.push_out();
        if sent != Sent::Blocked {
            return true;
        }
        spot.set_rest(1);
        if self.took() {
            self.still = 0;
            return false;
        }
        self.still = self.still.saturating_add(ticks);
        if self.still < self.waits.send_ticks {
            return false;
        }
        self.fail();
        true
    }

    /// Sends what is held, and says whether the peer has taken it all, or the connection has failed.
    pub(crate) fn is_handed_on(&mut self, spot: &Spot) -> bool {
        if self.stuck {
            return self.is_free(spot);
        }
        let sent = self.push_out();
        spot.set_rest(self.rest);
        sent != Sent::Blocked
    }

    // Whether the peer took something since that was asked last.
    fn took(&mut self) -> bool {
        match self.framing.stream() {
            Some(stream) => stream.take_wrote(),
            None => false,
        }
    }

    // Goes on with a handshake, of a connection that never waits.
    fn open_now(&mut self) -> Option<Step> {
        match mem::replace(&mut self.framing, Framing::Over) {
            Framing::Opening(handshake) => match handshake.handshake() {
                Ok(socket) => {
                    self.framing = Framing::Messages(socket);
                    None
                }
                Err(HandshakeError::Failure(error)) => Some(messages::refused(error)),
                Err(HandshakeError::Interrupted(handshake)) => {
                    self.opening = self.opening.saturating_add(1);
                    if self.opening > self.waits.handshake_ticks {
                        return Some(Step::Failed);
                    }
                    self.framing = Framing::Opening(handshake);
                    self.refill();
                    Some(Step::Quiet)
                }
            },
            framing => {
                self.framing = framing;
                None
            }
        }
    }

    /// Holds a text that is to go out, of a connection that never waits.
    pub(crate) fn hold(&mut self, alloc: Global, text: &str) -> Sent {
        if self.closed {
            return Sent::Failed;
        }
        match self.framing.put(alloc, text) {
            Sent::Blocked => {
                self.hold_less(text.len());
                Sent::Whole
            }
            other => self.end_at_fault(other),
        }
    }

    // So much more is held. Where it is much, it goes out as far as the peer takes it.
    fn hold_less(&mut self, more: usize) {
        self.held = self.held.saturating_add(more);
        if self.held > MUCH_HELD {
            let _ = self.push_out();
        }
    }
}
