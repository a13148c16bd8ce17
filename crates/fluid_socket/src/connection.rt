//! One connection: how its texts are framed, and how it waits.

use crate::lines::LineStream;
use crate::messages;
use crate::messages::{Handshake, Socket};
use crate::metered::Metered;
use crate::rooms::Place;
use crate::step::{Sent, Step};
use crate::watch::{Watch, Woken};
use crate::wire::Waits;
use std::alloc::Global;
use std::os::fd::RawFd;
use std::sync::Wait;
use std::{io, mem};
use tungstenite::{CloseCode, HandshakeError};

// How texts are framed on the stream.
#[derive(Drop)]
pub(crate) enum Framing {
    Lines(LineStream),
    /// The handshake isn't done yet.
    Opening(Handshake),
    Messages(Socket),
    /// Nothing more comes in or goes out.
    Over,
}

impl Framing {
    pub(crate) fn stream(&mut self) -> Option<&mut Metered> {
        match self {
            Framing::Lines(lines) => Some(lines.stream()),
            Framing::Opening(handshake) => Some(handshake.get_mut()),
            Framing::Messages(socket) => Some(socket.get_mut()),
            Framing::Over => None,
        }
    }

    pub(crate) fn receive(&mut self, alloc: Global) -> Step {
        match self {
            Framing::Lines(lines) => lines.receive(alloc),
            Framing::Messages(socket) => messages::receive(alloc, socket),
            Framing::Opening(_) => Step::Blocked,
            Framing::Over => Step::End,
        }
    }

    fn send(&mut self, alloc: Global, text: &str) -> Sent {
        match self {
            Framing::Lines(lines) => lines.send(text),
            Framing::Messages(socket) => messages::send(alloc, socket, text),
            Framing::Opening(_) => Sent::Failed,
            Framing::Over => Sent::Failed,
        }
    }

    pub(crate) fn put(&mut self, alloc: Global, text: &str) -> Sent {
        match self {
            Framing::Lines(lines) => lines.put(text),
            Framing::Messages(socket) => messages::put(alloc, socket, text),
            Framing::Opening(_) => Sent::Failed,
            Framing::Over => Sent::Failed,
        }
    }

    pub(crate) fn flush(&mut self) -> Sent {
        match self {
            Framing::Lines(lines) => lines.flush(),
            Framing::Messages(socket) => messages::flush(socket),
            Framing::Opening(_) => Sent::Failed,
            Framing::Over => Sent::Failed,
        }
    }
}

// The longest sleep, in ticks.
pub(crate) const LONGEST_REST: u32 = 16;

/// A connection with all that it waits by.
pub(crate) struct Connection {
    pub(crate) framing: Framing,
    // none where it is waited for at a station
    watch: Option<Watch>,
    pub(crate) waits: Waits,
    // it gave a text since it had none to give
    pub(crate) kept: bool,
    // how many bytes it was given to send since some went out last
    pub(crate) held: usize,
    // the peer didn't take what was held
    pub(crate) stuck: bool,
    // for how many ticks it took nothing
    pub(crate) still: u32,
    // nothing more goes out, which wasn't told yet
    pub(crate) failed: bool,
    // nothing more comes in, which was told
    pub(crate) closed: bool,
    // how often the handshake had to wait
    pub(crate) opening: u32,
    // for how many ticks the next sleep lasts: more of them while nobody calls and no text comes in
    pub(crate) rest: u32,
    // for how many ticks nothing came in, since a sign of life was asked for
    pub(crate) silent: u32,
    // how often such a sign was asked for in vain
    pub(crate) pings: u32,
}

impl Connection {
    /// A connection on which nothing was read yet.
    pub(crate) fn new(
        alloc: Global,
        stream: Metered,
        watch: Option<Watch>,
        lines: bool,
        waits: Waits,
    ) -> Connection {
        let framing = if lines {
            Framing::Lines(LineStream::new(alloc, stream))
        } else {
            Framing::Opening(messages::begin(alloc, stream))
        };
        Connection {
            framing,
            watch,
            waits,
            kept: false,
            held: 0,
            stuck: false,
            still: 0,
            failed: false,
            closed: false,
            opening: 0,
            rest: 1,
            silent: 0,
            pings: 0,
        }
    }

    /// What comes in next: it waits until there is something to answer, and for the socket once at most.
    pub(crate) fn receive<R: Wait>(&mut self, rt: &R, alloc: Global, place: &mut Place) -> Step {
        if let Some(step) = self.open() {
            return step;
        }
        self.refill();
        let mut woken = false;
        for _ in rt.forever() {
            match self.framing.receive(alloc) {
                Step::Passed => {}
                Step::Blocked => {
                    // what woke it was no whole text: a peer that sends bit by bit keeps nobody from looking round
                    if woken {
                        return Step::Quiet;
                    }
                    match self.sleep(place) {
                        Step::Blocked => woken = true,
                        step => return step,
                    }
                }
                Step::Text(text) => {
                    self.rest = 1;
                    return Step::Text(text);
                }
                step => {
                    self.framing = Framing::Over;
                    return step;
                }
            }
        }
        unreachable!()
    }

    // A new receive begins.
    pub(crate) fn refill(&mut self) {
        if let Some(stream) = self.framing.stream() {
            stream.refill();
        }
    }

    // There may be something to read.
    pub(crate) fn ready(&mut self) {
        if let Some(stream) = self.framing.stream() {
            stream.ready();
        }
    }

    pub(crate) fn is_spent(&mut self) -> bool {
        match self.framing.stream() {
            Some(stream) => stream.is_spent(),
            None => false,
        }
    }

    // Sleeps where nothing calls for an answer. `Blocked` says that there may be something to read.
    fn sleep(&mut self, place: &mut Place) -> Step {
        if self.is_spent() {
            return Step::Quiet;
        }
        if !place.lie_down() {
            place.look();
            self.rest = 1;
            return Step::Quiet;
        }
        let woken = self.wait(self.rest);
        let called = place.rise();
        let Ok(woken) = woken else {
            self.framing = Framing::Over;
            return Step::Failed;
        };
        if woken == Woken::Socket {
            self.silent = 0;
            self.pings = 0;
            self.ready();
        }
        match (called, woken) {
            (true, _) => {
                self.rest = 1;
                Step::Quiet
            }
            (false, Woken::Socket) => Step::Blocked,
            (false, Woken::Other) => self.tick(),
        }
    }

    fn wait(&mut self, ticks: u32) -> io::Result<Woken> {
        match &mut self.watch {
            Some(watch) => watch.wait(ticks),
            None => Ok(Woken::Other),
        }
    }

    fn watch_reads(&self, reads: bool) -> io::Result<()> {
        match &self.watch {
            Some(watch) => watch.watch_reads(reads),
            None => Ok(()),
        }
    }

    pub(crate) fn descriptor(&mut self) -> RawFd {
        match self.framing.stream() {
            Some(stream) => stream.descriptor(),
            None => -1,
        }
    }

    // A sleep has passed without a word of the peer, and the next one is longer. Behind so many ticks the peer is asked for a
    // sign of life, and where it gave none so often, the connection ends.
    fn tick(&mut self) -> Step {
        self.silent = self.silent.saturating_add(self.rest);
        self.rest = self.rest.saturating_mul(2).min(LONGEST_REST);
        if self.silent < self.waits.silent_ticks {
            self.rest = self.rest.min(self.waits.silent_ticks - self.silent);
            return Step::Quiet;
        }
        self.ask()
    }

    // Asks the peer for a sign of life.
    pub(crate) fn ask(&mut self) -> Step {
        self.silent = 0;
        let Framing::Messages(socket) = &mut self.framing else {
            return Step::Quiet;
        };
        if self.pings >= self.waits.pings {
            self.framing = Framing::Over;
            return Step::End;
        }
        messages::ping(socket);
        self.pings = self.pings.saturating_add(1);
        Step::Quiet
    }

    // Makes the handshake, where it isn't made yet. Where it fails, the answer says why.
    fn open(&mut self) -> Option<Step> {
        for _ in 0..self.waits.handshake_ticks {
            match mem::replace(&mut self.framing, Framing::Over) {
                Framing::Opening(handshake) => {
                    if let Some(step) = self.go_on(handshake) {
                        return Some(step);
                    }
                }
                framing => {
                    self.framing = framing;
                    return None;
                }
            }
        }
        match &self.framing {
            Framing::Opening(_) => {
                self.framing = Framing::Over;
                Some(Step::Failed)
            }
            _ => None,
        }
    }

    // Goes on with a handshake, and waits where it has to.
    fn go_on(&mut self, handshake: Handshake) -> Option<Step> {
        match handshake.handshake() {
            Ok(socket) => {
                self.framing = Framing::Messages(socket);
                None
            }
            Err(HandshakeError::Failure(error)) => Some(messages::refused(error)),
            Err(HandshakeError::Interrupted(handshake)) => {
                self.framing = Framing::Opening(handshake);
                let woken = self.wait(1);
                self.refill();
                self.ready();
                match woken {
                    Ok(_) => None,
                    Err(_) => Some(Step::Failed),
                }
            }
        }
    }

    /// Sends a text: it waits until the peer has taken it.
    pub(crate) fn send<R: Wait>(
        &mut self,
        rt: &R,
        alloc: Global,
        text: &str,
        place: &mut Place,
    ) -> Sent {
        match self.open() {
            None => {}
            Some(Step::NoMemory) => return Sent::NoMemory,
            Some(_) => return Sent::Failed,
        }
        let sent = self.framing.send(alloc, text);
        if sent != Sent::Blocked {
            return self.end_at_fault(sent);
        }
        place.pass_on(rt);
        let sent = self.send_rest();
        self.end_at_fault(sent)
    }

    pub(crate) fn end_at_fault(&mut self, sent: Sent) -> Sent {
        if sent == Sent::Failed {
            self.framing = Framing::Over;
        }
        sent
    }

    // Sends what the peer didn't take at once. Meanwhile only that it takes more ends a wait.
    fn send_rest(&mut self) -> Sent {
        if self.watch_reads(false).is_err() {
            return Sent::Failed;
        }
        let sent = self.wait_for_peer();
        self.ready();
        if self.watch_reads(true).is_err() {
            return Sent::Failed;
        }
        sent
    }

    // Fails where the peer takes nothing for so many ticks in a row.
    fn wait_for_peer(&mut self) -> Sent {
        let mut still = 0u32;
        for _ in 0..u64::MAX {
            match self.wait(1) {
                Ok(Woken::Socket) => still = 0,
                Ok(Woken::Other) => still = still.saturating_add(1),
                Err(_) => return Sent::Failed,
            }
            if still >= self.waits.send_ticks {
                return Sent::Failed;
            }
            let sent = self.framing.flush();
            if sent != Sent::Blocked {
                return sent;
            }
        }
        Sent::Failed
    }
}

impl Drop for Connection {
    // A connection that is still open is closed as one that has done its work.
    fn drop(self) {
        let Connection {
            framing,
            watch: _,
            waits: _,
            kept: _,
            held: _,
            stuck: _,
            still: _,
            failed: _,
            closed: _,
            opening: _,
            rest: _,
            silent: _,
            pings: _,
        } = self;
        match framing {
            Framing::Messages(mut socket) => messages::close(&mut socket, CloseCode::Normal),
            Framing::Lines(mut lines) => {
                let _ = lines.flush();
            }
            Framing::Opening(_) => {}
            Framing::Over => {}
        }
    }
}
