//! Where a wire sleeps.

use mio::unix::SourceFd;
use mio::{Events, Interest, Poll, Token, Waker};
use std::alloc::Global;
use std::io;
use std::net::Net;
use std::os::fd::RawFd;
use std::time::Duration;

const SOCKET: Token = Token(0);

const CALL: Token = Token(1);

/// Waits for the socket of one wire, for a call of another wire, or for the end of some ticks.
#[derive(Drop)]
pub(crate) struct Watch {
    poll: Poll,
    events: Events<Global>,
    socket: RawFd,
    tick: Duration,
}

/// What ended a wait.
#[derive(Clone, Copy, PartialEq, Eq)]
pub(crate) enum Woken {
    Socket,
    /// A call, or nothing but the time.
    Other,
}

impl Watch {
    /// Watches a socket, and gives what ends its waits from outside. The socket stays open for as long as this stands.
    pub(crate) fn new<N: Net>(
        net: &N,
        alloc: Global,
        socket: RawFd,
        tick: Duration,
    ) -> io::Result<(Watch, Waker)> {
        let poll = Poll::new(net)?;
        poll.registry().register(
            &mut SourceFd(&socket),
            SOCKET,
            Interest::READABLE | Interest::WRITABLE,
        )?;
        let waker = Waker::new(poll.registry(), CALL)?;
        let events = Events::with_capacity(alloc, 2)?;
        let watch = Watch {
            poll,
            events,
            socket,
            tick,
        };
        Ok((watch, waker))
    }

    /// Sleeps for so many ticks at most.
    pub(crate) fn wait(&mut self, ticks: u32) -> io::Result<Woken> {
        let longest = self.tick.saturating_mul(ticks);
        self.poll.poll(&mut self.events, Some(longest))?;
        if self.events.iter().any(|event| event.token() == SOCKET) {
            return Ok(Woken::Socket);
        }
        Ok(Woken::Other)
    }

    /// From now on only that the peer takes more ends a wait, or only that and what it sends. What is so already ends the
    /// next wait.
    pub(crate) fn watch_reads(&self, reads: bool) -> io::Result<()> {
        let interest = if reads {
            Interest::READABLE | Interest::WRITABLE
        } else {
            Interest::WRITABLE
        };
        self.poll
            .registry()
            .reregister(&mut SourceFd(&self.socket), SOCKET, interest)
    }
}
