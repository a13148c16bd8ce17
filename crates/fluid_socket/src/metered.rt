//! The stream of a connection.

use mio::net::TcpStream;
use std::io::{ErrorKind, Read, Write};
use std::os::fd::{AsRawFd, RawFd};
use std::{io, mem};

// How often one receive reads at most: of a wire that has a thread, and of one of the many of a station.
const MOST_READS: u32 = 300;

const MOST_ATTENDED: u32 = 32;

/// A stream that asks the system only where the system said that there is something, and only so often for one receive. So
/// a peer that sends without end, and without ever ending a text, keeps no thread in one receive.
#[derive(Drop)]
pub(crate) struct Metered {
    stream: TcpStream,
    readable: bool,
    left: u32,
    // whoever waits for it hears of the peer's end too, so that a read that finds little says that there is no more
    attended: bool,
    // the peer's end may stand behind what there is
    ended: bool,
    // nothing goes out at the moment
    corked: bool,
    // something went out since that was asked last
    wrote: bool,
    // a read found as much as it asked for
    full: bool,
}

impl Metered {
    /// Nothing is known of the stream yet, so that the first read asks.
    pub(crate) fn new(stream: TcpStream) -> Metered {
        Metered {
            stream,
            readable: true,
            left: MOST_READS,
            attended: false,
            ended: false,
            corked: false,
            wrote: false,
            full: false,
        }
    }

    /// The same, of a stream that a station waits for.
    pub(crate) fn attended(stream: TcpStream) -> Metered {
        let mut metered = Metered::new(stream);
        metered.attended = true;
        metered.refill();
        metered
    }

    /// The system told of the peer's end.
    pub(crate) fn end(&mut self) {
        self.ended = true;
    }

    /// From now on a write goes out, or, where a station waits for the stream, what is written has to be held.
    pub(crate) fn cork(&mut self, corked: bool) {
        self.corked = corked && self.attended;
    }

    /// Whether something went out since that was asked last.
    pub(crate) fn take_wrote(&mut self) -> bool {
        mem::replace(&mut self.wrote, false)
    }

    /// Whether a read found as much as it asked for, since that was asked last.
    pub(crate) fn take_full(&mut self) -> bool {
        mem::replace(&mut self.full, false)
    }

    pub(crate) fn descriptor(&self) -> RawFd {
        self.stream.as_raw_fd()
    }

    /// The system said that there may be something to read.
    pub(crate) fn ready(&mut self) {
        self.readable = true;
    }

    /// A new receive begins.
    pub(crate) fn refill(&mut self) {
        self.left = if self.attended {
            MOST_ATTENDED
        } else {
            MOST_READS
        };
    }

    /// Whether this receive has read as often as it may.
    pub(crate) fn is_spent(&self) -> bool {
        self.left == 0
    }
}

impl Read for Metered {
    fn read(&mut self, buf: &mut [u8]) -> io::Result<usize> {
        if !self.readable || self.left == 0 {
            return Err(io::Error::from(ErrorKind::WouldBlock));
        }
        self.left -= 1;
        match self.stream.read(buf) {
            Ok(count) => {
                if count == buf.len() {
                    self.full = true;
                } else if self.attended && !self.ended {
                    self.readable = false;
                }
                Ok(count)
            }
            Err(error) => {
                match error.kind() {
                    ErrorKind::WouldBlock => self.readable = false,
                    // a signal came between: the next receive tries again
                    ErrorKind::Interrupted => self.left = 0,
                    _ => return Err(error),
                }
                Err(io::Error::from(ErrorKind::WouldBlock))
            }
        }
    }
}

impl Write for Metered {
    fn write(&mut self, buf: &[u8]) -> io::Result<usize> {
        if self.corked {
            return Err(io::Error::from(ErrorKind::WouldBlock));
        }
        let written = self.stream.write(buf);
        if written.is_ok() {
            self.wrote = true;
        }
        written
    }

    fn flush(&mut self) -> io::Result<()> {
        Ok(())
    }
}
