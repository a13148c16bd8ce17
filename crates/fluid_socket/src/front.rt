//! The front over TCP.
ghost use Rattle.std.specs.Prelude.{◌≡◌, ℕ, ◌+◌, ◌-◌, ◌*◌, ◌^◌, ◌<◌, ◌≤◌, None, IfOk, OnErr, OnOk};
ghost use Rattle.fluid_io.specs.Causes.{HasCause};
ghost use Rattle.fluid_front.specs.Fronts.{Accepts, CountsStay, GivesNothing};
ghost use Rattle.fluid_socket.specs.Tcp.{tcp_seen, new_front};

use crate::connection::Connection;
use crate::metered::Metered;
use crate::rooms::{Place, Rooms};
use crate::station::{TcpBell, TcpStation};
use crate::watch::Watch;
use crate::wire::{SocketWire, Waits};
use fluid_front::{Front, FrontFault};
use fluid_io::{Failed, Sink, write_all};
use fluid_json::NoMemory;
use libc::types::rlimit;
use mio::net::TcpStream;
use std::alloc::{AllocError, Global};
use std::marker::Model;
use std::net::{Ipv4Addr, Net, SocketAddr, SocketAddrV4, TcpListener};
use std::os::fd::AsRawFd;
use std::sync::atomic::AtomicU64;
use std::sync::{Arc, Wait};
use std::time::{Clock, Duration};
use std::{io, net};

// How many milliseconds the front waits where a peer can't be let in.
const PAUSE: u64 = 50;

// How many descriptors whoever waits takes: a wire by itself, or a station.
const WAITING_DESCRIPTORS: u64 = 2;

// How many the program has besides: its three streams and the listener.
const OWN_DESCRIPTORS: u64 = 4;

/// Listens on this machine's own address, 127.0.0.1, and gives a `SocketWire` for each peer. Where it can't let a peer in, that
/// peer is left, and the front goes on.
#[derive(Drop)]
pub struct TcpFront<N: Net, K: Sink> {
    alloc: Global,
    net: N,
    writer: K,
    waits: Waits,
    rooms: Arc<Rooms>,
    listener: Option<TcpListener>,
    port: u16,
    lines: bool,
    // how many stations it is going to give, where its wires are waited for at stations
    planned: Option<u32>,
    // how many it gave
    stations: u64,
    given: u64,
    nones: u64,
    faults: u64,
}

impl<N: Net, K: Sink> Model for TcpFront<N, K> {
    ghost use Rattle.fluid_socket.specs.Tcp.{TcpFronting};

    ghost Value = { TcpFronting };

    ghost view = { λ f. record {
      port = f.port;
      writer = K.seen f.writer;
      given = f.given;
      nones = f.nones;
      faults = f.faults;
    } };
}

impl<N: Net, K: Sink> TcpFront<N, K> {
    /// It listens nowhere yet, and no wire was given. `listen` writes one line to `writer`.
    pub fn new(alloc: Global, net: N, writer: K) -> Result<TcpFront<N, K>, NoMemory>
    where
        N: Drop,
        K: Drop,
        ensures { IfOk result (λ front. front ≡ new_front (K.seen writer)) }
    {
        TcpFront::waiting(alloc, net, writer, Waits::default())
    }

    /// The same, of a front whose wires are going to be waited for at so many stations: what it writes counts fewer descriptors for
    /// each connection.
    pub fn at_stations(
        alloc: Global,
        net: N,
        writer: K,
        stations: u32,
    ) -> Result<TcpFront<N, K>, NoMemory>
    where
        N: Drop,
        K: Drop,
        ensures { IfOk result (λ front. front ≡ new_front (K.seen writer)) }
    {
        let mut front = TcpFront::new(alloc, net, writer)?;
        front.planned = Some(stations);
        Ok(front)
    }

    /// The same, with the waits of its wires.
    pub fn waiting(
        alloc: Global,
        net: N,
        writer: K,
        waits: Waits,
    ) -> Result<TcpFront<N, K>, NoMemory>
    where
        N: Drop,
        K: Drop,
        ensures { IfOk result (λ front. front ≡ new_front (K.seen writer)) }
    {
        let rooms = Arc::new(alloc, Rooms::new(alloc))?;
        Ok(TcpFront {
            alloc,
            net,
            writer,
            waits,
            rooms,
            listener: None,
            port: 0,
            lines: false,
            planned: None,
            stations: 0,
            given: 0,
            nones: 0,
            faults: 0,
        })
    }

    /// The port at which it listens, and 0 where it doesn't.
    pub fn port(&self) -> u16
        ensures { result ≡ self.now.port }
    {
        self.port
    }

    /// The writer that it was given. It listens no more.
    pub fn into_writer(self) -> K
    where
        N: Drop,
        ensures { K.seen result ≡ self.writer }
    {
        let TcpFront {
            alloc: _,
            net: _,
            writer,
            waits: _,
            rooms: _,
            listener: _,
            port: _,
            lines: _,
            planned: _,
            stations: _,
            given: _,
            nones: _,
            faults: _,
        } = self;
        writer
    }

    // Listens at a port of the loopback address, in place of where it listened.
    fn bind(&mut self, port: u16) -> io::Result<()>
        ensures { self.new ≡ record self.old { port = self.new.port } }
    {
        self.listener = None;
        self.port = 0;
        let address = SocketAddr::V4(SocketAddrV4::new(Ipv4Addr::LOCALHOST, port));
        let listener = TcpListener::from(mio::net::TcpListener::bind(&self.net, address)?);
        listener.set_nonblocking(false)?;
        self.port = listener.local_addr()?.port();
        self.listener = Some(listener);
        Ok(())
    }

    // Writes the one line that says how listening went.
    fn tell(&mut self, bound: &io::Result<()>, port: u16) -> Result<(), Failed>
        ensures { self.new ≡ record self.old { writer = self.new.writer } }
    {
        let line = match bound {
            Ok(()) => self.open_line(),
            Err(error) => format!(in self.alloc; "cannot listen on 127.0.0.1:{port}: {error}\n"),
        };
        let Ok(line) = line else {
            return Err(Failed);
        };
        write_all(&mut self.writer, line.as_bytes())?;
        self.writer.flush()
    }

    fn open_line(&self) -> Result<String, AllocError> {
        let port = self.port;
        let mode = if self.lines { "lines" } else { "WebSockets" };
        match self.most_connections() {
            Some(most) => {
                format!(in self.alloc;
                    "listening on 127.0.0.1:{port} for {mode}, at most {most} connections at once\n"
                )
            }
            None => format!(in self.alloc; "listening on 127.0.0.1:{port} for {mode}\n"),
        }
    }

    // How many connections can be open at once by the limit on descriptors.
    fn most_connections(&self) -> Option<u64> {
        let mut limit = rlimit {
            rlim_cur: 0,
            rlim_max: 0,
        };
        if libc::getrlimit(libc::RLIMIT_NOFILE, &mut limit) != 0 {
            return None;
        }
        let free = limit.rlim_cur.saturating_sub(OWN_DESCRIPTORS);
        match self.planned {
            Some(stations) => Some(free.saturating_sub(u64::from(stations) * WAITING_DESCRIPTORS)),
            None => Some(free / (1 + WAITING_DESCRIPTORS)),
        }
    }

    // The wire of the next peer that can be let in, or none where the listener has failed.
    fn next_wire<R: Wait>(
        &self,
        rt: &R,
        alloc: Global,
        listener: &TcpListener,
    ) -> Option<SocketWire> {
        for _ in rt.forever() {
            match listener.accept() {
                Ok((stream, _peer)) => {
                    if let Some(wire) = self.let_in(alloc, stream) {
                        return Some(wire);
                    }
                }
                Err(error) => {
                    if is_of_listener(&error) {
                        return None;
                    }
                }
            }
            AtomicU64::new(0).park_timeout(rt, 0, Duration::from_millis(PAUSE));
        }
        unreachable!()
    }

    // The wire of a peer, where there are the descriptors and the memory for it.
    fn let_in(&self, alloc: Global, stream: net::TcpStream) -> Option<SocketWire> {
        stream.set_nodelay(true).ok()?;
        stream.set_nonblocking(true).ok()?;
        let stream = TcpStream::from_std(stream);
        let rooms = self.rooms.clone().ok()?;
        if self.stations > 0 {
            let stream = Metered::attended(stream);
            let connection = Connection::new(alloc, stream, None, self.lines, self.waits);
            return Some(SocketWire::new(connection, Place::nowhere(rooms)));
        }
        let tick = self.tick();
        let (watch, waker) = Watch::new(&self.net, alloc, stream.as_raw_fd(), tick).ok()?;
        let place = Place::new(alloc, rooms, waker).ok()?;
        let stream = Metered::new(stream);
        let connection = Connection::new(alloc, stream, Some(watch), self.lines, self.waits);
        Some(SocketWire::new(connection, place))
    }

    fn tick(&self) -> Duration {
        Duration::from_millis(self.waits.tick_milliseconds.max(1))
    }
}

// Whether an error of `accept` is of the listener itself: it is no socket that listens. Every other is of one peer, or passes.
fn is_of_listener(error: &io::Error) -> bool {
    match error.raw_os_error() {
        Some(code) => code == libc::EBADF || code == libc::EINVAL || code == libc::ENOTSOCK,
        None => false,
    }
}

impl<N: Net + Clock + Copy + Drop, K: Sink> Front for TcpFront<N, K> {
    type W = SocketWire;

    type S = TcpStation<N>;

    type B = TcpBell;

    ghost seen = { tcp_seen };

    /// It writes one line: the address with the real port, the mode, and how many connections can be open at once by the limit on
    /// descriptors; or why it failed. It also fails where that line can't be written.
    fn listen<R: Wait>(&mut self, _rt: &R, port: u16, lines: bool) -> Result<(), Failed>
        ensures cause { HasCause (tcp_seen self.old).faults (tcp_seen self.new).faults result }
        ensures same { GivesNothing (tcp_seen self.old) (tcp_seen self.new) }
        ensures somewhere { OnOk result (0 < self.new.port) }
        ensures nowhere { OnErr result (self.new.port ≡ 0) }
    {
        self.lines = lines;
        let bound = self.bind(port);
        let told = self.tell(&bound, port);
        if bound.is_err() || told.is_err() || self.port == 0 {
            self.listener = None;
            self.port = 0;
            self.faults = self.faults.saturating_add(1);
            return Err(Failed);
        }
        Ok(())
    }

    /// A front that listens nowhere gives no wire. One that listens waits for the next peer, and has no end. It fails where the
    /// listener itself does.
    fn accept<R: Wait>(&mut self, rt: &R, alloc: Global) -> Result<Option<SocketWire>, FrontFault> {
        let Some(listener) = &self.listener else {
            self.nones = self.nones.saturating_add(1);
            return Ok(None);
        };
        match self.next_wire(rt, alloc, listener) {
            Some(wire) => {
                self.given = self.given.saturating_add(1);
                Ok(Some(wire))
            }
            None => {
                self.faults = self.faults.saturating_add(1);
                Err(FrontFault::Failed)
            }
        }
    }

    fn station(&mut self, alloc: Global) -> Result<TcpStation<N>, FrontFault> {
        self.stations = self.stations.saturating_add(1);
        match TcpStation::new(alloc, self.net, self.stations, self.tick()) {
            Ok(station) => Ok(station),
            Err(FrontFault::NoMemory) => Err(FrontFault::NoMemory),
            Err(FrontFault::Failed) => {
                self.faults = self.faults.saturating_add(1);
                Err(FrontFault::Failed)
            }
        }
    }
}
