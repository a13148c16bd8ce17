//! The two ends of a connection. A frame of a client has a mask of zeros, so that its bytes stand as they are.

use fluid_front::{Front, Station};
use fluid_io::MemorySink;
use fluid_lines::{Recv, Wire, WireFault};
use fluid_socket::{SocketWire, TcpFront, TcpStation, Waits};
use std::alloc::Global;
use std::io::{Read, Write};
use std::net::{Ipv4Addr, Net, SocketAddr, TcpStream};
use std::process::Abort;
use std::sync::Wait;
use std::thread::Threads;
use std::time::{Clock, Duration, Instant};
use tungstenite::handshake::client::{request_of, start};
use tungstenite::{HandshakeError, Message, NoMask, WebSocket};

/// Short ticks, but with an hour's patience.
pub(crate) const PATIENT: Waits = Waits {
    tick_milliseconds: 5,
    handshake_ticks: 2000,
    send_ticks: 2000,
    silent_ticks: 1_000_000,
    pings: 2,
};

/// Ticks of an hour: a wire wakes only where it is called or where something comes.
pub(crate) const HOURLY: Waits = Waits {
    tick_milliseconds: 3_600_000,
    handshake_ticks: 2000,
    send_ticks: 2000,
    silent_ticks: 1_000_000,
    pings: 2,
};

/// What a test has.
pub(crate) trait Host: Net<Stream = TcpStream>
    + Clock
    + Threads
    + Wait
    + Abort
    + Send
    + Sync
    + Copy
    + Drop
    + 'static {}

impl<R> Host for R
where
    R: Net<Stream = TcpStream>
        + Clock
        + Threads
        + Wait
        + Abort
        + Send
        + Sync
        + Copy
        + Drop
        + 'static,
{}

/// A front that listens at a port that the system chose.
pub(crate) fn listening<R: Host>(
    rt: &R,
    alloc: Global,
    lines: bool,
    waits: Waits,
) -> TcpFront<R, MemorySink> {
    let sink = MemorySink::new(alloc, Vec::new(alloc));
    let mut front = TcpFront::waiting(alloc, *rt, sink, waits).expect(rt, "memory");
    assert!(rt; front.listen(rt, 0, lines).is_ok(), "it listens");
    front
}

/// What a receive answers, without the text.
#[derive(Clone, Copy, PartialEq)]
pub(crate) enum Heard {
    Quiet,
    Text,
    End,
    Other,
}

/// A wire as its job has it: it waits by itself, or its station waits for it.
#[derive(Drop)]
pub(crate) struct Tended<R: Net + Clock> {
    wire: SocketWire,
    station: Option<TcpStation<R>>,
}

impl<R: Host> Tended<R> {
    /// What comes in next. At a station it has a cycle when it is due, and is quiet while the peer has to take something first.
    pub(crate) fn recv(&mut self, rt: &R, alloc: Global) -> Result<Recv, WireFault> {
        let Some(station) = &mut self.station else {
            return self.wire.recv(rt, alloc);
        };
        wait_for_cycle(rt, station);
        let answer = if self.wire.is_free(rt) {
            self.wire.recv(rt, alloc)
        } else {
            Ok(Recv::Quiet)
        };
        station.cycled(0);
        answer
    }

    pub(crate) fn hear(&mut self, rt: &R, alloc: Global) -> Heard {
        let answer = self.recv(rt, alloc);
        let heard = match &answer {
            Ok(Recv::Quiet) => Heard::Quiet,
            Ok(Recv::Text(_)) => Heard::Text,
            Ok(Recv::End) => Heard::End,
            _ => Heard::Other,
        };
        drop(answer);
        heard
    }

    /// How long it is quiet for so many receives.
    pub(crate) fn rest(&mut self, rt: &R, alloc: Global, receives: u32) -> Duration {
        let begun = Instant::now(rt).expect(rt, "a clock");
        for receive in 0..receives {
            assert!(rt; self.hear(rt, alloc) == Heard::Quiet, "receive {receive}");
        }
        begun.elapsed(rt).expect(rt, "a clock")
    }

    /// Sends a text. At a station it is held until the wire has a cycle.
    pub(crate) fn send(&mut self, rt: &R, alloc: Global, text: &str) -> Result<(), WireFault> {
        self.wire.send(rt, alloc, text)
    }

    pub(crate) fn follow(&mut self, rt: &R, name: &str) {
        self.wire.follow(rt, name);
    }

    /// Lets the wire go when the peer has taken all that was sent.
    pub(crate) fn hand_on(self, rt: &R) {
        let Tended { mut wire, station } = self;
        if let Some(mut station) = station {
            for _ in rt.forever() {
                let whole = wire.is_handed_on(rt);
                station.cycled(0);
                if whole {
                    break;
                }
                wait_for_cycle(rt, &mut station);
            }
        }
        drop(wire);
    }
}

fn wait_for_cycle<R: Host>(rt: &R, station: &mut TcpStation<R>) {
    for _ in rt.forever() {
        station.wait(rt);
        if station.due().is_some() {
            return;
        }
    }
}

/// A peer, and the wire that the front gives for it.
pub(crate) fn connected<R: Host>(
    rt: &R,
    alloc: Global,
    front: &mut TcpFront<R, MemorySink>,
    attended: bool,
) -> (TcpStream, Tended<R>) {
    let mut station = None;
    if attended {
        station = Some(front.station(alloc).expect(rt, "a station"));
    }
    let address = SocketAddr::from((Ipv4Addr::LOCALHOST, front.port()));
    let stream = TcpStream::connect(rt, address).expect(rt, "a connection");
    let Ok(Some(mut wire)) = front.accept(rt, alloc) else {
        panic!(rt; "no wire")
    };
    if let Some(station) = &mut station {
        assert!(rt; station.add(rt, 0, &mut wire).is_ok(), "it waits for it");
    }
    (stream, Tended { wire, station })
}

/// A peer and its wire, where the front goes when it has given it.
pub(crate) fn met<R: Host>(
    rt: &R,
    alloc: Global,
    lines: bool,
    waits: Waits,
    attended: bool,
) -> (TcpStream, Tended<R>) {
    let mut front = listening(rt, alloc, lines, waits);
    let both = connected(rt, alloc, &mut front, attended);
    drop(front);
    both
}

/// The same behind the handshake, where there is one.
pub(crate) fn greeted<R: Host>(
    rt: &R,
    alloc: Global,
    lines: bool,
    waits: Waits,
    attended: bool,
) -> (TcpStream, Tended<R>) {
    let (stream, mut wire) = met(rt, alloc, lines, waits, attended);
    if lines {
        return (stream, wire);
    }
    let peer = shaken(rt, alloc, stream, &mut wire);
    (peer.into_inner(), wire)
}

/// The peer's handshake by `tungstenite`, beside the wire's.
pub(crate) fn shaken<R: Host>(
    rt: &R,
    alloc: Global,
    stream: TcpStream,
    wire: &mut Tended<R>,
) -> WebSocket<TcpStream, NoMask> {
    assert!(rt; stream.set_nonblocking(true).is_ok());
    let request = request_of(alloc, "ws://localhost/").expect(rt, "a request");
    let begun = start(alloc, [7; 16], NoMask, request, stream, None).expect(rt, "a head");
    let Err(HandshakeError::Interrupted(begun)) = begun.handshake() else {
        panic!(rt; "an answer before the wire has read")
    };
    let _ = wire.recv(rt, alloc);
    assert!(rt; begun.get_ref().set_nonblocking(false).is_ok());
    match begun.handshake() {
        Ok((socket, _response)) => socket,
        Err(_) => panic!(rt; "no handshake"),
    }
}

/// What the wire answers until it has ended or was quiet so often in a row: a text as [text], the end as a full stop, a fault
/// as !, a text that is too long as + and its bytes, and silence as ?.
pub(crate) fn received<R: Host>(
    rt: &R,
    alloc: Global,
    wire: &mut Tended<R>,
    patience: u32,
) -> String {
    let mut told = String::new(alloc);
    let mut quiet = 0u32;
    for _ in 0..100_000 {
        let answer = match wire.recv(rt, alloc) {
            Ok(Recv::Quiet) => {
                quiet = quiet.saturating_add(1);
                if quiet < patience {
                    continue;
                }
                String::from_str(alloc, "?")
            }
            Ok(Recv::Text(text)) => format!(in alloc; "[{}]", text.as_str()),
            Ok(Recv::TooLong(size)) => format!(in alloc; "+{size}"),
            Ok(Recv::End) => String::from_str(alloc, "."),
            Err(WireFault::Failed) => String::from_str(alloc, "!"),
            Err(WireFault::NoMemory) => String::from_str(alloc, "no memory"),
        };
        let answer = answer.expect(rt, "memory");
        let last = !answer.as_str().starts_with('[');
        told.push_str(answer.as_str()).expect(rt, "memory");
        if last {
            break;
        }
        quiet = 0;
    }
    told
}

/// The wire answers so, in these words.
pub(crate) fn assert_received<R: Host>(
    rt: &R,
    alloc: Global,
    wire: &mut Tended<R>,
    patience: u32,
    want: &str,
    row: &str,
) {
    let attended = wire.station.is_some();
    let told = received(rt, alloc, wire, patience);
    assert!(rt;
        told.as_str() == want,
        "{row}, {attended}: {}",
        told.as_str()
    );
    drop(told);
}

// A text as [text], a pong as (the bytes that it carries), a close as its code.
fn word<R: Abort>(rt: &R, alloc: Global, message: &Message) -> String {
    let word = match message {
        Message::Text(text) => format!(in alloc; "[{}]", text.as_str()),
        Message::Pong(bytes) => format!(in alloc; "({})", bytes.len()),
        Message::Ping(_) => String::from_str(alloc, "ping "),
        Message::Close(frame) => match frame {
            Some(frame) => format!(in alloc; "{}", frame.code),
            None => String::from_str(alloc, "no code"),
        },
        Message::Binary(_) => String::from_str(alloc, "binary"),
    };
    word.expect(rt, "memory")
}

// What a peer reads until its socket is closed or nothing came for half a second.
fn read_by_peer<R: Wait + Abort>(
    rt: &R,
    alloc: Global,
    socket: &mut WebSocket<TcpStream, NoMask>,
) -> String {
    let half = Duration::from_millis(500);
    assert!(rt; socket.get_ref().set_read_timeout(Some(half)).is_ok());
    let mut told = String::new(alloc);
    for _ in 0..1000 {
        match socket.read() {
            Ok(message) => {
                let word = word(rt, alloc, &message);
                told.push_str(word.as_str()).expect(rt, "memory");
            }
            Err(_) => break,
        }
    }
    told
}

/// The peer reads so, in these words.
pub(crate) fn assert_read<R: Wait + Abort>(
    rt: &R,
    alloc: Global,
    peer: WebSocket<TcpStream, NoMask>,
    want: &str,
    row: &str,
    attended: bool,
) {
    let mut peer = peer;
    let told = read_by_peer(rt, alloc, &mut peer);
    assert!(rt;
        told.as_str() == want,
        "{row}, {attended}: {}",
        told.as_str()
    );
    drop(told);
    drop(peer);
}

/// Writes all of the bytes.
pub(crate) fn write_bytes<R: Abort>(rt: &R, stream: &mut TcpStream, bytes: &[u8]) {
    assert!(rt; stream.write_all(bytes).is_ok(), "the peer writes");
}

/// What a peer reads until the end or until nothing came for half a second.
pub(crate) fn read_bytes<R: Abort>(rt: &R, alloc: Global, stream: &mut TcpStream) -> Vec<u8> {
    let half = Duration::from_millis(500);
    assert!(rt; stream.set_read_timeout(Some(half)).is_ok());
    let mut told = Vec::new(alloc);
    let mut chunk = [0u8; 1024];
    for _ in 0..1000 {
        match stream.read(&mut chunk) {
            Ok(count) if count > 0 => told
                .extend_from_slice(chunk.get(..count).unwrap_or(&[]))
                .expect(rt, "memory"),
            _ => break,
        }
    }
    told
}

/// Nothing. A test that has no stream of its own calls it, since the prover wants the type of `Host`'s streams named where `Host` is asked for.
pub(crate) fn names_streams(_stream: Option<TcpStream>) {}
