//! Texts as messages of a WebSocket (RFC 6455).

use crate::metered::Metered;
use crate::origin::OwnOrigins;
use crate::step::{Sent, Step};
use bytes::Bytes;
use fluid_io::LONGEST_TEXT;
use fluid_json::Text;
use std::alloc::Global;
use std::io;
use std::io::ErrorKind;
use tungstenite::handshake::server::{ServerHandshake, start};
use tungstenite::{
    CloseCode, CloseFrame, Error, Message, MidHandshake, NoMask, Utf8Bytes, WebSocket,
    WebSocketConfig,
};
use websocket::error::{CapacityError, ProtocolError};

pub(crate) type Handshake = MidHandshake<ServerHandshake<Metered, OwnOrigins>>;

pub(crate) type Socket = WebSocket<Metered, NoMask>;

// How many bytes of answers to pings wait for a peer that doesn't read.
const MOST_WAITING: usize = 65_536;

// How many bytes one read asks for: of a peer that says little, and of one whose last read found as much as it asked for.
const LITTLE: usize = 512;

const MUCH: usize = 16_384;

// The bounds of a connection. A message that is too long is refused by what its frames announce, before it is held.
fn bounds(waiting: usize, reads: usize) -> WebSocketConfig {
    WebSocketConfig::default()
        .read_buffer_size(reads)
        .max_message_size(Some(LONGEST_TEXT))
        .max_frame_size(Some(LONGEST_TEXT))
        .max_write_buffer_size(waiting)
}

/// A handshake that has read nothing yet.
pub(crate) fn begin(alloc: Global, stream: Metered) -> Handshake {
    start(
        alloc,
        stream,
        OwnOrigins { alloc },
        Some(bounds(MOST_WAITING, LITTLE)),
    )
}

/// What a handshake that failed comes to.
pub(crate) fn refused(error: Error) -> Step {
    match error {
        Error::OutOfMemory => Step::NoMemory,
        Error::HandshakeIncomplete => Step::End,
        _ => Step::Failed,
    }
}

/// The next message, as far as the stream has it.
pub(crate) fn receive(alloc: Global, socket: &mut Socket) -> Step {
    let reads = if socket.get_mut().take_full() {
        MUCH
    } else {
        LITTLE
    };
    socket.set_config(bounds(MOST_WAITING, reads));
    socket.get_mut().cork(true);
    let read = socket.read();
    socket.get_mut().cork(false);
    match read {
        Ok(message) => taken(alloc, socket, message),
        Err(error) => ended(socket, error),
    }
}

// What a message comes to.
fn taken(alloc: Global, socket: &mut Socket, message: Message) -> Step {
    match message {
        Message::Text(text) => match Text::copied(alloc, text.as_str()) {
            Ok(text) => Step::Text(text),
            Err(_) => Step::NoMemory,
        },
        Message::Ping(_) => Step::Passed,
        Message::Pong(_) => Step::Passed,
        Message::Binary(_) => {
            close(socket, CloseCode::Unsupported);
            Step::Failed
        }
        Message::Close(_) => {
            // the answer waits in the output
            let _ = socket.flush();
            Step::End
        }
    }
}

// What a failed read comes to. The peer is told why.
fn ended(socket: &mut Socket, error: Error) -> Step {
    match error {
        Error::Io(cause) => interrupted(cause),
        Error::ConnectionClosed => Step::End,
        Error::AlreadyClosed => Step::End,
        Error::Protocol(ProtocolError::ResetWithoutClosingHandshake) => Step::End,
        Error::OutOfMemory => Step::NoMemory,
        Error::Capacity(CapacityError::MessageTooLong { size, max_size: _ }) => {
            close(socket, CloseCode::Size);
            Step::TooLong(size as u64)
        }
        Error::Utf8 => {
            close(socket, CloseCode::Invalid);
            Step::Failed
        }
        _ => {
            close(socket, CloseCode::Protocol);
            Step::Failed
        }
    }
}

fn interrupted(cause: io::Error) -> Step {
    match cause.kind() {
        ErrorKind::WouldBlock => Step::Blocked,
        _ => Step::Failed,
    }
}

/// Says why the connection ends, as far as the peer takes it at once.
pub(crate) fn close(socket: &mut Socket, code: CloseCode) {
    let _ = socket.close(Some(CloseFrame {
        code,
        reason: Utf8Bytes::new(),
    }));
}

/// Asks the peer for a sign of life.
pub(crate) fn ping(socket: &mut Socket) {
    let _ = socket.send(Message::Ping(Bytes::new()));
}

/// Sends a text, as far as the peer takes it. A text of our own may be longer than what may wait otherwise.
pub(crate) fn send(alloc: Global, socket: &mut Socket, text: &str) -> Sent {
    let Ok(message) = Message::text(alloc, text) else {
        return Sent::NoMemory;
    };
    socket.set_config(bounds(usize::MAX, LITTLE));
    let sent = sent(socket.send(message));
    socket.set_config(bounds(MOST_WAITING, LITTLE));
    sent
}

/// Puts a text behind what waits to go out.
pub(crate) fn put(alloc: Global, socket: &mut Socket, text: &str) -> Sent {
    socket.get_mut().cork(true);
    let put = send(alloc, socket, text);
    socket.get_mut().cork(false);
    put
}

/// Sends the rest of what waits.
pub(crate) fn flush(socket: &mut Socket) -> Sent {
    sent(socket.flush())
}

fn sent(tried: Result<(), Error>) -> Sent {
    match tried {
        Ok(()) => Sent::Whole,
        Err(Error::OutOfMemory) => Sent::NoMemory,
        Err(Error::Io(cause)) => match cause.kind() {
            ErrorKind::WouldBlock => Sent::Blocked,
            _ => Sent::Failed,
        },
        Err(_) => Sent::Failed,
    }
}
