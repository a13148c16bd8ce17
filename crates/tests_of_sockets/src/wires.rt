use crate::peers::{
    Heard, Host, PATIENT, Tended, assert_read, assert_received, greeted, met, names_streams,
    read_bytes, received, shaken, write_bytes,
};
use fluid_lines::Recv;
use fluid_socket::Waits;
use std::alloc::Global;
use std::io::{Read, Write};
use std::net::{Shutdown, TcpStream};
use std::process::Abort;
use std::thread;
use std::time::Duration;

// A wire that waits by itself, and one that is waited for at a station.
const WAYS: [bool; 2] = [false, true];

// What the peer sends, what the wire answers, and what the peer reads.
struct Row {
    what: &'static str,
    frames: &'static [u8],
    answers: &'static str,
    told: &'static str,
}

const ROWS: [Row; 12] = [
    Row {
        what: "a text, and a close with its code",
        frames: b"\x81\x82\0\0\0\0hi\x88\x82\0\0\0\0\x03\xe8",
        answers: "[hi].",
        told: "1000",
    },
    Row {
        what: "a close without a code",
        frames: b"\x88\x80\0\0\0\0",
        answers: ".",
        told: "no code",
    },
    Row {
        what: "a ping before a text and a pong behind it",
        frames: b"\x89\x83\0\0\0\0abc\x81\x81\0\0\0\0a\x8a\x80\0\0\0\0",
        answers: "[a]?",
        told: "(3)",
    },
    Row {
        what: "two texts at once, one of them empty",
        frames: b"\x81\x80\0\0\0\0\x81\x81\0\0\0\0b",
        answers: "[][b]?",
        told: "",
    },
    Row {
        what: "a binary message",
        frames: b"\x82\x81\0\0\0\0a",
        answers: "!",
        told: "1003",
    },
    Row {
        what: "the head of a text of 1,048,577 bytes",
        frames: b"\x81\xff\0\0\0\0\0\x10\0\x01\0\0\0\0",
        answers: "+1048577",
        told: "1009",
    },
    Row {
        what: "a text in three fragments",
        frames: b"\x01\x81\0\0\0\0a\0\x81\0\0\0\0b\x80\x81\0\0\0\0c",
        answers: "[abc]?",
        told: "",
    },
    Row {
        what: "bytes that are no UTF-8",
        frames: b"\x81\x81\0\0\0\0\xff",
        answers: "!",
        told: "1007",
    },
    Row {
        what: "half a frame, and silence",
        frames: b"\x81\x82\0\0\0\0h",
        answers: "?",
        told: "",
    },
    Row {
        what: "a frame without a mask",
        frames: b"\x81\x01a",
        answers: "!",
        told: "1002",
    },
    Row {
        what: "a reserved bit, as compression has it",
        frames: b"\xc1\x81\0\0\0\0a",
        answers: "!",
        told: "1002",
    },
    Row {
        what: "silence",
        frames: b"",
        answers: "?",
        told: "",
    },
];

fn message_is_text<R: Host>(rt: R, alloc: Global, row: &Row, attended: bool) {
    let (stream, mut wire) = met(&rt, alloc, false, PATIENT, attended);
    let mut peer = shaken(&rt, alloc, stream, &mut wire);
    write_bytes(&rt, peer.get_mut(), row.frames);
    assert_received(&rt, alloc, &mut wire, 5, row.answers, row.what);
    assert_read(&rt, alloc, peer, row.told, row.what, attended);
    drop(wire);
}

// A wire that is let go is closed.
fn texts_go_out<R: Host>(rt: R, alloc: Global, attended: bool) {
    let (stream, mut wire) = met(&rt, alloc, false, PATIENT, attended);
    let peer = shaken(&rt, alloc, stream, &mut wire);
    for text in ["one", ""] {
        assert!(rt; wire.send(&rt, alloc, text).is_ok(), "{text}, {attended}");
    }
    drop(wire);
    assert_read(&rt, alloc, peer, "[one][]1000", "sent", attended);
}

// What is sent, and what the wire answers. Then the peer ends.
const LINES: [(&[u8], &str); 10] = [
    (b"a\r\n\nb", "[a][][b]."),
    (b"", "."),
    (b"a\rb\r\r\n", "[a\rb\r]."),
    (b"a\n\xff\nb\n", "[a]!"),
    // requests of HTTP
    (b"POST / HTTP/1.1\r\nHost: x\r\n", "!"),
    (b"GET / HTTP/1.0\n", "!"),
    (b"a\nGET / HTTP/1.1\n", "[a][GET / HTTP/1.1]."),
    (b"GET / HTTP/1.2\n", "[GET / HTTP/1.2]."),
    // a carriage return without a line feed
    (b"a\r\nb\r", "[a][b\r]."),
    (b"\r", "[\r]."),
];

fn lines_are_given<R: Host>(rt: R, alloc: Global, bytes: &[u8], want: &str, attended: bool) {
    let (mut stream, mut wire) = met(&rt, alloc, true, PATIENT, attended);
    write_bytes(&rt, &mut stream, bytes);
    assert!(rt; wire.send(&rt, alloc, "out").is_ok(), "{want}");
    assert!(rt; stream.shutdown(Shutdown::Write).is_ok(), "{want}");
    assert_received(&rt, alloc, &mut wire, 1000, want, want);
    wire.hand_on(&rt);
    let told = read_bytes(&rt, alloc, &mut stream);
    assert!(rt;
        told.as_slice() == b"out\n".as_slice(),
        "{want}, {attended}"
    );
}

#[test]
fn what_a_peer_sends_is_heard(rt: HostRuntime) {
    names_streams(None);
    let alloc = rt.alloc();
    for attended in WAYS {
        for row in &ROWS {
            message_is_text(rt, alloc, row, attended);
        }
        texts_go_out(rt, alloc, attended);
        for (bytes, want) in LINES {
            lines_are_given(rt, alloc, bytes, want, attended);
        }
    }
}

// How a text goes out that is nothing but so many letters between these bytes, and the bytes of the text that comes in, or none
// where it is too long.
struct Long {
    lines: bool,
    head: &'static [u8],
    letters: usize,
    end: &'static [u8],
    want: usize,
}

const LONG: [Long; 7] = [
    Long {
        lines: true,
        head: b"",
        letters: 1_048_576,
        end: b"\r\n",
        want: 1_048_576,
    },
    Long {
        lines: true,
        head: b"",
        letters: 1_048_577,
        end: b"\n",
        want: 0,
    },
    Long {
        lines: true,
        head: b"",
        letters: 1_048_576,
        end: b"\r",
        want: 0,
    },
    Long {
        lines: true,
        head: b"",
        letters: 1_048_578,
        end: b"",
        want: 0,
    },
    Long {
        lines: true,
        head: b"",
        letters: 3_000_000,
        end: b"",
        want: 0,
    },
    Long {
        lines: false,
        head: b"\x81\xff\0\0\0\0\0\x10\0\0\0\0\0\0",
        letters: 1_048_576,
        end: b"",
        want: 1_048_576,
    },
    Long {
        lines: false,
        head: b"\x01\x83\0\0\0\0abc\x80\xff\0\0\0\0\0\x0f\xff\xfe\0\0\0\0",
        letters: 1_048_574,
        end: b"",
        want: 0,
    },
];

// Writes a long text, in a thread, since nobody takes it whole at once.
fn write_long<W: Write + Drop>(alloc: Global, stream: W, row: &Long) {
    let mut stream = stream;
    let letters = Vec::from_elem(alloc, b'a', row.letters);
    if let Ok(letters) = letters {
        let _ = stream.write_all(row.head);
        let _ = stream.write_all(letters.as_slice());
        let _ = stream.write_all(row.end);
    }
    drop(stream);
}

// How many bytes the next text has, or 0 where it is too long, as it says so.
fn length_of_next<R: Host>(rt: &R, alloc: Global, wire: &mut Tended<R>) -> usize {
    for _ in 0..100_000 {
        match wire.recv(rt, alloc) {
            Ok(Recv::Quiet) => {}
            Ok(Recv::Text(text)) => return text.as_str().len(),
            Ok(Recv::TooLong(1_048_577)) => return 0,
            _ => break,
        }
    }
    usize::MAX
}

fn long_text_is_heard<R: Host>(rt: R, alloc: Global, row: &'static Long, attended: bool) {
    let (stream, mut wire) = greeted(&rt, alloc, row.lines, PATIENT, attended);
    let writer = thread::spawn(&rt, move || write_long(alloc, stream, row)).expect(&rt, "a thread");
    let length = length_of_next(&rt, alloc, &mut wire);
    assert!(rt;
        length == row.want,
        "{} letters, {attended}: {length}",
        row.letters
    );
    drop(wire);
    writer.join(&rt);
}

#[test]
fn a_text_that_is_too_long_is_refused(rt: HostRuntime) {
    names_streams(None);
    let alloc = rt.alloc();
    for attended in WAYS {
        for row in &LONG {
            long_text_is_heard(rt, alloc, row, attended);
        }
    }
}

// An origin, and whether a page of it may connect.
const ORIGINS: [(&str, bool); 17] = [
    ("", true),
    ("Origin: http://localhost\r\n", true),
    ("Origin: http://localhost:8080\r\n", true),
    ("Origin: https://127.0.0.1:1\r\n", true),
    ("origin: http://[::1]\r\n", true),
    ("Origin: http://[::1]:443\r\n", true),
    ("Origin: null\r\n", false),
    ("Origin: http://localhost.example.org\r\n", false),
    ("Origin: http://localhost:80.example.org\r\n", false),
    ("Origin: http://localhost:\r\n", false),
    ("Origin: http://example.org\r\n", false),
    ("Origin: http://127.0.0.1.example.org\r\n", false),
    ("Origin: http://user@localhost\r\n", false),
    ("Origin: localhost\r\n", false),
    ("Origin: ://localhost\r\n", false),
    (
        "Origin: http://localhost\r\nOrigin: http://example.org\r\n",
        false,
    ),
    (
        "Origin: http://example.org\r\nOrigin: http://localhost\r\n",
        false,
    ),
];

// What a client asks for first, with a line of its own in it.
fn request<R: Abort>(rt: &R, alloc: Global, line: &str) -> String {
    format!(in alloc;
        "GET / HTTP/1.1\r\nHost: localhost\r\nUpgrade: websocket\r\nConnection: Upgrade\r\nSec-WebSocket-Version: 13\r\nSec-WebSocket-Key: dGhlIHNhbXBsZSBub25jZQ==\r\nSec-WebSocket-Extensions: permessage-deflate\r\n{line}\r\n"
    ).expect(rt, "memory")
}

// How the answer to a request begins.
fn answer(welcome: bool) -> &'static [u8] {
    if welcome {
        b"HTTP/1.1 101 "
    } else {
        b"HTTP/1.1 403 "
    }
}

fn page_connects<R: Host>(rt: R, alloc: Global, origin: &str, welcome: bool, attended: bool) {
    let (mut stream, mut wire) = met(&rt, alloc, false, PATIENT, attended);
    let head = request(&rt, alloc, origin);
    write_bytes(&rt, &mut stream, head.as_bytes());
    drop(head);
    let want = if welcome { "?" } else { "!" };
    assert_received(&rt, alloc, &mut wire, 3, want, origin);
    drop(wire);
    let told = read_bytes(&rt, alloc, &mut stream);
    assert!(rt;
        told.as_slice().starts_with(answer(welcome)),
        "{origin}, {attended}"
    );
}

// In pieces of how many bytes a request comes, how many bytes of it, and whether the handshake is made in so many waits.
const PIECES: [(usize, usize, u32, &str); 2] = [(16, 1000, 2000, "?"), (1, 40, 20, "!")];

fn handshake_in_pieces<R: Host>(
    rt: R,
    alloc: Global,
    piece: usize,
    bytes: usize,
    handshake_ticks: u32,
    want: &str,
    attended: bool,
) {
    let mut waits = PATIENT;
    waits.handshake_ticks = handshake_ticks;
    let (mut stream, mut wire) = met(&rt, alloc, false, waits, attended);
    let writer = thread::spawn(&rt, move || {
        let head = request(&rt, alloc, "");
        let sent = head.as_bytes().get(..bytes).unwrap_or(head.as_bytes());
        for part in sent.chunks(piece.max(1)) {
            if stream.write_all(part).is_err() {
                break;
            }
            thread::sleep(&rt, Duration::from_millis(2));
        }
        stream
    })
    .expect(&rt, "a thread");
    assert_received(&rt, alloc, &mut wire, 30, want, "in pieces");
    let mut stream = writer.join(&rt);
    // the last pieces may have come later
    drop(received(&rt, alloc, &mut wire, 3));
    drop(wire);
    let told = read_bytes(&rt, alloc, &mut stream);
    assert!(rt;
        told.as_slice().starts_with(answer(true)) == (want == "?"),
        "{piece}, {attended}"
    );
}

#[test]
fn a_handshake_is_made_or_refused(rt: HostRuntime) {
    names_streams(None);
    let alloc = rt.alloc();
    for attended in WAYS {
        for (origin, welcome) in ORIGINS {
            page_connects(rt, alloc, origin, welcome, attended);
        }
        for (piece, bytes, handshake_ticks, want) in PIECES {
            handshake_in_pieces(rt, alloc, piece, bytes, handshake_ticks, want, attended);
        }
    }
}

// Short waits.
const HASTY: Waits = Waits {
    tick_milliseconds: 5,
    handshake_ticks: 3,
    send_ticks: 4,
    silent_ticks: 3,
    pings: 2,
};

// Where no handshake comes, and no line.
const SILENT: [(bool, &str); 2] = [(false, "!"), (true, "?")];

fn silence_is_heard<R: Host>(rt: R, alloc: Global, lines: bool, want: &str, attended: bool) {
    let (stream, mut wire) = met(&rt, alloc, lines, HASTY, attended);
    assert_received(&rt, alloc, &mut wire, 40, want, "silence");
    drop(wire);
    drop(stream);
}

// Behind the handshake it is asked for a sign of life.
fn silence_is_asked<R: Host>(rt: R, alloc: Global, attended: bool) {
    let mut waits = HASTY;
    waits.handshake_ticks = 2000;
    let (stream, mut wire) = met(&rt, alloc, false, waits, attended);
    let peer = shaken(&rt, alloc, stream, &mut wire);
    assert_received(&rt, alloc, &mut wire, 1000, ".", "asked");
    assert_read(&rt, alloc, peer, "ping ping ", "asked", attended);
    drop(wire);
}

#[test]
fn a_peer_that_says_nothing_is_left(rt: HostRuntime) {
    names_streams(None);
    let alloc = rt.alloc();
    for attended in WAYS {
        for (lines, want) in SILENT {
            silence_is_heard(rt, alloc, lines, want, attended);
        }
        silence_is_asked(rt, alloc, attended);
    }
}

// A text that is more than the system holds for a peer.
const LARGE: usize = 12_000_000;

fn large(rt: &impl Abort, alloc: Global) -> String {
    let letters = Vec::from_elem(alloc, b'a', LARGE).expect(rt, "memory");
    String::from_utf8(letters).expect(rt, "text")
}

// How many bytes come in to the end.
fn count_bytes(stream: &mut TcpStream) -> usize {
    let mut chunk = [0u8; 65536];
    let mut all = 0usize;
    for _ in 0..u32::MAX {
        match stream.read(&mut chunk) {
            Ok(count) if count > 0 => all = all.saturating_add(count),
            _ => break,
        }
    }
    all
}

// The framing, and how many bytes there are besides: a line has its line feed; a message of this size has a head of ten bytes, and
// a close behind it of four.
const LATE: [(bool, usize); 2] = [(true, 1), (false, 14)];

fn late_is_whole<R: Host>(
    rt: R,
    alloc: Global,
    text: &str,
    lines: bool,
    more: usize,
    attended: bool,
) {
    let (mut stream, mut wire) = greeted(&rt, alloc, lines, PATIENT, attended);
    let reader = thread::spawn(&rt, move || {
        thread::sleep(&rt, Duration::from_millis(100));
        count_bytes(&mut stream)
    })
    .expect(&rt, "a thread");
    assert!(rt;
        wire.send(&rt, alloc, text).is_ok(),
        "lines: {lines}, {attended}"
    );
    wire.hand_on(&rt);
    let count = reader.join(&rt);
    assert!(rt;
        count == LARGE.wrapping_add(more),
        "lines: {lines}, {attended}: {count} bytes"
    );
}

// Whether sending fails to one who reads nothing. A wire that waits by itself says it when it sends, one at a station at its next
// cycles.
fn send_fails<R: Host>(rt: &R, alloc: Global, wire: &mut Tended<R>, text: &str) -> bool {
    let mut failed = false;
    for _ in 0..2 {
        failed = failed || wire.send(rt, alloc, text).is_err();
    }
    failed || matches!(received(rt, alloc, wire, 1000).as_str(), "!")
}

fn sends_fail<R: Host>(rt: R, alloc: Global, text: &str, lines: bool, attended: bool) {
    let mut waits = PATIENT;
    waits.send_ticks = HASTY.send_ticks;
    let (stream, mut wire) = greeted(&rt, alloc, lines, waits, attended);
    assert!(rt;
        send_fails(&rt, alloc, &mut wire, text),
        "lines: {lines}, {attended}"
    );
    assert!(rt;
        wire.hear(&rt, alloc) == Heard::End,
        "lines: {lines}, {attended}"
    );
    drop(wire);
    drop(stream);
}

#[test]
fn a_large_text_is_taken_late_or_not_at_all(rt: HostRuntime) {
    names_streams(None);
    let alloc = rt.alloc();
    let text = large(&rt, alloc);
    for attended in WAYS {
        for (lines, more) in LATE {
            late_is_whole(rt, alloc, text.as_str(), lines, more, attended);
            sends_fail(rt, alloc, text.as_str(), lines, attended);
        }
    }
    drop(text);
}

// What a peer sends once and then without end.
const ENDLESS: [(&[u8], &[u8]); 2] = [
    // empty fragments
    (b"\x01\x80\0\0\0\0", b"\0\x80\0\0\0\0"),
    // empty pongs
    (b"", b"\x8a\x80\0\0\0\0"),
];

fn endless_is_quiet<R: Host>(
    rt: R,
    alloc: Global,
    first: &[u8],
    again: &'static [u8],
    attended: bool,
) {
    let (mut stream, mut wire) = greeted(&rt, alloc, false, PATIENT, attended);
    write_bytes(&rt, &mut stream, first);
    let writer = thread::spawn(&rt, move || {
        let many = again.repeat(alloc, 10_000).expect(&rt, "memory");
        for _ in 0..u32::MAX {
            if stream.write_all(many.as_slice()).is_err() {
                break;
            }
        }
    })
    .expect(&rt, "a thread");
    for _ in 0..3 {
        assert!(rt;
            wire.hear(&rt, alloc) == Heard::Quiet,
            "{} bytes first, {attended}",
            first.len()
        );
    }
    drop(wire);
    writer.join(&rt);
}

// A ping with as many bytes as it can have, and its mask.
fn ping() -> [u8; 131] {
    let mut ping = [0u8; 131];
    ping[0] = 0x89;
    ping[1] = 0xfd;
    ping
}

// Whether the wire stops reading: behind 50 quiet answers the peer still can't write.
fn stops_reading<R: Host>(
    rt: &R,
    alloc: Global,
    peer: &mut TcpStream,
    wire: &mut Tended<R>,
) -> bool {
    let many = ping().as_slice().repeat(alloc, 5000).expect(rt, "memory");
    let mut stopped = 0u32;
    let mut at = 0usize;
    for _ in 0..20_000 {
        match peer.write(many.get(at..).unwrap_or(&[])) {
            Ok(count) => {
                at = at.saturating_add(count);
                if at >= many.len() {
                    at = 0;
                }
                stopped = 0;
            }
            Err(_) => stopped = stopped.saturating_add(1),
        }
        if stopped > 50 {
            return true;
        }
        assert!(rt; wire.hear(rt, alloc) == Heard::Quiet, "behind pings");
    }
    false
}

fn pings_are_left_unread<R: Host>(rt: R, alloc: Global, attended: bool) {
    let (mut stream, mut wire) = greeted(&rt, alloc, false, PATIENT, attended);
    assert!(rt; stream.set_nonblocking(true).is_ok());
    assert!(rt;
        stops_reading(&rt, alloc, &mut stream, &mut wire),
        "the wire goes on reading: {attended}"
    );
    drop(wire);
    drop(stream);
}

#[test]
fn a_peer_that_sends_without_end_keeps_nobody_waiting(rt: HostRuntime) {
    names_streams(None);
    let alloc = rt.alloc();
    for attended in WAYS {
        for (first, again) in ENDLESS {
            endless_is_quiet(rt, alloc, first, again, attended);
        }
        pings_are_left_unread(rt, alloc, attended);
    }
}
