use crate::peers::{Host, PATIENT, listening, read_bytes, write_bytes};
use fluid_front::{Front, FrontEnd, Handler, OpenGate, Spawner, StationSpawner, ThreadSpawner};
use fluid_io::MemorySink;
use fluid_lines::{Recv, Wire};
use fluid_socket::{SocketWire, TcpFront};
use std::alloc::Global;
use std::net::{Ipv4Addr, Shutdown, SocketAddr, TcpStream};
use std::process::Abort;
use std::sync::Wait;
use std::{str, thread};

#[test]
fn a_front_says_where_it_listens_or_why_it_does_not(rt: HostRuntime) {
    let alloc = rt.alloc();
    let front = listening(&rt, alloc, false, PATIENT);
    let port = front.port();
    let sink = MemorySink::new(alloc, Vec::new(alloc));
    let mut second = TcpFront::new(alloc, &rt, sink).expect(&rt, "memory");
    assert!(rt;
        matches!(second.accept(&rt, alloc), Ok(None)),
        "no wire before it listens"
    );
    assert!(rt;
        second.listen(&rt, port, true).is_err(),
        "the port is taken"
    );
    assert!(rt; second.port() == 0);
    assert!(rt;
        TcpStream::connect(&rt, SocketAddr::from((Ipv4Addr::new(127, 0, 0, 2), port))).is_err(),
        "it listens at no other address"
    );
    assert!(rt; second.listen(&rt, 0, true).is_ok());
    let other = second.port();
    let said = second.into_writer();
    let lines = format!(in alloc;
        "cannot listen on 127.0.0.1:{port}: Address already in use (os error 98)\nlistening on 127.0.0.1:{other} for lines, at most "
    ).expect(&rt, "memory");
    assert!(rt; said.written().starts_with(lines.as_bytes()));
    assert!(rt; said.written().ends_with(b" connections at once\n"));
    drop(front);
    let deaf = MemorySink::new(alloc, Vec::from_slice(alloc, &[1]).expect(&rt, "memory"));
    let mut third = TcpFront::new(alloc, &rt, deaf).expect(&rt, "memory");
    assert!(rt;
        third.listen(&rt, 0, false).is_err(),
        "nobody could learn the port"
    );
    drop(third);
}

// How many connections the one line of a front says that it can have at once.
fn most_told(rt: &impl Abort, written: &[u8]) -> u64 {
    let line = str::from_utf8(written).expect(rt, "text");
    let Some((_, number)) = line.split_once("at most ") else {
        panic!(rt; "no number")
    };
    let Some((number, _)) = number.split_once(' ') else {
        panic!(rt; "no end")
    };
    match number.parse::<u64>() {
        Ok(number) => number,
        Err(_) => panic!(rt; "not a number"),
    }
}

#[test]
fn at_stations_a_connection_takes_one_descriptor_in_place_of_three(rt: HostRuntime) {
    let alloc = rt.alloc();
    let front = listening(&rt, alloc, true, PATIENT);
    let alone = most_told(&rt, front.into_writer().written());
    let sink = MemorySink::new(alloc, Vec::new(alloc));
    let mut front = TcpFront::at_stations(alloc, rt, sink, 5).expect(&rt, "memory");
    assert!(rt; front.listen(&rt, 0, true).is_ok());
    let attended = most_told(&rt, front.into_writer().written());
    // the same limit in both, of which five stations take ten; a third of it is told without its rest
    let (least, limit) = (alone.saturating_mul(3), attended.saturating_add(10));
    assert!(rt;
        least <= limit && limit <= least.saturating_add(2),
        "{alone} {attended}"
    );
}

#[derive(Drop)]
struct Echo {
    alloc: Global,
}

impl Handler<SocketWire> for Echo {
    ghost use Rattle.std.specs.Prelude.{true};

    type Job = (u64, SocketWire);

    ghost is_over = { λ _. true };

    fn begin<R: Wait>(&self, _rt: &R, number: u64, wire: SocketWire) -> (u64, SocketWire) {
        (number, wire)
    }

    fn cycle<R: Wait>(&self, rt: &R, job: &mut (u64, SocketWire)) -> bool {
        let number = job.0;
        match job.1.recv(rt, self.alloc) {
            Ok(Recv::Text(text)) => {
                if let Ok(reply) = format!(in self.alloc; "{number}{}", text.as_str()) {
                    let _ = job.1.send(rt, self.alloc, reply.as_str());
                }
                true
            }
            Ok(Recv::Quiet) => true,
            _ => false,
        }
    }

    fn end<R: Wait>(&self, _rt: &R, job: (u64, SocketWire)) {
        drop(job);
    }
}

// Four that connect and say nothing, and a fifth.
fn five<R: Host>(rt: &R, alloc: Global, port: u16) -> (Vec<TcpStream>, TcpStream) {
    let address = SocketAddr::from((Ipv4Addr::LOCALHOST, port));
    let mut silent = Vec::new(alloc);
    for _ in 0..4 {
        silent
            .push(TcpStream::connect(rt, address).expect(rt, "a connection"))
            .expect(rt, "memory");
    }
    (
        silent,
        TcpStream::connect(rt, address).expect(rt, "a connection"),
    )
}

// Whether the fifth gets its text back.
fn is_heard<R: Host>(rt: R, alloc: Global, silent: Vec<TcpStream>, last: TcpStream) -> bool {
    let mut last = last;
    write_bytes(&rt, &mut last, b"a\n");
    assert!(rt; last.shutdown(Shutdown::Write).is_ok());
    let told = read_bytes(&rt, alloc, &mut last);
    drop(silent);
    told.as_slice() == b"5a\n".as_slice()
}

// In threads, and at one station. What is sent to threads here the prover takes of the runtime itself alone, so the test starts them.
#[test]
fn silent_peers_keep_nobody_out(rt: HostRuntime) {
    let alloc = rt.alloc();
    let front = listening(&rt, alloc, true, PATIENT);
    let (silent, last) = five(&rt, alloc, front.port());
    let peer = thread::spawn(&rt, move || is_heard(rt, alloc, silent, last)).expect(
        &rt, "a thread",
    );
    let (end, front) = ThreadSpawner::new().serve_all(
        &rt,
        alloc,
        front,
        &Echo { alloc },
        &OpenGate,
        5,
    );
    drop(front);
    assert!(rt; end == FrontEnd::Done(5), "in threads");
    assert!(rt; peer.join(&rt), "in threads");
    let front = listening(&rt, alloc, true, PATIENT);
    let (silent, last) = five(&rt, alloc, front.port());
    let peer = thread::spawn(&rt, move || is_heard(rt, alloc, silent, last)).expect(
        &rt, "a thread",
    );
    let (end, front) = StationSpawner::new(1).serve_all(
        &rt,
        alloc,
        front,
        &Echo { alloc },
        &OpenGate,
        5,
    );
    drop(front);
    assert!(rt; end == FrontEnd::Done(5), "at a station");
    assert!(rt; peer.join(&rt), "at a station");
}
