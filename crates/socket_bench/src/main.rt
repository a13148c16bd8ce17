//! The program that `bench/sockets` times: a front over TCP whose sessions only repeat. `repeating` has what a session does.
//! Its words are `messages` or `lines`, and the number of connections to serve. The front's line goes to standard error. At the
//! end it writes how many connections were served. The status is 1 where the words are others, and 2 where the front, a thread or
//! the writing fails.
#![tactic(auto)]

mod repeating;

use fluid_front::{Front, FrontEnd, OpenGate, Spawner, ThreadSpawner};
use fluid_io::StdSink;
use fluid_socket::TcpFront;
use repeating::Repeating;
use std::process::ExitCode;
use std::{env, io};

fn main(rt: HostRuntime) -> ExitCode {
    let Ok(Some((lines, connections))) = read_words(&rt) else {
        return ExitCode::from(1);
    };
    let alloc = rt.alloc();
    let Ok(mut front) = TcpFront::new(alloc, rt, StdSink::new(rt.stderr())) else {
        return ExitCode::from(2);
    };
    if front.listen(&rt, 0, lines).is_err() {
        return ExitCode::from(2);
    }
    let repeating = Repeating::new(alloc);
    let (end, _front) = ThreadSpawner::new().serve_all(
        &rt,
        alloc,
        front,
        &repeating,
        &OpenGate,
        connections,
    );
    let FrontEnd::Done(served) = end else {
        return ExitCode::from(2);
    };
    match println!(rt; "{served} connections") {
        Ok(()) => ExitCode::SUCCESS,
        Err(_) => ExitCode::from(2),
    }
}

// The words behind the program's name: whether texts are lines, and how many connections.
fn read_words(rt: &HostRuntime) -> io::Result<Option<(bool, u32)>> {
    let mut words = env::args(rt)?.skip(1);
    let Some(mode) = words.next() else {
        return Ok(None);
    };
    let Some(number) = words.next() else {
        return Ok(None);
    };
    let Ok(connections) = number.as_str().parse::<u32>() else {
        return Ok(None);
    };
    match mode.as_str() {
        "lines" => Ok(Some((true, connections))),
        "messages" => Ok(Some((false, connections))),
        _ => Ok(None),
    }
}
