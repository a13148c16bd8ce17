//! The program that `bench/turn` times: so many threads take one turn so often each, and work a little under it. `passing`
//! has what a thread does.
//! Its words are the number of threads, the passes of each and the rounds of work in each pass. It writes how many passes the
//! turn's value has seen. The status is 1 where the words aren't three numbers or a thread can't be started, and 2 where the
//! number can't be written.
#![tactic(auto)]

mod passing;

use passing::pass_all;
use std::process::ExitCode;
use std::{env, io};

fn main(rt: HostRuntime) -> ExitCode {
    let Ok(numbers) = read_numbers(&rt) else {
        return ExitCode::from(1);
    };
    let &[threads, passes, rounds] = numbers.as_slice() else {
        return ExitCode::from(1);
    };
    let Some(seen) = pass_all(&rt, rt.alloc(), threads, passes, rounds) else {
        return ExitCode::from(1);
    };
    match println!(rt; "{seen} passes") {
        Ok(()) => ExitCode::SUCCESS,
        Err(_) => ExitCode::from(2),
    }
}

// The words behind the program's name, those that are numbers.
fn read_numbers(rt: &HostRuntime) -> io::Result<Vec<u64>> {
    let mut numbers = Vec::new(rt.alloc());
    for word in env::args(rt)?.skip(1) {
        if let Ok(number) = word.as_str().parse::<u64>() {
            numbers.push(number)?;
        }
    }
    Ok(numbers)
}
