//! The program that `bench/outbox` times: so many edits get into the order over so many lost lines. `lines` has what is done.
//! Its words are these two numbers. It writes how many edits are acknowledged. The status is 1 where the words aren't two numbers or
//! memory is wanting, and 2 where the number can't be written.
#![tactic(auto)]

mod lines;

use lines::acknowledged_over;
use std::process::ExitCode;
use std::{env, io};

fn main(rt: HostRuntime) -> ExitCode {
    let Ok(numbers) = read_numbers(&rt) else {
        return ExitCode::from(1);
    };
    let &[edits, lines] = numbers.as_slice() else {
        return ExitCode::from(1);
    };
    let Ok(acknowledged) = acknowledged_over(rt.alloc(), edits, lines) else {
        return ExitCode::from(1);
    };
    match println!(rt; "{acknowledged} acknowledged") {
        Ok(()) => ExitCode::SUCCESS,
        Err(_) => ExitCode::from(2),
    }
}

// The words behind the program's name, those that are numbers.
fn read_numbers(rt: &HostRuntime) -> io::Result<Vec<u64>> {
    let mut numbers = Vec::new(rt.alloc());
    for word in env::args(rt)?.skip(1) {
        if let Ok(number) = word.as_str().parse::<u64>() {
            numbers.push(number)?;
        }
    }
    Ok(numbers)
}
