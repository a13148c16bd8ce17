//! The program that `bench/tasks` times: so many messages over so many items of eight queues and as many tasks, by a hundred clients.
//! `orders` has what each of them does. Its words are these two numbers. It writes the length of the text of all that is left. The
//! status is 1 where the words aren't two numbers or memory is wanting, and 2 where the length can't be written.
#![tactic(auto)]

mod orders;

use orders::length_left;
use std::process::ExitCode;
use std::{env, io};

fn main(rt: HostRuntime) -> ExitCode {
    let Ok(numbers) = read_numbers(&rt) else {
        return ExitCode::from(1);
    };
    let &[messages, items] = numbers.as_slice() else {
        return ExitCode::from(1);
    };
    let Ok(length) = length_left(rt.alloc(), messages, items) else {
        return ExitCode::from(1);
    };
    match println!(rt; "{length} bytes") {
        Ok(()) => ExitCode::SUCCESS,
        Err(_) => ExitCode::from(2),
    }
}

// The words behind the program's name, those that are numbers.
fn read_numbers(rt: &HostRuntime) -> io::Result<Vec<u64>> {
    let mut numbers = Vec::new(rt.alloc());
    for word in env::args(rt)?.skip(1) {
        if let Ok(number) = word.as_str().parse::<u64>() {
            numbers.push(number)?;
        }
    }
    Ok(numbers)
}
