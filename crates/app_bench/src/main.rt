//! The program that `bench/channels` times: a client takes in so many sets by others, over so many keys of one map, with so many
//! edits of its own pending, and shows the channels once. `sets` has what is done.
//! Its words are these three numbers. It writes the length of what is shown. The status is 1 where the words aren't three numbers
//! or memory is wanting, and 2 where the number can't be written.
#![tactic(auto)]

mod sets;

use sets::length_shown;
use std::process::ExitCode;
use std::{env, io};

fn main(rt: HostRuntime) -> ExitCode {
    let Ok(numbers) = read_numbers(&rt) else {
        return ExitCode::from(1);
    };
    let &[sets, keys, pending] = numbers.as_slice() else {
        return ExitCode::from(1);
    };
    let Ok(length) = length_shown(rt.alloc(), sets, keys, pending) else {
        return ExitCode::from(1);
    };
    match println!(rt; "{length} bytes") {
        Ok(()) => ExitCode::SUCCESS,
        Err(_) => ExitCode::from(2),
    }
}

// The words behind the program's name, those that are numbers.
fn read_numbers(rt: &HostRuntime) -> io::Result<Vec<u64>> {
    let mut numbers = Vec::new(rt.alloc());
    for word in env::args(rt)?.skip(1) {
        if let Ok(number) = word.as_str().parse::<u64>() {
            numbers.push(number)?;
        }
    }
    Ok(numbers)
}
