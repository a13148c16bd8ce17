//! The program that `bench/disk` times: so many records appended to an empty file on a disk in memory, and another disk opened that
//! holds so many. Its words are these two numbers. It writes how many records the two files have, and how many calls each of them made
//! on its disk. The status is 1 where the words aren't two numbers or memory is wanting, and 2 where the counts can't be written.
#![tactic(auto)]

mod files;

use files::{appended, opened};
use std::process::ExitCode;
use std::{env, io};

fn main(rt: HostRuntime) -> ExitCode {
    let Ok(numbers) = read_numbers(&rt) else {
        return ExitCode::from(1);
    };
    let &[appends, records] = numbers.as_slice() else {
        return ExitCode::from(1);
    };
    let Ok(kept) = appended(rt.alloc(), appends) else {
        return ExitCode::from(1);
    };
    let Ok(found) = opened(rt.alloc(), records) else {
        return ExitCode::from(1);
    };
    let (kept, made) = (kept.records, kept.calls);
    let (found, walked) = (found.records, found.calls);
    match println!(rt; "{kept} kept by {made} calls, {found} found by {walked}") {
        Ok(()) => ExitCode::SUCCESS,
        Err(_) => ExitCode::from(2),
    }
}

// The words behind the program's name, those that are numbers.
fn read_numbers(rt: &HostRuntime) -> io::Result<Vec<u64>> {
    let mut numbers = Vec::new(rt.alloc());
    for word in env::args(rt)?.skip(1) {
        if let Ok(number) = word.as_str().parse::<u64>() {
            numbers.push(number)?;
        }
    }
    Ok(numbers)
}
