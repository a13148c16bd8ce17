//! The program that `bench/lane` times: it enters the raw records of its input, a line each, into a lane over a keeper in
//! memory, and writes how many entries and messages the lane then has. `records` has how a record is entered.
//! The ids of the records' joins are to be those that a lane gives them: `c` and the number of the record, counted from 0.
//! Where its words are two numbers, it stores a checkpoint once so many entries are entered, and restarts from it so often.
//! The status is 1 where a record isn't entered or a restart is refused, and 2 where the counts can't be written.
#![tactic(auto)]

mod records;

use fluid_io::StdSource;
use fluid_lane::{Lane, Limits};
use fluid_log::MemoryKeeper;
use records::{enter_all, restart_often};
use std::process::ExitCode;
use std::{env, io};

fn main(rt: HostRuntime) -> ExitCode {
    let alloc = rt.alloc();
    let Ok((at, restarts)) = read_numbers(&rt) else {
        return ExitCode::from(1);
    };
    let keeper = MemoryKeeper::new(alloc, Vec::new(alloc), Vec::new(alloc));
    let Ok(mut lane) = Lane::start(alloc, keeper, Limits::FULL, 0) else {
        return ExitCode::from(1);
    };
    let mut input = StdSource::new(rt.stdin());
    if enter_all(alloc, &mut lane, &mut input, at).is_err() {
        return ExitCode::from(1);
    }
    if restart_often(alloc, &mut lane, restarts).is_err() {
        return ExitCode::from(1);
    }
    match println!(rt; "{} entries, {} messages", lane.entered(), lane.seq()) {
        Ok(()) => ExitCode::SUCCESS,
        Err(_) => ExitCode::from(2),
    }
}

// After how many entries a checkpoint is stored, and how often the lane restarts from it: none and never without words.
fn read_numbers(rt: &HostRuntime) -> io::Result<(Option<u64>, u64)> {
    let mut numbers = Vec::new(rt.alloc());
    for word in env::args(rt)?.skip(1) {
        if let Ok(number) = word.as_str().parse::<u64>() {
            numbers.push(number)?;
        }
    }
    match numbers.as_slice() {
        &[at, restarts] => Ok((Some(at), restarts)),
        _ => Ok((None, 0)),
    }
}
