//! The program that `bench/deltas` measures: it pushes so many small messages over a keeper that keeps nothing but their number,
//! and makes room where there is none. `pushing` has how, and `forgetful` the keeper.
//! Its word is the number of messages. It writes how many were pushed, and the most that were in memory at once. The status is 1
//! where the word isn't a number or there isn't memory enough, and 2 where the line can't be written.
#![tactic(auto)]

mod forgetful;
mod pushing;

use pushing::push_all;
use std::env;
use std::process::ExitCode;

fn main(rt: HostRuntime) -> ExitCode {
    let Some(count) = read_count(&rt) else {
        return ExitCode::from(1);
    };
    let Some((pushed, most)) = push_all(rt.alloc(), count) else {
        return ExitCode::from(1);
    };
    match println!(rt; "{pushed} messages, at most {most} in memory") {
        Ok(()) => ExitCode::SUCCESS,
        Err(_) => ExitCode::from(2),
    }
}

// The first word behind the program's name, where it is a number.
fn read_count(rt: &HostRuntime) -> Option<u64> {
    let mut words = env::args(rt).ok()?;
    let _program = words.next();
    words.next()?.as_str().parse::<u64>().ok()
}
