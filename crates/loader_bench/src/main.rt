//! The program that `bench/loading` times: containers over orders in memory. `lives` has what is done. Its words are one of
//!
//! - `summaries CHANNELS KEYS ROUNDS`: the first summary of so many maps of so many keys, and so many later ones, before each of
//!   which one map has changed.
//! - `loads BEFORE KEYS BEHIND ROUNDS`: so often a load from a summary of so many messages, of which the first make a map of so
//!   many keys, with so many sets behind it.
//! - `pump MESSAGES KEYS`: one pump of so many sets over so many keys of a map.
//!
//! It writes the container's number at the end, and to standard error the microseconds of the first summary and the least of the
//! later ones, or the least of the loads, or of the pump. The status is 1 where the words are others, memory is wanting or the clock can't be read,
//! and 2 where the lines can't be written.
#![tactic(auto)]

mod lives;
mod orders;

use lives::{Taken, time_loads, time_pump, time_summaries};
use std::process::ExitCode;
use std::{env, io};

fn main(rt: HostRuntime) -> ExitCode {
    let Ok((life, numbers)) = read_words(&rt) else {
        return ExitCode::from(1);
    };
    let Some(taken) = take(&rt, life, numbers.as_slice()) else {
        return ExitCode::from(1);
    };
    match write(&rt, taken) {
        Ok(()) => ExitCode::SUCCESS,
        Err(_) => ExitCode::from(2),
    }
}

#[derive(Clone, Copy)]
enum Life {
    Summaries,
    Loads,
    Pump,
}

fn life_of(word: &str) -> Option<Life> {
    match word {
        "summaries" => Some(Life::Summaries),
        "loads" => Some(Life::Loads),
        "pump" => Some(Life::Pump),
        _ => None,
    }
}

// The words behind the program's name: which life, and the numbers.
fn read_words(rt: &HostRuntime) -> io::Result<(Option<Life>, Vec<u64>)> {
    let mut life = None;
    let mut numbers = Vec::new(rt.alloc());
    for word in env::args(rt)?.skip(1) {
        let word = word.as_str();
        match word.parse::<u64>() {
            Ok(number) => numbers.push(number)?,
            Err(_) => life = life_of(word),
        }
    }
    Ok((life, numbers))
}

fn take(rt: &HostRuntime, life: Option<Life>, numbers: &[u64]) -> Option<Taken> {
    match (life?, numbers) {
        (Life::Summaries, &[channels, keys, rounds]) => time_summaries(rt, channels, keys, rounds),
        (Life::Loads, &[before, keys, behind, rounds]) => {
            time_loads(rt, before, keys, behind, rounds)
        }
        (Life::Pump, &[messages, keys]) => time_pump(rt, messages, keys),
        _ => None,
    }
}

fn write(rt: &HostRuntime, taken: Taken) -> io::Result<()> {
    let Taken {
        number,
        first,
        later,
    } = taken;
    println!(rt; "at {number}")?;
    eprintln!(rt; "{first} {later}")
}
