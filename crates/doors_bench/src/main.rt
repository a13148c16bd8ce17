//! The program that `bench/doors` times: clients in threads of their own submit operations to the documents of a service, each
//! through a visit of its own. `operations` has what they submit, `submitting` what the threads do.
//! Its words are the number of threads, of documents and of the operations of each thread; with no threads one client's
//! operations are submitted to a lane that nobody shares. It writes how many entries the documents have, and to standard error the
//! microseconds from the first submission to the last; what is submitted is made before.
//! The status is 1 where the words are others, a call is refused, an operation isn't sequenced, a thread can't be started or the
//! clock can't be read, and 2 where the numbers can't be written.
#![tactic(auto)]

mod operations;
mod submitting;

use std::process::ExitCode;
use std::{env, io};
use submitting::{Taken, submit_alone, submit_in_threads};

fn main(rt: HostRuntime) -> ExitCode {
    let Ok(numbers) = read_numbers(&rt) else {
        return ExitCode::from(1);
    };
    let &[threads, documents, count] = numbers.as_slice() else {
        return ExitCode::from(1);
    };
    let taken = if threads == 0 {
        submit_alone(&rt, rt.alloc(), count)
    } else {
        submit_in_threads(&rt, rt.alloc(), threads, documents, count)
    };
    let Some(taken) = taken else {
        return ExitCode::from(1);
    };
    match write(&rt, taken) {
        Ok(()) => ExitCode::SUCCESS,
        Err(_) => ExitCode::from(2),
    }
}

fn write(rt: &HostRuntime, taken: Taken) -> io::Result<()> {
    println!(rt; "{} entries", taken.entries)?;
    eprintln!(rt; "{} microseconds", taken.micros)
}

// The words behind the program's name, those that are numbers.
fn read_numbers(rt: &HostRuntime) -> io::Result<Vec<u64>> {
    let mut numbers = Vec::new(rt.alloc());
    for word in env::args(rt)?.skip(1) {
        if let Ok(number) = word.as_str().parse::<u64>() {
            numbers.push(number)?;
        }
    }
    Ok(numbers)
}
