//! A program of rows, which tests the crates that hold values and read and print their texts. A line of its input is a word and
//! what stands behind it, and for each it prints one line: what the crates answer. The file `stdin` has the rows, and `stdout`
//! what is to be printed, which was written from the rules and from what other programs print, never from a run of this one.
//! `lines` goes through the input, `rows` says which word asks for what, and `words` how bytes and numbers are written in a row.
//! The other modules have the answers, by subject. The status is 1 where a row isn't answered, for want of memory alone.
#![tactic(auto)]

mod checkpoints;
mod clients;
mod clocks;
mod counters;
mod events;
mod keepers;
mod lines;
mod maps;
mod names;
mod records;
mod replies;
mod rows;
mod shelves;
mod streams;
mod tables;
mod trees;
mod values;
mod words;

use fluid_io::{StdSink, StdSource};
use std::process::ExitCode;

fn main(rt: HostRuntime) -> ExitCode {
    let mut input = StdSource::new(rt.stdin());
    let mut output = StdSink::new(rt.stdout());
    match lines::answer_all(rt.alloc(), &mut input, &mut output) {
        Ok(()) => ExitCode::SUCCESS,
        Err(_) => ExitCode::FAILURE,
    }
}
