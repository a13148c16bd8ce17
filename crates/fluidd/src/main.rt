//! The ordering service of collaborative documents, as a program.
//! `run` has the top call, `task` what the words ask for, `sequence` the command of that name, `document` what it keeps
//! between two lines of its input, `refusal` why the text of a line is refused, `status` how a run ends, and `laws` what
//! holds of the definitions. What `serve` does stands in `fluid_serve`.
#![tactic(auto)]

mod document;
pub mod laws;
pub mod refusal;
pub mod run;
pub mod sequence;
#[cfg(test)]
mod serving_tests;
pub mod status;
mod task;
#[cfg(test)]
mod tests;

use fluid_front::StationSpawner;
use fluid_io::{StdClock, StdSink, StdSource};
use fluid_json::Text;
use fluid_serve::Desk;
use fluid_socket::TcpFront;
use laws::new_desks_tell;
use run::run_first;
use status::Status;
use std::process::ExitCode;
use std::thread::Threads;
use std::{env, io, thread};

fn main(rt: HostRuntime) -> ExitCode {
    let alloc = rt.alloc();
    let words = match arguments(&rt) {
        Ok(words) => words,
        Err(fault) if fault.kind() == io::ErrorKind::OutOfMemory => {
            return ExitCode::from(Status::NoMemory.code());
        }
        // Arguments that aren't text are no command, and neither are no words.
        Err(_) => Vec::new(alloc),
    };
    let mut input = StdSource::new(rt.stdin());
    let mut output = StdSink::new(rt.stdout());
    let stations = stations(&rt);
    let Ok(front) = TcpFront::at_stations(alloc, rt, StdSink::new(rt.stderr()), stations) else {
        return ExitCode::from(Status::NoMemory.code());
    };
    let desk = Desk::in_memory(alloc, StdClock::new(rt));
    new_desks_tell(&desk.shelves, &desk.objects);
    let (status, _desk, _front, _spawner) = run_first(
        &rt,
        alloc,
        &words,
        &mut input,
        &mut output,
        desk,
        front,
        StationSpawner::new(stations),
    );
    ExitCode::from(status)
}

// In how many threads sessions have their cycles: half as many as there are processors, since those who talk to the service have
// something to do too; two at least, so that one session that waits doesn't stop all.
fn stations(rt: &impl Threads) -> u32 {
    match thread::available_parallelism(rt) {
        Ok(processors) => u32::try_from(processors.get() / 2)
            .unwrap_or(u32::MAX)
            .max(2),
        Err(_) => 2,
    }
}

// The words behind the program's name.
fn arguments(rt: &HostRuntime) -> io::Result<Vec<Text>> {
    let mut words = Vec::new(rt.alloc());
    for word in env::args(rt)?.skip(1) {
        words.push(Text::new(word))?;
    }
    Ok(words)
}
