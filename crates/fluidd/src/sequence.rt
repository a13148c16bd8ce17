//! The command `sequence`: raw records in, a verdict line out for each.
ghost use Rattle.std.specs.Prelude.{◌≡◌};
ghost use Rattle.fluid_world.specs.Ending.{full};
ghost use Rattle.fluidd.specs.Output.{Sequences, status_of};

use crate::document::Document;
use crate::refusal::Why;
use crate::status::Status;
use fluid_io::{Sink, Source};
use fluid_json::NoMemory;
use fluid_pipe::{Stop, pipe};
use fluid_rules::Limits;
use std::alloc::Global;

/// The command `sequence` within limits of one's own: how many joins and submissions may be entered, and how many
/// clients may be joined. It reads raw records of one document, a line each, and writes a verdict line for each.
pub fn sequence_within<R, S: Source, K: Sink>(
    _rt: &R,
    alloc: Global,
    input: &mut S,
    output: &mut K,
    entries: u64,
    clients: u32,
) -> u8
    ensures { Sequences (record full { entries = entries; clients = clients }) (S.seen input.old) (K.seen output.old)
        (S.seen input.new) (K.seen output.new) result }
{
    let limits = Limits {
        entries,
        clients,
        ..Limits::FULL
    };
    let mut document = Document::new(alloc, limits);
    let ended = pipe(alloc, &mut document, input, output);
    status_of(ended).code()
}

// The status with which a run ends.
fn status_of(ended: Result<(), Stop<Why, NoMemory>>) -> Status
    ensures { result ≡ status_of ended }
{
    match ended {
        Ok(()) => Status::Done,
        Err(Stop::Refused(..)) => Status::Refused,
        Err(Stop::ReadFault) => Status::ReadFault,
        Err(Stop::WriteFault) => Status::WriteFault,
        Err(Stop::NoMemory | Stop::Failed(NoMemory)) => Status::NoMemory,
    }
}
