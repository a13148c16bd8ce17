//! How a script ends.
ghost use Rattle.std.specs.Prelude.{◌≡◌};
ghost use Rattle.fluid_transcript.specs.Transcript as transcript;
ghost use Rattle.fluid_world.specs.Ending.{end_for};

use crate::ends::ScriptEnd;
use fluid_desk::Stop;
use fluid_pipe::Refusal;
use fluid_steps::LineWhy;

/// The end of a script that a step ended.
pub fn end_for(stop: Stop) -> ScriptEnd
    ensures { result ≡ end_for stop }
{
    match stop {
        Stop::KeeperFault(note) => ScriptEnd::KeeperFault(note),
        Stop::StoreFault(note) => ScriptEnd::StoreFault(note),
        Stop::BadStored(fault) => ScriptEnd::BadStored(fault),
        Stop::NoMemory => ScriptEnd::NoMemory,
    }
}

/// Why a line is refused, where one that isn't read is among the causes.
pub(crate) fn why_of(refusal: Refusal<LineWhy>) -> LineWhy
    ensures { result ≡ transcript.why_of refusal }
{
    match refusal {
        Refusal::TooLong => LineWhy::TooLong,
        Refusal::NotUtf8 => LineWhy::NotUtf8,
        Refusal::TooManyLines => LineWhy::TooMany,
        Refusal::Text(why) => why,
    }
}
