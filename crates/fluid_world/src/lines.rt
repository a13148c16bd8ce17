//! What a step writes.
ghost use Rattle.fluid_world.specs.Standing.{IsWrittenOf};

use fluid_callers::Written;
use fluid_desk::Stop;
use fluid_json::{NoMemory, Text};
use std::alloc::Global;

/// The one line of a step, with its end.
pub(crate) fn one(alloc: Global, line: Result<Text, Stop>) -> Result<Written, Stop>
    ensures { IsWrittenOf line result }
{
    match line {
        Ok(line) => match Written::one(alloc, line.as_str()) {
            Ok(lines) => Ok(lines),
            Err(NoMemory) => Err(Stop::NoMemory),
        },
        Err(stop) => Err(stop),
    }
}
