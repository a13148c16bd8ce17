//! Worked examples, each computed from the definitions.
ghost use Rattle.fluid_workload.specs.Examples.{Submits, Writes};

/// What a client submits in a turn.
pub fn submissions()
    ensures { Submits }
{}

/// What is written of a short workload.
pub fn lines()
    ensures { Writes }
{}
