//! What holds of the definitions, said by functions that do nothing.
ghost use Rattle.fluid_turns.specs.Leaving.{SubmissionsLeaveAll};
ghost use Rattle.fluid_turns.specs.Quiet.{StepsGoQuietly};
ghost use Rattle.fluid_turns.specs.Tallying.{EntriesAreCounted, TalliesGrow};

/// A client's submission leaves all names as they are, and the store. To a container's document it adds nothing that the container's
/// client made.
pub fn submissions_leave_all()
    ensures { SubmissionsLeaveAll }
{}

/// By a step of a workload by which nobody submits nothing is absorbed or nacked.
pub fn steps_go_quietly()
    ensures { StepsGoQuietly }
{}

/// A tally with one verdict more is that of the ledger with one entry more.
pub fn tallies_grow()
    ensures { TalliesGrow }
{}

/// Each entry has a message, or was absorbed, nacked or dropped.
pub fn entries_are_counted()
    ensures { EntriesAreCounted }
{}
