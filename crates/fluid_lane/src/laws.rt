//! What a lane says of the ledger for which it stands. Each is the contract of a function that does nothing.
ghost use Rattle.fluid_lane.specs.Laws.{LaneSays, LedgerOfSteps, OpeningLeaves, RefusalsFire};

/// A lane over a keeper that tells its content says of its ledger what the rules say: numbers, joined clients, acknowledged
/// summaries, the job, and the verdict of any entry.
pub fn lanes_say_their_ledgers()
    ensures says { LaneSays }
    ensures ledger { LedgerOfSteps }
{}

/// An opening enters a leave of each joined client.
pub fn openings_leave()
    ensures { OpeningLeaves }
{}

/// The fault of the first rule that refuses a call is that of a rule that refuses it.
pub fn refusals_fire()
    ensures { RefusalsFire }
{}
