// What holds in every legal ledger's order.
ghost use Rattle.fluid_tasks.specs.Laws.{OneHolderAtATime};

/// In every legal ledger's order, behind each of its messages, each item is exactly one of free, held by one client that is a member of
/// the quorum there, and gone; each task has at most one holder, who is a member. It does nothing.
pub fn one_holder_at_a_time()
    ensures { OneHolderAtATime }
{}
