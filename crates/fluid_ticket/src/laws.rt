// A law of the states of ledgers. It is the contract of a function that does nothing.
ghost use Rattle.fluid_ticket.specs.Ledger.{RowsAreJoined};

/// The rows of a state that stands for a ledger are those of its joined clients, in order and in number.
pub fn rows_are_joined()
    ensures { RowsAreJoined }
{}
