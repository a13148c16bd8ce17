//! What holds of the definitions, said by a function that does nothing.
ghost use Rattle.fluid_core.specs.Laws.{VerdictByRules, StateGrows};

use fluid_rules::laws::orders_are_answered_in_turn;

/// The state of a legal ledger gives the next entry the verdict of the rules, and this verdict makes it the state of the ledger with
/// this entry.
pub fn state_of_a_ledger_goes_on()
    ensures verdict { VerdictByRules }
    ensures grows { StateGrows }
{
    orders_are_answered_in_turn();
}
