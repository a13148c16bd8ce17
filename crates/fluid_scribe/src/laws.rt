//! What holds of the definitions, said by functions that do nothing.
ghost use Rattle.fluid_scribe.specs.Laws.{StartsSo, StateGrows, AnswersByRules, JobByRules, HandlesAreIds};

use fluid_tree::laws::ids_are_read_back;

/// What is kept of an order with one message more is what this one makes of what was kept before.
pub fn state_grows()
    ensures start { StartsSo }
    ensures grows { StateGrows }
{
    ids_are_read_back();
}

/// What is kept answers as the rules do over the order.
pub fn answers_by_rules()
    ensures answer { AnswersByRules }
    ensures job { JobByRules }
{
    ids_are_read_back();
}

/// What is acknowledged has an id of 20 bytes.
pub fn handles_are_ids()
    ensures { HandlesAreIds }
{}
