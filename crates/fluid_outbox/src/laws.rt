// What holds of every run.
ghost use Rattle.std.specs.Prelude.{List};
ghost use Rattle.fluid_types.specs.Ledger.{Ledger, order};
ghost use Rattle.fluid_outbox.specs.Past.{Call};
ghost use Rattle.fluid_outbox.specs.Kept.{StandsFor, past_of};
ghost use Rattle.fluid_outbox.specs.Runs.{IsRun, IsExactlyOnce, EachOnce};

use crate::Outbox;

/// Over every run of an outbox the edits that stand in the order are the first ones, in the order of their numbers, each once;
/// those that it counts as acknowledged stand, and are the first of these. So no edit stands twice. It does nothing.
pub fn law_run(outbox: &Outbox)
    ensures { (calls : List Call) (l : Ledger) → StandsFor outbox.now calls → IsRun calls l → IsExactlyOnce (past_of calls) (order l) outbox.now.acknowledged }
{
    let _ = outbox;
    each_once();
}

// The law, of calls alone.
fn each_once()
    ensures { EachOnce }
{}
