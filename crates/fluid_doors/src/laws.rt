//! What holds of every pass, and of keepers that have nothing.
ghost use Rattle.std.specs.Prelude.{◌≡◌, ◌≤◌, ℕ, true, length};
ghost use Rattle.fluid_turn.specs.Entries.{made_by, IsSigned};
ghost use Rattle.fluid_doors.specs.Laws.{NewIsKept, IsLegalHistory};

use crate::door::Pass;
use fluid_lane::lanes_say_their_ledgers;
use fluid_log::Keeper;

/// What holds of every pass: its own steps are those of the seen ones that bear its number, in order, and no more; what it has seen
/// begins with the steps with which its door began, which bear no number; and, where the keeper tells its content, the entered
/// ones among all that it has seen are a legal ledger.
pub fn know<K: Keeper>(pass: &Pass<K>)
    ensures own { pass.now.mine ≡ made_by pass.now.number pass.now.seen }
    ensures few { length pass.now.mine ≤ length pass.now.seen }
    ensures signed { (seats : ℕ) × IsSigned pass.now.turn.began seats pass.now.seen }
    ensures legal { pass.now.turn.fixed.told ≡ true → IsLegalHistory pass.now.seen }
{
    lanes_say_their_ledgers();
    pass.know();
}

/// A keeper that has nothing is kept for no entries.
pub fn new_keepers_are_kept()
    ensures { NewIsKept }
{}
