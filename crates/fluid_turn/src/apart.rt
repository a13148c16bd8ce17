//! Two tokens of one table are two seats.
ghost use Rattle.std.specs.Prelude.{◌≡◌, ◌≢◌};

use atomic_table::Seat;

// No step is made: that there are two tokens shows it.
pub(crate) fn apart<S, V>(first: &mut Seat<S, V>, second: &mut Seat<S, V>)
    requires { second.old.table_id ≡ first.old.table_id }
    ensures { (first.new ≡ first.old) × (second.new ≡ second.old) × (second.old.id ≢ first.old.id) }
{}
