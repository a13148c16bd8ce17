//! Shelves with which a service may begin, and what holds of every key.
ghost use Rattle.std.specs.Prelude.{◌≡◌, ◌≤◌, length};
ghost use Rattle.std.specs.FinMap.{empty};
ghost use Rattle.fluid_log.specs.Memory.{memory_seen};
ghost use Rattle.fluid_log.specs.Places.{shelves_seen};
ghost use Rattle.fluid_log.specs.Shelving.{AreWhole};
ghost use Rattle.fluid_turn.specs.Entries.{made_by, entries};
ghost use Rattle.fluid_opening.specs.Steps.{opened};
ghost use Rattle.fluid_opening.specs.declared.opening.TheConstants.{MOST_DOCUMENTS};
ghost use Rattle.fluid_service.specs.Shelved.{AreKept, GiveKept};

use crate::service::Key;
use fluid_log::{MemoryShelves, Shelves};

/// Shelves in memory from which nothing was taken and into which nothing was put are such.
pub fn new_shelves_are_kept(shelves: &MemoryShelves)
    requires { shelves.now.places ≡ empty }
    ensures whole { AreWhole (shelves_seen shelves.now) }
    ensures kept { AreKept (shelves_seen shelves.now) }
    ensures give { GiveKept memory_seen (shelves_seen shelves.now) }
{
    let _ = shelves;
}

/// What holds of every key: its own steps are those of the seen ones that bear its number, in order, and not more documents were opened
/// than may be open.
pub fn know_key<B: Shelves>(key: &Key<B>)
    ensures own { key.now.mine ≡ made_by key.now.number key.now.seen }
    ensures few { length (opened (entries key.now.seen)) ≤ MOST_DOCUMENTS }
{
    key.know();
}
