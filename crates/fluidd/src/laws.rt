//! What holds of the definitions, said by a function that does nothing.
ghost use Rattle.std.specs.Prelude.{◌≡◌, ◌⊎◌, ℕ, List, [], Option};
ghost use Rattle.std.specs.FinMap.{empty};
ghost use Rattle.std.specs.Str.Lines.{lines};
ghost use Rattle.fluid_log.specs.Places.{shelves_seen};
ghost use Rattle.fluid_store.specs.Memory.{memory_seen};
ghost use Rattle.fluid_pipe.specs.Meaning.{Accepts};
ghost use Rattle.fluid_pipe.specs.Output.{HasRefused};
ghost use Rattle.fluid_rules.specs.declared.limits.Limits.{Limits};
ghost use Rattle.fluid_transcript.specs.World.{first_world};
ghost use Rattle.fluid_world.specs.Ending.{full, IsDeskOf, GrowsLong};
ghost use Rattle.fluidd.specs.Output.{meaning};

use fluid_doors::new_keepers_are_kept;
use fluid_log::MemoryShelves;
use fluid_store::MemoryObjects;

/// Within whatever limits, either each line of an input is accepted or one is refused, and never both.
pub fn an_input_is_accepted_or_refused()
    ensures one_of { (limits : Limits) (bytes : List ℕ) → Accepts (meaning limits) [] (lines bytes) ⊎ HasRefused (meaning limits) bytes }
    ensures not_both { (limits : Limits) (bytes : List ℕ) → Accepts (meaning limits) [] (lines bytes) → HasRefused (meaning limits) bytes → ⊥ }
{}

/// Shelves and a store in memory into which nothing was put tell the first world, which has no document and no object.
pub fn new_desks_tell(shelves: &MemoryShelves, objects: &MemoryObjects)
    requires shelves { shelves.now.places ≡ empty }
    requires objects { objects.now.held ≡ empty }
    ensures { IsDeskOf (shelves_seen shelves.now) (memory_seen objects.now) (first_world empty empty) }
{
    new_keepers_are_kept();
    let _ = shelves;
    let _ = objects;
}

/// From that world on no document comes to the end of its numbers, whatever the lines are and whichever container is loaded last.
pub fn new_documents_stay_short()
    ensures { (load input : Option (List ℕ)) → GrowsLong full (first_world empty empty) load input → ⊥ }
{}
