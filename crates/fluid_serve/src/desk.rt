//! What a run is given.
ghost use Rattle.std.specs.Prelude.{◌≡◌};
ghost use Rattle.std.specs.FinMap.{empty};
ghost use Rattle.fluid_log.specs.Memory.{memory_seen};
ghost use Rattle.fluid_log.specs.Places.{shelves_seen};
ghost use Rattle.fluid_serve.specs.Desks.{AreReady};

use fluid_log::MemoryShelves;
use fluid_service::new_shelves_are_kept;
use fluid_store::MemoryObjects;
use std::alloc::Global;

/// The keepers of the documents, the objects of their summaries, and the time.
#[derive(Drop)]
pub struct Desk<B, O, C> {
    pub shelves: B,
    pub objects: O,
    pub clock: C,
}

impl<C> Desk<MemoryShelves, MemoryObjects, C> {
    /// A desk in memory, on which nothing is kept yet. Takes no memory.
    pub fn in_memory(alloc: Global, clock: C) -> Desk<MemoryShelves, MemoryObjects, C>
        ensures ready { AreReady memory_seen (shelves_seen result.shelves) }
        ensures shelves { result.shelves.places ≡ empty }
        ensures objects { result.objects.held ≡ empty }
    {
        let shelves = MemoryShelves::new(alloc, Vec::new(alloc));
        new_shelves_are_kept(&shelves);
        Desk {
            shelves,
            objects: MemoryObjects::new(alloc, Vec::new(alloc)),
            clock,
        }
    }
}
