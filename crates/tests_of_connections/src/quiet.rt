// Keepers and shelves in memory that tell nothing of what they keep, so that a service may begin over a record that is damaged.
ghost use Rattle.std.specs.Prelude.{◌≡◌};
ghost use Rattle.fluid_log.specs.Shelving.{AreWhole};
ghost use Rattle.fluid_log.specs.Places.{shelves_seen};

use fluid_io::Failed;
use fluid_json::Bytes;
use fluid_log::{Keeper, KeeperFault, MemoryKeeper, MemoryShelves, Shelves};
use fluid_types::DocName;
use std::alloc::Global;

#[derive(Drop)]
pub struct Quiet {
    pub keeper: MemoryKeeper,
}

impl Keeper for Quiet {
    ghost use Rattle.fluid_log.specs.Memory.{memory_seen};
    ghost use Rattle.tests_of_connections.specs.Quiet.{quiet};

    ghost seen = { λ q. quiet (memory_seen q.keeper) };

    ghost sized = { λ _. tt };

    fn faults(&self) -> u64 {
        self.keeper.faults()
    }

    fn len(&self) -> u64 {
        self.keeper.len()
    }

    fn deltas(&self) -> u64 {
        self.keeper.deltas()
    }

    fn checkpoints(&self) -> u64 {
        self.keeper.checkpoints()
    }

    fn append(&mut self, alloc: Global, bytes: &[u8]) -> Result<(), KeeperFault> {
        self.keeper.append(alloc, bytes)
    }

    fn read(&mut self, alloc: Global, place: u64) -> Result<Bytes, KeeperFault> {
        self.keeper.read(alloc, place)
    }

    fn cut(&mut self, count: u64) -> Result<(), Failed> {
        self.keeper.cut(count)
    }

    fn put_delta(&mut self, alloc: Global, number: u64, bytes: &[u8]) -> Result<(), KeeperFault> {
        self.keeper.put_delta(alloc, number, bytes)
    }

    fn delta(&mut self, alloc: Global, number: u64) -> Result<Bytes, KeeperFault> {
        self.keeper.delta(alloc, number)
    }

    fn store_checkpoint(&mut self, alloc: Global, bytes: &[u8]) -> Result<u64, KeeperFault> {
        self.keeper.store_checkpoint(alloc, bytes)
    }

    fn checkpoint(&mut self, alloc: Global, number: u64) -> Result<Bytes, KeeperFault> {
        self.keeper.checkpoint(alloc, number)
    }
}

// Shelves whose keepers are such.
#[derive(Drop)]
pub struct QuietShelves {
    pub shelves: MemoryShelves,
}

impl Shelves for QuietShelves {
    type K = Quiet;

    ghost use Rattle.fluid_log.specs.Places.{shelves_seen};
    ghost use Rattle.tests_of_connections.specs.Quiet.{quiet_shelves};

    ghost seen = { λ s. quiet_shelves (shelves_seen s.shelves) };

    fn faults(&self) -> u64 {
        self.shelves.faults()
    }

    fn keeper(&mut self, alloc: Global, name: &DocName) -> Result<Quiet, KeeperFault> {
        match self.shelves.keeper(alloc, name) {
            Ok(keeper) => Ok(Quiet { keeper }),
            Err(fault) => Err(fault),
        }
    }

    fn put_back(&mut self, name: &DocName, keeper: Quiet) {
        let Quiet { keeper, .. } = keeper;
        self.shelves.put_back(name, keeper);
    }
}
