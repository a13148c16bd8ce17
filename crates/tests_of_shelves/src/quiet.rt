// Keepers and shelves in memory that tell nothing of what they keep.
ghost use Rattle.std.specs.Prelude.{◌≡◌};
ghost use Rattle.fluid_log.specs.Shelving.{AreWhole};
ghost use Rattle.fluid_log.specs.Places.{shelves_seen};

use fluid_io::Failed;
use fluid_json::Bytes;
use fluid_log::{Keeper, KeeperFault, MemoryKeeper, MemoryShelves, Shelves};
use fluid_types::DocName;
use std::alloc::Global;
use std::sync::atomic::{AtomicU64, Ordering};
use std::thread;

// How often one thread looks whether another has come so far.
const LOOKS: u64 = 10_000_000;

// A gate at which one thread waits for another.
#[derive(Drop)]
pub struct Gate {
    reached: AtomicU64,
    opened: AtomicU64,
}

impl Gate {
    pub fn new() -> Gate {
        Gate {
            reached: AtomicU64::new(0),
            opened: AtomicU64::new(0),
        }
    }

    pub fn open(&self) {
        self.opened.store(1, Ordering::SeqCst);
    }

    // Waits until somebody is at the gate; whether anybody came.
    pub fn is_reached(&self) -> bool {
        is_set(&self.reached)
    }

    // Waits until the gate is open; whether it was opened.
    fn pass(&self) -> bool {
        self.reached.store(1, Ordering::SeqCst);
        is_set(&self.opened)
    }
}

// Whether the word is set after so many looks.
fn is_set(word: &AtomicU64) -> bool {
    for _ in 0..LOOKS {
        if word.load(Ordering::SeqCst) == 1 {
            return true;
        }
        thread::yield_now();
    }
    false
}

// A keeper whose appends may have to pass a gate; where it isn't opened they fail.
#[derive(Drop)]
pub struct Quiet<'a> {
    keeper: MemoryKeeper,
    gate: Option<&'a Gate>,
}

impl<'a> Keeper for Quiet<'a> {
    ghost use Rattle.fluid_log.specs.Memory.{memory_seen};
    ghost use Rattle.tests_of_shelves.specs.Quiet.{quiet};

    ghost seen = { λ q. quiet (memory_seen q.keeper) };

    ghost sized = { λ _. tt };

    fn faults(&self) -> u64 {
        self.keeper.faults()
    }

    fn len(&self) -> u64 {
        self.keeper.len()
    }

    fn deltas(&self) -> u64 {
        self.keeper.deltas()
    }

    fn checkpoints(&self) -> u64 {
        self.keeper.checkpoints()
    }

    fn append(&mut self, alloc: Global, bytes: &[u8]) -> Result<(), KeeperFault> {
        if let Some(gate) = self.gate {
            if !gate.pass() {
                return Err(KeeperFault::NoMemory);
            }
        }
        self.keeper.append(alloc, bytes)
    }

    fn read(&mut self, alloc: Global, place: u64) -> Result<Bytes, KeeperFault> {
        self.keeper.read(alloc, place)
    }

    fn cut(&mut self, count: u64) -> Result<(), Failed> {
        self.keeper.cut(count)
    }

    fn put_delta(&mut self, alloc: Global, number: u64, bytes: &[u8]) -> Result<(), KeeperFault> {
        self.keeper.put_delta(alloc, number, bytes)
    }

    fn delta(&mut self, alloc: Global, number: u64) -> Result<Bytes, KeeperFault> {
        self.keeper.delta(alloc, number)
    }

    fn store_checkpoint(&mut self, alloc: Global, bytes: &[u8]) -> Result<u64, KeeperFault> {
        self.keeper.store_checkpoint(alloc, bytes)
    }

    fn checkpoint(&mut self, alloc: Global, number: u64) -> Result<Bytes, KeeperFault> {
        self.keeper.checkpoint(alloc, number)
    }
}

// Shelves whose keepers are such. Those of the document "slow" pass the gate.
#[derive(Drop)]
pub struct QuietShelves<'a> {
    pub shelves: MemoryShelves,
    pub gate: &'a Gate,
}

impl<'a> Shelves for QuietShelves<'a> {
    type K = Quiet<'a>;

    ghost use Rattle.fluid_log.specs.Places.{shelves_seen};
    ghost use Rattle.tests_of_shelves.specs.Quiet.{quiet_shelves};

    ghost seen = { λ s. quiet_shelves (shelves_seen s.shelves) };

    fn faults(&self) -> u64 {
        self.shelves.faults()
    }

    fn keeper(&mut self, alloc: Global, name: &DocName) -> Result<Quiet<'a>, KeeperFault> {
        match self.shelves.keeper(alloc, name) {
            Ok(keeper) => {
                let gate = if name.as_str() == "slow" {
                    Some(self.gate)
                } else {
                    None
                };
                Ok(Quiet { keeper, gate })
            }
            Err(fault) => Err(fault),
        }
    }

    fn put_back(&mut self, name: &DocName, keeper: Quiet<'a>) {
        let Quiet { keeper, .. } = keeper;
        self.shelves.put_back(name, keeper);
    }
}
