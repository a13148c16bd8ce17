//! A keeper that keeps nothing.
ghost use Rattle.std.specs.Prelude.{◌≡◌};

use fluid_io::Failed;
use fluid_json::Bytes;
use fluid_log::{Keeper, KeeperFault};
use std::alloc::Global;

/// A keeper that counts the deltas that are put, and forgets them: what it would keep counts for nobody's memory. It tells no
/// content, and answers every other call with want of memory.
#[derive(Drop)]
pub(crate) struct Forgetful {
    records: u64,
    deltas: u64,
    checkpoints: u64,
}

impl Forgetful {
    /// Nothing was put. Records and checkpoints never are; they are counted so that each call of a keeper has its meaning.
    pub(crate) fn new() -> Forgetful {
        Forgetful {
            records: 0,
            deltas: 0,
            checkpoints: 0,
        }
    }
}

impl Keeper for Forgetful {
    ghost use Rattle.std.specs.Prelude.{None};

    ghost seen = { λ keeper. record {
      content = None;
      records = keeper.records;
      deltas = keeper.deltas;
      checkpoints = keeper.checkpoints;
      faults = 0;
      reads = 0;
    } };

    ghost sized = { λ keeper. tt };

    fn faults(&self) -> u64 {
        0
    }

    fn len(&self) -> u64 {
        self.records
    }

    fn deltas(&self) -> u64 {
        self.deltas
    }

    fn checkpoints(&self) -> u64 {
        self.checkpoints
    }

    fn append(&mut self, _alloc: Global, _bytes: &[u8]) -> Result<(), KeeperFault> {
        Err(KeeperFault::NoMemory)
    }

    fn read(&mut self, _alloc: Global, _place: u64) -> Result<Bytes, KeeperFault> {
        Err(KeeperFault::NoMemory)
    }

    fn cut(&mut self, count: u64) -> Result<(), Failed> {
        self.records = count;
        Ok(())
    }

    fn put_delta(&mut self, _alloc: Global, number: u64, _bytes: &[u8]) -> Result<(), KeeperFault> {
        self.deltas = number;
        Ok(())
    }

    fn delta(&mut self, _alloc: Global, _number: u64) -> Result<Bytes, KeeperFault> {
        Err(KeeperFault::NoMemory)
    }

    fn store_checkpoint(&mut self, _alloc: Global, _bytes: &[u8]) -> Result<u64, KeeperFault> {
        Err(KeeperFault::NoMemory)
    }

    fn checkpoint(&mut self, _alloc: Global, _number: u64) -> Result<Bytes, KeeperFault> {
        Err(KeeperFault::NoMemory)
    }
}
