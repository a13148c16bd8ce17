//! Objects in memory.
ghost use Rattle.std.specs.Prelude.{◌≡◌, length};
ghost use Rattle.std.specs.FinMap.{empty, len};
ghost use Rattle.fluid_store.specs.Held.{IsShort};
ghost use Rattle.fluid_store.specs.Storing.{Gets, Puts};
ghost use Rattle.fluid_store.specs.Memory.{memory_seen, MemoryGets, MemoryPuts};

use crate::{ObjectFault, Objects};
use fluid_io::FaultPlan;
use fluid_json::Bytes;
use fluid_tree::Id;
use std::alloc::Global;
use std::collections::BTreeMap;
use std::marker::Model;

/// An object has less than so many bytes.
const LONGEST: usize = 1 << 53;

/// A store in memory, in which an id is found in a number of comparisons that grows with the logarithm of the objects.
/// It tells what it holds.
#[derive(Drop)]
pub struct MemoryObjects {
    held: BTreeMap<Id, Bytes>,
    gets: u64,
    plan: FaultPlan,
}

impl Model for MemoryObjects {
    ghost use Rattle.std.specs.Prelude.{IsTrue};
    ghost use Rattle.std.specs.FinMap.{from_sorted, is_sorted};
    ghost use Rattle.fluid_store.specs.Held.{byte_order, IsShort};
    ghost use Rattle.fluid_store.specs.Memory.{MemoryStoring, memory_code};

    ghost Value = { MemoryStoring };

    ghost coded = { memory_code };

    ghost view = { λ m. record { held = from_sorted m.held.entries; gets = m.gets; plan = m.plan } };

    ghost invariant = { λ m. IsTrue (is_sorted byte_order m.held.entries) × IsShort (from_sorted m.held.entries) };
}

impl MemoryObjects {
    /// It holds nothing. The calls of `get` and `put` whose numbers from 1 are in `failing` fail.
    pub fn new(alloc: Global, failing: Vec<u64>) -> MemoryObjects
        ensures { result ≡ record {
          held = empty;
          gets = 0;
          plan = record { failing = failing.items; calls = 0; faults = 0 };
        } }
    {
        MemoryObjects {
            held: BTreeMap::new(alloc),
            gets: 0,
            plan: FaultPlan::new(failing),
        }
    }

    /// How many objects it holds.
    pub fn count(&self) -> usize
        ensures { result ≡ len self.now.held }
    {
        self.held.len()
    }

    /// How many gets were made. What is held has less than 2^53 bytes under each id: there is no memory for more. The count stands still at `u64::MAX`.
    pub fn gets(&self) -> u64
        ensures gets { result ≡ self.now.gets }
        ensures short { IsShort self.now.held }
    {
        self.gets
    }
}

impl Objects for MemoryObjects {
    ghost seen = { memory_seen };

    /// Fails exactly where the plan says so.
    fn get(&mut self, alloc: Global, id: &Id) -> Result<Option<Bytes>, ObjectFault>
        ensures gets { Gets id.now (memory_seen self.old) (memory_seen self.new) result }
        ensures exact { MemoryGets id.now self.old self.new result }
    {
        self.gets = self.gets.saturating_add(1);
        if self.plan.fails() {
            return Err(ObjectFault::Failed);
        }
        let Some(bytes) = self.held.get(id) else {
            return Ok(None);
        };
        let copy = bytes.copy(alloc)?;
        Ok(Some(copy))
    }

    /// Fails exactly where the plan says so, and then puts nothing.
    fn put(&mut self, alloc: Global, id: &Id, bytes: &[u8]) -> Result<(), ObjectFault>
        ensures puts { Puts id.now bytes.now (memory_seen self.old) (memory_seen self.new) result }
        ensures exact { MemoryPuts id.now bytes.now self.old self.new result }
    {
        let fails = self.plan.fails();
        if fails {
            return Err(ObjectFault::Failed);
        }
        if bytes.len() >= LONGEST {
            return Err(ObjectFault::NoMemory);
        }
        let copy = Bytes::copied(alloc, bytes)?;
        drop(self.held.insert(*id, copy)?);
        Ok(())
    }

    fn faults(&self) -> u64 {
        self.plan.faults()
    }
}
