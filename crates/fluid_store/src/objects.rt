//! A store of objects as the service sees it.
ghost use Rattle.std.specs.Prelude.{◌≡◌};
ghost use Rattle.fluid_store.specs.Storing.{Storing, Gets, Puts};

use crate::ObjectFault;
use fluid_json::Bytes;
use fluid_tree::Id;
use std::alloc::Global;

/// Bytes under ids. Whether a store tells what it holds never changes.
pub trait Objects {
    /// What it holds, where it tells it, and its counts of faults and of gets.
    ghost seen: { Self → Storing };

    /// The bytes that are held under the id. It changes nothing that is held.
    fn get(&mut self, alloc: Global, id: &Id) -> Result<Option<Bytes>, ObjectFault>
        ensures { Gets id.now (seen self.old) (seen self.new) result };

    /// Puts a copy of the bytes under the id, in place of those that were held under it. After a fault of the store they
    /// may be held or not; after want of memory nothing that is held has changed.
    fn put(&mut self, alloc: Global, id: &Id, bytes: &[u8]) -> Result<(), ObjectFault>
        ensures { Puts id.now bytes.now (seen self.old) (seen self.new) result };

    /// How many faults were counted. The count stands still at `u64::MAX`.
    fn faults(&self) -> u64
        ensures { result ≡ (seen self.now).faults };
}
