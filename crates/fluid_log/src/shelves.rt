//! Where keepers come from.
ghost use Rattle.std.specs.Prelude.{◌≡◌, ℕ};
ghost use Rattle.fluid_log.specs.Calls.{IsCaused};
ghost use Rattle.fluid_log.specs.Shelving.{Shelving, IsCovered, IsIn, IsOut, GiveDoes, PutsBack};

use crate::{Keeper, KeeperFault};
use fluid_types::DocName;
use std::alloc::Global;

/// The keepers of many documents, by name. One that was given is out until it is put back. Which are out is known of
/// all shelves; whether shelves tell the keepers that are in never changes, and their count of faults never falls.
pub trait Shelves {
    type K: Keeper;

    /// The keepers that are in, where the shelves tell them, those that are out, and the count of faults.
    ghost seen: { Self → Shelving };

    /// How many faults were counted. They are at least those of each keeper that is in and told, and those with which each
    /// one that is out was given.
    fn faults(&self) -> u64
        ensures count { result ≡ (seen self.now).faults }
        ensures covered { IsCovered (seen self.now) };

    /// Gives the keeper of a document; one that has none yet gets a fresh one. After a fault it is still in.
    fn keeper(&mut self, alloc: Global, name: &DocName) -> Result<Self::K, KeeperFault>
        requires { IsIn (seen self.old) name.now }
        ensures cause { IsCaused (seen self.old).faults (seen self.new).faults result }
        ensures does { GiveDoes Self.K.seen name.now (seen self.old) (seen self.new) result }
        ensures covered { IsCovered (seen self.new) };

    /// Takes a document's keeper back into the place that was kept for it. Takes no memory.
    fn put_back(&mut self, name: &DocName, keeper: Self::K)
        requires { IsOut (seen self.old) name.now }
        ensures does { PutsBack name.now (seen self.old) (seen self.new) (Self.K.seen keeper) }
        ensures covered { IsCovered (seen self.new) };
}
