//! Why a call is refused.
use fluid_io::FaultNote;
use fluid_json::{Bytes, NoMemory};
use fluid_tree::{Id, Path, TreeFault};
use std::alloc::{AllocError, AllocFailed};

/// Why a call on objects failed.
#[derive(Clone, Copy, Debug, PartialEq, Eq)]
pub enum ObjectFault {
    /// Its count of faults rose in the call.
    Failed,
    NoMemory,
}

/// Why a call over objects is refused.
#[derive(Drop)]
pub enum StoreFault {
    /// A call on the objects failed. The note has the counts of faults round it.
    StoreFailed(FaultNote),
    /// Other bytes are held under the id of the new ones.
    Clash { id: Id, kept: Bytes, new: Bytes },
    /// Nothing is held under this id.
    Missing(Id),
    /// The bytes under this id leave the grammar of objects at this place, counted from 0; or the object is no tree
    /// where an entry says so, or the other way round, and then the place is 0.
    BadObject(Id, u64),
    /// The summary tree itself is refused.
    Tree(TreeFault),
    /// A handle has this path, and there is no earlier tree, or the path leads nowhere in it.
    NoPath(Path),
    NoMemory,
}

impl From<NoMemory> for ObjectFault {
    ghost use Rattle.std.specs.Prelude.{◌≡◌};
    ghost use Rattle.fluid_store.specs.declared.fault.ObjectFault.TheVariants.{NoMemory as Refused};

    ghost from_gives = { λ _ fault. fault ≡ Refused };

    fn from(_refused: NoMemory) -> ObjectFault {
        ObjectFault::NoMemory
    }
}

impl<T: Drop> From<AllocFailed<T>> for ObjectFault {
    ghost use Rattle.std.specs.Prelude.{◌≡◌};
    ghost use Rattle.fluid_store.specs.declared.fault.ObjectFault.TheVariants.{NoMemory as Refused};

    ghost from_gives = { λ _ fault. fault ≡ Refused };

    fn from(_refused: AllocFailed<T>) -> ObjectFault {
        ObjectFault::NoMemory
    }
}

impl From<NoMemory> for StoreFault {
    ghost use Rattle.std.specs.Prelude.{◌≡◌};
    ghost use Rattle.fluid_store.specs.declared.fault.StoreFault.TheVariants.{NoMemory as Refused};

    ghost from_gives = { λ _ fault. fault ≡ Refused };

    fn from(_refused: NoMemory) -> StoreFault {
        StoreFault::NoMemory
    }
}

impl From<AllocError> for StoreFault {
    ghost use Rattle.std.specs.Prelude.{◌≡◌};
    ghost use Rattle.fluid_store.specs.declared.fault.StoreFault.TheVariants.{NoMemory as Refused};

    ghost from_gives = { λ _ fault. fault ≡ Refused };

    fn from(_refused: AllocError) -> StoreFault {
        StoreFault::NoMemory
    }
}

impl<T: Drop> From<AllocFailed<T>> for StoreFault {
    ghost use Rattle.std.specs.Prelude.{◌≡◌};
    ghost use Rattle.fluid_store.specs.declared.fault.StoreFault.TheVariants.{NoMemory as Refused};

    ghost from_gives = { λ _ fault. fault ≡ Refused };

    fn from(_refused: AllocFailed<T>) -> StoreFault {
        StoreFault::NoMemory
    }
}
