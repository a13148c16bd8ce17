ghost use Rattle.std.specs.Prelude.{◌≡◌};
ghost use Rattle.fluid_log.specs.declared.fault.KeeperFault.TheVariants.{Failed as KeeperFailed, NoMemory as KeeperNoMemory};

use fluid_io::Failed;
use fluid_json::NoMemory;
use std::alloc::{AllocError, AllocFailed};

/// Why a keeper, or shelves that were asked for one, answered nothing.
#[derive(Clone, Copy, Debug, PartialEq, Eq)]
pub enum KeeperFault {
    /// The count of faults rose in the call that answers this.
    Failed,
    NoMemory,
}

impl From<Failed> for KeeperFault {
    ghost from_gives = { λ _ fault. fault ≡ KeeperFailed };

    fn from(_failed: Failed) -> KeeperFault {
        KeeperFault::Failed
    }
}

impl From<NoMemory> for KeeperFault {
    ghost from_gives = { λ _ fault. fault ≡ KeeperNoMemory };

    fn from(_refused: NoMemory) -> KeeperFault {
        KeeperFault::NoMemory
    }
}

impl From<AllocError> for KeeperFault {
    ghost from_gives = { λ _ fault. fault ≡ KeeperNoMemory };

    fn from(_refused: AllocError) -> KeeperFault {
        KeeperFault::NoMemory
    }
}

impl<T: Drop> From<AllocFailed<T>> for KeeperFault {
    ghost from_gives = { λ _ fault. fault ≡ KeeperNoMemory };

    fn from(_refused: AllocFailed<T>) -> KeeperFault {
        KeeperFault::NoMemory
    }
}
