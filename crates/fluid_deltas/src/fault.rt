ghost use Rattle.std.specs.Prelude.{◌≡◌};
ghost use Rattle.fluid_deltas.specs.declared.fault.DeltaFault.TheVariants.{NoMemory as DeltaNoMemory};

use fluid_io::FaultNote;
use fluid_json::NoMemory;
use std::alloc::{AllocError, AllocFailed};

/// Why messages weren't put or given.
#[derive(Clone, Copy, Debug, PartialEq, Eq)]
pub enum DeltaFault {
    /// The keeper failed; its count of faults rose as the note says.
    DeltaFailed(FaultNote),
    NoMemory,
    /// The kept delta of this number doesn't decode. One that is a message of another number counts as such.
    BadDelta(u64),
    /// The document has come to the end of its numbers. Only a lane answers it.
    Worn,
}

impl From<NoMemory> for DeltaFault {
    ghost from_gives = { λ _ fault. fault ≡ DeltaNoMemory };

    fn from(_refused: NoMemory) -> DeltaFault {
        DeltaFault::NoMemory
    }
}

impl From<AllocError> for DeltaFault {
    ghost from_gives = { λ _ fault. fault ≡ DeltaNoMemory };

    fn from(_refused: AllocError) -> DeltaFault {
        DeltaFault::NoMemory
    }
}

impl<T: Drop> From<AllocFailed<T>> for DeltaFault {
    ghost from_gives = { λ _ fault. fault ≡ DeltaNoMemory };

    fn from(_refused: AllocFailed<T>) -> DeltaFault {
        DeltaFault::NoMemory
    }
}
