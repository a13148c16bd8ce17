//! Why a document isn't opened.
ghost use Rattle.std.specs.Prelude.{◌≡◌, IfOk};
ghost use Rattle.fluid_opening.specs.declared.fault.DoorFault.TheVariants.{NoMemory as DoorNoMemory};
ghost use Rattle.fluid_opening.specs.Faults.{of_starting};

use fluid_io::FaultNote;
use fluid_json::NoMemory;
use fluid_lane::LaneFault;
use std::alloc::Global;

/// Why a document isn't opened.
#[derive(Drop)]
pub enum DoorFault {
    /// The shelves failed; their count of faults rose as the note says.
    ShelfFailed(FaultNote),
    /// The document's lane wasn't started, for another reason than want of memory.
    Lane(LaneFault),
    /// So many documents are open, as many as may be, and this isn't one of them.
    TooManyDocuments(u64),
    NoMemory,
}

impl DoorFault {
    /// The same fault with its own memory.
    pub fn copy(&self, alloc: Global) -> Result<DoorFault, NoMemory>
        ensures { IfOk result (λ copy. copy ≡ self.now) }
    {
        match self {
            DoorFault::ShelfFailed(note) => Ok(DoorFault::ShelfFailed(*note)),
            DoorFault::Lane(fault) => {
                let fault = fault.copy(alloc)?;
                Ok(DoorFault::Lane(fault))
            }
            DoorFault::TooManyDocuments(count) => Ok(DoorFault::TooManyDocuments(*count)),
            DoorFault::NoMemory => Ok(DoorFault::NoMemory),
        }
    }
}

impl From<NoMemory> for DoorFault {
    ghost from_gives = { λ _ fault. fault ≡ DoorNoMemory };

    fn from(_refused: NoMemory) -> DoorFault {
        DoorFault::NoMemory
    }
}

impl From<LaneFault> for DoorFault {
    ghost from_gives = { λ fault door. door ≡ of_starting fault };

    fn from(fault: LaneFault) -> DoorFault {
        match fault {
            LaneFault::NoMemory => DoorFault::NoMemory,
            other => DoorFault::Lane(other),
        }
    }
}
