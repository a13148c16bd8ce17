//! Why an act of a connection fails.
ghost use Rattle.std.specs.Prelude.{◌≡◌, IfOk};
ghost use Rattle.fluid_ends.specs.declared.fault.TalkFault.TheVariants.{NoMemory as TalkNoMemory};
ghost use Rattle.fluid_ends.specs.Faults.{of_delta, of_door, of_store};

use crate::copies::store_fault;
use fluid_deltas::DeltaFault;
use fluid_json::NoMemory;
use fluid_lane::LaneFault;
use fluid_opening::DoorFault;
use fluid_store::StoreFault;
use std::alloc::Global;

/// Why an act of a connection fails. That a document is full, or has too many clients, is no fault but an end of the act.
#[derive(Drop)]
pub enum TalkFault {
    /// The document wasn't opened.
    Door(DoorFault),
    /// The document's lane failed at an entry.
    Lane(LaneFault),
    /// The document's messages weren't given.
    Delta(DeltaFault),
    /// The store failed, or holds other bytes under an object's id.
    Store(StoreFault),
    /// Whatever lacked it.
    NoMemory,
}

impl TalkFault {
    /// The same fault with its own memory.
    pub fn copy(&self, alloc: Global) -> Result<TalkFault, NoMemory>
        ensures { IfOk result (λ copy. copy ≡ self.now) }
    {
        match self {
            TalkFault::Door(fault) => {
                let fault = fault.copy(alloc)?;
                Ok(TalkFault::Door(fault))
            }
            TalkFault::Lane(fault) => {
                let fault = fault.copy(alloc)?;
                Ok(TalkFault::Lane(fault))
            }
            TalkFault::Delta(fault) => Ok(TalkFault::Delta(*fault)),
            TalkFault::Store(fault) => {
                let fault = store_fault(alloc, fault)?;
                Ok(TalkFault::Store(fault))
            }
            TalkFault::NoMemory => Ok(TalkFault::NoMemory),
        }
    }
}

impl From<NoMemory> for TalkFault {
    ghost from_gives = { λ _ fault. fault ≡ TalkNoMemory };

    fn from(_refused: NoMemory) -> TalkFault {
        TalkFault::NoMemory
    }
}

impl From<DoorFault> for TalkFault {
    ghost from_gives = { λ door fault. fault ≡ of_door door };

    fn from(fault: DoorFault) -> TalkFault {
        match fault {
            DoorFault::NoMemory => TalkFault::NoMemory,
            other => TalkFault::Door(other),
        }
    }
}

impl From<DeltaFault> for TalkFault {
    ghost from_gives = { λ delta fault. fault ≡ of_delta delta };

    fn from(fault: DeltaFault) -> TalkFault {
        match fault {
            DeltaFault::NoMemory => TalkFault::NoMemory,
            other => TalkFault::Delta(other),
        }
    }
}

impl From<StoreFault> for TalkFault {
    ghost from_gives = { λ store fault. fault ≡ of_store store };

    fn from(fault: StoreFault) -> TalkFault {
        match fault {
            StoreFault::NoMemory => TalkFault::NoMemory,
            other => TalkFault::Store(other),
        }
    }
}
