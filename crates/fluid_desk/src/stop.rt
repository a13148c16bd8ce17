//! Why a script ends in a step.
ghost use Rattle.std.specs.Prelude.{◌≡◌};
ghost use Rattle.fluid_desk.specs.declared.stop.Stop.TheVariants.{NoMemory as OutOfMemory};
ghost use Rattle.fluid_desk.specs.Stopping.{stop_of};

use fluid_io::FaultNote;
use fluid_json::NoMemory;
use fluid_lane::LaneFault;
use fluid_store::StoreFault;

/// Why a script ends in a step.
#[derive(Drop)]
pub enum Stop {
    /// The shelves or a keeper failed; the count of faults of the one that failed rose as the note says.
    KeeperFault(FaultNote),
    /// The store of objects failed; its count of faults rose as the note says.
    StoreFault(FaultNote),
    /// What is stored is refused.
    BadStored(StoredFault),
    NoMemory,
}

/// What is refused of all that is stored.
#[derive(Drop)]
pub enum StoredFault {
    /// A document's record or checkpoint, or the document has come to the end of its numbers.
    Lane(LaneFault),
    /// The text of the message of this number.
    Delta(u64),
    /// An object that a summary needs.
    Object(StoreFault),
}

impl From<NoMemory> for Stop {
    ghost from_gives = { λ _ stop. stop ≡ OutOfMemory };

    fn from(_refused: NoMemory) -> Stop {
        Stop::NoMemory
    }
}

/// A fault of a lane that a step doesn't write.
pub fn stop_of(fault: LaneFault) -> Stop
    ensures { result ≡ stop_of fault }
{
    match fault {
        LaneFault::LogFailed(note) => Stop::KeeperFault(note),
        LaneFault::DeltaFailed(note) => Stop::KeeperFault(note),
        LaneFault::NoMemory => Stop::NoMemory,
        other => Stop::BadStored(StoredFault::Lane(other)),
    }
}
