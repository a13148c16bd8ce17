//! Why an entry isn't entered, and why a document isn't read.
ghost use Rattle.std.specs.Prelude.{◌≡◌};
ghost use Rattle.fluid_document.specs.declared.fault.EnterFault.TheVariants.{NoMemory as unentered};
ghost use Rattle.fluid_document.specs.declared.fault.LoadFault.TheVariants.{NoMemory as unread};

use fluid_checkpoint::CheckpointFault;
use fluid_io::FaultNote;
use fluid_json::NoMemory;

/// Why messages aren't all put among a keeper's deltas.
#[derive(Clone, Copy, Debug, PartialEq, Eq)]
pub enum FlushFault {
    /// The keeper failed at one of them; its count of faults rose as the note says.
    DeltaFailed(FaultNote),
    NoMemory,
}

/// Why an entry isn't entered.
#[derive(Clone, Copy, Debug, PartialEq, Eq)]
pub enum EnterFault {
    /// The keeper failed at the append; its count of faults rose as the note says. The record is in the log or isn't.
    LogFailed(FaultNote),
    /// The keeper failed while deltas were put, to make room for a message; its count of faults rose as the note says.
    DeltaFailed(FaultNote),
    NoMemory,
}

/// Why a document isn't read.
#[derive(Drop)]
pub enum LoadFault {
    /// The keeper failed at a record or a checkpoint; its count of faults rose as the note says.
    LogFailed(FaultNote),
    /// The keeper failed while deltas were put, to make room for a message; its count of faults rose as the note says.
    DeltaFailed(FaultNote),
    NoMemory,
    /// The record of this place, counted from 0, doesn't decode. The record of an entry that is too long for a log counts as such.
    BadRecord(u64),
    /// The checkpoint of this number is refused for this reason.
    BadCheckpoint(u64, CheckpointFault),
    /// There are more records than a document may have entries.
    Worn,
}

impl From<NoMemory> for EnterFault {
    ghost from_gives = { λ _ fault. fault ≡ unentered };

    fn from(_refused: NoMemory) -> EnterFault {
        EnterFault::NoMemory
    }
}

impl From<NoMemory> for LoadFault {
    ghost from_gives = { λ _ fault. fault ≡ unread };

    fn from(_refused: NoMemory) -> LoadFault {
        LoadFault::NoMemory
    }
}
