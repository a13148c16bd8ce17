//! Why a call on a lane is refused.
ghost use Rattle.std.specs.Prelude.{◌≡◌, IfOk};
ghost use Rattle.fluid_lane.specs.declared.fault.LaneFault.TheVariants.{NoMemory as LaneNoMemory};
ghost use Rattle.fluid_lane.specs.Faults.{of_entering, of_loading};

use fluid_checkpoint::CheckpointFault;
use fluid_document::{EnterFault, LoadFault};
use fluid_io::FaultNote;
use fluid_json::NoMemory;
use std::alloc::Global;

/// Why a call on a lane is refused. A call that enters looks for them in this order: `Worn`, a cut that is owed, `Full`,
/// `TooManyClients`, room for a message, want of memory, the append.
#[derive(Drop)]
pub enum LaneFault {
    /// The keeper failed at the log or at a checkpoint; its count of faults rose as the note says.
    LogFailed(FaultNote),
    /// As many joins and submissions are entered as the document takes, and this is one.
    Full(u64),
    /// The record of this place, counted from 0, doesn't decode. The record of an entry that is too long for a log counts as such.
    BadRecord(u64),
    /// No checkpoint of the number that was asked for is stored.
    NoCheckpoint { asked: u64, stored: u64 },
    /// As many checkpoints are stored as the document takes.
    CheckpointsFull,
    /// As many clients are joined as the document takes, and this is a join.
    TooManyClients,
    /// The keeper failed while deltas were put; its count of faults rose as the note says.
    DeltaFailed(FaultNote),
    NoMemory,
    /// The checkpoint of this number is refused for this reason.
    BadCheckpoint(u64, CheckpointFault),
    /// The text of the checkpoint would have so many bytes, more than the document takes.
    TooLarge(u64),
    /// The document has come to the end of its numbers: 2^53 - 1 entries and side steps.
    Worn,
}

impl LaneFault {
    /// The same fault with its own memory.
    pub fn copy(&self, alloc: Global) -> Result<LaneFault, NoMemory>
        ensures { IfOk result (λ copy. copy ≡ self.now) }
    {
        let copy = match self {
            LaneFault::LogFailed(note) => LaneFault::LogFailed(*note),
            LaneFault::Full(entries) => LaneFault::Full(*entries),
            LaneFault::BadRecord(place) => LaneFault::BadRecord(*place),
            LaneFault::NoCheckpoint { asked, stored } => LaneFault::NoCheckpoint {
                asked: *asked,
                stored: *stored,
            },
            LaneFault::CheckpointsFull => LaneFault::CheckpointsFull,
            LaneFault::TooManyClients => LaneFault::TooManyClients,
            LaneFault::DeltaFailed(note) => LaneFault::DeltaFailed(*note),
            LaneFault::NoMemory => LaneFault::NoMemory,
            LaneFault::BadCheckpoint(number, fault) => {
                LaneFault::BadCheckpoint(*number, fault.copy(alloc)?)
            }
            LaneFault::TooLarge(bytes) => LaneFault::TooLarge(*bytes),
            LaneFault::Worn => LaneFault::Worn,
        };
        Ok(copy)
    }
}

impl From<NoMemory> for LaneFault {
    ghost from_gives = { λ _ fault. fault ≡ LaneNoMemory };

    fn from(_refused: NoMemory) -> LaneFault {
        LaneFault::NoMemory
    }
}

impl From<EnterFault> for LaneFault {
    ghost from_gives = { λ fault lane. lane ≡ of_entering fault };

    fn from(fault: EnterFault) -> LaneFault {
        match fault {
            EnterFault::LogFailed(note) => LaneFault::LogFailed(note),
            EnterFault::DeltaFailed(note) => LaneFault::DeltaFailed(note),
            EnterFault::NoMemory => LaneFault::NoMemory,
        }
    }
}

impl From<LoadFault> for LaneFault {
    ghost from_gives = { λ fault lane. lane ≡ of_loading fault };

    fn from(fault: LoadFault) -> LaneFault {
        match fault {
            LoadFault::LogFailed(note) => LaneFault::LogFailed(note),
            LoadFault::DeltaFailed(note) => LaneFault::DeltaFailed(note),
            LoadFault::NoMemory => LaneFault::NoMemory,
            LoadFault::BadRecord(place) => LaneFault::BadRecord(place),
            LoadFault::BadCheckpoint(number, fault) => LaneFault::BadCheckpoint(number, fault),
            LoadFault::Worn => LaneFault::Worn,
        }
    }
}
