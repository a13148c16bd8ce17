//! Why a script ended.

use fluid_desk::StoredFault;
use fluid_io::FaultNote;
use fluid_steps::LineWhy;

/// Why a script ended.
#[derive(Drop)]
pub enum ScriptEnd {
    /// All lines were read and taken, and all was written.
    Done,
    /// The line of this number, counted from 1, is refused.
    BadLine(u64, LineWhy),
    /// The source failed.
    ReadFault,
    /// The sink failed.
    WriteFault,
    /// The shelves or a keeper failed; the count of the shelves that come back rose.
    KeeperFault(FaultNote),
    /// The store of objects failed; its count of faults rose as the note says.
    StoreFault(FaultNote),
    /// What is stored is refused.
    BadStored(StoredFault),
    NoMemory,
}
