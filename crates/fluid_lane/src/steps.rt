//! What the calls of a lane add to its list of steps.
use fluid_io::FaultNote;
use fluid_types::{Raw, Verdict};

/// A step that enters nothing.
#[derive(Clone, Copy, Debug, PartialEq, Eq)]
pub enum Side {
    /// The keeper failed; its count of faults rose as the note says.
    Failed(FaultNote),
    /// The checkpoint of this number was stored.
    Stored(u64),
    /// The state was built anew from the checkpoint of this number and the log behind it.
    Restarted(u64),
}

/// A step of a document: a raw entry with its verdict, or one beside the entries.
#[derive(Drop)]
pub enum Step {
    Entered(Raw, Verdict),
    Aside(Side),
}
