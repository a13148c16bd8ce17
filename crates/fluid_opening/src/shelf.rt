//! The steps by which documents are opened.
use crate::DoorFault;
use fluid_types::DocName;

/// A step of the shelf on which a service keeps its documents.
#[derive(Drop)]
pub enum ShelfStep {
    /// The document of this name was opened.
    Opened(DocName),
    /// The document of this name wasn't opened, for this cause.
    Failed(DocName, DoorFault),
}
