use crate::MemoryKeeper;

/// Where the keeper of a document is.
#[derive(Drop)]
pub enum Place {
    In(MemoryKeeper),
    /// It was given, with so many faults.
    Out(u64),
}
