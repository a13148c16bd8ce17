//! The words for failing.

/// An object of the outside failed. Its count of faults rose in the call that answers this.
#[derive(Clone, Copy, Debug, PartialEq, Eq)]
pub struct Failed;

/// Two counts of faults of one object, read before and after a call that failed. At `u64::MAX` a count stands still.
#[derive(Clone, Copy, Debug, PartialEq, Eq)]
pub struct FaultNote {
    pub before: u64,
    pub after: u64,
}
