//! What never changes of a service.
use fluid_lane::Limits;

/// What never changes of a service.
#[derive(Clone, Copy, Debug, PartialEq, Eq)]
pub struct ShelfTerms {
    /// The limits of each document.
    pub limits: Limits,
    /// Whether the shelves tell their keepers.
    pub told: bool,
}
