//! What one user of a store counted.
ghost use Rattle.std.specs.Prelude.{◌≡◌};

/// The counts of the calls that one user made: the faults, and the gets. A number stands still at the end of its type.
#[derive(Clone, Copy, Debug, PartialEq, Eq)]
pub struct Counts {
    pub faults: u64,
    pub gets: u64,
}

impl Counts {
    /// Of a user who made no call.
    pub fn new() -> Counts
        ensures { result ≡ record { faults = 0; gets = 0 } }
    {
        Counts { faults: 0, gets: 0 }
    }
}
