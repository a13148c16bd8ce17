//! The lane of a document as the value of a turn.
ghost use Rattle.std.specs.Prelude.{◌≡◌, List, length};

use fluid_feed::Tail;
use fluid_lane::{Lane, Limits, Step};
use fluid_log::Keeper;
use fluid_turn::Chronicle;

/// What never changes of a document while it is open.
#[derive(Clone, Copy, Debug, PartialEq, Eq)]
pub struct Terms {
    pub limits: Limits,
    /// How many checkpoints were found when its lane was started.
    pub opened: u64,
    /// Whether its keeper tells its content.
    pub told: bool,
}

/// A lane, whose history is the list of steps for which it stands, and the last messages of its order, printed.
#[derive(Drop)]
pub struct Bench<K: Keeper> {
    pub lane: Lane<K>,
    pub tail: Tail,
}

impl<K: Keeper> Chronicle for Bench<K> {
    ghost use Rattle.fluid_doors.specs.Terms.{terms_of};
    ghost use Rattle.fluid_doors.specs.Tailed.{BenchStands};

    type Entry = Step;

    type Fixed = Terms;

    ghost stands = { λ b l. BenchStands b.lane b.tail l };

    ghost fixed = { λ b. terms_of b.lane };

    fn entered(&self) -> u64 {
        self.lane.number()
    }
}
