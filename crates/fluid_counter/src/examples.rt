//! Worked examples of the counter, each computed from the definitions.

ghost use Rattle.fluid_counter.specs.Examples.{ThreeIncrements, PendingAmounts, RoomAtTheEnd};

/// Three increments, one of them negative.
pub fn three_increments()
    ensures { ThreeIncrements }
{}

/// Two pending amounts are shown over a negative total.
pub fn pending_amounts()
    ensures { PendingAmounts }
{}

/// Sizes may add up to 2^126, and not to 1 more.
pub fn room_at_the_end()
    ensures { RoomAtTheEnd }
{}
