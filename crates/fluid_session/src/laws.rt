//! What holds of every session, said by functions that do nothing.
ghost use Rattle.fluid_session.specs.Outcome.{FeedsHaveNoGap, TextsEnterInOrder};
ghost use Rattle.fluid_session.specs.Complete.{EndsWithItsWire};
ghost use Rattle.fluid_session.specs.Whole.{CyclesAreSessions, CyclesGoOn};

/// What a connected one collects is one stretch of its document's order, without a gap.
pub fn feeds_have_no_gap()
    ensures { FeedsHaveNoGap }
{}

/// What a connected one enters is what its texts spell under its own id, in their order.
pub fn texts_enter_in_order()
    ensures { TextsEnterInOrder }
{}

/// A session over a wire whose texts end, none too long and not too many unread, ends as its wire does where nothing outside failed, or
/// memory was wanting.
pub fn sessions_end_with_their_wires()
    ensures { EndsWithItsWire }
{}

/// Cycles of a session one behind another are one stretch of it.
pub fn cycles_go_on()
    ensures { CyclesGoOn }
{}

/// Cycles until one of them ends the session, and what concludes them, are a whole session.
pub fn cycles_are_sessions()
    ensures { CyclesAreSessions }
{}
