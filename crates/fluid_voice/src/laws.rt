// What holds of the definitions, said by functions that do nothing.
ghost use Rattle.fluid_voice.specs.Feed.{EventsBringAll, EventsAreWhole};
ghost use Rattle.fluid_voice.specs.Fitting.{HeardFits};
ghost use Rattle.fluid_voice.specs.Laws.{FullGoesOn, FullStaysFull, OutcomesSuit, ConnectedStay, WritersEnter, RepliesAreNoEvents, OthersConnect, NextStaysAhead, DeliveredStaysAhead};

/// What a text asks for fits a document's log, where the text isn't longer than one that is heard.
pub fn what_is_heard_fits()
    ensures { HeardFits }
{}

/// Where a document refuses a submission as full, it refuses all that are behind it in their text, and every other entry that counts
/// from then on.
pub fn full_stays_full()
    ensures texts { FullStaysFull }
    ensures later { FullGoesOn }
{}

/// What a document or a store answers to an act is an end that the act may have.
pub fn outcomes_suit()
    ensures { OutcomesSuit }
{}

/// A text leaves a connected one where it stands, however its acts end.
pub fn connected_ones_stay()
    ensures { ConnectedStay }
{}

/// Only a client that writes enters something of a text: the submissions under its own id, in their order.
pub fn writers_enter()
    ensures { WritersEnter }
{}

/// What isn't connected gets one reply to a text, or is connected by it.
pub fn others_connect()
    ensures { OthersConnect }
{}

/// The number of the message that is delivered next is never 0, where one is connected.
pub fn next_stays_ahead()
    ensures acts { NextStaysAhead }
    ensures delivered { DeliveredStaysAhead }
{}

/// Op events come from the feed alone, and never as a reply to a text.
pub fn replies_are_no_events()
    ensures { RepliesAreNoEvents }
{}

/// The op events that bring messages bring all of them in their order, each at most 64.
pub fn events_bring_all()
    ensures all { EventsBringAll }
    ensures whole { EventsAreWhole }
{}
