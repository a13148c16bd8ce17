// Worked examples of the rules, each computed from the definitions.
ghost use Rattle.fluid_rules.specs.Examples.{OneJoin, FirstMessage, TwoJoins, TwoWriters, BelowMinimum, AfterRefusal, WholeStory, WithoutScope, Noops, WhatIsLifted, WhatTheLastSays, WhenHeard};
ghost use Rattle.fluid_rules.specs.ScribeExamples.{VersionAtReference, OnThePending, AfterTheAck, StaleHeads, AskedAsText, SaidToReports, MalformedContents, OldReferences, LastAcks};
ghost use Rattle.fluid_rules.specs.ReportExamples.{NotStored, Stored, BuiltOnAnother, OnOthers, NobodyJoined};

/// One join: number 1, minimum 0.
pub fn one_join()
    ensures { OneJoin }
{}

/// The message of a first join, field by field.
pub fn first_message()
    ensures { FirstMessage }
{}

/// Two joins, and a second join of a joined client.
pub fn two_joins()
    ensures { TwoJoins }
{}

/// Two clients write, and the minimum becomes the reference of the first.
pub fn two_writers()
    ensures { TwoWriters }
{}

/// A reference below the minimum is refused, and its client holds the minimum.
pub fn below_minimum()
    ensures { BelowMinimum }
{}

/// What else comes of a client that was so refused.
pub fn after_refusal()
    ensures { AfterRefusal }
{}

/// Then both leave, a third joins, a stranger writes, and the third refers ahead of the order.
pub fn whole_story()
    ensures { WholeStory }
{}

/// A summarize of a client that may not write summaries.
pub fn without_scope()
    ensures { WithoutScope }
{}

/// Noops that are absorbed, sequenced and dropped, and an op behind them.
pub fn noops()
    ensures { Noops }
{}

/// What the minimum would be with the reference of a noop.
pub fn what_is_lifted()
    ensures { WhatIsLifted }
{}

/// The minimum of the last message, and that which holds behind an absorbed noop.
pub fn what_the_last_says()
    ensures { WhatTheLastSays }
{}

/// When a client was last heard of.
pub fn when_heard()
    ensures { WhenHeard }
{}

/// The version of a summarize has the order's state at its reference.
pub fn version_at_reference()
    ensures { VersionAtReference }
{}

/// The oldest summarize is pending, and a report on another number is dropped.
pub fn on_the_pending()
    ensures { OnThePending }
{}

/// What an acknowledgement leaves.
pub fn after_the_ack()
    ensures { AfterTheAck }
{}

/// A head that isn't the last acknowledged summary.
pub fn stale_heads()
    ensures { StaleHeads }
{}

/// A summarize whose contents are a text.
pub fn asked_as_text()
    ensures { AskedAsText }
{}

/// The messages that reports get.
pub fn said_to_reports()
    ensures { SaidToReports }
{}

/// Contents that ask for no summary.
pub fn malformed_contents()
    ensures { MalformedContents }
{}

/// A reference below the last acknowledged one, and one that isn't.
pub fn old_references()
    ensures { OldReferences }
{}

/// Two handles, one of them acknowledged twice: the last acknowledgement decides.
pub fn last_acks()
    ensures { LastAcks }
{}

/// A report that the tree of a summary isn't stored, and the same report again.
pub fn not_stored()
    ensures { NotStored }
{}

/// A report that it is, and the same report again.
pub fn stored()
    ensures { Stored }
{}

/// A report on a summary that builds on another head.
pub fn built_on_another()
    ensures { BuiltOnAnother }
{}

/// Reports on what isn't the pending summarize.
pub fn on_others()
    ensures { OnOthers }
{}

/// A report where nobody is joined any more.
pub fn nobody_joined()
    ensures { NobodyJoined }
{}
