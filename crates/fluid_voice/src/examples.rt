// Worked examples of what is heard and answered, each computed from the definitions.
ghost use Rattle.fluid_voice.specs.Examples.{OnlyReading, Writers, OneConnect, WhoSubmits, WhatIsTold, Ranges, LongRanges, AtLimits, Slices, TwoAcks, Objects};

/// Who may only read is connected for reading, and told the last number.
pub fn only_reading()
    ensures { OnlyReading }
{}

/// Who writes is told the number before that of its join.
pub fn writers()
    ensures { Writers }
{}

/// A second connect, and one without the scope for it.
pub fn one_connect()
    ensures { OneConnect }
{}

/// Who may submit, and what of.
pub fn who_submits()
    ensures { WhoSubmits }
{}

/// What is told of an entry.
pub fn what_is_told()
    ensures { WhatIsTold }
{}

/// Which messages of three may be asked for.
pub fn ranges()
    ensures { Ranges }
{}

/// How many messages may be asked for at once.
pub fn long_ranges()
    ensures { LongRanges }
{}

/// What a document with one client answers, at its limits and below them.
pub fn at_limits()
    ensures { AtLimits }
{}

/// The messages of a range.
pub fn slices()
    ensures { Slices }
{}

/// A version that was acknowledged twice.
pub fn two_acks()
    ensures { TwoAcks }
{}

/// Objects that are held, aren't, or are others.
pub fn objects()
    ensures { Objects }
{}
