//! What holds of the definitions, said by functions that do nothing.

ghost use Rattle.fluid_edits.specs.Laws.{IsFirstAttach, IsReplayedOn, IsSpelled};

/// At each address a replay has the first attach of it and what was said to it behind that.
pub fn first_attach_counts()
    ensures { IsFirstAttach }
{}

/// To replay some messages and then others is to replay them all.
pub fn replay_goes_on()
    ensures { IsReplayedOn }
{}

/// The contents of an edit's op spell this edit.
pub fn contents_are_spelled()
    ensures { IsSpelled }
{}
