//! What holds of the definitions, said by functions that do nothing.

ghost use Rattle.fluid_counter.specs.Laws.{IsReplayedOn, IsPrinted, IsReadBack, IsOnlyContent, IsRoomy};

/// To replay some amounts and then others is to replay them all.
pub fn replay_goes_on()
    ensures { IsReplayedOn }
{}

/// The content of a counter is the text that is printed for an object of one member, the total as a text. So for every
/// total that a counter can hold, those within plus or minus 2^126.
pub fn content_is_printed()
    ensures { IsPrinted }
{}

/// The content of a counter whose total lies within plus or minus 2^120 is read back as that counter.
pub fn content_is_read_back()
    ensures { IsReadBack }
{}

/// A text that is read is the content of the counter that it is read as.
pub fn only_content_is_read()
    ensures { IsOnlyContent }
{}

/// With fewer than 2^64 increments of the protocol a counter that was read has room for one more.
pub fn increments_have_room()
    ensures { IsRoomy }
{}
