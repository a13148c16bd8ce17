//! What holds of the definitions, said by functions that do nothing.

ghost use Rattle.fluid_codec.specs.Laws.{RecordsAreSpelled, MessagesAreSpelled, EventsAreSpelled, RecordsAreReadBack, ShortRecordsFit, MessagesAreReadBack};

/// A reader's answer is the raw entry, the message or the event that the text's JSON value spells member by member and argument
/// by argument.
pub fn answers_are_spelled()
    ensures records { RecordsAreSpelled }
    ensures messages { MessagesAreSpelled }
    ensures events { EventsAreSpelled }
{}

/// The printed text of a raw entry or a message is read back as itself, where its names, numbers and nesting are in the grammar. Such an
/// entry fits a log unless its record is too long.
pub fn printed_is_read_back()
    ensures records { RecordsAreReadBack }
    ensures fit { ShortRecordsFit }
    ensures messages { MessagesAreReadBack }
{}
