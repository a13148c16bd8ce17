//! What holds of the definitions, said by functions that do nothing.

ghost use Rattle.fluid_readback.specs.Laws.{ValuesAreBounded, ReadRecordsFit, ReadJoinsFit, HeardConnectsFit, HeardSubmissionsFit, SpelledFit, LeavesFit, ReportsFit, FittingIsInGrammar, MessagesAreReadBack, SequencedAreReadBack, ValuesWantNoMemory, RecordsWantNoMemory, MessagesWantNoMemory, EventsWantNoMemory};
ghost use Rattle.fluid_readback.specs.Quorums.{QuorumsAreReadBack};

use fluid_quorum::laws::blobs_are_read_back;

/// A value that was read is nested at most 100 deep, and its printed text has at most twice the bytes of the text that it was read
/// from.
pub fn read_values_are_bounded()
    ensures { ValuesAreBounded }
{}

/// Each entry that is read from a text of at most 1,048,576 bytes fits a log: the entry of a raw record, a join among them under
/// any other name too, the join that a heard connection asks for, and each submission that is heard.
pub fn read_entries_fit()
    ensures records { ReadRecordsFit }
    ensures joins { ReadJoinsFit }
    ensures connects { HeardConnectsFit }
    ensures submissions { HeardSubmissionsFit }
{}

/// A raw entry fits a log exactly where its names, numbers and nesting are in the grammar and its record has at most 4,194,304
/// bytes.
pub fn fitting_entries_are_in_grammar()
    ensures { FittingIsInGrammar }
{}

/// A raw entry that a text of any length spells fits where its own record has at most 4,194,304 bytes.
pub fn spelled_entries_fit()
    ensures { SpelledFit }
{}

/// A leave of any id and a report on any number from 1 to 2^53 - 1 fit, at any moment from 0 to 2^53 - 1.
pub fn leaves_and_reports_fit()
    ensures leaves { LeavesFit }
    ensures reports { ReportsFit }
{}

/// The message of a raw entry that fits is in the grammar, its text has at most 33,554,432 bytes and is read back as the message:
/// whatever number and minimum up to 2^53 - 1 it gets, and so wherever an entry is sequenced behind a legal ledger.
pub fn messages_are_read_back()
    ensures messages { MessagesAreReadBack }
    ensures ledgers { SequencedAreReadBack }
{}

/// The fault that the definitions give a text is never want of memory: of a value, a raw entry, a message and an event.
pub fn texts_want_no_memory()
    ensures values { ValuesWantNoMemory }
    ensures records { RecordsWantNoMemory }
    ensures messages { MessagesWantNoMemory }
    ensures events { EventsWantNoMemory }
{}

/// Where each of an order's first messages is read back from its printed text as itself, the quorum of them is read back from
/// its blobs as itself.
pub fn blobs_of_messages_are_read_back()
    ensures { QuorumsAreReadBack }
{
    blobs_are_read_back();
}
