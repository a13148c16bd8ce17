// The laws of the rules. Each is the contract of a function that does nothing.
ghost use Rattle.fluid_rules.specs.Laws.{MinimumIsLeast, MinimumIsBounded, MinimumNeverFalls, NackLeavesOrder, AbsorbedKeepsOrder, AbsorbedLifts, SequencedIsTaken, AbsorbedIsTaken, HeardGrows, LastMinimumGrows, EntriesBehind, RefusedOnce, MessageHasMinimum, JoinedInOrder, LedgerIsOnlyLegal, LedgerGrows, ListsGrow, ClientGrows, LegalGrows, LegalInParts, VerdictIsMessage, MessageIsNext, SeqIsBounded, ReferencesAreBounded, CountedGrows, CountedIsBounded};
ghost use Rattle.fluid_rules.specs.ScribeLaws.{UnansweredGrows, AcksGrow, UnansweredByNone, PendingIsLeast, AcksAreSummaryAcks, OrdersAreAnsweredInTurn, AnswersSayWhatIsMeant};

use fluid_tree::laws::ids_are_read_back;

/// The minimum is the least reference of a joined client, and the last sequence number where nobody is joined.
pub fn minimum_is_least()
    ensures { MinimumIsLeast }
{}

/// The minimum of a legal ledger is at most its last sequence number.
pub fn minimum_is_bounded()
    ensures { MinimumIsBounded }
{}

/// The minimum never falls as a legal ledger grows.
pub fn minimum_never_falls()
    ensures { MinimumNeverFalls }
{}

/// A nack changes neither the minimum nor the last sequence number.
pub fn nack_leaves_order()
    ensures { NackLeavesOrder }
{}

/// An absorbed entry changes no message and no sequence number.
pub fn absorbed_keeps_order()
    ensures { AbsorbedKeepsOrder }
{}

/// Behind an absorbed noop the minimum is what it lifts it to.
pub fn absorbed_lifts()
    ensures { AbsorbedLifts }
{}

/// The numbers of a client's sequenced and absorbed submissions, taken together, rise by 1, and each brings its reference.
pub fn numbers_rise()
    ensures sequenced { SequencedIsTaken }
    ensures absorbed { AbsorbedIsTaken }
{}

/// In a legal ledger a client is refused as below the minimum at most once since it joined.
pub fn refused_once()
    ensures { RefusedOnce }
{}

/// A message carries the minimum that holds behind it.
pub fn message_has_minimum()
    ensures { MessageHasMinimum }
{}

/// The joined ids are those of the joined clients, in byte order.
pub fn joined_in_order()
    ensures { JoinedInOrder }
{}

/// The ledger of raw entries is a legal ledger of these entries, and the only one.
pub fn ledger_is_only_legal()
    ensures { LedgerIsOnlyLegal }
{}

/// One raw entry more gets its verdict over the ledger of those before it.
pub fn ledger_grows()
    ensures { LedgerGrows }
{}

/// One entry more adds itself to the raw entries and its message to the order.
pub fn lists_grow()
    ensures { ListsGrow }
{}

/// One entry more changes what is said of a client only by itself and the minimum.
pub fn client_grows()
    ensures { ClientGrows }
{}

/// One entry more moves the moment at which its own client was heard of.
pub fn heard_grows()
    ensures { HeardGrows }
{}

/// One entry more brings the minimum of its message, where it has one.
pub fn last_minimum_grows()
    ensures { LastMinimumGrows }
{}

/// Raw entries behind a ledger stand one after another.
pub fn entries_behind()
    ensures { EntriesBehind }
{}

/// One entry more leaves a ledger legal exactly where it has the verdict over it.
pub fn legal_grows()
    ensures { LegalGrows }
{}

/// One entry more counts where it is a join or a submission.
pub fn counted_grows()
    ensures { CountedGrows }
{}

/// No more entries of a ledger count than there are.
pub fn counted_is_bounded()
    ensures { CountedIsBounded }
{}

/// A ledger of two parts is legal exactly where the first is legal and the second is legal behind it.
pub fn legal_in_parts()
    ensures { LegalInParts }
{}

/// A verdict that is a message is the message of its entry.
pub fn verdict_is_message()
    ensures { VerdictIsMessage }
{}

/// A message has the next number.
pub fn message_is_next()
    ensures { MessageIsNext }
{}

/// A ledger has no more messages than entries.
pub fn seq_is_bounded()
    ensures { SeqIsBounded }
{}

/// In a legal ledger no client refers beyond the last sequence number.
pub fn references_are_bounded()
    ensures { ReferencesAreBounded }
{}

/// One message more takes away the summarize that it answers, and adds itself where it is one.
pub fn unanswered_grows()
    ensures { UnansweredGrows }
{}

/// One message more adds the acknowledgement that it makes.
pub fn acks_grow()
    ensures { AcksGrow }
{}

/// Where no answer stands before its summarize, those are unanswered that no message of the order answers.
pub fn unanswered_by_none()
    ensures { UnansweredByNone }
{}

/// Where numbers rise as well, the pending summarize is the least numbered one that no message of the order answers.
pub fn pending_is_least()
    ensures { PendingIsLeast }
{}

/// Where each summaryAck acknowledges a summarize that waits, the acknowledgements are the summaryAcks of the order, and the last one is the last of these.
pub fn acks_are_summary_acks()
    ensures { AcksAreSummaryAcks }
{}

/// The order of a legal ledger is one in which all this holds.
pub fn orders_are_answered_in_turn()
    ensures { OrdersAreAnsweredInTurn }
{
    ids_are_read_back();
}

/// The contents of an answer name their summarize, and those of a summaryAck its handle.
pub fn answers_say_what_is_meant()
    ensures { AnswersSayWhatIsMeant }
{
    ids_are_read_back();
}
