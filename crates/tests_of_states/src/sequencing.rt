// The sequencer: entries with the verdicts that are wanted of them, and the texts of the messages.
use crate::texts::{Entry, record};
use fluid_codec::{print_message, read_raw};
use fluid_json::Text;
use fluid_rules::{Answer, SummaryRule};
use fluid_ticket::Sequencer;
use fluid_tree::Id;
use fluid_types::{NackRule, Raw, Verdict};
use std::alloc::Global;
use std::process::Abort;

#[derive(Clone, Copy, Debug, PartialEq)]
enum Shown {
    // The number and the minimum of the message.
    At(u64, u64),
    // The rule, and the minimum at that moment.
    Nack(NackRule, i64),
    Dropped,
    Absorbed,
}

fn what_shows(verdict: &Verdict) -> Shown {
    match verdict {
        Verdict::Sequenced(message) => Shown::At(message.number, message.minimum),
        Verdict::Nacked(nack) => Shown::Nack(nack.rule, nack.minimum),
        Verdict::Dropped => Shown::Dropped,
        Verdict::Absorbed => Shown::Absorbed,
    }
}

fn raw_of(rt: &impl Abort, alloc: Global, entry: &Entry) -> Raw {
    let text = record(rt, alloc, entry);
    read_raw(alloc, text.as_str()).expect(rt, "a record")
}

// The verdict of an entry; a report gets this answer of the scribe.
fn entered(
    rt: &impl Abort,
    alloc: Global,
    sequencer: &mut Sequencer,
    raw: &Raw,
    answer: &Answer,
) -> Verdict {
    assert!(rt; sequencer.seq() < 1000 && raw.is_in_range());
    let ready = sequencer.prepare(alloc, raw, answer).expect(rt, "memory");
    sequencer.commit(ready)
}

fn verdict_of(rt: &impl Abort, alloc: Global, sequencer: &mut Sequencer, entry: &Entry) -> Shown {
    let raw = raw_of(rt, alloc, entry);
    let verdict = entered(rt, alloc, sequencer, &raw, &Answer::Dropped);
    let shown = what_shows(&verdict);
    drop(verdict);
    drop(raw);
    shown
}

fn assert_verdicts(
    rt: &impl Abort,
    alloc: Global,
    sequencer: &mut Sequencer,
    entries: &[(Entry, Shown)],
) {
    for (entry, wanted) in entries {
        let shown = verdict_of(rt, alloc, sequencer, entry);
        assert!(rt; shown == *wanted, "{shown:?} for {wanted:?}");
    }
}

const STORY: &[(Entry, Shown)] = &[
    (Entry::Join("A"), Shown::At(1, 0)),
    (Entry::Join("B"), Shown::At(2, 0)),
    (Entry::Op("A", 1, 2), Shown::At(3, 0)),
    (Entry::Op("B", 1, 3), Shown::At(4, 2)),
    (Entry::Join("A"), Shown::Dropped),
    // A refers to what is behind it already: it is refused, and still counts with reference 2.
    (Entry::Op("A", 2, 1), Shown::Nack(NackRule::Below, 2)),
    (Entry::Op("B", 2, 4), Shown::At(5, 2)),
    (Entry::Op("A", 2, 4), Shown::Dropped),
    (Entry::Op("A", 4, 4), Shown::Nack(NackRule::Gap, 2)),
    (Entry::Op("A", 3, 4), Shown::Nack(NackRule::Nonexistent, 2)),
    (Entry::Op("A", 3, 4), Shown::Nack(NackRule::Nonexistent, 2)),
    (Entry::Leave("A"), Shown::At(6, 4)),
    (Entry::Leave("B"), Shown::At(7, 7)),
    (Entry::Leave("B"), Shown::Dropped),
    (Entry::Join("C"), Shown::At(8, 7)),
    (Entry::Op("D", 1, 8), Shown::Nack(NackRule::Nonexistent, 7)),
    (Entry::Op("C", 1, -1), Shown::At(9, 9)),
    (Entry::Op("C", 2, 10), Shown::Nack(NackRule::Ahead, 9)),
    (Entry::Summarize("C", 2, 9), Shown::Nack(NackRule::Scope, 9)),
    (Entry::Op("C", 2, 9), Shown::At(10, 9)),
    (Entry::Op("C", 0, 9), Shown::Dropped),
    (Entry::Report(1, true), Shown::Dropped),
];

#[test]
fn entries_get_their_verdicts(rt: HostRuntime) {
    let alloc = rt.alloc();
    let mut sequencer = Sequencer::new(alloc);
    assert!(rt; sequencer.seq() == 0 && sequencer.min() == 0);
    assert_verdicts(&rt, alloc, &mut sequencer, STORY);
    assert!(rt; sequencer.seq() == 10 && sequencer.min() == 9);
    assert!(rt; sequencer.clients().count() == 1);
    drop(sequencer);
}

// The text of an entry's message.
fn told(
    rt: &impl Abort,
    alloc: Global,
    sequencer: &mut Sequencer,
    raw: &Raw,
    answer: &Answer,
) -> Text {
    let verdict = entered(rt, alloc, sequencer, raw, answer);
    let text = match &verdict {
        Verdict::Sequenced(message) => print_message(alloc, message).expect(rt, "memory"),
        _ => panic!(rt; "no message"),
    };
    drop(verdict);
    text
}

fn assert_told(
    rt: &impl Abort,
    alloc: Global,
    sequencer: &mut Sequencer,
    entry: &Entry,
    answer: Answer,
    wanted: &str,
) {
    let raw = raw_of(rt, alloc, entry);
    let text = told(rt, alloc, sequencer, &raw, &answer);
    assert_eq!(rt; text.as_str(), wanted);
    drop(text);
    drop(raw);
}

// Entries, and the texts of their messages. Reports are on the message 2.
const MESSAGES: &[(Entry, Option<SummaryRule>, &str)] = &[
    (
        Entry::Join("A"),
        None,
        r#"{"clientId":null,"clientSequenceNumber":-1,"contents":null,"data":"{\"clientId\":\"A\",\"detail\":null}","minimumSequenceNumber":0,"referenceSequenceNumber":-1,"sequenceNumber":1,"timestamp":5,"type":"join"}"#,
    ),
    (
        Entry::Op("A", 1, -1),
        None,
        r#"{"clientId":"A","clientSequenceNumber":1,"contents":null,"minimumSequenceNumber":2,"referenceSequenceNumber":2,"sequenceNumber":2,"timestamp":7,"type":"op"}"#,
    ),
    (
        Entry::Report(2, true),
        None,
        r#"{"clientId":null,"clientSequenceNumber":-1,"contents":{"handle":"4b825dc642cb6eb9a060e54bf8d69288fbee4904","summaryProposal":{"summarySequenceNumber":2}},"minimumSequenceNumber":2,"referenceSequenceNumber":-1,"sequenceNumber":3,"timestamp":8,"type":"summaryAck"}"#,
    ),
    (
        Entry::Report(2, true),
        Some(SummaryRule::Malformed),
        r#"{"clientId":null,"clientSequenceNumber":-1,"contents":{"code":400,"message":"summarize contents are malformed","summaryProposal":{"summarySequenceNumber":2}},"minimumSequenceNumber":2,"referenceSequenceNumber":-1,"sequenceNumber":4,"timestamp":8,"type":"summaryNack"}"#,
    ),
    (
        Entry::Report(2, true),
        Some(SummaryRule::StaleHead),
        r#"{"clientId":null,"clientSequenceNumber":-1,"contents":{"code":400,"message":"head is not the last acknowledged summary","summaryProposal":{"summarySequenceNumber":2}},"minimumSequenceNumber":2,"referenceSequenceNumber":-1,"sequenceNumber":5,"timestamp":8,"type":"summaryNack"}"#,
    ),
    (
        Entry::Report(2, true),
        Some(SummaryRule::OldReference),
        r#"{"clientId":null,"clientSequenceNumber":-1,"contents":{"code":400,"message":"reference is below the last acknowledged summary","summaryProposal":{"summarySequenceNumber":2}},"minimumSequenceNumber":2,"referenceSequenceNumber":-1,"sequenceNumber":6,"timestamp":8,"type":"summaryNack"}"#,
    ),
    (
        Entry::Report(2, false),
        Some(SummaryRule::Missing),
        r#"{"clientId":null,"clientSequenceNumber":-1,"contents":{"code":400,"message":"summary tree is not stored","summaryProposal":{"summarySequenceNumber":2}},"minimumSequenceNumber":2,"referenceSequenceNumber":-1,"sequenceNumber":7,"timestamp":8,"type":"summaryNack"}"#,
    ),
    (
        Entry::Leave("A"),
        None,
        r#"{"clientId":null,"clientSequenceNumber":-1,"contents":null,"data":"\"A\"","minimumSequenceNumber":8,"referenceSequenceNumber":-1,"sequenceNumber":8,"timestamp":6,"type":"leave"}"#,
    ),
];

#[test]
fn messages_have_their_texts(rt: HostRuntime) {
    let alloc = rt.alloc();
    let mut sequencer = Sequencer::new(alloc);
    let handle = Id::read("4b825dc642cb6eb9a060e54bf8d69288fbee4904").expect(&rt, "an id");
    for (entry, rule, wanted) in MESSAGES {
        let answer = match rule {
            Some(rule) => Answer::Refused(*rule),
            None => Answer::Ack { handle },
        };
        assert_told(&rt, alloc, &mut sequencer, entry, answer, wanted);
    }
    drop(sequencer);
}
