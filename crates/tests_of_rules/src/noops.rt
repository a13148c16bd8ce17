// Noops over a sequencer: their verdicts, the minimum behind each entry, and when a client was heard of.
use crate::records::{Entry, record};
use fluid_codec::{print_verdict, read_raw};
use fluid_rules::Answer;
use fluid_ticket::Sequencer;
use fluid_types::{ClientId, NackRule, Raw, Verdict};
use std::alloc::Global;
use std::process::Abort;

#[derive(Clone, Copy, Debug, PartialEq)]
enum Shown {
    // The number and the minimum of the message.
    At(u64, u64),
    Nack(NackRule),
    Dropped,
    Absorbed,
}

fn what_shows(verdict: &Verdict) -> Shown {
    match verdict {
        Verdict::Sequenced(message) => Shown::At(message.number, message.minimum),
        Verdict::Nacked(nack) => Shown::Nack(nack.rule),
        Verdict::Dropped => Shown::Dropped,
        Verdict::Absorbed => Shown::Absorbed,
    }
}

fn raw_of(rt: &impl Abort, alloc: Global, entry: &Entry, moment: u64) -> Raw {
    let text = record(rt, alloc, entry, moment);
    read_raw(alloc, text.as_str()).expect(rt, "a record")
}

fn entered(rt: &impl Abort, alloc: Global, sequencer: &mut Sequencer, raw: &Raw) -> Verdict {
    assert!(rt; sequencer.seq() < 1000 && raw.is_in_range());
    let ready = sequencer
        .prepare(alloc, raw, &Answer::Dropped)
        .expect(rt, "memory");
    sequencer.commit(ready)
}

fn verdict_of(
    rt: &impl Abort,
    alloc: Global,
    sequencer: &mut Sequencer,
    entry: &Entry,
    moment: u64,
) -> Shown {
    let raw = raw_of(rt, alloc, entry, moment);
    let verdict = entered(rt, alloc, sequencer, &raw);
    let shown = what_shows(&verdict);
    drop(verdict);
    drop(raw);
    shown
}

// Each entry with its verdict and the minimum behind it.
fn assert_verdicts(rt: &impl Abort, alloc: Global, rows: &[(Entry, Shown, u64)]) {
    let mut sequencer = Sequencer::new(alloc);
    let mut at = 0_u64;
    for (entry, wanted, minimum) in rows {
        let shown = verdict_of(rt, alloc, &mut sequencer, entry, 5);
        assert!(rt; shown == *wanted, "row {at}");
        assert!(rt; sequencer.min() == *minimum, "the minimum behind row {at}");
        at = at.saturating_add(1);
    }
    drop(sequencer);
}

#[test]
fn noops_that_move_nothing_take_no_number(rt: HostRuntime) {
    let rows = [
        (Entry::Join("A"), Shown::At(1, 0), 0),
        (Entry::Join("B"), Shown::At(2, 0), 0),
        (Entry::Quiet("A", 1, 2), Shown::Absorbed, 0),
        // It lifts the minimum to 2, which B was the last to hold back.
        (Entry::Loud("B", 1, 2), Shown::At(3, 2), 2),
        // A still refers to 2.
        (Entry::Loud("B", 2, 3), Shown::Absorbed, 2),
        (Entry::Quiet("A", 1, 2), Shown::Dropped, 2),
        // -1 is read as 3, and above what the last message says.
        (Entry::Quiet("A", 2, -1), Shown::Absorbed, 3),
        (Entry::Op("A", 3, 3), Shown::At(4, 3), 3),
        (Entry::Op("A", 5, 4), Shown::Nack(NackRule::Gap), 3),
        (Entry::Quiet("B", 4, 4), Shown::Nack(NackRule::Gap), 3),
    ];
    assert_verdicts(&rt, rt.alloc(), &rows);
}

#[test]
fn a_marked_client_holds_noops_back(rt: HostRuntime) {
    let rows = [
        (Entry::Join("A"), Shown::At(1, 0), 0),
        (Entry::Join("B"), Shown::At(2, 0), 0),
        (Entry::Op("A", 1, 2), Shown::At(3, 0), 0),
        (Entry::Op("B", 1, 3), Shown::At(4, 2), 2),
        // A noop below the minimum is refused as all else, and its client is marked.
        (Entry::Quiet("A", 2, 1), Shown::Nack(NackRule::Below), 2),
        (
            Entry::Quiet("A", 3, 4),
            Shown::Nack(NackRule::Nonexistent),
            2,
        ),
        (Entry::Loud("B", 2, 4), Shown::Absorbed, 2),
        (Entry::Loud("B", 3, 5), Shown::Nack(NackRule::Ahead), 2),
        (Entry::Leave("A"), Shown::At(5, 4), 4),
        // Alone, and left to the service: sequenced, so -1 becomes its own number.
        (Entry::Loud("B", 3, -1), Shown::At(6, 6), 6),
        (Entry::Loud("B", 4, -1), Shown::Absorbed, 6),
    ];
    assert_verdicts(&rt, rt.alloc(), &rows);
}

// Each entry with its moment, and the moment at which A was then heard of.
fn assert_heard(rt: &impl Abort, alloc: Global, id: &ClientId, rows: &[(Entry, u64, Option<u64>)]) {
    let mut sequencer = Sequencer::new(alloc);
    let mut at = 0_u64;
    for (entry, moment, wanted) in rows {
        let _shown = verdict_of(rt, alloc, &mut sequencer, entry, *moment);
        let heard = sequencer.clients().row(id).map(|row| row.heard);
        assert!(rt; heard == *wanted, "row {at}");
        at = at.saturating_add(1);
    }
    drop(sequencer);
}

#[test]
fn each_entry_of_a_joined_client_is_heard(rt: HostRuntime) {
    let id = ClientId::read(rt.alloc(), "A").expect(&rt, "a name");
    let rows = [
        (Entry::Op("A", 1, -1), 1, None),
        (Entry::Join("A"), 2, Some(2)),
        (Entry::Join("B"), 3, Some(2)),
        // A second join, a repeat, an absorbed noop, a gap, and one below the minimum.
        (Entry::Join("A"), 4, Some(4)),
        (Entry::Op("A", 0, 1), 5, Some(5)),
        (Entry::Quiet("A", 1, 2), 6, Some(6)),
        (Entry::Op("A", 3, 2), 7, Some(7)),
        (Entry::Op("A", 2, 2), 9, Some(9)),
        (Entry::Loud("B", 1, 3), 10, Some(9)),
        // A moment may lie before the last one.
        (Entry::Op("A", 3, 0), 8, Some(8)),
        (Entry::Leave("A"), 11, None),
        (Entry::Leave("A"), 12, None),
    ];
    assert_heard(&rt, rt.alloc(), &id, &rows);
    drop(id);
}

// The line of the verdict of an entry over a document without entries.
fn assert_line(rt: &impl Abort, alloc: Global, verdict: &Verdict, wanted: &str) {
    let raw = raw_of(rt, alloc, &Entry::Quiet("A", 1, 2), 5);
    let line = print_verdict(alloc, &raw, verdict).expect(rt, "memory");
    assert!(rt; line.as_str() == wanted);
    drop(line);
    drop(raw);
}

#[test]
fn an_absorbed_entry_has_its_line(rt: HostRuntime) {
    assert_line(&rt, rt.alloc(), &Verdict::Absorbed, r#"{"absorbed":true}"#);
}
