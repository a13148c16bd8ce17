// Whole orders: the scribe beside the rules read plainly, brought forward, taken apart and put together at every place.
use crate::plain::{ack, answer, app_of, id, last_ack, pending, protocol};
use crate::texts::{Entry, record};
use fluid_codec::read_raw;
use fluid_core::Core;
use fluid_quorum::ScribeState;
use fluid_rules::Answer;
use fluid_scribe::{Job, Scribe};
use fluid_tree::{Id, Node};
use fluid_types::{Message, Raw, Verdict};
use std::alloc::Global;
use std::process::Abort;

// The text of an entry; a summarize that builds on the last acknowledged summary has its handle as its head.
fn text_of(rt: &impl Abort, alloc: Global, core: &Core, entry: &Entry) -> String {
    if let Entry::Next(id, number, reference) = entry {
        let ack = core.acks().last().expect(rt, "an acknowledgement");
        let head = ack.handle.print(alloc).expect(rt, "memory");
        let head = head.as_str();
        return format!(in alloc;
            r#"{{"clientId":"{id}","moment":7,"operation":{{"clientSequenceNumber":{number},"contents":{{"handle":"4b825dc642cb6eb9a060e54bf8d69288fbee4904","head":"{head}"}},"referenceSequenceNumber":{reference},"type":"summarize"}},"raw":"submit"}}"#
        ).expect(rt, "memory");
    }
    record(rt, alloc, entry)
}

fn entered(rt: &impl Abort, alloc: Global, core: &mut Core, raw: &Raw) -> Verdict {
    assert!(rt; core.seq() < 1000 && raw.is_in_range());
    let ready = core.prepare(alloc, raw).expect(rt, "memory");
    core.commit(ready)
}

// Enters an entry, and adds its message to the order, where it has one.
fn enter(rt: &impl Abort, alloc: Global, core: &mut Core, order: &mut Vec<Message>, entry: &Entry) {
    let text = text_of(rt, alloc, core, entry);
    let raw = read_raw(alloc, text.as_str()).expect(rt, "a record");
    match entered(rt, alloc, core, &raw) {
        Verdict::Sequenced(message) => order.push(message).expect(rt, "memory"),
        verdict => drop(verdict),
    }
    drop(raw);
    drop(text);
}

fn order_of(rt: &impl Abort, alloc: Global, entries: &[Entry]) -> Vec<Message> {
    let mut core = Core::new(alloc);
    let mut order = Vec::new(alloc);
    for entry in entries {
        enter(rt, alloc, &mut core, &mut order, entry);
    }
    drop(core);
    order
}

fn take(rt: &impl Abort, alloc: Global, scribe: &mut Scribe, message: &Message) {
    let ready = scribe.prepare(alloc, message).expect(rt, "memory");
    scribe.commit(ready);
}

// Takes a scribe apart and puts it together again.
fn renew(rt: &impl Abort, alloc: Global, scribe: &mut Scribe) {
    let ScribeState {
        base,
        behind,
        minima,
        pending,
        acks,
    } = scribe.parts(alloc).expect(rt, "memory");
    *scribe = Scribe::of_parts(base, behind, minima, pending, acks);
}

fn assert_answer(
    rt: &impl Abort,
    alloc: Global,
    scribe: &mut Scribe,
    order: &[Message],
    summary: u64,
) -> bool {
    let count = order.len();
    let mut refused = true;
    for found in [true, false] {
        let wanted = answer(rt, alloc, order, summary, found);
        let given = scribe.answer(alloc, summary, found).expect(rt, "memory");
        assert!(rt;
            given == wanted,
            "{given:?} for {wanted:?} to {summary} behind {count} messages"
        );
        refused = refused && matches!(given, Answer::Refused(_));
    }
    refused
}

// Numbers, tree and state of the pending summarize.
type Shown = (u64, u64, Option<Id>, bool, Id);

fn shown(rt: &impl Abort, alloc: Global, job: Job) -> Shown {
    let Job {
        summary,
        app,
        protocol,
        reference,
        needs_storage,
    } = job;
    (
        summary,
        reference,
        app,
        needs_storage,
        id(rt, alloc, protocol),
    )
}

fn job_of(rt: &impl Abort, alloc: Global, scribe: &mut Scribe) -> Option<Shown> {
    match scribe.job(alloc).expect(rt, "memory") {
        Some(job) => Some(shown(rt, alloc, job)),
        None => None,
    }
}

fn assert_job(rt: &impl Abort, alloc: Global, scribe: &mut Scribe, order: &[Message]) {
    let count = order.len();
    let Some(place) = pending(order) else {
        assert!(rt;
            job_of(rt, alloc, scribe).is_none(),
            "behind {count} messages"
        );
        return;
    };
    assert!(rt; place < order.len());
    let number = order[place].number;
    let reference = u64::try_from(order[place].reference).unwrap_or(0);
    let refused = assert_answer(rt, alloc, scribe, order, number);
    let app = app_of(rt, alloc, &order[place]);
    let state = id(rt, alloc, protocol(rt, alloc, order, reference));
    let wanted = Some((number, reference, app, !refused, state));
    let given = job_of(rt, alloc, scribe);
    assert!(rt;
        given == wanted,
        "{given:?} for {wanted:?} behind {count} messages"
    );
}

fn assert_acks(rt: &impl Abort, scribe: &Scribe, order: &[Message]) {
    let (_, count) = last_ack(order);
    assert!(rt; scribe.acks().len() == count, "{count} acknowledgements");
    for (number, given) in scribe.acks().iter().enumerate() {
        assert!(rt;
            ack(order, number) == Some((given.handle, given.number)),
            "acknowledgement {number}"
        );
    }
}

fn assert_same(rt: &impl Abort, alloc: Global, scribe: &mut Scribe, order: &[Message]) {
    assert_acks(rt, scribe, order);
    assert_job(rt, alloc, scribe, order);
    assert_answer(rt, alloc, scribe, order, 0);
    assert_answer(rt, alloc, scribe, order, 1);
}

// The scribe is looked at behind each message, and taken apart there or not.
fn assert_steps(rt: &impl Abort, alloc: Global, order: &[Message], renews: bool) {
    let mut scribe = Scribe::new(alloc);
    for place in 0..order.len() {
        if renews {
            renew(rt, alloc, &mut scribe);
        }
        take(rt, alloc, &mut scribe, &order[place]);
        let before = &order[..place + 1];
        assert_same(rt, alloc, &mut scribe, before);
    }
    drop(scribe);
}

// It is asked or taken apart at one place alone, and looked at behind the last message alone.
fn assert_behind(rt: &impl Abort, alloc: Global, order: &[Message], at: usize, renews: bool) {
    let mut scribe = Scribe::new(alloc);
    for place in 0..order.len() {
        take(rt, alloc, &mut scribe, &order[place]);
        if place == at && renews {
            renew(rt, alloc, &mut scribe);
        } else if place == at {
            drop(scribe.job(alloc).expect(rt, "memory"));
        }
    }
    assert_same(rt, alloc, &mut scribe, order);
    drop(scribe);
}

// How many messages an order of these entries has, and how many of them acknowledge a summary.
fn assert_order(
    rt: &impl Abort,
    alloc: Global,
    entries: &[Entry],
    messages: usize,
    acknowledged: usize,
) {
    let order = order_of(rt, alloc, entries);
    let count = order.len();
    assert!(rt; count == messages, "{count} for {messages} messages");
    let (_, count) = last_ack(&order);
    assert!(rt;
        count == acknowledged,
        "{count} for {acknowledged} acknowledgements"
    );
    assert_steps(rt, alloc, &order, false);
    assert_steps(rt, alloc, &order, true);
    for at in 0..order.len() {
        assert_behind(rt, alloc, &order, at, false);
        assert_behind(rt, alloc, &order, at, true);
    }
    drop(order);
}

const VALUE: &str = r#"{"key":"code","value":{"package":"one"}}"#;

const OTHER: &str = r#"{"key":"mode","value":[1]}"#;

// A proposal as a text, of a key that has a value already.
const AGAIN: &str = r#""{\"key\":\"code\",\"value\":\"two\"}""#;

// Proposals are accepted before, at and behind the base; a client leaves and joins between; a noop is absorbed.
const PROPOSALS: &[Entry] = &[
    Entry::Summarizer("A"),
    Entry::Join("B"),
    Entry::Propose("A", 1, 2, VALUE),
    Entry::Op("B", 1, 2),
    Entry::Noop("B", 2, 3, "null"),
    Entry::Op("A", 2, 4),
    Entry::Summarize("A", 3, 4),
    Entry::Propose("B", 3, 5, OTHER),
    Entry::Join("C"),
    Entry::Op("C", 1, 8),
    Entry::Leave("B"),
    Entry::Propose("C", 2, 10, AGAIN),
    Entry::Report(6, true),
    Entry::Op("A", 4, 11),
    Entry::Join("B"),
    Entry::Next("A", 5, 13),
    Entry::Op("C", 3, 13),
    Entry::Op("B", 1, 14),
    Entry::Leave("C"),
    Entry::Op("A", 6, 17),
    Entry::Report(15, true),
    Entry::Next("A", 7, 19),
    Entry::Report(15, true),
];

// Summarize messages that wait behind one another, hold the base back, and are refused by each rule.
const WAITING: &[Entry] = &[
    Entry::Summarizer("A"),
    Entry::Summarizer("B"),
    Entry::Propose("A", 1, 2, VALUE),
    Entry::Op("A", 2, 3),
    Entry::Summarize("A", 3, 4),
    Entry::Summarize("A", 4, 5),
    Entry::Report(6, true),
    Entry::Report(5, true),
    // a stale head
    Entry::Report(6, true),
    // an old reference
    Entry::Next("B", 1, 3),
    Entry::Report(9, true),
    // malformed contents
    Entry::Summarizing("A", 5, 9, r#"{"handle":"","head":""}"#),
    Entry::Noop("B", 2, 10, "1"),
    Entry::Join("C"),
    Entry::Report(11, false),
    // a tree that isn't stored
    Entry::Next("A", 6, 13),
    Entry::Next("B", 3, 12),
    Entry::Leave("C"),
    Entry::Report(15, false),
    Entry::Report(16, true),
    Entry::Leave("A"),
    Entry::Op("B", 4, 19),
    Entry::Leave("B"),
];

// Nobody may be joined, and many messages may say nothing.
const QUIET: &[Entry] = &[
    Entry::Summarizer("A"),
    Entry::Op("A", 1, -1),
    Entry::Op("A", 2, -1),
    Entry::Propose("A", 3, 3, VALUE),
    Entry::Summarize("A", 4, 4),
    Entry::Leave("A"),
    Entry::Report(5, true),
    Entry::Report(5, false),
    Entry::Join("B"),
    Entry::Op("B", 1, 8),
    Entry::Op("B", 2, 9),
    Entry::Leave("B"),
];

#[test]
fn a_scribe_answers_as_the_rules_over_the_order(rt: HostRuntime) {
    let alloc = rt.alloc();
    assert_order(&rt, alloc, PROPOSALS, 21, 2);
    assert_order(&rt, alloc, WAITING, 22, 2);
    assert_order(&rt, alloc, QUIET, 11, 1);
}
