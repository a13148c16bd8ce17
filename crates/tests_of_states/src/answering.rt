// The scribe: small orders, and what is told of them.
use crate::texts::{PROPOSAL, message};
use fluid_codec::read_message;
use fluid_quorum::ScribeState;
use fluid_scribe::{Answer, Scribe, SummaryRule};
use fluid_tree::{Id, Node};
use fluid_types::Message;
use std::alloc::Global;
use std::process::Abort;

const EMPTY_TREE: &str = "4b825dc642cb6eb9a060e54bf8d69288fbee4904";

const PROPOSAL_AS_TEXT: &str =
    r#""{\"handle\":\"4b825dc642cb6eb9a060e54bf8d69288fbee4904\",\"head\":\"\"}""#;

// The id of the version of the summarize at 25, as Git computes it.
const VERSION: &str = "453c662eb3db7e41c59bf46ed8fa23f546fdb48d";

const ACK_OF_25: &str =
    r#"{"handle":"453c662eb3db7e41c59bf46ed8fa23f546fdb48d","summaryProposal":{"summarySequenceNumber":25}}"#;

// It builds on the version of 25.
const NEXT: &str =
    r#"{"handle":"4b825dc642cb6eb9a060e54bf8d69288fbee4904","head":"453c662eb3db7e41c59bf46ed8fa23f546fdb48d"}"#;

const ACK_OF_27: &str =
    r#"{"handle":"4b825dc642cb6eb9a060e54bf8d69288fbee4904","summaryProposal":{"summarySequenceNumber":27}}"#;

// It builds on what was acknowledged of 27.
const LAST: &str =
    r#"{"handle":"4b825dc642cb6eb9a060e54bf8d69288fbee4904","head":"4b825dc642cb6eb9a060e54bf8d69288fbee4904"}"#;

const UPPER: &str =
    r#"{"handle":"4B825DC642CB6EB9A060E54BF8D69288FBEE4904","head":"453c662eb3db7e41c59bf46ed8fa23f546fdb48d"}"#;

const EMPTY_HANDLE: &str = r#"{"handle":"","head":""}"#;

const REFUSAL_OF_27: &str =
    r#"{"code":400,"message":"head is not the last acknowledged summary","summaryProposal":{"summarySequenceNumber":27}}"#;

const REFUSAL_OF_40: &str =
    r#"{"code":400,"message":"summary tree is not stored","summaryProposal":{"summarySequenceNumber":40}}"#;

enum Told {
    Dropped,
    Ack(&'static str),
    Refused(SummaryRule),
}

enum Step {
    // No message was taken.
    Fresh,
    // A member joins at 23, and a summarize with the reference 20 and these contents stands at 25.
    Begin(&'static str),
    // A message with this number, kind, reference and contents.
    Take(u64, &'static str, i64, &'static str),
    // The answer to a report on this number, where the tree was found or not.
    Ask(u64, bool, Told),
    // Nothing is pending.
    NoJob,
    // The number, the reference and the tree of the pending one, and whether its answer depends on what is stored.
    Job(u64, u64, &'static str, bool),
    // A blob of the state that goes with the pending one.
    Blob(&'static str, &'static str),
    // How many summaries were acknowledged; the handle and the number of the last.
    Acks(usize, &'static str, u64),
    // It is taken apart and put together again.
    Renew,
}

fn id(rt: &impl Abort, text: &str) -> Id {
    Id::read(text).expect(rt, "40 lower-case digits")
}

fn commit(rt: &impl Abort, alloc: Global, scribe: &mut Scribe, message: &Message) {
    let ready = scribe.prepare(alloc, message).expect(rt, "memory");
    scribe.commit(ready);
}

// What is prepared and not committed changes nothing.
fn leave(rt: &impl Abort, alloc: Global, scribe: &mut Scribe, message: &Message) {
    let ready = scribe.prepare(alloc, message).expect(rt, "memory");
    drop(ready);
}

fn renew(rt: &impl Abort, alloc: Global, scribe: &mut Scribe) {
    let state = scribe.parts(alloc).expect(rt, "memory");
    let ScribeState {
        base,
        behind,
        minima,
        pending,
        acks,
    } = state;
    *scribe = Scribe::of_parts(base, behind, minima, pending, acks);
}

fn take_text(rt: &impl Abort, alloc: Global, scribe: &mut Scribe, text: &str) {
    let message = read_message(alloc, text).expect(rt, "a message");
    leave(rt, alloc, scribe, &message);
    commit(rt, alloc, scribe, &message);
    drop(message);
}

// The minimum of each message is two below its number, and 18 at most: the reference of each summarize is behind it.
fn take(
    rt: &impl Abort,
    alloc: Global,
    scribe: &mut Scribe,
    number: u64,
    kind: &str,
    reference: i64,
    contents: &str,
) {
    let data = if kind == "join" {
        r#""data":"{\"clientId\":\"B\",\"detail\":null}","#
    } else {
        ""
    };
    let numbers = (number, number.saturating_sub(2).min(18));
    let text = message(rt, alloc, numbers, kind, reference, contents, data);
    take_text(rt, alloc, scribe, text.as_str());
    drop(text);
}

fn begin(rt: &impl Abort, alloc: Global, scribe: &mut Scribe, contents: &str) {
    *scribe = Scribe::new(alloc);
    for number in 1..23 {
        take(rt, alloc, scribe, number, "op", 0, "null");
    }
    take(rt, alloc, scribe, 23, "join", -1, "null");
    take(rt, alloc, scribe, 24, "op", 0, "null");
    take(rt, alloc, scribe, 25, "summarize", 20, contents);
}

fn assert_answer(
    rt: &impl Abort,
    alloc: Global,
    scribe: &mut Scribe,
    summary: u64,
    found: bool,
    told: &Told,
) {
    let wanted = match told {
        Told::Dropped => Answer::Dropped,
        Told::Ack(handle) => Answer::Ack {
            handle: id(rt, *handle),
        },
        Told::Refused(rule) => Answer::Refused(*rule),
    };
    let answer = scribe.answer(alloc, summary, found).expect(rt, "memory");
    assert!(rt; answer == wanted, "{answer:?} to {summary}");
}

// The number, the reference and the tree of the pending summarize, and whether its answer depends on what is stored.
fn job_of(
    rt: &impl Abort,
    alloc: Global,
    scribe: &mut Scribe,
) -> Option<(u64, u64, Option<Id>, bool)> {
    let job = scribe.job(alloc).expect(rt, "memory");
    let numbers = match &job {
        Some(job) => Some((job.summary, job.reference, job.app, job.needs_storage)),
        None => None,
    };
    drop(job);
    numbers
}

fn has_blob(tree: &Node, name: &str, text: &str) -> bool {
    let Some(entries) = tree.as_tree() else {
        return false;
    };
    for (held, node) in entries {
        if let Some(content) = node.as_blob() {
            if held.as_str() == name && content == text.as_bytes() {
                return true;
            }
        }
    }
    false
}

fn state_has_blob(
    rt: &impl Abort,
    alloc: Global,
    scribe: &mut Scribe,
    name: &str,
    text: &str,
) -> bool {
    let job = scribe.job(alloc).expect(rt, "memory");
    let has = match &job {
        Some(job) => has_blob(&job.protocol, name, text),
        None => false,
    };
    drop(job);
    has
}

fn assert_acks(rt: &impl Abort, scribe: &Scribe, count: usize, handle: &str, number: u64) {
    let acks = scribe.acks();
    assert!(rt; acks.len() == count, "{count} acknowledgements");
    let ack = acks.last().expect(rt, "an acknowledgement");
    assert!(rt;
        ack.handle == id(rt, handle) && ack.number == number,
        "{number}"
    );
}

fn make(rt: &impl Abort, alloc: Global, scribe: &mut Scribe, step: &Step) {
    match step {
        Step::Fresh => *scribe = Scribe::new(alloc),
        Step::Begin(contents) => begin(rt, alloc, scribe, *contents),
        Step::Take(number, kind, reference, contents) => {
            take(rt, alloc, scribe, *number, *kind, *reference, *contents);
        }
        Step::Ask(summary, found, told) => {
            assert_answer(rt, alloc, scribe, *summary, *found, told);
        }
        Step::NoJob => assert!(rt; job_of(rt, alloc, scribe).is_none()),
        Step::Job(summary, reference, app, needs) => {
            let job = Some((*summary, *reference, Id::read(*app), *needs));
            assert!(rt; job_of(rt, alloc, scribe) == job, "the job of {summary}");
        }
        Step::Blob(name, text) => {
            assert!(rt;
                state_has_blob(rt, alloc, scribe, *name, *text),
                "{name}: {text}"
            );
        }
        Step::Acks(count, handle, number) => assert_acks(rt, scribe, *count, *handle, *number),
        Step::Renew => renew(rt, alloc, scribe),
    }
}

// The steps, and the same once more with a scribe that is taken apart behind each of them.
fn assert_steps(rt: &impl Abort, alloc: Global, scribe: &mut Scribe, steps: &[Step]) {
    for step in steps {
        make(rt, alloc, scribe, step);
    }
    for step in steps {
        make(rt, alloc, scribe, step);
        renew(rt, alloc, scribe);
    }
}

const MALFORMED: Told = Told::Refused(SummaryRule::Malformed);

const STALE: Told = Told::Refused(SummaryRule::StaleHead);

const OLD: Told = Told::Refused(SummaryRule::OldReference);

const MISSING: Told = Told::Refused(SummaryRule::Missing);

// Contents may be a text. The state is that at the reference. Only the pending summarize is answered.
const FIRST_SUMMARIES: &[Step] = &[
    Step::Fresh,
    Step::NoJob,
    Step::Ask(1, true, Told::Dropped),
    Step::Begin(PROPOSAL),
    Step::Job(25, 20, EMPTY_TREE, true),
    Step::Blob(
        "attributes",
        r#"{"minimumSequenceNumber":18,"sequenceNumber":20}"#,
    ),
    Step::Blob("quorumMembers", "[]"),
    Step::Ask(25, true, Told::Ack(VERSION)),
    Step::Begin(PROPOSAL_AS_TEXT),
    Step::Job(25, 20, EMPTY_TREE, true),
    Step::Ask(25, true, Told::Ack(VERSION)),
    Step::Take(26, "summarize", 21, PROPOSAL),
    Step::Ask(25, false, MISSING),
    Step::Ask(26, true, Told::Dropped),
    Step::Ask(3, true, Told::Dropped),
    Step::Begin(NEXT),
    Step::Ask(25, true, STALE),
];

// The summarize at 25 is acknowledged at 26, and another stands at 27.
const NEXT_SUMMARIES: &[Step] = &[
    // a stale head is refused once, and comes before an old reference
    Step::Begin(PROPOSAL),
    Step::Take(26, "summaryAck", -1, ACK_OF_25),
    Step::Acks(1, VERSION, 20),
    Step::Take(27, "summarize", 25, PROPOSAL),
    Step::Job(27, 25, EMPTY_TREE, false),
    Step::Ask(27, true, STALE),
    Step::Take(28, "summaryNack", -1, REFUSAL_OF_27),
    Step::Ask(27, true, Told::Dropped),
    Step::Begin(PROPOSAL),
    Step::Take(26, "summaryAck", -1, ACK_OF_25),
    Step::Take(27, "summarize", 19, PROPOSAL),
    Step::Ask(27, true, STALE),
    // the reference may not go back
    Step::Begin(PROPOSAL),
    Step::Take(26, "summaryAck", -1, ACK_OF_25),
    Step::Take(27, "summarize", 19, NEXT),
    Step::Ask(27, true, OLD),
    Step::Begin(PROPOSAL),
    Step::Take(26, "summaryAck", -1, ACK_OF_25),
    Step::Take(27, "summarize", 20, NEXT),
    Step::Job(27, 20, EMPTY_TREE, true),
    Step::Ask(27, true, Told::Ack(VERSION)),
    // malformed contents need no storage
    Step::Begin(PROPOSAL),
    Step::Take(26, "summaryAck", -1, ACK_OF_25),
    Step::Take(27, "summarize", 25, "null"),
    Step::Job(27, 25, "", false),
    Step::Ask(27, true, MALFORMED),
    Step::Ask(27, false, MALFORMED),
    Step::Begin(PROPOSAL),
    Step::Take(26, "summaryAck", -1, ACK_OF_25),
    Step::Take(27, "summarize", 25, UPPER),
    Step::Job(27, 25, "", false),
    Step::Ask(27, true, MALFORMED),
    Step::Begin(PROPOSAL),
    Step::Take(26, "summaryAck", -1, ACK_OF_25),
    Step::Take(27, "summarize", 25, EMPTY_HANDLE),
    Step::Ask(27, false, MALFORMED),
];

// The summarize at 27 is acknowledged at 28, and another stands at 29.
const LAST_SUMMARIES: &[Step] = &[
    Step::Begin(PROPOSAL),
    Step::Take(26, "summaryAck", -1, ACK_OF_25),
    Step::Take(27, "summarize", 22, NEXT),
    Step::Take(28, "summaryAck", -1, ACK_OF_27),
    Step::Acks(2, EMPTY_TREE, 22),
    Step::Take(29, "summarize", 23, NEXT),
    Step::Ask(29, false, STALE),
    Step::Begin(PROPOSAL),
    Step::Take(26, "summaryAck", -1, ACK_OF_25),
    Step::Take(27, "summarize", 22, NEXT),
    Step::Take(28, "summaryAck", -1, ACK_OF_27),
    Step::Take(29, "summarize", 22, LAST),
    Step::Ask(29, false, MISSING),
    Step::Begin(PROPOSAL),
    Step::Take(26, "summaryAck", -1, ACK_OF_25),
    Step::Take(27, "summarize", 22, NEXT),
    Step::Take(28, "summaryAck", -1, ACK_OF_27),
    Step::Take(29, "summarize", 21, LAST),
    Step::Ask(29, false, OLD),
];

// Messages are taken with any numbers; those between that don't stand there say nothing.
const ANY_NUMBERS: &[Step] = &[
    Step::Fresh,
    Step::Renew,
    Step::Take(40, "summarize", 30, PROPOSAL),
    Step::Job(40, 30, EMPTY_TREE, true),
    Step::Blob(
        "attributes",
        r#"{"minimumSequenceNumber":0,"sequenceNumber":30}"#,
    ),
    Step::Ask(40, false, MISSING),
    Step::Ask(1, true, Told::Dropped),
    Step::Take(7, "summaryNack", -1, REFUSAL_OF_40),
    Step::Ask(40, false, Told::Dropped),
];

// What lies outside any order counts for nothing in a scribe that is put together: a number 0, a reference ahead of its message.
const OUTSIDE: &[Step] = &[
    Step::Fresh,
    Step::Take(0, "summarize", 0, PROPOSAL),
    Step::Renew,
    Step::NoJob,
    Step::Ask(0, true, Told::Dropped),
    Step::Take(3, "summarize", 4, PROPOSAL),
    Step::Renew,
    Step::NoJob,
    Step::Ask(3, true, Told::Dropped),
    Step::Take(5, "summarize", 4, PROPOSAL),
    Step::Renew,
    Step::Job(5, 4, EMPTY_TREE, true),
    Step::Blob(
        "attributes",
        r#"{"minimumSequenceNumber":1,"sequenceNumber":4}"#,
    ),
];

#[test]
fn summaries_are_answered(rt: HostRuntime) {
    let alloc = rt.alloc();
    let mut scribe = Scribe::new(alloc);
    assert_steps(&rt, alloc, &mut scribe, FIRST_SUMMARIES);
    assert_steps(&rt, alloc, &mut scribe, NEXT_SUMMARIES);
    assert_steps(&rt, alloc, &mut scribe, LAST_SUMMARIES);
    assert_steps(&rt, alloc, &mut scribe, ANY_NUMBERS);
    assert_steps(&rt, alloc, &mut scribe, OUTSIDE);
    assert!(rt; scribe.acks().is_empty());
    drop(scribe);
}
