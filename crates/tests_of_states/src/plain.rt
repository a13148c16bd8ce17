// The rules about summaries, read plainly over the whole list of an order's messages.
use fluid_json::{Json, Text};
use fluid_quorum::Quorum;
use fluid_rules::{Answer, SummaryRule};
use fluid_tree::{Id, Node, Object, ObjectEntries, ObjectEntry, id_of, object_bytes};
use fluid_types::{Kind, Message, body};
use std::alloc::Global;
use std::process::Abort;

// A summary that was acknowledged: its handle, and the reference of its summarize.
pub type Ack = (Id, u64);

fn reference_of(message: &Message) -> u64 {
    u64::try_from(message.reference).unwrap_or(0)
}

fn whole_in(value: &Json, outer: &str, inner: &str) -> Option<u64> {
    let object = value.member(outer)?;
    let number = object.member(inner)?;
    let number = number.as_whole()?;
    u64::try_from(number).ok()
}

// Whether a message answers the summarize of this number.
fn answers(message: &Message, number: u64) -> bool {
    matches!(message.kind, Kind::SummaryAck | Kind::SummaryNack)
        && whole_in(
            &message.contents,
            "summaryProposal",
            "summarySequenceNumber",
        ) == Some(number)
}

// Whether the message at a place is a summarize that none of these messages answers.
fn waits(messages: &[Message], place: usize) -> bool {
    if place >= messages.len() || messages[place].kind != Kind::Summarize {
        return false;
    }
    let number = messages[place].number;
    messages.iter().all(|message| !answers(message, number))
}

// The place of the first that waits.
pub fn pending(messages: &[Message]) -> Option<usize> {
    for place in 0..messages.len() {
        if waits(messages, place) {
            return Some(place);
        }
    }
    None
}

fn handle_in(value: &Json) -> Option<Id> {
    let handle = value.member("handle")?;
    Id::read(handle.as_text()?)
}

// What the message at a place acknowledges: a summarize that waited before it.
fn ack_at(messages: &[Message], place: usize) -> Option<Ack> {
    if place >= messages.len() || messages[place].kind != Kind::SummaryAck {
        return None;
    }
    let before = &messages[..place];
    for earlier in 0..place {
        if waits(before, earlier) && answers(&messages[place], before[earlier].number) {
            let handle = handle_in(&messages[place].contents)?;
            return Some((handle, reference_of(&before[earlier])));
        }
    }
    None
}

// The acknowledgement of this number, counted from 0.
pub fn ack(messages: &[Message], number: usize) -> Option<Ack> {
    let mut found = 0_usize;
    for place in 0..messages.len() {
        if let Some(ack) = ack_at(messages, place) {
            if found == number {
                return Some(ack);
            }
            found = found.wrapping_add(1);
        }
    }
    None
}

// The last acknowledgement, and how many there are.
pub fn last_ack(messages: &[Message]) -> (Option<Ack>, usize) {
    let mut last = None;
    let mut count = 0_usize;
    for place in 0..messages.len() {
        if let Some(ack) = ack_at(messages, place) {
            last = Some(ack);
            count = count.wrapping_add(1);
        }
    }
    (last, count)
}

// The blobs of the quorum of the first messages.
pub fn protocol(rt: &impl Abort, alloc: Global, messages: &[Message], number: u64) -> Node {
    let mut quorum = Quorum::new(alloc);
    for message in messages {
        if message.number <= number {
            assert!(rt; quorum.number() < 1000 && message.number == quorum.number() + 1);
            quorum.apply(alloc, message).expect(rt, "memory");
        }
    }
    let node = quorum.to_blobs(alloc).expect(rt, "memory");
    drop(quorum);
    node
}

pub fn id(rt: &impl Abort, alloc: Global, node: Node) -> Id {
    match id_of(alloc, &node) {
        Ok(id) => id,
        Err(_) => panic!(rt; "no id"),
    }
}

fn entry(rt: &impl Abort, alloc: Global, name: &str, id: Id) -> ObjectEntry {
    let name = Text::copied(alloc, name).expect(rt, "memory");
    ObjectEntry {
        name,
        tree: true,
        id,
    }
}

// The id of the tree of `.app` and `.protocol`.
fn version(rt: &impl Abort, alloc: Global, app: Id, protocol: Id) -> Id {
    let mut entries = ObjectEntries::new(alloc);
    entries
        .push(entry(rt, alloc, ".app", app))
        .expect(rt, "memory");
    entries
        .push(entry(rt, alloc, ".protocol", protocol))
        .expect(rt, "memory");
    match object_bytes(alloc, &Object::Tree(entries)) {
        Ok(bytes) => Id::of(bytes.as_slice()),
        Err(_) => panic!(rt; "no bytes"),
    }
}

// The tree that the contents ask for, and whether their head is that of the last acknowledgement.
fn proposed(rt: &impl Abort, alloc: Global, message: &Message, head: &str) -> Option<(Id, bool)> {
    let body = body(alloc, &message.contents).expect(rt, "memory");
    let app = handle_in(&body);
    let same = match body.member("head") {
        Some(given) => given.as_text().map(|given| given == head),
        None => None,
    };
    drop(body);
    match (app, same) {
        (Some(app), Some(same)) => Some((app, same)),
        _ => None,
    }
}

// The head on which the next summary has to build.
fn head_of(rt: &impl Abort, alloc: Global, messages: &[Message]) -> Text {
    match last_ack(messages) {
        (Some((handle, _)), _) => handle.print(alloc).expect(rt, "memory"),
        _ => Text::copied(alloc, "").expect(rt, "memory"),
    }
}

fn is_old(messages: &[Message], reference: u64) -> bool {
    match last_ack(messages) {
        (Some((_, number)), _) => reference < number,
        _ => false,
    }
}

// The tree that the summarize at a place asks for.
pub fn app_of(rt: &impl Abort, alloc: Global, message: &Message) -> Option<Id> {
    let (app, _) = proposed(rt, alloc, message, "")?;
    Some(app)
}

// The answer to a summarize: the first rule that refuses it, or the id of its version.
fn judged(
    rt: &impl Abort,
    alloc: Global,
    messages: &[Message],
    message: &Message,
    found: bool,
) -> Answer {
    let head = head_of(rt, alloc, messages);
    let asked = proposed(rt, alloc, message, head.as_str());
    drop(head);
    let Some((app, same)) = asked else {
        return Answer::Refused(SummaryRule::Malformed);
    };
    if !same {
        return Answer::Refused(SummaryRule::StaleHead);
    }
    let reference = reference_of(message);
    if is_old(messages, reference) {
        return Answer::Refused(SummaryRule::OldReference);
    }
    if !found {
        return Answer::Refused(SummaryRule::Missing);
    }
    let protocol = id(rt, alloc, protocol(rt, alloc, messages, reference));
    Answer::Ack {
        handle: version(rt, alloc, app, protocol),
    }
}

// The answer to a report on this number.
pub fn answer(
    rt: &impl Abort,
    alloc: Global,
    messages: &[Message],
    summary: u64,
    found: bool,
) -> Answer {
    match pending(messages) {
        Some(place) if place < messages.len() && messages[place].number == summary => {
            judged(rt, alloc, messages, &messages[place], found)
        }
        _ => Answer::Dropped,
    }
}
