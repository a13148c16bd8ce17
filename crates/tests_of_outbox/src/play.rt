// A small language over an `Outbox`: each line is one call, and its answer is a text.
//
//     push N      adds an edit with the contents N: its number
//     join ID     edits are sent under this id from now on, or `current` where one is current
//     next        what is sent next, as CLIENT NUMBER, a colon and the contents; `none` where nothing is
//     op ID N     the next message is the op of this client with this client number
//     noop ID N   the next message is a noop of it
//     leave ID    the next message is the leave of this client
//     lost        the current id ends
//
// Behind each stands how many edits are acknowledged, and whether an edit may be sent.
use fluid_json::{Json, LARGEST, Text};
use fluid_outbox::Outbox;
use fluid_types::{ClientId, Kind, Message, Offered, Submission};
use std::alloc::Global;
use std::process::Abort;

const REFERENCE: u64 = 7;

/// A call, its answer, and what holds behind it.
pub(crate) type Row = (&'static str, &'static str, &'static str);

/// Plays lines on a new outbox, and compares what is told of each.
pub(crate) fn play(rt: &impl Abort, alloc: Global, rows: &[Row]) {
    let mut outbox = Outbox::new(alloc);
    play_on(rt, alloc, &mut outbox, rows);
    drop(outbox);
}

/// Plays lines on an outbox.
pub(crate) fn play_on(rt: &impl Abort, alloc: Global, outbox: &mut Outbox, rows: &[Row]) {
    for (line, answer, state) in rows {
        let told = told(rt, alloc, outbox, line);
        assert!(rt; told.as_str() == *answer, "the answer to {line}");
        let told = state_of(rt, alloc, outbox);
        assert!(rt; told.as_str() == *state, "the state behind {line}");
    }
}

fn state_of(rt: &impl Abort, alloc: Global, outbox: &Outbox) -> Text {
    let acknowledged = outbox.acknowledged();
    let may_send = outbox.may_send();
    Text::new(format!(in alloc; "{acknowledged} {may_send}").expect(rt, "memory"))
}

fn told(rt: &impl Abort, alloc: Global, outbox: &mut Outbox, line: &str) -> Text {
    match line.split_once(' ') {
        Some(("push", number)) => pushed(rt, alloc, outbox, number),
        Some(("join", id)) => joined(rt, alloc, outbox, id),
        Some(("op", rest)) => heard(rt, alloc, outbox, Kind::Op, rest),
        Some(("noop", rest)) => heard(rt, alloc, outbox, Kind::Noop, rest),
        Some(("leave", id)) => left(rt, alloc, outbox, id),
        _ => asked(rt, alloc, outbox, line),
    }
}

fn asked(rt: &impl Abort, alloc: Global, outbox: &mut Outbox, line: &str) -> Text {
    match line {
        "next" => sent(rt, alloc, outbox),
        "lost" => {
            outbox.lost();
            copied(rt, alloc, "")
        }
        _ => copied(rt, alloc, "no such line"),
    }
}

fn copied(rt: &impl Abort, alloc: Global, text: &str) -> Text {
    Text::copied(alloc, text).expect(rt, "memory")
}

fn number_of(rt: &impl Abort, text: &str) -> i64 {
    match text.parse() {
        Ok(number) => number,
        Err(_) => panic!(rt; "no number: {text}"),
    }
}

fn pushed(rt: &impl Abort, alloc: Global, outbox: &mut Outbox, number: &str) -> Text {
    let contents = Json::whole(number_of(rt, number));
    let number = outbox.push(contents).expect(rt, "memory");
    Text::new(format!(in alloc; "{number}").expect(rt, "memory"))
}

fn joined(rt: &impl Abort, alloc: Global, outbox: &mut Outbox, id: &str) -> Text {
    let id = ClientId::read(alloc, id).expect(rt, "a name");
    if outbox.current().is_some() {
        return copied(rt, alloc, "current");
    }
    outbox.joined(id).expect(rt, "memory");
    copied(rt, alloc, "")
}

fn sent(rt: &impl Abort, alloc: Global, outbox: &mut Outbox) -> Text {
    match outbox.next(alloc, REFERENCE).expect(rt, "memory") {
        Some(submission) => shown(rt, alloc, &submission),
        None => copied(rt, alloc, "none"),
    }
}

fn shown(rt: &impl Abort, alloc: Global, submission: &Submission) -> Text {
    assert!(rt; submission.reference == 7 && submission.kind == Offered::Op);
    let number = submission.client_number;
    let contents = submission.contents.as_whole().expect(rt, "a whole number");
    Text::new(format!(in alloc; "{number}:{contents}").expect(rt, "memory"))
}

fn heard(rt: &impl Abort, alloc: Global, outbox: &mut Outbox, kind: Kind, rest: &str) -> Text {
    let (id, number) = rest.split_once(' ').expect(rt, "an id and a number");
    let client = ClientId::read(alloc, id).expect(rt, "a name");
    let number = number_of(rt, number);
    hear(rt, outbox, message(kind, Some(client), number, None));
    copied(rt, alloc, "")
}

fn left(rt: &impl Abort, alloc: Global, outbox: &mut Outbox, id: &str) -> Text {
    let data = Text::new(format!(in alloc; "\"{id}\"").expect(rt, "memory"));
    hear(rt, outbox, message(Kind::Leave, None, -1, Some(data)));
    copied(rt, alloc, "")
}

fn hear(rt: &impl Abort, outbox: &mut Outbox, message: Message) {
    let before = outbox.heard_to();
    if before >= LARGEST {
        panic!(rt; "too many messages");
    }
    let mut message = message;
    message.number = before + 1;
    outbox.heard(&message);
    assert!(rt; outbox.heard_to() == before + 1);
    drop(message);
}

fn message(
    kind: Kind,
    client: Option<ClientId>,
    client_number: i64,
    system: Option<Text>,
) -> Message {
    Message {
        client,
        client_number,
        reference: -1,
        number: 0,
        minimum: 0,
        kind,
        contents: Json::null(),
        system,
        metadata: None,
        moment: 0,
    }
}
