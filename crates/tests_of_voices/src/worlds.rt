// What a document and a store answer, as a test says it.
use fluid_codec::read_message;
use fluid_json::Bytes;
use fluid_tree::{Id, SummaryRef};
use fluid_types::{ClientId, Message, Messages, Nack, NackRule, Raw, Submission, Verdict};
use fluid_voice::{Act, ActEnd, ConnectRefusal, Reply, out_of_range, range_asked, summary_asked};
use std::alloc::Global;
use std::process::Abort;

pub enum End {
    Said,
    // The id of a client, and the number of its join.
    Joined(&'static str, u64),
    // The last number.
    Told(u64),
    Sequenced,
    // As a gap, with this minimum.
    Nacked(i64),
    Dropped,
    Absorbed,
    Full,
    TooMany,
    TooManyDocuments,
    // There are so many messages, of which none is shown.
    Order(u64),
    // The acknowledged summaries, oldest first: handles and numbers.
    Acks(&'static [(&'static str, u64)]),
    Held(&'static [u8]),
    NotHeld,
    Stored,
}

// As it stands in an order and in an event.
pub const MESSAGE: &str =
    r#"{"clientId":"c0","clientSequenceNumber":1,"contents":"a","minimumSequenceNumber":1,"referenceSequenceNumber":1,"sequenceNumber":2,"timestamp":7,"type":"op"}"#;

pub fn end_of(rt: &impl Abort, alloc: Global, end: &End, act: &Act) -> ActEnd {
    match end {
        End::Said => ActEnd::Said,
        End::Joined(id, number) => joined(rt, alloc, *id, *number),
        End::Told(last) => ActEnd::Told(*last),
        End::Sequenced => sequenced(rt, alloc),
        End::Nacked(minimum) => nacked(rt, alloc, act, *minimum),
        End::Dropped => ActEnd::Entered(Verdict::Dropped),
        End::Absorbed => ActEnd::Entered(Verdict::Absorbed),
        End::Full => ActEnd::FullNow,
        End::TooMany => ActEnd::TooMany,
        End::TooManyDocuments => too_many_documents(rt, alloc),
        End::Order(last) => ActEnd::Given(deltas(rt, alloc, act, *last)),
        End::Acks(acks) => ActEnd::Given(summary(rt, alloc, act, *acks)),
        End::Held(bytes) => ActEnd::Given(held(rt, alloc, act, *bytes)),
        End::NotHeld => ActEnd::Given(Reply::Object {
            id: id_in(act),
            bytes: None,
        }),
        End::Stored => ActEnd::Given(Reply::Stored(id_in(act))),
    }
}

fn joined(rt: &impl Abort, alloc: Global, id: &str, number: u64) -> ActEnd {
    let id = ClientId::read(alloc, id).expect(rt, "a name");
    ActEnd::Joined(id, number)
}

fn sequenced(rt: &impl Abort, alloc: Global) -> ActEnd {
    ActEnd::Entered(Verdict::Sequenced(message(rt, alloc)))
}

pub fn message(rt: &impl Abort, alloc: Global) -> Message {
    read_message(alloc, MESSAGE).expect(rt, "a message")
}

fn too_many_documents(rt: &impl Abort, alloc: Global) -> ActEnd {
    let reply = ConnectRefusal::TooManyDocuments
        .reply(alloc)
        .expect(rt, "memory");
    ActEnd::Given(reply)
}

fn nacked(rt: &impl Abort, alloc: Global, act: &Act, minimum: i64) -> ActEnd {
    ActEnd::Entered(Verdict::Nacked(Nack {
        rule: NackRule::Gap,
        operation: submission_in(rt, alloc, act),
        minimum,
    }))
}

fn submission_in(rt: &impl Abort, alloc: Global, act: &Act) -> Option<Submission> {
    match act {
        Act::Enter(Raw::Submit { submission, .. }) => {
            Some(submission.copy(alloc).expect(rt, "memory"))
        }
        _ => None,
    }
}

fn deltas(rt: &impl Abort, alloc: Global, act: &Act, last: u64) -> Reply {
    let (from, to) = range_in(rt, act);
    match range_asked(last, from, to) {
        Ok((from, _)) => Reply::Deltas {
            from,
            messages: Messages::new(Vec::new(alloc)),
        },
        Err(field) => out_of_range(field),
    }
}

fn range_in(rt: &impl Abort, act: &Act) -> (i64, i64) {
    match act {
        Act::Deltas(from, to) => (*from, *to),
        _ => panic!(rt; "no question for messages"),
    }
}

fn summary(rt: &impl Abort, alloc: Global, act: &Act, acks: &[(&'static str, u64)]) -> Reply {
    let mut list = Vec::new(alloc);
    for (handle, number) in acks {
        let handle = Id::read(*handle).expect(rt, "an id");
        list.push(SummaryRef {
            handle,
            number: *number,
        })
        .expect(rt, "memory");
    }
    match act {
        Act::Summary(asked) => Reply::Summary(summary_asked(list.as_slice(), asked)),
        _ => panic!(rt; "no question for a summary"),
    }
}

fn held(rt: &impl Abort, alloc: Global, act: &Act, bytes: &[u8]) -> Reply {
    let bytes = Bytes::copied(alloc, bytes).expect(rt, "memory");
    Reply::Object {
        id: id_in(act),
        bytes: Some(bytes),
    }
}

// The id of the object that is asked for or put; zeros in other acts.
fn id_in(act: &Act) -> [u8; 20] {
    match act {
        Act::GetObject(id) => bytes_of(id),
        Act::PutObject(bytes) => bytes_of(&Id::of(bytes.as_slice())),
        _ => [0; 20],
    }
}

fn bytes_of(id: &Id) -> [u8; 20] {
    let mut bytes = [0; 20];
    bytes.copy_from_slice(id.as_bytes());
    bytes
}
