// Edits over lines that are lost. Of each line every second edit stands before its leave, so the others are sent again over the next.
use fluid_json::{Json, LARGEST, NoMemory, Text};
use fluid_outbox::Outbox;
use fluid_types::{ClientId, Kind, Message};
use std::alloc::Global;

/// Pushes so many edits, as many at each of so many lines, each of which is lost behind sending. Then one more line takes what is
/// left. It gives how many are acknowledged at the end.
pub(crate) fn acknowledged_over(alloc: Global, edits: u64, lines: u64) -> Result<u64, NoMemory> {
    let mut outbox = Outbox::new(alloc);
    for line in 0..lines {
        push_share(alloc, &mut outbox, edits, lines, line)?;
        let sent = send_all(alloc, &mut outbox, line)?;
        outbox.lost();
        hear_all(alloc, &mut outbox, line, sent / 2)?;
        hear_leave(alloc, &mut outbox, line)?;
    }
    let sent = send_all(alloc, &mut outbox, lines)?;
    hear_all(alloc, &mut outbox, lines, sent)?;
    let acknowledged = outbox.acknowledged();
    drop(outbox);
    Ok(acknowledged)
}

// The share of a line: the last one has what the others leave.
fn push_share(
    alloc: Global,
    outbox: &mut Outbox,
    edits: u64,
    lines: u64,
    line: u64,
) -> Result<(), NoMemory> {
    let each = if lines == 0 { 0 } else { edits / lines };
    let rest = if lines == 0 { 0 } else { edits % lines };
    push_some(alloc, outbox, if line < rest { each + 1 } else { each })
}

fn push_some(alloc: Global, outbox: &mut Outbox, count: u64) -> Result<(), NoMemory> {
    for _ in 0..count {
        let contents = Json::text(Text::copied(alloc, "an edit of some forty bytes of contents.")?);
        outbox.push(contents)?;
    }
    Ok(())
}

// Joins under the id of a line and sends what waits. It gives how many were sent.
fn send_all(alloc: Global, outbox: &mut Outbox, line: u64) -> Result<u64, NoMemory> {
    let id = ClientId::of_entry(alloc, line)?;
    if outbox.current().is_some() {
        return Ok(0);
    }
    outbox.joined(id)?;
    for sent in 0..LARGEST {
        if !is_one_sent(alloc, outbox)? {
            return Ok(sent);
        }
    }
    Ok(LARGEST)
}

fn is_one_sent(alloc: Global, outbox: &mut Outbox) -> Result<bool, NoMemory> {
    let submission = outbox.next(alloc, 0)?;
    let is_some = submission.is_some();
    drop(submission);
    Ok(is_some)
}

// Hears the ops of a line, up to this client number.
fn hear_all(alloc: Global, outbox: &mut Outbox, line: u64, last: u64) -> Result<(), NoMemory> {
    for number in 0..last {
        let client = ClientId::of_entry(alloc, line)?;
        let number = i64::try_from(number).unwrap_or(0).saturating_add(1);
        hear(outbox, message(Kind::Op, Some(client), number, None));
    }
    Ok(())
}

fn hear_leave(alloc: Global, outbox: &mut Outbox, line: u64) -> Result<(), NoMemory> {
    let text = format!(in alloc; "\"c{line}\"")?;
    hear(
        outbox,
        message(Kind::Leave, None, -1, Some(Text::new(text))),
    );
    Ok(())
}

fn hear(outbox: &mut Outbox, message: Message) {
    let before = outbox.heard_to();
    if before < LARGEST {
        let mut message = message;
        message.number = before + 1;
        outbox.heard(&message);
        drop(message);
    }
}

fn message(
    kind: Kind,
    client: Option<ClientId>,
    client_number: i64,
    system: Option<Text>,
) -> Message {
    Message {
        client,
        client_number,
        reference: -1,
        number: 0,
        minimum: 0,
        kind,
        contents: Json::null(),
        system,
        metadata: None,
        moment: 0,
    }
}
