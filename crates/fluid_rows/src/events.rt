// What a connection hears.
use fluid_codec::{Asked, Event, Submissions, read_event};
use fluid_json::{Bytes, Json, NoMemory, Text, print};
use fluid_tree::Id;
use fluid_types::{ClientId, DocName, Scopes};
use std::alloc::Global;

// The event that a text is, in its words, or the text of the fault.
pub(crate) fn told(alloc: Global, text: &str) -> Result<Text, NoMemory> {
    match read_event(alloc, text) {
        Ok(event) => event_told(alloc, &event),
        Err(fault) => fault.text(alloc),
    }
}

fn event_told(alloc: Global, event: &Event) -> Result<Text, NoMemory> {
    match event {
        Event::Connect {
            name,
            write,
            scopes,
            client,
        } => connect(alloc, name, *write, *scopes, client),
        Event::SubmitOp { id, submissions } => submit(alloc, id, submissions),
        Event::GetDeltas { from, to } => deltas(alloc, *from, *to),
        Event::GetSummary(Asked::Latest) => Text::copied(alloc, "summary latest"),
        Event::GetSummary(Asked::Handle(id)) => with_id(alloc, "summary", *id),
        Event::GetObject(id) => with_id(alloc, "object", *id),
        Event::PutObject(bytes) => put(alloc, bytes),
    }
}

fn connect(
    alloc: Global,
    name: &DocName,
    write: bool,
    scopes: Scopes,
    client: &Json,
) -> Result<Text, NoMemory> {
    let mode = if write { "write" } else { "read" };
    let client = print(alloc, client)?;
    let told = format!(in alloc;
        "connect {} {mode} {}{}{} {}",
        name.as_str(),
        held(scopes.read, "r"),
        held(scopes.write, "w"),
        held(scopes.summary, "s"),
        client.as_str()
    )?;
    Ok(Text::new(told))
}

// The letter of a scope that is held.
fn held(is_held: bool, letter: &'static str) -> &'static str {
    if is_held { letter } else { "-" }
}

// The client and the numbers of its submissions.
fn submit(alloc: Global, id: &ClientId, submissions: &Submissions) -> Result<Text, NoMemory> {
    let mut told = format!(in alloc; "submit {}", id.as_str())?;
    for submission in submissions.as_slice() {
        let number = format!(in alloc; " {}", submission.client_number)?;
        told.push_str(number.as_str())?;
    }
    Ok(Text::new(told))
}

fn deltas(alloc: Global, from: i64, to: i64) -> Result<Text, NoMemory> {
    Ok(Text::new(format!(in alloc; "deltas {from} {to}")?))
}

fn with_id(alloc: Global, word: &str, id: [u8; 20]) -> Result<Text, NoMemory> {
    let id = Id::new(id).print(alloc)?;
    let told = format!(in alloc; "{word} {}", id.as_str())?;
    Ok(Text::new(told))
}

fn put(alloc: Global, bytes: &Bytes) -> Result<Text, NoMemory> {
    let digits = hex::encode(alloc, bytes.as_slice())?;
    let told = format!(in alloc; "put {}", digits.as_str())?;
    Ok(Text::new(told))
}
