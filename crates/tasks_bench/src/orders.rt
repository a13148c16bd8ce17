// An order over queues and tasks: items are added first, and then acquired, given back, done and left by turns.
use fluid_json::{Json, LARGEST, NoMemory, Text};
use fluid_tasks::Tasks;
use fluid_types::{ClientId, Kind, Message};
use std::alloc::Global;

const CLIENTS: u64 = 100;

const NAMES: u64 = 8;
/// A client leaves with each so many-th message.
const LIFE: u64 = 997;

/// The items that a client was given in its turn of seven messages: the last one but one, and the last one.
#[derive(Drop)]
struct Turn {
    former: u64,
    latter: u64,
}

/// Applies so many messages, of which the first so many each add an item, and gives the length of the text of what is left.
pub(crate) fn length_left(alloc: Global, messages: u64, items: u64) -> Result<usize, NoMemory> {
    let mut tasks = Tasks::new(alloc);
    let mut turn = Turn {
        former: 0,
        latter: 0,
    };
    for number in 0..messages {
        apply(alloc, &mut tasks, &mut turn, number, items)?;
    }
    let text = tasks.print(alloc)?;
    Ok(text.as_str().len())
}

fn apply(
    alloc: Global,
    tasks: &mut Tasks,
    turn: &mut Turn,
    number: u64,
    items: u64,
) -> Result<(), NoMemory> {
    let before = tasks.heard();
    if before >= LARGEST {
        return Ok(());
    }
    let client = number / 7 % CLIENTS;
    let mut message = if number % LIFE == 0 {
        left(alloc, client)?
    } else {
        op(alloc, client, body(alloc, tasks, turn, number, items)?)?
    };
    message.number = before + 1;
    tasks.apply(alloc, &message)
}

// What a message says. Of seven messages of a client three are acquires, one gives the last item back, one is done with the one before,
// one adds another, and one volunteers for a task.
fn body(
    alloc: Global,
    tasks: &Tasks,
    turn: &mut Turn,
    number: u64,
    items: u64,
) -> Result<String, NoMemory> {
    let name = number / 7 % NAMES;
    if number < items || number % 7 == 5 {
        return added(alloc, name, number);
    }
    match number % 7 {
        3 => of_item(alloc, name, "release", turn.latter),
        4 => of_item(alloc, name, "complete", turn.former),
        6 => volunteering(alloc, name),
        _ => acquiring(alloc, tasks, turn, name),
    }
}

fn added(alloc: Global, name: u64, value: u64) -> Result<String, NoMemory> {
    let text = format!(in alloc;
        "{{\"name\":\"q{name}\",\"op\":\"add\",\"type\":\"queue\",\"value\":{value}}}"
    )?;
    Ok(text)
}

fn of_item(alloc: Global, name: u64, verb: &str, item: u64) -> Result<String, NoMemory> {
    let text = format!(in alloc;
        "{{\"item\":{item},\"name\":\"q{name}\",\"op\":\"{verb}\",\"type\":\"queue\"}}"
    )?;
    Ok(text)
}

fn volunteering(alloc: Global, name: u64) -> Result<String, NoMemory> {
    let text = format!(in alloc;
        "{{\"name\":\"t{name}\",\"op\":\"volunteer\",\"type\":\"task\"}}"
    )?;
    Ok(text)
}

// Notes the item that will be given.
fn acquiring(alloc: Global, tasks: &Tasks, turn: &mut Turn, name: u64) -> Result<String, NoMemory> {
    let queue = format!(in alloc; "q{name}")?;
    turn.former = turn.latter;
    if let Some(item) = tasks.free(queue.as_str()).first() {
        turn.latter = *item;
    }
    let text = format!(in alloc; "{{\"name\":\"q{name}\",\"op\":\"acquire\",\"type\":\"queue\"}}")?;
    Ok(text)
}

fn left(alloc: Global, client: u64) -> Result<Message, NoMemory> {
    let data = Text::new(format!(in alloc; "\"c{client}\"")?);
    Ok(message(Kind::Leave, None, Json::null(), Some(data)))
}

fn op(alloc: Global, client: u64, body: String) -> Result<Message, NoMemory> {
    let id = ClientId::of_entry(alloc, client)?;
    let contents = Json::text(Text::new(body));
    Ok(message(Kind::Op, Some(id), contents, None))
}

fn message(kind: Kind, client: Option<ClientId>, contents: Json, system: Option<Text>) -> Message {
    Message {
        client,
        client_number: 1,
        reference: 0,
        number: 0,
        minimum: 0,
        kind,
        contents,
        system,
        metadata: None,
        moment: 0,
    }
}
