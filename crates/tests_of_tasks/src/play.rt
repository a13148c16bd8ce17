// A small language over `Tasks`: each line is the next message of the order, or a question, whose answer is a text.
//
//     CLIENT does BODY     the message is an op of the client with this body, a JSON text
//     CLIENT hints BODY    it is a noop of the client with this body
//     CLIENT leaves        it is the leave of the client
//     CLIENT joins         it is a join, which says nothing to queues and tasks
//     free QUEUE           the free items, each with a blank behind it
//     held ITEM            who holds the item; `none` where nobody does
//     value ITEM           the value of the item; `none` where it has none
//     holder TASK          the holder of the task; `none` where it has none
//     print                the text of all queues and tasks
use fluid_json::{Json, LARGEST, Text, print, read};
use fluid_tasks::Tasks;
use fluid_types::{ClientId, Kind, Message};
use std::alloc::Global;
use std::process::Abort;

/// Plays lines on new tasks, and compares the answer of each question. A message has none.
pub(crate) fn play(rt: &impl Abort, alloc: Global, lines: &[(&str, &str)]) {
    let mut tasks = Tasks::new(alloc);
    for (line, wanted) in lines {
        let told = told(rt, alloc, &mut tasks, line);
        assert!(rt; told.as_str() == *wanted, "at {line}");
    }
    drop(tasks);
}

fn told(rt: &impl Abort, alloc: Global, tasks: &mut Tasks, line: &str) -> Text {
    match line.split_once(' ') {
        Some(("free", queue)) => free(rt, alloc, tasks, queue),
        Some(("held", item)) => held(rt, alloc, tasks, item),
        Some(("value", item)) => value(rt, alloc, tasks, item),
        Some(("holder", task)) => holder(rt, alloc, tasks, task),
        Some((client, rest)) => said(rt, alloc, tasks, client, rest),
        None => tasks.print(alloc).expect(rt, "memory"),
    }
}

fn said(rt: &impl Abort, alloc: Global, tasks: &mut Tasks, client: &str, rest: &str) -> Text {
    match rest.split_once(' ') {
        Some(("does", body)) => spoken(rt, alloc, tasks, Kind::Op, client, body),
        Some(("hints", body)) => spoken(rt, alloc, tasks, Kind::Noop, client, body),
        _ => moved(rt, alloc, tasks, client, rest),
    }
}

fn copied(rt: &impl Abort, alloc: Global, text: &str) -> Text {
    Text::copied(alloc, text).expect(rt, "memory")
}

fn number_of(rt: &impl Abort, text: &str) -> u64 {
    match text.parse() {
        Ok(number) => number,
        Err(_) => panic!(rt; "no number: {text}"),
    }
}

fn free(rt: &impl Abort, alloc: Global, tasks: &Tasks, queue: &str) -> Text {
    let mut list = String::new(alloc);
    for item in tasks.free(queue) {
        write!(list, "{item} ").expect(rt, "memory");
    }
    Text::new(list)
}

fn client_text(rt: &impl Abort, alloc: Global, client: Option<&ClientId>) -> Text {
    match client {
        Some(client) => copied(rt, alloc, client.as_str()),
        None => copied(rt, alloc, "none"),
    }
}

fn held(rt: &impl Abort, alloc: Global, tasks: &Tasks, item: &str) -> Text {
    client_text(rt, alloc, tasks.holder_of(number_of(rt, item)))
}

fn holder(rt: &impl Abort, alloc: Global, tasks: &Tasks, task: &str) -> Text {
    client_text(rt, alloc, tasks.holder(task))
}

fn value(rt: &impl Abort, alloc: Global, tasks: &Tasks, item: &str) -> Text {
    match tasks.value(number_of(rt, item)) {
        Some(value) => print(alloc, value).expect(rt, "memory"),
        None => copied(rt, alloc, "none"),
    }
}

fn spoken(
    rt: &impl Abort,
    alloc: Global,
    tasks: &mut Tasks,
    kind: Kind,
    client: &str,
    body: &str,
) -> Text {
    let client = ClientId::read(alloc, client).expect(rt, "a name");
    let contents = read(alloc, body).expect(rt, "a JSON text");
    apply(
        rt,
        alloc,
        tasks,
        message(kind, Some(client), contents, None),
    );
    copied(rt, alloc, "")
}

fn moved(rt: &impl Abort, alloc: Global, tasks: &mut Tasks, client: &str, what: &str) -> Text {
    let kind = match what {
        "leaves" => Kind::Leave,
        "joins" => Kind::Join,
        _ => panic!(rt; "no such line: {what}"),
    };
    let data = Text::new(format!(in alloc; "\"{client}\"").expect(rt, "memory"));
    apply(
        rt,
        alloc,
        tasks,
        message(kind, None, Json::null(), Some(data)),
    );
    copied(rt, alloc, "")
}

fn apply(rt: &impl Abort, alloc: Global, tasks: &mut Tasks, message: Message) {
    let before = tasks.heard();
    if before >= LARGEST {
        panic!(rt; "too many messages");
    }
    let mut message = message;
    message.number = before + 1;
    tasks.apply(alloc, &message).expect(rt, "memory");
    assert!(rt; tasks.heard() == before + 1);
    drop(message);
}

fn message(kind: Kind, client: Option<ClientId>, contents: Json, system: Option<Text>) -> Message {
    Message {
        client,
        client_number: 1,
        reference: 0,
        number: 0,
        minimum: 0,
        kind,
        contents,
        system,
        metadata: None,
        moment: 0,
    }
}
