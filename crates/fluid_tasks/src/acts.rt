// What an op says to a queue or to a task.
ghost use Rattle.std.specs.Prelude.{◌≡◌, IfOk, option_map, codes};
ghost use Rattle.fluid_types.specs.Quorum.{data_of, left_by};
ghost use Rattle.fluid_tasks.specs.Acts.{text_at, name_at, number_at, adding, to_queue, to_task, act_in, act_of};

use fluid_json::{Json, JsonFault, NoMemory, Text, read};
use fluid_types::{Address, Kind, Message, NameFault, Word, body, of_word};
use std::alloc::Global;

/// What a client says to the queue or the task of this name.
#[derive(Drop)]
pub(crate) enum Act {
    /// Adds an item with this value to the queue.
    Add(Address, Json),
    /// Asks for an item of the queue.
    Acquire(Address),
    /// Says that the item of the queue is done.
    Complete(Address, u64),
    /// Gives the item back to the queue.
    Release(Address, u64),
    /// Stands as a candidate for the task.
    Volunteer(Address),
    /// Stands no longer.
    Abandon(Address),
    /// Says that the task is done.
    Finish(Address),
}

/// What an op speaks to.
#[derive(Clone, Copy, Debug, PartialEq, Eq)]
pub(crate) enum Target {
    Queue,
    Task,
}

impl Target {
    pub(crate) const ALL: [Target; 2] = [Target::Queue, Target::Task];
}

/// The words of the member `type`.
impl Word for Target {
    ghost use Rattle.fluid_tasks.specs.Acts.{target_word};

    ghost word_of = { target_word };

    fn word(self) -> &'static str {
        match self {
            Target::Queue => "queue",
            Target::Task => "task",
        }
    }
}

/// What is said to a queue.
#[derive(Clone, Copy, Debug, PartialEq, Eq)]
pub(crate) enum QueueVerb {
    Add,
    Acquire,
    Complete,
    Release,
}

impl QueueVerb {
    pub(crate) const ALL: [QueueVerb; 4] = [
        QueueVerb::Add,
        QueueVerb::Acquire,
        QueueVerb::Complete,
        QueueVerb::Release,
    ];
}

/// The words of the member `op` of what is said to a queue.
impl Word for QueueVerb {
    ghost use Rattle.fluid_tasks.specs.Acts.{queue_word};

    ghost word_of = { queue_word };

    fn word(self) -> &'static str {
        match self {
            QueueVerb::Add => "add",
            QueueVerb::Acquire => "acquire",
            QueueVerb::Complete => "complete",
            QueueVerb::Release => "release",
        }
    }
}

/// What is said to a task.
#[derive(Clone, Copy, Debug, PartialEq, Eq)]
pub(crate) enum TaskVerb {
    Volunteer,
    Abandon,
    Complete,
}

impl TaskVerb {
    pub(crate) const ALL: [TaskVerb; 3] = [
        TaskVerb::Volunteer,
        TaskVerb::Abandon,
        TaskVerb::Complete,
    ];
}

/// The words of the member `op` of what is said to a task.
impl Word for TaskVerb {
    ghost use Rattle.fluid_tasks.specs.Acts.{task_word};

    ghost word_of = { task_word };

    fn word(self) -> &'static str {
        match self {
            TaskVerb::Volunteer => "volunteer",
            TaskVerb::Abandon => "abandon",
            TaskVerb::Complete => "complete",
        }
    }
}

/// What a message says to a queue or a task; none where it is no op, or its body has none of the seven forms. Contents that are a
/// text of JSON stand for what they spell. Of other contents only the name and the value are copied.
#[tactic(auto, unfolding(fluid_types::specs::Contents::body))]
pub(crate) fn spelled_act(alloc: Global, message: &Message) -> Result<Option<Act>, NoMemory>
    ensures { IfOk result (λ act. act ≡ act_of message.now) }
{
    if message.kind != Kind::Op {
        return Ok(None);
    }
    if message.contents.as_text().is_none() {
        return read_act(alloc, &message.contents);
    }
    let body = body(alloc, &message.contents)?;
    read_act(alloc, &body)
}

// What a body says; none where it has none of the seven forms. Members beyond the form are passed over, but one `address`.
#[tactic(auto, unfolding(crate::specs::Acts::act_in))]
fn read_act(alloc: Global, body: &Json) -> Result<Option<Act>, NoMemory>
    ensures { IfOk result (λ act. act ≡ act_in body.now) }
{
    if body.member("address").is_some() {
        return Ok(None);
    }
    let Some(name) = name_in(alloc, body)? else {
        return Ok(None);
    };
    let Some(word) = text_at(body, "type") else {
        return Ok(None);
    };
    match of_word(&Target::ALL, word) {
        Some(Target::Queue) => to_queue(alloc, name, body),
        Some(Target::Task) => Ok(to_task(name, body)),
        None => Ok(None),
    }
}

fn to_queue(alloc: Global, name: Address, body: &Json) -> Result<Option<Act>, NoMemory>
    ensures { IfOk result (λ act. act ≡ to_queue name body.now) }
{
    let Some(word) = text_at(body, "op") else {
        return Ok(None);
    };
    match of_word(&QueueVerb::ALL, word) {
        Some(QueueVerb::Add) => adding(alloc, name, body),
        Some(QueueVerb::Acquire) => Ok(Some(Act::Acquire(name))),
        Some(QueueVerb::Complete) => match number_at(body, "item") {
            Some(item) => Ok(Some(Act::Complete(name, item))),
            None => Ok(None),
        },
        Some(QueueVerb::Release) => match number_at(body, "item") {
            Some(item) => Ok(Some(Act::Release(name, item))),
            None => Ok(None),
        },
        None => Ok(None),
    }
}

fn adding(alloc: Global, name: Address, body: &Json) -> Result<Option<Act>, NoMemory>
    ensures { IfOk result (λ act. act ≡ adding name body.now) }
{
    let Some(value) = body.member("value") else {
        return Ok(None);
    };
    let value = value.copy(alloc)?;
    Ok(Some(Act::Add(name, value)))
}

fn to_task(name: Address, body: &Json) -> Option<Act>
    ensures { result ≡ to_task name body.now }
{
    let word = text_at(body, "op")?;
    match of_word(&TaskVerb::ALL, word)? {
        TaskVerb::Volunteer => Some(Act::Volunteer(name)),
        TaskVerb::Abandon => Some(Act::Abandon(name)),
        TaskVerb::Complete => Some(Act::Finish(name)),
    }
}

/// The id of the client that leaves; none where the message is no leave, or its data spell no text.
#[tactic(auto, unfolding(fluid_types::specs::Quorum::left_by))]
pub(crate) fn left(alloc: Global, message: &Message) -> Result<Option<Text>, NoMemory>
    ensures { IfOk result (λ id. id ≡ left_by message.now) }
{
    if message.kind != Kind::Leave {
        return Ok(None);
    }
    let Some(value) = spelled_data(alloc, message)? else {
        return Ok(None);
    };
    Ok(value.into_text())
}

// The value that the data of a system message spell.
fn spelled_data(alloc: Global, message: &Message) -> Result<Option<Json>, NoMemory>
    ensures { IfOk result (λ value. value ≡ data_of message.now) }
{
    let Some(text) = &message.system else {
        return Ok(None);
    };
    match read(alloc, text.as_str()) {
        Ok(value) => Ok(Some(value)),
        Err(JsonFault::NoMemory) => Err(NoMemory),
        Err(_) => Ok(None),
    }
}

// ---- members

// The text in a member.
fn text_at<'a>(value: &'a Json, name: &str) -> Option<&'a str>
    ensures { option_map (λ text. text.now) result ≡ text_at name.now value.now }
{
    let member = value.member(name)?;
    member.as_text()
}

// The whole number in a member, where it isn't negative. A negative one names no item.
fn number_at(value: &Json, name: &str) -> Option<u64>
    ensures { result ≡ number_at name.now value.now }
{
    let member = value.member(name)?;
    let whole = member.as_whole()?;
    u64::try_from(whole).ok()
}

// The name in the member `name`.
fn name_in(alloc: Global, body: &Json) -> Result<Option<Address>, NoMemory>
    ensures { IfOk result (λ name. name ≡ name_at (codes "name") body.now) }
{
    let Some(text) = text_at(body, "name") else {
        return Ok(None);
    };
    match Address::read(alloc, text) {
        Ok(name) => Ok(Some(name)),
        Err(NameFault::BadName) => Ok(None),
        Err(NameFault::NoMemory) => Err(NoMemory),
    }
}
