// The items of the lists in a checkpoint.
ghost use Rattle.std.specs.Prelude.{◌≡◌, IfOk};
ghost use Rattle.std.specs.Result.{result_ok};
ghost use Rattle.fluid_json.specs.Tree.{trees, as_text};
ghost use Rattle.fluid_types.specs.Messages.{message as a_message};
ghost use Rattle.fluid_types.specs.declared.fault.Field.TheVariants as field;
ghost use Rattle.fluid_rules.specs.Scribe.{is_summarize};
ghost use Rattle.fluid_scribe.specs.State.{is_heard};
ghost use Rattle.fluid_checkpoint.specs.Reading.{pair, held, is_word, led_by, left, are_none};

use crate::forms::{Handle, Name, Number, Shape, Truth, count, member};
use fluid_clients::Row;
use fluid_json::{Json, NoMemory};
use fluid_tree::SummaryRef;
use fluid_types::{ClientId, CodecFault, Kind, Message, Scopes};
use std::alloc::Global;

/// An acknowledged summary.
#[derive(Drop)]
pub(crate) struct Ack;

impl Shape for Ack {
    type Value = SummaryRef;

    ghost use Rattle.fluid_checkpoint.specs.Reading.{ack};

    ghost reads = { λ _. ack };

    #[tactic(auto, unfolding(crate::specs::Reading::ack))]
    fn read(&self, alloc: Global, value: &Json) -> Result<Option<SummaryRef>, NoMemory> {
        let Some(handle) = member(alloc, value, "handle", &Handle)? else {
            return Ok(None);
        };
        let Some(number) = member(alloc, value, "number", &Number)? else {
            return Ok(None);
        };
        Ok(Some(SummaryRef { handle, number }))
    }
}

/// A client with its row, but for the moment at which it was heard.
#[derive(Drop)]
pub(crate) struct Client;

impl Shape for Client {
    type Value = (ClientId, Row);

    ghost use Rattle.fluid_checkpoint.specs.Reading.{client};

    ghost reads = { λ _. client };

    #[tactic(auto, unfolding(crate::specs::Reading::client))]
    fn read(&self, alloc: Global, value: &Json) -> Result<Option<(ClientId, Row)>, NoMemory> {
        let Some(id) = member(alloc, value, "id", &Name)? else {
            return Ok(None);
        };
        let Some(last) = member(alloc, value, "last", &Number)? else {
            return Ok(None);
        };
        let Some(nacked) = member(alloc, value, "nacked", &Truth)? else {
            return Ok(None);
        };
        let Some(reference) = member(alloc, value, "reference", &Number)? else {
            return Ok(None);
        };
        let Some(scopes) = member(alloc, value, "scopes", &Held)? else {
            return Ok(None);
        };
        let row = Row {
            last,
            reference,
            nacked,
            scopes,
            heard: 0,
        };
        Ok(Some((id, row)))
    }
}

/// The scopes that a list of their words names, in their order and each once.
#[derive(Drop)]
pub(crate) struct Held;

impl Shape for Held {
    type Value = Scopes;

    ghost use Rattle.fluid_checkpoint.specs.Reading.{scopes};

    ghost reads = { λ _. scopes };

    fn read(&self, _alloc: Global, value: &Json) -> Result<Option<Scopes>, NoMemory> {
        match value.as_list() {
            Some(items) => Ok(scopes_of(items)),
            None => Ok(None),
        }
    }
}

fn scopes_of(items: &[Json]) -> Option<Scopes>
    ensures { result ≡ held (trees items.now) }
{
    let read = led_by(items, Scopes::READ);
    let behind_read = left(items, Scopes::READ);
    let write = led_by(behind_read, Scopes::WRITE);
    let behind_write = left(behind_read, Scopes::WRITE);
    let summary = led_by(behind_write, Scopes::SUMMARY);
    if are_none(left(behind_write, Scopes::SUMMARY)) {
        Some(Scopes {
            read,
            write,
            summary,
        })
    } else {
        None
    }
}

fn is_word(value: &Json, word: &str) -> bool
    ensures { result ≡ is_word word.now (as_text value.now) }
{
    match value.as_text() {
        Some(text) => text == word,
        None => false,
    }
}

// Whether the first item is this word.
fn led_by(items: &[Json], word: &str) -> bool
    ensures { result ≡ led_by word.now (trees items.now) }
{
    match items.split_first() {
        Some((first, _)) => is_word(first, word),
        None => false,
    }
}

// The items behind this word, where the first is it; all where it isn't.
fn left<'a>(items: &'a [Json], word: &str) -> &'a [Json]
    ensures { trees result.now ≡ left word.now (trees items.now) }
{
    match items.split_first() {
        Some((first, rest)) => { if is_word(first, word) { rest } else { items } }
        None => items,
    }
}

fn are_none(items: &[Json]) -> bool
    ensures { result ≡ are_none (trees items.now) }
{
    match items.split_first() {
        Some(_) => false,
        None => true,
    }
}

/// A client and the moment at which it was heard.
#[derive(Drop)]
pub(crate) struct Moment;

impl Shape for Moment {
    type Value = (ClientId, u64);

    ghost use Rattle.fluid_checkpoint.specs.Reading.{moment};

    ghost reads = { λ _. moment };

    #[tactic(auto, unfolding(crate::specs::Reading::moment))]
    fn read(&self, alloc: Global, value: &Json) -> Result<Option<(ClientId, u64)>, NoMemory> {
        let Some(id) = member(alloc, value, "id", &Name)? else {
            return Ok(None);
        };
        let Some(moment) = member(alloc, value, "moment", &Number)? else {
            return Ok(None);
        };
        Ok(Some((id, moment)))
    }
}

/// A message's number and its new minimum.
#[derive(Drop)]
pub(crate) struct Change;

impl Shape for Change {
    type Value = (u64, u64);

    ghost use Rattle.fluid_checkpoint.specs.Reading.{change};

    ghost reads = { λ _. change };

    fn read(&self, _alloc: Global, value: &Json) -> Result<Option<(u64, u64)>, NoMemory> {
        match value.as_list() {
            Some(items) => Ok(pair(items)),
            None => Ok(None),
        }
    }
}

fn pair(items: &[Json]) -> Option<(u64, u64)>
    ensures { result ≡ pair (trees items.now) }
{
    match items {
        [number, minimum] => {
            let number = count(number)?;
            let minimum = count(minimum)?;
            Some((number, minimum))
        }
        _ => None,
    }
}

/// A join, a leave or a propose.
#[derive(Drop)]
pub(crate) struct Heard;

impl Shape for Heard {
    type Value = Message;

    ghost use Rattle.fluid_scribe.specs.State.{is_heard};
    ghost use Rattle.fluid_checkpoint.specs.Reading.{message};

    ghost reads = { λ _. message is_heard };

    #[tactic(auto, unfolding(crate::specs::Reading::message))]
    fn read(&self, alloc: Global, value: &Json) -> Result<Option<Message>, NoMemory> {
        let Some(message) = message_of(alloc, value)? else {
            return Ok(None);
        };
        if is_heard(message.kind) {
            Ok(Some(message))
        } else {
            Ok(None)
        }
    }
}

fn is_heard(kind: Kind) -> bool
    ensures { result ≡ is_heard kind }
{
    matches!(kind, Kind::Join | Kind::Leave | Kind::Propose)
}

/// A summarize.
#[derive(Drop)]
pub(crate) struct Summarize;

impl Shape for Summarize {
    type Value = Message;

    ghost use Rattle.fluid_rules.specs.Scribe.{is_summarize};
    ghost use Rattle.fluid_checkpoint.specs.Reading.{message};

    ghost reads = { λ _. message is_summarize };

    #[tactic(auto, unfolding(crate::specs::Reading::message))]
    fn read(&self, alloc: Global, value: &Json) -> Result<Option<Message>, NoMemory> {
        let Some(message) = message_of(alloc, value)? else {
            return Ok(None);
        };
        if is_summarize(message.kind) {
            Ok(Some(message))
        } else {
            Ok(None)
        }
    }
}

fn is_summarize(kind: Kind) -> bool
    ensures { result ≡ is_summarize kind }
{
    matches!(kind, Kind::Summarize)
}

// The message that a value is.
fn message_of(alloc: Global, value: &Json) -> Result<Option<Message>, NoMemory>
    ensures { IfOk result (λ message. message ≡ result_ok (a_message field.Message value.now)) }
{
    let value = value.copy(alloc)?;
    match fluid_codec::message_of(alloc, value) {
        Ok(message) => Ok(Some(message)),
        Err(CodecFault::NoMemory) => Err(NoMemory),
        Err(_) => Ok(None),
    }
}
