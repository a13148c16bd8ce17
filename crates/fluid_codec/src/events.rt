ghost use Rattle.std.specs.Prelude.{◌≡◌, Ok, Err};
ghost use Rattle.fluid_json.specs.Unless.{IsUnless};
ghost use Rattle.fluid_codec.specs.Events.{writes, connect_document, submit_op, get_deltas, get_summary, get_object, put_object, event_named, event_name, event, event_spelled};

use crate::batches::batches;
use crate::forms::{
    ADocName, AWhole, Form, HeldScopes, Name, OneOf, a_text, an_object, any, argument, item,
    optional, present_argument, required,
};
use crate::hexadecimal::{AnId, HexBytes, lower_hex};
use crate::names::{EventName, LATEST, Mode};
use crate::reading::read_value;
use fluid_json::{Bytes, Json};
use fluid_types::{ClientId, CodecFault, DocName, Field, Scopes, Submissions, What, of_word};
use std::alloc::Global;

/// What a connection hears.
#[derive(Drop)]
pub enum Event {
    Connect {
        name: DocName,
        /// Whether the mode is "write".
        write: bool,
        scopes: Scopes,
        client: Json,
    },
    SubmitOp {
        id: ClientId,
        submissions: Submissions,
    },
    /// The messages from this number to before that.
    GetDeltas {
        from: i64,
        to: i64,
    },
    GetSummary(Asked),
    GetObject([u8; 20]),
    /// Bytes; whether they are a whole object is looked at later.
    PutObject(Bytes),
}

/// Which summary is asked for.
#[derive(Clone, Copy, Debug, PartialEq, Eq)]
pub enum Asked {
    /// The last that was acknowledged.
    Latest,
    /// The one of this handle.
    Handle([u8; 20]),
}

/// Reads an event: a list of its name and its arguments. Arguments are looked at from left to right, and the first fault is answered.
pub fn read_event(alloc: Global, text: &str) -> Result<Event, CodecFault>
    ensures { IsUnless CodecFault.NoMemory result (event_spelled text.now) }
{
    let value = read_value(alloc, text)?;
    let event = event_in(alloc, value)?;
    Ok(event)
}

#[tactic(auto, unfolding(crate::specs::Events::event))]
fn event_in(alloc: Global, value: Json) -> Result<Event, CodecFault>
    ensures { IsUnless CodecFault.NoMemory result (event value) }
{
    match event_name(&value)? {
        EventName::ConnectDocument => connect_document(alloc, value),
        EventName::SubmitOp => submit_op(alloc, value),
        EventName::GetDeltas => get_deltas(alloc, &value),
        EventName::GetSummary => get_summary(alloc, &value),
        EventName::GetObject => get_object(alloc, &value),
        EventName::PutObject => put_object(alloc, &value),
    }
}

fn event_name(value: &Json) -> Result<EventName, CodecFault>
    ensures { result ≡ event_name value.now }
{
    name_of(value).ok_or(CodecFault::UnknownEvent)
}

fn name_of(value: &Json) -> Option<EventName>
    ensures { result ≡ event_named value.now }
{
    let text = item(value, 0)?.as_text()?;
    of_word(&EventName::ALL, text)
}

#[tactic(auto, unfolding(crate::specs::Events::connect_document))]
fn connect_document(alloc: Global, value: Json) -> Result<Event, CodecFault>
    ensures { IsUnless CodecFault.NoMemory result (connect_document value) }
{
    let object = present_argument(value, 1, Field::Connect)?;
    an_object(&object, Field::Connect)?;
    let name = required(alloc, &object, Field::Id, ADocName)?;
    let mode = optional(alloc, &object, Field::Mode, OneOf(&Mode::ALL))?;
    let scopes = required(alloc, &object, Field::Scopes, HeldScopes)?;
    let client = any(object, Field::Client);
    Ok(Event::Connect {
        name,
        write: writes(mode),
        scopes,
        client,
    })
}

fn writes(mode: Option<Mode>) -> bool
    ensures { result ≡ writes mode }
{
    match mode {
        Some(Mode::Read) => false,
        Some(Mode::Write) | None => true,
    }
}

#[tactic(auto, unfolding(crate::specs::Events::submit_op))]
fn submit_op(alloc: Global, value: Json) -> Result<Event, CodecFault>
    ensures { IsUnless CodecFault.NoMemory result (submit_op value) }
{
    let id = argument(alloc, &value, 1, Field::ClientId, Name)?;
    let messages = present_argument(value, 2, Field::Messages)?;
    let submissions = batches(alloc, messages, Field::Messages)?;
    Ok(Event::SubmitOp { id, submissions })
}

#[tactic(auto, unfolding(crate::specs::Events::get_deltas))]
fn get_deltas(alloc: Global, value: &Json) -> Result<Event, CodecFault>
    ensures { IsUnless CodecFault.NoMemory result (get_deltas value.now) }
{
    let from = argument(alloc, value, 1, Field::From, AWhole)?;
    let to = argument(alloc, value, 2, Field::To, AWhole)?;
    Ok(Event::GetDeltas { from, to })
}

#[tactic(auto, unfolding(crate::specs::Events::get_summary))]
fn get_summary(alloc: Global, value: &Json) -> Result<Event, CodecFault>
    ensures { IsUnless CodecFault.NoMemory result (get_summary value.now) }
{
    let asked = argument(alloc, value, 1, Field::Pick, Pick)?;
    Ok(Event::GetSummary(asked))
}

#[tactic(auto, unfolding(crate::specs::Events::get_object))]
fn get_object(alloc: Global, value: &Json) -> Result<Event, CodecFault>
    ensures { IsUnless CodecFault.NoMemory result (get_object value.now) }
{
    let id = argument(alloc, value, 1, Field::Id, AnId)?;
    Ok(Event::GetObject(id))
}

#[tactic(auto, unfolding(crate::specs::Events::put_object))]
fn put_object(alloc: Global, value: &Json) -> Result<Event, CodecFault>
    ensures { IsUnless CodecFault.NoMemory result (put_object value.now) }
{
    let bytes = argument(alloc, value, 1, Field::Object, HexBytes)?;
    Ok(Event::PutObject(bytes))
}

/// Which summary is asked for.
#[derive(Clone, Copy, Drop)]
struct Pick;

impl Form for Pick {
    type Value = Asked;

    ghost use Rattle.fluid_codec.specs.Events.{asked};

    ghost reads = { λ _. asked };

    fn read(&self, _alloc: Global, value: &Json, field: Field) -> Result<Asked, CodecFault> {
        let text = a_text(value, field)?;
        if text == LATEST {
            return Ok(Asked::Latest);
        }
        match lower_hex(text) {
            Some(id) => Ok(Asked::Handle(id)),
            None => Err(CodecFault::BadField(field, What::NotAllowed)),
        }
    }
}
