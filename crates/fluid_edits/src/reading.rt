// The edit that an op spells.
ghost use Rattle.std.specs.Prelude.{◌≡◌, IfOk, option_map, codes};
ghost use Rattle.fluid_edits.specs.Forms.{text_at, name_at, is_attach, attaching, plain_value, setting, deleting, incrementing, spoken, edit_in, edit_of};

use crate::edit::{ChannelKind, Edit};
use fluid_json::{Json, NoMemory, Text};
use fluid_types::{Address, Kind, Message, NameFault, Word, body, of_word};
use std::alloc::Global;

/// What an op does to the channel that it speaks to.
#[derive(Clone, Copy, Debug, PartialEq, Eq)]
pub(crate) enum Verb {
    Set,
    Delete,
    Clear,
    Increment,
}

impl Verb {
    pub(crate) const ALL: [Verb; 4] = [Verb::Set, Verb::Delete, Verb::Clear, Verb::Increment];
}

/// The words of the member `type` of an op's contents.
impl Word for Verb {
    ghost use Rattle.fluid_edits.specs.Forms.{verb_word};

    ghost word_of = { verb_word };

    fn word(self) -> &'static str {
        match self {
            Verb::Set => "set",
            Verb::Delete => "delete",
            Verb::Clear => "clear",
            Verb::Increment => "increment",
        }
    }
}

/// The edit as which a message counts; none where it is no op, or its body has none of the five forms. Contents that are
/// a text of JSON stand for what they spell. Of other contents only the key and the value are copied.
#[tactic(auto, unfolding(fluid_types::specs::Contents::body))]
pub fn spelled_edit(alloc: Global, message: &Message) -> Result<Option<Edit>, NoMemory>
    ensures { IfOk result (λ edit. edit ≡ edit_of message.now) }
{
    if message.kind != Kind::Op {
        return Ok(None);
    }
    if message.contents.as_text().is_none() {
        return read_edit(alloc, &message.contents);
    }
    let body = body(alloc, &message.contents)?;
    read_edit(alloc, &body)
}

/// The edit that the body of an op spells; none where it has none of the five forms. An amount may be any whole number
/// here. Members beyond the form are passed over.
#[tactic(auto, unfolding(crate::specs::Forms::edit_in))]
pub fn read_edit(alloc: Global, body: &Json) -> Result<Option<Edit>, NoMemory>
    ensures { IfOk result (λ edit. edit ≡ edit_in body.now) }
{
    let Some(address) = address_in(alloc, body)? else {
        return Ok(None);
    };
    if is_attach(body) {
        return Ok(attaching(address, body));
    }
    let Some(contents) = body.member("contents") else {
        return Ok(None);
    };
    spoken(alloc, address, contents)
}

fn is_attach(body: &Json) -> bool
    ensures { result ≡ is_attach body.now }
{
    match text_at(body, "type") {
        Some(word) => word == "attach",
        None => false,
    }
}

fn attaching(address: Address, body: &Json) -> Option<Edit>
    ensures { result ≡ attaching address body.now }
{
    let word = text_at(body, "kind")?;
    let kind = of_word(&ChannelKind::ALL, word)?;
    Some(Edit::Attach(address, kind))
}

fn spoken(alloc: Global, address: Address, contents: &Json) -> Result<Option<Edit>, NoMemory>
    ensures { IfOk result (λ edit. edit ≡ spoken address contents.now) }
{
    let Some(word) = text_at(contents, "type") else {
        return Ok(None);
    };
    match of_word(&Verb::ALL, word) {
        Some(Verb::Set) => setting(alloc, address, contents),
        Some(Verb::Delete) => deleting(alloc, address, contents),
        Some(Verb::Clear) => Ok(Some(Edit::Clear(address))),
        Some(Verb::Increment) => Ok(incrementing(address, contents)),
        None => Ok(None),
    }
}

fn setting(alloc: Global, address: Address, contents: &Json) -> Result<Option<Edit>, NoMemory>
    ensures { IfOk result (λ edit. edit ≡ setting address contents.now) }
{
    let Some(key) = text_at(contents, "key") else {
        return Ok(None);
    };
    let Some(value) = plain_value(contents) else {
        return Ok(None);
    };
    let key = Text::copied(alloc, key)?;
    let value = value.copy(alloc)?;
    Ok(Some(Edit::Set(address, key, value)))
}

// The value in the member `value`, which says that it is a plain one.
fn plain_value(contents: &Json) -> Option<&Json>
    ensures { option_map (λ value. value.now) result ≡ plain_value contents.now }
{
    let holder = contents.member("value")?;
    let word = text_at(holder, "type")?;
    if word != "Plain" {
        return None;
    }
    holder.member("value")
}

fn deleting(alloc: Global, address: Address, contents: &Json) -> Result<Option<Edit>, NoMemory>
    ensures { IfOk result (λ edit. edit ≡ deleting address contents.now) }
{
    let Some(key) = text_at(contents, "key") else {
        return Ok(None);
    };
    let key = Text::copied(alloc, key)?;
    Ok(Some(Edit::Delete(address, key)))
}

fn incrementing(address: Address, contents: &Json) -> Option<Edit>
    ensures { result ≡ incrementing address contents.now }
{
    let member = contents.member("incrementAmount")?;
    let amount = member.as_whole()?;
    Some(Edit::Increment(address, amount))
}

// ---- members

// The text in a member.
fn text_at<'a>(value: &'a Json, name: &str) -> Option<&'a str>
    ensures { option_map (λ text. text.now) result ≡ text_at name.now value.now }
{
    let member = value.member(name)?;
    member.as_text()
}

// The name in the member `address`.
fn address_in(alloc: Global, body: &Json) -> Result<Option<Address>, NoMemory>
    ensures { IfOk result (λ address. address ≡ name_at (codes "address") body.now) }
{
    let Some(text) = text_at(body, "address") else {
        return Ok(None);
    };
    match Address::read(alloc, text) {
        Ok(address) => Ok(Some(address)),
        Err(NameFault::BadName) => Ok(None),
        Err(NameFault::NoMemory) => Err(NoMemory),
    }
}
