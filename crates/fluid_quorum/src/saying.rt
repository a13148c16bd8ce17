// What one message says: who joins, who leaves, what is proposed.
ghost use Rattle.std.specs.Prelude.{◌≡◌, Option, None, Some, IfOk, IfSome, option_map, option_and_then};
ghost use Rattle.std.specs.Result.{result_ok};
ghost use Rattle.fluid_types.specs.Quorum.{data_of, as_name, joining, proposing, member_of, left_by, proposal_of};
ghost use Rattle.fluid_json.specs.Tree.{Tree, as_text, find};
ghost use Rattle.fluid_types.specs.declared.fault.Field.TheVariants as field;
ghost use Rattle.fluid_types.specs.Texts.{name_of};

use fluid_json::{Json, JsonFault, NoMemory, Text, read};
use fluid_types::{ClientId, Field, Kind, Member, Message, NameFault, Proposal, body};
use std::alloc::Global;

/// What one message says to a quorum.
#[derive(Drop)]
pub(crate) struct Saying {
    /// The member that it adds.
    pub(crate) member: Option<Member>,
    /// The id that it takes out.
    pub(crate) leaver: Option<Text>,
    pub(crate) proposal: Option<Proposal>,
}

/// What this message says. One that isn't in the form of its kind says nothing.
#[tactic(auto, unfolding(fluid_types::specs::Quorum::member_of, fluid_types::specs::Quorum::left_by, fluid_types::specs::Quorum::proposal_of))]
pub(crate) fn hear(alloc: Global, message: &Message) -> Result<Saying, NoMemory>
    ensures member { IfOk result (λ said. said.member ≡ member_of message.now) }
    ensures leaver { IfOk result (λ said. said.leaver ≡ left_by message.now) }
    ensures proposal { IfOk result (λ said. said.proposal ≡ proposal_of message.now) }
    ensures alone { IfOk result (λ said. IfSome said.member (λ _. said.leaver ≡ None)) }
{
    let mut said = Saying {
        member: None,
        leaver: None,
        proposal: None,
    };
    match message.kind {
        Kind::Join => said.member = joined(alloc, message)?,
        Kind::Leave => said.leaver = left(alloc, message)?,
        Kind::Propose => said.proposal = proposed(alloc, message)?,
        _ => {}
    }
    Ok(said)
}

/// The member that a join adds; none where the message is no join, or isn't in the form of one.
#[tactic(auto, unfolding(fluid_types::specs::Quorum::member_of))]
fn joined(alloc: Global, message: &Message) -> Result<Option<Member>, NoMemory>
    ensures { IfOk result (λ member. member ≡ member_of message.now) }
{
    if message.kind != Kind::Join {
        return Ok(None);
    }
    let Some(value) = spelled_data(alloc, message)? else {
        return Ok(None);
    };
    let member = joining(alloc, message.number, value)?;
    Ok(member)
}

fn joining(alloc: Global, number: u64, value: Json) -> Result<Option<Member>, NoMemory>
    ensures { IfOk result (λ member. member ≡ joining number value) }
{
    let Some(id) = id_in(alloc, &value)? else {
        return Ok(None);
    };
    let Some(detail) = value.into_member(Field::Detail.name()) else {
        return Ok(None);
    };
    Ok(Some(Member { id, detail, number }))
}

// The name in the member `clientId`.
pub(crate) fn id_in(alloc: Global, value: &Json) -> Result<Option<ClientId>, NoMemory>
    ensures { IfOk result (λ id. id ≡ option_and_then as_name (find (name_of field.ClientId) value.now)) }
{
    let Some(id) = value.member(Field::ClientId.name()) else {
        return Ok(None);
    };
    named(alloc, id)
}

// The name that a value is.
pub(crate) fn named(alloc: Global, value: &Json) -> Result<Option<ClientId>, NoMemory>
    ensures { IfOk result (λ id. id ≡ as_name value.now) }
{
    let Some(text) = value.as_text() else {
        return Ok(None);
    };
    match ClientId::read(alloc, text) {
        Ok(id) => Ok(Some(id)),
        Err(NameFault::BadName) => Ok(None),
        Err(NameFault::NoMemory) => Err(NoMemory),
    }
}

/// The id of the client that leaves; none where the message is no leave, or isn't in the form of one.
#[tactic(auto, unfolding(fluid_types::specs::Quorum::left_by))]
fn left(alloc: Global, message: &Message) -> Result<Option<Text>, NoMemory>
    ensures { IfOk result (λ id. id ≡ left_by message.now) }
{
    if message.kind != Kind::Leave {
        return Ok(None);
    }
    let Some(value) = spelled_data(alloc, message)? else {
        return Ok(None);
    };
    Ok(value.into_text())
}

// The value that the data of a system message spells.
fn spelled_data(alloc: Global, message: &Message) -> Result<Option<Json>, NoMemory>
    ensures { IfOk result (λ value. value ≡ data_of message.now) }
{
    let Some(text) = &message.system else {
        return Ok(None);
    };
    match read(alloc, text.as_str()) {
        Ok(value) => Ok(Some(value)),
        Err(JsonFault::NoMemory) => Err(NoMemory),
        Err(_) => Ok(None),
    }
}

/// The proposal that a propose makes; none where the message is no propose, or isn't in the form of one.
#[tactic(auto, unfolding(fluid_types::specs::Quorum::proposal_of))]
fn proposed(alloc: Global, message: &Message) -> Result<Option<Proposal>, NoMemory>
    ensures { IfOk result (λ proposal. proposal ≡ proposal_of message.now) }
{
    if message.kind != Kind::Propose {
        return Ok(None);
    }
    let body = body(alloc, &message.contents)?;
    let proposal = proposing(alloc, message.number, body)?;
    Ok(proposal)
}

fn proposing(alloc: Global, number: u64, body: Json) -> Result<Option<Proposal>, NoMemory>
    ensures { IfOk result (λ proposal. proposal ≡ proposing number body) }
{
    let Some(key) = key_in(alloc, &body)? else {
        return Ok(None);
    };
    let Some(value) = body.into_member(Field::Value.name()) else {
        return Ok(None);
    };
    Ok(Some(Proposal { number, key, value }))
}

// The text in the member `key`.
pub(crate) fn key_in(alloc: Global, body: &Json) -> Result<Option<Text>, NoMemory>
    ensures { IfOk result (λ key. key ≡ option_and_then as_text (find (name_of field.Key) body.now)) }
{
    let Some(named) = body.member(Field::Key.name()) else {
        return Ok(None);
    };
    let Some(text) = named.as_text() else {
        return Ok(None);
    };
    let key = Text::copied(alloc, text)?;
    Ok(Some(key))
}
