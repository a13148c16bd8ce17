// The replies to acts.
ghost use Rattle.std.specs.Prelude.{◌≡◌, ◌∷◌, [], Some, option_map, IfOk};
ghost use Rattle.fluid_types.specs.declared.nacks.NackRule.TheVariants.{Full};
ghost use Rattle.fluid_codec.specs.declared.replies.Reply.TheVariants.{Ops, Nacked};
ghost use Rattle.fluid_voice.specs.States.{document_name};
ghost use Rattle.fluid_voice.specs.Refusals.{front_nack};
ghost use Rattle.fluid_voice.specs.Replies.{verdict_replies, entry_replies, addressed, given_replies, is_front_nack, has_front_nack};

use crate::ends::ActEnd;
use crate::states::VoiceState;
use fluid_codec::Reply;
use fluid_json::NoMemory;
use fluid_types::{DocName, Messages, Nack, NackRule, Verdict};
use std::alloc::Global;
use std::marker::Model;

/// Replies in the order in which they are sent. Contracts see the list.
#[derive(Drop)]
pub struct Replies {
    vec: Vec<Reply>,
}

impl Model for Replies {
    ghost use Rattle.std.specs.Prelude.{List};
    ghost use Rattle.std.specs.Coded.{coded_list};
    ghost use Rattle.fluid_codec.specs.declared.replies.Reply.{Reply as AReply};
    ghost use Rattle.fluid_codec.specs.contracts.replies.Reply as replying;

    ghost Value = { List AReply };

    ghost coded = { coded_list replying.the_row.coded };

    ghost view = { λ r. r.vec.items };
}

impl Replies {
    /// Takes no memory.
    pub fn new(vec: Vec<Reply>) -> Replies
        ensures { result ≡ vec.items }
    {
        Replies { vec }
    }

    /// No replies.
    pub(crate) fn none(alloc: Global) -> Replies
        ensures { result ≡ [] }
    {
        Replies {
            vec: Vec::new(alloc),
        }
    }

    /// One reply alone.
    pub(crate) fn one(alloc: Global, reply: Reply) -> Result<Replies, NoMemory>
        ensures { IfOk result (λ replies. replies ≡ reply ∷ []) }
    {
        let mut vec = Vec::new(alloc);
        vec.push(reply)?;
        Ok(Replies { vec })
    }

    pub fn as_slice(&self) -> &[Reply]
        ensures { result.now ≡ self.now }
    {
        self.vec.as_slice()
    }

    /// Takes no memory.
    pub fn into_vec(self) -> Vec<Reply>
        ensures { result.items ≡ self }
    {
        let Replies { vec } = self;
        vec
    }
}

/// The name of the document to which it is connected.
fn document_name(alloc: Global, state: &VoiceState) -> Result<Option<DocName>, NoMemory>
    ensures { IfOk result (λ name. name ≡ document_name state.now) }
{
    match state {
        VoiceState::Fresh => Ok(None),
        VoiceState::Reading(name, _) => named(alloc, name),
        VoiceState::Writing(name, _, _) => named(alloc, name),
        VoiceState::Used => Ok(None),
    }
}

fn named(alloc: Global, name: &DocName) -> Result<Option<DocName>, NoMemory>
    ensures { IfOk result (λ copy. copy ≡ Some name.now) }
{
    let copy = name.copy(alloc)?;
    Ok(Some(copy))
}

/// A nack under the name of the connection's document.
fn nacked(alloc: Global, state: &VoiceState, nack: Nack) -> Result<Reply, NoMemory>
    ensures { IfOk result (λ reply. reply ≡ Nacked (document_name state.now) nack) }
{
    let name = document_name(alloc, state)?;
    Ok(Reply::Nacked { name, nack })
}

/// A nack of the front, which carries no submission.
pub fn front_nack(rule: NackRule) -> Nack
    ensures { result ≡ front_nack rule }
{
    Nack {
        rule,
        operation: None,
        minimum: -1,
    }
}

pub(crate) fn front_reply(
    alloc: Global,
    state: &VoiceState,
    rule: NackRule,
) -> Result<Reply, NoMemory>
    ensures { IfOk result (λ reply. reply ≡ Nacked (document_name state.now) (front_nack rule)) }
{
    nacked(alloc, state, front_nack(rule))
}

/// The most messages of one op event.
pub const MOST_IN_EVENT: u64 = 64;

/// An op event with these messages, of the document to which a connection is connected.
pub(crate) fn event(
    alloc: Global,
    state: &VoiceState,
    messages: Messages,
) -> Result<Option<Reply>, NoMemory>
    ensures { IfOk result (λ event. event ≡ option_map (λ name. Ops name messages) (document_name state.now)) }
{
    match document_name(alloc, state)? {
        Some(name) => Ok(Some(Reply::Ops { name, messages })),
        None => Ok(None),
    }
}

/// The replies to an entry that ended so.
pub(crate) fn entry_replies(
    alloc: Global,
    state: &VoiceState,
    end: ActEnd,
) -> Result<Replies, NoMemory>
    ensures { IfOk result (λ replies. replies ≡ entry_replies (document_name state.now) end) }
{
    match end {
        ActEnd::Entered(verdict) => verdict_replies(alloc, state, verdict),
        ActEnd::FullNow => full(alloc, state),
        ActEnd::Said => Ok(Replies::none(alloc)),
        ActEnd::Joined(_, _) => Ok(Replies::none(alloc)),
        ActEnd::Told(_) => Ok(Replies::none(alloc)),
        ActEnd::TooMany => Ok(Replies::none(alloc)),
        ActEnd::Given(_) => Ok(Replies::none(alloc)),
    }
}

fn full(alloc: Global, state: &VoiceState) -> Result<Replies, NoMemory>
    ensures { IfOk result (λ replies. replies ≡ Nacked (document_name state.now) (front_nack Full) ∷ []) }
{
    let reply = front_reply(alloc, state, NackRule::Full)?;
    Replies::one(alloc, reply)
}

fn verdict_replies(alloc: Global, state: &VoiceState, verdict: Verdict) -> Result<Replies, NoMemory>
    ensures { IfOk result (λ replies. replies ≡ verdict_replies (document_name state.now) verdict) }
{
    match verdict {
        Verdict::Nacked(nack) => {
            let reply = nacked(alloc, state, nack)?;
            Replies::one(alloc, reply)
        }
        Verdict::Sequenced(_) => Ok(Replies::none(alloc)),
        Verdict::Dropped => Ok(Replies::none(alloc)),
        Verdict::Absorbed => Ok(Replies::none(alloc)),
    }
}

/// The replies to a question that ended so.
pub(crate) fn given_replies(
    alloc: Global,
    state: &VoiceState,
    end: ActEnd,
) -> Result<Replies, NoMemory>
    ensures { IfOk result (λ replies. replies ≡ given_replies (document_name state.now) end) }
{
    match end {
        ActEnd::Given(reply) => {
            let reply = addressed(alloc, state, reply)?;
            Replies::one(alloc, reply)
        }
        ActEnd::Said => Ok(Replies::none(alloc)),
        ActEnd::Joined(_, _) => Ok(Replies::none(alloc)),
        ActEnd::Told(_) => Ok(Replies::none(alloc)),
        ActEnd::Entered(_) => Ok(Replies::none(alloc)),
        ActEnd::FullNow => Ok(Replies::none(alloc)),
        ActEnd::TooMany => Ok(Replies::none(alloc)),
    }
}

// A nack that was given is sent under the name of the connection's document.
fn addressed(alloc: Global, state: &VoiceState, reply: Reply) -> Result<Reply, NoMemory>
    ensures { IfOk result (λ sent. sent ≡ addressed (document_name state.now) reply) }
{
    match reply {
        Reply::Nacked { nack, .. } => nacked(alloc, state, nack),
        other => Ok(other),
    }
}

/// Whether it is a nack of the front, which carries no submission: the text that it answers wasn't read or wasn't allowed, or the
/// document is full.
pub fn is_front_nack(reply: &Reply) -> bool
    ensures { result ≡ is_front_nack reply.now }
{
    match reply {
        Reply::Nacked { nack, .. } => nack.operation.is_none(),
        _ => false,
    }
}

/// Whether one of them is such a nack.
pub fn has_front_nack(replies: &[Reply]) -> bool
    ensures { result ≡ has_front_nack replies.now }
{
    replies.iter().any(|reply| is_front_nack(reply))
}
