// What one message says of a summary.
ghost use Rattle.std.specs.Prelude.{◌≡◌, IfOk};
ghost use Rattle.fluid_scribe.specs.State.{ack_in};
ghost use Rattle.fluid_scribe.specs.Scribing.{kept_of, is_kept};
ghost use Rattle.fluid_rules.specs.Scribe.{is_answer, handling, proposing, proposed_by, reference_of, naming, answered_by};

use crate::waiting::Waiting;
use fluid_json::{Json, NoMemory, Text};
use fluid_rules::Proposed;
use fluid_tree::{Id, SummaryRef};
use fluid_types::{Field, Kind, Message, body};
use std::alloc::Global;

/// The summary for which a summarize asks; none where its contents are malformed.
#[tactic(auto, unfolding(fluid_rules::specs::Scribe::proposed_by))]
pub(crate) fn proposed_by(alloc: Global, message: &Message) -> Result<Option<Proposed>, NoMemory>
    ensures { IfOk result (λ proposed. proposed ≡ proposed_by message.now) }
{
    let body = body(alloc, &message.contents)?;
    let proposed = proposing(alloc, &body)?;
    Ok(proposed)
}

fn proposing(alloc: Global, body: &Json) -> Result<Option<Proposed>, NoMemory>
    ensures { IfOk result (λ proposed. proposed ≡ proposing body.now) }
{
    let Some(app) = handling(body) else {
        return Ok(None);
    };
    let Some(last) = body.member(Field::Head.name()) else {
        return Ok(None);
    };
    let Some(head) = last.as_text() else {
        return Ok(None);
    };
    let head = Text::copied(alloc, head)?;
    Ok(Some(Proposed { app, head }))
}

/// The member `handle`, of 40 lower-case hexadecimal digits.
pub(crate) fn handling(value: &Json) -> Option<Id>
    ensures { result ≡ handling value.now }
{
    let handle = value.member(Field::Handle.name())?;
    let digits = handle.as_text()?;
    Id::read(digits)
}

/// The reference of a message.
pub(crate) fn reference_of(message: &Message) -> u64
    ensures { result ≡ reference_of message.now }
{
    u64::try_from(message.reference).unwrap_or(0)
}

/// The number of the summarize that a message answers; none where it is no answer.
#[tactic(auto, unfolding(fluid_rules::specs::Scribe::answered_by))]
pub(crate) fn answered_by(message: &Message) -> Option<u64>
    ensures { result ≡ answered_by message.now }
{
    if !is_answer(message.kind) {
        return None;
    }
    naming(&message.contents)
}

fn is_answer(kind: Kind) -> bool
    ensures { result ≡ is_answer kind }
{
    matches!(kind, Kind::SummaryAck | Kind::SummaryNack)
}

fn naming(contents: &Json) -> Option<u64>
    ensures { result ≡ naming contents.now }
{
    let proposal = contents.member(Field::SummaryProposal.name())?;
    let number = proposal.member(Field::SummarySequenceNumber.name())?;
    let number = number.as_whole()?;
    u64::try_from(number).ok()
}

/// The acknowledgement that a message makes, where these wait.
pub(crate) fn ack_of(waiting: &Waiting, message: &Message) -> Option<SummaryRef>
    ensures { result ≡ ack_in waiting.now.messages message.now }
{
    if message.kind != Kind::SummaryAck {
        return None;
    }
    let handle = handling(&message.contents)?;
    let number = answered_by(message)?;
    let summarize = waiting.numbered(number)?;
    Some(SummaryRef {
        handle,
        number: reference_of(summarize),
    })
}

/// A message once more, where it is a summarize or a quorum hears it.
pub(crate) fn kept_of(alloc: Global, message: &Message) -> Result<Option<Message>, NoMemory>
    ensures { IfOk result (λ kept. kept ≡ kept_of message.now) }
{
    if !is_kept(message.kind) {
        return Ok(None);
    }
    let copy = message.copy(alloc)?;
    Ok(Some(copy))
}

fn is_kept(kind: Kind) -> bool
    ensures { result ≡ is_kept kind }
{
    matches!(
        kind,
        Kind::Join | Kind::Leave | Kind::Propose | Kind::Summarize
    )
}
