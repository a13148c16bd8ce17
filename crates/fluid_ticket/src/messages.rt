// The messages of sequenced entries, but for their numbers and their minimum.
ghost use Rattle.std.specs.Prelude.{◌≡◌, ◌<◌, ◌^◌, IfOk, pos, Some, if◌then◌else◌};
ghost use Rattle.fluid_json.specs.Tree.{text};
ghost use Rattle.fluid_json.specs.Printed.{printed};
ghost use Rattle.fluid_rules.specs.Rules.{kind_of, join_data, leaves_reference, system_message, answer_message, submission_message};
ghost use Rattle.fluid_ticket.specs.State.{given_or};

use fluid_json::{Json, NoMemory, Printer, Text};
use fluid_types::{ClientId, Field, Kind, Message, Nack, NackRule, Offered, Submission};
use std::alloc::Global;

// A message that no client sent.
pub(crate) fn system_message(
    kind: Kind,
    number: u64,
    minimum: u64,
    system: Text,
    moment: u64,
) -> Message
    ensures { result ≡ record (system_message kind number (Some system) moment) { minimum = minimum } }
{
    Message {
        client: None,
        client_number: -1,
        reference: -1,
        number,
        minimum,
        kind,
        contents: Json::null(),
        system: Some(system),
        metadata: None,
        moment,
    }
}

// The message of a report that is answered.
pub(crate) fn answer_message(
    kind: Kind,
    number: u64,
    minimum: u64,
    contents: Json,
    moment: u64,
) -> Message
    ensures { result ≡ record (answer_message number moment (kind, contents)) { minimum = minimum } }
{
    Message {
        client: None,
        client_number: -1,
        reference: -1,
        number,
        minimum,
        kind,
        contents,
        system: None,
        metadata: None,
        moment,
    }
}

// What a join says to the clients.
pub(crate) fn join_data(alloc: Global, id: &ClientId, detail: &Json) -> Result<Text, NoMemory>
    ensures { IfOk result (λ text. text ≡ printed (join_data id.now detail.now)) }
{
    let mut out = Printer::new(alloc);
    out.begin_object()?;
    out.key(Field::ClientId.name())?;
    out.text(id.as_str())?;
    out.key(Field::Detail.name())?;
    out.value(detail)?;
    out.end_object()?;
    Ok(out.into_text())
}

// What a leave says to the clients.
pub(crate) fn leave_data(alloc: Global, id: &ClientId) -> Result<Text, NoMemory>
    ensures { IfOk result (λ printing. printing ≡ printed (text id.now)) }
{
    let mut out = Printer::new(alloc);
    out.text(id.as_str())?;
    Ok(out.into_text())
}

// The message of a submission that is sequenced.
pub(crate) fn submitted(
    alloc: Global,
    id: &ClientId,
    submission: &Submission,
    number: u64,
    minimum: u64,
    moment: u64,
) -> Result<Message, NoMemory>
    requires counted { submission.now.client_number < 2 ^ 63 }
    requires numbered { number < 2 ^ 63 }
    ensures { IfOk result (λ message.
        message ≡ record (submission_message number id.now submission.now moment) { minimum = minimum }) }
{
    let client = id.copy(alloc)?;
    let contents = submission.contents.copy(alloc)?;
    let metadata = copy_given(alloc, &submission.metadata)?;
    Ok(Message {
        client: Some(client),
        client_number: signed(submission.client_number),
        reference: seen(submission.reference, number),
        number,
        minimum,
        kind: kind_of(submission.kind),
        contents,
        system: None,
        metadata,
        moment,
    })
}

// A nack that carries the submission and the minimum.
pub(crate) fn nack(rule: NackRule, submission: Submission, minimum: u64) -> Nack
    requires { minimum < 2 ^ 63 }
    ensures { result ≡ record { rule = rule; operation = Some submission; minimum = pos minimum } }
{
    Nack {
        rule,
        operation: Some(submission),
        minimum: signed(minimum),
    }
}

// The reference in the message: -1 leaves it to the service, which takes the message's own number.
fn seen(reference: i64, number: u64) -> i64
    requires { number < 2 ^ 63 }
    ensures { result ≡ (if leaves_reference reference then pos number else reference) }
{
    if reference == -1 {
        return signed(number);
    }
    reference
}

fn copy_given(alloc: Global, value: &Option<Json>) -> Result<Option<Json>, NoMemory>
    ensures { IfOk result (λ copy. copy ≡ value.now) }
{
    match value {
        Some(value) => {
            let value = value.copy(alloc)?;
            Ok(Some(value))
        }
        None => Ok(None),
    }
}

fn kind_of(offered: Offered) -> Kind
    ensures { result ≡ kind_of offered }
{
    match offered {
        Offered::Op => Kind::Op,
        Offered::Noop => Kind::Noop,
        Offered::Propose => Kind::Propose,
        Offered::Reject => Kind::Reject,
        Offered::Summarize => Kind::Summarize,
    }
}

// A number of the order as a signed one.
fn signed(number: u64) -> i64
    requires { number < 2 ^ 63 }
    ensures { result ≡ pos number }
{
    number as i64
}

// A reference, or another number where it is negative.
pub(crate) fn given_or(reference: i64, number: u64) -> u64
    ensures { result ≡ given_or number reference }
{
    u64::try_from(reference).unwrap_or(number)
}
