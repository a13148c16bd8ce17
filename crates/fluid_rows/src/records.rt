// Raw records, messages and the lines of verdicts.
use crate::words::text_of;
use fluid_codec::{print_message, print_raw, print_verdict, push_verdict, read_message, read_raw};
use fluid_json::{NoMemory, Text};
use fluid_types::{CodecFault, Message, Nack, NackRule, Raw, Submission, Verdict};
use std::alloc::Global;

// The record that a text is read as, copied and printed.
pub(crate) fn raw(alloc: Global, text: &str) -> Result<Text, NoMemory> {
    match read_raw(alloc, text) {
        Ok(raw) => raw_printed(alloc, &raw),
        Err(fault) => fault.text(alloc),
    }
}

fn raw_printed(alloc: Global, raw: &Raw) -> Result<Text, NoMemory> {
    let copy = raw.copy(alloc)?;
    print_raw(alloc, &copy)
}

// The message that a text is read as, copied and printed.
pub(crate) fn message(alloc: Global, text: &str) -> Result<Text, NoMemory> {
    match read_message(alloc, text) {
        Ok(message) => message_printed(alloc, &message),
        Err(fault) => fault.text(alloc),
    }
}

fn message_printed(alloc: Global, message: &Message) -> Result<Text, NoMemory> {
    let copy = message.copy(alloc)?;
    print_message(alloc, &copy)
}

// The line of a record that is dropped.
pub(crate) fn dropped(alloc: Global, text: &str) -> Result<Text, NoMemory> {
    match read_raw(alloc, text) {
        Ok(raw) => line(alloc, &raw, &Verdict::Dropped),
        Err(fault) => fault.text(alloc),
    }
}

// The line of a leave that is sequenced as this message.
pub(crate) fn sequenced(alloc: Global, text: &str) -> Result<Text, NoMemory> {
    match read_message(alloc, text) {
        Ok(message) => sequenced_line(alloc, message),
        Err(fault) => fault.text(alloc),
    }
}

fn sequenced_line(alloc: Global, message: Message) -> Result<Text, NoMemory> {
    let verdict = Verdict::Sequenced(message);
    match read_raw(alloc, r#"{"raw":"leave","clientId":"A","moment":9}"#) {
        Ok(raw) => line(alloc, &raw, &verdict),
        Err(fault) => fault.text(alloc),
    }
}

// The line of a submission that is nacked as below the minimum, which is 2.
pub(crate) fn nacked(alloc: Global, text: &str) -> Result<Text, NoMemory> {
    match read_raw(alloc, text) {
        Ok(raw) => nacked_line(alloc, &raw),
        Err(fault) => fault.text(alloc),
    }
}

fn nacked_line(alloc: Global, raw: &Raw) -> Result<Text, NoMemory> {
    match raw {
        Raw::Submit { submission, .. } => {
            let verdict = Verdict::Nacked(nack(alloc, NackRule::Below, submission, 2)?);
            line(alloc, raw, &verdict)
        }
        _ => Text::copied(alloc, "no submission"),
    }
}

fn nack(
    alloc: Global,
    rule: NackRule,
    submission: &Submission,
    minimum: i64,
) -> Result<Nack, NoMemory> {
    let operation = submission.copy(alloc)?;
    Ok(Nack {
        rule,
        operation: Some(operation),
        minimum,
    })
}

// The nack of the submission in a record; none where the text isn't one.
pub(crate) fn nack_of(
    alloc: Global,
    rule: NackRule,
    minimum: i64,
    text: &str,
) -> Result<Nack, CodecFault> {
    match read_raw(alloc, text)? {
        Raw::Submit { submission, .. } => Ok(nack(alloc, rule, &submission, minimum)?),
        _ => Ok(Nack {
            rule,
            operation: None,
            minimum,
        }),
    }
}

// The line of a verdict, which has to be the same where it is put behind others.
fn line(alloc: Global, raw: &Raw, verdict: &Verdict) -> Result<Text, NoMemory> {
    let copy = verdict.copy(alloc)?;
    let line = print_verdict(alloc, raw, &copy)?;
    let lines = behind(alloc, raw, &copy)?;
    match lines.as_slice().strip_prefix(b">") {
        Some(rest) if rest == line.as_str().as_bytes() => text_of(alloc, rest),
        _ => Text::copied(alloc, "two lines"),
    }
}

fn behind(alloc: Global, raw: &Raw, verdict: &Verdict) -> Result<Vec<u8>, NoMemory> {
    let mut lines = Vec::from_slice(alloc, b">")?;
    push_verdict(alloc, &mut lines, raw, verdict)?;
    Ok(lines)
}
