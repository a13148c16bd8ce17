//! What the steps on a document write.
ghost use Rattle.std.specs.Prelude.{◌≡◌, ℕ, List, IfOk};
ghost use Rattle.fluid_types.specs.Ledger.{Ledger};
ghost use Rattle.fluid_voice.specs.declared.refusals.ConnectRefusal.TheVariants.{TooManyDocuments};
ghost use Rattle.fluid_transcript.specs.Lines as lines;
ghost use Rattle.fluid_desk.specs.Acting.{AreNumbers, IsLine, IsLeave, IsLeft, left_id, left_line};

use crate::stop::Stop;
use fluid_json::{NoMemory, Text};
use fluid_types::{DocName, Message, Raw};
use fluid_voice::ConnectRefusal;
use std::alloc::Global;

/// How many entries a document has, the last sequence number, and the minimum.
#[derive(Clone, Copy, Debug, PartialEq, Eq)]
pub(crate) struct Numbers {
    pub entries: u64,
    pub sequence: u64,
    pub minimum: u64,
}

/// A line that was made, or the want of memory for it.
pub fn line_or_stop(line: Result<Text, NoMemory>) -> Result<Text, Stop>
    ensures { (made : List ℕ) → IfOk line (λ text. text ≡ made) → IsLine made result }
{
    match line {
        Ok(text) => Ok(text),
        Err(NoMemory) => Err(Stop::NoMemory),
    }
}

pub(crate) fn count_line(alloc: Global, name: &DocName, numbers: Numbers) -> Result<Text, NoMemory>
    ensures { (l : Ledger) → AreNumbers numbers l → IfOk result (λ line. line ≡ lines.count_line name.now l) }
{
    let Numbers {
        entries,
        sequence,
        minimum,
    } = numbers;
    let name = name.as_str();
    let line = format!(in alloc; "{name} {entries} entries, number {sequence}, minimum {minimum}")?;
    Ok(Text::new(line))
}

pub(crate) fn restarted_line(
    alloc: Global,
    name: &DocName,
    checkpoint: u64,
    numbers: Numbers,
) -> Result<Text, NoMemory>
    ensures { (l : Ledger) → AreNumbers numbers l → IfOk result (λ line. line ≡ lines.restarted_line name.now checkpoint l) }
{
    let Numbers {
        entries,
        sequence,
        minimum,
    } = numbers;
    let name = name.as_str();
    let line = format!(in alloc;
        "{name} restarted from {checkpoint}: {entries} entries, number {sequence}, minimum {minimum}"
    )?;
    Ok(Text::new(line))
}

pub(crate) fn reopened_line(
    alloc: Global,
    name: &DocName,
    numbers: Numbers,
) -> Result<Text, NoMemory>
    ensures { (l : Ledger) → AreNumbers numbers l → IfOk result (λ line. line ≡ lines.reopened_line name.now l) }
{
    let Numbers {
        entries,
        sequence,
        minimum,
    } = numbers;
    let name = name.as_str();
    let line = format!(in alloc;
        "{name} reopened: {entries} entries, number {sequence}, minimum {minimum}"
    )?;
    Ok(Text::new(line))
}

pub(crate) fn no_checkpoint_line(
    alloc: Global,
    name: &DocName,
    checkpoint: u64,
    stored: u64,
) -> Result<Text, NoMemory>
    ensures { IfOk result (λ line. line ≡ lines.no_checkpoint_line name.now checkpoint stored) }
{
    let name = name.as_str();
    let line = format!(in alloc; "{name} no checkpoint {checkpoint} of {stored}")?;
    Ok(Text::new(line))
}

pub(crate) fn stored_line(
    alloc: Global,
    name: &DocName,
    checkpoint: u64,
    entries: u64,
) -> Result<Text, NoMemory>
    ensures { IfOk result (λ line. line ≡ lines.stored_line name.now checkpoint entries) }
{
    let name = name.as_str();
    let line = format!(in alloc; "{name} checkpoint {checkpoint} at {entries}")?;
    Ok(Text::new(line))
}

pub(crate) fn full_line(alloc: Global, name: &DocName) -> Result<Text, NoMemory>
    ensures { IfOk result (λ line. line ≡ lines.full_line name.now) }
{
    let name = name.as_str();
    let line = format!(in alloc; "{name} checkpoints full")?;
    Ok(Text::new(line))
}

pub(crate) fn large_line(alloc: Global, name: &DocName, bytes: u64) -> Result<Text, NoMemory>
    ensures { IfOk result (λ line. line ≡ lines.large_line name.now bytes) }
{
    let name = name.as_str();
    let line = format!(in alloc; "{name} checkpoint too large: {bytes} bytes")?;
    Ok(Text::new(line))
}

/// The line for the client that a sweep let leave, or for none.
pub(crate) fn swept_line(
    alloc: Global,
    name: &DocName,
    swept: &Option<(Raw, Message)>,
) -> Result<Text, NoMemory>
    requires { IsLeft swept.now }
    ensures { IfOk result (λ line. line ≡ left_line name.now swept.now) }
{
    match swept {
        None => nobody_line(alloc, name),
        Some((raw, _)) => leave_line(alloc, name, raw),
    }
}

fn nobody_line(alloc: Global, name: &DocName) -> Result<Text, NoMemory>
    ensures { IfOk result (λ line. line ≡ lines.nobody_swept_line name.now) }
{
    let name = name.as_str();
    let line = format!(in alloc; "{name} swept none")?;
    Ok(Text::new(line))
}

fn leave_line(alloc: Global, name: &DocName, raw: &Raw) -> Result<Text, NoMemory>
    requires { IsLeave raw.now }
    ensures { IfOk result (λ line. line ≡ lines.swept_line name.now (left_id raw.now)) }
{
    match raw {
        Raw::Leave { id, .. } => {
            let name = name.as_str();
            let id = id.as_str();
            let line = format!(in alloc; "{name} swept {id}")?;
            Ok(Text::new(line))
        }
        Raw::Join { .. } | Raw::Submit { .. } | Raw::Report { .. } => unreachable!(),
    }
}

/// Under this name a document is wanted, and as many are open as may be.
pub fn turned_away_line(alloc: Global, name: &DocName) -> Result<Text, NoMemory>
    ensures { IfOk result (λ line. line ≡ lines.turned_away_line name.now TooManyDocuments) }
{
    let name = name.as_str();
    let refusal = ConnectRefusal::TooManyDocuments;
    let code = refusal.code();
    let text = refusal.text();
    let line = format!(in alloc; "{name} refused {code}: {text}")?;
    Ok(Text::new(line))
}
