//! What the steps on roamers write, beside what those on containers write too.
ghost use Rattle.std.specs.Prelude.{◌≡◌, IfOk};
ghost use Rattle.fluid_transcript.specs.Lines as lines;

use fluid_json::{NoMemory, Text};
use fluid_steps::ScriptName;
use fluid_types::{ClientId, DocName};
use std::alloc::Global;

pub(crate) fn roams_line(
    alloc: Global,
    name: &ScriptName,
    document: &DocName,
    client: &ClientId,
    number: u64,
) -> Result<Text, NoMemory>
    ensures { IfOk result (λ line. line ≡ lines.roams_line name.now document.now client.now number) }
{
    let name = name.as_str();
    let document = document.as_str();
    let client = client.as_str();
    let line = format!(in alloc; "{name} roams {document} as {client} at {number}")?;
    Ok(Text::new(line))
}

pub(crate) fn said_line(alloc: Global, name: &ScriptName, edit: u64) -> Result<Text, NoMemory>
    ensures { IfOk result (λ line. line ≡ lines.said_line name.now edit) }
{
    let name = name.as_str();
    let line = format!(in alloc; "{name} said {edit}")?;
    Ok(Text::new(line))
}

pub(crate) fn lost_line(alloc: Global, name: &ScriptName) -> Result<Text, NoMemory>
    ensures { IfOk result (λ line. line ≡ lines.lost_line name.now) }
{
    let name = name.as_str();
    let line = format!(in alloc; "{name} lost")?;
    Ok(Text::new(line))
}

pub(crate) fn back_line(
    alloc: Global,
    name: &ScriptName,
    client: &ClientId,
    number: u64,
) -> Result<Text, NoMemory>
    ensures { IfOk result (λ line. line ≡ lines.back_line name.now client.now number) }
{
    let name = name.as_str();
    let client = client.as_str();
    let line = format!(in alloc; "{name} back as {client} at {number}")?;
    Ok(Text::new(line))
}

pub(crate) fn acked_line(
    alloc: Global,
    name: &ScriptName,
    stood: u64,
    edits: u64,
) -> Result<Text, NoMemory>
    ensures { IfOk result (λ line. line ≡ lines.acked_line name.now stood edits) }
{
    let name = name.as_str();
    let line = format!(in alloc; "{name} acked {stood} of {edits}")?;
    Ok(Text::new(line))
}
