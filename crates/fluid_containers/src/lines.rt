//! What the steps on containers write.
ghost use Rattle.std.specs.Prelude.{◌≡◌, ◌++◌, codes, IfOk};
ghost use Rattle.hex.specs.Hex.{encode_lower};
ghost use Rattle.fluid_transcript.specs.Lines as lines;

use fluid_json::{Json, NoMemory, Text, print};
use fluid_runtime::EditFault;
use fluid_steps::ScriptName;
use fluid_tree::Id;
use fluid_types::{DocName, NackRule};
use fluid_voice::ConnectRefusal;
use std::alloc::Global;

/// The container of this name is at this number.
pub(crate) fn at_line(alloc: Global, name: &ScriptName, number: u64) -> Result<Text, NoMemory>
    ensures { IfOk result (λ line. line ≡ lines.pumped_line name.now number) }
{
    let name = name.as_str();
    let line = format!(in alloc; "{name} at {number}")?;
    Ok(Text::new(line))
}

pub(crate) fn loaded_line(
    alloc: Global,
    name: &ScriptName,
    document: &DocName,
    number: u64,
) -> Result<Text, NoMemory>
    ensures { IfOk result (λ line. line ≡ lines.loaded_line name.now document.now number) }
{
    let name = name.as_str();
    let document = document.as_str();
    let line = format!(in alloc; "{name} loaded {document} at {number}")?;
    Ok(Text::new(line))
}

pub(crate) fn no_summary_line(alloc: Global, name: &str) -> Result<Text, NoMemory>
    ensures { IfOk result (λ line. line ≡ lines.no_summary_line name.now) }
{
    let line = format!(in alloc; "{name} no summary")?;
    Ok(Text::new(line))
}

pub(crate) fn bad_summary_line(alloc: Global, name: &str, path: &str) -> Result<Text, NoMemory>
    ensures { IfOk result (λ line. line ≡ lines.bad_summary_line name.now path.now) }
{
    let line = format!(in alloc; "{name} bad summary {path}")?;
    Ok(Text::new(line))
}

pub(crate) fn edited_line(alloc: Global, name: &ScriptName) -> Result<Text, NoMemory>
    ensures { IfOk result (λ line. line ≡ lines.edited_line name.now) }
{
    let name = name.as_str();
    let line = format!(in alloc; "{name} edited")?;
    Ok(Text::new(line))
}

/// An edit is refused for this fault.
pub fn edit_fault_line(alloc: Global, name: &ScriptName, fault: EditFault) -> Result<Text, NoMemory>
    ensures { IfOk result (λ line. line ≡ lines.edit_fault_line name.now fault) }
{
    let name = name.as_str();
    let fault = fault_name(fault);
    let line = format!(in alloc; "{name} edit fault {fault}")?;
    Ok(Text::new(line))
}

fn fault_name(fault: EditFault) -> &'static str
    ensures { result.now ≡ lines.fault_name fault }
{
    match fault {
        EditFault::NoChannel => "NoChannel",
        EditFault::WrongKind => "WrongKind",
        EditFault::OutOfRange => "OutOfRange",
        EditFault::Exists => "Exists",
        EditFault::NoMemory => "NoMemory",
    }
}

pub(crate) fn beat_line(alloc: Global, name: &ScriptName, number: u64) -> Result<Text, NoMemory>
    ensures { IfOk result (λ line. line ≡ lines.beat_line name.now number) }
{
    let name = name.as_str();
    let line = format!(in alloc; "{name} beats at {number}")?;
    Ok(Text::new(line))
}

pub(crate) fn summarized_line(
    alloc: Global,
    name: &ScriptName,
    number: u64,
) -> Result<Text, NoMemory>
    ensures { IfOk result (λ line. line ≡ lines.summarized_line name.now number) }
{
    let name = name.as_str();
    let line = format!(in alloc; "{name} summarized at {number}")?;
    Ok(Text::new(line))
}

/// What the container or the roamer of this name shows.
pub fn shown_line(alloc: Global, name: &str, number: u64, shown: &Json) -> Result<Text, NoMemory>
    ensures { IfOk result (λ line. line ≡ lines.shown_line name.now number shown.now) }
{
    let shown = print(alloc, shown)?;
    let shown = shown.as_str();
    let line = format!(in alloc; "{name} at {number}: {shown}")?;
    Ok(Text::new(line))
}

pub(crate) fn clash_line(alloc: Global, name: &ScriptName, id: &Id) -> Result<Text, NoMemory>
    ensures { IfOk result (λ line. line ≡ lines.clash_line name.now id.now) }
{
    let digits = id.print(alloc)?;
    let digits = digits.as_str();
    let name = name.as_str();
    let line = format!(in alloc; "{name} clash {digits}")?;
    Ok(Text::new(line))
}

/// A submission is refused by this rule.
pub fn refused_line(alloc: Global, name: &ScriptName, rule: &NackRule) -> Result<Text, NoMemory>
    ensures { IfOk result (λ line. line ≡ lines.refused_line name.now rule.now) }
{
    let code = rule.code();
    let text = rule.text(alloc)?;
    let text = text.as_str();
    let name = name.as_str();
    let line = format!(in alloc; "{name} refused {code}: {text}")?;
    Ok(Text::new(line))
}

/// A join is refused for this reason, or a document isn't opened for it.
pub fn turned_away_line(
    alloc: Global,
    name: &str,
    refusal: ConnectRefusal,
) -> Result<Text, NoMemory>
    ensures { IfOk result (λ line. line ≡ lines.turned_away_line name.now refusal) }
{
    let code = refusal.code();
    let text = refusal.text();
    let line = format!(in alloc; "{name} refused {code}: {text}")?;
    Ok(Text::new(line))
}
