// The text of a checkpoint.
ghost use Rattle.std.specs.Prelude.{◌≡◌, ◌++◌, IfOk, OnOk, string_bytes};
ghost use Rattle.std.specs.FinMap.{entries};
ghost use Rattle.fluid_json.specs.Printed.{printed};
ghost use Rattle.fluid_types.specs.Blobs.{list_tree};
ghost use Rattle.fluid_types.specs.Printed.{count_tree};
ghost use Rattle.fluid_quorum.specs.Node.{AreTexts};
ghost use Rattle.fluid_quorum.specs.Reading.{text_in};
ghost use Rattle.fluid_checkpoint.specs.Text.{base_tree, client_tree, state_printed};
ghost use Rattle.fluid_checkpoint.specs.Laws.{IsWritten};
ghost use Rattle.fluid_checkpoint.specs.Written.{content, first_part, middle_part, last_part};

use crate::heard::rows_of;
use crate::items::{Ack, Change, Client, Moment};
use crate::state::State;
use crate::texts::{Kept, list_text};
use crate::version::Version;
use fluid_clients::Clients;
use fluid_json::{Bytes, NoMemory, Printer, Text};
use fluid_quorum::{Quorum, text_in};
use fluid_tree::Node;
use fluid_types::QuorumBlob;
use std::alloc::Global;

/// The text of a state, in version 2.
pub fn print(alloc: Global, state: &State) -> Result<Bytes, NoMemory>
    ensures text { IfOk result (λ bytes. bytes ≡ state_printed state.now) }
    ensures written { IfOk result (λ _. IsWritten state.now) }
{
    let mut out = String::new(alloc);
    put_first(alloc, &mut out, state)?;
    put_middle(alloc, &mut out, state)?;
    put_last(alloc, &mut out, state)?;
    Ok(Bytes::new(out.into_bytes()))
}

// The members before the numbers.
fn put_first(alloc: Global, out: &mut String, state: &State) -> Result<(), NoMemory>
    ensures part { OnOk result (string_bytes out.new ≡ string_bytes out.old ++ first_part state.now) }
    ensures blobs { OnOk result (AreTexts state.now.scribe.base) }
{
    let acks = list_text(alloc, &Ack, state.scribe.acks.as_slice())?;
    put(out, "{\"acks\":", &acks)?;
    let base = base_text(alloc, &state.scribe.base)?;
    put(out, ",\"base\":", &base)?;
    let behind = list_text(alloc, &Kept, state.scribe.behind.as_slice())?;
    put(out, ",\"behind\":", &behind)?;
    let clients = clients_text(alloc, &state.sequencer.clients)?;
    put(out, ",\"clients\":", &clients)?;
    Ok(())
}

// Those from the numbers to the changes of the minimum.
fn put_middle(alloc: Global, out: &mut String, state: &State) -> Result<(), NoMemory>
    ensures { OnOk result (string_bytes out.new ≡ string_bytes out.old ++ middle_part state.now) }
{
    let counted = count_text(alloc, state.counted)?;
    put(out, ",\"counted\":", &counted)?;
    let entered = count_text(alloc, state.entered)?;
    put(out, ",\"entered\":", &entered)?;
    let heard = list_text(alloc, &Moment, state.heard.as_slice())?;
    put(out, ",\"heard\":", &heard)?;
    let minima = list_text(alloc, &Change, state.scribe.minima.as_slice())?;
    put(out, ",\"minima\":", &minima)?;
    Ok(())
}

// And those behind them.
fn put_last(alloc: Global, out: &mut String, state: &State) -> Result<(), NoMemory>
    ensures { OnOk result (string_bytes out.new ≡ string_bytes out.old ++ last_part state.now) }
{
    let minimum = count_text(alloc, state.sequencer.minimum)?;
    put(out, ",\"minimum\":", &minimum)?;
    let pending = list_text(alloc, &Kept, state.scribe.pending.as_slice())?;
    put(out, ",\"pending\":", &pending)?;
    let sequence = count_text(alloc, state.sequencer.sequence)?;
    put(out, ",\"sequence\":", &sequence)?;
    let version = count_text(alloc, Version::Two.number())?;
    put(out, ",\"version\":", &version)?;
    out.push_str("}")?;
    Ok(())
}

// What stands before a value, and the text of the value.
fn put(out: &mut String, before: &str, value: &Text) -> Result<(), NoMemory>
    ensures { OnOk result (string_bytes out.new ≡ string_bytes out.old ++ (before.now ++ value.now)) }
{
    out.push_str(before)?;
    out.push_str(value.as_str())?;
    Ok(())
}

fn count_text(alloc: Global, number: u64) -> Result<Text, NoMemory>
    ensures { IfOk result (λ s. s ≡ printed (count_tree number)) }
{
    let mut out = Printer::new(alloc);
    out.count(number)?;
    Ok(out.into_text())
}

fn clients_text(alloc: Global, clients: &Clients) -> Result<Text, NoMemory>
    ensures { IfOk result (λ s. s ≡ printed (list_tree client_tree (entries clients.now.rows))) }
{
    let rows = rows_of(alloc, clients)?;
    list_text(alloc, &Client, &rows)
}

fn base_text(alloc: Global, base: &Quorum) -> Result<Text, NoMemory>
    ensures text { IfOk result (λ s. s ≡ printed (base_tree base.now)) }
    ensures blobs { IfOk result (λ _. AreTexts base.now) }
{
    let blobs = base.to_blobs(alloc)?;
    let mut out = String::new(alloc);
    put_blob(&mut out, "{\"attributes\":", &blobs, QuorumBlob::Attributes)?;
    put_blob(&mut out, ",\"quorumMembers\":", &blobs, QuorumBlob::Members)?;
    put_blob(
        &mut out,
        ",\"quorumProposals\":",
        &blobs,
        QuorumBlob::Proposals,
    )?;
    put_blob(&mut out, ",\"quorumValues\":", &blobs, QuorumBlob::Values)?;
    out.push_str("}")?;
    Ok(Text::new(out))
}

fn put_blob(out: &mut String, before: &str, blobs: &Node, blob: QuorumBlob) -> Result<(), NoMemory>
    ensures { OnOk result (string_bytes out.new ≡ string_bytes out.old ++ (before.now ++ content blobs.now blob)) }
{
    out.push_str(before)?;
    out.push_str(content(blobs, blob))?;
    Ok(())
}

// The text of a blob.
fn content(blobs: &Node, blob: QuorumBlob) -> &str
    ensures { result.now ≡ content blobs.now blob }
{
    text_in(blobs, blob).unwrap_or("")
}
