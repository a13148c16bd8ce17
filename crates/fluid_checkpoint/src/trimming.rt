// The values of a quorum's blobs, without members that they haven't.
ghost use Rattle.std.specs.Prelude.{◌≡◌, ◌++◌, IfOk, OnOk};
ghost use Rattle.fluid_json.specs.Tree.{as_trees, list, object, members, trees, find};
ghost use Rattle.fluid_json.specs.Tokens.{tokens_of};
ghost use Rattle.fluid_json.specs.Printed.{printed};
ghost use Rattle.fluid_types.specs.Printed.{row_if_any};
ghost use Rattle.fluid_types.specs.Texts.{name_of};
ghost use Rattle.fluid_codec.specs.Rows.{rows_tokens};
ghost use Rattle.fluid_checkpoint.specs.Reading.{fields_of, those, trimmed, each_trimmed, items_trimmed, own};

use fluid_json::{Json, NoMemory, Printer, Text};
use fluid_types::{Field, QuorumBlob};
use std::alloc::Global;

const ATTRIBUTES: [Field; 2] = [Field::MinimumSequenceNumber, Field::SequenceNumber];

const MEMBERS: [Field; 3] = [Field::ClientId, Field::Detail, Field::SequenceNumber];

const PROPOSALS: [Field; 3] = [Field::Key, Field::SequenceNumber, Field::Value];

const VALUES: [Field; 4] = [
    Field::ApprovalSequenceNumber,
    Field::Key,
    Field::SequenceNumber,
    Field::Value,
];

/// The text of the value of a blob, without members that it hasn't.
pub(crate) fn own_text(alloc: Global, value: &Json, blob: QuorumBlob) -> Result<Text, NoMemory>
    ensures { IfOk result (λ s. s ≡ printed (own blob value.now)) }
{
    let mut out = Printer::new(alloc);
    put_own(&mut out, value, blob)?;
    Ok(out.into_text())
}

fn put_own(out: &mut Printer, value: &Json, blob: QuorumBlob) -> Result<(), NoMemory>
    ensures before { out.new.before ≡ out.old.before }
    ensures tokens { OnOk result (out.new.tokens ≡ out.old.tokens ++ tokens_of (own blob value.now)) }
{
    match blob {
        QuorumBlob::Attributes => put_trimmed(out, value, &ATTRIBUTES),
        QuorumBlob::Members => put_items(out, value, &MEMBERS),
        QuorumBlob::Proposals => put_items(out, value, &PROPOSALS),
        QuorumBlob::Values => put_items(out, value, &VALUES),
    }
}

// A list with each item trimmed; another value as it is.
fn put_items(out: &mut Printer, value: &Json, fields: &[Field]) -> Result<(), NoMemory>
    ensures before { out.new.before ≡ out.old.before }
    ensures tokens { OnOk result (out.new.tokens ≡ out.old.tokens ++ tokens_of (items_trimmed fields.now (as_trees value.now) value.now)) }
{
    match value.as_list() {
        Some(items) => put_each(out, items, fields),
        None => out.value(value),
    }
}

fn put_each(out: &mut Printer, items: &[Json], fields: &[Field]) -> Result<(), NoMemory>
    ensures before { out.new.before ≡ out.old.before }
    ensures tokens { OnOk result (out.new.tokens ≡ out.old.tokens ++ tokens_of (list (each_trimmed fields.now (trees items.now)))) }
{
    out.begin_list()?;
    for item in items {
        put_trimmed(out, item, fields)?;
    }
    out.end_list()?;
    Ok(())
}

// An object without its other members; another value as it is.
fn put_trimmed(out: &mut Printer, value: &Json, fields: &[Field]) -> Result<(), NoMemory>
    ensures before { out.new.before ≡ out.old.before }
    ensures tokens { OnOk result (out.new.tokens ≡ out.old.tokens ++ tokens_of (trimmed fields.now value.now)) }
{
    if value.as_pairs().is_none() {
        return out.value(value);
    }
    put_object(out, value, fields)
}

#[tactic(auto, using(fluid_codec::proofs::Objects::object_behind))]
fn put_object(out: &mut Printer, value: &Json, fields: &[Field]) -> Result<(), NoMemory>
    ensures before { out.new.before ≡ out.old.before }
    ensures tokens { OnOk result (out.new.tokens ≡ out.old.tokens ++ tokens_of (object (members (those fields.now value.now)))) }
{
    out.begin_object()?;
    put_those(out, value, fields)?;
    out.end_object()?;
    Ok(())
}

fn put_those(out: &mut Printer, value: &Json, fields: &[Field]) -> Result<(), NoMemory>
    ensures before { out.new.before ≡ out.old.before }
    ensures tokens { OnOk result (out.new.tokens ≡ out.old.tokens ++ rows_tokens (those fields.now value.now)) }
{
    for field in fields {
        put_member(out, value, *field)?;
    }
    Ok(())
}

#[tactic(auto, unfolding(fluid_codec::specs::Rows::row_tokens))]
fn put_member(out: &mut Printer, value: &Json, field: Field) -> Result<(), NoMemory>
    ensures before { out.new.before ≡ out.old.before }
    ensures tokens { OnOk result (out.new.tokens ≡ out.old.tokens ++ rows_tokens (row_if_any field (find (name_of field) value.now))) }
{
    match value.member(field.name()) {
        Some(found) => {
            out.key(field.name())?;
            out.value(found)?;
            Ok(())
        }
        None => Ok(()),
    }
}
