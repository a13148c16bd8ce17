ghost use Rattle.std.specs.Prelude.{◌≡◌, ◌++◌, Ok, Err, IfOk, OnOk};
ghost use Rattle.fluid_json.specs.Unless.{IsUnless};
ghost use Rattle.fluid_types.specs.Records.{raw_spelled, raw_record, join, leave, submit, report, submission};
ghost use Rattle.fluid_types.specs.Printed.{raw_rows, raw_printed};
ghost use Rattle.fluid_codec.specs.Rows.{rows_tokens};

use crate::forms::{
    Count, HeldScopes, Name, OneOf, Truth, Within, an_object, any, contents_and_metadata, present,
    required,
};
use crate::reading::read_value;
use crate::rows::{Members, Print, member, member_if_any, print_object, print_text};
use fluid_json::{Json, NoMemory, Printer, Text};
use fluid_types::{ClientId, CodecFault, Field, Offered, Raw, RawKind, Scopes, Submission, Word};
use std::alloc::Global;

/// Reads a raw record. `raw` is looked at first, the others in byte order of their names, and the first fault is answered.
pub fn read_raw(alloc: Global, text: &str) -> Result<Raw, CodecFault>
    ensures { IsUnless CodecFault.NoMemory result (raw_spelled text.now) }
{
    let value = read_value(alloc, text)?;
    let raw = raw_record(alloc, value)?;
    Ok(raw)
}

#[tactic(auto, unfolding(fluid_types::specs::Records::raw_record))]
fn raw_record(alloc: Global, value: Json) -> Result<Raw, CodecFault>
    ensures { IsUnless CodecFault.NoMemory result (raw_record value) }
{
    an_object(&value, Field::Raw)?;
    match required(alloc, &value, Field::Raw, OneOf(&RawKind::ALL))? {
        RawKind::Join => join(alloc, value),
        RawKind::Leave => leave(alloc, &value),
        RawKind::Submit => submit(alloc, value),
        RawKind::Report => report(alloc, &value),
    }
}

#[tactic(auto, unfolding(fluid_types::specs::Records::join))]
fn join(alloc: Global, value: Json) -> Result<Raw, CodecFault>
    ensures { IsUnless CodecFault.NoMemory result (join value) }
{
    let id = required(alloc, &value, Field::ClientId, Name)?;
    let moment = required(alloc, &value, Field::Moment, Count(0))?;
    let scopes = required(alloc, &value, Field::Scopes, HeldScopes)?;
    let detail = any(value, Field::Detail);
    Ok(Raw::Join {
        id,
        scopes,
        detail,
        moment,
    })
}

#[tactic(auto, unfolding(fluid_types::specs::Records::leave))]
fn leave(alloc: Global, value: &Json) -> Result<Raw, CodecFault>
    ensures { IsUnless CodecFault.NoMemory result (leave value.now) }
{
    let id = required(alloc, value, Field::ClientId, Name)?;
    let moment = required(alloc, value, Field::Moment, Count(0))?;
    Ok(Raw::Leave { id, moment })
}

#[tactic(auto, unfolding(fluid_types::specs::Records::submit))]
fn submit(alloc: Global, value: Json) -> Result<Raw, CodecFault>
    ensures { IsUnless CodecFault.NoMemory result (submit value) }
{
    let id = required(alloc, &value, Field::ClientId, Name)?;
    let moment = required(alloc, &value, Field::Moment, Count(0))?;
    let operation = present(value, Field::Operation)?;
    let submission = submission(alloc, operation, Field::Operation)?;
    Ok(Raw::Submit {
        id,
        submission,
        moment,
    })
}

#[tactic(auto, unfolding(fluid_types::specs::Records::report))]
fn report(alloc: Global, value: &Json) -> Result<Raw, CodecFault>
    ensures { IsUnless CodecFault.NoMemory result (report value.now) }
{
    let found = required(alloc, value, Field::Found, Truth)?;
    let moment = required(alloc, value, Field::Moment, Count(0))?;
    let summary = required(alloc, value, Field::Summary, Count(1))?;
    Ok(Raw::Report {
        summary,
        found,
        moment,
    })
}

/// Reads a document message.
#[tactic(auto, unfolding(fluid_types::specs::Records::submission))]
pub(crate) fn submission(alloc: Global, value: Json, field: Field) -> Result<Submission, CodecFault>
    ensures { IsUnless CodecFault.NoMemory result (submission field value) }
{
    an_object(&value, field)?;
    let client_number = required(alloc, &value, Field::ClientSequenceNumber, Count(0))?;
    let reference = required(alloc, &value, Field::ReferenceSequenceNumber, Within(-1))?;
    let kind = required(alloc, &value, Field::Type, OneOf(&Offered::ALL))?;
    let (contents, metadata) = contents_and_metadata(value);
    Ok(Submission {
        client_number,
        reference,
        kind,
        contents,
        metadata,
    })
}

// ---- printing

/// The text of a raw entry in a log.
pub fn print_raw(alloc: Global, raw: &Raw) -> Result<Text, NoMemory>
    ensures { IfOk result (λ s. s ≡ raw_printed raw.now) }
{
    print_text(alloc, raw)
}

impl Print for Raw {
    ghost use Rattle.fluid_types.specs.Printed.{raw_tree};

    ghost tree = { raw_tree };

    fn print(&self, alloc: Global, out: &mut Printer) -> Result<(), NoMemory> {
        print_object(alloc, out, self)
    }
}

impl Members for Raw {
    ghost use Rattle.fluid_types.specs.Printed.{raw_rows};

    ghost rows = { raw_rows };

    #[tactic(auto, unfolding(fluid_types::specs::Printed::raw_rows))]
    fn print_members(&self, alloc: Global, out: &mut Printer) -> Result<(), NoMemory> {
        match self {
            Raw::Join {
                id,
                scopes,
                detail,
                moment,
            } => print_join(alloc, out, id, scopes, detail, *moment),
            Raw::Leave { id, moment } => print_leave(alloc, out, id, *moment),
            Raw::Submit {
                id,
                submission,
                moment,
            } => print_submit(alloc, out, id, submission, *moment),
            Raw::Report {
                summary,
                found,
                moment,
            } => print_report(alloc, out, *summary, *found, *moment),
        }
    }
}

#[tactic(auto, unfolding(fluid_types::specs::Printed::raw_rows))]
fn print_join(
    alloc: Global,
    out: &mut Printer,
    id: &ClientId,
    scopes: &Scopes,
    detail: &Json,
    moment: u64,
) -> Result<(), NoMemory>
    ensures before { out.new.before ≡ out.old.before }
    ensures tokens { OnOk result (out.new.tokens ≡ out.old.tokens ++ rows_tokens (raw_rows (Raw.Join id.now scopes.now detail.now moment))) }
{
    member(alloc, out, Field::ClientId, id)?;
    member(alloc, out, Field::Detail, detail)?;
    member(alloc, out, Field::Moment, &moment)?;
    member(alloc, out, Field::Raw, &RawKind::Join.word())?;
    member(alloc, out, Field::Scopes, scopes)?;
    Ok(())
}

#[tactic(auto, unfolding(fluid_types::specs::Printed::raw_rows))]
fn print_leave(alloc: Global, out: &mut Printer, id: &ClientId, moment: u64) -> Result<(), NoMemory>
    ensures before { out.new.before ≡ out.old.before }
    ensures tokens { OnOk result (out.new.tokens ≡ out.old.tokens ++ rows_tokens (raw_rows (Raw.Leave id.now moment))) }
{
    member(alloc, out, Field::ClientId, id)?;
    member(alloc, out, Field::Moment, &moment)?;
    member(alloc, out, Field::Raw, &RawKind::Leave.word())?;
    Ok(())
}

#[tactic(auto, unfolding(fluid_types::specs::Printed::raw_rows))]
fn print_submit(
    alloc: Global,
    out: &mut Printer,
    id: &ClientId,
    submission: &Submission,
    moment: u64,
) -> Result<(), NoMemory>
    ensures before { out.new.before ≡ out.old.before }
    ensures tokens { OnOk result (out.new.tokens ≡ out.old.tokens ++ rows_tokens (raw_rows (Raw.Submit id.now submission.now moment))) }
{
    member(alloc, out, Field::ClientId, id)?;
    member(alloc, out, Field::Moment, &moment)?;
    member(alloc, out, Field::Operation, submission)?;
    member(alloc, out, Field::Raw, &RawKind::Submit.word())?;
    Ok(())
}

#[tactic(auto, unfolding(fluid_types::specs::Printed::raw_rows))]
fn print_report(
    alloc: Global,
    out: &mut Printer,
    summary: u64,
    found: bool,
    moment: u64,
) -> Result<(), NoMemory>
    ensures before { out.new.before ≡ out.old.before }
    ensures tokens { OnOk result (out.new.tokens ≡ out.old.tokens ++ rows_tokens (raw_rows (Raw.Report summary found moment))) }
{
    member(alloc, out, Field::Found, &found)?;
    member(alloc, out, Field::Moment, &moment)?;
    member(alloc, out, Field::Raw, &RawKind::Report.word())?;
    member(alloc, out, Field::Summary, &summary)?;
    Ok(())
}

impl Print for Submission {
    ghost use Rattle.fluid_types.specs.Printed.{submission_tree};

    ghost tree = { submission_tree };

    fn print(&self, alloc: Global, out: &mut Printer) -> Result<(), NoMemory> {
        print_object(alloc, out, self)
    }
}

impl Members for Submission {
    ghost use Rattle.fluid_types.specs.Printed.{submission_rows};

    ghost rows = { submission_rows };

    #[tactic(auto, unfolding(fluid_types::specs::Printed::submission_rows), using(crate::proofs::Objects::rows_tokens_append))]
    fn print_members(&self, alloc: Global, out: &mut Printer) -> Result<(), NoMemory> {
        member(alloc, out, Field::ClientSequenceNumber, &self.client_number)?;
        member(alloc, out, Field::Contents, &self.contents)?;
        member_if_any(alloc, out, Field::Metadata, &self.metadata)?;
        member(alloc, out, Field::ReferenceSequenceNumber, &self.reference)?;
        member(alloc, out, Field::Type, &self.kind.word())?;
        Ok(())
    }
}
