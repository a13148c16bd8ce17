ghost use Rattle.std.specs.Prelude.{◌≡◌, ◌++◌, Ok, Err, IfOk, OnOk};
ghost use Rattle.fluid_json.specs.Unless.{IsUnless};
ghost use Rattle.fluid_types.specs.Messages.{message_spelled, message};
ghost use Rattle.fluid_types.specs.Printed.{message_printed};
ghost use Rattle.fluid_types.specs.declared.fault.Field.TheVariants as field;
ghost use Rattle.fluid_codec.specs.Rows.{rows_tokens};
ghost use Rattle.fluid_codec.specs.Parts.{first_rows, last_rows};

use crate::forms::{
    AText, Count, NameOrNull, OneOf, Within, an_object, contents_and_metadata, optional, required,
};
use crate::reading::read_value;
use crate::rows::{Members, Print, member, member_if_any, print_object, print_text};
use fluid_json::{Json, NoMemory, Printer, Text};
use fluid_types::{CodecFault, Field, Kind, Message, Word};
use std::alloc::Global;

/// Reads a sequenced message. Members are looked at in byte order of their names, and the first fault is answered.
pub fn read_message(alloc: Global, text: &str) -> Result<Message, CodecFault>
    ensures { IsUnless CodecFault.NoMemory result (message_spelled text.now) }
{
    let value = read_value(alloc, text)?;
    let message = message_of(alloc, value)?;
    Ok(message)
}

/// The message that a value is, however deep the value.
pub fn message_of(alloc: Global, value: Json) -> Result<Message, CodecFault>
    ensures { IsUnless CodecFault.NoMemory result (message field.Message value) }
{
    message(alloc, value, Field::Message)
}

#[tactic(auto, unfolding(fluid_types::specs::Messages::message))]
fn message(alloc: Global, value: Json, field: Field) -> Result<Message, CodecFault>
    ensures { IsUnless CodecFault.NoMemory result (message field value) }
{
    an_object(&value, field)?;
    let client = required(alloc, &value, Field::ClientId, NameOrNull)?;
    let client_number = required(alloc, &value, Field::ClientSequenceNumber, Within(-1))?;
    let system = optional(alloc, &value, Field::Data, AText)?;
    let minimum = required(alloc, &value, Field::MinimumSequenceNumber, Count(0))?;
    let reference = required(alloc, &value, Field::ReferenceSequenceNumber, Within(-1))?;
    let number = required(alloc, &value, Field::SequenceNumber, Count(0))?;
    let moment = required(alloc, &value, Field::Timestamp, Count(0))?;
    let kind = required(alloc, &value, Field::Type, OneOf(&Kind::ALL))?;
    let (contents, metadata) = contents_and_metadata(value);
    Ok(Message {
        client,
        client_number,
        reference,
        number,
        minimum,
        kind,
        contents,
        system,
        metadata,
        moment,
    })
}

// ---- printing

/// The text of a sequenced message.
pub fn print_message(alloc: Global, message: &Message) -> Result<Text, NoMemory>
    ensures { IfOk result (λ s. s ≡ message_printed message.now) }
{
    print_text(alloc, message)
}

impl Print for Message {
    ghost use Rattle.fluid_types.specs.Printed.{message_tree};

    ghost tree = { message_tree };

    fn print(&self, alloc: Global, out: &mut Printer) -> Result<(), NoMemory> {
        print_object(alloc, out, self)
    }
}

impl Members for Message {
    ghost use Rattle.fluid_types.specs.Printed.{message_rows};

    ghost rows = { message_rows };

    fn print_members(&self, alloc: Global, out: &mut Printer) -> Result<(), NoMemory> {
        print_first(alloc, out, self)?;
        member_if_any(alloc, out, Field::Data, &self.system)?;
        member_if_any(alloc, out, Field::Metadata, &self.metadata)?;
        print_last(alloc, out, self)?;
        Ok(())
    }
}

// The members before those that may be missing.
#[tactic(auto, unfolding(crate::specs::Parts::first_rows))]
fn print_first(alloc: Global, out: &mut Printer, message: &Message) -> Result<(), NoMemory>
    ensures before { out.new.before ≡ out.old.before }
    ensures tokens { OnOk result (out.new.tokens ≡ out.old.tokens ++ rows_tokens (first_rows message.now)) }
{
    member(alloc, out, Field::ClientId, &message.client)?;
    member(
        alloc,
        out,
        Field::ClientSequenceNumber,
        &message.client_number,
    )?;
    member(alloc, out, Field::Contents, &message.contents)?;
    Ok(())
}

// The members behind those that may be missing.
#[tactic(auto, unfolding(crate::specs::Parts::last_rows))]
fn print_last(alloc: Global, out: &mut Printer, message: &Message) -> Result<(), NoMemory>
    ensures before { out.new.before ≡ out.old.before }
    ensures tokens { OnOk result (out.new.tokens ≡ out.old.tokens ++ rows_tokens (last_rows message.now)) }
{
    member(alloc, out, Field::MinimumSequenceNumber, &message.minimum)?;
    member(
        alloc,
        out,
        Field::ReferenceSequenceNumber,
        &message.reference,
    )?;
    member(alloc, out, Field::SequenceNumber, &message.number)?;
    member(alloc, out, Field::Timestamp, &message.moment)?;
    member(alloc, out, Field::Type, &message.kind.word())?;
    Ok(())
}
