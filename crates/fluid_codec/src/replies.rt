ghost use Rattle.std.specs.Prelude.{◌≡◌, ◌++◌, map, IfOk, OnOk};
ghost use Rattle.fluid_types.specs.Printed.{message_tree};
ghost use Rattle.fluid_codec.specs.Rows.{rows_tokens, items_tokens};
ghost use Rattle.fluid_codec.specs.Replies.{reply_items, reply_printed};
ghost use Rattle.fluid_codec.specs.declared.replies.Reply.TheVariants as reply;

use crate::names::Mode;
use crate::rows::{
    Items, Members, Print, member, print_item, print_list, print_object, print_text,
};
use fluid_json::{Bytes, NoMemory, Printer, Text};
use fluid_types::{ClientId, DocName, Field, Message, Messages, Nack, Word};
use std::alloc::Global;

/// What a connection sends.
#[derive(Drop)]
pub enum Reply {
    Connected {
        /// The number before the first message that is sent.
        checkpoint: u64,
        /// None on a connection that only reads.
        id: Option<ClientId>,
        /// Whether the mode is "write".
        write: bool,
    },
    ConnectError {
        code: u32,
        text: Text,
    },
    Ops {
        name: DocName,
        messages: Messages,
    },
    Nacked {
        /// None where no document is connected to.
        name: Option<DocName>,
        nack: Nack,
    },
    Deltas {
        /// The number that was asked for.
        from: u64,
        messages: Messages,
    },
    /// A handle and the number of its summary.
    Summary(Option<([u8; 20], u64)>),
    Object {
        id: [u8; 20],
        /// None where no object has this id.
        bytes: Option<Bytes>,
    },
    Stored([u8; 20]),
}

/// The most bytes of a text that a connection hears.
const LONGEST_MESSAGE: u64 = 1_048_576;

/// The text of a reply.
pub fn print_event(alloc: Global, reply: &Reply) -> Result<Text, NoMemory>
    ensures { IfOk result (λ s. s ≡ reply_printed reply.now) }
{
    print_text(alloc, reply)
}

impl Print for Reply {
    ghost use Rattle.fluid_codec.specs.Replies.{reply_tree};

    ghost tree = { reply_tree };

    fn print(&self, alloc: Global, out: &mut Printer) -> Result<(), NoMemory> {
        print_list(alloc, out, self)
    }
}

impl Items for Reply {
    ghost use Rattle.fluid_codec.specs.Replies.{reply_items};

    ghost trees_of = { reply_items };

    fn print_items(&self, alloc: Global, out: &mut Printer) -> Result<(), NoMemory> {
        match self {
            Reply::Connected {
                checkpoint,
                id,
                write,
            } => print_connected(alloc, out, *checkpoint, id, *write),
            Reply::ConnectError { code, text } => print_connect_error(alloc, out, *code, text),
            Reply::Ops { name, messages } => print_ops(alloc, out, name, messages),
            Reply::Nacked { name, nack } => print_nacked(alloc, out, name, nack),
            Reply::Deltas { from, messages } => print_deltas(alloc, out, *from, messages),
            Reply::Summary(found) => print_summary(alloc, out, found),
            Reply::Object { id, bytes } => print_found(alloc, out, id, bytes),
            Reply::Stored(id) => print_stored(alloc, out, id),
        }
    }
}

#[tactic(auto, unfolding(crate::specs::Replies::reply_items))]
fn print_connected(
    alloc: Global,
    out: &mut Printer,
    checkpoint: u64,
    id: &Option<ClientId>,
    write: bool,
) -> Result<(), NoMemory>
    ensures before { out.new.before ≡ out.old.before }
    ensures tokens { OnOk result (out.new.tokens ≡ out.old.tokens ++ items_tokens (reply_items (reply.Connected checkpoint id.now write))) }
{
    print_item(alloc, out, &"connect_document_success")?;
    print_item(
        alloc,
        out,
        &Success {
            checkpoint,
            id,
            write,
        },
    )?;
    Ok(())
}

#[tactic(auto, unfolding(crate::specs::Replies::reply_items))]
fn print_connect_error(
    alloc: Global,
    out: &mut Printer,
    code: u32,
    text: &Text,
) -> Result<(), NoMemory>
    ensures before { out.new.before ≡ out.old.before }
    ensures tokens { OnOk result (out.new.tokens ≡ out.old.tokens ++ items_tokens (reply_items (reply.ConnectError code text.now))) }
{
    print_item(alloc, out, &"connect_document_error")?;
    print_item(alloc, out, &Refusal { code, text })?;
    Ok(())
}

#[tactic(auto, unfolding(crate::specs::Replies::reply_items))]
fn print_ops(
    alloc: Global,
    out: &mut Printer,
    name: &DocName,
    messages: &Messages,
) -> Result<(), NoMemory>
    ensures before { out.new.before ≡ out.old.before }
    ensures tokens { OnOk result (out.new.tokens ≡ out.old.tokens ++ items_tokens (reply_items (reply.Ops name.now messages.now))) }
{
    print_item(alloc, out, &"op")?;
    print_item(alloc, out, name)?;
    print_item(alloc, out, messages)?;
    Ok(())
}

#[tactic(auto, unfolding(crate::specs::Replies::reply_items))]
fn print_nacked(
    alloc: Global,
    out: &mut Printer,
    name: &Option<DocName>,
    nack: &Nack,
) -> Result<(), NoMemory>
    ensures before { out.new.before ≡ out.old.before }
    ensures tokens { OnOk result (out.new.tokens ≡ out.old.tokens ++ items_tokens (reply_items (reply.Nacked name.now nack.now))) }
{
    print_item(alloc, out, &"nack")?;
    print_item(alloc, out, &NameOrEmpty(name))?;
    print_item(alloc, out, &Alone(nack))?;
    Ok(())
}

#[tactic(auto, unfolding(crate::specs::Replies::reply_items))]
fn print_deltas(
    alloc: Global,
    out: &mut Printer,
    from: u64,
    messages: &Messages,
) -> Result<(), NoMemory>
    ensures before { out.new.before ≡ out.old.before }
    ensures tokens { OnOk result (out.new.tokens ≡ out.old.tokens ++ items_tokens (reply_items (reply.Deltas from messages.now))) }
{
    print_item(alloc, out, &"deltas")?;
    print_item(alloc, out, &from)?;
    print_item(alloc, out, messages)?;
    Ok(())
}

#[tactic(auto, unfolding(crate::specs::Replies::reply_items))]
fn print_summary(
    alloc: Global,
    out: &mut Printer,
    found: &Option<([u8; 20], u64)>,
) -> Result<(), NoMemory>
    ensures before { out.new.before ≡ out.old.before }
    ensures tokens { OnOk result (out.new.tokens ≡ out.old.tokens ++ items_tokens (reply_items (reply.Summary found.now))) }
{
    print_item(alloc, out, &"summary")?;
    match found {
        Some(found) => {
            print_item(alloc, out, &found.0)?;
            print_item(alloc, out, &found.1)?;
            Ok(())
        }
        None => {
            print_item(alloc, out, &None::<u64>)?;
            print_item(alloc, out, &None::<u64>)?;
            Ok(())
        }
    }
}

#[tactic(auto, unfolding(crate::specs::Replies::reply_items))]
fn print_found(
    alloc: Global,
    out: &mut Printer,
    id: &[u8; 20],
    bytes: &Option<Bytes>,
) -> Result<(), NoMemory>
    ensures before { out.new.before ≡ out.old.before }
    ensures tokens { OnOk result (out.new.tokens ≡ out.old.tokens ++ items_tokens (reply_items (reply.Object id.now bytes.now))) }
{
    print_item(alloc, out, &"object")?;
    print_item(alloc, out, id)?;
    print_item(alloc, out, bytes)?;
    Ok(())
}

#[tactic(auto, unfolding(crate::specs::Replies::reply_items))]
fn print_stored(alloc: Global, out: &mut Printer, id: &[u8; 20]) -> Result<(), NoMemory>
    ensures before { out.new.before ≡ out.old.before }
    ensures tokens { OnOk result (out.new.tokens ≡ out.old.tokens ++ items_tokens (reply_items (reply.Stored id.now))) }
{
    print_item(alloc, out, &"objectStored")?;
    print_item(alloc, out, id)?;
    Ok(())
}

/// What a client learns when it is connected.
#[derive(Drop)]
struct Success<'a> {
    checkpoint: u64,
    id: &'a Option<ClientId>,
    write: bool,
}

impl Print for Success<'_> {
    ghost use Rattle.fluid_json.specs.Tree.{object, members};
    ghost use Rattle.fluid_codec.specs.Replies.{connected_rows};

    ghost tree = { λ success. object (members (connected_rows success.checkpoint success.id.now success.write)) };

    fn print(&self, alloc: Global, out: &mut Printer) -> Result<(), NoMemory> {
        print_object(alloc, out, self)
    }
}

impl Members for Success<'_> {
    ghost use Rattle.fluid_codec.specs.Replies.{connected_rows};

    ghost rows = { λ success. connected_rows success.checkpoint success.id.now success.write };

    #[tactic(auto, unfolding(crate::specs::Replies::connected_rows))]
    fn print_members(&self, alloc: Global, out: &mut Printer) -> Result<(), NoMemory> {
        let mode = Mode::of(self.write);
        member(
            alloc,
            out,
            Field::CheckpointSequenceNumber,
            &self.checkpoint,
        )?;
        member(alloc, out, Field::ClientId, self.id)?;
        member(alloc, out, Field::MaxMessageSize, &LONGEST_MESSAGE)?;
        member(alloc, out, Field::Mode, &mode.word())?;
        member(alloc, out, Field::Version, &"1")?;
        Ok(())
    }
}

/// Why a client is not connected.
#[derive(Drop)]
struct Refusal<'a> {
    code: u32,
    text: &'a Text,
}

impl Print for Refusal<'_> {
    ghost use Rattle.fluid_json.specs.Tree.{object, members};
    ghost use Rattle.fluid_codec.specs.Replies.{error_rows};

    ghost tree = { λ refusal. object (members (error_rows refusal.code refusal.text.now)) };

    fn print(&self, alloc: Global, out: &mut Printer) -> Result<(), NoMemory> {
        print_object(alloc, out, self)
    }
}

impl Members for Refusal<'_> {
    ghost use Rattle.fluid_codec.specs.Replies.{error_rows};

    ghost rows = { λ refusal. error_rows refusal.code refusal.text.now };

    #[tactic(auto, unfolding(crate::specs::Replies::error_rows))]
    fn print_members(&self, alloc: Global, out: &mut Printer) -> Result<(), NoMemory> {
        member(alloc, out, Field::Code, &self.code)?;
        member(alloc, out, Field::Message, self.text)?;
        Ok(())
    }
}

/// The name of a document, and an empty text for none.
#[derive(Drop)]
struct NameOrEmpty<'a>(&'a Option<DocName>);

impl Print for NameOrEmpty<'_> {
    ghost use Rattle.std.specs.Prelude.{unwrap_or, []};
    ghost use Rattle.fluid_json.specs.Tree.{text};

    ghost tree = { λ name. text (unwrap_or name.0.now []) };

    fn print(&self, alloc: Global, out: &mut Printer) -> Result<(), NoMemory> {
        match self.0 {
            Some(name) => name.print(alloc, out),
            None => out.text(""),
        }
    }
}

/// A list of one nack.
#[derive(Drop)]
struct Alone<'a>(&'a Nack);

impl Print for Alone<'_> {
    ghost use Rattle.std.specs.Prelude.{◌∷◌, []};
    ghost use Rattle.fluid_json.specs.Tree.{list, trees};
    ghost use Rattle.fluid_types.specs.Printed.{nack_tree};

    ghost tree = { λ alone. list (trees (nack_tree alone.0.now ∷ [])) };

    fn print(&self, alloc: Global, out: &mut Printer) -> Result<(), NoMemory> {
        print_list(alloc, out, self)
    }
}

impl Items for Alone<'_> {
    ghost use Rattle.std.specs.Prelude.{◌∷◌, []};
    ghost use Rattle.fluid_types.specs.Printed.{nack_tree};

    ghost trees_of = { λ alone. nack_tree alone.0.now ∷ [] };

    fn print_items(&self, alloc: Global, out: &mut Printer) -> Result<(), NoMemory> {
        print_item(alloc, out, self.0)?;
        Ok(())
    }
}

impl Print for Messages {
    ghost use Rattle.fluid_codec.specs.Replies.{messages_tree};

    ghost tree = { messages_tree };

    fn print(&self, alloc: Global, out: &mut Printer) -> Result<(), NoMemory> {
        print_list(alloc, out, self)
    }
}

impl Items for Messages {
    ghost use Rattle.std.specs.Prelude.{map};
    ghost use Rattle.fluid_types.specs.Printed.{message_tree};

    ghost trees_of = { λ messages. map message_tree messages };

    fn print_items(&self, alloc: Global, out: &mut Printer) -> Result<(), NoMemory> {
        print_messages(alloc, out, self.as_slice())
    }
}

fn print_messages(alloc: Global, out: &mut Printer, messages: &[Message]) -> Result<(), NoMemory>
    ensures before { out.new.before ≡ out.old.before }
    ensures tokens { OnOk result (out.new.tokens ≡ out.old.tokens ++ items_tokens (map message_tree messages.now)) }
{
    for message in messages {
        print_item(alloc, out, message)?;
    }
    Ok(())
}
