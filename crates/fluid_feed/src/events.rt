//! Op events that are printed.
ghost use Rattle.std.specs.Prelude.{◌≡◌, ◌+◌, ◌-◌, ◌≤◌, ◌∷◌, [], ◌++◌, length, map, IfOk, OnOk, OnErr, string_bytes};
ghost use Rattle.fluid_json.specs.Tree.{text, trees};
ghost use Rattle.fluid_json.specs.Printed.{printed, printed_items, printed_more_items};
ghost use Rattle.fluid_types.specs.Printed.{message_tree};
ghost use Rattle.fluid_codec.specs.Replies.{reply_printed};
ghost use Rattle.fluid_codec.specs.declared.replies.Reply.TheVariants.{Ops};
ghost use Rattle.fluid_feed.specs.Tails.{stretch};
ghost use Rattle.fluid_voice.specs.Feed.{brought};

use crate::messages::MessageText;
use crate::tail::Tail;
use fluid_json::{NoMemory, Printer, Text};
use fluid_types::DocName;
use std::alloc::Global;
use std::marker::Model;
use std::snapshot::Snapshot;

/// An op event that is printed: messages of a tail under the name of their document. Contracts see the reply.
#[derive(Drop)]
pub struct EventText {
    text: Text,
    name: Snapshot<DocName>,
    tail: Snapshot<Tail>,
    /// The number of its first message, and the one behind its last.
    from: u64,
    to: u64,
}

impl Model for EventText {
    ghost use Rattle.std.specs.Prelude.{◌≡◌, ◌+◌, length};
    ghost use Rattle.fluid_codec.specs.declared.replies.Reply.{Reply};
    ghost use Rattle.fluid_codec.specs.declared.replies.Reply.TheVariants.{Ops};
    ghost use Rattle.fluid_codec.specs.contracts.replies.Reply as replies;
    ghost use Rattle.fluid_codec.specs.Replies.{reply_printed};
    ghost use Rattle.fluid_feed.specs.Tails.{stretch};

    ghost Value = { Reply };

    ghost coded = { replies.the_row.coded };

    ghost view = { λ e. Ops e.name.value (stretch e.tail.value e.from e.to) };

    ghost invariant = { λ e. (e.text ≡ reply_printed (Ops e.name.value (stretch e.tail.value e.from e.to))) × (e.from + length (stretch e.tail.value e.from e.to) ≡ e.to) };
}

impl EventText {
    /// The messages of a tail from one number to before another, under this name.
    pub fn of(
        alloc: Global,
        name: &DocName,
        tail: &Tail,
        from: u64,
        to: u64,
    ) -> Result<EventText, NoMemory>
        requires first { tail.now.from ≤ from }
        requires ordered { from ≤ to }
        requires last { to ≤ tail.now.from + length tail.now.messages }
        ensures { IfOk result (λ event. event ≡ Ops name.now (stretch tail.now from to)) }
    {
        let text = print(alloc, name, tail.texts(from, to))?;
        Ok(EventText {
            text,
            name: Snapshot::of(name),
            tail: Snapshot::of(tail),
            from,
            to,
        })
    }

    pub fn as_str(&self) -> &str
        ensures { result.now ≡ reply_printed self.now }
    {
        self.text.as_str()
    }

    /// How many messages it brings.
    pub fn count(&self) -> u64
        ensures is { result ≡ length (brought self.now) }
    {
        self.to - self.from
    }
}

fn print(alloc: Global, name: &DocName, texts: &[MessageText]) -> Result<Text, NoMemory>
    ensures { IfOk result (λ s. s ≡ reply_printed (Ops name.now texts.now)) }
{
    let name = name_text(alloc, name)?;
    let mut out = String::with_capacity(alloc, room_for(&name, texts))?;
    out.push_str("[\"op\",")?;
    out.push_str(name.as_str())?;
    out.push_str(",[")?;
    put_messages(&mut out, texts)?;
    out.push_str("]]")?;
    Ok(Text::new(out))
}

// So many bytes the event has.
fn room_for(name: &Text, texts: &[MessageText]) -> usize {
    let mut room = name.as_str().len().saturating_add(16);
    for text in texts {
        room = room.saturating_add(text.as_str().len()).saturating_add(1);
    }
    room
}

fn name_text(alloc: Global, name: &DocName) -> Result<Text, NoMemory>
    ensures { IfOk result (λ s. s ≡ printed (text name.now)) }
{
    let mut out = Printer::new(alloc);
    out.text(name.as_str())?;
    Ok(out.into_text())
}

fn put_messages(out: &mut String, texts: &[MessageText]) -> Result<(), NoMemory>
    ensures { OnOk result (string_bytes out.new ≡ string_bytes out.old ++ printed_items (trees (map message_tree texts.now))) }
{
    let Some((first, more)) = texts.split_first() else {
        return Ok(());
    };
    out.push_str(first.as_str())?;
    put_more(out, more)
}

// Messages behind the first, each behind a comma.
fn put_more(out: &mut String, texts: &[MessageText]) -> Result<(), NoMemory>
    ensures { OnOk result (string_bytes out.new ≡ string_bytes out.old ++ printed_more_items (trees (map message_tree texts.now))) }
{
    for text in texts {
        out.push_str(",")?;
        out.push_str(text.as_str())?;
    }
    Ok(())
}

/// Op events in their order. Contracts see the list.
#[derive(Drop)]
pub struct Feed {
    vec: Vec<EventText>,
}

impl Model for Feed {
    ghost use Rattle.std.specs.Prelude.{List};
    ghost use Rattle.std.specs.Coded.{coded_list};
    ghost use Rattle.fluid_codec.specs.declared.replies.Reply.{Reply};
    ghost use Rattle.fluid_codec.specs.contracts.replies.Reply as replies;

    ghost Value = { List Reply };

    ghost coded = { coded_list replies.the_row.coded };

    ghost view = { λ f. f.vec.items };
}

impl Feed {
    /// No events. Takes no memory.
    pub fn new(alloc: Global) -> Feed
        ensures { result ≡ [] }
    {
        Feed {
            vec: Vec::new(alloc),
        }
    }

    /// Puts one at the end. After `NoMemory` the list is as it was.
    pub fn push(&mut self, event: EventText) -> Result<(), NoMemory>
        ensures pushed { OnOk result (self.new ≡ self.old ++ event ∷ []) }
        ensures same { OnErr result (self.new ≡ self.old) }
    {
        self.vec.push(event)?;
        Ok(())
    }

    pub fn as_slice(&self) -> &[EventText]
        ensures { result.now ≡ self.now }
    {
        self.vec.as_slice()
    }
}
