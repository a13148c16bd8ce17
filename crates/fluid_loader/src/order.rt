//! The messages of an order, in memory.
ghost use Rattle.std.specs.Prelude.{◌≡◌, ◌<◌, ◌^◌, [], length, IfOk, OnErr};
ghost use Rattle.fluid_loader.specs.Link.{IsOrder};
ghost use Rattle.fluid_loader.specs.Listed.{IsPushed, is_next};

use crate::acknowledging::reference_of;
use fluid_codec::{print_message, read_message};
use fluid_json::{LARGEST, NoMemory};
use fluid_types::{CodecFault, Message};
use std::alloc::Global;
use std::marker::Model;

/// The messages of an order: numbered one by one from 1, each is read back from its printed text, which is UTF-8, as itself, and
/// none refers to one behind it. Contracts see the list.
#[derive(Drop)]
pub struct Order {
    messages: Vec<Message>,
}

impl Model for Order {
    ghost use Rattle.std.specs.Prelude.{List, length, ◌<◌, ◌^◌};
    ghost use Rattle.std.specs.Coded.{coded_list};
    ghost use Rattle.fluid_types.specs.declared.messages.Message.{Message};
    ghost use Rattle.fluid_types.specs.contracts.messages.Message as message;
    ghost use Rattle.fluid_loader.specs.Link.{IsOrder};

    ghost Value = { List Message };

    ghost coded = { coded_list message.the_row.coded };

    ghost view = { λ o. o.messages.items };

    ghost invariant = { λ o. IsOrder o.messages.items × (length o.messages.items < 2 ^ 53) };
}

impl Order {
    /// No messages. Takes no memory.
    pub fn new(alloc: Global) -> Order
        ensures { result ≡ [] }
    {
        Order {
            messages: Vec::new(alloc),
        }
    }

    pub fn as_slice(&self) -> &[Message]
        ensures slice { result.now ≡ self.now }
        ensures in_order { IsOrder self.now }
        ensures fits { length self.now < 2 ^ 53 }
    {
        self.messages.as_slice()
    }

    /// Puts the message of a printed text behind the others, and answers whether it did: where this is the text that is
    /// printed for it, it has the next number, below 2^53, and it refers to no message behind it. Else nothing changes.
    pub fn push(&mut self, alloc: Global, text: &str) -> Result<bool, NoMemory>
        ensures pushed { IfOk result (IsPushed text.now self.old self.new) }
        ensures unchanged { OnErr result (self.new ≡ self.old) }
    {
        let message = match read_message(alloc, text) {
            Ok(message) => message,
            Err(CodecFault::NoMemory) => return Err(NoMemory),
            Err(_) => return Ok(false),
        };
        let printed = print_message(alloc, &message)?;
        if printed.as_str() != text || !is_next(&message, self.messages.len() as u64) {
            return Ok(false);
        }
        self.messages.push(message)?;
        Ok(true)
    }
}

// The message goes behind so many others.
fn is_next(message: &Message, count: u64) -> bool
    ensures { result ≡ is_next count message.now }
{
    count < LARGEST && message.number == count + 1 && reference_of(message) <= message.number
}
