//! A message that is printed.
ghost use Rattle.std.specs.Prelude.{◌≡◌, IfOk};
ghost use Rattle.fluid_types.specs.Printed.{message_printed};

use fluid_codec::print_message;
use fluid_json::{NoMemory, Text};
use fluid_types::Message;
use std::alloc::Global;
use std::marker::Model;
use std::snapshot::Snapshot;

/// A message that is printed. Contracts see the message.
#[derive(Drop)]
pub struct MessageText {
    text: Text,
    message: Snapshot<Message>,
}

impl Model for MessageText {
    ghost use Rattle.std.specs.Prelude.{◌≡◌};
    ghost use Rattle.fluid_types.specs.declared.messages.Message.{Message as AMessage};
    ghost use Rattle.fluid_types.specs.contracts.messages.Message as messages;
    ghost use Rattle.fluid_types.specs.Printed.{message_printed};

    ghost Value = { AMessage };

    ghost coded = { messages.the_row.coded };

    ghost view = { λ m. m.message.value };

    ghost invariant = { λ m. m.text ≡ message_printed m.message.value };
}

impl MessageText {
    /// The text of a message.
    pub fn print(alloc: Global, message: &Message) -> Result<MessageText, NoMemory>
        ensures { IfOk result (λ m. m ≡ message.now) }
    {
        let text = print_message(alloc, message)?;
        Ok(MessageText {
            text,
            message: Snapshot::of(message),
        })
    }

    pub fn as_str(&self) -> &str
        ensures { result.now ≡ message_printed self.now }
    {
        self.text.as_str()
    }
}
