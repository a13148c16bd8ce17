//! The last messages of an order, printed.
ghost use Rattle.std.specs.Prelude.{◌≡◌, ◌≢◌, ◌+◌, ◌^◌, ◌<◌, ◌≤◌, ◌∷◌, [], ◌++◌, ℕ, length, take, drop, IfOk, OnOk, OnErr};
ghost use Rattle.fluid_feed.specs.Tails.{ATail, stretch, with_more, IsTrimmed};

use crate::messages::MessageText;
use fluid_json::NoMemory;
use fluid_types::Message;
use std::alloc::Global;
use std::marker::Model;

/// So many messages are left of a tail that had twice as many or more, when it is trimmed.
pub const KEPT: usize = 2048;

/// The last messages of an order, printed, numbered one by one from a first number. Contracts see that number and the messages. One
/// that is trimmed has less than twice `KEPT` messages.
#[derive(Drop)]
pub struct Tail {
    from: u64,
    texts: Vec<MessageText>,
}

impl Model for Tail {
    ghost use Rattle.std.specs.Prelude.{◌<◌, ◌+◌, ◌^◌, length};
    ghost use Rattle.fluid_feed.specs.Tails.{ATail, tail_code};

    ghost Value = { ATail };

    ghost coded = { tail_code };

    ghost view = { λ t. record { from = t.from; messages = t.texts.items } };

    ghost invariant = { λ t. (0 < t.from) × (t.from + length t.texts.items < 2 ^ 64) };
}

impl Tail {
    /// No messages yet, and the number of the first. Takes no memory.
    pub fn new(alloc: Global, from: u64) -> Tail
        requires { 0 < from }
        ensures { result ≡ record { from = from; messages = [] } }
    {
        Tail {
            from,
            texts: Vec::new(alloc),
        }
    }

    /// The number of its first message.
    pub fn from(&self) -> u64
        ensures is { result ≡ self.now.from }
        ensures first { 0 < result }
    {
        self.from
    }

    /// The number behind its last message.
    pub fn end(&self) -> u64
        ensures is { result ≡ self.now.from + length self.now.messages }
        ensures first { 0 < result }
    {
        self.from + self.texts.len() as u64
    }

    /// Prints a message and puts it at the end. After `NoMemory` the tail is as it was.
    pub fn push(&mut self, alloc: Global, message: &Message) -> Result<(), NoMemory>
        requires { self.old.from + length self.old.messages + 1 < 2 ^ 64 }
        ensures pushed { OnOk result (self.new ≡ with_more (message.now ∷ []) self.old) }
        ensures same { OnErr result (self.new ≡ self.old) }
    {
        let text = MessageText::print(alloc, message)?;
        self.texts.push(text)?;
        Ok(())
    }

    /// Those of more than one. After `NoMemory` a prefix of them was put.
    pub fn extend(&mut self, alloc: Global, messages: &[Message]) -> Result<(), NoMemory>
        requires { self.old.from + length self.old.messages + length messages.now < 2 ^ 64 }
        ensures put { OnOk result (self.new ≡ with_more messages.now self.old) }
    {
        for message in messages {
            self.push(alloc, message)?;
        }
        Ok(())
    }

    /// The texts of the messages from one number to before another.
    pub fn texts(&self, from: u64, to: u64) -> &[MessageText]
        requires first { self.now.from ≤ from }
        requires ordered { from ≤ to }
        requires last { to ≤ self.now.from + length self.now.messages }
        ensures { result.now ≡ stretch self.now from to }
    {
        let low = (from - self.from) as usize;
        let high = (to - self.from) as usize;
        &self.texts[low..high]
    }

    /// Lets go of the first messages of a tail that has twice as many as are kept, or more. Takes no memory.
    pub fn trim(&mut self)
        ensures { IsTrimmed self.old self.new }
    {
        let count = self.texts.len();
        if count < 2 * KEPT {
            return;
        }
        let extra = count - KEPT;
        self.from += extra as u64;
        self.texts.drain(..extra);
    }
}
