// Lists of submissions and messages.
ghost use Rattle.std.specs.Prelude.{◌≡◌, ◌∷◌, [], ◌++◌, IfOk, OnErr};

use crate::{Message, Submission};
use fluid_json::NoMemory;
use std::marker::Model;

/// Submissions in their order. Contracts see the list.
#[derive(Drop)]
pub struct Submissions {
    vec: Vec<Submission>,
}

impl Model for Submissions {
    ghost use Rattle.std.specs.Prelude.{List};
    ghost use Rattle.std.specs.Coded.{coded_list};
    ghost use Rattle.fluid_types.specs.declared.entries.Submission.{Submission};
    ghost use Rattle.fluid_types.specs.contracts.entries.Submission as submission;

    ghost Value = { List Submission };

    ghost coded = { coded_list submission.the_row.coded };

    ghost view = { λ s. s.vec.items };
}

impl Submissions {
    /// Takes no memory.
    pub fn new(vec: Vec<Submission>) -> Submissions
        ensures { result ≡ vec.items }
    {
        Submissions { vec }
    }

    /// Puts one at the end. After `NoMemory` the list is as it was.
    pub fn push(&mut self, submission: Submission) -> Result<(), NoMemory>
        ensures pushed { IfOk result (λ _. self.new ≡ self.old ++ submission ∷ []) }
        ensures same { OnErr result (self.new ≡ self.old) }
    {
        self.vec.push(submission)?;
        Ok(())
    }

    /// Takes no memory.
    pub fn into_vec(self) -> Vec<Submission>
        ensures { result.items ≡ self }
    {
        let Submissions { vec } = self;
        vec
    }

    pub fn as_slice(&self) -> &[Submission]
        ensures { result.now ≡ self.now }
    {
        self.vec.as_slice()
    }
}

/// Messages in their order. Contracts see the list.
#[derive(Drop)]
pub struct Messages {
    vec: Vec<Message>,
}

impl Model for Messages {
    ghost use Rattle.std.specs.Prelude.{List};
    ghost use Rattle.std.specs.Coded.{coded_list};
    ghost use Rattle.fluid_types.specs.declared.messages.Message.{Message};
    ghost use Rattle.fluid_types.specs.contracts.messages.Message as message;

    ghost Value = { List Message };

    ghost coded = { coded_list message.the_row.coded };

    ghost view = { λ m. m.vec.items };
}

impl Messages {
    /// Takes no memory.
    pub fn new(vec: Vec<Message>) -> Messages
        ensures { result ≡ vec.items }
    {
        Messages { vec }
    }

    /// Takes no memory.
    pub fn into_vec(self) -> Vec<Message>
        ensures { result.items ≡ self }
    {
        let Messages { vec } = self;
        vec
    }

    pub fn as_slice(&self) -> &[Message]
        ensures { result.now ≡ self.now }
    {
        self.vec.as_slice()
    }
}
