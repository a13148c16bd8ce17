// What a document makes of a raw entry.
ghost use Rattle.std.specs.Prelude.{◌≡◌, IfOk};

use crate::{Message, Nack};
use fluid_json::NoMemory;
use std::alloc::Global;

/// What a document makes of a raw entry.
#[derive(Drop)]
pub enum Verdict {
    /// It has a place in the order, as this message.
    Sequenced(Message),
    Nacked(Nack),
    /// It repeats what stands already: no client is told of it.
    Dropped,
    /// A noop that raises no minimum or asks for no number: its client is known to have seen so much, and no client is told.
    Absorbed,
}

impl Verdict {
    pub fn copy(&self, alloc: Global) -> Result<Verdict, NoMemory>
        ensures { IfOk result (λ copy. copy ≡ self.now) }
    {
        match self {
            Verdict::Sequenced(message) => {
                let message = message.copy(alloc)?;
                Ok(Verdict::Sequenced(message))
            }
            Verdict::Nacked(nack) => {
                let nack = nack.copy(alloc)?;
                Ok(Verdict::Nacked(nack))
            }
            Verdict::Dropped => Ok(Verdict::Dropped),
            Verdict::Absorbed => Ok(Verdict::Absorbed),
        }
    }
}
