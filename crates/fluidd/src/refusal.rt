//! Why the text of a line is refused.
ghost use Rattle.std.specs.Prelude.{◌≡◌, IfOk};
ghost use Rattle.fluidd.specs.Refusals.{why_text};

use fluid_json::{NoMemory, Text};
use fluid_types::CodecFault;
use std::alloc::Global;

/// Why the text of a line is refused.
#[derive(Clone, Copy, Debug, PartialEq, Eq)]
pub enum Why {
    /// It isn't JSON within the profile, or no raw record.
    Unreadable(CodecFault),
    /// It is a join or a submission, and the document has as many as it may have.
    DocumentFull,
    /// It is a join of a new client, and as many are joined as may be.
    TooManyClients,
}

impl Why {
    /// The words that a refused line is answered with.
    #[tactic(auto, unfolding(crate::specs::Refusals::why_text))]
    pub(crate) fn text(&self, alloc: Global) -> Result<Text, NoMemory>
        ensures { IfOk result (λ text. text ≡ why_text self.now) }
    {
        match self {
            Why::Unreadable(fault) => fault.text(alloc),
            Why::DocumentFull => Text::copied(alloc, "document is full"),
            Why::TooManyClients => Text::copied(alloc, "too many clients"),
        }
    }
}
