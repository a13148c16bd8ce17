// What a scribe takes of a message.

use fluid_tree::SummaryRef;
use fluid_types::Message;

/// A message, prepared for a scribe and not yet committed: what the scribe takes of it.
#[derive(Drop)]
pub struct ScribeReady {
    pub(crate) number: u64,
    pub(crate) minimum: u64,
    /// The number of the summarize that it answers.
    pub(crate) answered: Option<u64>,
    /// The message once more, where it is a summarize or a quorum hears it.
    pub(crate) kept: Option<Message>,
    /// The acknowledgement that it makes.
    pub(crate) ack: Option<SummaryRef>,
}
