// Sequenced messages: what has a place in the order of a document.
ghost use Rattle.std.specs.Prelude.{◌≡◌, IfOk};

use crate::ClientId;
use crate::entries::copy_given;
use fluid_json::{Json, NoMemory, Text};
use std::alloc::Global;

/// The kinds of sequenced message.
#[derive(Clone, Copy, Debug, PartialEq, Eq)]
pub enum Kind {
    Op,
    Noop,
    Propose,
    Reject,
    Summarize,
    Join,
    Leave,
    SummaryAck,
    SummaryNack,
}

/// A sequenced message.
#[derive(Drop)]
pub struct Message {
    /// None for a join, a leave and an answer to a summarize.
    pub client: Option<ClientId>,
    /// -1 where there is no client.
    pub client_number: i64,
    /// -1 where there is no client.
    pub reference: i64,
    /// The sequence number: 1 for the first message of a document, and one more for each next one.
    pub number: u64,
    /// The minimum sequence number that holds from this message on.
    pub minimum: u64,
    pub kind: Kind,
    pub contents: Json,
    /// The JSON text that a join or a leave carries, in the member `data`.
    pub system: Option<Text>,
    pub metadata: Option<Json>,
    /// The moment of its raw entry, in milliseconds.
    pub moment: u64,
}

impl Message {
    pub fn copy(&self, alloc: Global) -> Result<Message, NoMemory>
        ensures { IfOk result (λ copy. copy ≡ self.now) }
    {
        let client = match &self.client {
            Some(id) => Some(id.copy(alloc)?),
            None => None,
        };
        let system = match &self.system {
            Some(text) => Some(text.copy(alloc)?),
            None => None,
        };
        let contents = self.contents.copy(alloc)?;
        let metadata = copy_given(alloc, &self.metadata)?;
        Ok(Message {
            client,
            client_number: self.client_number,
            reference: self.reference,
            number: self.number,
            minimum: self.minimum,
            kind: self.kind,
            contents,
            system,
            metadata,
            moment: self.moment,
        })
    }
}
