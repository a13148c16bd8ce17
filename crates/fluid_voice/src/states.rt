// Where a connection stands.

use fluid_types::{ClientId, DocName};

/// Where a connection stands.
#[derive(Drop)]
pub enum VoiceState {
    /// It is connected to no document yet.
    Fresh,
    /// It reads a document: its name, and the number of the message that is delivered next.
    Reading(DocName, u64),
    /// It writes to a document as a client: the document's name, the client's id, and the number of the message that is delivered next.
    Writing(DocName, ClientId, u64),
    /// It has left, and hears nothing any more.
    Used,
}
