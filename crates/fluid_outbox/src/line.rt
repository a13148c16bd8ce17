// What is kept of an id under which edits are sent.
use fluid_types::ClientId;

/// What is kept of an id under which edits are sent.
#[derive(Drop)]
pub(crate) struct Line {
    pub(crate) id: ClientId,
    /// How many edits were sent under it: they have the client numbers 1, 2, 3 and so on.
    pub(crate) sent: u64,
    /// How many of these were acknowledged.
    pub(crate) acknowledged: u64,
    /// Whether its leave was heard.
    pub(crate) left: bool,
}
