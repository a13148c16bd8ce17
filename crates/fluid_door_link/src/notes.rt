//! Whose link it is, and what was fetched and taken by it.
ghost use Rattle.std.specs.Prelude.{◌≡◌, []};

use fluid_tree::Id;
use fluid_types::{ClientId, Submission};
use std::alloc::Global;

/// A link's client, and what was fetched and taken by it, oldest first. It is lent to the link.
#[derive(Drop)]
pub struct Notes {
    pub client: ClientId,
    /// The numbers of the messages that were fetched.
    pub messages: Vec<u64>,
    /// The ids of the objects that were fetched.
    pub fetched: Vec<Id>,
    /// How many nodes of each tree that was to be put were handles.
    pub handles: Vec<u64>,
    /// The submissions that were taken.
    pub taken: Vec<Submission>,
}

impl Notes {
    /// Nothing was done yet. Takes no memory.
    pub fn new(alloc: Global, client: ClientId) -> Notes
        ensures client { result.client ≡ client }
        ensures lists { (result.messages.items ≡ []) × ((result.fetched.items ≡ []) × ((result.handles.items ≡ []) × (result.taken.items ≡ []))) }
    {
        Notes {
            client,
            messages: Vec::new(alloc),
            fetched: Vec::new(alloc),
            handles: Vec::new(alloc),
            taken: Vec::new(alloc),
        }
    }
}
