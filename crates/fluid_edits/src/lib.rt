//! Edits of a document's channels: what an op says, and what a list of ops makes of maps and counters.
//!
//! A channel is a map or a counter under an address. It arises by the first attach of its address, and only what stands
//! behind that attach speaks to it.
//!
//! - `edit`: `Edit` and `ChannelKind`. `reading`: the edit that a message spells. `writing`: the contents of an edit's op.
//! - `laws`, `examples`: what holds of the definitions, which stand in `specs/Forms.antt` and `specs/Replay.antt`.
#![tactic(auto)]

pub mod edit;
pub mod examples;
pub mod laws;
mod reading;
mod writing;

pub use edit::{ChannelKind, Edit, is_in_range};
pub use reading::{read_edit, spelled_edit};
