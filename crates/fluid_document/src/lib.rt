//! The state machine of one document: what its entries made of it, how one more is entered, and how it comes back from a keeper.
//!
//! - `document`: what is kept in memory: the core that gives verdicts, and the messages of the order.
//! - `entry`: entering one entry, its record into the log.
//! - `loading`: reading it out of a keeper, from a checkpoint and the log behind it.
//! - `fault`: why an entry isn't entered, and why a document isn't read.
//! - `laws`: what a kept content comes back as.
#![tactic(auto)]

mod document;
mod entry;
mod fault;
mod laws;
mod loading;

pub use document::Document;
pub use entry::{enter, take_in};
pub use fault::{EnterFault, FlushFault, LoadFault};
pub use laws::{checkpoints_are_counted, kept_is_loaded, records_are_folded};
pub use loading::{bad_field, load, note_of};
