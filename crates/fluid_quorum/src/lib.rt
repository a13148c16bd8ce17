//! The quorum of a document: who has joined and not left, which values its clients have proposed, and which of them
//! every client has seen.
//!
//! - `quorum`: `Quorum`, which takes the messages of an order one after another.
//! - `saying`: what one message says. `accepting`: which proposals a minimum accepts, and how a message is taken in.
//! - `places`: values under keys, in a tree. Members and the values of keys stand in one each, and the pending proposals in a queue:
//!   a message costs a search among members and keys, and a constant besides, on the average.
//! - `state`: what a scribe keeps, `ScribeState`, with a quorum as its base.
//! - `writing` and `reading`: the four blobs in which a summary keeps a quorum. `laws`: what holds of the definitions.
//!
//! What the quorum of a list of messages is, is defined in `fluid_types` (`specs/Quorum.antt`), over the list alone.
#![tactic(auto)]

mod accepting;
pub mod laws;
mod places;
mod quorum;
mod reading;
mod saying;
mod state;
mod writing;

pub use accepting::KeyValue;
pub use fluid_types::{Accepted, BlobFault, Member, Proposal, QuorumBlob};
pub use quorum::Quorum;
pub use reading::{number_in, text_in};
pub use state::{Acks, Minima, ScribeState};
