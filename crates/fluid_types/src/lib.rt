//! The names and records of the protocol, with public fields: what clients hand to a document, the
//! messages that it puts in order, and its refusals. Every other crate speaks of these.
//!
//! - `words`: the words of the protocol. `names`: ids, names of documents, addresses. `lists`: messages and submissions in a row.
//! - `entries`: raw entries. `verdicts`, `messages`, `nacks`: what becomes of them. `contents`: what an op says. `quorum`: members and values.
//! - `fault`: why a text isn't read. `examples`: worked examples.
#![tactic(auto)]

pub mod contents;
pub mod entries;
pub mod examples;
pub mod fault;
pub mod lists;
pub mod messages;
pub mod nacks;
pub mod names;
pub mod quorum;
pub mod verdicts;
pub mod words;

pub use contents::body;
pub use entries::{Offered, Raw, Scopes, Submission};
pub use fault::{BlobFault, CodecFault, Field, What};
pub use lists::{Messages, Submissions};
pub use messages::{Kind, Message};
pub use nacks::{Nack, NackKind, NackRule};
pub use names::{Address, ClientId, DocName, NameFault};
pub use quorum::{Accepted, Member, Proposal, QuorumBlob};
pub use verdicts::Verdict;
pub use words::{RawKind, Word, of_word};
