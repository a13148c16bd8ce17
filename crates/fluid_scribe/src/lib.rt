//! The scribe of a document: what it answers to a summary.
//!
//! A scribe takes the messages of one order, one after another. A message is prepared, which makes every growth and copies what is
//! to be kept of it, and then committed, which takes no memory; what is not committed changes nothing. Contracts see what it keeps
//! (`specs/State.antt`): the quorum at its base, what quorums need of the messages behind it, the summarize messages that wait and
//! the acknowledgements. The base is the last message to which no summarize can refer any more, so what is kept doesn't grow with
//! the order. What it keeps of a legal ledger's order answers as the rules do over the order (`specs/Laws.antt`).
//!
//! - `scribe`: `Scribe`. `ready`: a prepared message, `ScribeReady`. `job`: what is to be done about the pending summarize, `Job`.
//! - `tail`: the quorum at the base and what stands behind it. `waiting`: the summarize messages that wait. `lows`: the least of
//!   their references.
//! - `answering`: the answer and the job. `judging`: whether a summary may be acknowledged. `version`: the tree of a version.
//! - `parts`: what of a scribe's parts lies within an order. `reading`: what one message says. `laws`: what holds of the definitions.
#![tactic(auto)]

mod answering;
mod job;
mod judging;
pub mod laws;
mod lows;
mod parts;
mod reading;
mod ready;
mod scribe;
mod tail;
mod version;
mod waiting;

pub use fluid_rules::{Answer, SummaryRule};
pub use fluid_tree::SummaryRef;
pub use job::Job;
pub use ready::ScribeReady;
pub use scribe::Scribe;
pub use version::version_entries;
