//! The steps of a script on documents, done over the open documents of one user. What each leaves and
//! writes is what `fluid_transcript` says of the world for which the documents, the shelves and the store stand.
//!
//! - `documents`: the steps on a document. `on_lane`: the same on its lane, once it is open. `first_use`: a document's first use.
//! - `scribing`: what the scribe does about a pending summarize. `lines`: what the steps write. `stop`: why a script ends in one.
//! - `laws`: what holds at the end of a run.
//! - `specs/Stands.antt`: when a desk stands for a world. `specs/Acting.antt`: what a step owes. `specs/Stopping.antt`: why a step
//!   ends the script, on every desk. `specs/Scribing.antt`: the same of the scribe's step, which uses the store.
#![tactic(auto)]

mod documents;
mod first_use;
pub mod laws;
mod lines;
mod on_lane;
mod scribing;
mod stop;

pub use documents::{checkpoint, count, reopen, restart, scribe, sweep};
pub use first_use::ready;
pub use lines::{line_or_stop, turned_away_line};
pub use stop::{Stop, StoredFault, stop_of};
