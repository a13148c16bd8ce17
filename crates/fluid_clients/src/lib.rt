//! The table of the clients that are joined to a document: what the sequencer keeps of each.
//!
//! A finite map from ids to rows. An id is found in a number of comparisons that grows with the
//! logarithm of the clients; the least reference stands at the top of an index.
//!
//! - `table`: `Clients` and its `Row`.
//! - `index`: `Least`, which finds the least of values that have a `Rank`, and `round`, one round of its tournament.
//! - `steps`: `Steps`, which counts comparisons for contracts alone.
//! - `state`: `SequencerState`, what a sequencer is made of.
#![tactic(auto)]

pub mod index;
mod round;
mod state;
mod steps;
mod table;

pub use state::SequencerState;
pub use steps::Steps;
pub use table::{Clients, Row};
