//! The sequencer of a document: it gives each raw entry its verdict, and each sequenced one its number
//! and its minimum.
//!
//! An entry is prepared, which makes every growth, and then committed, which takes no memory; what is not
//! committed changes nothing. `specs/State.antt` has the verdict in the state that is kept, and
//! `specs/Ledger.antt` the state of a ledger: where the sequencer stands for a ledger, its verdict is the
//! one that the rules read out of all the entries.
//!
//! - `sequencer`: `Sequencer`.
//! - `ready`: a prepared entry, `Ready`, and what it changes.
//! - `outcome`: what becomes of a submission.
//! - `laws`: that the rows are those of the joined clients.
//! - `messages`: the messages of entries. `answers`: what the answers to a summary say.
#![tactic(auto)]

mod answers;
mod laws;
mod messages;
mod outcome;
mod ready;
mod sequencer;

pub use laws::rows_are_joined;
pub use outcome::Outcome;
pub use ready::{Change, Ready};
pub use sequencer::Sequencer;
