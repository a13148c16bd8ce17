//! One document for many users: its lane in a turn, which each of them takes for one call.
//!
//! - `bench`: the lane as a value of a turn, and what never changes of a document.
//! - `lent`: the calls on a document by whoever has its lane in hand, by the list of steps for which it stands.
//! - `door`: the same calls for many users, each of whom has a pass.
//! - `gathering`: how an event is put together out of what is printed already.
//! - `looking`: what a lane answers to an act that enters nothing.
//! - `scribing`: what a door does about a summary that is pending; `ends`: how that ends.
//! - `laws`: what holds of passes and of new keepers.
//! - `finishing`: how a door's call enters its step and gives the turn back.
#![tactic(auto)]

mod bench;
mod door;
mod ends;
mod finishing;
mod gathering;
mod laws;
mod lent;
mod looking;
mod scribing;

pub use bench::{Bench, Terms};
pub use door::{Door, Pass};
pub use ends::{ScribeEnd, ScribeFault};
pub use laws::{know, new_keepers_are_kept};
