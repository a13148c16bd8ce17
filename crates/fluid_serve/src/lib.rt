//! The command `serve`: sessions over the wires of a front, each in a job of its own, and a worker beside them.
//!
//! - `serving`: the two parts, and how they end. `sessions`: what is done with a wire. `sitting`: a session on one. `desk`: what a run is
//!   given.
#![tactic(auto)]

mod desk;
mod serving;
mod sessions;
mod sitting;

pub use desk::Desk;
pub use serving::serve;
