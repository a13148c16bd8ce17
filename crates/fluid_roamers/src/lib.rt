//! The steps of a script on roamers, done over the open documents of one user. A roamer is one user's edits over many clients of a
//! document: its channels with the edits laid over, and an outbox that sends each edit so that it stands once. What each step leaves
//! and writes is what `fluid_transcript` says of the world for which the documents stand.
//!
//! - `roamer`: a roamer, by what it is told and asked. `entering`: its client joins, submits and leaves, on the lane of its document.
//! - `hearing`: it takes in messages. `sending`: it sends what waits. `stepping`: the steps, on a desk. `lines`: what they write.
//! - `specs/Ahead.antt`: how an outbox stands beside a ledger. `specs/Roaming.antt`: when a roamer is the world's.
//!   `specs/Taking.antt`: what messages make of one. `specs/Entering.antt`, `specs/Stepping.antt`: what calls and steps owe.
#![tactic(auto)]

mod entering;
mod hearing;
mod lines;
mod roamer;
mod sending;
mod stepping;

pub use roamer::Roamer;
pub use stepping::{acked, back, lose, roam, say, show};
