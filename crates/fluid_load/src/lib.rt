//! A workload: the acts of a stated generator, done one after another over the documents and the store of one user, in the world of a
//! script, with a summary of seven lines behind the last.
//!
//! - `running`: the command `workload`, over shelves and a store that it gives back. `working`: a workload between two acts.
//! - `acting`: an act, as steps of a script and as submissions of clients. `stepping`: a step that may be refused. `states`: the id of a container's channels.
//!   `lines`: the summary.
//! - `specs/Standing.antt`: when a workload stands for what the definition says, and what an act owes. `specs/Ending.antt`: what an end
//!   says.
#![tactic(auto)]

mod acting;
mod lines;
mod running;
mod states;
mod stepping;
mod working;

pub use running::{workload, workload_within};
