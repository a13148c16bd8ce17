//! What a workload writes: definitions, with worked examples. The seven lines are a function of the workload's number, of how many
//! clients and ops it has, and of what was stored before.
//!
//! - `specs/Working.antt`: what each act of a workload does, as steps of a script and as acts of a client's connection, in the world
//!   of a script. `specs/Summary.antt`: the lines.
#![tactic(auto)]

pub mod examples;
