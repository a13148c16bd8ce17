//! The acts of a workload: what a number of clients do to one document, drawn from a number by a stated rule, so that
//! each run of it is the same. `act` says what they may do, `random` draws numbers, and `workload` gives the acts one by
//! one.
#![tactic(auto)]

mod act;
mod random;
mod workload;

pub use act::Act;
pub use workload::Workload;
