//! A workload ends with two containers that have the same state: a law alone, no code that runs.
//!
//! `specs/Alike.antt` has the law.
#![tactic(auto)]

mod laws;

pub use laws::workloads_end_same;
