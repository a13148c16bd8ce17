//! A value for the proofs alone.
#![tactic(auto)]

mod tale;

pub use tale::{Tale, tell};
