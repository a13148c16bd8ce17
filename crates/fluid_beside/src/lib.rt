//! What a step of a script leaves of the names that aren't its own: laws alone, no code that runs.
//!
//! `specs/Beside.antt` has the statements.
#![tactic(auto)]

mod laws;

pub use laws::steps_leave_others;
