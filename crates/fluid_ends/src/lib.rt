//! What the end of an act leaves: the steps that it added to its document, or why the act failed.
//!
//! An act is one thing that a connection's text asks for (`fluid_voice`). Whoever does acts, one user after another or many
//! connections at once, says by these definitions what an end added (`specs/Adding.antt`) and of which an act is asked
//! (`specs/Asking.antt`).
//!
//! - `fault`: why an act fails. `copies`: faults with their own memory.
#![tactic(auto)]

mod copies;
mod fault;

pub use fault::TalkFault;
pub use fluid_opening::DoorFault;
