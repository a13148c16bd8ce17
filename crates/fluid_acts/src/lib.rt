//! What a connection's acts do: an act is one call on a lane or on the store of objects.
//!
//! Its end is the one that the document's ledger and the store give it (`fluid_voice`'s `outcome`), or the fault of that call.
//!
//! - `doing`: `do_act`. `asking`: the acts that enter nothing. `laws`: what holds of several.
#![tactic(auto)]

mod asking;
mod doing;
pub mod laws;

pub use asking::{get_object, put_object};
pub use doing::{do_act, refused};
pub use fluid_ends::TalkFault;
