//! One document's order.
//!
//! - `lane`: the lane: its order, its log, its checkpoints.
//! - `start`: how a lane begins, from what its keeper has.
//! - `silent`: who was silent for too long.
//! - `steps`: what its calls add to the list of steps for which it stands.
//! - `fault`: why a call is refused.
//! - `laws`: what a lane says of its ledger, and what an opening adds.
#![tactic(auto)]

mod fault;
mod lane;
mod laws;
mod silent;
mod start;
mod steps;

pub use fault::LaneFault;
pub use fluid_core::{Core, CoreReady};
pub use fluid_rules::Limits;
pub use lane::Lane;
pub use laws::{lanes_say_their_ledgers, openings_leave, refusals_fire};
pub use steps::{Side, Step};
