//! Hints to whoever works beside the sessions of a service: that a text was worked off, so that there may be something to do.
//!
//! - `bell`: whether a hint is on its way. `wire`: a wire that gives hints.
#![tactic(auto)]

mod bell;
mod wire;

pub use bell::Bell;
pub use wire::HintWire;
