//! Sequencer and scribe together: what enters the raw entries of one document's order.
//!
//! - `entering`: `Core`, which gives each entry its verdict and keeps what the next one needs, and `CoreReady`, an entry with its
//!   verdict that is not yet entered. `laws`: what holds of the definitions.
#![tactic(auto)]

mod entering;
pub mod laws;

pub use entering::{Core, CoreParts, CoreReady};
