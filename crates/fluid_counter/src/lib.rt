//! A shared counter: a whole number, which many clients increment and decrement at once.
//!
//! The increments have one order, and the counter is their sum. A client's own increments are shown at once, as if they
//! were next in the order.
//!
//! - `counter`: `SharedCounter` and its operation. `content`: its text in a summary.
//! - `laws`, `examples`: what holds of the definitions.
#![tactic(auto)]

mod content;
mod counter;
pub mod examples;
pub mod laws;

pub use counter::{CounterOp, SharedCounter};
