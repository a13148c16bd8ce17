//! What holds of the order of a ledger that a log takes: a container's link may tell it.
//!
//! The crate has a law alone, no code that runs. It stands above the definitions of a container's link and of a kept ledger.
#![tactic(auto)]

mod laws;

pub use laws::orders_are_told;
