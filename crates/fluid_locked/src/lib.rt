//! A store of objects that many users share: each has an adapter of its own over one lock, which is taken once for each call.
#![tactic(auto)]

mod counts;
mod objects;

pub use counts::Counts;
pub use objects::LockedObjects;
