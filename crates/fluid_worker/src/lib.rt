//! What works beside the sessions of a service: at a hint it does for each open document what there is to do. It answers the summary
//! that is pending, and whoever was silent for too long is taken for gone.
//!
//! - `working`: from hint to hint, over all documents. `tending`: what is done for one of them.
#![tactic(auto)]

mod tending;
mod working;

pub use tending::{SILENCE, tend};
pub use working::work;
