//! What keeps one document on three disks that are handed in: a record file each for its log, its deltas and its checkpoints.
//! `keeper` cuts its log as every keeper does; `growing` is the one whose log only grows, for a document's order.
#![tactic(auto)]

mod growing;
mod keeper;

pub use growing::GrowingKeeper;
pub use keeper::{DiskKeeper, Disks};
