//! What a crash leaves of a document whose lane stands over disks.
#![tactic(auto)]

mod closing;

pub use closing::disks_of;
