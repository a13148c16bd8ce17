//! The shelves of many documents, each on disks of its own, which are handed in.
//!
//! - `seat`: where the keeper of a document is.
//! - `shelves`: `DiskShelves`, which open the disks of a document where its keeper is first asked for.
#![tactic(auto)]

mod seat;
mod shelves;

pub use seat::Seat;
pub use shelves::DiskShelves;
