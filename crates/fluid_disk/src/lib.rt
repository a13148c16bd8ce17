//! A record file on a disk that is handed in: after a crash at any moment everything that was appended is there.
//! `disk` is what a disk promises, with what a crash may leave between two syncs, and `memory` a disk in memory whose
//! calls fail by plan and which can crash. `file` is a row of records on a disk, `opening` walks one that a crash may
//! have left, and `writing` has the steps of its writing calls.
#![tactic(auto)]

mod call;
mod disk;
mod file;
mod memory;
mod opening;
mod owed;
mod reading;
mod writing;

pub use disk::Disk;
pub use file::{RecordFile, opening_finds_one_list};
pub use memory::MemoryDisk;
