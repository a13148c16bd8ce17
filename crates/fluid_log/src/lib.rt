//! What is kept of a document: the log of its raw entries, its deltas and its checkpoints (`keeper`), and where
//! keepers come from (`shelves`), each in memory too (`memory`, `memory_shelves`).
//! A contract sees the content of a keeper that tells it; of every keeper it sees the three lengths and how many
//! faults and reads were counted. Of all shelves it sees which keepers are out. `fault` has what keepers answer, and
//! shelves in memory have a `place` for each name in a `table`.
#![tactic(auto)]

mod fault;
mod keeper;
mod memory;
mod memory_shelves;
mod place;
mod shelves;
mod table;

pub use fault::KeeperFault;
pub use keeper::{Keeper, LONGEST_KEPT, is_sized};
pub use memory::MemoryKeeper;
pub use memory_shelves::MemoryShelves;
pub use place::Place;
pub use shelves::Shelves;
