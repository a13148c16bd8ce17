//! The store of Git's objects: what is put into it, found in it and read back from it by id.
//! `objects` has the trait of a store, and `memory` one in memory; `fault` says why a call is refused, and `keeping` looks
//! an object up and puts it where nothing else is held under its id. `following` looks up where handles lead, `listing` lists the objects of a summary tree in the
//! order in which they are put, `uploading` puts them, up to the first clash, `fetching` reads a tree back, and `completing` says whether all of
//! one is held; `laws` says what holds of the definitions. What it means that a tree stands under an id is a definition
//! over the finite map from ids to bytes that a store holds (`specs/Standing.antt`).
#![tactic(auto)]

mod completing;
mod fault;
mod fetching;
mod following;
mod keeping;
pub mod laws;
mod listing;
mod memory;
mod objects;
mod uploading;

pub use completing::complete;
pub use fault::{ObjectFault, StoreFault};
pub use fetching::fetch;
pub use keeping::store_object;
pub use listing::StoredObject;
pub use memory::MemoryObjects;
pub use objects::Objects;
pub use uploading::{store_objects, upload};
