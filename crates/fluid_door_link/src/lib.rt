//! A container's link to a document whose lane, and to a store of objects, that are lent to it.
//!
//! - `door_link`: `DoorLink`. `course`: what became of lane and store since they were lent. `told_objects`: a store that tells what it holds
//!   only where that may be told. `notes`: whose link it is, and what was fetched and taken by it.
//! - `calling`: calls on lane and store. `answers`, `handles`: what a link answers and counts. `fault`: why a call failed.
//! - `specs/Telling.antt`: what lane and store tell. `specs/Coursing.antt`: what became of them. `specs/Failing.antt`: why a call failed.
//!   `specs/Linking.antt`: what each call does to what is told. `specs/Hushing.antt`: what is told of a store.
#![tactic(auto)]

mod answers;
mod calling;
mod course;
mod door_link;
mod fault;
mod handles;
mod notes;
mod told_objects;

pub use course::{Begun, Course};
pub use door_link::DoorLink;
pub use fault::LentFault;
pub use notes::Notes;
pub use told_objects::ToldObjects;
