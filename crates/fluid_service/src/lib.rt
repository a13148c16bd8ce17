//! Documents for many users, by name: who has a key of the service gets a door of a document, with a pass of it, and the document
//! is opened at its first use.
//!
//! What the documents share is a shelf: the shelves of their keepers, and the visits of the open documents. It stands in a turn of
//! its own, which is taken for a look-up and an opening alone; whatever is done to a document is done under its own door.
//!
//! - `service`: the service, and the keys of it. `finishing`: how a call enters its step and gives the shelf back. `ending`: how all
//!   documents are closed.
//! - `shelf`: what is done by whoever has the shelf in hand, by the list of steps for which it stands. `terms`: what never changes of a service.
//! - `visit`: a door with a pass of it. `roll`: the visits by name. `opening`: how a door is made. `laws`: with
//!   which shelves a service may begin, and what holds of every key.
#![tactic(auto)]

mod ending;
mod finishing;
mod laws;
mod opening;
mod roll;
mod service;
mod shelf;
mod terms;
mod visit;

pub use fluid_doors::{Door, Pass};
pub use fluid_opening::{DoorFault, MOST_DOCUMENTS, ShelfStep};
pub use laws::{know_key, new_shelves_are_kept};
pub use service::{Key, Service};
pub use shelf::Shelf;
pub use terms::ShelfTerms;
pub use visit::Visit;
