//! How a document is opened: its keeper is taken from the shelves, and its lane is started over it.
//!
//! Whoever keeps open documents, one after another or for many connections at once, opens them so. After a fault the keeper is
//! back on its shelf (`specs/Opening.antt`).
//!
//! - `fault`: why a document isn't opened. `opening`: how it is. `shelf`: the steps by which documents are opened one after another
//!   (`specs/Steps.antt` says what a list of them tells).
#![tactic(auto)]

mod fault;
mod opening;
mod shelf;

pub use fault::DoorFault;
pub use fluid_lane::{Lane, LaneFault, Limits};
pub use opening::{MOST_DOCUMENTS, start_lane};
pub use shelf::ShelfStep;
