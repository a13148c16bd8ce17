//! The documents of one user at a time: lanes by name.
//!
//! A document is opened at its first use, over its keeper from the shelves; when all is closed, each keeper is back on its shelf.
//!
//! - `lanes`: `Lanes`, the open documents by name. `rows`: the table that they stand in. `closing`: how all are closed.
#![tactic(auto)]

mod closing;
mod lanes;
mod rows;

pub use fluid_opening::{DoorFault, MOST_DOCUMENTS};
pub use lanes::Lanes;
