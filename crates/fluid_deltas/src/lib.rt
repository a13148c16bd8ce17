//! The messages of a document's order, and their way into a keeper's deltas and back: `deltas`.
//! In memory they stand in `pages`, behind the first deltas of a keeper; those before are read from it (`kept`), and what it
//! lacks is put (`put`). `fault` has what a call answers.
#![tactic(auto)]

mod deltas;
mod fault;
mod kept;
mod pages;
mod put;

pub use deltas::Deltas;
pub use fault::DeltaFault;
pub use pages::{PAGE, PAGES, RESIDENT};
