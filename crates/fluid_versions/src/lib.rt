//! The version of a document that a summary asks for: whether its tree is held, and the objects that are put for it.
//!
//! - `putting`: looks for the tree, and puts the objects.
//! - `listing`: lists the objects.
#![tactic(auto)]

mod listing;
mod putting;

pub use putting::put_version;
