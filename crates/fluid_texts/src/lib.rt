//! The texts inside JSON values: those of a value that was read are UTF-8 where the text that was read is, and what is printed of such
//! a value is UTF-8.
//!
//! The crate has laws alone, no code that runs.

#![tactic(auto)]

mod laws;

pub use laws::{texts_are_printed, texts_are_read};
