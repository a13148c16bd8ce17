//! What the program shows to a person, and so which commands are built.
#![tactic(auto)]

mod pages;

pub use pages::{USAGE, VERSION, page};
