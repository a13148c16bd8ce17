//! What the words behind the program's name ask for. `command` says what may be asked, `number` reads a number, `found`
//! looks for a command's values among words, `read` reads the words, and `examples` has what some words ask for.
#![tactic(auto)]

mod command;
pub mod examples;
mod found;
mod number;
mod read;

pub use command::{Command, CommandName, WordsFault};
pub use number::read_number;
pub use read::read_words;
