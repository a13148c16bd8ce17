//! The text of a checkpoint of a document.
//!
//! - `state`: what a checkpoint says, `State`, and what a text is read as, `Form`. `heard`: `Moments`, when each client was
//!   heard last.
//! - `printing`: the text of a state, and `texts` those of what stands in its lists.
//! - `reading`: what a text says. `members`, `items` and `forms`: the forms of its members, of the items of lists, and of single
//!   values. `trimming`: the values of a base without members that they haven't.
//! - `fault`: why a text is refused. `version`: the versions of the text. `laws`: what is printed is read back.
#![tactic(auto)]

mod fault;
mod forms;
mod heard;
mod items;
pub mod laws;
mod members;
mod printing;
mod reading;
mod state;
mod texts;
mod trimming;
mod version;

pub use fault::CheckpointFault;
pub use heard::Moments;
pub use printing::print;
pub use reading::read;
pub use state::{Form, State};
