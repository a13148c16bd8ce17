//! The channels of a document as one client has them: what the messages of the order make of them, and the client's own
//! edits that are on their way, laid over.
//!
//! Two things are kept: the channels behind the messages, which a message changes whatever is pending, and the list of
//! pending edits, oldest first. What is shown is the replay of the one on the other, made when it is asked for.
//!
//! - `app`: `App`. `fault`: why an edit is refused. `slots`: the channels that stand. `shown`: what a client shows, as JSON.
//! - `summary`: the tree in which a summary keeps the channels. `loading`: the channels that such a tree keeps.
//! - `laws`: what holds of the definitions.
//!
//! What edits and messages make of channels is defined in `fluid_edits` (`specs/Replay.antt`).
#![tactic(auto)]

mod app;
mod fault;
pub mod laws;
mod loading;
mod shown;
mod slots;
mod summary;

pub use app::App;
pub use fault::EditFault;
pub use fluid_edits::{ChannelKind, Edit, read_edit};
