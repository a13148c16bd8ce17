//! The steps of a script on connections, done over the open documents of one user: `send`, `collect` and `close`; and `tasks`, which
//! reads the messages of a document as `collect` does. What each leaves and writes is what `fluid_transcript` says of the world for
//! which the documents, the shelves and the store stand.
//!
//! - `sending`: a connection hears a text. `hearing`: the acts of a text, on the lane of their document. `nowhere`: those that reach no
//!   document. `collecting`: the messages that weren't delivered. `closing`: a connection leaves. `tasking`: what the messages of a
//!   document make of its queues and tasks. `written`: lines with their ends.
#![tactic(auto)]

mod closing;
mod collecting;
mod hearing;
mod nowhere;
mod sending;
mod tasking;
mod written;

pub use closing::close;
pub use collecting::{collect, messages_from};
pub use hearing::delta_stop;
pub use sending::send;
pub use tasking::tasks;
pub use written::Written;
