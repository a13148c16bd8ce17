//! Op events that are printed once for all who get them.
//!
//! Each message is printed once. A tail keeps the texts of the last messages of an order, one behind another, and an event is put
//! together out of these: contracts see the messages, and the reply that brings them.
//!
//! - `messages`: a message that is printed. `tail`: the last ones. `events`: an op event that is printed, and lists of these.
#![tactic(auto)]

mod events;
mod messages;
mod tail;

pub use events::{EventText, Feed};
pub use messages::MessageText;
pub use tail::{KEPT, Tail};
