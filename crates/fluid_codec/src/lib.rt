//! The JSON texts of the protocol, both ways: raw entries, messages, nacks and verdict lines, events and replies.
//! `records`, `messages`, `verdicts`, `events` and `replies` have the readers and printers of each. `forms` says how a member
//! or an argument is read and which fault it has, `rows` how values, members and items are printed, `hexadecimal` and `batches` what
//! events hold, `reading` reads JSON first, and `laws` says what ties the two ways.
//! Which text spells and prints a record or a message, and which fault stands first, is defined in `fluid_types`.
#![tactic(auto)]

mod batches;
mod events;
mod forms;
mod hexadecimal;
mod laws;
mod messages;
mod names;
mod reading;
mod records;
mod replies;
mod rows;
mod verdicts;

pub use events::{Asked, Event, read_event};
pub use fluid_types::{Messages, Submissions};
pub use laws::{answers_are_spelled, printed_is_read_back};
pub use messages::{message_of, print_message, read_message};
pub use names::{EventName, Mode};
pub use records::{print_raw, read_raw};
pub use replies::{Reply, print_event};
pub use verdicts::{print_verdict, push_verdict};
