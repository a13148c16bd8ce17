//! Sessions over the documents of a service: what one wire hears and says, from its first text to its end.
//!
//! - `hosting`: a session, from a key and perhaps a visit to what comes back of them. `hosted`: one that goes cycle by cycle.
#![tactic(auto)]

mod hosted;
mod hosting;

pub use fluid_session::{MOST_UNREAD, Report, SessionEnd};
pub use hosted::Hosted;
pub use hosting::session;
