//! A session: what one wire hears and says, from its first text to its end.
//!
//! A session collects what its connection hasn't delivered, sends it, receives a text, hears it and sends the replies, again and again, and
//! tries one leave when it ends. It waits in the wire, for its document, for a shelf and for the store; a thread that works on many sessions waits with it.
//!
//! - `running`: the session, over any connection and any wire. `cycling`: one cycle of it, for whoever works on many sessions. `sending`: replies on the wire.
//! - `tally`: the numbers of the report. `report`: what comes of a session, and why it ended.
//! - `laws`: what holds of every session.
#![tactic(auto)]

mod cycling;
pub mod laws;
mod report;
mod running;
mod sending;
mod tally;

pub use cycling::cycle;
pub use report::{Report, SessionEnd};
pub use running::{conclude, converse};
pub use tally::{MOST_UNREAD, Tally};
