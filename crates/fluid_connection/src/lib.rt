//! A connection over the documents of a service that many use: what it hears, enters and is answered, call by call.
//!
//! A text is read, and its acts are made, before the turn of its document is taken; the turn is taken once for each entry, and what is
//! answered is printed outside of it. Messages that nobody has collected yet are printed under it, once for all who collect them.
//!
//! - `talk`: `Talk`, a connection. `collecting`: what it delivers. `leaving`: how it leaves. `hearing`: what comes of a text.
//!   `connecting`: how a document is reached. `entering`: the entries of a text, one after another. `asking`: what else a text asks for.
//!   `telling`: what is said to it. `laws`: what holds of what is heard.
#![tactic(auto)]

mod asking;
mod collecting;
mod connecting;
mod entering;
mod hearing;
pub mod laws;
mod leaving;
mod talk;
mod telling;

pub use talk::Talk;
