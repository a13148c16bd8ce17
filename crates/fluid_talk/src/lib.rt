//! What a connection over a document that many use is, in contracts: the definitions stand here, and no door does.
//!
//! A connection hears texts, collects the messages that it hasn't delivered, and leaves. `Conversation` says what each of these does
//! to what is known of it (`Talking`): where it stands, what it knows of its document, and what its key knows of the documents that
//! are open. A session is written against this trait alone.
//!
//! - `conversation`: the trait. `heard`: what comes of a text.
#![tactic(auto)]

mod conversation;
mod heard;

pub use conversation::Conversation;
pub use heard::Heard;
