//! What one connection says and hears, with no lane, no store and no wire in it.
//!
//! A text that a connection hears asks for acts; each act is one call on a document's lane or on the store of objects, and
//! whoever makes these calls gives each act's end back. From the end come replies, and the state in which the connection is then.
//! Both are definitions: over a state and a text (`specs/Heard.antt`), and over a state, an act and its end (`specs/Replies.antt`).
//! What a document or a store answers to an act is read out of its ledger or what it holds (`specs/Ends.antt`).
//!
//! - `states`: where a connection stands. `actions`: acts. `ends`: how acts end. `refusals`: why a connect is refused.
//! - `voices`: `Voice`. `hearing`: the acts of a text. `answering`: the replies to an end.
//! - `orders`: what is asked of an order's messages and summaries. `laws`: what holds of the definitions. `examples`: some, computed.
#![tactic(auto)]

mod actions;
mod answering;
mod ends;
pub mod examples;
mod hearing;
pub mod laws;
mod orders;
mod refusals;
mod states;
mod voices;

pub use actions::{Act, Acts};
pub use answering::{MOST_IN_EVENT, Replies, front_nack, has_front_nack, is_front_nack};
pub use ends::ActEnd;
pub use fluid_codec::{Asked, Reply};
pub use hearing::is_connected;
pub use orders::{out_of_range, range_asked, summary_asked};
pub use refusals::ConnectRefusal;
pub use states::VoiceState;
pub use voices::Voice;
