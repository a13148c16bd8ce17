//! How far a reader of an order has come, and which messages it gets next: `cursor`.
#![tactic(auto)]

mod cursor;

pub use cursor::Cursor;
