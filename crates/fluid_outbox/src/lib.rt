//! The edits of one user over many connections. An outbox keeps each edit until its op was heard in the order, sends none again
//! before the leave of the id under which it was sent, and so gets each into the order at most once, and in turn.
//! `specs/Past.antt` says what the calls on an outbox make of it, `specs/Kept.antt` what is kept of them, and `specs/Runs.antt` what
//! a run is, calls beside a legal ledger, and what holds of every run.
#![tactic(auto)]

pub mod examples;
mod keeping;
pub mod laws;
mod line;
mod outbox;

pub use outbox::Outbox;
