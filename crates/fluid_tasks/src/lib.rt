//! Queues and tasks on the order of a document: each item of a queue has one holder at a time, and each task the first client that
//! volunteered for it. All of it is read out of the messages of the order alone: `specs/Acts.antt` says what a message says,
//! `specs/Past.antt` what the messages make of items and tasks, `specs/Printed.antt` the text of it all, `specs/Kept.antt` what is
//! kept, and `specs/Laws.antt` what holds in every legal ledger's order.
#![tactic(auto)]

mod acts;
pub mod examples;
mod held;
pub mod laws;
mod line;
mod printing;
mod queues;
mod standing;
mod tasks;

pub use tasks::Tasks;
