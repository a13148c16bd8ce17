//! What is read from a text of bounded length fits a log, what fits is in the grammar, the message of an entry that fits can
//! be kept and read back, and so can the quorum of an order's messages, by its blobs.
//!
//! The crate has laws alone, no code that runs. It stands above the readers of `fluid_codec` and `fluid_quorum`: that a value
//! which a text spells is nested at most 100 deep is shown over the readers' lexemes.

#![tactic(auto)]

mod laws;

pub use laws::{
    blobs_of_messages_are_read_back, fitting_entries_are_in_grammar, leaves_and_reports_fit,
    messages_are_read_back, read_entries_fit, read_values_are_bounded, spelled_entries_fit,
    texts_want_no_memory,
};
