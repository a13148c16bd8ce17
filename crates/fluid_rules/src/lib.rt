//! The rules of a document: which verdict a raw entry gets over the entries before it, and what the scribe answers to a
//! summary. Definitions and laws, the types of summaries and of the scribe's answers, the texts of its refusals, and the limits
//! of a document.
//! `specs/Past.antt` reads what a ledger says of its clients from its last entry back, `specs/Rules.antt` has the
//! sequencing rules in the words that other crates cite, `specs/Scribe.antt` the scribe's, and `specs/Laws.antt` and
//! `specs/ScribeLaws.antt` what follows from them.
//! `laws` and `examples` say that these laws, and what comes of some small ledgers and orders, are proved.
#![tactic(auto)]

mod answers;
pub mod examples;
pub mod laws;
mod limits;

pub use answers::{Answer, Proposed, SummaryRule};
pub use limits::{Limits, is_counted};
