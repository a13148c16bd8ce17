//! What the clients of a workload do in their turns, and what is counted meanwhile: parts of a workload, each on its own.
//!
//! - `texts`: the names of a workload, and the edits of its clients. `writer`: a client that writes to the document. `saying`: what it
//!   submits. `sent`: what it submitted last. `entering`: its entry, on the document.
//! - `tally`: how often there was each verdict. `figures`: the numbers of the document.
#![tactic(auto)]

mod entering;
mod figures;
pub mod laws;
mod saying;
mod sent;
mod tally;
mod texts;
mod writer;

pub use entering::enter;
pub use figures::{Figures, figures_of};
pub use saying::{Saying, submission};
pub use sent::{ClientKey, Fitting, Sent};
pub use tally::Tally;
pub use texts::{counter, delete, first, increment, last, map, named, set, work};
pub use writer::{Writer, entry, writer_of};
