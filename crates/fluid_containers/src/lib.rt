//! The steps of a script on containers, done over the open documents of one user. What each leaves and writes is what
//! `fluid_transcript` says of the world for which the documents, the shelves and the store stand.
//!
//! - `joining`: a container's client joins. `loading`: a container is loaded. `stepping`: the steps of one that was loaded. `holder`: a container with its document and client.
//! - `lines`: what the steps write. `stops`: why a script ends in one.
//! - `specs/Holders.antt`: when a container is the world's. `specs/Stepping.antt`: what a step owes. `specs/Ending.antt`: why it ends the script.
#![tactic(auto)]

mod holder;
mod joining;
mod lines;
mod loading;
mod stepping;
mod stops;

pub use holder::Holder;
pub use lines::{edit_fault_line, refused_line, shown_line, turned_away_line};
pub use loading::{Loaded, load, load_last};
pub use stepping::{beat, edit, pump, show, summarize};
