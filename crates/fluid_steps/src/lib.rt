//! The steps of a script: one line each, words with one blank between them, a space or a tab.
//!
//! - `steps`: `Step`, which is everything that a line may ask for. `names`: the names of connections, containers and roamers.
//! - `reading`: the step that a line spells; the grammar is `specs/Grammar.antt`. `ops`: the edit in the JSON of an `edit`.
//! - `refusal`: why a line is refused. `nesting`: how deep a text is nested. `examples`: what some lines spell.
#![tactic(auto)]

pub mod examples;
mod names;
mod nesting;
mod ops;
mod reading;
mod refusal;
mod steps;

pub use fluid_edits::{ChannelKind, Edit};
pub use fluid_loader::Pick;
pub use names::ScriptName;
pub use reading::read_step;
pub use refusal::LineWhy;
pub use steps::{Step, StepWord};
