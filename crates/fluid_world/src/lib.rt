//! A script: the lines of an input are steps, done one after another over the documents and the store of one user.
//!
//! - `running`: the commands `script` and `load`, over shelves and a store that they give back. `ends`, `ending`: why a script ended.
//! - `taking`: a script between two lines. `origin`: the world from which it begins. `halted`: that a step ended one. `named`, `names`: what its names stand for.
//! - `doing`: a step, by its form. `calling`: the steps of connections. `holding`: the steps of containers. `roaming`: those of roamers. `lines`: what a step writes.
//! - `specs/Standing.antt`: when a script stands for a world, and what a step owes. `specs/Naming.antt`: refusals by names.
//!   `specs/Taking.antt`, `specs/Going.antt`: a script as a taker of lines. `specs/Ending.antt`: what an end says.
#![tactic(auto)]

mod calling;
mod doing;
mod ending;
mod ends;
mod halted;
mod holding;
mod lines;
mod named;
mod names;
mod origin;
mod roaming;
mod running;
mod taking;

pub use doing::{refusal, take_step};
pub use ending::end_for;
pub use ends::ScriptEnd;
pub use named::{NameKey, Named};
pub use names::Names;
pub use running::{script, script_within};
