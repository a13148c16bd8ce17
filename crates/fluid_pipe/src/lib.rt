//! Lines in, lines out: reads an input line by line, gives each line to a taker, and writes what the taker has for it.
//! `taker` says what a taker is, `refusal` why a line is refused, `stop` how a run ends before its input does, `flow` is
//! the run, and `sink` hands output on.
#![tactic(auto)]

mod flow;
mod refusal;
mod sink;
mod stop;
mod taker;

pub use flow::pipe;
pub use refusal::Refusal;
pub use sink::write_out;
pub use stop::Stop;
pub use taker::{Taker, Untaken};
