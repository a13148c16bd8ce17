//! The outside as the service sees it: where bytes come from (`source`), where they go (`sink`) and what time it
//! is (`clock`), each in memory for tests and over std for programs, and the lines of a source (`lines`).
//! A contract sees the bytes of an object that tells them, and of each object a count of its faults, which never
//! falls: it rises in a call that fails, and stays as it was in one that doesn't (`faults`). `plan` says which calls
//! fail in memory, `line` what a reader of lines answers, and `chunk` has the bytes that it read ahead.
#![tactic(auto)]

mod chunk;
mod clock;
mod faults;
mod line;
mod lines;
mod plan;
mod sink;
mod source;

pub use clock::{Clock, FixedClock, StdClock};
pub use faults::{Failed, FaultNote};
pub use line::{Line, LineFault};
pub use lines::{LONGEST_TEXT, Lines, MOST_LINES};
pub use plan::FaultPlan;
pub use sink::{MemorySink, Sink, StdSink, write_all};
pub use source::{MemorySource, Source, StdSource};
