//! What a script writes: definitions, with worked examples and laws. The bytes that are written for a list of lines are a
//! function of these lines, of what was entered and of what was stored.
//!
//! - `specs/World.antt`: a world, which is raw entries, checkpoints, objects and what names stand for; and what a step changes.
//! - `specs/Lines.antt`: the lines. `specs/Connections.antt`, `specs/Documents.antt`, `specs/Containers.antt` and `specs/Roamers.antt`: what each step
//!   changes and writes, read from the world before it; each has its part of the one table, `effect` of `specs/Steps.antt`.
//! - `specs/Transcript.antt`: which line is refused, first uses, the limit on documents, and all lines one after another.
//! - `laws` and `examples` say that what `specs/Laws.antt` and `specs/Examples.antt` state is proved.
#![tactic(auto)]

pub mod examples;
pub mod laws;
