//! Tests of queues and tasks: orders of a few messages, line by line.
#![tactic(auto)]

#[cfg(test)]
mod orders;
#[cfg(test)]
mod play;
