//! Tests of an outbox: runs of three edits, with losses at each point, line by line.
#![tactic(auto)]

#[cfg(test)]
mod play;
#[cfg(test)]
mod runs;
