//! Tests of the channels of a document over several crates: what a client shows, edits and summaries, line by line.
#![tactic(auto)]

#[cfg(test)]
mod play;
#[cfg(test)]
mod random;
#[cfg(test)]
mod shows;
#[cfg(test)]
mod trees;
