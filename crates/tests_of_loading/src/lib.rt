//! Tests of containers over a link in memory, whose messages a document's core sequences, line by line.
#![tactic(auto)]

#[cfg(test)]
mod document;
#[cfg(test)]
mod edits;
#[cfg(test)]
mod loads;
#[cfg(test)]
mod play;
#[cfg(test)]
mod told;
