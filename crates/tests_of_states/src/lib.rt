//! Tests of what is kept of a document's entries: the sequencer, the quorum, the scribe, and sequencer and scribe together.
//! They stand above those crates, so that none of these is proved a second time for its tests. There is no code here beside them.
#![tactic(auto)]

#[cfg(test)]
mod answering;
#[cfg(test)]
mod entering;
#[cfg(test)]
mod orders;
#[cfg(test)]
mod plain;
#[cfg(test)]
mod quorums;
#[cfg(test)]
mod sequencing;
#[cfg(test)]
mod texts;
