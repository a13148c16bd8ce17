//! Tests of the rules over the sequencer, over its table of clients and over the index of their references. There is no code here beside them.
#![tactic(auto)]

#[cfg(test)]
mod clients;
#[cfg(test)]
mod least;
#[cfg(test)]
mod noops;
#[cfg(test)]
mod records;
