//! Tests of what stands over a keeper or a store: the deltas of an order, the entries that are read out of a log, the objects.
//! They stand above those crates, so that none of these is proved a second time for its tests. There is no code here beside them.
#![tactic(auto)]

#[cfg(test)]
mod checkpoints;
#[cfg(test)]
mod putting;
#[cfg(test)]
mod storing;
