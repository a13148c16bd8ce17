//! Tests of turns, wires and fronts, in a crate above theirs, so that none of these is proved twice.
#![tactic(auto)]

#[cfg(test)]
mod fronts;
#[cfg(test)]
mod turns;
#[cfg(test)]
mod wires;
