//! Tests of real wires and their front, on the loopback address, in a crate above theirs. `peers` has the other ends.
#![tactic(auto)]

#[cfg(test)]
mod fronts;
#[cfg(test)]
mod peers;
#[cfg(test)]
mod waking;
#[cfg(test)]
mod wires;
