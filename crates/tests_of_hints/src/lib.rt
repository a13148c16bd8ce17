//! Tests of `fluid_hints`, beside none of its code.
#![tactic(auto)]

#[cfg(test)]
mod wires;
