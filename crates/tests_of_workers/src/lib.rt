//! Tests of `fluid_worker`, beside none of its code: what it does at its hints, and that no fault ends it (`rounds`); whom it takes for
//! gone (`silence`).
#![tactic(auto)]

#[cfg(test)]
mod rounds;
#[cfg(test)]
mod silence;
