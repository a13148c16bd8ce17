//! Tests of sessions: whole wires over documents in memory. They stand above `fluid_hosting`, so that it isn't proved a second time for
//! its tests. There is no code here beside tests.
#![tactic(auto)]

#[cfg(test)]
mod beside;
#[cfg(test)]
mod cycled;
#[cfg(test)]
mod rows;
#[cfg(test)]
mod sitting;
