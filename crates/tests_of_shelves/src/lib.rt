//! Tests of a service over shelves in memory: tables of steps on its documents, and two documents in two threads, one of which waits in
//! its log for the other. `quiet` has the shelves, which tell nothing. There is no code here beside tests.
#![tactic(auto)]

#[cfg(test)]
mod beside;
#[cfg(test)]
mod lives;
#[cfg(test)]
mod quiet;
