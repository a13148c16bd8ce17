//! Tests of connections: what each hears and is answered, over documents in memory that tell nothing of what they keep (`quiet`). They
//! stand above `fluid_connection`, so that it isn't proved a second time for its tests. There is no code here beside tests.
#![tactic(auto)]

#[cfg(test)]
mod lives;
#[cfg(test)]
mod quiet;
#[cfg(test)]
mod rows;
#[cfg(test)]
mod telling;
