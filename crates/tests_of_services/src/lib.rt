//! Tests of documents and connections as one user has them: tables of texts that connections hear, of what is said to each, and of the
//! documents behind them, over shelves and objects in memory. They stand above `fluid_lanes`, so that it isn't proved a second time
//! for its tests. There is no code here beside them.
#![tactic(auto)]

#[cfg(test)]
mod desks;
#[cfg(test)]
mod documents;
#[cfg(test)]
mod lives;
#[cfg(test)]
mod words;
