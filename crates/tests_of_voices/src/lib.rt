//! Tests of what a connection says and hears: tables of texts, of the acts that they ask for, of how these end, and of the replies.
//! They stand above `fluid_voice`, so that it isn't proved a second time for its tests. There is no code here beside them.
#![tactic(auto)]

#[cfg(test)]
mod lives;
#[cfg(test)]
mod telling;
#[cfg(test)]
mod worlds;
