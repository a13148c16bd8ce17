//! Tests of scripts: what steps write, line by line, over shelves and objects in memory, which lines are refused, and how a script ends
//! where a keeper or the store fails or what is stored is refused. They stand above `fluid_world`, so that it isn't proved a second
//! time for its tests. There is no code here beside them.
#![tactic(auto)]

#[cfg(test)]
mod faults;
#[cfg(test)]
mod lines;
#[cfg(test)]
mod runs;
#[cfg(test)]
mod scripts;
