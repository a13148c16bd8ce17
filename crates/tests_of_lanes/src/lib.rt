//! Tests of the lane of a document, over keepers in memory: each call of the keeper fails once, limits, cuts that are owed,
//! pages that go to the keeper, what is damaged, and leaves at a start. They stand above the lane, so that it isn't proved a
//! second time for its tests.
//! `calls` has the calls on a document, and what they answer in words; `lives` makes them. There is no code here beside tests.
#![tactic(auto)]

#[cfg(test)]
mod calls;
#[cfg(test)]
mod cuts;
#[cfg(test)]
mod faults;
#[cfg(test)]
mod limits;
#[cfg(test)]
mod lives;
#[cfg(test)]
mod pages;
#[cfg(test)]
mod rows;
#[cfg(test)]
mod starts;
