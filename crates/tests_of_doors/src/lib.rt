//! Tests of doors over keepers in memory: each call of the keeper failing once, and two callers in two threads, who then meet. `callers`
//! makes the calls; `operation` is what they take to other threads.
#![tactic(auto)]

#[cfg(test)]
mod callers;
#[cfg(test)]
mod failing;
#[cfg(test)]
mod meeting;
mod operation;
