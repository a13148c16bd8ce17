//! Tests of `fluid_gen` and `fluid_words`, beside none of their code, so that neither is proved twice.
#![tactic(auto)]

#[cfg(test)]
mod acts;
#[cfg(test)]
mod words;
