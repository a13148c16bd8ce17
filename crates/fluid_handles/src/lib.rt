//! Handles of summary trees: each names a node of an earlier tree by the names on the way to it.
//! What a tree with handles stands for is a definition (`specs/Resolved.antt`); `laws` says what holds of it. A store resolves
//! handles when it takes a tree in, and a client's channels print them.
#![tactic(auto)]

pub mod laws;
