//! When a container that is held is the one that a script's world has, and that both do alike: laws alone, no code that runs.
//!
//! `specs/Holding.antt` has the relation, `specs/Laws.antt` the laws.
#![tactic(auto)]

mod laws;

pub use laws::{
    based_trees_are_taken, based_trees_are_whole, containers_catch_up, containers_load,
    ops_are_short, others_leave_containers, owned_stays_owned, submissions_are_counted,
};
