//! Which values of a running service may cross threads, type by type, where one search for all of it would find no end. The lemmas are
//! cited by whoever shares a service or a door between threads.
#![tactic(auto)]

mod laws;

pub use laws::{documents_cross, services_cross};
