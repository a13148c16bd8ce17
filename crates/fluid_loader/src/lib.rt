//! A container: a document as one client has it, loaded from a summary and the messages behind it, which is the same as
//! replaying everything.
//!
//! - `link`: the trait by which a container reaches its document.
//! - `container`: `Container`. `version`: the tree of a summary, read object by object. `fault`: why a call is refused.
//! - `submitting`: the submissions of a container. `following`: its quorum.
//! - `list_link`: `ListLink`, a link over an order and objects in memory. `order`: `Order`. `acknowledging`: the summary that is
//!   picked in an order.
//!
//! What a link tells, and what each call of it does, is in `specs/Link.antt`; what a container stands for in
//! `specs/Container.antt`; what is read of a summary, with the path of the first fault, in `specs/Version.antt`.
#![tactic(auto)]

mod acknowledging;
mod container;
mod fault;
mod following;
pub mod laws;
mod link;
mod list_link;
mod order;
mod submitting;
mod version;

pub use container::Container;
pub use fault::LoadFault;
pub use link::{Given, Link, LinkFault, Pick};
pub use list_link::{ListLink, handles_in};
pub use order::Order;
