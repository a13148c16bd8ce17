//! A shared map: keys with JSON values, which many clients set, delete and clear at once.
//!
//! The operations have one order, and the last that speaks of a key decides its value. A client's own
//! changes are shown at once, over the rest, as if they were next in the order.
//!
//! - `operation`: `MapOp`. `shared`: `SharedMap`. `pending`: the client's own changes that are on their way.
//! - `content`: the text of a map in a summary. `copying`: its keys and values once more. `laws`, `examples`: what holds of the definitions.
#![tactic(auto)]

mod content;
mod copying;
pub mod examples;
pub mod laws;
mod operation;
mod pending;
mod shared;

pub use operation::MapOp;
pub use shared::SharedMap;
