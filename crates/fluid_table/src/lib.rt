//! Tables that are searched by key: entries in one vector, in byte order of their keys, each key once.
//!
//! A search takes a number of comparisons that grows with the logarithm of the entries. A new key moves the entries behind
//! it. Contracts see a finite map (`specs/Table.antt`).
//!
//! - `map`: `SortedMap`, values under keys of a type of one's own, with the room that there is for more keys.
//! - `keyed`: what has its key in itself, as `Entry`. The vector stays its owner's, who keeps it in order and knows its room.
#![tactic(auto)]

mod keyed;
mod map;

pub use keyed::{Entry, find, is_in_order, put};
pub use map::{Key, SortedMap};
