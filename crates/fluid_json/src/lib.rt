//! JSON values (RFC 8259) with whole numbers alone: read from a text with `serde_json`, looked into, copied and printed.
//! `value` has the type `Json`, `collections` the lists that it is made of, `owned` texts and bytes, `memory` want of memory.
//! `reading` and `nesting` have the reader and the depth of a text, `printing` the printer of values and tokens.
//! Contracts see a value as a tree (`specs/Tree.antt`); which text spells it and which is printed for it stands in
//! `specs/Spelled.antt` and `specs/Printed.antt`, and `laws` says that what is printed is read back, up to 100 deep, or 120 where it is stored.
#![tactic(auto)]

mod collections;
mod conversion;
mod copying;
mod fault;
pub mod laws;
mod memory;
pub mod nesting;
mod owned;
mod printing;
mod reading;
mod value;

pub use collections::{Items, Pairs};
pub use fault::JsonFault;
pub use memory::NoMemory;
pub use owned::{Bytes, Text};
pub use printing::{Printer, print};
pub use reading::{read, read_stored};
pub use value::{Json, LARGEST};
