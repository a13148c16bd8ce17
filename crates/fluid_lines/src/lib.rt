//! Wires: one end of a connection over which texts come in and go out, with its history of texts (`wire`), in memory
//! for tests (`memory`) and with one text a line over a source and a sink (`lined`).
#![tactic(auto)]

mod lined;
mod memory;
mod wire;

pub use lined::LineWire;
pub use memory::{MemoryWire, WireScript};
pub use wire::{Recv, Wire, WireFault, WireText};
