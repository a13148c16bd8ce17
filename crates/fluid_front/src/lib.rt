//! Fronts: where wires come from (`front`), where many of them are waited for (`station`), what is done with each (`handler`), and the
//! jobs that do it, at their place, in threads, or a few threads with many each (`spawner`, `attending`).
#![tactic(auto)]

mod attending;
mod front;
mod handler;
mod spawner;
mod station;

pub use front::{Front, FrontFault, MemoryFront};
pub use handler::{Gate, Handler, OpenGate};
pub use spawner::{Ended, FrontEnd, HereSpawner, Spawner, StationSpawner, ThreadSpawner, Way};
pub use station::{Bell, MemoryBell, MemoryStation, Station};
