//! Real wires: WebSockets and lines over TCP (`wire`), and the front at which they come in (`front`).
//! A connection (`connection`) has one of two framings, messages (`messages`) or lines (`lines`), over a stream that reads only
//! where there is something (`metered`). Its wire sleeps until the socket is ready or until it is called (`watch`), or it never waits
//! (`polled`) and a station waits for it and many others (`station`, `spots`). The wires of one document call each other (`rooms`).
//! Which pages may connect stands in `origin`.
#![tactic(auto)]

mod connection;
mod front;
mod lines;
mod messages;
mod metered;
mod origin;
mod polled;
mod rooms;
mod spots;
mod station;
mod step;
mod watch;
mod wire;

pub use front::TcpFront;
pub use station::{TcpBell, TcpStation};
pub use wire::{SocketWire, Waits};
