//! A session over the documents of a service, from its first text to its end.
ghost use Rattle.std.specs.Prelude.{◌≡◌};
ghost use Rattle.fluid_hosting.specs.Hosting.{Hosts};

use fluid_connection::Talk;
use fluid_io::Clock;
use fluid_lines::Wire;
use fluid_log::Shelves;
use fluid_service::{Key, Service, Visit};
use fluid_session::{Report, converse};
use fluid_store::Objects;
use std::alloc::Global;
use std::sync::Wait;

/// Runs one wire over the documents of a service, from its first text to its end: what wasn't delivered is collected and sent before
/// each text, the text is heard, and its replies are sent; one leave is tried at the end. A visit that is handed in serves for its
/// document. Back come the key, and the visit of the last document that was reached; where none was, the one that was handed in.
pub fn session<R: Wait, B: Shelves, O: Objects, W: Wire, C: Clock>(
    rt: &R,
    alloc: Global,
    service: &Service<B>,
    objects: &mut O,
    wire: &mut W,
    clock: &C,
    key: Key<B>,
    visit: Option<Visit<B::K>>,
) -> (Report, Key<B>, Option<Visit<B::K>>)
where
    B::K: Drop,
    requires key { key.turn ≡ service.now }
    ensures key { result.1.turn ≡ service.now }
    ensures does { Hosts key visit (O.seen objects.old) (O.seen objects.new) (W.seen wire.old) (W.seen wire.new) result.0 result.1 result.2 }
{
    let mut talk = Talk::new(key, visit);
    let report = converse(rt, alloc, service, objects, wire, clock, &mut talk);
    let (key, visit) = talk.into_parts();
    (report, key, visit)
}
