// Two documents of a service in two threads, one of which waits in its log for the other.
ghost use Rattle.std.specs.Prelude.{◌≡◌};
ghost use Rattle.fluid_types.specs.Fits.{Fits};
ghost use Rattle.fluid_lane.specs.Standing.{IsLeaveOrSubmission};

use crate::lives::{close, join, serve, visit};
use crate::quiet::{Gate, Quiet, QuietShelves};
use fluid_codec::read_raw;
use fluid_log::MemoryShelves;
use fluid_readback::read_entries_fit;
use fluid_service::{Key, Service, Visit};
use fluid_types::{Raw, Verdict};
use std::alloc::Global;
use std::process::Abort;
use std::sync::Wait;
use std::thread;
use std::thread::Threads;

const OPERATION: &str =
    r#"{"clientId":"c0","moment":5,"operation":{"clientSequenceNumber":1,"contents":null,"referenceSequenceNumber":-1,"type":"op"},"raw":"submit"}"#;

// The first client's operation, as an entry that fits a log.
fn operation(rt: &impl Abort, alloc: Global, text: &str) -> Raw
    ensures fits { Fits result }
    ensures kind { IsLeaveOrSubmission result }
{
    read_entries_fit();
    assert!(rt; text.len() <= 1_048_576);
    match read_raw(alloc, text) {
        Ok(raw) if matches!(raw, Raw::Leave { .. } | Raw::Submit { .. }) => raw,
        _ => panic!(rt; "no submission"),
    }
}

// The first client of a document joins, and submits.
fn submit<'a, R: Wait + Abort>(rt: &R, alloc: Global, visit: Visit<Quiet<'a>>) {
    let (door, pass) = join(rt, alloc, visit, "c0");
    let raw = operation(rt, alloc, OPERATION);
    let (pass, answer) = door.submit(rt, alloc, pass, raw);
    match &answer {
        Ok(Verdict::Sequenced(_)) => {}
        _ => panic!(rt; "not sequenced"),
    }
    drop(answer);
    drop(pass);
    drop(door);
}

// While the one visit's document waits at the gate, another document is opened, and a submission to it is answered. That opens the gate.
fn submit_beside<'a, R: Threads + Wait + Sync + Abort>(
    rt: &R,
    alloc: Global,
    service: &Service<QuietShelves<'a>>,
    gate: &Gate,
    slow: Visit<Quiet<'a>>,
    key: Key<QuietShelves<'a>>,
)
    requires { key.turn ≡ service.now }
{
    thread::join(
        rt,
        move || submit(rt, alloc, slow),
        move ||
            requires { key.turn ≡ service.now }
        {
            assert!(rt; gate.is_reached(), "nobody waits");
            let (key, quick) = visit(rt, alloc, service, key, "quick");
            submit(rt, alloc, quick);
            drop(key);
            gate.open();
        },
    );
}

#[test]
fn documents_share_no_lock(rt: HostRuntime) {
    let alloc = rt.alloc();
    let gate = Gate::new();
    let shelves = MemoryShelves::new(alloc, Vec::new(alloc));
    let service = serve(&rt, alloc, shelves, &gate);
    let (key, slow) = visit(&rt, alloc, &service, service.key(), "slow");
    submit_beside(&rt, alloc, &service, &gate, slow, key);
    assert!(rt;
        close(&rt, alloc, service, "slow") == Some(2),
        "a join and an operation"
    );
}
