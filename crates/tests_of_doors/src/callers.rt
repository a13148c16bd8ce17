// Calls of a client of a document.
ghost use Rattle.std.specs.Prelude.{◌≡◌, ◌≤◌, List, ℕ, true};
ghost use Rattle.fluid_types.specs.Names.{IsName};
ghost use Rattle.fluid_types.specs.Forms.{largest};
ghost use Rattle.fluid_types.specs.Fits.{Fits};
ghost use Rattle.fluid_types.specs.declared.entries.Raw.TheVariants.{Join};
ghost use Rattle.fluid_lane.specs.Standing.{IsLeaveOrSubmission};

use crate::operation::Operation;
use fluid_codec::{Event, read_event, read_raw};
use fluid_doors::{Door, Pass, new_keepers_are_kept};
use fluid_json::Json;
use fluid_lane::{Lane, LaneFault, Limits};
use fluid_log::MemoryKeeper;
use fluid_readback::read_entries_fit;
use fluid_types::{DocName, Raw, Scopes, Verdict};
use std::alloc::Global;
use std::process::Abort;
use std::sync::Wait;

const CONNECT: &str =
    r#"["connect_document",{"id":"d","mode":"write","scopes":["doc:read","doc:write"]}]"#;

// A document over a new keeper of which these calls fail, with its first pass.
pub fn open(
    rt: &impl Abort,
    alloc: Global,
    failing: &[u64],
) -> (Door<MemoryKeeper>, Pass<MemoryKeeper>)
    ensures turn { result.1.turn ≡ result.0.turn }
    ensures told { result.0.turn.fixed.told ≡ true }
{
    new_keepers_are_kept();
    let failing = Vec::from_slice(alloc, failing).expect(rt, "memory");
    let keeper = MemoryKeeper::new(alloc, failing, Vec::new(alloc));
    let Ok(lane) = Lane::start(alloc, keeper, Limits::FULL, 3) else {
        panic!(rt; "a lane")
    };
    let Ok(name) = DocName::read(alloc, "d") else {
        panic!(rt; "a name")
    };
    let Ok(opened) = Door::open(alloc, name, lane) else {
        panic!(rt; "memory")
    };
    opened
}

// The scopes and the detail of a client that connects: under any id its join fits a log.
fn client(rt: &impl Abort, alloc: Global) -> (Scopes, Json)
    ensures { (id : List ℕ) (moment : ℕ) → IsName id → moment ≤ largest → Fits (Join id result.0 result.1 moment) }
{
    read_entries_fit();
    match read_event(alloc, CONNECT) {
        Ok(Event::Connect { scopes, client, .. }) => (scopes, client),
        _ => panic!(rt; "no connect"),
    }
}

// Joins; whether it did.
pub fn join<R: Wait + Abort>(
    rt: &R,
    alloc: Global,
    door: &Door<MemoryKeeper>,
    pass: Pass<MemoryKeeper>,
) -> (Pass<MemoryKeeper>, bool)
    requires { pass.turn ≡ door.now.turn }
    ensures { result.0.turn ≡ door.now.turn }
{
    let (scopes, detail) = client(rt, alloc);
    let (pass, answer) = door.join(rt, alloc, pass, scopes, detail, 4);
    (pass, answer.is_ok())
}

impl Operation {
    // The operation of this client number.
    pub fn read(rt: &impl Abort, alloc: Global, client: &str, number: u64) -> Operation {
        let text = format!(in alloc;
            r#"{{"clientId":"{client}","moment":5,"operation":{{"clientSequenceNumber":{number},"contents":null,"referenceSequenceNumber":-1,"type":"op"}},"raw":"submit"}}"#
        ).expect(rt, "memory");
        read_entries_fit();
        assert!(rt; text.len() <= 1_048_576);
        match read_raw(alloc, text.as_str()) {
            Ok(raw) if matches!(raw, Raw::Leave { .. } | Raw::Submit { .. }) => Operation::of(raw),
            _ => panic!(rt; "no submission"),
        }
    }
}

// Whether an entry was given a number.
pub fn is_sequenced(answer: &Result<Verdict, LaneFault>) -> bool {
    match answer {
        Ok(Verdict::Sequenced(_)) => true,
        _ => false,
    }
}
