// The documents of a service, step by step.
ghost use Rattle.std.specs.Prelude.{◌≡◌, ◌≤◌, List, ℕ};
ghost use Rattle.std.specs.Arc.{arc_value};
ghost use Rattle.fluid_types.specs.Names.{IsName};
ghost use Rattle.fluid_types.specs.Forms.{largest};
ghost use Rattle.fluid_types.specs.Fits.{Fits};
ghost use Rattle.fluid_log.specs.Shelving.{AreWhole};
ghost use Rattle.fluid_log.specs.Places.{shelves_seen};

use crate::quiet::{Gate, Quiet, QuietShelves};
use fluid_codec::{Event, read_event};
use fluid_json::Json;
use fluid_lane::{LaneFault, Limits};
use fluid_log::{Keeper, MemoryKeeper, MemoryShelves};
use fluid_readback::read_entries_fit;
use fluid_service::{Door, DoorFault, Key, Pass, Service, Visit};
use fluid_types::{DocName, Raw, Scopes};
use std::alloc::Global;
use std::process::Abort;
use std::sync::{Arc, Wait};

const CONNECT: &str =
    r#"["connect_document",{"id":"d","mode":"write","scopes":["doc:read","doc:write"]}]"#;

const JOIN: &str =
    r#"{"clientId":"c0","detail":null,"moment":4,"raw":"join","scopes":["doc:read","doc:write"]}"#;

enum Step {
    // A document is asked for, and this is told: that it is open, or why it isn't.
    Opens(&'static str, &'static str),
    // A client joins a document under this id.
    Joins(&'static str, &'static str),
    // The open documents, in the order of their opening.
    Names(&'static str),
    // Another key is used from now on.
    Turns,
}

pub fn name_of(rt: &impl Abort, alloc: Global, name: &str) -> DocName {
    DocName::read(alloc, name).expect(rt, "a name")
}

// A list of calls that fail.
fn numbers(rt: &impl Abort, alloc: Global, numbers: &[u64]) -> Vec<u64> {
    Vec::from_slice(alloc, numbers).expect(rt, "memory")
}

// Shelves on which the keeper of `d` has this record, unless it is empty. These calls of the shelves fail, and of that keeper, whose first
// call puts the record.
fn shelves_with(
    rt: &impl Abort,
    alloc: Global,
    record: &str,
    shelf_fails: &[u64],
    keeper_fails: &[u64],
) -> MemoryShelves
    ensures { AreWhole (shelves_seen result) }
{
    let mut shelves = MemoryShelves::new(alloc, numbers(rt, alloc, shelf_fails));
    if record.is_empty() {
        return shelves;
    }
    let mut keeper = MemoryKeeper::new(alloc, numbers(rt, alloc, keeper_fails), Vec::new(alloc));
    assert!(rt; record.len() <= 1_048_576);
    assert!(rt; keeper.append(alloc, record.as_bytes()).is_ok(), "{record}");
    shelves
        .add(name_of(rt, alloc, "d"), keeper)
        .expect(rt, "memory");
    shelves
}

// A service over these shelves.
pub fn serve<'a>(
    rt: &impl Abort,
    alloc: Global,
    shelves: MemoryShelves,
    gate: &'a Gate,
) -> Service<QuietShelves<'a>>
    requires { AreWhole (shelves_seen shelves) }
{
    match Service::new(alloc, QuietShelves { shelves, gate }, Limits::FULL) {
        Ok(service) => service,
        Err(_) => panic!(rt; "memory"),
    }
}

// A visit of a document, which is open or is opened.
pub fn visit<'a, R: Wait + Abort>(
    rt: &R,
    alloc: Global,
    service: &Service<QuietShelves<'a>>,
    key: Key<QuietShelves<'a>>,
    name: &str,
) -> (Key<QuietShelves<'a>>, Visit<Quiet<'a>>)
    requires { key.turn ≡ service.now }
    ensures { result.0.turn ≡ service.now }
{
    let name = name_of(rt, alloc, name);
    let (key, answer) = service.door(rt, alloc, key, &name, 7);
    drop(name);
    match answer {
        Ok(visit) => (key, visit),
        Err(_) => panic!(rt; "isn't open"),
    }
}

// The scopes and the detail of a client that connects: under any id its join fits a log.
fn client(rt: &impl Abort, alloc: Global) -> (Scopes, Json)
    ensures { (id : List ℕ) (moment : ℕ) → IsName id → moment ≤ largest → Fits (Raw.Join id result.0 result.1 moment) }
{
    read_entries_fit();
    match read_event(alloc, CONNECT) {
        Ok(Event::Connect { scopes, client, .. }) => (scopes, client),
        _ => panic!(rt; "no connect"),
    }
}

// A client joins under this id.
pub fn join<'a, R: Wait + Abort>(
    rt: &R,
    alloc: Global,
    visit: Visit<Quiet<'a>>,
    wanted: &str,
) -> (Arc<Door<Quiet<'a>>>, Pass<Quiet<'a>>)
    ensures { result.1.turn ≡ (arc_value result.0).turn }
{
    let (scopes, detail) = client(rt, alloc);
    let (door, pass) = visit.into_parts();
    let (pass, answer) = door.join(rt, alloc, pass, scopes, detail, 4);
    match &answer {
        Ok((id, _)) => assert!(rt; id.as_str() == wanted, "joins as {wanted}"),
        Err(_) => panic!(rt; "doesn't join"),
    }
    drop(answer);
    (door, pass)
}

fn told(fault: &DoorFault) -> &'static str {
    match fault {
        DoorFault::ShelfFailed(_) => "shelf failed",
        DoorFault::Lane(LaneFault::LogFailed(_)) => "log failed",
        DoorFault::Lane(LaneFault::BadRecord(0)) => "bad record",
        DoorFault::Lane(_) => "lane",
        DoorFault::TooManyDocuments(1_024) => "too many documents",
        DoorFault::TooManyDocuments(_) => "too few documents",
        DoorFault::NoMemory => "no memory",
    }
}

// A document is asked for, and this is told.
fn open<'a, R: Wait + Abort>(
    rt: &R,
    alloc: Global,
    service: &Service<QuietShelves<'a>>,
    key: Key<QuietShelves<'a>>,
    name: &str,
    wanted: &str,
) -> Key<QuietShelves<'a>>
    requires { key.turn ≡ service.now }
    ensures { result.turn ≡ service.now }
{
    let own = name_of(rt, alloc, name);
    let (key, answer) = service.door(rt, alloc, key, &own, 7);
    let told = match &answer {
        Ok(visit) if visit.door().name().as_str() == name => "open",
        Ok(_) => "another",
        Err(fault) => told(fault),
    };
    assert!(rt; told == wanted, "{name}: {told}");
    drop(answer);
    drop(own);
    key
}

// The open documents are these.
fn name_all<'a, R: Wait + Abort>(
    rt: &R,
    alloc: Global,
    service: &Service<QuietShelves<'a>>,
    key: Key<QuietShelves<'a>>,
    wanted: &str,
) -> Key<QuietShelves<'a>>
    requires { key.turn ≡ service.now }
    ensures { result.turn ≡ service.now }
{
    let (key, answer) = service.names(rt, alloc, key);
    let names = answer.expect(rt, "memory");
    let told = names.iter().map(|name| name.as_str());
    assert!(rt; told.eq(wanted.split_whitespace()), "names: {wanted}");
    drop(names);
    key
}

fn do_step<'a, R: Wait + Abort>(
    rt: &R,
    alloc: Global,
    service: &Service<QuietShelves<'a>>,
    key: Key<QuietShelves<'a>>,
    step: &Step,
) -> Key<QuietShelves<'a>>
    requires { key.turn ≡ service.now }
    ensures { result.turn ≡ service.now }
{
    match step {
        Step::Opens(name, wanted) => open(rt, alloc, service, key, *name, *wanted),
        Step::Joins(name, wanted) => {
            let (key, visit) = visit(rt, alloc, service, key, *name);
            drop(join(rt, alloc, visit, *wanted));
            key
        }
        Step::Names(wanted) => name_all(rt, alloc, service, key, *wanted),
        Step::Turns => service.key(),
    }
}

// Whether a record, where it is a leave, has the moment at which documents are opened here.
fn is_of_opening(record: &[u8]) -> bool {
    let text = str::from_utf8(record).unwrap_or("");
    !text.contains(r#""raw":"leave""#) || text.contains(r#""moment":7,"#)
}

// All is closed; so many records has the keeper of a document that came back, none where none did.
pub fn close<'a, R: Wait + Abort>(
    rt: &R,
    alloc: Global,
    service: Service<QuietShelves<'a>>,
    name: &str,
) -> Option<usize> {
    let QuietShelves { shelves, .. } = service.close(rt);
    let name = name_of(rt, alloc, name);
    let records = match shelves.get(&name) {
        Some(keeper) => {
            let records = keeper.records();
            assert!(rt;
                records
                    .iter()
                    .all(|record| is_of_opening(record.as_slice()))
            );
            Some(records.len())
        }
        None => None,
    };
    drop(name);
    drop(shelves);
    records
}

// Steps on a service over these shelves; how many records the keeper of `d` has at the end.
fn live<R: Wait + Abort>(
    rt: &R,
    alloc: Global,
    shelves: MemoryShelves,
    steps: &[Step],
) -> Option<usize>
    requires { AreWhole (shelves_seen shelves) }
{
    let gate = Gate::new();
    let service = serve(rt, alloc, shelves, &gate);
    let mut key = service.key();
    for step in steps {
        key = do_step(rt, alloc, &service, key, step);
    }
    drop(key);
    close(rt, alloc, service, "d")
}

// The first call of the shelves fails.
const NEW: &[Step] = &[
    Step::Names(""),
    Step::Opens("d", "shelf failed"),
    Step::Names(""),
    Step::Opens("d", "open"),
    Step::Opens("b", "open"),
    Step::Opens("d", "open"),
    Step::Names("d b"),
    Step::Turns,
    Step::Names("d b"),
    Step::Joins("d", "c0"),
    Step::Joins("b", "c0"),
    Step::Joins("d", "c1"),
    Step::Opens("a", "open"),
    Step::Names("d b a"),
];

// The keeper of `d` has c0's join, and its second call, at which that is read, fails, and then its fourth, which is to append c0's leave.
const KEPT: &[Step] = &[
    Step::Opens("d", "log failed"),
    Step::Names(""),
    Step::Opens("d", "log failed"),
    Step::Opens("b", "open"),
    Step::Opens("d", "open"),
    Step::Names("b d"),
    Step::Joins("d", "c2"),
];

const BAD: &[Step] = &[
    Step::Opens("d", "bad record"),
    Step::Opens("b", "open"),
    Step::Opens("d", "bad record"),
    Step::Names("b"),
];

#[test]
fn documents_live_on_a_service(rt: HostRuntime) {
    let alloc = rt.alloc();
    let new = shelves_with(&rt, alloc, "", &[1], &[]);
    assert!(rt; live(&rt, alloc, new, NEW) == Some(2), "two joins");
    let kept = shelves_with(&rt, alloc, JOIN, &[], &[2, 4]);
    assert!(rt;
        live(&rt, alloc, kept, KEPT) == Some(3),
        "a join, a leave, a join"
    );
    let bad = shelves_with(&rt, alloc, "{", &[], &[]);
    assert!(rt; live(&rt, alloc, bad, BAD) == Some(1), "as it was");
}

// As many documents are open as may be.
#[test]
fn documents_are_limited(rt: HostRuntime) {
    let alloc = rt.alloc();
    let gate = Gate::new();
    let service = serve(&rt, alloc, shelves_with(&rt, alloc, "", &[], &[]), &gate);
    let mut key = service.key();
    for number in 0..1_024 {
        let name = format!(in alloc; "n{number}").expect(&rt, "memory");
        key = open(&rt, alloc, &service, key, name.as_str(), "open");
    }
    key = open(&rt, alloc, &service, key, "d", "too many documents");
    key = open(&rt, alloc, &service, key, "n1023", "open");
    drop(key);
    assert!(rt; close(&rt, alloc, service, "n7") == Some(0), "on its shelf");
}

// A document that somebody has still at the end doesn't come back.
#[test]
fn visits_keep_their_documents(rt: HostRuntime) {
    let alloc = rt.alloc();
    let gate = Gate::new();
    let service = serve(&rt, alloc, shelves_with(&rt, alloc, "", &[], &[]), &gate);
    let (key, visit) = visit(&rt, alloc, &service, service.key(), "d");
    drop(key);
    assert!(rt; close(&rt, alloc, service, "d") == None, "still out");
    drop(visit);
}
