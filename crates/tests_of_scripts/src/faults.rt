// How a script ends where a keeper or the store fails, and where what is stored is refused; and how many records a restart reads.
ghost use Rattle.fluid_log.specs.Places.{shelves_seen};
ghost use Rattle.fluid_log.specs.Shelving.{AreWhole};

use crate::runs::{has_written, name_of, numbers, shelves_of, told_end};
use crate::scripts::{RESTARTS, RESTARTS_SAY, THREE_CHECKPOINTS};
use fluid_io::{MemorySink, MemorySource};
use fluid_log::{Keeper, MemoryKeeper, MemoryShelves};
use fluid_rules::Limits;
use fluid_store::MemoryObjects;
use fluid_world::script_within;
use std::alloc::Global;
use std::process::Abort;

// Behind so many lines: how many entries were entered by them, and how many clients are joined.
const BEHIND: &[(usize, usize)] = &[
    (0, 0),
    (0, 0),
    (1, 1),
    (2, 1),
    (3, 2),
    (3, 2),
    (4, 2),
    (5, 2),
    (6, 2),
    (6, 2),
    (6, 2),
    (6, 2),
    (6, 2),
    (7, 2),
    (8, 2),
    (9, 2),
    (9, 2),
    (10, 3),
    (10, 3),
    (10, 3),
    (10, 3),
    (10, 3),
    (10, 3),
];

// So many lines were written, and they are the first of those that are written without a fault.
fn lines_written(rt: &impl Abort, sink: &MemorySink) -> usize {
    let written = sink.written();
    assert!(rt;
        RESTARTS_SAY.as_bytes().starts_with(written),
        "another output"
    );
    let mut lines = 0_usize;
    for byte in written {
        if *byte == b'\n' {
            lines = lines.saturating_add(1);
        }
    }
    let last = written.last().copied().unwrap_or(b'\n');
    assert!(rt; last == b'\n', "a line's end");
    lines
}

// How many records the keeper of `d` has.
fn kept(rt: &impl Abort, alloc: Global, shelves: &MemoryShelves) -> usize {
    let name = name_of(rt, alloc, "d");
    let records = match shelves.get(&name) {
        Some(keeper) => keeper.records().len(),
        None => panic!(rt; "no keeper"),
    };
    drop(name);
    records
}

// How many entries and joined clients there are by so many records, where so many lines were written: those of these lines, or one
// entry more, which the next step entered before the fault.
fn behind(rt: &impl Abort, records: usize, lines: usize) -> (usize, usize) {
    let (Some(these), Some(next)) = (BEHIND.get(lines), BEHIND.get(lines.saturating_add(1))) else {
        panic!(rt; "{lines} lines")
    };
    if records == these.0 {
        return *these;
    }
    assert!(rt; records == next.0, "{records} records behind {lines} lines");
    *next
}

// What `count d` writes on the desk that came back: the entries that are kept, and a leave of each client that was joined.
fn counts(
    rt: &impl Abort,
    alloc: Global,
    shelves: MemoryShelves,
    objects: MemoryObjects,
    lines: usize,
)
    requires { AreWhole (shelves_seen shelves) }
{
    let (entries, joined) = behind(rt, kept(rt, alloc, &shelves), lines);
    let input = Vec::from_slice(alloc, "count d\n".as_bytes()).expect(rt, "memory");
    let mut source = MemorySource::new(input, Vec::new(alloc));
    let mut sink = MemorySink::new(alloc, Vec::new(alloc));
    let (end, shelves, objects) = script_within(
        rt,
        alloc,
        &mut source,
        &mut sink,
        shelves,
        objects,
        None,
        Limits::FULL,
    );
    let told = told_end(&end);
    assert!(rt; told == "done", "count: {told}");
    is_counted(rt, alloc, &sink, entries.saturating_add(joined));
    drop(end);
    drop(shelves);
    drop(objects);
    drop(sink);
    drop(source);
}

fn is_counted(rt: &impl Abort, alloc: Global, sink: &MemorySink, entries: usize) {
    let line = format!(in alloc; "d {entries} entries, ").expect(rt, "memory");
    assert!(rt;
        sink.written().starts_with(line.as_str().as_bytes()),
        "not {entries} entries"
    );
    drop(line);
}

// The script with this call of the keeper failing, or with this call of the store. Gives whether it ended without a fault.
fn fails(
    rt: &impl Abort,
    alloc: Global,
    keeper: &[u64],
    adding: &[u64],
    store: &[u64],
    wanted: &str,
) -> bool {
    let input = Vec::from_slice(alloc, RESTARTS.as_bytes()).expect(rt, "memory");
    let mut source = MemorySource::new(input, Vec::new(alloc));
    let mut sink = MemorySink::new(alloc, Vec::new(alloc));
    let (end, shelves, objects) = script_within(
        rt,
        alloc,
        &mut source,
        &mut sink,
        shelves_of(rt, alloc, keeper, adding),
        MemoryObjects::new(alloc, numbers(rt, alloc, store)),
        None,
        Limits::FULL,
    );
    let told = told_end(&end);
    let whole = told == "done";
    assert!(rt; whole || told == wanted, "{told}, wanted {wanted}");
    let lines = lines_written(rt, &sink);
    assert!(rt; !whole || lines == 22, "{lines} lines");
    if whole {
        // The call that fails may be the next one.
        drop(shelves);
        drop(objects);
    } else {
        counts(rt, alloc, shelves, objects, lines);
    }
    drop(end);
    drop(sink);
    drop(source);
    whole
}

const LONGEST: usize = 1_048_576;

// Shelves on which the keeper of `d` has this record.
fn shelves_with(rt: &impl Abort, alloc: Global, record: &str) -> MemoryShelves
    ensures { AreWhole (shelves_seen result) }
{
    let mut shelves = MemoryShelves::new(alloc, Vec::new(alloc));
    let mut keeper = MemoryKeeper::new(alloc, Vec::new(alloc), Vec::new(alloc));
    assert!(rt; record.len() <= LONGEST);
    assert!(rt; keeper.append(alloc, record.as_bytes()).is_ok(), "{record}");
    let name = name_of(rt, alloc, "d");
    shelves.add(name, keeper).expect(rt, "memory");
    shelves
}

// A document whose log has this record is used.
fn stored(rt: &impl Abort, alloc: Global, record: &str) {
    let input = Vec::from_slice(alloc, "count e\ncount d\ncount e\n".as_bytes()).expect(
        rt, "memory",
    );
    let mut source = MemorySource::new(input, Vec::new(alloc));
    let mut sink = MemorySink::new(alloc, Vec::new(alloc));
    let (end, shelves, objects) = script_within(
        rt,
        alloc,
        &mut source,
        &mut sink,
        shelves_with(rt, alloc, record),
        MemoryObjects::new(alloc, Vec::new(alloc)),
        None,
        Limits::FULL,
    );
    let told = told_end(&end);
    assert!(rt; told == "bad stored", "{told}");
    has_written(rt, &sink, "e 0 entries, number 0, minimum 0\n".as_bytes());
    drop(end);
    drop(shelves);
    drop(objects);
    drop(sink);
    drop(source);
}

// Behind these steps the document begins again, from each checkpoint that it has, or not at all. Gives how many records were read.
fn reads(rt: &impl Abort, alloc: Global, restart: &str) -> u64 {
    let mut steps = Vec::from_slice(alloc, THREE_CHECKPOINTS.as_bytes()).expect(rt, "memory");
    steps
        .extend_from_slice(restart.as_bytes())
        .expect(rt, "memory");
    let mut source = MemorySource::new(steps, Vec::new(alloc));
    let mut sink = MemorySink::new(alloc, Vec::new(alloc));
    let (end, shelves, objects) = script_within(
        rt,
        alloc,
        &mut source,
        &mut sink,
        shelves_of(rt, alloc, &[], &[]),
        MemoryObjects::new(alloc, Vec::new(alloc)),
        None,
        Limits::FULL,
    );
    let told = told_end(&end);
    assert!(rt; told == "done", "{restart}: {told}");
    let name = name_of(rt, alloc, "d");
    let reads = match shelves.get(&name) {
        Some(keeper) => keeper.reads(),
        None => panic!(rt; "no keeper"),
    };
    drop(name);
    drop(end);
    drop(shelves);
    drop(objects);
    drop(sink);
    drop(source);
    reads
}

// A restart, and how many records it reads: those behind its checkpoint.
const READS: &[(&str, u64)] = &[
    ("restart d 0\n", 10),
    ("restart d 1\n", 7),
    ("restart d 2\n", 1),
];

#[test]
fn a_restart_reads_the_records_behind_its_checkpoint(rt: HostRuntime) {
    let before = reads(&rt, rt.alloc(), "");
    for row in READS {
        let all = reads(&rt, rt.alloc(), row.0);
        assert!(rt; all == before.saturating_add(row.1), "{}: {all}", row.0);
    }
}

// The script with each call of the keeper failing in turn, where an append adds its record all the same or doesn't.
fn each_fails(rt: &impl Abort, alloc: Global, adds: bool) {
    let mut failed = 0_u64;
    for call in 1..1_000_u64 {
        let calls = [call];
        let whole = if adds {
            fails(rt, alloc, &calls, &calls, &[], "keeper fault")
        } else {
            fails(rt, alloc, &calls, &[], &[], "keeper fault")
        };
        if whole {
            break;
        }
        failed = failed.saturating_add(1);
    }
    assert!(rt; 40 <= failed && failed < 999, "{failed} calls failed");
}

#[test]
fn each_call_of_a_keeper_may_fail(rt: HostRuntime) {
    each_fails(&rt, rt.alloc(), false);
    each_fails(&rt, rt.alloc(), true);
}

#[test]
fn each_call_of_the_store_may_fail(rt: HostRuntime) {
    let mut failed = 0_u64;
    for call in 1..1_000_u64 {
        if fails(&rt, rt.alloc(), &[], &[], &[call], "store fault") {
            break;
        }
        failed = failed.saturating_add(1);
    }
    assert!(rt; 10 <= failed && failed < 999, "{failed} calls failed");
}

#[test]
fn what_is_stored_may_be_refused(rt: HostRuntime) {
    for record in ["{}", "nothing", ""] {
        stored(&rt, rt.alloc(), record);
    }
}

// A roamer that comes back, and what is written then.
const RETURNS: &str = r#"roam r d
say r {"type":"attach","address":"n","kind":"counter"}
lose r
say r {"address":"n","contents":{"type":"increment","incrementAmount":5}}
back r
acked r
"#;

const RETURNS_SAY: &str = r#"r roams d as c0 at 1
r said 0
r lost
r said 1
r back as c3 at 4
r acked 2 of 2
"#;

// It comes back with this call of the keeper failing. Gives whether the script ended without a fault.
fn returns(rt: &impl Abort, alloc: Global, call: u64) -> bool {
    let input = Vec::from_slice(alloc, RETURNS.as_bytes()).expect(rt, "memory");
    let mut source = MemorySource::new(input, Vec::new(alloc));
    let mut sink = MemorySink::new(alloc, Vec::new(alloc));
    let (end, shelves, objects) = script_within(
        rt,
        alloc,
        &mut source,
        &mut sink,
        shelves_of(rt, alloc, &[call], &[]),
        MemoryObjects::new(alloc, Vec::new(alloc)),
        None,
        Limits::FULL,
    );
    let told = told_end(&end);
    let whole = told == "done";
    assert!(rt; whole || told == "keeper fault", "{told}");
    let written = sink.written();
    assert!(rt;
        RETURNS_SAY.as_bytes().starts_with(written),
        "another output"
    );
    assert!(rt;
        !whole || written.len() == RETURNS_SAY.len(),
        "not all lines"
    );
    drop(end);
    drop(shelves);
    drop(objects);
    drop(sink);
    drop(source);
    whole
}

#[test]
fn each_call_of_a_keeper_may_fail_while_a_roamer_comes_back(rt: HostRuntime) {
    let mut failed = 0_u64;
    for call in 1..1_000_u64 {
        if returns(&rt, rt.alloc(), call) {
            break;
        }
        failed = failed.saturating_add(1);
    }
    assert!(rt; 5 <= failed && failed < 999, "{failed} calls failed");
}
