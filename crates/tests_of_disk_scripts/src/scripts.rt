// What scripts write over disks.
ghost use Rattle.std.specs.Prelude.{None, true};
ghost use Rattle.std.specs.FinMap.{get};
ghost use Rattle.fluid_log.specs.Shelving.{AreWhole};
ghost use Rattle.fluid_disk.specs.Memory.{memory_seen};
ghost use Rattle.fluid_disk_shelves.specs.Shelves.{shelves_on};

use fluid_disk::MemoryDisk;
use fluid_disk_keeper::Disks;
use fluid_disk_shelves::DiskShelves;
use fluid_io::{MemorySink, MemorySource};
use fluid_log::Shelves;
use fluid_rules::Limits;
use fluid_store::MemoryObjects;
use fluid_types::DocName;
use fluid_world::{ScriptEnd, script_within};
use std::alloc::Global;
use std::process::Abort;

type OnDisks = DiskShelves<MemoryDisk>;

// Two containers, and one that is loaded from a summary.
const TWO_CONTAINERS: &str = r#"load p d none
edit p {"type":"attach","address":"m","kind":"map"}
load q d none
edit p {"address":"m","contents":{"type":"set","key":"k","value":{"type":"Plain","value":1}}}
edit q {"address":"m","contents":{"type":"clear"}}
edit q {"address":"m","contents":{"type":"set","key":"k","value":{"type":"Plain","value":2}}}
show p
show q
pump p
show p
summarize p
scribe d
edit p {"address":"m","contents":{"type":"delete","key":"k"}}
load r d latest
show r
pump q
show q
scribe d
"#;

const TWO_CONTAINERS_SAY: &str = r#"p loaded d at 1
p edited
q loaded d at 3
p edited
q edited
q edited
p at 1: {"m":{"kind":"map","value":{"k":1}}}
q at 3: {"m":{"kind":"map","value":{"k":2}}}
p at 6
p at 6: {"m":{"kind":"map","value":{"k":2}}}
p summarized at 6
d scribe ack 7
p edited
r loaded d at 10
r at 10: {"m":{"kind":"map","value":{}}}
q at 10
q at 10: {"m":{"kind":"map","value":{}}}
d scribe idle
"#;

// The first fourteen of these lines with three checkpoints among them; and then the document begins again from each of them, and
// from one that there isn't.
const RESTARTS: &str = r#"checkpoint d
load p d none
edit p {"type":"attach","address":"m","kind":"map"}
load q d none
checkpoint d
edit p {"address":"m","contents":{"type":"set","key":"k","value":{"type":"Plain","value":1}}}
edit q {"address":"m","contents":{"type":"clear"}}
edit q {"address":"m","contents":{"type":"set","key":"k","value":{"type":"Plain","value":2}}}
show p
show q
pump p
show p
summarize p
scribe d
edit p {"address":"m","contents":{"type":"delete","key":"k"}}
checkpoint d
load r d latest
restart d 0
restart d 1
restart d 2
restart d 3
"#;

const RESTARTS_SAY: &str = r#"d checkpoint 0 at 0
p loaded d at 1
p edited
q loaded d at 3
d checkpoint 1 at 3
p edited
q edited
q edited
p at 1: {"m":{"kind":"map","value":{"k":1}}}
q at 3: {"m":{"kind":"map","value":{"k":2}}}
p at 6
p at 6: {"m":{"kind":"map","value":{"k":2}}}
p summarized at 6
d scribe ack 7
p edited
d checkpoint 2 at 9
r loaded d at 10
d restarted from 0: 10 entries, number 10, minimum 3
d restarted from 1: 10 entries, number 10, minimum 3
d restarted from 2: 10 entries, number 10, minimum 3
d no checkpoint 3 of 3
"#;

// A new process lets the three leave that are joined.
const COUNTED: &str = "d 13 entries, number 13, minimum 13\n";

// ---- shelves

fn name_of(rt: &impl Abort, alloc: Global, name: &str) -> DocName {
    DocName::read(alloc, name).expect(rt, "a name")
}

fn disk(alloc: Global) -> MemoryDisk {
    MemoryDisk::new(alloc, Vec::new(alloc), Vec::new(alloc))
}

fn empty(alloc: Global) -> Disks<MemoryDisk> {
    Disks {
        log: disk(alloc),
        deltas: disk(alloc),
        checkpoints: disk(alloc),
    }
}

// Shelves on which `d` has these disks.
fn shelves_of(rt: &impl Abort, alloc: Global, disks: Disks<MemoryDisk>) -> OnDisks
    ensures { AreWhole (shelves_on memory_seen true result) }
{
    let mut shelves = DiskShelves::new(alloc);
    let name = name_of(rt, alloc, "d");
    let added = shelves.add(name, disks);
    assert!(rt; added.is_ok(), "memory");
    drop(added);
    shelves
}

// The disks of `d`, each behind a crash.
fn crashed(rt: &impl Abort, alloc: Global, shelves: OnDisks, pick: u64) -> Disks<MemoryDisk>
    requires { AreWhole (shelves_on memory_seen true shelves) }
{
    let mut shelves = shelves;
    let name = name_of(rt, alloc, "d");
    let Ok(keeper) = shelves.keeper(alloc, &name) else {
        panic!(rt; "no keeper");
    };
    let Disks {
        log,
        deltas,
        checkpoints,
    } = keeper.close();
    Disks {
        log: log.crash(pick),
        deltas: deltas.crash(pick),
        checkpoints: checkpoints.crash(pick),
    }
}

// ---- scripts

// A script over these shelves writes this. The shelves come back.
fn is_done(rt: &impl Abort, alloc: Global, shelves: OnDisks, input: &str, output: &str) -> OnDisks
    requires { AreWhole (shelves_on memory_seen true shelves) }
    ensures { AreWhole (shelves_on memory_seen true result) }
{
    let bytes = Vec::from_slice(alloc, input.as_bytes()).expect(rt, "memory");
    let mut source = MemorySource::new(bytes, Vec::new(alloc));
    let mut sink = MemorySink::new(alloc, Vec::new(alloc));
    let objects = MemoryObjects::new(alloc, Vec::new(alloc));
    let (ended, shelves, objects) = script_within(
        rt,
        alloc,
        &mut source,
        &mut sink,
        shelves,
        objects,
        None,
        Limits::FULL,
    );
    assert!(rt; matches!(ended, ScriptEnd::Done), "another end");
    assert!(rt; sink.written() == output.as_bytes(), "another output");
    drop(ended);
    drop(objects);
    drop(sink);
    drop(source);
    shelves
}

// A script over empty disks; then the disks crash, and the document is there again.
fn outlives(rt: &impl Abort, alloc: Global, input: &str, output: &str, pick: u64, counted: &str) {
    let shelves = shelves_of(rt, alloc, empty(alloc));
    let shelves = is_done(rt, alloc, shelves, input, output);
    let shelves = shelves_of(rt, alloc, crashed(rt, alloc, shelves, pick));
    let shelves = is_done(rt, alloc, shelves, "count d\n", counted);
    drop(shelves);
}

#[test]
fn scripts_over_disks_write_what_they_write_over_memory(rt: HostRuntime) {
    let alloc = rt.alloc();
    for pick in 0..4 {
        outlives(
            &rt,
            alloc,
            TWO_CONTAINERS,
            TWO_CONTAINERS_SAY,
            pick,
            COUNTED,
        );
        outlives(&rt, alloc, RESTARTS, RESTARTS_SAY, pick, COUNTED);
    }
}
