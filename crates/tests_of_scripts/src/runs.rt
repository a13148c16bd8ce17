// A run of a script over memory.
ghost use Rattle.std.specs.Prelude.{◌≤◌};
ghost use Rattle.fluid_log.specs.Places.{shelves_seen};
ghost use Rattle.fluid_log.specs.Shelving.{AreWhole};
ghost use Rattle.fluid_log.specs.declared.keeper.TheConstants.{LONGEST_KEPT};

use fluid_io::{MemorySink, MemorySource};
use fluid_log::{MemoryKeeper, MemoryShelves};
use fluid_rules::Limits;
use fluid_store::MemoryObjects;
use fluid_types::DocName;
use fluid_world::{ScriptEnd, script_within};
use std::alloc::Global;
use std::process::Abort;

pub fn name_of(rt: &impl Abort, alloc: Global, name: &str) -> DocName {
    DocName::read(alloc, name).expect(rt, "a name")
}

pub fn numbers(rt: &impl Abort, alloc: Global, numbers: &[u64]) -> Vec<u64> {
    Vec::from_slice(alloc, numbers).expect(rt, "memory")
}

// Shelves with a keeper of `d` of which these calls fail. Of the appends among them these add their record all the same.
pub fn shelves_of(rt: &impl Abort, alloc: Global, failing: &[u64], adding: &[u64]) -> MemoryShelves
    ensures { AreWhole (shelves_seen result) }
{
    let mut shelves = MemoryShelves::new(alloc, Vec::new(alloc));
    let keeper = MemoryKeeper::new(
        alloc,
        numbers(rt, alloc, failing),
        numbers(rt, alloc, adding),
    );
    let name = name_of(rt, alloc, "d");
    shelves.add(name, keeper).expect(rt, "memory");
    shelves
}

pub fn told_end(end: &ScriptEnd) -> &'static str {
    match end {
        ScriptEnd::Done => "done",
        ScriptEnd::BadLine(_, _) => "bad line",
        ScriptEnd::ReadFault => "read fault",
        ScriptEnd::WriteFault => "write fault",
        ScriptEnd::KeeperFault(_) => "keeper fault",
        ScriptEnd::StoreFault(_) => "store fault",
        ScriptEnd::BadStored(_) => "bad stored",
        ScriptEnd::NoMemory => "no memory",
    }
}

// A script over a new desk, or the load of this document behind it, ends so and writes this.
pub fn is_done_as(
    rt: &impl Abort,
    alloc: Global,
    input: &[u8],
    load: Option<&str>,
    end: &str,
    output: &str,
) {
    is_done_within(rt, alloc, input, load, Limits::FULL, end, output);
}

// The same within these limits.
pub fn is_done_within(
    rt: &impl Abort,
    alloc: Global,
    input: &[u8],
    load: Option<&str>,
    limits: Limits,
    end: &str,
    output: &str,
)
    requires { limits.bytes ≤ LONGEST_KEPT }
{
    let bytes = Vec::from_slice(alloc, input).expect(rt, "memory");
    let mut source = MemorySource::new(bytes, Vec::new(alloc));
    let mut sink = MemorySink::new(alloc, Vec::new(alloc));
    let objects = MemoryObjects::new(alloc, Vec::new(alloc));
    let shelves = MemoryShelves::new(alloc, Vec::new(alloc));
    let document = match load {
        Some(name) => Some(name_of(rt, alloc, name)),
        None => None,
    };
    let (ended, shelves, objects) = script_within(
        rt,
        alloc,
        &mut source,
        &mut sink,
        shelves,
        objects,
        document.as_ref(),
        limits,
    );
    let told = told_end(&ended);
    assert!(rt; told == end, "{told}, wanted {end}");
    has_written(rt, &sink, output.as_bytes());
    drop(ended);
    drop(document);
    drop(shelves);
    drop(objects);
    drop(sink);
    drop(source);
}

pub fn has_written(rt: &impl Abort, sink: &MemorySink, output: &[u8]) {
    assert!(rt; sink.written() == output, "another output");
}
