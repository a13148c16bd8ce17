// One session, and what came of it.
ghost use Rattle.std.specs.Prelude.{◌≡◌, ◌≤◌};
ghost use Rattle.fluid_log.specs.declared.keeper.TheConstants.{LONGEST_KEPT};

use fluid_doors::{Door, new_keepers_are_kept};
use fluid_hosting::{Report, SessionEnd, session};
use fluid_io::FixedClock;
use fluid_json::{NoMemory, Text};
use fluid_lane::{Lane, Limits};
use fluid_lines::{MemoryWire, Wire, WireScript, WireText};
use fluid_log::{MemoryKeeper, MemoryShelves};
use fluid_service::{Service, Visit, new_shelves_are_kept};
use fluid_store::Objects;
use fluid_types::DocName;
use std::alloc::Global;
use std::collections::VecDeque;
use std::process::Abort;
use std::sync::{Arc, Wait};

// All happens at this moment.
pub const MOMENT: u64 = 7;

pub type MayVisit = Option<Visit<MemoryKeeper>>;

pub fn numbers(rt: &impl Abort, alloc: Global, of: &[u64]) -> Vec<u64> {
    Vec::from_slice(alloc, of).expect(rt, "memory")
}

pub fn serve(rt: &impl Abort, alloc: Global, limits: Limits) -> Service<MemoryShelves>
    requires { limits.bytes ≤ LONGEST_KEPT }
{
    let shelves = MemoryShelves::new(alloc, Vec::new(alloc));
    new_shelves_are_kept(&shelves);
    match Service::new(alloc, shelves, limits) {
        Ok(service) => service,
        Err(_) => panic!(rt; "memory"),
    }
}

// A visit of a document over a new keeper: this call fails, and so it adds its record all the same where it is an append.
pub fn visited(rt: &impl Abort, alloc: Global, failing: u64) -> Visit<MemoryKeeper> {
    new_keepers_are_kept();
    let fails = numbers(rt, alloc, &[failing]);
    let keeper = MemoryKeeper::new(alloc, fails, numbers(rt, alloc, &[failing]));
    let Ok(lane) = Lane::start(alloc, keeper, Limits::FULL, MOMENT) else {
        panic!(rt; "a lane")
    };
    let Ok(name) = DocName::read(alloc, "d") else {
        panic!(rt; "a name")
    };
    let Ok((door, pass)) = Door::open(alloc, name, lane) else {
        panic!(rt; "memory")
    };
    let Ok(door) = Arc::new(alloc, door) else {
        panic!(rt; "memory")
    };
    Visit::new(door, pass)
}

// Stores a checkpoint of the document and restarts it from that.
pub fn restarted<R: Abort + Wait>(rt: &R, alloc: Global, visit: MayVisit) -> MayVisit {
    let (door, pass) = visit.expect(rt, "a visit").into_parts();
    let (pass, stored) = door.checkpoint(rt, alloc, pass);
    let (pass, restarted) = door.restart(rt, alloc, pass, 0);
    assert!(rt; stored.is_ok() && restarted.is_ok(), "restarted");
    drop(stored);
    drop(restarted);
    Some(Visit::new(door, pass))
}

pub fn push(rt: &impl Abort, alloc: Global, texts: &mut VecDeque<Text>, text: &str) {
    let text = Text::copied(alloc, text).expect(rt, "memory");
    texts.push_back(text).expect(rt, "memory");
}

// A wire on which these texts come. The receive and the send of these numbers fail; 0 is none.
pub fn wire(
    rt: &impl Abort,
    alloc: Global,
    texts: VecDeque<Text>,
    receive: u64,
    send: u64,
) -> MemoryWire {
    let script = WireScript {
        texts,
        failing_receives: numbers(rt, alloc, &[receive]),
        failing_sends: numbers(rt, alloc, &[send]),
        quiet_receives: Vec::new(alloc),
    };
    MemoryWire::new(alloc, script)
}

// A wire on which each line of this text comes.
pub fn lines(rt: &impl Abort, alloc: Global, text: &str, receive: u64, send: u64) -> MemoryWire {
    let mut texts = VecDeque::new(alloc);
    for line in text.lines() {
        push(rt, alloc, &mut texts, line);
    }
    wire(rt, alloc, texts, receive, send)
}

fn told_end(alloc: Global, end: &SessionEnd) -> Result<String, NoMemory> {
    let told = match end {
        SessionEnd::Closed => String::from_str(alloc, "closed"),
        SessionEnd::WireFault => String::from_str(alloc, "the wire failed"),
        SessionEnd::TooLong(size) => format!(in alloc; "too long {size}"),
        SessionEnd::LogFault(note) => {
            format!(in alloc; "the log failed {} {}", note.before, note.after)
        }
        SessionEnd::DeltaFault(note) => {
            format!(in alloc; "the deltas failed {} {}", note.before, note.after)
        }
        SessionEnd::StoreFault(note) => {
            format!(in alloc; "the store failed {} {}", note.before, note.after)
        }
        SessionEnd::Other(_) => String::from_str(alloc, "other"),
        SessionEnd::NoMemory => String::from_str(alloc, "no memory"),
        SessionEnd::Abused(unread) => format!(in alloc; "abused {unread}"),
    };
    Ok(told?)
}

// The end, and how many submissions were sequenced, dropped, refused and absorbed, and how many texts weren't read.
pub fn told_report(alloc: Global, report: &Report) -> Result<String, NoMemory> {
    let end = told_end(alloc, &report.end)?;
    let (sequenced, dropped, nacked) = (report.sequenced, report.dropped, report.nacked);
    let (absorbed, unread) = (report.absorbed, report.unread);
    Ok(format!(in alloc;
        "{} {sequenced} {dropped} {nacked} {absorbed} {unread}",
        end.as_str()
    )?)
}

// Runs a session over this wire, to which this visit is handed, and gives the one that comes back.
pub fn sit<R: Abort + Wait, O: Objects, W: Wire>(
    rt: &R,
    alloc: Global,
    service: &Service<MemoryShelves>,
    objects: &mut O,
    wire: &mut W,
    visit: MayVisit,
    wanted: &str,
) -> MayVisit {
    let clock = FixedClock::new(MOMENT);
    let key = service.key();
    let (report, key, visit) = session(rt, alloc, service, objects, wire, &clock, key, visit);
    let told = told_report(alloc, &report).expect(rt, "memory");
    assert!(rt; told.as_str() == wanted, "{told}");
    drop(told);
    drop(report);
    drop(key);
    visit
}

// These texts went out, each on a line of its own.
pub fn says(rt: &impl Abort, alloc: Global, wire: &MemoryWire, wanted: &str) {
    let said = said(alloc, wire.history()).expect(rt, "memory");
    assert!(rt; said.as_str() == wanted, "{said}");
    drop(said);
}

fn said(alloc: Global, history: &[WireText]) -> Result<String, NoMemory> {
    let mut out = String::new(alloc);
    for text in history {
        match text {
            WireText::In(_) => {}
            WireText::Out(text) => {
                out.push_str(text.as_str())?;
                out.push('\n')?;
            }
        }
    }
    Ok(out)
}
