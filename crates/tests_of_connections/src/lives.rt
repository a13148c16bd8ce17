// Lives of connections: steps, and what comes of them.
ghost use Rattle.std.specs.Prelude.{◌≡◌, ◌≤◌, false};
ghost use Rattle.fluid_log.specs.declared.keeper.TheConstants.{LONGEST_KEPT};
ghost use Rattle.fluid_log.specs.Places.{shelves_seen};
ghost use Rattle.fluid_log.specs.Shelving.{AreWhole};
ghost use Rattle.fluid_service.specs.Keys.{Serving};
ghost use Rattle.fluid_voice.specs.States.{is_used};
ghost use Rattle.fluid_connection.specs.Talked.{belongs};

use crate::quiet::{Quiet, QuietShelves};
use crate::telling::{told_events, told_fault, told_heard};
use fluid_connection::Talk;
use fluid_doors::Door;
use fluid_lane::{Lane, Limits};
use fluid_log::{Keeper, MemoryKeeper, MemoryShelves};
use fluid_service::{Service, Visit};
use fluid_store::Objects;
use fluid_talk::Conversation;
use fluid_types::DocName;
use fluid_voice::VoiceState;
use std::alloc::Global;
use std::mem;
use std::process::Abort;
use std::sync::{Arc, Wait};

// All happens at this moment.
const MOMENT: u64 = 5;

const LONGEST: usize = 1_048_576;

// What a connection does, and what comes of it: replies and a fault, each on a line of its own, and the numbers of verdicts, if one was
// given.
#[derive(Clone, Copy)]
pub enum Step {
    Hears(&'static str, &'static str),
    // A text of c0 with so many submissions.
    Submits(u64, &'static str),
    // Texts that connect to so many documents, d0, d1, .., each told this.
    Opens(u64, &'static str),
    Collects(&'static str),
    Leaves(&'static str),
    // A connection is made of what comes back of this one.
    Again,
    // Whoever works behind the document answers its summary, stores a checkpoint and restarts it.
    Works,
}

pub fn numbers(rt: &impl Abort, alloc: Global, of: &[u64]) -> Vec<u64> {
    Vec::from_slice(alloc, of).expect(rt, "memory")
}

// Shelves of which these calls fail.
pub fn shelves(rt: &impl Abort, alloc: Global, failing: &[u64]) -> MemoryShelves
    ensures { AreWhole (shelves_seen result) }
{
    MemoryShelves::new(alloc, numbers(rt, alloc, failing))
}

// Shelves on which the keeper of `d` has this record. These calls of that keeper fail, whose first call puts the record.
pub fn shelves_with(rt: &impl Abort, alloc: Global, record: &str, failing: &[u64]) -> MemoryShelves
    ensures { AreWhole (shelves_seen result) }
{
    let mut shelves = MemoryShelves::new(alloc, Vec::new(alloc));
    let mut keeper = MemoryKeeper::new(alloc, numbers(rt, alloc, failing), Vec::new(alloc));
    assert!(rt; record.len() <= LONGEST);
    assert!(rt; keeper.append(alloc, record.as_bytes()).is_ok(), "{record}");
    let name = DocName::read(alloc, "d").expect(rt, "a name");
    shelves.add(name, keeper).expect(rt, "memory");
    shelves
}

// A service over these shelves.
pub fn serve(
    rt: &impl Abort,
    alloc: Global,
    shelves: MemoryShelves,
    limits: Limits,
) -> Service<QuietShelves>
    requires whole { AreWhole (shelves_seen shelves) }
    requires small { limits.bytes ≤ LONGEST_KEPT }
{
    match Service::new(alloc, QuietShelves { shelves }, limits) {
        Ok(service) => service,
        Err(_) => panic!(rt; "memory"),
    }
}

// A visit of a document over a new keeper of which these calls fail.
pub fn visited(rt: &impl Abort, alloc: Global, failing: &[u64]) -> Visit<Quiet> {
    let keeper = MemoryKeeper::new(alloc, numbers(rt, alloc, failing), Vec::new(alloc));
    let keeper = Quiet { keeper };
    let Ok(lane) = Lane::start(alloc, keeper, Limits::FULL, MOMENT) else {
        panic!(rt; "a lane")
    };
    let Ok(name) = DocName::read(alloc, "d") else {
        panic!(rt; "a name")
    };
    let Ok((door, pass)) = Door::open(alloc, name, lane) else {
        panic!(rt; "memory")
    };
    let Ok(door) = Arc::new(alloc, door) else {
        panic!(rt; "memory")
    };
    Visit::new(door, pass)
}

fn forked(rt: &impl Abort, visit: &mut Option<Visit<Quiet>>) -> Option<Visit<Quiet>> {
    match visit {
        Some(visit) => Some(visit.fork().expect(rt, "memory")),
        None => None,
    }
}

fn is_used(state: &VoiceState) -> bool
    ensures { result ≡ is_used state.now }
{
    match state {
        VoiceState::Fresh => false,
        VoiceState::Reading(_, _) => false,
        VoiceState::Writing(_, _, _) => false,
        VoiceState::Used => true,
    }
}

fn hear<R: Abort + Wait, O: Objects>(
    rt: &R,
    alloc: Global,
    service: &Service<QuietShelves>,
    objects: &mut O,
    talk: &mut Talk<QuietShelves>,
    text: &str,
    wanted: &str,
)
    requires { belongs talk.old service.now }
    ensures { belongs talk.new service.now }
{
    assert!(rt; text.len() <= LONGEST, "too long");
    assert!(rt; !is_used(talk.state()), "it has left");
    let heard = talk.hear(rt, alloc, service, objects, text, MOMENT);
    let told = told_heard(alloc, &heard).expect(rt, "memory");
    assert!(rt; told.as_str() == wanted, "{text}: {told}");
    drop(told);
    drop(heard);
}

// Hears as many texts as there are documents to connect to.
fn open<R: Abort + Wait, O: Objects>(
    rt: &R,
    alloc: Global,
    service: &Service<QuietShelves>,
    objects: &mut O,
    talk: &mut Talk<QuietShelves>,
    count: u64,
    wanted: &str,
)
    requires { belongs talk.old service.now }
    ensures { belongs talk.new service.now }
{
    for n in 0..count {
        let text = format!(in alloc;
            r#"["connect_document",{{"id":"d{n}","scopes":["doc:read","doc:write"]}}]"#
        );
        let text = text.expect(rt, "memory");
        hear(rt, alloc, service, objects, talk, text.as_str(), wanted);
        drop(text);
    }
}

fn submissions(rt: &impl Abort, alloc: Global, count: u64) -> String {
    let mut text = String::new(alloc);
    text.push_str(r#"["submitOp","c0",["#).expect(rt, "memory");
    for n in 0..count {
        let number = n.saturating_add(1);
        let one = format!(in alloc;
            r#"{{"clientSequenceNumber":{number},"contents":null,"referenceSequenceNumber":1,"type":"op"}},"#
        );
        let one = one.expect(rt, "memory");
        text.push_str(one.as_str()).expect(rt, "memory");
    }
    let _ = text.pop();
    text.push_str("]]").expect(rt, "memory");
    text
}

fn collect<R: Abort + Wait>(rt: &R, alloc: Global, talk: &mut Talk<QuietShelves>, wanted: &str)
    ensures { (x : Serving) → belongs talk.old x → belongs talk.new x }
{
    match &talk.collect(rt, alloc) {
        Ok(events) => {
            let told = told_events(alloc, events.as_slice()).expect(rt, "memory");
            assert!(rt; told.as_str() == wanted, "collected: {told}");
            drop(told);
        }
        Err(fault) => assert!(rt; told_fault(fault) == wanted, "a collection failed"),
    }
}

fn leave<R: Abort + Wait>(rt: &R, alloc: Global, talk: &mut Talk<QuietShelves>, wanted: &str)
    ensures { (x : Serving) → belongs talk.old x → belongs talk.new x }
{
    match &talk.leave(rt, alloc, MOMENT) {
        Ok(()) => assert!(rt; wanted == "left", "it left"),
        Err(fault) => assert!(rt; told_fault(fault) == wanted, "a leave failed"),
    }
}

fn again(service: &Service<QuietShelves>, talk: &mut Talk<QuietShelves>)
    requires { belongs talk.old service.now }
    ensures { belongs talk.new service.now }
{
    let old = mem::replace(talk, Talk::new(service.key(), None));
    let (key, visit) = old.into_parts();
    *talk = Talk::new(key, visit);
}

fn work<R: Abort + Wait, O: Objects>(
    rt: &R,
    alloc: Global,
    objects: &mut O,
    visit: &mut Option<Visit<Quiet>>,
) {
    let (door, pass) = visit.take().expect(rt, "a visit").into_parts();
    let (pass, answered) = door.scribe(rt, alloc, pass, objects, MOMENT);
    let (pass, stored) = door.checkpoint(rt, alloc, pass);
    let (pass, restarted) = door.restart(rt, alloc, pass, 0);
    assert!(rt;
        answered.is_ok() && stored.is_ok() && restarted.is_ok(),
        "worked"
    );
    drop(answered);
    drop(stored);
    drop(restarted);
    *visit = Some(Visit::new(door, pass));
}

fn live<R: Abort + Wait, O: Objects>(
    rt: &R,
    alloc: Global,
    service: &Service<QuietShelves>,
    objects: &mut O,
    talk: &mut Talk<QuietShelves>,
    visit: &mut Option<Visit<Quiet>>,
    step: Step,
)
    requires { belongs talk.old service.now }
    ensures { belongs talk.new service.now }
{
    match step {
        Step::Hears(text, wanted) => hear(rt, alloc, service, objects, talk, text, wanted),
        Step::Submits(count, wanted) => {
            let text = submissions(rt, alloc, count);
            hear(rt, alloc, service, objects, talk, text.as_str(), wanted);
            drop(text);
        }
        Step::Opens(count, wanted) => open(rt, alloc, service, objects, talk, count, wanted),
        Step::Collects(wanted) => collect(rt, alloc, talk, wanted),
        Step::Leaves(wanted) => leave(rt, alloc, talk, wanted),
        Step::Again => again(service, talk),
        Step::Works => work(rt, alloc, objects, visit),
    }
}

// The life of two connections, each row with which of them it is. They go on from this visit, if there is one.
pub fn life<R: Abort + Wait, O: Objects>(
    rt: &R,
    alloc: Global,
    service: &Service<QuietShelves>,
    objects: &mut O,
    visit: Option<Visit<Quiet>>,
    rows: &[(u8, Step)],
) {
    let mut visit = visit;
    let mut first = Talk::new(service.key(), forked(rt, &mut visit));
    let mut second = Talk::new(service.key(), forked(rt, &mut visit));
    for row in rows {
        match row.0 {
            1 => live(rt, alloc, service, objects, &mut first, &mut visit, row.1),
            _ => live(rt, alloc, service, objects, &mut second, &mut visit, row.1),
        }
    }
    drop(second);
    drop(first);
    drop(visit);
}
