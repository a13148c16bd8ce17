// Calls on an open lane, and what they answer in words.
ghost use Rattle.std.specs.Prelude.{◌≤◌, List, ℕ, length};
ghost use Rattle.fluid_types.specs.Names.{IsName};
ghost use Rattle.fluid_types.specs.Forms.{largest};
ghost use Rattle.fluid_types.specs.Fits.{Fits};
ghost use Rattle.fluid_readback.specs.Laws.{longest_text};
ghost use Rattle.fluid_lane.specs.Standing.{IsLeaveOrSubmission};

use fluid_checkpoint::CheckpointFault;
use fluid_codec::{Event, read_event, read_raw};
use fluid_io::FaultNote;
use fluid_json::{Json, LARGEST};
use fluid_lane::{Lane, LaneFault, Side};
use fluid_log::MemoryKeeper;
use fluid_readback::{leaves_and_reports_fit, read_entries_fit};
use fluid_types::{Message, Raw, Scopes, Verdict};
use std::alloc::Global;
use std::process::Abort;

const CONNECT: &str =
    r#"["connect_document",{"id":"d","mode":"write","scopes":["doc:read","doc:write","summary:write"]}]"#;

const CONNECT_WRITER: &str =
    r#"["connect_document",{"id":"d","mode":"write","scopes":["doc:write"]}]"#;

const LEAVE: &str = r#"{"clientId":"c0","moment":7,"raw":"leave"}"#;

const PROPOSAL: &str = r#"{"handle":"4b825dc642cb6eb9a060e54bf8d69288fbee4904","head":""}"#;

// A call on a document. Submissions are those of c0, with their client numbers and references.
#[derive(Clone, Copy)]
pub enum Call {
    // Closes the lane, where it is open, and starts it again.
    Start,
    Join,
    // Of a client that may only write, at the moment 5.
    Writer,
    Op(u64, i64),
    // Operations with the client numbers from the first on, up to but without the second, all of reference 1. The last one's answer
    // is told.
    Ops(u64, u64),
    Summarize(u64, i64),
    Leave,
    Job,
    // On this number, and whether the tree was found.
    Report(u64, bool),
    // Who was last heard of more than the second before the first.
    Sweep(u64, u64),
    Checkpoint,
    Restart(u64),
    Range(u64, u64),
    State,
    Sides,
}

// ---- faults

// The name of a fault, and its numbers.
fn parts(fault: &LaneFault) -> (&'static str, Option<u64>, Option<u64>) {
    match fault {
        LaneFault::LogFailed(note) => ("LogFailed", Some(note.before), Some(note.after)),
        LaneFault::Full(entries) => ("Full", Some(*entries), None),
        LaneFault::BadRecord(place) => ("BadRecord", Some(*place), None),
        LaneFault::NoCheckpoint { asked, stored } => ("NoCheckpoint", Some(*asked), Some(*stored)),
        LaneFault::CheckpointsFull => ("CheckpointsFull", None, None),
        LaneFault::TooManyClients => ("TooManyClients", None, None),
        LaneFault::DeltaFailed(note) => ("DeltaFailed", Some(note.before), Some(note.after)),
        LaneFault::NoMemory => ("NoMemory", None, None),
        LaneFault::BadCheckpoint(number, _) => ("BadCheckpoint", Some(*number), None),
        LaneFault::TooLarge(bytes) => ("TooLarge", Some(*bytes), None),
        LaneFault::Worn => ("Worn", None, None),
    }
}

fn reason(fault: &CheckpointFault) -> &'static str {
    match fault {
        CheckpointFault::BadText => " BadText",
        CheckpointFault::BadField(name) => match name.as_str() {
            "entered" => " BadField(entered)",
            "sequence" => " BadField(sequence)",
            "clients" => " BadField(clients)",
            "version" => " BadField(version)",
            _ => " BadField",
        },
        CheckpointFault::Version(9) => " Version(9)",
        _ => " another reason",
    }
}

// Why a checkpoint is refused, where one is.
fn reason_of(fault: &LaneFault) -> &'static str {
    match fault {
        LaneFault::BadCheckpoint(_, fault) => reason(fault),
        _ => "",
    }
}

fn spelled(rt: &impl Abort, alloc: Global, fault: &LaneFault) -> String {
    let reason = reason_of(fault);
    let told = match parts(fault) {
        (name, Some(first), Some(second)) => format!(in alloc; "{name}({first}, {second})"),
        (name, Some(first), None) => format!(in alloc; "{name}({first}){reason}"),
        (name, None, _) => format!(in alloc; "{name}"),
    };
    told.expect(rt, "memory")
}

// A fault in words. They are those of its copy, so that whatever is answered is copied too.
pub fn named(rt: &impl Abort, alloc: Global, fault: &LaneFault) -> String {
    let copy = fault.copy(alloc).expect(rt, "memory");
    let told = spelled(rt, alloc, &copy);
    drop(copy);
    told
}

// The note of a fault that has one.
fn noted(fault: &LaneFault) -> Option<FaultNote> {
    match fault {
        LaneFault::LogFailed(note) | LaneFault::DeltaFailed(note) => Some(*note),
        _ => None,
    }
}

// The fault of an open lane in words. Where it has a note, this is the lane's last side step.
fn refused(rt: &impl Abort, alloc: Global, fault: &LaneFault, last: Option<Side>) -> String {
    if let Some(note) = noted(fault) {
        assert!(rt; last == Some(Side::Failed(note)), "the last side step");
    }
    named(rt, alloc, fault)
}

// ---- what enters

// A leave or a submission that fits a log.
fn raw_of(rt: &impl Abort, alloc: Global, text: &str) -> Raw
    ensures fits { Fits result }
    ensures kind { IsLeaveOrSubmission result }
{
    read_entries_fit();
    assert!(rt; text.len() <= 1_048_576);
    match read_raw(alloc, text) {
        Ok(raw) if matches!(raw, Raw::Leave { .. } | Raw::Submit { .. }) => raw,
        _ => panic!(rt; "no leave and no submission"),
    }
}

// `number/minimum` of a message, the rule of a nack, or `dropped`.
fn numbers(rt: &impl Abort, alloc: Global, verdict: &Verdict) -> String {
    let told = match verdict {
        Verdict::Sequenced(message) => {
            let (number, minimum) = (message.number, message.minimum);
            format!(in alloc; "{number}/{minimum}")
        }
        Verdict::Nacked(nack) => {
            let rule = nack.rule;
            format!(in alloc; "{rule:?}")
        }
        Verdict::Dropped => format!(in alloc; "dropped"),
        Verdict::Absorbed => format!(in alloc; "absorbed"),
    };
    told.expect(rt, "memory")
}

fn verdict_said(
    rt: &impl Abort,
    alloc: Global,
    answer: &Result<Verdict, LaneFault>,
    last: Option<Side>,
) -> String {
    match answer {
        Ok(verdict) => numbers(rt, alloc, verdict),
        Err(fault) => refused(rt, alloc, fault, last),
    }
}

fn submit(rt: &impl Abort, alloc: Global, lane: &mut Lane<MemoryKeeper>, text: &str) -> String {
    let raw = raw_of(rt, alloc, text);
    let answer = lane.submit(alloc, &raw);
    let told = verdict_said(rt, alloc, &answer, lane.last_side());
    drop(answer);
    drop(raw);
    told
}

// Submits an operation of c0.
fn operate(
    rt: &impl Abort,
    alloc: Global,
    lane: &mut Lane<MemoryKeeper>,
    kind: &str,
    contents: &str,
    number: u64,
    reference: i64,
) -> String {
    let text = format!(in alloc;
        r#"{{"clientId":"c0","moment":5,"operation":{{"clientSequenceNumber":{number},"contents":{contents},"referenceSequenceNumber":{reference},"type":"{kind}"}},"raw":"submit"}}"#
    ).expect(rt, "memory");
    submit(rt, alloc, lane, text.as_str())
}

// Submits operations of c0 one after another.
fn operate_often(
    rt: &impl Abort,
    alloc: Global,
    lane: &mut Lane<MemoryKeeper>,
    first: u64,
    end: u64,
) -> String {
    let mut told = String::new(alloc);
    for number in first..end {
        told = operate(rt, alloc, lane, "op", "null", number, 1);
    }
    told
}

// The scopes and the detail of a client that connects by this text: under any id its join fits a log.
fn client(rt: &impl Abort, alloc: Global, connect: &str) -> (Scopes, Json)
    requires { length connect.now ≤ longest_text }
    ensures { (id : List ℕ) (moment : ℕ) → IsName id → moment ≤ largest → Fits (Raw.Join id result.0 result.1 moment) }
{
    read_entries_fit();
    match read_event(alloc, connect) {
        Ok(Event::Connect { scopes, client, .. }) => (scopes, client),
        _ => panic!(rt; "no connect"),
    }
}

// The id of a join, and `number/minimum` of its message.
fn joined(rt: &impl Abort, alloc: Global, raw: &Raw, message: &Message) -> String {
    let id = match raw {
        Raw::Join { id, .. } => id.as_str(),
        _ => "no join",
    };
    let (number, minimum) = (message.number, message.minimum);
    format!(in alloc; "{id} {number}/{minimum}").expect(rt, "memory")
}

fn join(
    rt: &impl Abort,
    alloc: Global,
    lane: &mut Lane<MemoryKeeper>,
    connect: &str,
    moment: u64,
) -> String
    requires { length connect.now ≤ longest_text }
{
    let number = lane.entered();
    if number > LARGEST {
        panic!(rt; "no number of an entry");
    }
    if moment > LARGEST {
        panic!(rt; "no moment");
    }
    let (scopes, detail) = client(rt, alloc, connect);
    let answer = lane.join(alloc, scopes, detail, moment);
    let told = match &answer {
        Ok((raw, message)) => joined(rt, alloc, raw, message),
        Err(fault) => refused(rt, alloc, fault, lane.last_side()),
    };
    drop(answer);
    told
}

fn report(
    rt: &impl Abort,
    alloc: Global,
    lane: &mut Lane<MemoryKeeper>,
    summary: u64,
    found: bool,
) -> String {
    leaves_and_reports_fit();
    assert!(rt; 0 < summary && summary <= LARGEST);
    let answer = lane.conclude(alloc, summary, found, 6);
    let told = verdict_said(rt, alloc, &answer, lane.last_side());
    drop(answer);
    told
}

// The leave that a sweep entered, and `number/minimum` of its message.
fn swept(rt: &impl Abort, alloc: Global, raw: &Raw, message: &Message) -> String {
    let id = match raw {
        Raw::Leave { id, .. } => id.as_str(),
        _ => "no leave",
    };
    let (number, minimum) = (message.number, message.minimum);
    format!(in alloc; "swept {id} {number}/{minimum}").expect(rt, "memory")
}

fn sweep(
    rt: &impl Abort,
    alloc: Global,
    lane: &mut Lane<MemoryKeeper>,
    moment: u64,
    silence: u64,
) -> String {
    assert!(rt; moment <= LARGEST);
    let answer = lane.sweep(alloc, moment, silence);
    let told = match &answer {
        Ok(Some((raw, message))) => swept(rt, alloc, raw, message),
        Ok(None) => format!(in alloc; "swept none").expect(rt, "memory"),
        Err(fault) => refused(rt, alloc, fault, lane.last_side()),
    };
    drop(answer);
    told
}

// ---- checkpoints

fn checkpoint(rt: &impl Abort, alloc: Global, lane: &mut Lane<MemoryKeeper>) -> String {
    let answer = lane.checkpoint(alloc);
    let last = lane.last_side();
    let told = match &answer {
        Ok(number) => {
            assert!(rt; last == Some(Side::Stored(*number)), "the last side step");
            format!(in alloc; "stored {number}").expect(rt, "memory")
        }
        Err(fault) => refused(rt, alloc, fault, last),
    };
    drop(answer);
    told
}

fn restart(rt: &impl Abort, alloc: Global, lane: &mut Lane<MemoryKeeper>, number: u64) -> String {
    let answer = lane.restart(alloc, number);
    let last = lane.last_side();
    let told = match &answer {
        Ok(()) => {
            assert!(rt; last == Some(Side::Restarted(number)), "the last side step");
            format!(in alloc; "restarted {number}").expect(rt, "memory")
        }
        Err(fault) => refused(rt, alloc, fault, last),
    };
    drop(answer);
    told
}

// ---- what a lane tells

fn messages_said(rt: &impl Abort, alloc: Global, messages: &[Message]) -> String {
    let mut told = String::from_str(alloc, "messages").expect(rt, "memory");
    for message in messages {
        let number = message.number;
        let one = format!(in alloc; " {number}").expect(rt, "memory");
        told.push_str(one.as_str()).expect(rt, "memory");
    }
    told
}

fn range(
    rt: &impl Abort,
    alloc: Global,
    lane: &mut Lane<MemoryKeeper>,
    from: u64,
    to: u64,
) -> String {
    assert!(rt; 0 < from && from <= to);
    assert!(rt; to - 1 <= lane.seq());
    let answer = lane.range(alloc, from, to);
    let told = match &answer {
        Ok(messages) => messages_said(rt, alloc, messages),
        Err(fault) => format!(in alloc; "{fault:?}").expect(rt, "memory"),
    };
    drop(answer);
    told
}

// The number of the pending summarize.
fn job(rt: &impl Abort, alloc: Global, lane: &mut Lane<MemoryKeeper>) -> String {
    let job = lane.job(alloc).expect(rt, "memory");
    let summary = match &job {
        Some(job) => Some(job.summary),
        None => None,
    };
    drop(job);
    format!(in alloc; "job {summary:?}").expect(rt, "memory")
}

// How many entries are entered, the last number with its minimum, how many summaries were acknowledged, and how many clients are
// joined.
fn state(rt: &impl Abort, alloc: Global, lane: &Lane<MemoryKeeper>) -> String {
    let (number, minimum, entered) = (lane.seq(), lane.min(), lane.entered());
    let (acks, clients) = (lane.acks().len(), lane.clients().count());
    format!(in alloc;
        "{entered} entries, {number}/{minimum}, {acks} acks, {clients} clients"
    ).expect(rt, "memory")
}

// How many checkpoints were found at the start, how many side steps there were, and the last of them.
fn sides(rt: &impl Abort, alloc: Global, lane: &Lane<MemoryKeeper>) -> String {
    let sides = lane.number() - lane.entered();
    let (opened, last) = (lane.opened(), lane.last_side());
    format!(in alloc; "{opened} found, {sides} sides, last {last:?}").expect(rt, "memory")
}

// ---- calls

// Makes a call that enters something.
fn entering(rt: &impl Abort, alloc: Global, lane: &mut Lane<MemoryKeeper>, call: Call) -> String {
    match call {
        Call::Join => join(rt, alloc, lane, CONNECT, 4),
        Call::Writer => join(rt, alloc, lane, CONNECT_WRITER, 5),
        Call::Op(number, reference) => operate(rt, alloc, lane, "op", "null", number, reference),
        Call::Ops(first, end) => operate_often(rt, alloc, lane, first, end),
        Call::Summarize(number, reference) => {
            operate(rt, alloc, lane, "summarize", PROPOSAL, number, reference)
        }
        Call::Leave => submit(rt, alloc, lane, LEAVE),
        Call::Report(summary, found) => report(rt, alloc, lane, summary, found),
        Call::Sweep(moment, silence) => sweep(rt, alloc, lane, moment, silence),
        _ => panic!(rt; "the lane is open"),
    }
}

// Makes a call other than a start, and tells its answer.
pub fn made(rt: &impl Abort, alloc: Global, lane: &mut Lane<MemoryKeeper>, call: Call) -> String {
    match call {
        Call::Job => job(rt, alloc, lane),
        Call::Checkpoint => checkpoint(rt, alloc, lane),
        Call::Restart(number) => restart(rt, alloc, lane, number),
        Call::Range(from, to) => range(rt, alloc, lane, from, to),
        Call::State => state(rt, alloc, lane),
        Call::Sides => sides(rt, alloc, lane),
        _ => entering(rt, alloc, lane, call),
    }
}
