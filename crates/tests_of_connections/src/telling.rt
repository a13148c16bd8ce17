// Replies and faults as texts.
use fluid_codec::{Reply, print_event};
use fluid_deltas::DeltaFault;
use fluid_ends::TalkFault;
use fluid_feed::EventText;
use fluid_json::NoMemory;
use fluid_lane::LaneFault;
use fluid_opening::DoorFault;
use fluid_store::StoreFault;
use fluid_talk::Heard;
use std::alloc::Global;

// A line behind others.
fn add(out: &mut String, line: &str) -> Result<(), NoMemory> {
    if !out.is_empty() {
        out.push('\n')?;
    }
    out.push_str(line)?;
    Ok(())
}

// The replies, each on a line of its own.
pub fn told_replies(alloc: Global, replies: &[Reply]) -> Result<String, NoMemory> {
    let mut out = String::new(alloc);
    for reply in replies {
        let text = print_event(alloc, reply)?;
        add(&mut out, text.as_str())?;
    }
    Ok(out)
}

// The op events, each on a line of its own. Of one with many messages their number.
pub fn told_events(alloc: Global, events: &[EventText]) -> Result<String, NoMemory> {
    let mut out = String::new(alloc);
    for event in events {
        if event.count() > 4 {
            let text = format!(in alloc; "{} messages", event.count())?;
            add(&mut out, text.as_str())?;
        } else {
            add(&mut out, event.as_str())?;
        }
    }
    Ok(out)
}

// The replies, and behind them the fault, and how often each verdict was given, where one was.
pub fn told_heard(alloc: Global, heard: &Heard) -> Result<String, NoMemory> {
    let mut out = told_replies(alloc, heard.replies.as_slice())?;
    if let Some(fault) = &heard.fault {
        add(&mut out, told_fault(fault))?;
    }
    let numbers = (heard.sequenced, heard.dropped, heard.nacked, heard.absorbed);
    if numbers != (0, 0, 0, 0) {
        let (sequenced, dropped, nacked, absorbed) = numbers;
        let text = format!(in alloc; "{sequenced} {dropped} {nacked} {absorbed}")?;
        add(&mut out, text.as_str())?;
    }
    Ok(out)
}

// A fault in a word.
pub fn told_fault(fault: &TalkFault) -> &'static str {
    match fault {
        TalkFault::Door(DoorFault::ShelfFailed(_)) => "the shelves failed",
        TalkFault::Door(DoorFault::Lane(LaneFault::LogFailed(_))) => "the log failed at a start",
        TalkFault::Door(DoorFault::Lane(LaneFault::BadRecord(0))) => "a record is bad at a start",
        TalkFault::Door(_) => "no door",
        TalkFault::Lane(LaneFault::LogFailed(_)) => "the log failed",
        TalkFault::Lane(LaneFault::DeltaFailed(_)) => "the deltas failed at an entry",
        TalkFault::Lane(_) => "the lane",
        TalkFault::Delta(DeltaFault::DeltaFailed(_)) => "the deltas failed",
        TalkFault::Delta(_) => "the deltas",
        TalkFault::Store(StoreFault::StoreFailed(_)) => "the store failed",
        TalkFault::Store(StoreFault::Clash { .. }) => "another object",
        TalkFault::Store(_) => "the store",
        TalkFault::NoMemory => "no memory",
    }
}
