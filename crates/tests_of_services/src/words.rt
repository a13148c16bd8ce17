// Replies, states and faults in words.
use fluid_acts::TalkFault;
use fluid_codec::print_event;
use fluid_deltas::DeltaFault;
use fluid_json::NoMemory;
use fluid_lane::LaneFault;
use fluid_opening::DoorFault;
use fluid_store::StoreFault;
use fluid_voice::{Reply, VoiceState};
use std::alloc::Global;

// Each reply on a line of its own, behind others.
pub fn add_replies(alloc: Global, out: &mut String, replies: &[Reply]) -> Result<(), NoMemory> {
    for reply in replies {
        let text = print_event(alloc, reply)?;
        add_line(out, text.as_str())?;
    }
    Ok(())
}

// A line behind others.
pub fn add_line(out: &mut String, line: &str) -> Result<(), NoMemory> {
    if !out.is_empty() {
        out.push('\n')?;
    }
    out.push_str(line)?;
    Ok(())
}

pub fn told_state(alloc: Global, state: &VoiceState) -> Result<String, NoMemory> {
    let told = match state {
        VoiceState::Fresh => String::from_str(alloc, "fresh")?,
        VoiceState::Reading(name, next) => {
            format!(in alloc; "reading {} {next}", name.as_str())?
        }
        VoiceState::Writing(name, id, next) => {
            format!(in alloc; "writing {} {} {next}", name.as_str(), id.as_str())?
        }
        VoiceState::Used => String::from_str(alloc, "used")?,
    };
    Ok(told)
}

pub fn told_fault(fault: &TalkFault) -> &'static str {
    match fault {
        TalkFault::Door(fault) => told_door(fault),
        TalkFault::Lane(fault) => told_lane(fault),
        TalkFault::Delta(DeltaFault::DeltaFailed(_)) => "delta failed",
        TalkFault::Delta(_) => "delta",
        TalkFault::Store(StoreFault::StoreFailed(_)) => "store failed",
        TalkFault::Store(StoreFault::Clash { .. }) => "clash",
        TalkFault::Store(_) => "store",
        TalkFault::NoMemory => "no memory",
    }
}

pub fn told_door(fault: &DoorFault) -> &'static str {
    match fault {
        DoorFault::ShelfFailed(_) => "shelf failed",
        DoorFault::Lane(fault) => told_lane(fault),
        DoorFault::TooManyDocuments(_) => "too many documents",
        DoorFault::NoMemory => "no memory",
    }
}

fn told_lane(fault: &LaneFault) -> &'static str {
    match fault {
        LaneFault::LogFailed(_) => "log failed",
        LaneFault::DeltaFailed(_) => "delta failed",
        LaneFault::Worn => "worn",
        _ => "lane",
    }
}
