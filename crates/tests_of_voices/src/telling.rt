// Acts, replies and states as texts.
use fluid_codec::{print_event, print_raw};
use fluid_json::{Json, NoMemory, Text, print};
use fluid_tree::Id;
use fluid_types::{DocName, Scopes};
use fluid_voice::{Act, Asked, Reply, VoiceState};
use std::alloc::Global;

// Each act on a line of its own.
pub fn told_acts(alloc: Global, acts: &[Act]) -> Result<String, NoMemory> {
    let mut out = String::new(alloc);
    for act in acts {
        add_act(alloc, &mut out, act)?;
    }
    Ok(out)
}

// The act by which a connection leaves, if there is one.
pub fn told_leave(alloc: Global, act: &Option<Act>) -> Result<String, NoMemory> {
    match act {
        Some(act) => told_act(alloc, act),
        None => Ok(String::new(alloc)),
    }
}

fn add_act(alloc: Global, out: &mut String, act: &Act) -> Result<(), NoMemory> {
    let told = told_act(alloc, act)?;
    add_line(out, told.as_str())
}

// A line behind others.
fn add_line(out: &mut String, line: &str) -> Result<(), NoMemory> {
    if !out.is_empty() {
        out.push('\n')?;
    }
    out.push_str(line)?;
    Ok(())
}

fn told_act(alloc: Global, act: &Act) -> Result<String, NoMemory> {
    match act {
        Act::Say(reply) => said(alloc, reply),
        Act::Connect {
            name,
            write,
            scopes,
            detail,
            moment,
        } => connect(alloc, name, *write, *scopes, detail, *moment),
        Act::Enter(raw) => {
            let record = print_raw(alloc, raw)?;
            Ok(format!(in alloc; "enter {}", record.as_str())?)
        }
        Act::Deltas(from, to) => Ok(format!(in alloc; "deltas {from} {to}")?),
        Act::Summary(Asked::Latest) => Ok(String::from_str(alloc, "summary latest")?),
        Act::Summary(Asked::Handle(handle)) => under(alloc, "summary", &Id::new(*handle)),
        Act::GetObject(id) => under(alloc, "get", id),
        Act::PutObject(bytes) => under(alloc, "put", &Id::of(bytes.as_slice())),
    }
}

fn said(alloc: Global, reply: &Reply) -> Result<String, NoMemory> {
    let text = print_event(alloc, reply)?;
    Ok(format!(in alloc; "say {}", text.as_str())?)
}

fn under(alloc: Global, word: &str, id: &Id) -> Result<String, NoMemory> {
    let id = id.print(alloc)?;
    Ok(format!(in alloc; "{word} {}", id.as_str())?)
}

fn connect(
    alloc: Global,
    name: &DocName,
    write: bool,
    scopes: Scopes,
    detail: &Json,
    moment: u64,
) -> Result<String, NoMemory> {
    let how = if write { "joins" } else { "reads" };
    let detail = print(alloc, detail)?;
    let scopes = told_scopes(scopes);
    Ok(format!(in alloc;
        "connect {} {how} {scopes} {} {moment}",
        name.as_str(),
        detail.as_str()
    )?)
}

fn told_scopes(scopes: Scopes) -> &'static str {
    match (scopes.read, scopes.write, scopes.summary) {
        (true, true, true) => "rws",
        (true, true, false) => "rw-",
        (true, false, true) => "r-s",
        (true, false, false) => "r--",
        (false, _, _) => "---",
    }
}

// Each reply on a line of its own.
pub fn told_replies(alloc: Global, replies: &[Reply]) -> Result<String, NoMemory> {
    let mut out = String::new(alloc);
    for reply in replies {
        add_reply(alloc, &mut out, reply)?;
    }
    Ok(out)
}

fn add_reply(alloc: Global, out: &mut String, reply: &Reply) -> Result<(), NoMemory> {
    let told = print_event(alloc, reply)?;
    add_line(out, told.as_str())
}

pub fn told_state(alloc: Global, state: &VoiceState) -> Result<String, NoMemory> {
    match state {
        VoiceState::Fresh => Ok(String::from_str(alloc, "fresh")?),
        VoiceState::Reading(name, next) => {
            Ok(format!(in alloc; "reading {} {next}", name.as_str())?)
        }
        VoiceState::Writing(name, id, next) => {
            Ok(format!(in alloc; "writing {} {} {next}", name.as_str(), id.as_str())?)
        }
        VoiceState::Used => Ok(String::from_str(alloc, "used")?),
    }
}
