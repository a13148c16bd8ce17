// Answers in words.
use crate::document::copied;
use fluid_json::Text;
use fluid_loader::LoadFault;
use fluid_runtime::EditFault;
use std::alloc::Global;
use std::process::Abort;

pub(crate) fn numbered(rt: &impl Abort, alloc: Global, number: u64) -> Text {
    Text::new(format!(in alloc; "at {number}").expect(rt, "memory"))
}

pub(crate) fn fault_or(
    rt: &impl Abort,
    alloc: Global,
    answer: &Result<(), LoadFault>,
    done: &str,
) -> Text {
    match answer {
        Ok(()) => copied(rt, alloc, done),
        Err(fault) => fault_text(rt, alloc, fault),
    }
}

pub(crate) fn fault_text(rt: &impl Abort, alloc: Global, fault: &LoadFault) -> Text {
    match fault {
        LoadFault::LinkFailed(note) => {
            let (before, after) = (note.before, note.after);
            Text::new(format!(in alloc; "failed {before} {after}").expect(rt, "memory"))
        }
        LoadFault::BadSummary(path) => {
            let path = path.as_str();
            Text::new(format!(in alloc; "bad summary {path}").expect(rt, "memory"))
        }
        LoadFault::NoSummary => copied(rt, alloc, "no summary"),
        LoadFault::Edit(EditFault::NoChannel) => copied(rt, alloc, "NoChannel"),
        LoadFault::Edit(EditFault::WrongKind) => copied(rt, alloc, "WrongKind"),
        LoadFault::Edit(EditFault::OutOfRange) => copied(rt, alloc, "OutOfRange"),
        LoadFault::Edit(EditFault::Exists) => copied(rt, alloc, "Exists"),
        LoadFault::Edit(EditFault::NoMemory) => copied(rt, alloc, "NoMemory"),
        LoadFault::Refused(nack) => {
            let rule = nack.rule;
            Text::new(format!(in alloc; "refused {rule:?}").expect(rt, "memory"))
        }
        LoadFault::Clash { .. } => copied(rt, alloc, "clash"),
        LoadFault::NoMemory => copied(rt, alloc, "NoMemory"),
    }
}
