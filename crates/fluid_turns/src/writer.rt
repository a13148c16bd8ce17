//! A client that writes to the document.
ghost use Rattle.std.specs.Prelude.{◌≡◌, IfOk};
ghost use Rattle.fluid_turns.specs.Saying.{writer_for};

use fluid_json::NoMemory;
use fluid_steps::ScriptName;
use fluid_types::{ClientId, DocName, Raw, Submission};
use fluid_voice::VoiceState;
use std::alloc::Global;

/// A client that writes to the document: its name, its id, and the last number that it collected.
#[derive(Drop)]
pub struct Writer {
    pub name: ScriptName,
    pub id: ClientId,
    pub collected: u64,
}

/// The client of this name whose connection stands there, where it writes to this document.
pub fn writer_of(
    alloc: Global,
    name: ScriptName,
    state: &VoiceState,
    document: &DocName,
) -> Result<Option<Writer>, NoMemory>
    ensures { IfOk result (λ writer. writer ≡ writer_for name document.now state.now) }
{
    match state {
        VoiceState::Fresh => Ok(None),
        VoiceState::Reading(_, _) => Ok(None),
        VoiceState::Writing(own, id, next) => {
            if own.as_str() != document.as_str() {
                return Ok(None);
            }
            let id = id.copy(alloc)?;
            Ok(Some(Writer {
                name,
                id,
                collected: next.saturating_sub(1),
            }))
        }
        VoiceState::Used => Ok(None),
    }
}

/// A submission of a client as an entry at the moment 0.
pub fn entry(alloc: Global, id: &ClientId, submission: &Submission) -> Result<Raw, NoMemory>
    ensures { IfOk result (λ raw. raw ≡ Raw.Submit id.now submission.now 0) }
{
    let id = id.copy(alloc)?;
    let submission = submission.copy(alloc)?;
    Ok(Raw::Submit {
        id,
        submission,
        moment: 0,
    })
}
