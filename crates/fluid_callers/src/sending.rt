//! A connection hears a text.
ghost use Rattle.std.specs.Prelude.{◌≡◌, ◌≤◌, ◌+◌, ℕ, List, All, Some, IfOk, length, option_map};
ghost use Rattle.fluid_types.specs.Forms.{largest};
ghost use Rattle.fluid_readback.specs.Laws.{longest_text};
ghost use Rattle.fluid_steps.specs.declared.steps.Step.TheVariants as step;
ghost use Rattle.fluid_voice.specs.Fitting.{IsFitting};
ghost use Rattle.fluid_voice.specs.States.{document_name};
ghost use Rattle.fluid_voice.specs.Heard.{acts_of};
ghost use Rattle.fluid_transcript.specs.World.{World};
ghost use Rattle.fluid_transcript.specs.Connections.{voice_of};
ghost use Rattle.fluid_transcript.specs.Sound.{IsSoundVoice};
ghost use Rattle.fluid_transcript.specs.Transcript.{done};
ghost use Rattle.fluid_desk.specs.Stands.{DeskStands, StoreStands};
ghost use Rattle.fluid_desk.specs.Stopping.{HasRun};
ghost use Rattle.fluid_callers.specs.Reaching.{connected_to, reached};
ghost use Rattle.fluid_callers.specs.Ending.{RunsHearing};
ghost use Rattle.fluid_callers.specs.Calling.{CallDoesWith};

use crate::hearing::hear_all;
use crate::nowhere::hear_nowhere;
use crate::written::Written;
use fluid_desk::{Stop, ready};
use fluid_json::NoMemory;
use fluid_lanes::Lanes;
use fluid_log::Shelves;
use fluid_steps::ScriptName;
use fluid_store::Objects;
use fluid_types::DocName;
use fluid_voice::{Act, Acts, Voice, VoiceState};
use std::alloc::Global;

/// A connection hears a text of at most 1,048,576 bytes: what it asks for is done, and a line is written for each reply. The document
/// that the text reaches is opened at its first use.
pub fn send<B: Shelves, O: Objects>(
    alloc: Global,
    lanes: &mut Lanes<B>,
    objects: &mut O,
    voice: &mut Voice,
    name: &ScriptName,
    text: &str,
    moment: u64,
) -> Result<Written, Stop>
where
    B::K: Drop,
    requires moment { moment ≤ largest }
    requires short { length text.now ≤ longest_text }
    ensures does { (w : World) → DeskStands lanes.old w → StoreStands (O.seen objects.old) w → IsSoundVoice w voice.old → voice_of w name.now ≡ voice.old →
        w.moment ≡ moment → CallDoesWith (done lanes.old.limits w (step.Send name.now text.now)) name.now lanes.new (O.seen objects.new) voice.new result }
    ensures runs { (first steps : ℕ) → HasRun first steps lanes.old → RunsHearing first (steps + 1) (O.seen objects.old) (O.seen objects.new) lanes.new result }
    ensures limits { lanes.new.limits ≡ lanes.old.limits }
    ensures counts { (O.seen objects.old).faults ≤ (O.seen objects.new).faults }
{
    let acts = voice.acts(alloc, text, moment)?;
    match reached(alloc, acts.as_slice(), voice.state()) {
        Ok(Some(document)) => hear_at(alloc, lanes, objects, voice, name, acts, &document, moment),
        Ok(None) => hear_nowhere(alloc, voice, name, acts),
        Err(NoMemory) => Err(Stop::NoMemory),
    }
}

// A connection hears acts on this document.
fn hear_at<B: Shelves, O: Objects>(
    alloc: Global,
    lanes: &mut Lanes<B>,
    objects: &mut O,
    voice: &mut Voice,
    name: &ScriptName,
    acts: Acts,
    document: &DocName,
    moment: u64,
) -> Result<Written, Stop>
where
    B::K: Drop,
    requires moment { moment ≤ largest }
    requires fit { All IsFitting acts }
    ensures does { (w : World) (text : List ℕ) → DeskStands lanes.old w → StoreStands (O.seen objects.old) w → IsSoundVoice w voice.old →
        voice_of w name.now ≡ voice.old → w.moment ≡ moment → acts ≡ acts_of voice.old text moment → reached acts voice.old ≡ Some document.now →
        CallDoesWith (done lanes.old.limits w (step.Send name.now text)) name.now lanes.new (O.seen objects.new) voice.new result }
    ensures runs { (first steps : ℕ) → HasRun first steps lanes.old → RunsHearing first (steps + 1) (O.seen objects.old) (O.seen objects.new) lanes.new result }
    ensures limits { lanes.new.limits ≡ lanes.old.limits }
    ensures counts { (O.seen objects.old).faults ≤ (O.seen objects.new).faults }
{
    match ready(alloc, lanes, document, moment) {
        Ok(true) => hear_all(alloc, lanes.lent(document), objects, voice, name, acts),
        Ok(false) => hear_nowhere(alloc, voice, name, acts),
        Err(stop) => Err(stop),
    }
}

// The document that acts reach: the one that they connect to, or else that of the connection.
fn reached(alloc: Global, acts: &[Act], state: &VoiceState) -> Result<Option<DocName>, NoMemory>
    ensures { IfOk result (λ name. name ≡ reached acts.now state.now) }
{
    match connected_to(acts) {
        Some(name) => {
            let name = name.copy(alloc)?;
            Ok(Some(name))
        }
        None => own_document(alloc, state),
    }
}

// The document that the first connect among acts is for.
fn connected_to(acts: &[Act]) -> Option<&DocName>
    ensures { option_map (λ name. name.now) result ≡ connected_to acts.now }
{
    for act in acts {
        if let Act::Connect { name, .. } = act {
            return Some(name);
        }
    }
    None
}

fn own_document(alloc: Global, state: &VoiceState) -> Result<Option<DocName>, NoMemory>
    ensures { IfOk result (λ name. name ≡ document_name state.now) }
{
    match state {
        VoiceState::Fresh => Ok(None),
        VoiceState::Reading(name, _) => copied(alloc, name),
        VoiceState::Writing(name, _, _) => copied(alloc, name),
        VoiceState::Used => Ok(None),
    }
}

fn copied(alloc: Global, name: &DocName) -> Result<Option<DocName>, NoMemory>
    ensures { IfOk result (λ copy. copy ≡ Some name.now) }
{
    let name = name.copy(alloc)?;
    Ok(Some(name))
}
