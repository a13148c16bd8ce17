//! Acts that reach no document that is open.
ghost use Rattle.std.specs.Prelude.{◌≡◌, ℕ, List, [], All, IfOk, IfErr};
ghost use Rattle.fluid_desk.specs.declared.stop.Stop.TheVariants.{NoMemory as OutOfMemory};
ghost use Rattle.fluid_rules.specs.declared.limits.Limits.{Limits as ALimits};
ghost use Rattle.fluid_transcript.specs.World.{Document};
ghost use Rattle.fluid_transcript.specs.Connections.{Hearing, hear as hear_by, hear_act};
ghost use Rattle.fluid_callers.specs.Reaching.{IsNowhere, end_nowhere};
ghost use Rattle.fluid_callers.specs.Hearing.{HasSaid, SaysBy, SaysOne};

use crate::hearing::reply;
use crate::written::Written;
use fluid_desk::Stop;
use fluid_json::NoMemory;
use fluid_steps::ScriptName;
use fluid_voice::{Act, ActEnd, Acts, ConnectRefusal, Voice};
use std::alloc::Global;

/// A connection hears acts, none of which reaches a document that is open: something is said, or as many documents are open as may be.
pub(crate) fn hear_nowhere(
    alloc: Global,
    voice: &mut Voice,
    name: &ScriptName,
    acts: Acts,
) -> Result<Written, Stop>
    ensures says { (limits : ALimits) (opened : List (List ℕ)) (d : Document) (h : Hearing) → All (IsNowhere opened) acts → HasSaid h voice.old [] →
        SaysBy (hear_by limits opened name.now d h acts) voice.new result }
    ensures memory { IfErr result (λ stop. stop ≡ OutOfMemory) }
{
    let mut lines = Written::none(alloc);
    for act in acts.into_vec() {
        hear(alloc, voice, name, act, &mut lines)?;
    }
    Ok(lines)
}

fn hear(
    alloc: Global,
    voice: &mut Voice,
    name: &ScriptName,
    act: Act,
    lines: &mut Written,
) -> Result<(), Stop>
    ensures says { (limits : ALimits) (opened : List (List ℕ)) (d : Document) (h : Hearing) → IsNowhere opened act → HasSaid h voice.old lines.old →
        SaysOne (hear_act limits opened name.now d h act) voice.new lines.new result }
    ensures memory { IfErr result (λ stop. stop ≡ OutOfMemory) }
{
    match end_nowhere(alloc, &act) {
        Ok(end) => reply(alloc, voice, name, act, end, lines),
        Err(NoMemory) => Err(Stop::NoMemory),
    }
}

// How an act ends there. Of the acts that ask a document for something only a connect comes here.
fn end_nowhere(alloc: Global, act: &Act) -> Result<ActEnd, NoMemory>
    ensures { IfOk result (λ end. end ≡ end_nowhere act.now) }
{
    match act {
        Act::Connect { .. } => {
            let reply = ConnectRefusal::TooManyDocuments.reply(alloc)?;
            Ok(ActEnd::Given(reply))
        }
        _ => Ok(ActEnd::Said),
    }
}
