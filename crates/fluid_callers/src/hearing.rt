//! What a connection hears on the lane of its document: acts one after another.
ghost use Rattle.std.specs.Prelude.{◌≡◌, ◌++◌, ℕ, List, [], All, MatchResult, map};
ghost use Rattle.fluid_rules.specs.declared.limits.Limits.{Limits as ALimits};
ghost use Rattle.fluid_voice.specs.Fitting.{IsFitting};
ghost use Rattle.fluid_voice.specs.Replies.{replies_to, state_after};
ghost use Rattle.fluid_transcript.specs.World.{Document};
ghost use Rattle.fluid_transcript.specs.Connections.{Hearing, hear, hear_act};
ghost use Rattle.fluid_transcript.specs.Lines.{reply_line};
ghost use Rattle.fluid_transcript.specs.Transcript.{written};
ghost use Rattle.fluid_desk.specs.declared.stop.Stop.TheVariants.{NoMemory as OutOfMemory};
ghost use Rattle.fluid_callers.specs.Reaching.{IsWithin};
ghost use Rattle.fluid_callers.specs.Ending.{LaneHears, delta_stop};
ghost use Rattle.fluid_callers.specs.Hearing.{HasHeard, HearsBy, HearsOne, IsUnheard, IsUnstored};

use crate::written::Written;
use fluid_acts::{TalkFault, do_act};
use fluid_deltas::DeltaFault;
use fluid_desk::{Stop, StoredFault, stop_of};
use fluid_json::NoMemory;
use fluid_lane::{Lane, LaneFault};
use fluid_log::Keeper;
use fluid_steps::ScriptName;
use fluid_store::{Objects, StoreFault};
use fluid_voice::{Act, ActEnd, Acts, Voice};
use std::alloc::Global;

/// A connection hears acts on the lane of the document that they reach. It writes a line for each reply.
pub(crate) fn hear_all<K: Keeper, O: Objects>(
    alloc: Global,
    lane: &mut Lane<K>,
    objects: &mut O,
    voice: &mut Voice,
    name: &ScriptName,
    acts: Acts,
) -> Result<Written, Stop>
    requires { All IsFitting acts }
    ensures does { (limits : ALimits) (opened : List (List ℕ)) (d : Document) (h : Hearing) → All (IsWithin opened) acts →
        HasHeard limits d h lane.old (O.seen objects.old) voice.old [] →
        HearsBy limits d (hear limits opened name.now d h acts) lane.new (O.seen objects.new) voice.new result }
    ensures runs { LaneHears lane.old lane.new (O.seen objects.old) (O.seen objects.new) result }
{
    let mut lines = Written::none(alloc);
    for act in acts.into_vec() {
        hear(alloc, lane, objects, voice, name, act, &mut lines)?;
    }
    Ok(lines)
}

// One act.
fn hear<K: Keeper, O: Objects>(
    alloc: Global,
    lane: &mut Lane<K>,
    objects: &mut O,
    voice: &mut Voice,
    name: &ScriptName,
    act: Act,
    lines: &mut Written,
) -> Result<(), Stop>
    requires { IsFitting act }
    ensures does { (limits : ALimits) (opened : List (List ℕ)) (d : Document) (h : Hearing) → IsWithin opened act →
        HasHeard limits d h lane.old (O.seen objects.old) voice.old lines.old →
        HearsOne limits d (hear_act limits opened name.now d h act) lane.new (O.seen objects.new) voice.new lines.new result }
    ensures runs { LaneHears lane.old lane.new (O.seen objects.old) (O.seen objects.new) result }
{
    match do_act(alloc, lane, objects, &act) {
        Ok(end) => reply(alloc, voice, name, act, end, lines),
        Err(fault) => unheard(alloc, name, fault, lines),
    }
}

/// Notes how an act ended, and writes a line for each reply.
pub(crate) fn reply(
    alloc: Global,
    voice: &mut Voice,
    name: &ScriptName,
    act: Act,
    end: ActEnd,
    lines: &mut Written,
) -> Result<(), Stop>
    ensures { MatchResult result
        (λ _. (voice.new ≡ state_after voice.old act end) × (lines.new ≡ lines.old ++ written (map (reply_line name.now) (replies_to voice.old act end))))
        (λ stop. stop ≡ OutOfMemory) }
{
    let replies = voice.take(alloc, act, end)?;
    lines.push_replies(alloc, name, replies.as_slice())?;
    Ok(())
}

// What is written of an act that failed: that other bytes are held under an object's id.
fn unheard(
    alloc: Global,
    name: &ScriptName,
    fault: TalkFault,
    lines: &mut Written,
) -> Result<(), Stop>
    ensures { IsUnheard name.now fault lines.old lines.new result }
{
    match fault {
        TalkFault::Lane(fault) => Err(stop_of(fault)),
        TalkFault::Delta(fault) => Err(delta_stop(fault)),
        TalkFault::Store(fault) => unstored(alloc, name, fault, lines),
        TalkFault::Door(_) => Err(Stop::NoMemory),
        TalkFault::NoMemory => Err(Stop::NoMemory),
    }
}

fn unstored(
    alloc: Global,
    name: &ScriptName,
    fault: StoreFault,
    lines: &mut Written,
) -> Result<(), Stop>
    ensures { IsUnstored name.now fault lines.old lines.new result }
{
    match fault {
        StoreFault::Clash { id, .. } => match lines.push_clash(alloc, name, &id) {
            Ok(()) => Ok(()),
            Err(NoMemory) => Err(Stop::NoMemory),
        },
        StoreFault::StoreFailed(note) => Err(Stop::StoreFault(note)),
        StoreFault::NoMemory => Err(Stop::NoMemory),
        other => Err(Stop::BadStored(StoredFault::Object(other))),
    }
}

/// A fault of the messages that were asked for.
pub fn delta_stop(fault: DeltaFault) -> Stop
    ensures { result ≡ delta_stop fault }
{
    match fault {
        DeltaFault::DeltaFailed(note) => Stop::KeeperFault(note),
        DeltaFault::BadDelta(number) => Stop::BadStored(StoredFault::Delta(number)),
        DeltaFault::Worn => Stop::BadStored(StoredFault::Lane(LaneFault::Worn)),
        DeltaFault::NoMemory => Stop::NoMemory,
    }
}
