// The entries of a connection.
ghost use Rattle.std.specs.Prelude.{◌≡◌, ◌≤◌, true, length};
ghost use Rattle.fluid_types.specs.Forms.{largest};
ghost use Rattle.fluid_types.specs.Fits.{Fits};
ghost use Rattle.fluid_lane.specs.Standing.{IsLeaveOrSubmission};
ghost use Rattle.fluid_connection.specs.Knowing.{knowing};
ghost use Rattle.fluid_connection.specs.Entering.{DoesAs, IsFullAt, ended};
ghost use Rattle.fluid_connection.specs.Running.{IsSubmission, AreSubmissions, EntersText, NextDoes, lost};
ghost use Rattle.fluid_connection.specs.Telling.{HasRoom};
ghost use Rattle.fluid_voice.specs.declared.actions.Act.TheVariants as AnAct;

use crate::telling::Answered;
use fluid_acts::refused;
use fluid_doors::{Door, Pass};
use fluid_ends::TalkFault;
use fluid_json::NoMemory;
use fluid_lane::LaneFault;
use fluid_log::Keeper;
use fluid_types::{Raw, Verdict};
use fluid_voice::{Act, ActEnd, Voice};
use std::alloc::Global;
use std::sync::Wait;

/// Enters a submission or a leave in one turn of its document.
pub(crate) fn enter<R: Wait, K: Keeper>(
    rt: &R,
    alloc: Global,
    door: &Door<K>,
    pass: Pass<K>,
    raw: Raw,
) -> (Pass<K>, Result<ActEnd, TalkFault>)
    requires pass { pass.turn ≡ door.now.turn }
    requires fits { Fits raw }
    requires kind { IsLeaveOrSubmission raw }
    ensures turn { result.0.turn ≡ door.now.turn }
    ensures few { length result.0.seen ≤ largest }
    ensures does { DoesAs (knowing door.now.name pass) (knowing door.now.name result.0) (AnAct.Enter raw) result.1 }
{
    let (pass, answer) = door.submit(rt, alloc, pass, raw);
    (pass, ended(answer))
}

/// Enters the submissions of a text of a connection that writes, one after another. Behind one that finds the document full no other
/// is asked.
pub(crate) fn enter_all<R: Wait, K: Keeper>(
    rt: &R,
    alloc: Global,
    door: &Door<K>,
    voice: &Voice,
    pass: Pass<K>,
    acts: Vec<Act>,
) -> (Pass<K>, Answered, Option<TalkFault>)
    requires pass { pass.turn ≡ door.now.turn }
    requires acts { AreSubmissions acts.items }
    ensures turn { result.0.turn ≡ door.now.turn }
    ensures few { length pass.seen ≤ largest → length result.0.seen ≤ largest }
    ensures does { EntersText voice.now (knowing door.now.name pass) (knowing door.now.name result.0) acts.items result.1 result.2 }
{
    let mut pass = pass;
    let mut told = Answered::new(alloc);
    for act in acts {
        let (back, entered) = enter_next(rt, alloc, door, voice, pass, act, &mut told);
        pass = back;
        match entered {
            Ok(()) => {}
            Err(fault) => return (pass, told, Some(fault)),
        }
    }
    (pass, told, None)
}

fn enter_next<R: Wait, K: Keeper>(
    rt: &R,
    alloc: Global,
    door: &Door<K>,
    voice: &Voice,
    pass: Pass<K>,
    act: Act,
    told: &mut Answered,
) -> (Pass<K>, Result<(), TalkFault>)
    requires pass { pass.turn ≡ door.now.turn }
    requires act { IsSubmission act }
    requires full { told.old.full ≡ true → IsFullAt (knowing door.now.name pass) }
    requires room { HasRoom told.old.counts }
    ensures turn { result.0.turn ≡ door.now.turn }
    ensures few { length pass.seen ≤ largest → length result.0.seen ≤ largest }
    ensures does { NextDoes voice.now told.old told.new (knowing door.now.name pass) (knowing door.now.name result.0) act result.1 }
{
    let raw = entry_of(act);
    if told.full {
        let said = told.say(alloc, voice, ActEnd::FullNow);
        return (pass, lost(said));
    }
    let (pass, answer) = enter(rt, alloc, door, pass, raw);
    match answer {
        Ok(end) => {
            let said = told.say(alloc, voice, end);
            (pass, lost(said))
        }
        Err(fault) => (pass, Err(fault)),
    }
}

fn entry_of(act: Act) -> Raw
    requires { IsSubmission act }
    ensures is { act ≡ AnAct.Enter result }
    ensures fits { Fits result }
    ensures kind { IsLeaveOrSubmission result }
{
    match act {
        Act::Enter(raw) => raw,
        Act::Say(_) => unreachable!(),
        Act::Connect { .. } => unreachable!(),
        Act::Deltas(_, _) => unreachable!(),
        Act::Summary(_) => unreachable!(),
        Act::GetObject(_) => unreachable!(),
        Act::PutObject(_) => unreachable!(),
    }
}

fn lost(said: Result<(), NoMemory>) -> Result<(), TalkFault>
    ensures { result ≡ lost said }
{
    match said {
        Ok(()) => Ok(()),
        Err(_) => Err(TalkFault::NoMemory),
    }
}

// How an entry ended.
pub(crate) fn ended(answer: Result<Verdict, LaneFault>) -> Result<ActEnd, TalkFault>
    ensures { result ≡ ended answer }
{
    match answer {
        Ok(verdict) => Ok(ActEnd::Entered(verdict)),
        Err(fault) => refused(fault),
    }
}
