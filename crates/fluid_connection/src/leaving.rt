// How a client leaves.
ghost use Rattle.std.specs.Prelude.{◌≡◌, ◌≤◌, true, length, is_some};
ghost use Rattle.fluid_types.specs.Forms.{largest};
ghost use Rattle.fluid_types.specs.declared.entries.Raw.{Raw as ARaw};
ghost use Rattle.fluid_voice.specs.declared.actions.Act.TheVariants as AnAct;
ghost use Rattle.fluid_voice.specs.declared.states.VoiceState.TheVariants.{Used};
ghost use Rattle.fluid_voice.specs.Replies.{entered_verdict};
ghost use Rattle.fluid_connection.specs.Talked.{visited};
ghost use Rattle.fluid_connection.specs.Knowing.{knowing};
ghost use Rattle.fluid_connection.specs.Leaving.{IsLeave, IsLeaveAct, EntersBy};
ghost use Rattle.fluid_connection.specs.Slices.{ComesBack};

use crate::entering::ended;
use fluid_doors::{Door, Pass};
use fluid_ends::TalkFault;
use fluid_log::Keeper;
use fluid_service::Visit;
use fluid_types::Raw;
use fluid_voice::{Act, ActEnd, Voice};
use std::alloc::Global;
use std::sync::Wait;

/// Enters the leave of a client of a visit's document.
pub(crate) fn enter_leave<R: Wait, K: Keeper>(
    rt: &R,
    alloc: Global,
    visit: Visit<K>,
    act: Act,
) -> (Visit<K>, Result<ActEnd, TalkFault>)
    requires { IsLeaveAct act }
    ensures back { ComesBack visit result.0 }
    ensures does { (raw : ARaw) → act ≡ AnAct.Enter raw → EntersBy (visited visit) (visited result.0) raw result.1 }
{
    let raw = entry_of(act);
    let (door, pass) = visit.into_parts();
    let (pass, answer) = enter(rt, alloc, &door, pass, raw);
    (Visit::new(door, pass), answer)
}

fn enter<R: Wait, K: Keeper>(
    rt: &R,
    alloc: Global,
    door: &Door<K>,
    pass: Pass<K>,
    raw: Raw,
) -> (Pass<K>, Result<ActEnd, TalkFault>)
    requires pass { pass.turn ≡ door.now.turn }
    requires leave { IsLeave raw }
    ensures turn { result.0.turn ≡ door.now.turn }
    ensures few { length result.0.seen ≤ largest }
    ensures does { EntersBy (knowing door.now.name pass) (knowing door.now.name result.0) raw result.1 }
{
    let (pass, answer) = door.submit(rt, alloc, pass, raw);
    (pass, ended(answer))
}

/// The connection has left, where its leave was entered.
pub(crate) fn take_leave(voice: &mut Voice, end: ActEnd)
    requires { is_some (entered_verdict end) ≡ true }
    ensures { voice.new ≡ Used }
{
    voice.take_leave(&end);
}

fn entry_of(act: Act) -> Raw
    requires { IsLeaveAct act }
    ensures is { act ≡ AnAct.Enter result }
    ensures leave { IsLeave result }
{
    match act {
        Act::Enter(raw) => raw,
        Act::Say(_) => unreachable!(),
        Act::Connect { .. } => unreachable!(),
        Act::Deltas(_, _) => unreachable!(),
        Act::Summary(_) => unreachable!(),
        Act::GetObject(_) => unreachable!(),
        Act::PutObject(_) => unreachable!(),
    }
}
