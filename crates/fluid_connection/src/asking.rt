// What a text asks for beside entries: one act alone.
ghost use Rattle.std.specs.Prelude.{◌≡◌, ◌≤◌, ◌∷◌, [], length, Result, IfOk};
ghost use Rattle.fluid_deltas.specs.declared.fault.DeltaFault.{DeltaFault as ADeltaFault};
ghost use Rattle.fluid_types.specs.Forms.{largest};
ghost use Rattle.fluid_doors.specs.Looking.{IsLook, SuitsLook};
ghost use Rattle.fluid_voice.specs.declared.ends.ActEnd.{ActEnd as AnEnd};
ghost use Rattle.fluid_connection.specs.Knowing.{knowing};
ghost use Rattle.fluid_connection.specs.Entering.{DoesAs, looked};
ghost use Rattle.fluid_connection.specs.Hearing.{IsQuestion, AsksAs, HearsActs};

use crate::telling::{Answered, say_one};
use fluid_acts::{get_object, put_object};
use fluid_deltas::DeltaFault;
use fluid_doors::{Door, Pass};
use fluid_ends::TalkFault;
use fluid_log::Keeper;
use fluid_store::Objects;
use fluid_voice::{Act, ActEnd, Voice};
use std::alloc::Global;
use std::sync::Wait;

/// Does an act that stands alone and enters nothing, and says what is to be said to it.
pub(crate) fn do_one<R: Wait, K: Keeper, O: Objects>(
    rt: &R,
    alloc: Global,
    door: &Door<K>,
    voice: &mut Voice,
    pass: Pass<K>,
    objects: &mut O,
    act: Act,
) -> (Pass<K>, Answered, Option<TalkFault>)
    requires pass { pass.turn ≡ door.now.turn }
    requires act { IsQuestion act }
    ensures turn { result.0.turn ≡ door.now.turn }
    ensures few { length pass.seen ≤ largest → length result.0.seen ≤ largest }
    ensures same { voice.new ≡ voice.old }
    ensures does { HearsActs voice.old (knowing door.now.name pass) (knowing door.now.name result.0) (O.seen objects.old) (O.seen objects.new) (act ∷ []) result.1 result.2 }
{
    let (pass, answer) = ask(rt, alloc, door, pass, objects, &act);
    match answer {
        Ok(end) => {
            let (told, fault) = say_one(alloc, voice.take(alloc, act, end));
            (pass, told, fault)
        }
        Err(fault) => (pass, Answered::new(alloc), Some(fault)),
    }
}

// Messages and summaries are asked of the document in one turn of it; objects of the store, without the turn.
fn ask<R: Wait, K: Keeper, O: Objects>(
    rt: &R,
    alloc: Global,
    door: &Door<K>,
    pass: Pass<K>,
    objects: &mut O,
    act: &Act,
) -> (Pass<K>, Result<ActEnd, TalkFault>)
    requires pass { pass.turn ≡ door.now.turn }
    requires act { IsQuestion act.now }
    ensures turn { result.0.turn ≡ door.now.turn }
    ensures few { length pass.seen ≤ largest → length result.0.seen ≤ largest }
    ensures does { AsksAs (knowing door.now.name pass) (knowing door.now.name result.0) (O.seen objects.old) (O.seen objects.new) act.now result.1 }
{
    match act {
        Act::Say(_) => (pass, Ok(ActEnd::Said)),
        Act::Deltas(_, _) => look(rt, alloc, door, pass, act),
        Act::Summary(_) => look(rt, alloc, door, pass, act),
        Act::GetObject(id) => (pass, get_object(alloc, objects, id)),
        Act::PutObject(bytes) => (pass, put_object(alloc, objects, bytes.as_slice())),
        Act::Connect { .. } => unreachable!(),
        Act::Enter(_) => unreachable!(),
    }
}

/// Asks a document for what is read out of it, in one turn of it.
pub(crate) fn look<R: Wait, K: Keeper>(
    rt: &R,
    alloc: Global,
    door: &Door<K>,
    pass: Pass<K>,
    act: &Act,
) -> (Pass<K>, Result<ActEnd, TalkFault>)
    requires pass { pass.turn ≡ door.now.turn }
    requires act { IsLook act.now }
    ensures turn { result.0.turn ≡ door.now.turn }
    ensures few { length result.0.seen ≤ largest }
    ensures looked { (answer : Result AnEnd ADeltaFault) × ((result.1 ≡ looked answer) × IfOk answer (SuitsLook act.now)) }
    ensures does { DoesAs (knowing door.now.name pass) (knowing door.now.name result.0) act.now result.1 }
{
    let (pass, answer) = door.look(rt, alloc, pass, act);
    (pass, looked(answer))
}

fn looked(answer: Result<ActEnd, DeltaFault>) -> Result<ActEnd, TalkFault>
    ensures { result ≡ looked answer }
{
    match answer {
        Ok(end) => Ok(end),
        Err(fault) => Err(TalkFault::from(fault)),
    }
}
