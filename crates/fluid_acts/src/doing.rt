//! What an act of a connection does.
ghost use Rattle.std.specs.Prelude.{◌≡◌, ℕ, true, List, IfOk, IfErr};
ghost use Rattle.fluid_types.specs.Fits.{Fits};
ghost use Rattle.fluid_types.specs.Names.{IsName};
ghost use Rattle.fluid_store.specs.Held.{Held};
ghost use Rattle.fluid_lane.specs.declared.steps.Step.{Step};
ghost use Rattle.fluid_lane.specs.Steps.{ledger};
ghost use Rattle.fluid_voice.specs.declared.actions.Act.TheVariants as act;
ghost use Rattle.fluid_voice.specs.Ends.{outcome};
ghost use Rattle.fluid_voice.specs.Fitting.{IsFitting, IsLeaveOrSubmission};
ghost use Rattle.fluid_voice.specs.Suits.{Suits};
ghost use Rattle.fluid_ends.specs.Faults.{refused_by};
ghost use Rattle.fluid_acts.specs.AtLane.{OnLane};
ghost use Rattle.fluid_acts.specs.AtStore.{OnStore};
ghost use Rattle.fluid_acts.specs.Doing.{FindsTold, IsEndOf, IsTalkCause, found_in};
ghost use Rattle.fluid_acts.specs.Parts.{DoesOnLane, IsJoined, JoinedEnd};

use crate::asking::{get_object, messages_asked, put_object, summary};
use fluid_ends::TalkFault;
use fluid_json::{Json, NoMemory};
use fluid_lane::{Lane, LaneFault, lanes_say_their_ledgers};
use fluid_log::Keeper;
use fluid_store::Objects;
use fluid_types::{ClientId, Message, Raw, Scopes};
use fluid_voice::{Act, ActEnd};
use std::alloc::Global;

/// Does an act of a connection: it is at most one call, on the lane of the connection's document or on the store of objects. That
/// the document is open is the caller's part.
pub fn do_act<K: Keeper, O: Objects>(
    alloc: Global,
    lane: &mut Lane<K>,
    objects: &mut O,
    act: &Act,
) -> Result<ActEnd, TalkFault>
    requires { IsFitting act.now }
    ensures lane { OnLane act.now lane.old lane.new result }
    ensures store { OnStore act.now (O.seen objects.old) (O.seen objects.new) result }
    ensures end { (l : List Step) (held : Held) → FindsTold act.now lane.old l (O.seen objects.old) held → IsEndOf (outcome (found_in lane.old.limits (ledger l) held) act.now) result }
    ensures suits { IfOk result (Suits act.now) }
    ensures cause { IfErr result (IsTalkCause act.now lane.old lane.new (O.seen objects.old) (O.seen objects.new)) }
{
    match act {
        Act::Say(_) => Ok(ActEnd::Said),
        Act::Connect {
            write,
            scopes,
            detail,
            moment,
            ..
        } => connect(alloc, lane, *write, *scopes, detail, *moment),
        Act::Enter(raw) => enter(alloc, lane, raw),
        Act::Deltas(from, to) => messages_asked(alloc, lane, *from, *to),
        Act::Summary(asked) => Ok(summary(lane, asked)),
        Act::GetObject(id) => get_object(alloc, objects, id),
        Act::PutObject(bytes) => put_object(alloc, objects, bytes.as_slice()),
    }
}

// Who writes joins, and who reads is told the last number.
fn connect<K: Keeper>(
    alloc: Global,
    lane: &mut Lane<K>,
    write: bool,
    scopes: Scopes,
    detail: &Json,
    moment: u64,
) -> Result<ActEnd, TalkFault>
    requires { (id : List ℕ) → IsName id → Fits (Raw.Join id scopes detail.now moment) }
    ensures { (name : List ℕ) → DoesOnLane (act.Connect name write scopes detail.now moment) lane.old lane.new result }
{
    if !write {
        // (a law, and no work: its clause is for the proof)
        lanes_say_their_ledgers();
        return Ok(ActEnd::Told(lane.seq()));
    }
    let own = detail.copy(alloc)?;
    join(alloc, lane, scopes, own, moment)
}

fn join<K: Keeper>(
    alloc: Global,
    lane: &mut Lane<K>,
    scopes: Scopes,
    detail: Json,
    moment: u64,
) -> Result<ActEnd, TalkFault>
    requires { (id : List ℕ) → IsName id → Fits (Raw.Join id scopes detail moment) }
    ensures { (name : List ℕ) → DoesOnLane (act.Connect name true scopes detail moment) lane.old lane.new result }
{
    lanes_say_their_ledgers();
    // (read for its clause alone)
    let _entered = lane.entered();
    match lane.join(alloc, scopes, detail, moment) {
        Ok((raw, message)) => Ok(joined(raw, &message)),
        Err(fault) => refused(fault),
    }
}

// Enters a submission or a leave.
fn enter<K: Keeper>(alloc: Global, lane: &mut Lane<K>, raw: &Raw) -> Result<ActEnd, TalkFault>
    requires kind { IsLeaveOrSubmission raw.now }
    requires fits { Fits raw.now }
    ensures { DoesOnLane (act.Enter raw.now) lane.old lane.new result }
{
    lanes_say_their_ledgers();
    match lane.submit(alloc, raw) {
        Ok(verdict) => Ok(ActEnd::Entered(verdict)),
        Err(fault) => refused(fault),
    }
}

// The end of a connect whose join was entered.
fn joined(raw: Raw, message: &Message) -> ActEnd
    requires { IsJoined raw }
    ensures { JoinedEnd raw message.now result }
{
    match raw {
        Raw::Join { id, .. } => ActEnd::Joined(id, message.number),
        Raw::Leave { .. } | Raw::Submit { .. } | Raw::Report { .. } => unreachable!(),
    }
}

/// An entry that a lane refused: the limits of a document are ends of an act, and every other fault is one.
pub fn refused(fault: LaneFault) -> Result<ActEnd, TalkFault>
    ensures { result ≡ refused_by fault }
{
    match fault {
        LaneFault::Full(_) => Ok(ActEnd::FullNow),
        LaneFault::TooManyClients => Ok(ActEnd::TooMany),
        LaneFault::NoMemory => Err(TalkFault::NoMemory),
        other => Err(TalkFault::Lane(other)),
    }
}
