//! A roamer's client joins its document, submits to it, and leaves it.
ghost use Rattle.std.specs.Prelude.{◌≡◌, ◌≤◌};
ghost use Rattle.fluid_types.specs.Forms.{largest};
ghost use Rattle.fluid_types.specs.Fits.{Fits};
ghost use Rattle.fluid_rules.specs.declared.limits.Limits.{Limits as ALimits};
ghost use Rattle.fluid_voice.specs.Fitting.{IsLeaveOrSubmission};
ghost use Rattle.fluid_transcript.specs.World.{World, Document};
ghost use Rattle.fluid_desk.specs.Stands.{IsLaneOf};
ghost use Rattle.fluid_callers.specs.Ending.{LaneReads};
ghost use Rattle.fluid_containers.specs.Joining.{EndsAs, IsJoining, JoinsLane, joining_stop};
ghost use Rattle.fluid_roamers.specs.Entering.{IsEntering, IsRefusedAs, SubmitsLane};

use fluid_acts::{TalkFault, do_act};
use fluid_desk::{Stop, stop_of};
use fluid_door_link::ToldObjects;
use fluid_json::Json;
use fluid_lane::Lane;
use fluid_log::Keeper;
use fluid_store::Objects;
use fluid_types::{ClientId, DocName, Nack, NackRule, Raw, Scopes, Verdict};
use fluid_voice::{Act, ActEnd, ConnectRefusal};
use std::alloc::Global;

/// A client joins a document with all scopes: its id, or why it is refused.
pub(crate) fn join<K: Keeper, O: Objects>(
    alloc: Global,
    lane: &mut Lane<K>,
    objects: &mut ToldObjects<O>,
    document: &DocName,
    moment: u64,
) -> Result<Result<ClientId, ConnectRefusal>, Stop>
    requires moment { moment ≤ largest }
    ensures does { (limits : ALimits) (w : World) (d : Document) → IsLaneOf limits lane.old d → w.moment ≡ moment → JoinsLane limits w d lane.new result }
    ensures store { objects.new ≡ objects.old }
    ensures runs { LaneReads lane.old lane.new result }
{
    let name = document.copy(alloc)?;
    let scopes = Scopes {
        read: true,
        write: true,
        summary: true,
    };
    let detail = Json::null();
    let act = Act::Connect {
        name,
        write: true,
        scopes,
        detail,
        moment,
    };
    match do_act(alloc, lane, objects, &act) {
        Ok(end) => Ok(joined(end)),
        Err(fault) => Err(unentered(fault)),
    }
}

fn joined(end: ActEnd) -> Result<ClientId, ConnectRefusal>
    requires { IsJoining end }
    ensures { EndsAs end result }
{
    match end {
        ActEnd::Joined(id, _) => Ok(id),
        ActEnd::FullNow => Err(ConnectRefusal::DocumentFull),
        ActEnd::TooMany => Err(ConnectRefusal::TooManyClients),
        ActEnd::Said | ActEnd::Told(_) | ActEnd::Entered(_) | ActEnd::Given(_) => unreachable!(),
    }
}

/// A leave or a submission is entered, unless the document is full for it: by which rule it is refused, if it is.
pub(crate) fn enter<K: Keeper, O: Objects>(
    alloc: Global,
    lane: &mut Lane<K>,
    objects: &mut ToldObjects<O>,
    raw: Raw,
) -> Result<Option<NackRule>, Stop>
    requires kind { IsLeaveOrSubmission raw }
    requires fits { Fits raw }
    ensures does { (limits : ALimits) (d : Document) → IsLaneOf limits lane.old d → SubmitsLane limits d raw lane.new result }
    ensures store { objects.new ≡ objects.old }
    ensures runs { LaneReads lane.old lane.new result }
{
    let act = Act::Enter(raw);
    match do_act(alloc, lane, objects, &act) {
        Ok(end) => Ok(refused(end)),
        Err(fault) => Err(unentered(fault)),
    }
}

fn refused(end: ActEnd) -> Option<NackRule>
    requires { IsEntering end }
    ensures { IsRefusedAs end result }
{
    match end {
        ActEnd::Entered(verdict) => nacked(verdict),
        ActEnd::FullNow => Some(NackRule::Full),
        ActEnd::Said
        | ActEnd::Told(_)
        | ActEnd::Joined(_, _)
        | ActEnd::TooMany
        | ActEnd::Given(_) => unreachable!(),
    }
}

fn nacked(verdict: Verdict) -> Option<NackRule>
    ensures { IsRefusedAs (ActEnd.Entered verdict) result }
{
    match verdict {
        Verdict::Nacked(nack) => {
            let Nack { rule, .. } = nack;
            Some(rule)
        }
        Verdict::Sequenced(_) => None,
        Verdict::Dropped => None,
        Verdict::Absorbed => None,
    }
}

// An entry is asked of the lane alone.
fn unentered(fault: TalkFault) -> Stop
    ensures { result ≡ joining_stop fault }
{
    match fault {
        TalkFault::Lane(fault) => stop_of(fault),
        TalkFault::Door(_) | TalkFault::Delta(_) | TalkFault::Store(_) | TalkFault::NoMemory => {
            Stop::NoMemory
        }
    }
}
