//! A container's client joins its document.
ghost use Rattle.std.specs.Prelude.{◌≡◌, ◌≤◌, IfOk};
ghost use Rattle.fluid_types.specs.Forms.{largest};
ghost use Rattle.fluid_rules.specs.declared.limits.Limits.{Limits as ALimits};
ghost use Rattle.fluid_transcript.specs.World.{World, Document};
ghost use Rattle.fluid_desk.specs.Stands.{IsLaneOf};
ghost use Rattle.fluid_door_link.specs.Coursing.{HasStood};
ghost use Rattle.fluid_containers.specs.Stepping.{LaneLinks};
ghost use Rattle.fluid_containers.specs.Joining.{EndsAs, IsJoining, JoinsLane, joining_stop};

use fluid_acts::{TalkFault, do_act};
use fluid_desk::{Stop, stop_of};
use fluid_door_link::ToldObjects;
use fluid_json::Json;
use fluid_lane::Lane;
use fluid_log::Keeper;
use fluid_store::Objects;
use fluid_types::{ClientId, DocName, Scopes};
use fluid_voice::{Act, ActEnd, ConnectRefusal};
use std::alloc::Global;

/// A client joins a document with all scopes: its id, or why it is refused.
pub(crate) fn join<K: Keeper, O: Objects>(
    alloc: Global,
    lane: &mut Lane<K>,
    objects: &mut ToldObjects<O>,
    document: &DocName,
    moment: u64,
) -> Result<Result<ClientId, ConnectRefusal>, Stop>
    requires moment { moment ≤ largest }
    ensures does { (limits : ALimits) (w : World) (d : Document) → IsLaneOf limits lane.old d → w.moment ≡ moment → JoinsLane limits w d lane.new result }
    ensures store { objects.new ≡ objects.old }
    ensures stood { HasStood lane.old → IfOk result (λ _. HasStood lane.new) }
    ensures runs { LaneLinks lane.old lane.new objects.old objects.new result }
{
    let name = document.copy(alloc)?;
    let scopes = Scopes {
        read: true,
        write: true,
        summary: true,
    };
    let detail = Json::null();
    let act = Act::Connect {
        name,
        write: true,
        scopes,
        detail,
        moment,
    };
    match do_act(alloc, lane, objects, &act) {
        Ok(end) => Ok(joined(end)),
        Err(fault) => Err(unjoined(fault)),
    }
}

fn joined(end: ActEnd) -> Result<ClientId, ConnectRefusal>
    requires { IsJoining end }
    ensures { EndsAs end result }
{
    match end {
        ActEnd::Joined(id, _) => Ok(id),
        ActEnd::FullNow => Err(ConnectRefusal::DocumentFull),
        ActEnd::TooMany => Err(ConnectRefusal::TooManyClients),
        ActEnd::Said | ActEnd::Told(_) | ActEnd::Entered(_) | ActEnd::Given(_) => unreachable!(),
    }
}

// A join is asked of the lane alone.
fn unjoined(fault: TalkFault) -> Stop
    ensures { result ≡ joining_stop fault }
{
    match fault {
        TalkFault::Lane(fault) => stop_of(fault),
        TalkFault::Door(_) | TalkFault::Delta(_) | TalkFault::Store(_) | TalkFault::NoMemory => {
            Stop::NoMemory
        }
    }
}
