//! A roamer sends what waits.
ghost use Rattle.std.specs.Prelude.{◌≡◌, ◌≤◌, IfOk, List, false};
ghost use Rattle.fluid_types.specs.Forms.{largest};
ghost use Rattle.fluid_edits.specs.declared.edit.Edit.{Edit as AnEdit};
ghost use Rattle.fluid_rules.specs.declared.limits.Limits.{Limits as ALimits};
ghost use Rattle.fluid_transcript.specs.World.{World, Document, Roamer as ARoamerOf, ledger_of};
ghost use Rattle.fluid_holding.specs.Laws.{Stands};
ghost use Rattle.fluid_outbox.specs.Past.{Past};
ghost use Rattle.fluid_outbox.specs.Kept.{Stands as OutboxStands};
ghost use Rattle.fluid_desk.specs.Stands.{IsLaneOf};
ghost use Rattle.fluid_callers.specs.Ending.{LaneReads};
ghost use Rattle.fluid_roamers.specs.Roaming.{IsRoaming};
ghost use Rattle.fluid_roamers.specs.Sending.{LeavesSent, SendsAll, SendsOne};
ghost use Rattle.fluid_roamers.specs.Taking.{IsSendable};

use crate::entering::enter;
use crate::roamer::Roamer;
use fluid_desk::Stop;
use fluid_door_link::ToldObjects;
use fluid_holding::submissions_are_counted;
use fluid_json::LARGEST;
use fluid_lane::Lane;
use fluid_log::Keeper;
use fluid_store::Objects;
use fluid_types::NackRule;
use std::alloc::Global;

/// What became of sending the first edit that waits.
#[derive(Clone, Copy)]
pub enum Sent {
    /// Nothing waits.
    Nothing,
    Taken,
    /// It is refused by this rule, and the roamer's connection is lost.
    Refused(NackRule),
}

/// The roamer sends the first edit that waits.
pub(crate) fn send<K: Keeper, O: Objects>(
    alloc: Global,
    lane: &mut Lane<K>,
    objects: &mut ToldObjects<O>,
    roamer: &mut Roamer,
    moment: u64,
) -> Result<Sent, Stop>
    requires moment { moment ≤ largest }
    requires kept { IsSendable roamer.old.outbox }
    ensures does { (limits : ALimits) (w : World) (d : Document) (k : ARoamerOf) (rest : List AnEdit) → IsLaneOf limits lane.old d → w.moment ≡ moment → Stands (ledger_of d) k.client →
        k.is_lost ≡ false → IsRoaming (ledger_of d) roamer.old k rest → SendsOne limits w d k rest lane.new roamer.new result }
    ensures store { objects.new ≡ objects.old }
    ensures runs { LaneReads lane.old lane.new result }
    ensures kept { IfOk result (λ _. IsSendable roamer.new.outbox) }
{
    // (a law, and no work: its clause is for the proof)
    submissions_are_counted();
    let entry = roamer.next(alloc, moment)?;
    match entry {
        None => Ok(Sent::Nothing),
        Some(raw) => {
            let refused = enter(alloc, lane, objects, raw)?;
            Ok(became(roamer, refused))
        }
    }
}

fn became(roamer: &mut Roamer, refused: Option<NackRule>) -> Sent
    ensures does { (past : Past) → OutboxStands roamer.old.outbox past → LeavesSent past roamer.old roamer.new refused result }
    ensures kept { IsSendable roamer.old.outbox → IsSendable roamer.new.outbox }
{
    match refused {
        None => Sent::Taken,
        Some(rule) => {
            roamer.lose();
            Sent::Refused(rule)
        }
    }
}

/// The roamer sends what waits, in its order, up to the first that is refused: then its connection is lost. The rule by which that is
/// refused.
pub(crate) fn send_all<K: Keeper, O: Objects>(
    alloc: Global,
    lane: &mut Lane<K>,
    objects: &mut ToldObjects<O>,
    roamer: &mut Roamer,
    moment: u64,
) -> Result<Option<NackRule>, Stop>
    requires moment { moment ≤ largest }
    requires kept { IsSendable roamer.old.outbox }
    ensures does { (limits : ALimits) (w : World) (d : Document) (k : ARoamerOf) (rest : List AnEdit) → IsLaneOf limits lane.old d → w.moment ≡ moment → Stands (ledger_of d) k.client →
        k.is_lost ≡ false → IsRoaming (ledger_of d) roamer.old k rest → SendsAll limits w d k rest lane.new roamer.new result }
    ensures store { objects.new ≡ objects.old }
    ensures runs { LaneReads lane.old lane.new result }
    ensures kept { IfOk result (λ _. IsSendable roamer.new.outbox) }
{
    for _ in 0..LARGEST {
        let sent = send(alloc, lane, objects, roamer, moment)?;
        match sent {
            Sent::Nothing => return Ok(None),
            Sent::Taken => {}
            Sent::Refused(rule) => return Ok(Some(rule)),
        }
    }
    Err(Stop::NoMemory)
}
