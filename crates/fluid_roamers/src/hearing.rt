//! A roamer takes in the messages of its document.
ghost use Rattle.std.specs.Prelude.{◌≡◌, ◌+◌, ◌∷◌, [], OnOk, MatchResult};
ghost use Rattle.fluid_types.specs.Order.{AreNumberedFrom};
ghost use Rattle.fluid_rules.specs.declared.limits.Limits.{Limits as ALimits};
ghost use Rattle.fluid_transcript.specs.World.{Document};
ghost use Rattle.fluid_outbox.specs.Past.{Past};
ghost use Rattle.fluid_outbox.specs.Kept.{Stands};
ghost use Rattle.fluid_desk.specs.Stands.{IsLaneOf};
ghost use Rattle.fluid_desk.specs.Stopping.{IsHonest, steps_on};
ghost use Rattle.fluid_callers.specs.Ending.{LaneReads};
ghost use Rattle.fluid_roamers.specs.Taking.{HearsLane, IsSendable, TakesIn};

use crate::roamer::Roamer;
use fluid_callers::messages_from;
use fluid_desk::Stop;
use fluid_json::NoMemory;
use fluid_lane::Lane;
use fluid_log::Keeper;
use fluid_types::Message;
use std::alloc::Global;

/// The roamer takes in the messages up to the last of its document's lane.
pub(crate) fn hear<K: Keeper>(
    alloc: Global,
    lane: &mut Lane<K>,
    roamer: &mut Roamer,
) -> Result<(), Stop>
    requires kept { IsSendable roamer.old.outbox }
    ensures does { (limits : ALimits) (d : Document) (past : Past) → IsLaneOf limits lane.old d → Stands roamer.old.outbox past →
        MatchResult result (λ _. HearsLane limits d past lane.new roamer.old roamer.new) (IsHonest (steps_on d lane.new)) }
    ensures runs { LaneReads lane.old lane.new result }
    ensures kept { OnOk result (IsSendable roamer.new.outbox) }
{
    let heard = roamer.seq();
    let last = lane.seq();
    if last <= heard {
        return Ok(());
    }
    let messages = messages_from(alloc, lane, heard + 1, last + 1)?;
    take_all(alloc, roamer, messages)?;
    Ok(())
}

fn take_all(alloc: Global, roamer: &mut Roamer, messages: Vec<Message>) -> Result<(), NoMemory>
    requires kept { IsSendable roamer.old.outbox }
    requires next { AreNumberedFrom (roamer.old.outbox.heard_to + 1) messages.items }
    ensures does { (past : Past) → Stands roamer.old.outbox past → OnOk result (TakesIn past messages.items roamer.old roamer.new) }
    ensures kept { OnOk result (IsSendable roamer.new.outbox) }
{
    for message in messages {
        take_one(alloc, roamer, message)?;
    }
    Ok(())
}

// (a function of its own, since the message is let go in it)
fn take_one(alloc: Global, roamer: &mut Roamer, message: Message) -> Result<(), NoMemory>
    requires kept { IsSendable roamer.old.outbox }
    requires next { message.number ≡ roamer.old.outbox.heard_to + 1 }
    ensures does { (past : Past) → Stands roamer.old.outbox past → OnOk result (TakesIn past (message ∷ []) roamer.old roamer.new) }
    ensures number { OnOk result (roamer.new.outbox.heard_to ≡ roamer.old.outbox.heard_to + 1) }
    ensures kept { OnOk result (IsSendable roamer.new.outbox) }
{
    roamer.take(alloc, &message)
}
