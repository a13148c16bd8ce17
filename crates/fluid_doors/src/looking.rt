// What a lane answers to an act that enters nothing.
ghost use Rattle.std.specs.Prelude.{◌≡◌, ◌<◌, ◌≤◌, ◌+◌, ℤ, List, [], Ok, IfErr};
ghost use Rattle.fluid_types.specs.declared.messages.Message.{Message as AMessage};
ghost use Rattle.fluid_rules.specs.Scribe.{acks as acks_of};
ghost use Rattle.fluid_lane.specs.declared.steps.Step.{Step as AStep};
ghost use Rattle.fluid_lane.specs.Standing.{LaneStands};
ghost use Rattle.fluid_lane.specs.Steps.{range_steps};
ghost use Rattle.fluid_voice.specs.declared.actions.Act.TheVariants as act;
ghost use Rattle.fluid_voice.specs.Ends.{range_asked, summary_asked};
ghost use Rattle.fluid_doors.specs.Terms.{terms_of};
ghost use Rattle.fluid_doors.specs.Passing.{Continues};
ghost use Rattle.fluid_doors.specs.Collecting.{IsReadCause};
ghost use Rattle.fluid_doors.specs.Looking.{Looks, under};

use fluid_deltas::DeltaFault;
use fluid_lane::{Lane, lanes_say_their_ledgers};
use fluid_log::Keeper;
use fluid_tree::SummaryRef;
use fluid_types::Messages;
use fluid_voice::{ActEnd, Asked, Reply, out_of_range, range_asked, summary_asked};
use std::alloc::Global;

// The messages of the range that is asked for, or which of its numbers is out of range.
pub(crate) fn messages_asked<K: Keeper>(
    alloc: Global,
    lane: &mut Lane<K>,
    from: i64,
    to: i64,
) -> Result<ActEnd, DeltaFault>
    ensures goes { Continues lane.old lane.new (range_steps result) }
    ensures cause { IfErr result (IsReadCause lane.old.keeping.faults lane.new.keeping.faults) }
    ensures says { (l : List AStep) → LaneStands lane.old l → Looks (terms_of lane.old) (act.Deltas from to) result l }
{
    // (a law, and no work: its clause is for the proof)
    lanes_say_their_ledgers();
    match range_asked(lane.seq(), from, to) {
        Ok((first, end)) => messages(alloc, lane, first, end),
        Err(field) => Ok(ActEnd::Given(out_of_range(field))),
    }
}

fn messages<K: Keeper>(
    alloc: Global,
    lane: &mut Lane<K>,
    first: u64,
    end: u64,
) -> Result<ActEnd, DeltaFault>
    requires first { 0 < first }
    requires ordered { first ≤ end }
    requires last { end ≤ lane.old.entries.state.sequencer.sequence + 1 }
    ensures goes { Continues lane.old lane.new (range_steps result) }
    ensures cause { IfErr result (IsReadCause lane.old.keeping.faults lane.new.keeping.faults) }
    ensures says { (from to : ℤ) → range_asked lane.old.entries.state.sequencer.sequence from to ≡ Ok (first, end) →
        (l : List AStep) → LaneStands lane.old l → Looks (terms_of lane.old) (act.Deltas from to) result l }
{
    lanes_say_their_ledgers();
    match lane.range(alloc, first, end) {
        Ok(messages) => Ok(ActEnd::Given(Reply::Deltas {
            from: first,
            messages: Messages::new(messages),
        })),
        Err(fault) => Err(fault),
    }
}

// The acknowledged summary that is asked for.
pub(crate) fn summary<K: Keeper>(lane: &Lane<K>, asked: &Asked) -> ActEnd
    ensures { (l : List AStep) → LaneStands lane.now l → Looks (terms_of lane.now) (act.Summary asked.now) (Ok result) l }
{
    lanes_say_their_ledgers();
    let found = among(lane.acks(), asked);
    ActEnd::Given(Reply::Summary(under(asked, found)))
}

fn among(acks: &[SummaryRef], asked: &Asked) -> Option<([u8; 20], u64)>
    ensures { (messages : List AMessage) → acks.now ≡ acks_of messages → result ≡ summary_asked messages asked.now }
{
    summary_asked(acks, asked)
}

// An answer to a handle has that handle.
fn under(asked: &Asked, found: Option<([u8; 20], u64)>) -> Option<([u8; 20], u64)>
    ensures { result ≡ under asked.now found }
{
    match asked {
        Asked::Latest => found,
        Asked::Handle(handle) => match found {
            Some((_, number)) => Some((*handle, number)),
            None => None,
        },
    }
}
