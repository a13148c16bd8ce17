// How an event is put together, out of the tail of an order and what the lane has behind it.
ghost use Rattle.std.specs.Prelude.{◌≡◌, ◌<◌, ◌≤◌, ◌+◌, ◌-◌, ℕ, List, min, length, IfOk, IfErr};
ghost use Rattle.fluid_lane.specs.declared.steps.Step.{Step as AStep};
ghost use Rattle.fluid_lane.specs.Standing.{LaneStands};
ghost use Rattle.fluid_lane.specs.Steps.{range_steps};
ghost use Rattle.fluid_doors.specs.Terms.{terms_of};
ghost use Rattle.fluid_doors.specs.Passing.{Continues};
ghost use Rattle.fluid_doors.specs.Collecting.{Collects, IsEventUnder, IsReadCause, gathered};
ghost use Rattle.fluid_types.specs.Forms.{largest};
ghost use Rattle.fluid_doors.specs.Tailed.{IsTailOf, Begins, KeepsUp, KeepsUpBy, IsNoLonger, ReachesTo, ReadsUpTo};
ghost use Rattle.fluid_feed.specs.Tails.{too_many};

use fluid_deltas::DeltaFault;
use fluid_feed::{EventText, Tail};
use fluid_lane::{Lane, LaneFault, lanes_say_their_ledgers};
use fluid_log::Keeper;
use fluid_types::{DocName, Message, Verdict};
use std::alloc::Global;

/// The messages from one number to before another, in an event under this name. What the tail lacks of them is read and printed, once
/// for all.
pub(crate) fn gather<K: Keeper>(
    alloc: Global,
    lane: &mut Lane<K>,
    tail: &mut Tail,
    name: &DocName,
    from: u64,
    to: u64,
) -> Result<Option<EventText>, DeltaFault>
    requires first { tail.old.from ≤ from }
    requires some { from < to }
    requires last { to ≤ lane.old.entries.state.sequencer.sequence + 1 }
    ensures goes { Continues lane.old lane.new (range_steps result) }
    ensures cause { IfErr result (IsReadCause lane.old.keeping.faults lane.new.keeping.faults) }
    ensures tail { (l : List AStep) → LaneStands lane.old l → IsTailOf (terms_of lane.old).told tail.old l → IsTailOf (terms_of lane.old).told tail.new l }
    ensures short { length tail.old.messages < too_many → length tail.new.messages < too_many }
    ensures event { IfOk result (IsEventUnder name.now) }
    ensures says { (l : List AStep) → LaneStands lane.old l → IsTailOf (terms_of lane.old).told tail.old l →
        (atmost : ℕ) → to ≡ from + min atmost (lane.old.entries.state.sequencer.sequence + 1 - from) → Collects gathered (terms_of lane.old) from atmost result l }
{
    // (a law, and no work: its clause is for the proof)
    lanes_say_their_ledgers();
    // (read for its clause alone)
    let _last = lane.seq();
    read_up_to(alloc, lane, tail, from, to)?;
    let event = EventText::of(alloc, name, tail, from, to);
    tail.trim();
    match event {
        Ok(event) => Ok(Some(event)),
        Err(_) => Err(DeltaFault::NoMemory),
    }
}

// Puts what the lane has before this number behind a tail that doesn't reach so far. Where memory is wanting, the tail begins anew.
fn read_up_to<K: Keeper>(
    alloc: Global,
    lane: &mut Lane<K>,
    tail: &mut Tail,
    from: u64,
    to: u64,
) -> Result<(), DeltaFault>
    requires first { tail.old.from ≤ from }
    requires some { from < to }
    requires last { to ≤ lane.old.entries.state.sequencer.sequence + 1 }
    ensures goes { Continues lane.old lane.new (range_steps result) }
    ensures cause { IfErr result (IsReadCause lane.old.keeping.faults lane.new.keeping.faults) }
    ensures short { IsNoLonger tail.old tail.new result }
    ensures reached { IfOk result (λ _. ReachesTo tail.new from to) }
    ensures reads { (l : List AStep) → LaneStands lane.old l → IsTailOf (terms_of lane.old).told tail.old l → ReadsUpTo (terms_of lane.old) from to tail.new result l }
{
    lanes_say_their_ledgers();
    // (read for its clause alone)
    let _last = lane.seq();
    begin(alloc, tail, from);
    let end = tail.end();
    if to <= end {
        return Ok(());
    }
    let messages = lane.range(alloc, end, to)?;
    match tail.extend(alloc, messages.as_slice()) {
        Ok(()) => Ok(()),
        Err(_) => {
            *tail = Tail::new(alloc, 1);
            Err(DeltaFault::NoMemory)
        }
    }
}

/// Prints the message that an entry got, where it has the last number and the tail reaches to it, and puts it there.
pub(crate) fn keep_up(
    alloc: Global,
    last: u64,
    tail: &mut Tail,
    answer: &Result<Verdict, LaneFault>,
)
    requires { last ≤ largest }
    ensures { KeepsUpBy last answer.now tail.old tail.new }
{
    match answer {
        Ok(Verdict::Sequenced(message)) => put_last(alloc, last, tail, message),
        Ok(Verdict::Nacked(_)) | Ok(Verdict::Dropped) | Ok(Verdict::Absorbed) => {}
        Err(_) => {}
    }
}

// Where memory is wanting, the tail stays as it was, and what it lacks is read later.
fn put_last(alloc: Global, last: u64, tail: &mut Tail, message: &Message)
    requires { last ≤ largest }
    ensures { KeepsUp last message.now tail.old tail.new }
{
    if tail.end() != message.number || message.number != last {
        return;
    }
    match tail.push(alloc, message) {
        Ok(()) => tail.trim(),
        Err(_) => {}
    }
}

// A tail that doesn't reach to this number begins anew there.
fn begin(alloc: Global, tail: &mut Tail, from: u64)
    requires { tail.old.from ≤ from }
    ensures { Begins tail.old tail.new from }
{
    // (read for its clause alone)
    let _first = tail.from();
    if from <= tail.end() {
        return;
    }
    *tail = Tail::new(alloc, from);
}
