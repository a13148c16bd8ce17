// What a connection collects: the messages that it hasn't delivered.
ghost use Rattle.std.specs.Prelude.{◌≡◌, ◌<◌, ◌≤◌, ◌+◌, ◌^◌, List, ℕ, true, false, length, Some, None, is_some, IfOk};
ghost use Rattle.fluid_types.specs.Forms.{largest};
ghost use Rattle.fluid_voice.specs.States.{is_connected, next_number};
ghost use Rattle.fluid_doors.specs.Collecting.{IsEventUnder, gathered};
ghost use Rattle.fluid_talk.specs.Talking.{number_behind_last};
ghost use Rattle.fluid_connection.specs.Talked.{visited};
ghost use Rattle.fluid_connection.specs.Knowing.{knowing};
ghost use Rattle.fluid_connection.specs.Slices.{PutsAnswer, TakesNext, CollectsAll, ComesBack};

use fluid_cast::Cursor;
use fluid_deltas::DeltaFault;
use fluid_doors::{Door, Pass};
use fluid_ends::TalkFault;
use fluid_feed::{EventText, Feed};
use fluid_log::Keeper;
use fluid_service::Visit;
use fluid_voice::{MOST_IN_EVENT, VoiceState};
use std::alloc::Global;
use std::sync::Wait;

/// What was collected: the op events, the number of the message behind theirs, and how many steps the document had before that.
#[derive(Drop)]
pub(crate) struct Collected {
    pub(crate) events: Feed,
    pub(crate) next: u64,
    pub(crate) steps: u64,
}

/// The number of the message behind a slice, and whether the slice was the last one.
#[derive(Clone, Copy)]
pub(crate) struct Slice {
    pub(crate) next: u64,
    pub(crate) is_last: bool,
}

/// The number of the message that is delivered next; none where it is connected to no document.
pub(crate) fn next_of(state: &VoiceState) -> Option<u64>
    ensures some { (next : ℕ) → result ≡ Some next → (is_connected state.now ≡ true) × (next ≡ next_number state.now) }
    ensures none { result ≡ None → is_connected state.now ≡ false }
{
    match state {
        VoiceState::Fresh => None,
        VoiceState::Reading(_, next) => Some(*next),
        VoiceState::Writing(_, _, next) => Some(*next),
        VoiceState::Used => None,
    }
}

/// Whether nothing came since all was delivered, as the door has it.
pub(crate) fn is_quiet<K: Keeper>(visit: &Option<Visit<K>>, settled: Option<u64>) -> bool
    ensures { result ≡ true → is_some settled ≡ true }
{
    let Some(steps) = settled else {
        return false;
    };
    match visit {
        Some(visit) => visit.door().hint() == steps,
        None => false,
    }
}

/// Collects what a visit's document has from this number on, in slices, each in a turn of its own.
pub(crate) fn collect_all<R: Wait, K: Keeper>(
    rt: &R,
    alloc: Global,
    visit: Visit<K>,
    next: u64,
) -> (Visit<K>, Result<Collected, TalkFault>)
    requires first { 0 < next }
    requires within { visit.pass.turn.fixed.told ≡ true → next ≤ number_behind_last visit.pass.seen }
    ensures back { ComesBack visit result.0 }
    ensures does { CollectsAll visit.door.name (visited visit) (visited result.0) next result.1 }
{
    let (door, pass) = visit.into_parts();
    let (pass, answer) = collect_slices(rt, alloc, &door, pass, next);
    (Visit::new(door, pass), answer)
}

fn collect_slices<R: Wait, K: Keeper>(
    rt: &R,
    alloc: Global,
    door: &Door<K>,
    pass: Pass<K>,
    next: u64,
) -> (Pass<K>, Result<Collected, TalkFault>)
    requires pass { pass.turn ≡ door.now.turn }
    requires first { 0 < next }
    requires within { pass.turn.fixed.told ≡ true → next ≤ number_behind_last pass.seen }
    ensures turn { result.0.turn ≡ door.now.turn }
    ensures few { length result.0.seen ≤ largest }
    ensures does { CollectsAll door.now.name (knowing door.now.name pass) (knowing door.now.name result.0) next result.1 }
{
    let steps = door.hint();
    let mut pass = pass;
    let mut events = Feed::new(alloc);
    let mut next = next;
    'slices: for _ in rt.forever() {
        let (back, answer) = collect_next(rt, alloc, door, pass, next, &mut events);
        pass = back;
        match answer {
            Ok(slice) => {
                next = slice.next;
                if slice.is_last {
                    return (
                        pass,
                        Ok(Collected {
                            events,
                            next,
                            steps,
                        }),
                    );
                }
            }
            Err(fault) => return (pass, Err(fault)),
        }
    }
    unreachable!()
}

// The next slice, as an event behind the others.
fn collect_next<R: Wait, K: Keeper>(
    rt: &R,
    alloc: Global,
    door: &Door<K>,
    pass: Pass<K>,
    next: u64,
    events: &mut Feed,
) -> (Pass<K>, Result<Slice, TalkFault>)
    requires pass { pass.turn ≡ door.now.turn }
    requires first { 0 < next }
    ensures turn { result.0.turn ≡ door.now.turn }
    ensures few { length result.0.seen ≤ largest }
    ensures does { TakesNext door.now.name (knowing door.now.name pass) (knowing door.now.name result.0) next events.old events.new result.1 }
{
    let cursor = Cursor { next };
    let (pass, answer) = door.collect(rt, alloc, pass, &cursor, MOST_IN_EVENT);
    let slice = put_event(next, answer, events);
    (pass, slice)
}

// The event of a slice, behind the others.
fn put_event(
    next: u64,
    answer: Result<Option<EventText>, DeltaFault>,
    events: &mut Feed,
) -> Result<Slice, TalkFault>
    requires fits { IfOk answer (λ v. next + length (gathered v) < 2 ^ 64) }
    ensures { (name : List ℕ) → IfOk answer (IsEventUnder name) → PutsAnswer gathered name next events.old events.new answer result }
{
    let Some(event) = answer? else {
        return Ok(Slice {
            next,
            is_last: true,
        });
    };
    let count = event.count();
    events.push(event)?;
    Ok(Slice {
        next: next + count,
        is_last: count < MOST_IN_EVENT,
    })
}
