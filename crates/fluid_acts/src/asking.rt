// The acts that enter nothing.
ghost use Rattle.std.specs.Prelude.{◌≡◌, ◌≤◌, ◌<◌, ◌+◌, ℤ, Ok};
ghost use Rattle.fluid_voice.specs.declared.actions.Act.TheVariants as act;
ghost use Rattle.fluid_voice.specs.Ends.{range_asked};
ghost use Rattle.fluid_acts.specs.Parts.{DoesOnLane, DoesOnStore};

use fluid_codec::{Asked, Reply};
use fluid_ends::TalkFault;
use fluid_io::FaultNote;
use fluid_lane::{Lane, lanes_say_their_ledgers};
use fluid_log::Keeper;
use fluid_store::{ObjectFault, Objects, StoreFault, store_object};
use fluid_tree::Id;
use fluid_types::Messages;
use fluid_voice::{ActEnd, out_of_range, range_asked, summary_asked};
use std::alloc::Global;

/// Gives the messages that are asked for, or says that they are out of range.
pub(crate) fn messages_asked<K: Keeper>(
    alloc: Global,
    lane: &mut Lane<K>,
    from: i64,
    to: i64,
) -> Result<ActEnd, TalkFault>
    ensures { DoesOnLane (act.Deltas from to) lane.old lane.new result }
{
    // (a law, and no work: its clause is for the proof)
    lanes_say_their_ledgers();
    match range_asked(lane.seq(), from, to) {
        Ok((first, end)) => messages(alloc, lane, first, end),
        Err(field) => Ok(ActEnd::Given(out_of_range(field))),
    }
}

fn messages<K: Keeper>(
    alloc: Global,
    lane: &mut Lane<K>,
    first: u64,
    end: u64,
) -> Result<ActEnd, TalkFault>
    requires first { 0 < first }
    requires ordered { first ≤ end }
    requires last { end ≤ lane.old.entries.state.sequencer.sequence + 1 }
    ensures { (from to : ℤ) → range_asked lane.old.entries.state.sequencer.sequence from to ≡ Ok (first, end) → DoesOnLane (act.Deltas from to) lane.old lane.new result }
{
    lanes_say_their_ledgers();
    match lane.range(alloc, first, end) {
        Ok(messages) => Ok(ActEnd::Given(Reply::Deltas {
            from: first,
            messages: Messages::new(messages),
        })),
        Err(fault) => Err(TalkFault::from(fault)),
    }
}

/// The acknowledged summary that is asked for.
pub(crate) fn summary<K: Keeper>(lane: &Lane<K>, asked: &Asked) -> ActEnd
    ensures { DoesOnLane (act.Summary asked.now) lane.now lane.now (Ok result) }
{
    lanes_say_their_ledgers();
    ActEnd::Given(Reply::Summary(summary_asked(lane.acks(), asked)))
}

/// Gives the bytes that are held under the id; none where nothing is.
pub fn get_object<O: Objects>(alloc: Global, objects: &mut O, id: &Id) -> Result<ActEnd, TalkFault>
    ensures { DoesOnStore (act.GetObject id.now) (O.seen objects.old) (O.seen objects.new) result }
{
    let before = objects.faults();
    match objects.get(alloc, id) {
        Ok(bytes) => Ok(ActEnd::Given(Reply::Object {
            id: bytes_of(id),
            bytes,
        })),
        Err(ObjectFault::Failed) => {
            let after = objects.faults();
            let note = FaultNote { before, after };
            Err(TalkFault::Store(StoreFault::StoreFailed(note)))
        }
        Err(ObjectFault::NoMemory) => Err(TalkFault::NoMemory),
    }
}

/// Puts the object with these bytes under its id, where nothing else is held under it.
pub fn put_object<O: Objects>(
    alloc: Global,
    objects: &mut O,
    bytes: &[u8],
) -> Result<ActEnd, TalkFault>
    ensures { DoesOnStore (act.PutObject bytes.now) (O.seen objects.old) (O.seen objects.new) result }
{
    match store_object(alloc, objects, bytes) {
        Ok(id) => Ok(ActEnd::Given(Reply::Stored(bytes_of(&id)))),
        Err(fault) => Err(TalkFault::from(fault)),
    }
}

fn bytes_of(id: &Id) -> [u8; 20]
    ensures { result ≡ id.now }
{
    let mut bytes = [0u8; 20];
    bytes.copy_from_slice(id.as_bytes());
    bytes
}
