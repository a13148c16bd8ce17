//! Entering one raw entry: its record into the log, its verdict into what is kept in memory.
ghost use Rattle.std.specs.Option.{option_or};
ghost use Rattle.std.specs.Prelude.{◌≡◌, ◌<◌, ◌≤◌, List, length, is_some, Some, true, IfOk, IfErr, OnOk, OnErr};
ghost use Rattle.fluid_io.specs.Causes.{Tells};
ghost use Rattle.fluid_types.specs.Fits.{Fits};
ghost use Rattle.fluid_types.specs.Printed.{raw_printed};
ghost use Rattle.fluid_types.specs.declared.entries.Raw.{Raw as ARaw};
ghost use Rattle.fluid_types.specs.declared.messages.Message.{Message as AMessage};
ghost use Rattle.fluid_log.specs.declared.keeper.TheConstants.{LONGEST_KEPT};
ghost use Rattle.fluid_core.specs.Entering.{verdict_in};
ghost use Rattle.fluid_deltas.specs.Pushed.{pushed, StandIn, StandFor};
ghost use Rattle.fluid_deltas.specs.declared.pages.TheConstants.{RESIDENT};
ghost use Rattle.fluid_types.specs.Forms.{largest};
ghost use Rattle.fluid_document.specs.Entries.{IsReadyIn, IsReady, left_over};
ghost use Rattle.fluid_document.specs.Puts.{PutsFirst, PutsEarly, PutsFew};
ghost use Rattle.fluid_document.specs.Rooms.{for_room};
ghost use Rattle.fluid_document.specs.Entry.{IsEnterFault, RoomDoes, Appends, FinishDoes, EntersBy};

use crate::document::{Document, Prepared};
use crate::fault::{EnterFault, FlushFault};
use crate::loading::note_of;
use fluid_codec::print_raw;
use fluid_json::Text;
use fluid_log::{Keeper, KeeperFault};
use fluid_types::{Raw, Verdict};
use std::alloc::Global;

/// Enters a raw entry, and gives its verdict. All growths come before the append, and behind an append that failed nothing is
/// entered.
pub fn enter<K: Keeper>(
    alloc: Global,
    keeper: &mut K,
    document: &mut Document,
    raw: &Raw,
) -> Result<Verdict, EnterFault>
    requires fits { Fits raw.now }
    requires few { document.old.entries.entered < largest }
    requires reached { document.old.messages.before ≤ (K.seen keeper.old).deltas }
    ensures enters { EntersBy raw.now (K.seen keeper.old) (K.seen keeper.new) document.old document.new result }
    ensures said { IfOk result (λ verdict. verdict ≡ verdict_in document.old.entries.state raw.now) }
{
    let (record, prepared) = prepared(alloc, keeper, document, raw)?;
    let copy = prepared.copied(alloc)?;
    let left = finish(alloc, keeper, document, record.as_str(), prepared)?;
    Ok(either(copy, left))
}

/// The same for who doesn't want the verdict: its message isn't copied for the caller.
pub fn take_in<K: Keeper>(
    alloc: Global,
    keeper: &mut K,
    document: &mut Document,
    raw: &Raw,
) -> Result<(), EnterFault>
    requires fits { Fits raw.now }
    requires few { document.old.entries.entered < largest }
    requires reached { document.old.messages.before ≤ (K.seen keeper.old).deltas }
    ensures { EntersBy raw.now (K.seen keeper.old) (K.seen keeper.new) document.old document.new result }
{
    let (record, prepared) = prepared(alloc, keeper, document, raw)?;
    finish(alloc, keeper, document, record.as_str(), prepared)?;
    Ok(())
}

// The record of a raw entry, and the entry prepared, with room for its message.
fn prepared<K: Keeper>(
    alloc: Global,
    keeper: &mut K,
    document: &mut Document,
    raw: &Raw,
) -> Result<(Text, Prepared), EnterFault>
    requires fits { Fits raw.now }
    requires few { document.old.entries.entered < largest }
    requires reached { document.old.messages.before ≤ (K.seen keeper.old).deltas }
    ensures later { (K.seen keeper.old).faults ≤ (K.seen keeper.new).faults }
    ensures reads { (K.seen keeper.new).reads ≡ (K.seen keeper.old).reads }
    ensures cause { IfErr result (IsEnterFault (K.seen keeper.old).faults (K.seen keeper.new).faults) }
    ensures entries { document.new.entries ≡ document.old.entries }
    ensures room { RoomDoes (for_room document.old.messages (K.seen keeper.old).deltas) (K.seen keeper.old) (K.seen keeper.new) result }
    ensures reached { document.new.messages.before ≤ (K.seen keeper.new).deltas }
    ensures stands { (order : List AMessage) → Tells (K.seen keeper.old).content (StandFor document.old.messages order) →
        Tells (K.seen keeper.new).content (StandFor document.new.messages order) }
    ensures early { OnOk result (PutsEarly document.old.messages.before document.new.messages.before (K.seen keeper.old) (K.seen keeper.new)) }
    ensures lacked { PutsFew document.old.entries.entered (K.seen keeper.old) (K.seen keeper.new) }
    ensures record { IfOk result (λ entry. entry.0 ≡ raw_printed raw.now) }
    ensures ready { IfOk result (λ entry. IsReadyIn document.new raw.now entry.1) }
{
    make_room(alloc, keeper, document)?;
    let record = print_raw(alloc, raw)?;
    let prepared = document.prepare(alloc, raw)?;
    Ok((record, prepared))
}

// Makes room for one more message.
pub(crate) fn make_room<K: Keeper>(
    alloc: Global,
    keeper: &mut K,
    document: &mut Document,
) -> Result<(), EnterFault>
    requires { document.old.messages.before ≤ (K.seen keeper.old).deltas }
    ensures later { (K.seen keeper.old).faults ≤ (K.seen keeper.new).faults }
    ensures reads { (K.seen keeper.new).reads ≡ (K.seen keeper.old).reads }
    ensures cause { IfErr result (IsEnterFault (K.seen keeper.old).faults (K.seen keeper.new).faults) }
    ensures entries { document.new.entries ≡ document.old.entries }
    ensures free { OnOk result (length document.new.messages.held < RESIDENT) }
    ensures room { RoomDoes (for_room document.old.messages (K.seen keeper.old).deltas) (K.seen keeper.old) (K.seen keeper.new) result }
    ensures reached { document.new.messages.before ≤ (K.seen keeper.new).deltas }
    ensures stands { (order : List AMessage) → Tells (K.seen keeper.old).content (StandFor document.old.messages order) →
        Tells (K.seen keeper.new).content (StandFor document.new.messages order) }
    ensures part { (order : List AMessage) → Tells (K.seen keeper.old).content (StandIn document.old.messages order) →
        Tells (K.seen keeper.new).content (StandIn document.new.messages order) }
    ensures pushed { pushed document.new.messages ≡ pushed document.old.messages }
    ensures first { OnOk result (PutsFirst document.new.messages.before (K.seen keeper.old) (K.seen keeper.new)) }
    ensures few { PutsFew document.old.entries.entered (K.seen keeper.old) (K.seen keeper.new) }
    ensures onwards { document.old.messages.before ≤ document.new.messages.before }
    ensures needed { OnErr result (RESIDENT ≤ document.old.entries.entered) }
{
    match document.make_room(alloc, keeper) {
        Ok(()) => Ok(()),
        Err(FlushFault::DeltaFailed(note)) => Err(EnterFault::DeltaFailed(note)),
        Err(FlushFault::NoMemory) => Err(EnterFault::NoMemory),
    }
}

// Adds the record of an entry that is prepared to the log, and enters it. Its verdict comes back where it isn't kept.
fn finish<K: Keeper>(
    alloc: Global,
    keeper: &mut K,
    document: &mut Document,
    text: &str,
    prepared: Prepared,
) -> Result<Option<Verdict>, EnterFault>
    requires short { length text.now ≤ LONGEST_KEPT }
    requires ready { IsReady document.old prepared }
    ensures later { (K.seen keeper.old).faults ≤ (K.seen keeper.new).faults }
    ensures reads { (K.seen keeper.new).reads ≡ (K.seen keeper.old).reads }
    ensures cause { IfErr result (IsEnterFault (K.seen keeper.old).faults (K.seen keeper.new).faults) }
    ensures log { Appends text.now (K.seen keeper.old) (K.seen keeper.new) result }
    ensures does { (raw : ARaw) → IsReadyIn document.old raw prepared → FinishDoes raw document.old document.new result }
    ensures left { IfOk result (λ left. left ≡ left_over prepared.ready.ticket.verdict) }
{
    match append(alloc, keeper, text) {
        Ok(()) => Ok(document.commit(prepared)),
        Err(fault) => {
            let_go(prepared);
            Err(fault)
        }
    }
}

// Adds the text at the end of the log.
fn append<K: Keeper>(alloc: Global, keeper: &mut K, text: &str) -> Result<(), EnterFault>
    requires { length text.now ≤ LONGEST_KEPT }
    ensures later { (K.seen keeper.old).faults ≤ (K.seen keeper.new).faults }
    ensures reads { (K.seen keeper.new).reads ≡ (K.seen keeper.old).reads }
    ensures cause { IfErr result (IsEnterFault (K.seen keeper.old).faults (K.seen keeper.new).faults) }
    ensures does { Appends text.now (K.seen keeper.old) (K.seen keeper.new) result }
{
    let before = keeper.faults();
    match keeper.append(alloc, text.as_bytes()) {
        Ok(()) => Ok(()),
        Err(KeeperFault::Failed) => Err(EnterFault::LogFailed(note_of(before, keeper))),
        Err(KeeperFault::NoMemory) => Err(EnterFault::NoMemory),
    }
}

// The one of two verdicts that there is.
fn either(one: Option<Verdict>, other: Option<Verdict>) -> Verdict
    requires { is_some (option_or one other) ≡ true }
    ensures { option_or one other ≡ Some result }
{
    match one.or(other) {
        Some(verdict) => verdict,
        None => unreachable!(),
    }
}

// An entry that isn't entered after all.
fn let_go(_prepared: Prepared) {}
