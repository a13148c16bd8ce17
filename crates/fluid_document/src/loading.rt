//! How the entries of a document come back from a keeper.
ghost use Rattle.std.specs.Prelude.{◌≡◌, ℕ, ◌+◌, ◌-◌, ◌<◌, ◌≤◌, ◌⊎◌, nat_le, length, Some, None, Ok, Err, IfSome, IfOk, IfErr, codes, drop, false};
ghost use Rattle.fluid_io.specs.Causes.{Tells};
ghost use Rattle.fluid_json.specs.Unless.{IsUnless};
ghost use Rattle.fluid_types.specs.Fits.{Fits, longest_record};
ghost use Rattle.fluid_types.specs.Printed.{raw_printed};
ghost use Rattle.fluid_types.specs.Records.{raw_spelled};
ghost use Rattle.fluid_log.specs.Calls.{KeepsSame, reads_after};
ghost use Rattle.fluid_deltas.specs.Ranges.{IsNoted};
ghost use Rattle.fluid_types.specs.Ledger.{Ledger, messages_of};
ghost use Rattle.fluid_core.specs.Entering.{verdict_in};
ghost use Rattle.fluid_types.specs.Forms.{largest};
ghost use Rattle.fluid_document.specs.Entries.{nothing_entered, taken_up};
ghost use Rattle.fluid_document.specs.Loading.{record_in, fitting, log_folded, entered_in, begun_from, begun, loaded, SaysAs, IsLoadFault, IsLoaded, HasRead, ReadsBehind, PutsDeltas, DecodesAs};
ghost use Rattle.fluid_document.specs.Kept.{IsKept};
ghost use Rattle.fluid_document.specs.Puts.{PutsFirst, PutsEarly, PutsFew};
ghost use Rattle.fluid_document.specs.Taking.{TakesNext, StandOn, StandsAt, ReadsKept, IsOutside, IsResumed, IsInRange, unread};
ghost use Rattle.fluid_deltas.specs.Pushed.{pushed};

use crate::document::Document;
use crate::entry::make_room;
use crate::fault::{EnterFault, LoadFault};
use fluid_checkpoint::{CheckpointFault, Form, State};
use fluid_codec::{print_raw, read_raw};
use fluid_io::FaultNote;
use fluid_json::{LARGEST, NoMemory, Text};
use fluid_log::{Keeper, KeeperFault};
use fluid_readback::blobs_of_messages_are_read_back;
use fluid_types::{CodecFault, Raw};
use std::alloc::Global;
use std::str;

/// The most bytes of a record in a log, 4 MiB.
const LONGEST_RECORD: usize = 4_194_304;

/// The raw entry of a text of at most so many bytes, 1 MiB, always fits a log.
const SHORT_TEXT: usize = 1_048_576;

/// The note of a keeper that failed, whose count of faults was read before the call.
pub fn note_of<K: Keeper>(before: u64, keeper: &K) -> FaultNote
    ensures { result ≡ record { before = before; after = (K.seen keeper.now).faults } }
{
    FaultNote {
        before,
        after: keeper.faults(),
    }
}

// ---- records

// The raw entry of a record; none where it doesn't decode.
#[tactic(auto, unfolding(crate::specs::Loading::record_in))]
fn decoded(alloc: Global, bytes: &[u8]) -> Result<Option<Raw>, NoMemory>
    ensures { IfOk result (λ raw. raw ≡ record_in bytes.now) }
{
    match str::from_utf8(bytes) {
        Ok(text) => spelled(alloc, text),
        Err(_) => Ok(None),
    }
}

// The raw entry that a text spells, where it fits a log. It is printed only where the text is so long that it may not fit.
fn spelled(alloc: Global, text: &str) -> Result<Option<Raw>, NoMemory>
    ensures { IfOk result (λ raw. raw ≡ fitting (raw_spelled text.now)) }
{
    match read_raw(alloc, text) {
        Ok(raw) if text.len() <= SHORT_TEXT => Ok(Some(raw)),
        Ok(raw) => fitting(alloc, raw),
        Err(CodecFault::NoMemory) => Err(NoMemory),
        Err(_) => Ok(None),
    }
}

// The raw entry, where its record isn't too long.
fn fitting(alloc: Global, raw: Raw) -> Result<Option<Raw>, NoMemory>
    ensures { IfOk result (λ fit. fit ≡ fitting (Ok raw)) }
{
    let printed = print_raw(alloc, &raw)?;
    let length = printed.as_str().len();
    if length <= LONGEST_RECORD {
        Ok(Some(raw))
    } else {
        Ok(None)
    }
}

// The raw entry of the record in this place.
fn read_record<K: Keeper>(alloc: Global, keeper: &mut K, place: u64) -> Result<Raw, LoadFault>
    requires { place < (K.seen keeper.old).records }
    ensures later { (K.seen keeper.old).faults ≤ (K.seen keeper.new).faults }
    ensures cause { IfErr result (IsLoadFault (K.seen keeper.old).records (K.seen keeper.old).faults (K.seen keeper.new).faults) }
    ensures same { KeepsSame (K.seen keeper.old) (K.seen keeper.new) }
    ensures reads { IfOk result (λ _. HasRead 1 (K.seen keeper.old).reads (K.seen keeper.new).reads) }
    ensures fits { IfOk result Fits }
    ensures decodes { Tells (K.seen keeper.old).content (λ content. DecodesAs content place result) }
{
    let before = keeper.faults();
    match keeper.read(alloc, place) {
        Ok(bytes) => match decoded(alloc, bytes.as_slice()) {
            Ok(Some(raw)) => Ok(raw),
            Ok(None) => Err(LoadFault::BadRecord(place)),
            Err(NoMemory) => Err(LoadFault::NoMemory),
        },
        Err(KeeperFault::Failed) => Err(LoadFault::LogFailed(note_of(before, keeper))),
        Err(KeeperFault::NoMemory) => Err(LoadFault::NoMemory),
    }
}

// ---- the log

// Takes one more entry up.
fn take_up<K: Keeper>(
    alloc: Global,
    keeper: &mut K,
    document: &mut Document,
    raw: &Raw,
) -> Result<(), LoadFault>
    requires fits { Fits raw.now }
    requires few { document.old.entries.entered < largest }
    requires there { document.old.entries.entered < (K.seen keeper.old).records }
    requires reached { document.old.messages.before ≤ (K.seen keeper.old).deltas }
    ensures later { (K.seen keeper.old).faults ≤ (K.seen keeper.new).faults }
    ensures cause { IfErr result (IsLoadFault (K.seen keeper.old).records (K.seen keeper.old).faults (K.seen keeper.new).faults) }
    ensures reads { (K.seen keeper.new).reads ≡ (K.seen keeper.old).reads }
    ensures puts { PutsDeltas (K.seen keeper.old) (K.seen keeper.new) }
    ensures reached { document.new.messages.before ≤ (K.seen keeper.new).deltas }
    ensures entries { IfOk result (λ _. document.new.entries ≡ taken_up document.old.entries raw.now) }
    ensures count { IfOk result (λ _. pushed document.new.messages ≡ pushed document.old.messages + length (messages_of (verdict_in document.old.entries.state raw.now))) }
    ensures stands { StandOn (K.seen keeper.old) (K.seen keeper.new) document.old document.new raw.now result }
    ensures outside { IfErr result IsOutside }
    ensures early { IfOk result (λ _. PutsEarly document.old.messages.before document.new.messages.before (K.seen keeper.old) (K.seen keeper.new)) }
    ensures lacked { PutsFew document.old.entries.entered (K.seen keeper.old) (K.seen keeper.new) }
{
    match make_room(alloc, keeper, document) {
        Ok(()) => {}
        Err(fault) => return Err(unread(fault)),
    }
    let prepared = document.prepare(alloc, raw)?;
    // (by `drop`, so that no proof here goes by what is let go)
    drop(document.commit(prepared));
    Ok(())
}

// The fault of making room, as one of reading.
fn unread(fault: EnterFault) -> LoadFault
    ensures { result ≡ unread fault }
{
    match fault {
        EnterFault::LogFailed(note) => LoadFault::LogFailed(note),
        EnterFault::DeltaFailed(note) => LoadFault::DeltaFailed(note),
        EnterFault::NoMemory => LoadFault::NoMemory,
    }
}

// Takes up the record in this place.
fn take_next<K: Keeper>(
    alloc: Global,
    keeper: &mut K,
    document: &mut Document,
    place: u64,
) -> Result<(), LoadFault>
    requires there { place < (K.seen keeper.old).records }
    requires at { document.old.entries.entered ≡ place }
    requires few { document.old.entries.entered < largest }
    requires reached { document.old.messages.before ≤ (K.seen keeper.old).deltas }
    ensures later { (K.seen keeper.old).faults ≤ (K.seen keeper.new).faults }
    ensures cause { IfErr result (IsLoadFault (K.seen keeper.old).records (K.seen keeper.old).faults (K.seen keeper.new).faults) }
    ensures reads { IfOk result (λ _. HasRead 1 (K.seen keeper.old).reads (K.seen keeper.new).reads) }
    ensures puts { PutsDeltas (K.seen keeper.old) (K.seen keeper.new) }
    ensures reached { document.new.messages.before ≤ (K.seen keeper.new).deltas }
    ensures takes { TakesNext place (K.seen keeper.old) (K.seen keeper.new) document.old document.new result }
    ensures early { IfOk result (λ _. PutsEarly document.old.messages.before document.new.messages.before (K.seen keeper.old) (K.seen keeper.new)) }
    ensures lacked { PutsFew place (K.seen keeper.old) (K.seen keeper.new) }
{
    let raw = read_record(alloc, keeper, place)?;
    take_up(alloc, keeper, document, &raw)?;
    Ok(())
}

// Takes up the records of the log behind those that are taken up already.
fn fold_behind<K: Keeper>(
    alloc: Global,
    keeper: &mut K,
    document: &mut Document,
) -> Result<(), LoadFault>
    requires within { document.old.entries.entered ≤ (K.seen keeper.old).records }
    requires reached { document.old.messages.before ≤ (K.seen keeper.old).deltas }
    ensures later { (K.seen keeper.old).faults ≤ (K.seen keeper.new).faults }
    ensures cause { IfErr result (IsLoadFault (K.seen keeper.old).records (K.seen keeper.old).faults (K.seen keeper.new).faults) }
    ensures puts { PutsDeltas (K.seen keeper.old) (K.seen keeper.new) }
    ensures reached { document.new.messages.before ≤ (K.seen keeper.new).deltas }
    ensures early { IfOk result (λ _. PutsFirst document.new.messages.before (K.seen keeper.old) (K.seen keeper.new)) }
    ensures lacked { PutsFew (K.seen keeper.old).records (K.seen keeper.old) (K.seen keeper.new) }
    ensures whole { IfOk result (λ _. document.new.entries.entered ≡ (K.seen keeper.old).records) }
    ensures reads { IfOk result (λ _. HasRead ((K.seen keeper.old).records - document.old.entries.entered) (K.seen keeper.old).reads (K.seen keeper.new).reads) }
    ensures loaded { Tells (K.seen keeper.old).content (λ content.
        IsLoaded (λ _. document.new.entries) result (log_folded document.old.entries (drop document.old.entries.entered content.log))) }
    ensures kept { (l : Ledger) → Tells (K.seen keeper.old).content (StandsAt l document.old document.old.entries.entered) →
        Tells (K.seen keeper.new).content (ReadsKept (λ _. document.new) l result) }
{
    let end = keeper.len();
    for place in document.entered()..end {
        if place >= LARGEST {
            return Err(LoadFault::Worn);
        }
        take_next(alloc, keeper, document, place)?;
    }
    Ok(())
}

// ---- checkpoints

// What the checkpoint of this number says.
fn read_checkpoint<K: Keeper>(alloc: Global, keeper: &mut K, number: u64) -> Result<Form, LoadFault>
    requires { number < (K.seen keeper.old).checkpoints }
    ensures later { (K.seen keeper.old).faults ≤ (K.seen keeper.new).faults }
    ensures cause { IfErr result (IsLoadFault (K.seen keeper.old).records (K.seen keeper.old).faults (K.seen keeper.new).faults) }
    ensures same { KeepsSame (K.seen keeper.old) (K.seen keeper.new) }
    ensures reads { (K.seen keeper.new).reads ≡ (K.seen keeper.old).reads }
    ensures said { Tells (K.seen keeper.old).content (λ content. SaysAs content number result) }
    ensures in_range { IfOk result IsInRange }
{
    let before = keeper.faults();
    match keeper.checkpoint(alloc, number) {
        Ok(bytes) => match fluid_checkpoint::read(alloc, bytes.as_slice()) {
            Ok(form) => Ok(form),
            Err(CheckpointFault::NoMemory) => Err(LoadFault::NoMemory),
            Err(fault) => Err(LoadFault::BadCheckpoint(number, fault)),
        },
        Err(KeeperFault::Failed) => Err(LoadFault::LogFailed(note_of(before, keeper))),
        Err(KeeperFault::NoMemory) => Err(LoadFault::NoMemory),
    }
}

// Where a reading from this checkpoint begins.
fn begin_at<K: Keeper>(alloc: Global, keeper: &mut K, number: u64) -> Result<Document, LoadFault>
    requires { number < (K.seen keeper.old).checkpoints }
    ensures later { (K.seen keeper.old).faults ≤ (K.seen keeper.new).faults }
    ensures cause { IfErr result (IsLoadFault (K.seen keeper.old).records (K.seen keeper.old).faults (K.seen keeper.new).faults) }
    ensures same { KeepsSame (K.seen keeper.old) (K.seen keeper.new) }
    ensures reads { (K.seen keeper.new).reads ≡ (K.seen keeper.old).reads }
    ensures within { IfOk result (λ d. d.entries.entered ≤ (K.seen keeper.old).records) }
    ensures reached { IfOk result (λ d. d.messages.before ≤ (K.seen keeper.old).deltas) }
    ensures begun { Tells (K.seen keeper.old).content (λ content. IsLoaded (λ d. d.entries) result (begun content (Some number))) }
    ensures kept { (l : Ledger) → Tells (K.seen keeper.old).content (IsKept false l) →
        IfOk result (λ d. Tells (K.seen keeper.old).content (StandsAt l d d.entries.entered)) }
{
    let form = read_checkpoint(alloc, keeper, number)?;
    let (records, deltas) = (keeper.len(), keeper.deltas());
    if entered_in(&form) > records {
        return Err(bad_field(alloc, number, "entered"));
    }
    blobs_of_messages_are_read_back();
    match form {
        Form::Two(state) => begin_with(alloc, state, deltas, number),
        Form::One(_) => Ok(Document::new(alloc)),
    }
}

// Where a reading from this state begins, over so many deltas.
fn begin_with(alloc: Global, state: State, deltas: u64, number: u64) -> Result<Document, LoadFault>
    requires { IsInRange (Form.Two state) }
    ensures refused { IfErr result (λ fault. (fault ≡ LoadFault.NoMemory) ⊎ (fault ≡ LoadFault.BadCheckpoint number (CheckpointFault.BadField (codes "sequence")))) }
    ensures begun { IsLoaded (λ d. d.entries) result (begun_from number deltas state) }
    ensures resumed { IfOk result (IsResumed state) }
    ensures reached { IfOk result (λ d. d.messages.before ≤ deltas) }
{
    if state.sequencer.sequence > state.entered.min(deltas) {
        return Err(bad_field(alloc, number, "sequence"));
    }
    Ok(Document::resumed(alloc, state))
}

// How many entries a checkpoint is of.
fn entered_in(form: &Form) -> u64
    ensures { result ≡ entered_in form.now }
{
    match form {
        Form::Two(state) => state.entered,
        Form::One(entered) => *entered,
    }
}

/// The fault of a checkpoint whose member of this name is refused; want of memory where there is none for the name.
pub fn bad_field(alloc: Global, number: u64, name: &str) -> LoadFault
    ensures { (result ≡ LoadFault.NoMemory) ⊎ (result ≡ LoadFault.BadCheckpoint number (CheckpointFault.BadField name.now)) }
{
    match Text::copied(alloc, name) {
        Ok(name) => LoadFault::BadCheckpoint(number, CheckpointFault::BadField(name)),
        Err(_) => LoadFault::NoMemory,
    }
}

/// Reads the entries of a document: from the checkpoint of this number on, or from the first record where none is named.
/// Where messages are more than are held in memory, the oldest are put among the deltas, as far as these lack them.
pub fn load<K: Keeper>(
    alloc: Global,
    keeper: &mut K,
    from: Option<u64>,
) -> Result<Document, LoadFault>
    requires { IfSome from (λ number. number < (K.seen keeper.old).checkpoints) }
    ensures later { (K.seen keeper.old).faults ≤ (K.seen keeper.new).faults }
    ensures cause { IfErr result (IsLoadFault (K.seen keeper.old).records (K.seen keeper.old).faults (K.seen keeper.new).faults) }
    ensures puts { PutsDeltas (K.seen keeper.old) (K.seen keeper.new) }
    ensures early { IfOk result (λ d. PutsFirst d.messages.before (K.seen keeper.old) (K.seen keeper.new)) }
    ensures lacked { PutsFew (K.seen keeper.old).records (K.seen keeper.old) (K.seen keeper.new) }
    ensures level { IfOk result (λ d. (d.entries.entered ≡ (K.seen keeper.old).records) × (d.messages.before ≤ (K.seen keeper.new).deltas)) }
    ensures reads { IfOk result (λ _. Tells (K.seen keeper.old).content (ReadsBehind from (K.seen keeper.old).records (K.seen keeper.old).reads (K.seen keeper.new).reads)) }
    ensures loaded { Tells (K.seen keeper.old).content (λ content. IsLoaded (λ d. d.entries) result (loaded content from)) }
    ensures kept { (l : Ledger) → Tells (K.seen keeper.old).content (IsKept false l) → Tells (K.seen keeper.new).content (ReadsKept (λ d. d) l result) }
{
    let mut document = begin(alloc, keeper, from)?;
    fold_behind(alloc, keeper, &mut document)?;
    Ok(document)
}

fn begin<K: Keeper>(alloc: Global, keeper: &mut K, from: Option<u64>) -> Result<Document, LoadFault>
    requires { IfSome from (λ number. number < (K.seen keeper.old).checkpoints) }
    ensures later { (K.seen keeper.old).faults ≤ (K.seen keeper.new).faults }
    ensures cause { IfErr result (IsLoadFault (K.seen keeper.old).records (K.seen keeper.old).faults (K.seen keeper.new).faults) }
    ensures same { KeepsSame (K.seen keeper.old) (K.seen keeper.new) }
    ensures reads { (K.seen keeper.new).reads ≡ (K.seen keeper.old).reads }
    ensures within { IfOk result (λ d. d.entries.entered ≤ (K.seen keeper.old).records) }
    ensures reached { IfOk result (λ d. d.messages.before ≤ (K.seen keeper.old).deltas) }
    ensures begun { Tells (K.seen keeper.old).content (λ content. IsLoaded (λ d. d.entries) result (begun content from)) }
    ensures kept { (l : Ledger) → Tells (K.seen keeper.old).content (IsKept false l) →
        IfOk result (λ d. Tells (K.seen keeper.old).content (StandsAt l d d.entries.entered)) }
{
    match from {
        Some(number) => begin_at(alloc, keeper, number),
        None => Ok(Document::new(alloc)),
    }
}
