//! The lane of one document.
ghost use Rattle.std.specs.Prelude.{◌≡◌, ℕ, ◌+◌, ◌-◌, ◌<◌, ◌≤◌, ◌++◌, ◌∷◌, [], ◌⊎◌, nat_le, true, false, length, ◌↔◌, Ok, Err, Some, None, List, IsTrue, IsSome, IfSome, IfOk, IfErr, OnOk, OnErr, MatchResult, option_copied};
ghost use Rattle.std.specs.FinMap.{get, keys};
ghost use Rattle.fluid_io.specs.Causes.{Tells};
ghost use Rattle.fluid_types.specs.Fits.{Fits};
ghost use Rattle.fluid_types.specs.Ledger.{order};
ghost use Rattle.fluid_types.specs.Names.{entry_name, IsName};
ghost use Rattle.fluid_types.specs.declared.messages.Message.{Message as AMessage};
ghost use Rattle.fluid_rules.specs.Past.{is_sequenced};
ghost use Rattle.fluid_ticket.specs.State.{minimum};
ghost use Rattle.fluid_log.specs.Keeping.{IsSized};
ghost use Rattle.fluid_log.specs.Calls.{KeepsSame, with_checkpoint};
ghost use Rattle.fluid_core.specs.Entering.{verdict_in, job_of, IsUpTo};
ghost use Rattle.fluid_deltas.specs.Pushed.{StandFor, slice};
ghost use Rattle.fluid_deltas.specs.Ranges.{IsAnswer, IsHeldAnswer, IsSlice, AreHeld, Reads, held_between, range_of};
ghost use Rattle.fluid_deltas.specs.Flushes.{PutsAll, AreAll};
ghost use Rattle.fluid_types.specs.Forms.{largest};
ghost use Rattle.fluid_document.specs.Entries.{taken_up};
ghost use Rattle.fluid_document.specs.Kept.{IsKept, IsPrinted};
ghost use Rattle.fluid_document.specs.Loading.{loaded, ReadsBehind, PutsDeltas};
ghost use Rattle.fluid_document.specs.Puts.{PutsFirst, PutsFew};
ghost use Rattle.fluid_lane.specs.declared.steps.Step.{Step as AStep};
ghost use Rattle.fluid_lane.specs.Faults.{IsCausedBy, IsLogFailed, IsOutside, IsReadFault};
ghost use Rattle.fluid_lane.specs.Steps.{ledger, steps_of, range_steps, entered_by, joined_by, stored_by, restarted_by, nothing_by, swept_by};
ghost use Rattle.fluid_lane.specs.Standing.{LaneStands, AreNamed, IsSafe, IsLeftFor, Goes, IsOwn, IsLeaveOrSubmission, is_worn};
ghost use Rattle.fluid_lane.specs.Refusals.{IsGated, IsCutFailed, is_full, is_full_for, has_too_many, has_checkpoints, has_no_checkpoint};
ghost use Rattle.fluid_lane.specs.Calls.{Enters, AddKept, OwesBy, TakesUp, Stores, IsStoreFault, IsFlushFault, IsOutsideLog, FlushKept, IsBeside, HasCheckpoint, missing, cut_back};
ghost use Rattle.fluid_lane.specs.Restarts.{Restarts, Reloads, IsAtDeltas, IsNotBad};
ghost use Rattle.fluid_lane.specs.Ranges.{Ranges};
ghost use Rattle.fluid_lane.specs.Sweeps.{first_silent, SweepsBy};

use crate::LaneFault;
use crate::silent::first_silent;
use crate::start::joined_id;
use crate::steps::Side;
use fluid_clients::Clients;
use fluid_deltas::DeltaFault;
use fluid_document::{
    Document, EnterFault, FlushFault, LoadFault, bad_field, enter, kept_is_loaded, load, note_of,
};
use fluid_io::FaultNote;
use fluid_json::{Json, LARGEST, NoMemory};
use fluid_log::{Keeper, KeeperFault};
use fluid_rules::{Limits, is_counted};
use fluid_scribe::{Job, SummaryRef};
use fluid_types::{ClientId, Message, Raw, Scopes, Verdict};
use std::alloc::Global;
use std::marker::Model;

/// One document's order over what keeps it. It stands for a list of steps: the entries that were entered, and its side steps.
#[derive(Drop)]
pub struct Lane<K: Keeper> {
    keeper: K,
    document: Document,
    limits: Limits,
    opened: u64,
    sides: u64,
    last: Option<Side>,
    owed: bool,
}

impl<K: Keeper> Model for Lane<K> {
    ghost use Rattle.fluid_lane.specs.Standing.{Standing, IsSafe};

    ghost Value = { Standing };

    ghost use Rattle.fluid_lane.specs.Codes.{standing_code};

    ghost coded = { standing_code };

    ghost view = { λ l. record {
      keeping = K.seen l.keeper;
      entries = l.document.entries;
      messages = l.document.messages;
      limits = l.limits;
      opened = l.opened;
      sides = l.sides;
      last = l.last;
      owed = l.owed;
    } };

    ghost invariant = { λ l. IsSafe (record {
      keeping = K.seen l.keeper;
      entries = l.document.entries;
      messages = l.document.messages;
      limits = l.limits;
      opened = l.opened;
      sides = l.sides;
      last = l.last;
      owed = l.owed;
    }) };
}

impl<K: Keeper> Lane<K> {
    /// The last sequence number, 0 before the first message. Takes no memory.
    pub fn seq(&self) -> u64
        ensures is { result ≡ self.now.entries.state.sequencer.sequence }
        ensures few { result ≤ self.now.entries.entered }
        ensures bound { result ≤ largest }
    {
        // (read for its clause alone)
        let _entered = self.document.entered();
        self.document.seq()
    }

    /// The minimum sequence number. Takes no memory.
    pub fn min(&self) -> u64
        ensures { result ≡ minimum self.now.entries.state.sequencer }
    {
        self.document.min()
    }

    /// How many raw entries are entered. Takes no memory.
    pub fn entered(&self) -> u64
        ensures is { result ≡ self.now.entries.entered }
        ensures few { result ≤ largest }
        ensures named { AreNamed self.now.entries.entered self.now.entries.state.sequencer.rows }
        ensures own { get self.now.entries.state.sequencer.rows (entry_name self.now.entries.entered) ≡ None }
    {
        self.document.entered()
    }

    /// How many entries are entered and side steps were taken, together. Takes no memory.
    pub fn number(&self) -> u64
        ensures is { result ≡ self.now.entries.entered + self.now.sides }
        ensures few { result ≤ largest }
    {
        self.document.entered() + self.sides
    }

    /// How many side steps were taken. Takes no memory.
    pub fn sides(&self) -> u64
        ensures is { result ≡ self.now.sides }
        ensures few { result ≤ largest }
    {
        self.sides
    }

    /// The last side step. Takes no memory.
    pub fn last_side(&self) -> Option<Side>
        ensures { result ≡ self.now.last }
    {
        self.last
    }

    /// How many checkpoints were found when the lane was started. Takes no memory.
    pub fn opened(&self) -> u64
        ensures { result ≡ self.now.opened }
    {
        self.opened
    }

    /// How many checkpoints are stored. Takes no memory.
    pub fn checkpoints(&self) -> u64
        ensures is { result ≡ self.now.keeping.checkpoints }
        ensures sized { IsSized self.now.keeping }
    {
        self.keeper.checkpoints()
    }

    /// The limits of the document. Takes no memory.
    pub fn limits(&self) -> Limits
        ensures { result ≡ self.now.limits }
    {
        self.limits
    }

    /// The joined clients. Takes no memory.
    pub fn clients(&self) -> &Clients
        ensures { result.now.rows ≡ self.now.entries.state.sequencer.rows }
    {
        self.document.clients()
    }

    /// The summaries that were acknowledged, oldest first. Takes no memory.
    pub fn acks(&self) -> &[SummaryRef]
        ensures { result.now ≡ self.now.entries.state.scribe.acks }
    {
        self.document.acks()
    }

    /// What is to be done about the pending summarize; None exactly where none is pending.
    pub fn job(&mut self, alloc: Global) -> Result<Option<Job>, NoMemory>
        ensures same { self.new ≡ self.old }
        ensures job { IfOk result (λ given. given ≡ job_of self.old.entries.state) }
        ensures number { IfOk result (λ given. IfSome given (λ job. IsUpTo largest job.summary)) }
        ensures reference { IfOk result (λ given. IfSome given (λ job. job.reference ≤ job.summary)) }
    {
        self.document.job(alloc)
    }

    /// Gives the keeper. Where it tells its content and the lane stands for a list, it is kept for its ledger, but for a cut that
    /// is owed: a lane can be started over it in any case, for that ledger or for it with the entry whose append failed.
    pub fn close(self) -> K
        ensures keeper { K.seen result ≡ self.keeping }
        ensures kept { (l : List AStep) → LaneStands self l → Tells (K.seen result).content (IsKept self.owed (ledger l)) }
        ensures left { (l : List AStep) → LaneStands self l → Tells (K.seen result).content (IsLeftFor self.owed (ledger l)) }
        ensures sized { IsSized self.keeping }
    {
        let Lane { keeper, .. } = self;
        keeper
    }

    /// Enters a leave or a submission, and gives its verdict.
    pub fn submit(&mut self, alloc: Global, raw: &Raw) -> Result<Verdict, LaneFault>
        requires fits { Fits raw.now }
        requires kind { IsLeaveOrSubmission raw.now }
        ensures goes { Goes self.old self.new (steps_of (entered_by raw.now) result) }
        ensures gate { IsGated self.old self.new (is_full_for self.old raw.now ∷ []) IsOutside result }
        ensures enters { Enters raw.now self.old self.new result }
        ensures said { IfOk result (λ verdict. verdict ≡ verdict_in self.old.entries.state raw.now) }
    {
        if self.is_worn() {
            return Err(LaneFault::Worn);
        }
        match self.settle() {
            Ok(()) => {}
            Err(fault) => return Err(fault),
        }
        if self.document.counted() >= self.limits.entries && is_counted(raw) {
            return Err(LaneFault::Full(self.limits.entries));
        }
        self.add(alloc, raw)
    }

    /// Enters a join under the id `c` and the number of the entry, counted from 0 over all raw entries, and gives it with its
    /// message.
    pub fn join(
        &mut self,
        alloc: Global,
        scopes: Scopes,
        detail: Json,
        moment: u64,
    ) -> Result<(Raw, Message), LaneFault>
        requires fits { Fits (Raw.Join (entry_name self.old.entries.entered) scopes detail moment) }
        ensures goes { Goes self.old self.new (steps_of joined_by result) }
        ensures gate { IsGated self.old self.new (is_full self.old ∷ has_too_many self.old ∷ []) IsOutside result }
        ensures enters { Enters (Raw.Join (entry_name self.old.entries.entered) scopes detail moment) self.old self.new result }
        ensures raw { IfOk result (λ r. r.0 ≡ Raw.Join (entry_name self.old.entries.entered) scopes detail moment) }
        ensures said { IfOk result (λ r. Verdict.Sequenced r.1 ≡ verdict_in self.old.entries.state r.0) }
    {
        if self.is_worn() {
            return Err(LaneFault::Worn);
        }
        match self.settle() {
            Ok(()) => {}
            Err(fault) => return Err(fault),
        }
        if self.document.counted() >= self.limits.entries {
            return Err(LaneFault::Full(self.limits.entries));
        }
        if self.document.clients().count() >= u64::from(self.limits.clients) {
            return Err(LaneFault::TooManyClients);
        }
        let id = ClientId::of_entry(alloc, self.document.entered())?;
        let raw = Raw::Join {
            id,
            scopes,
            detail,
            moment,
        };
        match self.add(alloc, &raw) {
            Ok(verdict) => Ok((raw, sequenced(verdict))),
            Err(fault) => Err(fault),
        }
    }

    /// Enters a report on the summarize of this number, and gives its verdict.
    pub fn conclude(
        &mut self,
        alloc: Global,
        summary: u64,
        found: bool,
        moment: u64,
    ) -> Result<Verdict, LaneFault>
        requires fits { Fits (Raw.Report summary found moment) }
        ensures goes { Goes self.old self.new (steps_of (entered_by (Raw.Report summary found moment)) result) }
        ensures gate { IsGated self.old self.new [] IsOutside result }
        ensures enters { Enters (Raw.Report summary found moment) self.old self.new result }
        ensures said { IfOk result (λ verdict. verdict ≡ verdict_in self.old.entries.state (Raw.Report summary found moment)) }
    {
        if self.is_worn() {
            return Err(LaneFault::Worn);
        }
        match self.settle() {
            Ok(()) => {}
            Err(fault) => return Err(fault),
        }
        let raw = Raw::Report {
            summary,
            found,
            moment,
        };
        self.add(alloc, &raw)
    }

    /// Enters a leave for the first client in byte order of ids that was last heard of more than `silence` before this moment, and
    /// gives it with its message; None exactly where there is no such client.
    pub fn sweep(
        &mut self,
        alloc: Global,
        moment: u64,
        silence: u64,
    ) -> Result<Option<(Raw, Message)>, LaneFault>
        requires moment { moment ≤ largest }
        ensures goes { Goes self.old self.new (steps_of swept_by result) }
        ensures sweeps { SweepsBy moment (first_silent moment silence self.old.entries.state.sequencer.rows) self.old self.new result }
    {
        let place = match first_silent(self.document.clients(), moment, silence) {
            Some(place) => place,
            None => return Ok(None),
        };
        if self.is_worn() {
            return Err(LaneFault::Worn);
        }
        match self.settle() {
            Ok(()) => {}
            Err(fault) => return Err(fault),
        }
        let id = joined_id(alloc, &self.document, place)?;
        let raw = Raw::Leave { id, moment };
        match self.add(alloc, &raw) {
            Ok(verdict) => Ok(Some((raw, sequenced(verdict)))),
            Err(fault) => Err(fault),
        }
    }

    /// The messages `from` up to, but without, `to`.
    pub fn range(&mut self, alloc: Global, from: u64, to: u64) -> Result<Vec<Message>, DeltaFault>
        requires first { 0 < from }
        requires ordered { from ≤ to }
        requires last { to ≤ self.old.entries.state.sequencer.sequence + 1 }
        ensures goes { Goes self.old self.new (range_steps result) }
        ensures worn { is_worn self.old ≡ true → (result ≡ Err DeltaFault.Worn) × (self.new ≡ self.old) }
        ensures ranges { is_worn self.old ≡ false → Ranges (λ v. v.items) from to self.old self.new result }
        ensures slice { is_worn self.old ≡ false → (l : List AStep) → LaneStands self.old l →
            Tells self.old.keeping.content (λ _. IsSlice (λ v. v.items) (slice (order (ledger l)) from to) result) }
    {
        if self.is_worn() {
            return Err(DeltaFault::Worn);
        }
        match self.document.range(alloc, from, to, &mut self.keeper) {
            Ok(messages) => Ok(messages),
            Err(DeltaFault::DeltaFailed(note)) => {
                self.failed(note);
                Err(DeltaFault::DeltaFailed(note))
            }
            Err(DeltaFault::BadDelta(number)) => Err(DeltaFault::BadDelta(number)),
            Err(DeltaFault::NoMemory) => Err(DeltaFault::NoMemory),
            Err(DeltaFault::Worn) => unreachable!(),
        }
    }

    /// Flushes the deltas and stores a checkpoint, whose number it gives.
    pub fn checkpoint(&mut self, alloc: Global) -> Result<u64, LaneFault>
        ensures goes { Goes self.old self.new (steps_of stored_by result) }
        ensures gate { IsGated self.old self.new (has_checkpoints self.old ∷ []) (IsStoreFault self.old) result }
        ensures stores { Stores self.old self.new result }
    {
        if self.is_worn() {
            return Err(LaneFault::Worn);
        }
        match self.settle() {
            Ok(()) => {}
            Err(fault) => return Err(fault),
        }
        if self.keeper.checkpoints() >= u64::from(self.limits.checkpoints) {
            return Err(LaneFault::CheckpointsFull);
        }
        match self.flush(alloc) {
            Ok(()) => {}
            Err(fault) => return Err(fault),
        }
        let text = self.document.print(alloc)?;
        let length = text.as_slice().len() as u64;
        if length > self.limits.bytes {
            return Err(LaneFault::TooLarge(length));
        }
        self.store(alloc, text.as_slice())
    }

    /// Builds the state anew from checkpoint `number` and the log behind it. After a fault the lane is as it was, but for a cut
    /// that was owed and the side step of the fault; the keeper may have some deltas more.
    pub fn restart(&mut self, alloc: Global, number: u64) -> Result<(), LaneFault>
        ensures goes { Goes self.old self.new (steps_of (restarted_by number) result) }
        ensures gate { IsGated self.old self.new (has_no_checkpoint self.old number ∷ []) IsReadFault result }
        ensures restarts { Restarts number self.old self.new result }
        ensures never { (l : List AStep) → LaneStands self.old l → Tells self.old.keeping.content (λ _. IfErr result IsNotBad) }
    {
        if self.is_worn() {
            return Err(LaneFault::Worn);
        }
        match self.settle() {
            Ok(()) => {}
            Err(fault) => return Err(fault),
        }
        let stored = self.keeper.checkpoints();
        if number >= stored {
            return Err(LaneFault::NoCheckpoint {
                asked: number,
                stored,
            });
        }
        kept_is_loaded();
        match self.reload(alloc, number) {
            Ok(document) => {
                self.document = document;
                self.sides += 1;
                self.last = Some(Side::Restarted(number));
                Ok(())
            }
            Err(fault) => Err(fault),
        }
    }

    // ---- parts of the calls

    // A lane that begins with what was read, without side steps.
    pub(crate) fn begun(keeper: K, document: Document, limits: Limits, opened: u64) -> Lane<K>
        requires { IsSafe (record { keeping = K.seen keeper; entries = document.entries; messages = document.messages; limits = limits; opened = opened; sides = 0; last = None; owed = false }) }
        ensures { result ≡ record { keeping = K.seen keeper; entries = document.entries; messages = document.messages; limits = limits; opened = opened; sides = 0; last = None; owed = false } }
    {
        Lane {
            keeper,
            document,
            limits,
            opened,
            sides: 0,
            last: None,
            owed: false,
        }
    }

    // As many entries and side steps as there can be.
    fn is_worn(&self) -> bool
        ensures { result ≡ is_worn self.now }
    {
        self.document.entered() + self.sides >= LARGEST
    }

    // Counts a failed call of the keeper, and keeps its note.
    fn failed(&mut self, note: FaultNote)
        requires { is_worn self.old ≡ false }
        ensures { self.new ≡ record self.old { sides = self.old.sides + 1; last = Some (Side.Failed note) } }
    {
        self.sides += 1;
        self.last = Some(Side::Failed(note));
    }

    // Makes the cut that is owed.
    fn settle(&mut self) -> Result<(), LaneFault>
        requires { is_worn self.old ≡ false }
        ensures reads { self.new.keeping.reads ≡ self.old.keeping.reads }
        ensures same { (self.new.entries ≡ self.old.entries) × (self.new.messages ≡ self.old.messages) }
        ensures done { OnOk result (self.new.owed ≡ false) }
        ensures sides { OnOk result (self.new.sides ≡ self.old.sides) }
        ensures stored { self.new.keeping.checkpoints ≡ self.old.keeping.checkpoints }
        ensures unasked { self.old.owed ≡ false → self.new ≡ self.old }
        ensures needed { OnErr result (self.old.owed ≡ true) }
        ensures fails { IfErr result IsLogFailed }
        ensures cause { IfErr result (IsCausedBy self.old.keeping.faults self.new.keeping.faults) }
        ensures kept { MatchResult result (λ _. KeepsSame (cut_back self.old) self.new.keeping) (λ _. IsCutFailed self.old self.new) }
        ensures goes { Goes self.old self.new (steps_of nothing_by result) }
    {
        if !self.owed {
            return Ok(());
        }
        let before = self.keeper.faults();
        match self.keeper.cut(self.document.entered()) {
            Ok(()) => {
                self.owed = false;
                Ok(())
            }
            Err(_) => {
                let note = note_of(before, &self.keeper);
                self.failed(note);
                Err(LaneFault::LogFailed(note))
            }
        }
    }

    // Enters one entry.
    fn add(&mut self, alloc: Global, raw: &Raw) -> Result<Verdict, LaneFault>
        requires fits { Fits raw.now }
        requires own { IsOwn self.old.entries.entered raw.now }
        requires worn { is_worn self.old ≡ false }
        requires level { self.old.owed ≡ false }
        ensures goes { Goes self.old self.new (steps_of (entered_by raw.now) result) }
        ensures outside { IfErr result IsOutside }
        ensures entries { TakesUp self.old.entries self.new.entries raw.now result }
        ensures owes { OwesBy self.new result }
        ensures cause { IfErr result (IsCausedBy self.old.keeping.faults self.new.keeping.faults) }
        ensures reads { self.new.keeping.reads ≡ self.old.keeping.reads }
        ensures kept { AddKept raw.now self.old self.old.keeping self.new.keeping result }
        ensures said { IfOk result (λ verdict. verdict ≡ verdict_in self.old.entries.state raw.now) }
    {
        match enter(alloc, &mut self.keeper, &mut self.document, raw) {
            Ok(verdict) => Ok(verdict),
            Err(EnterFault::LogFailed(note)) => {
                self.owed = true;
                self.failed(note);
                Err(LaneFault::LogFailed(note))
            }
            Err(EnterFault::DeltaFailed(note)) => {
                self.failed(note);
                Err(LaneFault::DeltaFailed(note))
            }
            Err(EnterFault::NoMemory) => Err(LaneFault::NoMemory),
        }
    }

    // Puts the messages that the keeper lacks among its deltas.
    fn flush(&mut self, alloc: Global) -> Result<(), LaneFault>
        requires worn { is_worn self.old ≡ false }
        requires level { self.old.owed ≡ false }
        ensures goes { Goes self.old self.new (steps_of nothing_by result) }
        ensures same { (self.new.entries ≡ self.old.entries) × (self.new.messages ≡ self.old.messages) }
        ensures reads { self.new.keeping.reads ≡ self.old.keeping.reads }
        ensures level { self.new.owed ≡ false }
        ensures sides { OnOk result (self.new.sides ≡ self.old.sides) }
        ensures stored { self.new.keeping.checkpoints ≡ self.old.keeping.checkpoints }
        ensures fails { IfErr result IsFlushFault }
        ensures cause { IfErr result (IsCausedBy self.old.keeping.faults self.new.keeping.faults) }
        ensures puts { FlushKept (missing self.old) self.old.keeping self.new.keeping result }
        ensures whole { OnOk result ((l : List AStep) → LaneStands self.old l → Tells self.new.keeping.content (AreAll (order (ledger l)))) }
    {
        match self.document.flush(alloc, &mut self.keeper) {
            Ok(()) => Ok(()),
            Err(FlushFault::DeltaFailed(note)) => {
                self.failed(note);
                Err(LaneFault::DeltaFailed(note))
            }
            Err(FlushFault::NoMemory) => Err(LaneFault::NoMemory),
        }
    }

    // Stores a checkpoint of this text.
    fn store(&mut self, alloc: Global, text: &[u8]) -> Result<u64, LaneFault>
        requires worn { is_worn self.old ≡ false }
        requires level { self.old.owed ≡ false }
        requires short { length text.now ≤ self.old.limits.bytes }
        ensures same { (self.new.entries ≡ self.old.entries) × (self.new.messages ≡ self.old.messages) }
        ensures reads { self.new.keeping.reads ≡ self.old.keeping.reads }
        ensures level { self.new.owed ≡ false }
        ensures fails { IfErr result IsOutsideLog }
        ensures cause { IfErr result (IsCausedBy self.old.keeping.faults self.new.keeping.faults) }
        ensures kept { MatchResult result (λ _. KeepsSame (with_checkpoint text.now self.old.keeping) self.new.keeping) (λ _. KeepsSame self.old.keeping self.new.keeping) }
        ensures number { IfOk result (λ number. number ≡ self.old.keeping.checkpoints) }
        ensures stored { IfOk result (λ number. Tells self.new.keeping.content (HasCheckpoint number text.now)) }
        ensures goes { (before : List AStep) → IsPrinted self.old.entries text.now → Tells self.old.keeping.content (AreAll (order (ledger before))) →
            LaneStands self.old before → LaneStands self.new (before ++ steps_of stored_by result) }
        ensures terms { IsBeside self.old self.new (steps_of stored_by result) }
    {
        let before = self.keeper.faults();
        match self.keeper.store_checkpoint(alloc, text) {
            Ok(number) => {
                self.sides += 1;
                self.last = Some(Side::Stored(number));
                Ok(number)
            }
            Err(KeeperFault::Failed) => {
                let note = note_of(before, &self.keeper);
                self.failed(note);
                Err(LaneFault::LogFailed(note))
            }
            Err(KeeperFault::NoMemory) => Err(LaneFault::NoMemory),
        }
    }

    // Reads the state of a checkpoint and of the log behind it, with the clients that are joined now.
    fn reload(&mut self, alloc: Global, number: u64) -> Result<Document, LaneFault>
        requires worn { is_worn self.old ≡ false }
        requires level { self.old.owed ≡ false }
        requires stored { number < self.old.keeping.checkpoints }
        ensures goes { Goes self.old self.new (steps_of nothing_by result) }
        ensures same { (self.new.entries ≡ self.old.entries) × (self.new.messages ≡ self.old.messages) }
        ensures level { self.new.owed ≡ false }
        ensures sides { OnOk result (self.new.sides ≡ self.old.sides) }
        ensures kept { PutsDeltas self.old.keeping self.new.keeping }
        ensures early { IfOk result (λ d. PutsFirst d.messages.before self.old.keeping self.new.keeping) }
        ensures lacked { PutsFew self.old.entries.entered self.old.keeping self.new.keeping }
        ensures at_deltas { IfErr result (IsAtDeltas self.old.entries.entered) }
        ensures fails { IfErr result IsReadFault }
        ensures cause { IfErr result (IsCausedBy self.old.keeping.faults self.new.keeping.faults) }
        ensures clients { IfOk result (λ d. keys d.entries.state.sequencer.rows ≡ keys self.old.entries.state.sequencer.rows) }
        ensures whole { IfOk result (λ d. (d.entries.entered ≡ self.old.entries.entered) × (d.messages.before ≤ self.new.keeping.deltas)) }
        ensures loaded { Tells self.old.keeping.content (λ content. Reloads number self.old.entries content result) }
        ensures reads { IfOk result (λ _. Tells self.old.keeping.content (ReadsBehind (Some number) self.old.keeping.records self.old.keeping.reads self.new.keeping.reads)) }
        ensures stands { (l : List AStep) → LaneStands self.old l → IfOk result (λ d. Tells self.new.keeping.content (StandFor d.messages (order (ledger l)))) }
    {
        match load(alloc, &mut self.keeper, Some(number)) {
            Ok(document) => {
                if !have_same_ids(document.clients(), self.document.clients()) {
                    return Err(LaneFault::from(bad_field(alloc, number, "clients")));
                }
                Ok(document)
            }
            Err(LoadFault::LogFailed(note)) => {
                self.failed(note);
                Err(LaneFault::LogFailed(note))
            }
            Err(LoadFault::DeltaFailed(note)) => {
                self.failed(note);
                Err(LaneFault::DeltaFailed(note))
            }
            Err(LoadFault::NoMemory) => Err(LaneFault::NoMemory),
            Err(LoadFault::BadRecord(place)) => Err(LaneFault::BadRecord(place)),
            Err(LoadFault::BadCheckpoint(bad, fault)) => Err(LaneFault::BadCheckpoint(bad, fault)),
            Err(LoadFault::Worn) => Err(LaneFault::Worn),
        }
    }
}

// The same ids, in byte order.
fn have_same_ids(one: &Clients, other: &Clients) -> bool
    ensures { IsTrue result ↔ (keys one.now.rows ≡ keys other.now.rows) }
{
    let count = one.count();
    if other.count() != count {
        return false;
    }
    for place in 0..count {
        if one.id_at(place) != other.id_at(place) {
            return false;
        }
    }
    true
}

// The message of a verdict that is one.
fn sequenced(verdict: Verdict) -> Message
    requires { is_sequenced verdict ≡ true }
    ensures { verdict ≡ Verdict.Sequenced result }
{
    match verdict {
        Verdict::Sequenced(message) => message,
        Verdict::Nacked(_) | Verdict::Dropped | Verdict::Absorbed => unreachable!(),
    }
}
