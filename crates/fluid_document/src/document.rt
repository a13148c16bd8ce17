//! What is kept in memory of the entries of one document.
ghost use Rattle.std.specs.Prelude.{◌≡◌, ℕ, ◌+◌, ◌-◌, ◌<◌, ◌≤◌, ◌++◌, [], length, drop, IfOk, IfErr, IfSome, OnOk, OnErr, All, List};
ghost use Rattle.fluid_io.specs.Causes.{Tells};
ghost use Rattle.fluid_types.specs.Fits.{Fits};
ghost use Rattle.fluid_types.specs.Ledger.{messages_of};
ghost use Rattle.fluid_types.specs.Order.{AreNumberedFrom, AreFirst};
ghost use Rattle.fluid_types.specs.declared.entries.Raw.{Raw as ARaw};
ghost use Rattle.fluid_types.specs.declared.messages.Message.{Message as AMessage};
ghost use Rattle.fluid_ticket.specs.State.{minimum};
ghost use Rattle.fluid_core.specs.Entering.{IsUpTo, job_of};
ghost use Rattle.fluid_deltas.specs.Pushed.{pushed, IsKeepable, ArePartOf, StandIn, StandFor, slice};
ghost use Rattle.fluid_deltas.specs.Ranges.{IsNotBad, IsAnswer, IsHeldAnswer, IsSlice, AreHeld, Reads, held_between, range_of};
ghost use Rattle.fluid_deltas.specs.Flushes.{lacking, AreAll};
ghost use Rattle.fluid_deltas.specs.declared.pages.TheConstants.{RESIDENT};
ghost use Rattle.fluid_types.specs.Forms.{largest};
ghost use Rattle.fluid_document.specs.Entries.{counts, nothing_entered, GoOn, Commits, IsLevelled, IsReadyIn, IsReady, copied, left_over};
ghost use Rattle.fluid_document.specs.Kept.{IsPrinted};
ghost use Rattle.fluid_document.specs.Taking.{IsResumed};
ghost use Rattle.fluid_document.specs.Puts.{Flushes, PutsFirst, PutsFew, unflushed};
ghost use Rattle.fluid_document.specs.Rooms.{for_room};

use crate::fault::FlushFault;
use fluid_checkpoint::{Moments, State};
use fluid_clients::Clients;
use fluid_core::{Core, CoreParts, CoreReady};
use fluid_deltas::{DeltaFault, Deltas};
use fluid_json::{Bytes, NoMemory};
use fluid_log::Keeper;
use fluid_scribe::{Job, SummaryRef};
use fluid_types::{Message, Raw, Verdict};
use std::alloc::Global;
use std::marker::Model;

/// What is kept in memory of the entries of one document: the core that gives verdicts, and the messages of the order.
#[derive(Drop)]
pub struct Document {
    core: Core,
    messages: Deltas,
    entered: u64,
    counted: u64,
}

impl Model for Document {
    ghost use Rattle.fluid_document.specs.Entries.{InMemory, memory_code, IsLevelled};

    ghost Value = { InMemory };

    ghost coded = { memory_code };

    ghost view = { λ d. record {
      entries = record { state = d.core.state; entered = d.entered; counted = d.counted };
      messages = d.messages;
      clients = d.core.clients;
      notes = d.core.notes;
    } };

    ghost invariant = { λ d. IsLevelled (record { state = d.core.state; entered = d.entered; counted = d.counted }) d.messages };
}

// An entry that is prepared and not yet committed.
#[derive(Drop)]
pub(crate) struct Prepared {
    ready: CoreReady,
    counts: u64,
}

impl Document {
    /// Nothing is entered. Takes no memory.
    pub fn new(alloc: Global) -> Document
        ensures entries { result.entries ≡ nothing_entered }
        ensures messages { (result.messages.before ≡ 0) × (result.messages.held ≡ []) }
        ensures part { (order : List AMessage) → AreFirst order → All IsKeepable order → ArePartOf result.messages order }
    {
        Document {
            core: Core::new(alloc),
            messages: Deltas::new(alloc),
            entered: 0,
            counted: 0,
        }
    }

    // What the state of a checkpoint keeps, whose messages are a keeper's first deltas.
    pub(crate) fn resumed(alloc: Global, state: State) -> Document
        requires few { state.entered ≤ largest }
        requires counted { state.counted ≤ largest }
        requires sequenced { state.sequencer.sequence ≤ state.entered }
        ensures { IsResumed state result }
    {
        let State {
            entered,
            counted,
            sequencer,
            scribe,
            heard: _heard,
        } = state;
        let mut messages = Deltas::new(alloc);
        messages.resume(sequencer.sequence);
        Document {
            core: Core::of_parts(sequencer, scribe),
            messages,
            entered,
            counted,
        }
    }

    /// How many raw entries are entered.
    pub fn entered(&self) -> u64
        ensures is { result ≡ self.now.entries.entered }
        ensures levelled { IsLevelled self.now.entries self.now.messages }
    {
        self.entered
    }

    /// How many of them are joins and submissions.
    pub fn counted(&self) -> u64
        ensures { result ≡ self.now.entries.counted }
    {
        self.counted
    }

    /// The last sequence number.
    pub fn seq(&self) -> u64
        ensures is { result ≡ self.now.entries.state.sequencer.sequence }
        ensures few { result ≤ largest }
    {
        self.core.seq()
    }

    /// The minimum sequence number.
    pub fn min(&self) -> u64
        ensures { result ≡ minimum self.now.entries.state.sequencer }
    {
        self.core.min()
    }

    /// The joined clients.
    pub fn clients(&self) -> &Clients
        ensures { result.now.rows ≡ self.now.entries.state.sequencer.rows }
    {
        self.core.clients()
    }

    /// The summaries that were acknowledged, oldest first.
    pub fn acks(&self) -> &[SummaryRef]
        ensures { result.now ≡ self.now.entries.state.scribe.acks }
    {
        self.core.acks()
    }

    /// What is to be done about the pending summarize; None exactly where none is pending.
    pub fn job(&mut self, alloc: Global) -> Result<Option<Job>, NoMemory>
        ensures same { (self.new.entries ≡ self.old.entries) × (self.new.messages ≡ self.old.messages) }
        ensures job { IfOk result (λ given. given ≡ job_of self.old.entries.state) }
        ensures number { IfOk result (λ given. IfSome given (λ job. IsUpTo largest job.summary)) }
        ensures reference { IfOk result (λ given. IfSome given (λ job. job.reference ≤ job.summary)) }
    {
        // (read for its clause alone)
        let _last = self.core.seq();
        self.core.job(alloc)
    }

    /// How many messages are in memory.
    pub fn resident(&self) -> u64
        ensures count { result ≡ length self.now.messages.held }
        ensures most { result ≤ RESIDENT }
    {
        self.messages.resident()
    }

    /// The text of a checkpoint of what the entries made.
    pub fn print(&self, alloc: Global) -> Result<Bytes, NoMemory>
        ensures { IfOk result (IsPrinted self.now.entries) }
    {
        let CoreParts { sequencer, scribe } = self.core.parts(alloc)?;
        let heard = Moments::of(alloc, &sequencer.clients)?;
        let state = State {
            entered: self.entered,
            counted: self.counted,
            sequencer,
            scribe,
            heard,
        };
        fluid_checkpoint::print(alloc, &state)
    }

    /// Puts the messages that the keeper lacks among its deltas. After a fault it may have put some of them, in order.
    pub fn flush<K: Keeper>(&mut self, alloc: Global, keeper: &mut K) -> Result<(), FlushFault>
        requires { self.old.messages.before ≤ (K.seen keeper.old).deltas }
        ensures same { self.new ≡ self.old }
        ensures flushes { Flushes (lacking self.old.messages (K.seen keeper.old).deltas) (K.seen keeper.old) (K.seen keeper.new) result }
        ensures stands { (order : List AMessage) → Tells (K.seen keeper.old).content (StandIn self.old.messages order) →
            Tells (K.seen keeper.new).content (StandIn self.old.messages order) }
        ensures whole { OnOk result ((order : List AMessage) → Tells (K.seen keeper.old).content (StandFor self.old.messages order) →
            Tells (K.seen keeper.new).content (AreAll order)) }
    {
        flushed(self.messages.flush(alloc, keeper))
    }

    /// The messages `from` up to, but without, `to`.
    pub fn range<K: Keeper>(
        &mut self,
        alloc: Global,
        from: u64,
        to: u64,
        keeper: &mut K,
    ) -> Result<Vec<Message>, DeltaFault>
        requires first { 0 < from }
        requires ordered { from ≤ to }
        requires last { to ≤ self.old.entries.state.sequencer.sequence + 1 }
        requires reached { self.old.messages.before ≤ (K.seen keeper.old).deltas }
        ensures same { self.new ≡ self.old }
        ensures reads { Reads (λ v. v.items) from to self.old.messages.before (K.seen keeper.old) (K.seen keeper.new) result }
        ensures answer { Tells (K.seen keeper.old).content (λ content. IsAnswer (λ v. v.items) result (range_of self.old.messages content from to)) }
        ensures memory { AreHeld self.old.messages from to → IsHeldAnswer (λ v. v.items) (held_between self.old.messages (from - 1) (to - 1)) result }
        ensures untouched { AreHeld self.old.messages from to → K.seen keeper.new ≡ K.seen keeper.old }
        ensures slice { (order : List AMessage) → Tells (K.seen keeper.old).content (λ content. StandIn self.old.messages order content →
            IsSlice (λ v. v.items) (slice order from to) result) }
    {
        self.messages.range(alloc, from, to, keeper)
    }

    /// Makes room for one more message: where the most are in memory, their oldest page goes to the keeper.
    pub(crate) fn make_room<K: Keeper>(
        &mut self,
        alloc: Global,
        keeper: &mut K,
    ) -> Result<(), FlushFault>
        requires { self.old.messages.before ≤ (K.seen keeper.old).deltas }
        ensures entries { self.new.entries ≡ self.old.entries }
        ensures pushed { pushed self.new.messages ≡ pushed self.old.messages }
        ensures room { OnOk result (length self.new.messages.held < RESIDENT) }
        ensures same { OnErr result (self.new ≡ self.old) }
        ensures flushes { Flushes (for_room self.old.messages (K.seen keeper.old).deltas) (K.seen keeper.old) (K.seen keeper.new) result }
        ensures first { OnOk result (PutsFirst self.new.messages.before (K.seen keeper.old) (K.seen keeper.new)) }
        ensures few { PutsFew self.old.entries.entered (K.seen keeper.old) (K.seen keeper.new) }
        ensures onwards { self.old.messages.before ≤ self.new.messages.before }
        ensures needed { OnErr result (RESIDENT ≤ self.old.entries.entered) }
        ensures reached { self.new.messages.before ≤ (K.seen keeper.new).deltas }
        ensures stands { (order : List AMessage) → Tells (K.seen keeper.old).content (StandIn self.old.messages order) →
            Tells (K.seen keeper.new).content (StandIn self.new.messages order) }
    {
        if !self.messages.full() {
            return Ok(());
        }
        flushed(self.messages.make_room(alloc, keeper))
    }

    // Gives a raw entry its verdict and makes every growth that this verdict needs. What is kept stays.
    pub(crate) fn prepare(&mut self, alloc: Global, raw: &Raw) -> Result<Prepared, NoMemory>
        requires fits { Fits raw.now }
        requires few { self.old.entries.entered < largest }
        requires room { length self.old.messages.held < RESIDENT }
        ensures entries { self.new.entries ≡ self.old.entries }
        ensures before { self.new.messages.before ≡ self.old.messages.before }
        ensures held { self.new.messages.held ≡ self.old.messages.held }
        ensures ready { IfOk result (IsReadyIn self.new raw.now) }
    {
        self.messages.reserve(alloc)?;
        let ready = self.core.prepare(alloc, raw)?;
        Ok(Prepared {
            ready,
            counts: counts(raw),
        })
    }

    // Enters what was prepared, and gives its verdict where it isn't kept. Takes no memory.
    pub(crate) fn commit(&mut self, prepared: Prepared) -> Option<Verdict>
        requires { IsReady self.old prepared }
        ensures commits { (raw : ARaw) → IsReadyIn self.old raw prepared → Commits self.old self.new raw prepared.ready.ticket.verdict }
        ensures left { result ≡ left_over prepared.ready.ticket.verdict }
    {
        let Prepared { ready, counts } = prepared;
        let verdict = self.core.commit(ready);
        let left = push(&mut self.messages, verdict);
        self.entered += 1;
        self.counted += counts;
        left
    }
}

impl Prepared {
    // The verdict that the entry gets when it is committed, once more, where it is kept then.
    pub(crate) fn copied(&self, alloc: Global) -> Result<Option<Verdict>, NoMemory>
        ensures { IfOk result (λ copy. copy ≡ copied self.now.ready.ticket.verdict) }
    {
        // (an arm for each verdict, so that each proof knows its case)
        match self.ready.verdict() {
            Verdict::Sequenced(message) => {
                let message = message.copy(alloc)?;
                Ok(Some(Verdict::Sequenced(message)))
            }
            Verdict::Nacked(_) => Ok(None),
            Verdict::Dropped => Ok(None),
            Verdict::Absorbed => Ok(None),
        }
    }
}

// The answer of a call that put messages and read none.
fn flushed(answer: Result<(), DeltaFault>) -> Result<(), FlushFault>
    requires { IfErr answer IsNotBad }
    ensures { answer ≡ unflushed result }
{
    match answer {
        Ok(()) => Ok(()),
        Err(DeltaFault::DeltaFailed(note)) => Err(FlushFault::DeltaFailed(note)),
        Err(DeltaFault::NoMemory) => Err(FlushFault::NoMemory),
        Err(DeltaFault::BadDelta(_)) => unreachable!(),
        Err(DeltaFault::Worn) => unreachable!(),
    }
}

// Adds the message of a verdict, and gives back one that has none.
fn push(messages: &mut Deltas, verdict: Verdict) -> Option<Verdict>
    requires room { 0 < messages.old.spare }
    requires next { AreNumberedFrom (pushed messages.old + 1) (messages_of verdict) }
    requires keepable { All IsKeepable (messages_of verdict) }
    ensures goes { GoOn messages.old messages.new verdict }
    ensures left { result ≡ left_over verdict }
{
    // (an arm for each verdict, so that each proof knows its case)
    match verdict {
        Verdict::Sequenced(message) => {
            messages.push(message);
            None
        }
        Verdict::Nacked(nack) => Some(Verdict::Nacked(nack)),
        Verdict::Dropped => Some(Verdict::Dropped),
        Verdict::Absorbed => Some(Verdict::Absorbed),
    }
}

// How much an entry adds to the count of joins and submissions.
fn counts(raw: &Raw) -> u64
    ensures is { result ≡ counts raw.now }
    ensures one { result ≤ 1 }
{
    match raw {
        Raw::Join { .. } | Raw::Submit { .. } => 1,
        Raw::Leave { .. } | Raw::Report { .. } => 0,
    }
}
