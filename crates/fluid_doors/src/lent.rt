//! What is done to a document by whoever has its lane in hand. `says` speaks of every list of steps for which the lane stands, and
//! `gate` of the lane itself: by it a call that a rule refuses fails at the log only where a cut was owed.
ghost use Rattle.std.specs.Prelude.{◌≡◌, ℕ, ◌<◌, ◌≤◌, List, [], ◌∷◌, ◌++◌, length, IfOk, IfErr, IfSome};
ghost use Rattle.fluid_types.specs.Fits.{Fits};
ghost use Rattle.fluid_types.specs.Names.{entry_name};
ghost use Rattle.fluid_types.specs.Forms.{largest};
ghost use Rattle.fluid_core.specs.Entering.{IsUpTo};
ghost use Rattle.fluid_lane.specs.declared.steps.Step.{Step as AStep};
ghost use Rattle.fluid_lane.specs.Faults.{IsCausedBy, IsOutside, IsReadFault};
ghost use Rattle.fluid_lane.specs.Refusals.{IsGated, is_full, is_full_for, has_too_many, has_checkpoints, has_no_checkpoint};
ghost use Rattle.fluid_lane.specs.Calls.{Stores, IsStoreFault};
ghost use Rattle.fluid_lane.specs.Steps.{steps_of, range_steps, entered_by, joined_by, stored_by, restarted_by, swept_by};
ghost use Rattle.fluid_lane.specs.Standing.{LaneStands, IsLeaveOrSubmission};
ghost use Rattle.fluid_feed.specs.Tails.{too_many};
ghost use Rattle.fluid_doors.specs.Terms.{terms_of};
ghost use Rattle.fluid_doors.specs.Passing.{Continues};
ghost use Rattle.fluid_doors.specs.Entering.{Submits, Joins, Reports, Sweeps, IsJoinOf, IsLeaveAt, with_id, with_left, verdict_left};
ghost use Rattle.fluid_doors.specs.Storing.{Checkpoints, Restarts};
ghost use Rattle.fluid_doors.specs.Collecting.{Collects, IsEventUnder, IsReadCause, gathered};
ghost use Rattle.fluid_doors.specs.Tailed.{BenchStands, IsTailOf};
ghost use Rattle.fluid_doors.specs.Looking.{IsLook, Looks};
ghost use Rattle.fluid_doors.specs.Scribing.{IsJobOf};

use crate::bench::Bench;
use crate::gathering::{gather, keep_up};
use crate::looking::{messages_asked, summary};
use fluid_cast::Cursor;
use fluid_deltas::DeltaFault;
use fluid_feed::{EventText, Tail};
use fluid_json::{Json, NoMemory};
use fluid_lane::{LaneFault, lanes_say_their_ledgers};
use fluid_log::Keeper;
use fluid_scribe::Job;
use fluid_types::{DocName, Message, Raw, Scopes, Verdict};
use fluid_voice::{Act, ActEnd};
use std::alloc::Global;

impl<K: Keeper> Bench<K> {
    /// Enters a leave or a submission. Its message is printed at once where the tail reaches to it, as the one that is at hand.
    pub fn submit(&mut self, alloc: Global, raw: &Raw) -> Result<Verdict, LaneFault>
        requires fits { Fits raw.now }
        requires kind { IsLeaveOrSubmission raw.now }
        ensures goes { Continues self.old.lane self.new.lane (steps_of (entered_by raw.now) result) }
        ensures tail { (l : List AStep) → BenchStands self.old.lane self.old.tail l → IsTailOf (terms_of self.old.lane).told self.new.tail (l ++ steps_of (entered_by raw.now) result) }
        ensures short { length self.old.tail.messages < too_many → length self.new.tail.messages < too_many }
        ensures cause { IfErr result (IsCausedBy self.old.lane.keeping.faults self.new.lane.keeping.faults) }
        ensures gate { IsGated self.old.lane self.new.lane (is_full_for self.old.lane raw.now ∷ []) IsOutside result }
        ensures says { (l : List AStep) → LaneStands self.old.lane l → Submits (terms_of self.old.lane) raw.now result l }
    {
        // (a law, and no work: its clause is for the proof)
        lanes_say_their_ledgers();
        let answer = self.lane.submit(alloc, raw);
        let last = self.lane.seq();
        keep_up(alloc, last, &mut self.tail, &answer);
        answer
    }

    /// Enters a join under the id `c` and the number of the entry.
    pub fn join(
        &mut self,
        alloc: Global,
        scopes: Scopes,
        detail: Json,
        moment: u64,
    ) -> Result<(Raw, Message), LaneFault>
        requires fits { (n : ℕ) → n ≤ largest → Fits (Raw.Join (entry_name n) scopes detail moment) }
        ensures goes { Continues self.old.lane self.new.lane (steps_of joined_by result) }
        ensures raw { IfOk result (IsJoinOf scopes detail moment) }
        ensures tail { self.new.tail ≡ self.old.tail }
        ensures cause { IfErr result (IsCausedBy self.old.lane.keeping.faults self.new.lane.keeping.faults) }
        ensures gate { IsGated self.old.lane self.new.lane (is_full self.old.lane ∷ has_too_many self.old.lane ∷ []) IsOutside result }
        ensures says { (l : List AStep) → LaneStands self.old.lane l → Joins (terms_of self.old.lane) scopes detail moment (with_id result) l }
    {
        lanes_say_their_ledgers();
        // (read for its clause alone)
        let _number = self.lane.entered();
        let _last = self.lane.seq();
        self.lane.join(alloc, scopes, detail, moment)
    }

    /// Enters a report on the summarize of this number.
    pub fn conclude(
        &mut self,
        alloc: Global,
        summary: u64,
        found: bool,
        moment: u64,
    ) -> Result<Verdict, LaneFault>
        requires fits { Fits (Raw.Report summary found moment) }
        ensures goes { Continues self.old.lane self.new.lane (steps_of (entered_by (Raw.Report summary found moment)) result) }
        ensures tail { self.new.tail ≡ self.old.tail }
        ensures cause { IfErr result (IsCausedBy self.old.lane.keeping.faults self.new.lane.keeping.faults) }
        ensures says { (l : List AStep) → LaneStands self.old.lane l → Reports (terms_of self.old.lane) (Raw.Report summary found moment) result l }
    {
        lanes_say_their_ledgers();
        self.lane.conclude(alloc, summary, found, moment)
    }

    /// Enters a leave for the first client in byte order of ids that was last heard of more than `silence` before this moment.
    pub fn sweep(
        &mut self,
        alloc: Global,
        moment: u64,
        silence: u64,
    ) -> Result<Option<(Raw, Message)>, LaneFault>
        requires moment { moment ≤ largest }
        ensures goes { Continues self.old.lane self.new.lane (steps_of swept_by result) }
        ensures raw { IfOk result (IsLeaveAt moment) }
        ensures tail { self.new.tail ≡ self.old.tail }
        ensures cause { IfErr result (IsCausedBy self.old.lane.keeping.faults self.new.lane.keeping.faults) }
        ensures says { (l : List AStep) → LaneStands self.old.lane l → Sweeps (terms_of self.old.lane) moment silence (verdict_left result) (with_left result) l }
    {
        lanes_say_their_ledgers();
        self.lane.sweep(alloc, moment, silence)
    }

    /// What is to be done about the pending summarize. Nothing is entered.
    pub fn job(&mut self, alloc: Global) -> Result<Option<Job>, NoMemory>
        ensures same { self.new.lane ≡ self.old.lane }
        ensures tail { self.new.tail ≡ self.old.tail }
        ensures number { IfOk result (λ given. IfSome given (λ job. IsUpTo largest job.summary)) }
        ensures says { (l : List AStep) → LaneStands self.old.lane l → IfOk result (λ given. IsJobOf (terms_of self.old.lane) given l) }
    {
        lanes_say_their_ledgers();
        self.lane.job(alloc)
    }

    /// The next messages of a cursor, at most so many, in an event of the document of this name; none where there are none.
    pub fn collect(
        &mut self,
        alloc: Global,
        name: &DocName,
        cursor: &Cursor,
        most: u64,
    ) -> Result<Option<EventText>, DeltaFault>
        requires first { 0 < cursor.now.next }
        ensures goes { Continues self.old.lane self.new.lane (range_steps result) }
        ensures tail { (l : List AStep) → BenchStands self.old.lane self.old.tail l → IsTailOf (terms_of self.old.lane).told self.new.tail l }
        ensures short { length self.old.tail.messages < too_many → length self.new.tail.messages < too_many }
        ensures cause { IfErr result (IsReadCause self.old.lane.keeping.faults self.new.lane.keeping.faults) }
        ensures event { IfOk result (IsEventUnder name.now) }
        ensures says { (l : List AStep) → BenchStands self.old.lane self.old.tail l → Collects gathered (terms_of self.old.lane) cursor.now.next most result l }
    {
        lanes_say_their_ledgers();
        let range = cursor.batch(self.lane.seq(), most);
        if range.start >= range.end {
            return Ok(None);
        }
        if range.start < self.tail.from() {
            let mut apart = Tail::new(alloc, range.start);
            return gather(
                alloc,
                &mut self.lane,
                &mut apart,
                name,
                range.start,
                range.end,
            );
        }
        gather(
            alloc,
            &mut self.lane,
            &mut self.tail,
            name,
            range.start,
            range.end,
        )
    }

    /// How an act ends that enters nothing: a range of messages, a summary, or a connect that only reads.
    pub fn look(&mut self, alloc: Global, act: &Act) -> Result<ActEnd, DeltaFault>
        requires { IsLook act.now }
        ensures goes { Continues self.old.lane self.new.lane (range_steps result) }
        ensures tail { self.new.tail ≡ self.old.tail }
        ensures cause { IfErr result (IsReadCause self.old.lane.keeping.faults self.new.lane.keeping.faults) }
        ensures says { (l : List AStep) → LaneStands self.old.lane l → Looks (terms_of self.old.lane) act.now result l }
    {
        match act {
            Act::Connect { .. } => {
                lanes_say_their_ledgers();
                Ok(ActEnd::Told(self.lane.seq()))
            }
            Act::Deltas(from, to) => messages_asked(alloc, &mut self.lane, *from, *to),
            Act::Summary(asked) => Ok(summary(&self.lane, asked)),
            Act::Say(_) | Act::Enter(_) | Act::GetObject(_) | Act::PutObject(_) => unreachable!(),
        }
    }

    /// Stores a checkpoint, whose number it gives.
    pub fn checkpoint(&mut self, alloc: Global) -> Result<u64, LaneFault>
        ensures goes { Continues self.old.lane self.new.lane (steps_of stored_by result) }
        ensures tail { self.new.tail ≡ self.old.tail }
        ensures stores { Stores self.old.lane self.new.lane result }
        ensures gate { IsGated self.old.lane self.new.lane (has_checkpoints self.old.lane ∷ []) (IsStoreFault self.old.lane) result }
        ensures says { (l : List AStep) → LaneStands self.old.lane l → Checkpoints (terms_of self.old.lane) result l }
    {
        lanes_say_their_ledgers();
        self.lane.checkpoint(alloc)
    }

    /// Builds the lane's state anew from the checkpoint of this number.
    pub fn restart(&mut self, alloc: Global, number: u64) -> Result<(), LaneFault>
        ensures goes { Continues self.old.lane self.new.lane (steps_of (restarted_by number) result) }
        ensures tail { self.new.tail ≡ self.old.tail }
        ensures cause { IfErr result (IsCausedBy self.old.lane.keeping.faults self.new.lane.keeping.faults) }
        ensures gate { IsGated self.old.lane self.new.lane (has_no_checkpoint self.old.lane number ∷ []) IsReadFault result }
        ensures says { (l : List AStep) → LaneStands self.old.lane l → Restarts (terms_of self.old.lane) number result l }
    {
        lanes_say_their_ledgers();
        self.lane.restart(alloc, number)
    }
}
