//! A document for many users. Each call takes the turn, makes one call on the lane, enters the step that this call added, and
//! gives the turn back with the pass.
ghost use Rattle.std.specs.Prelude.{◌≡◌, ◌≢◌, ℕ, ◌<◌, ◌≤◌, List, [], None, IfOk, IfErr};
ghost use Rattle.fluid_turn.specs.Entries.{of_nobody, entries, IsPrefix};
ghost use Rattle.fluid_turn.specs.declared.view.Numbered.{Numbered as ANumbered};
ghost use Rattle.fluid_turn.specs.Seats.{IsNew, SeesMore};
ghost use Rattle.fluid_types.specs.Fits.{Fits};
ghost use Rattle.fluid_types.specs.Names.{entry_name};
ghost use Rattle.fluid_types.specs.declared.verdicts.Verdict.{Verdict as AVerdict};
ghost use Rattle.fluid_types.specs.Forms.{largest};
ghost use Rattle.fluid_lane.specs.declared.steps.Step.{Step as AStep};
ghost use Rattle.fluid_lane.specs.Standing.{LaneStands, IsLeaveOrSubmission};
ghost use Rattle.fluid_lane.specs.Steps.{ledger, steps, steps_of, range_steps, entered_by, stored_by, restarted_by};
ghost use Rattle.fluid_doors.specs.Terms.{terms_of};
ghost use Rattle.fluid_doors.specs.Passing.{Grows};
ghost use Rattle.fluid_doors.specs.Entering.{Submits, Joins, Sweeps, joined_as, swept_as};
ghost use Rattle.fluid_doors.specs.Storing.{Checkpoints, Restarts};
ghost use Rattle.fluid_doors.specs.Collecting.{Collects, IsEventUnder, gathered};
ghost use Rattle.fluid_doors.specs.Looking.{IsLook, Looks};

use crate::bench::Bench;
use crate::finishing::{
    close_entered, close_joined, close_read, close_restarted, close_stored, close_swept,
};
use fluid_cast::Cursor;
use fluid_deltas::DeltaFault;
use fluid_feed::{EventText, Tail};
use fluid_json::{Json, NoMemory};
use fluid_lane::{Lane, LaneFault, Limits};
use fluid_log::Keeper;
use fluid_turn::{Seat, Turn};
use fluid_types::{ClientId, DocName, Message, Raw, Scopes, Verdict};
use fluid_voice::{Act, ActEnd};
use std::alloc::Global;
use std::marker::Model;
use std::sync::Wait;

/// What one user of a document knows of it.
pub type Pass<K> = Seat<Bench<K>>;

/// A document that is open for many users.
#[derive(Drop)]
pub struct Door<K: Keeper> {
    name: DocName,
    turn: Turn<Bench<K>>,
    limits: Limits,
    opened: u64,
}

impl<K: Keeper> Model for Door<K> {
    ghost use Rattle.std.specs.Prelude.{◌≡◌};
    ghost use Rattle.fluid_doors.specs.Terms.{Doorway};

    ghost Value = { Doorway };

    ghost use Rattle.fluid_doors.specs.Codes.{doorway_code};

    ghost coded = { doorway_code };

    ghost view = { λ d. record { name = d.name; turn = d.turn } };

    ghost invariant = { λ d. (d.turn.fixed.limits ≡ d.limits) × (d.turn.fixed.opened ≡ d.opened) };
}

impl<K: Keeper> Door<K> {
    /// A door of the document of this lane, and its first pass, which has seen the list of steps with which the door begins:
    /// one for which the lane stands, and without side steps where the lane has taken none. With no memory the lane comes back.
    pub fn open(
        alloc: Global,
        name: DocName,
        lane: Lane<K>,
    ) -> Result<(Door<K>, Pass<K>), (Lane<K>, NoMemory)>
        requires { (l : List AStep) × LaneStands lane l }
        ensures door { IfOk result (λ d. (d.0.name ≡ name) × (LaneStands lane d.0.turn.began × (d.0.turn.fixed ≡ terms_of lane))) }
        ensures pass { IfOk result (λ d. (d.1.turn ≡ d.0.turn) × IsNew (of_nobody d.0.turn.began) d.1) }
        ensures fresh { lane.last ≡ None → IfOk result (λ d. d.0.turn.began ≡ steps (ledger d.0.turn.began)) }
        ensures back { IfErr result (λ back. back.0 ≡ lane) }
    {
        let limits = lane.limits();
        let opened = lane.opened();
        let tail = Tail::new(alloc, 1);
        match Turn::new(alloc, Bench { lane, tail }) {
            Ok((turn, pass)) => Ok((
                Door {
                    name,
                    turn,
                    limits,
                    opened,
                },
                pass,
            )),
            Err((bench, refused)) => {
                let Bench { lane, tail: _ } = bench;
                Err((lane, refused))
            }
        }
    }

    /// The name of the document. Takes no memory.
    pub fn name(&self) -> &DocName
        ensures { result.now ≡ self.now.name }
    {
        &self.name
    }

    /// The limits of the document. Takes no memory.
    pub fn limits(&self) -> Limits
        ensures { result ≡ self.now.turn.fixed.limits }
    {
        self.limits
    }

    /// How many checkpoints the lane found when it was started. Takes no memory.
    pub fn opened(&self) -> u64
        ensures { result ≡ self.now.turn.fixed.opened }
    {
        self.opened
    }

    /// A new pass of this door, with no steps of its own. What it has seen is a list that the document had once.
    pub fn pass(&self) -> Pass<K>
        ensures { (result.turn ≡ self.now.turn) × (result.mine ≡ []) }
    {
        self.turn.seat()
    }

    /// A second pass that knows as much, with no steps of its own.
    pub fn split(&self, pass: Pass<K>) -> (Pass<K>, Pass<K>)
        requires { pass.turn ≡ self.now.turn }
        ensures first { result.0 ≡ pass }
        ensures second { (result.1.turn ≡ self.now.turn) × IsNew pass.seen result.1 }
        ensures apart { result.1.number ≢ result.0.number }
    {
        self.turn.split(pass)
    }

    /// The same for a pass that stays where it is.
    pub fn fork(&self, pass: &mut Pass<K>) -> Pass<K>
        requires { pass.old.turn ≡ self.now.turn }
        ensures same { pass.new ≡ pass.old }
        ensures second { (result.turn ≡ self.now.turn) × IsNew pass.old.seen result }
        ensures apart { result.number ≢ pass.old.number }
    {
        self.turn.fork(pass)
    }

    /// Tells each of two passes what the other has seen.
    pub fn meet(&self, first: Pass<K>, second: Pass<K>) -> (Pass<K>, Pass<K>)
        requires { (first.turn ≡ self.now.turn) × (second.turn ≡ self.now.turn) }
        ensures first { SeesMore first result.0 × IsPrefix second.seen result.0.seen }
        ensures second { SeesMore second result.1 × IsPrefix first.seen result.1.seen }
        ensures apart { result.1.number ≢ result.0.number }
    {
        self.turn.meet(first, second)
    }

    /// Enters a leave or a submission, and gives its verdict.
    pub fn submit<R: Wait>(
        &self,
        rt: &R,
        alloc: Global,
        pass: Pass<K>,
        raw: Raw,
    ) -> (Pass<K>, Result<Verdict, LaneFault>)
        requires pass { pass.turn ≡ self.now.turn }
        requires fits { Fits raw }
        requires kind { IsLeaveOrSubmission raw }
        ensures { Grows pass result.0 (steps_of (entered_by raw) result.1) (Submits self.now.turn.fixed raw result.1) }
    {
        let mut held = self.turn.take_noted(rt, pass);
        let answer = held.value.submit(alloc, &raw);
        close_entered(held, raw, answer)
    }

    /// Enters a join, and gives its id and its message. The id is `c` and the number of the entry, counted from 0.
    pub fn join<R: Wait>(
        &self,
        rt: &R,
        alloc: Global,
        pass: Pass<K>,
        scopes: Scopes,
        detail: Json,
        moment: u64,
    ) -> (Pass<K>, Result<(ClientId, Message), LaneFault>)
        requires pass { pass.turn ≡ self.now.turn }
        requires fits { (n : ℕ) → n ≤ largest → Fits (Raw.Join (entry_name n) scopes detail moment) }
        ensures { Grows pass result.0 (steps_of (joined_as scopes detail moment) result.1) (Joins self.now.turn.fixed scopes detail moment result.1) }
    {
        let mut held = self.turn.take_noted(rt, pass);
        let answer = held.value.join(alloc, scopes, detail, moment);
        close_joined(held, answer)
    }

    /// Enters a leave for the first client in byte order of ids that was last heard of more than `silence` before this
    /// moment, and gives its id; None exactly where there is no such client.
    pub fn sweep<R: Wait>(
        &self,
        rt: &R,
        alloc: Global,
        pass: Pass<K>,
        moment: u64,
        silence: u64,
    ) -> (Pass<K>, Result<Option<ClientId>, LaneFault>)
        requires pass { pass.turn ≡ self.now.turn }
        requires moment { moment ≤ largest }
        ensures { (verdict : AVerdict) × Grows pass result.0 (steps_of (swept_as moment verdict) result.1) (Sweeps self.now.turn.fixed moment silence verdict result.1) }
    {
        let mut held = self.turn.take_noted(rt, pass);
        let answer = held.value.sweep(alloc, moment, silence);
        close_swept(held, answer)
    }

    /// The next messages of a cursor, at most so many, in an event of this document; none where there are none. A cursor beyond
    /// the last number gets none. Each message is printed once for all who collect it, as long as it is one of the last.
    pub fn collect<R: Wait>(
        &self,
        rt: &R,
        alloc: Global,
        pass: Pass<K>,
        cursor: &Cursor,
        most: u64,
    ) -> (Pass<K>, Result<Option<EventText>, DeltaFault>)
        requires pass { pass.turn ≡ self.now.turn }
        requires first { 0 < cursor.now.next }
        ensures event { IfOk result.1 (IsEventUnder self.now.name) }
        ensures does { Grows pass result.0 (range_steps result.1) (Collects gathered self.now.turn.fixed cursor.now.next most result.1) }
    {
        let mut held = self.turn.take_noted(rt, pass);
        let answer = held.value.collect(alloc, &self.name, cursor, most);
        close_read(held, answer)
    }

    /// How an act ends that enters nothing: a range of messages, a summary, or a connect that only reads. Its end is read out of
    /// the ledger of what the pass has seen behind it.
    pub fn look<R: Wait>(
        &self,
        rt: &R,
        alloc: Global,
        pass: Pass<K>,
        act: &Act,
    ) -> (Pass<K>, Result<ActEnd, DeltaFault>)
        requires pass { pass.turn ≡ self.now.turn }
        requires act { IsLook act.now }
        ensures { Grows pass result.0 (range_steps result.1) (Looks self.now.turn.fixed act.now result.1) }
    {
        let mut held = self.turn.take_noted(rt, pass);
        let answer = held.value.look(alloc, act);
        close_read(held, answer)
    }

    /// Stores a checkpoint, whose number it gives.
    pub fn checkpoint<R: Wait>(
        &self,
        rt: &R,
        alloc: Global,
        pass: Pass<K>,
    ) -> (Pass<K>, Result<u64, LaneFault>)
        requires { pass.turn ≡ self.now.turn }
        ensures { Grows pass result.0 (steps_of stored_by result.1) (Checkpoints self.now.turn.fixed result.1) }
    {
        let mut held = self.turn.take_noted(rt, pass);
        let answer = held.value.checkpoint(alloc);
        close_stored(held, answer)
    }

    /// Builds the lane's state anew from the checkpoint of this number and the log behind it.
    pub fn restart<R: Wait>(
        &self,
        rt: &R,
        alloc: Global,
        pass: Pass<K>,
        number: u64,
    ) -> (Pass<K>, Result<(), LaneFault>)
        requires { pass.turn ≡ self.now.turn }
        ensures { Grows pass result.0 (steps_of (restarted_by number) result.1) (Restarts self.now.turn.fixed number result.1) }
    {
        let mut held = self.turn.take_noted(rt, pass);
        let answer = held.value.restart(alloc, number);
        close_restarted(held, number, answer)
    }

    /// How many steps the document's list had at some moment of this call. It takes no turn, and no clause rests on it: who has
    /// nothing to do but to see new steps may look at it first. Takes no memory.
    pub fn hint(&self) -> u64 {
        self.turn.hint()
    }

    pub(crate) fn turn(&self) -> &Turn<Bench<K>>
        ensures { result.now ≡ self.now.turn }
    {
        &self.turn
    }

    /// Ends the door: its lane comes out of the turn, which is not passed on. It stands for a list that begins with all that the
    /// pass had seen.
    pub fn end<R: Wait>(self, rt: &R, pass: Pass<K>) -> Lane<K>
    where
        K: Drop,
        requires { pass.turn ≡ self.turn }
        ensures stands { (l : List AStep) × LaneStands result l }
        ensures seen { (l : List (ANumbered AStep)) × (IsPrefix pass.seen l × LaneStands result (entries l)) }
        ensures terms { terms_of result ≡ self.turn.fixed }
    {
        let Bench { lane, tail: _ } = self.turn.take(rt, pass).end();
        lane
    }
}
