//! The messages of an order in memory.
ghost use Rattle.std.specs.Prelude.{◌≡◌, ℕ, ◌+◌, ◌-◌, ◌<◌, ◌≤◌, ◌↔◌, List, [], ◌∷◌, ◌++◌, length, take, drop, max, get_or, IsTrue, IsSome, IfSome, slice_get, Some, IfOk, IfErr, OnOk, OnErr, All};
ghost use Rattle.fluid_io.specs.Causes.{Tells};
ghost use Rattle.fluid_types.specs.Order.{AreFirst};
ghost use Rattle.fluid_types.specs.declared.messages.Message.{Message};
ghost use Rattle.fluid_log.specs.Keeping.{Content};
ghost use Rattle.fluid_log.specs.Calls.{KeepsSame};
ghost use Rattle.fluid_deltas.specs.Pushed.{pushed, IsKeepable, IsFull, DropsPage, ArePartOf, StandIn, StandFor, slice};
ghost use Rattle.fluid_deltas.specs.Ranges.{IsFaultOf, IsNotBad, IsBadIn, IsAnswer, IsHeldAnswer, IsSlice, AreHeld, AreOnPage, AreNumbersOf, Reads, held_between, range_of};
ghost use Rattle.fluid_deltas.specs.Flushes.{lacking, lacking_up_to, PutsAll, Writes, AreAll};

use crate::DeltaFault;
use crate::kept::read_deltas;
use crate::pages::{PAGE, Pages, RESIDENT};
use crate::put::put;
use fluid_json::NoMemory;
use fluid_log::Keeper;
use fluid_types::Message;
use std::alloc::Global;
use std::marker::Model;

/// The messages of an order that were pushed: those in memory, in pages, and the first `before` ones, which are to be a
/// keeper's first deltas.
#[derive(Drop)]
pub struct Deltas {
    before: u64,
    pages: Pages,
    // the number of the last message
    last: u64,
}

impl Model for Deltas {
    ghost use Rattle.fluid_deltas.specs.Pushed.{Pushed, pushed_code, AreInOrder};

    ghost Value = { Pushed };

    ghost coded = { pushed_code };

    ghost view = { λ d. record { before = d.before; held = d.pages.messages; spare = d.pages.spare } };

    ghost invariant = { λ d. AreInOrder d.before d.last d.pages.messages };
}

impl Deltas {
    /// No message was pushed. Takes no memory.
    pub fn new(alloc: Global) -> Deltas
        ensures before { result.before ≡ 0 }
        ensures held { result.held ≡ [] }
        ensures part { (order : List Message) → AreFirst order → All IsKeepable order → ArePartOf result order }
        ensures stands { (content : Content) → content.deltas ≡ [] → StandFor result [] content }
    {
        Deltas {
            before: 0,
            pages: Pages::new(alloc),
            last: 0,
        }
    }

    /// How many messages were pushed.
    pub fn len(&self) -> u64
        ensures { result ≡ pushed self.now }
    {
        self.last
    }

    /// How many messages stand before those in memory.
    pub fn before(&self) -> u64
        ensures { result ≡ self.now.before }
    {
        self.before
    }

    /// How many messages are in memory.
    pub fn resident(&self) -> u64
        ensures count { result ≡ length self.now.held }
        ensures most { result ≤ RESIDENT }
    {
        self.pages.len() as u64
    }

    /// Whether the most pages are in memory, and all of them are full.
    pub fn full(&self) -> bool
        ensures full { IsTrue result ↔ IsFull self.now }
        ensures most { length self.now.held ≤ RESIDENT }
    {
        self.pages.len() == RESIDENT
    }

    /// Makes room for one more message.
    pub fn reserve(&mut self, alloc: Global) -> Result<(), NoMemory>
        requires { length self.old.held < RESIDENT }
        ensures before { self.new.before ≡ self.old.before }
        ensures held { self.new.held ≡ self.old.held }
        ensures room { OnOk result (0 < self.new.spare) }
        ensures spare { self.old.spare ≤ self.new.spare }
    {
        self.pages.reserve(alloc)
    }

    /// Takes the next message of the order. Takes no memory.
    pub fn push(&mut self, message: Message)
        requires room { 0 < self.old.spare }
        requires next { message.number ≡ pushed self.old + 1 }
        requires keepable { IsKeepable message }
        ensures before { self.new.before ≡ self.old.before }
        ensures held { self.new.held ≡ self.old.held ++ message ∷ [] }
        ensures spare { self.old.spare ≤ self.new.spare + 1 }
        ensures part { (order : List Message) → slice_get order (pushed self.old) ≡ Some message →
            ArePartOf self.old order → ArePartOf self.new order }
        ensures stands { (order : List Message) (content : Content) → StandFor self.old order content →
            StandFor self.new (order ++ message ∷ []) content }
    {
        self.last = message.number;
        self.pages.push(message);
    }

    /// Forgets what is in memory and begins behind the first `count` messages: a keeper's first deltas then count as
    /// pushed. Where the keeper has more of them, those behind are to be pushed next.
    pub fn resume(&mut self, count: u64)
        ensures before { self.new.before ≡ count }
        ensures held { self.new.held ≡ [] }
        ensures part { (order : List Message) → count ≤ length order → AreFirst order → All IsKeepable order →
            ArePartOf self.new order }
    {
        self.pages.clear();
        self.before = count;
        self.last = count;
    }

    /// The messages `from` up to, but without, `to`, where one page in memory has all of them; none where no page has.
    /// A range of nothing is in memory.
    pub fn held(&self, from: u64, to: u64) -> Option<&[Message]>
        ensures known { IsSome result ↔ AreOnPage self.now from to }
        ensures messages { IfSome result (λ messages. messages.now ≡ held_between self.now (from - 1) (to - 1)) }
        ensures slice { (order : List Message) → ArePartOf self.now order →
            IfSome result (λ messages. messages.now ≡ slice order from to) }
    {
        if to <= from {
            return Some(&[]);
        }
        if from <= self.before || self.last < to - 1 {
            return None;
        }
        self.pages.on_page(
            (from - 1 - self.before) as usize,
            (to - 1 - self.before) as usize,
        )
    }

    // The message in memory that stands in this place of the order, counted from 0.
    fn message(&self, place: u64) -> &Message
        requires behind { self.now.before ≤ place }
        requires pushed { place < pushed self.now }
        ensures is { result.now ≡ get_or self.now.held (place - self.now.before) result.now }
        ensures number { result.now.number ≡ place + 1 }
        ensures keepable { IsKeepable result.now }
    {
        self.pages.at((place - self.before) as usize)
    }

    // Puts the messages up to the first `end` ones that the keeper lacks.
    fn put_up_to<K: Keeper>(
        &self,
        alloc: Global,
        keeper: &mut K,
        end: u64,
    ) -> Result<(), DeltaFault>
        requires reached { self.now.before ≤ (K.seen keeper.old).deltas }
        requires pushed { end ≤ pushed self.now }
        ensures writes { Writes (K.seen keeper.old) (K.seen keeper.new) result }
        ensures puts { PutsAll (lacking_up_to self.now (K.seen keeper.old).deltas end) (K.seen keeper.old) (K.seen keeper.new) result }
        ensures more { (K.seen keeper.old).deltas ≤ (K.seen keeper.new).deltas }
        ensures reached { OnOk result (end ≤ (K.seen keeper.new).deltas) }
        ensures stands { (order : List Message) → Tells (K.seen keeper.old).content (StandIn self.now order) →
            Tells (K.seen keeper.new).content (StandIn self.now order) }
    {
        let kept = keeper.deltas();
        for place in kept..end {
            put(alloc, keeper, self.message(place))?;
        }
        Ok(())
    }

    /// Puts the messages that the keeper lacks. After a fault it may have put some of them, in order.
    pub fn flush<K: Keeper>(&mut self, alloc: Global, keeper: &mut K) -> Result<(), DeltaFault>
        requires { self.old.before ≤ (K.seen keeper.old).deltas }
        ensures same { self.new ≡ self.old }
        ensures writes { Writes (K.seen keeper.old) (K.seen keeper.new) result }
        ensures puts { PutsAll (lacking self.old (K.seen keeper.old).deltas) (K.seen keeper.old) (K.seen keeper.new) result }
        ensures stands { (order : List Message) → Tells (K.seen keeper.old).content (StandIn self.old order) →
            Tells (K.seen keeper.new).content (StandIn self.new order) }
        ensures whole { OnOk result ((order : List Message) → Tells (K.seen keeper.old).content (StandFor self.old order) →
            Tells (K.seen keeper.new).content (AreAll order)) }
    {
        self.put_up_to(alloc, keeper, self.last)
    }

    /// Drops the oldest page, behind putting those of its messages that the keeper lacks. After a fault the page is there
    /// still, and the keeper may have some of its messages more.
    pub fn make_room<K: Keeper>(&mut self, alloc: Global, keeper: &mut K) -> Result<(), DeltaFault>
        requires full { IsFull self.old }
        requires reached { self.old.before ≤ (K.seen keeper.old).deltas }
        ensures drops { OnOk result (DropsPage self.old self.new) }
        ensures same { OnErr result (self.new ≡ self.old) }
        ensures writes { Writes (K.seen keeper.old) (K.seen keeper.new) result }
        ensures puts { PutsAll (lacking_up_to self.old (K.seen keeper.old).deltas (self.old.before + PAGE)) (K.seen keeper.old) (K.seen keeper.new) result }
        ensures reached { self.new.before ≤ (K.seen keeper.new).deltas }
        ensures stands { (order : List Message) → Tells (K.seen keeper.old).content (StandIn self.old order) →
            Tells (K.seen keeper.new).content (StandIn self.new order) }
    {
        let end = self.before + PAGE as u64;
        self.put_up_to(alloc, keeper, end)?;
        self.pages.drop_first();
        self.before = end;
        Ok(())
    }

    /// The messages `from` up to, but without, `to`. Those that aren't in memory are read from the keeper; it isn't asked
    /// where all of them are. Each message is a copy.
    pub fn range<K: Keeper>(
        &mut self,
        alloc: Global,
        from: u64,
        to: u64,
        keeper: &mut K,
    ) -> Result<Vec<Message>, DeltaFault>
        requires first { 0 < from }
        requires ordered { from ≤ to }
        requires last { to ≤ pushed self.old + 1 }
        requires reached { self.old.before ≤ (K.seen keeper.old).deltas }
        ensures same { self.new ≡ self.old }
        ensures reads { Reads (λ v. v.items) from to self.old.before (K.seen keeper.old) (K.seen keeper.new) result }
        ensures answer { Tells (K.seen keeper.old).content (λ content. IsAnswer (λ v. v.items) result (range_of self.old content from to)) }
        ensures memory { AreHeld self.old from to → IsHeldAnswer (λ v. v.items) (held_between self.old (from - 1) (to - 1)) result }
        ensures untouched { AreHeld self.old from to → K.seen keeper.new ≡ K.seen keeper.old }
        ensures slice { (order : List Message) → Tells (K.seen keeper.old).content (λ content. StandIn self.old order content →
            IsSlice (λ v. v.items) (slice order from to) result) }
    {
        self.collect(alloc, from, to, keeper)
    }

    // The same, without the order that the messages are a slice of.
    fn collect<K: Keeper>(
        &self,
        alloc: Global,
        from: u64,
        to: u64,
        keeper: &mut K,
    ) -> Result<Vec<Message>, DeltaFault>
        requires first { 0 < from }
        requires ordered { from ≤ to }
        requires last { to ≤ pushed self.now + 1 }
        requires reached { self.now.before ≤ (K.seen keeper.old).deltas }
        ensures later { (K.seen keeper.old).faults ≤ (K.seen keeper.new).faults }
        ensures cause { IfErr result (IsFaultOf (K.seen keeper.old).faults (K.seen keeper.new).faults) }
        ensures reads { (K.seen keeper.new).reads ≡ (K.seen keeper.old).reads }
        ensures keeps { KeepsSame (K.seen keeper.old) (K.seen keeper.new) }
        ensures bad { IfErr result (IsBadIn from to self.now.before) }
        ensures numbers { IfOk result (λ messages. AreNumbersOf from to messages.items) }
        ensures answer { Tells (K.seen keeper.old).content (λ content. IsAnswer (λ v. v.items) result (range_of self.now content from to)) }
        ensures memory { AreHeld self.now from to → IsHeldAnswer (λ v. v.items) (held_between self.now (from - 1) (to - 1)) result }
        ensures untouched { AreHeld self.now from to → K.seen keeper.new ≡ K.seen keeper.old }
    {
        let (start, end) = (from - 1, to - 1);
        let mut messages = read_deltas(alloc, keeper, start, end.min(self.before))?;
        self.copy_between(alloc, &mut messages, start, end)?;
        Ok(messages)
    }

    // Puts copies of the messages in memory among those of the places from `start` up to `end` behind the others.
    fn copy_between(
        &self,
        alloc: Global,
        messages: &mut Vec<Message>,
        start: u64,
        end: u64,
    ) -> Result<(), NoMemory>
        requires { end ≤ pushed self.now }
        ensures { OnOk result (messages.new.items ≡ messages.old.items ++ held_between self.now start end) }
    {
        let first = start.max(self.before);
        for place in first..end {
            let copy = self.message(place).copy(alloc)?;
            messages.push(copy)?;
        }
        Ok(())
    }
}
