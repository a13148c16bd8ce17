// What is kept of an order for its quorums: the one at a base, and what stands behind it.
ghost use Rattle.std.specs.Prelude.{◌≡◌, ◌+◌, ◌-◌, ◌<◌, ◌≤◌, ◌++◌, ◌∷◌, [], drop, length, option_to_list, None, if◌then◌else◌, ◌==◌, IfOk, OnOk, OnErr};
ghost use Rattle.std.specs.VecDeque.{deque_len, deque_capacity};
ghost use Rattle.fluid_scribe.specs.State.{with_next, risen, reached, brought};
ghost use Rattle.fluid_scribe.specs.Tails.{kept, seen, last_minimum, IsBrought, IsPast, IsReached};

use fluid_json::NoMemory;
use fluid_quorum::{Minima, Quorum};
use fluid_types::{Message, Messages};
use std::alloc::Global;
use std::collections::VecDeque;

/// The quorum at a base, and behind it the messages that a quorum hears and the changes of the minimum.
#[derive(Drop)]
pub(crate) struct Tail {
    pub(crate) base: Quorum,
    pub(crate) behind: VecDeque<Message>,
    pub(crate) minima: VecDeque<(u64, u64)>,
    /// The number to which the base is still to be brought.
    pub(crate) due: Option<u64>,
}

/// Its parts as lists.
#[derive(Drop)]
pub(crate) struct Parts {
    pub(crate) base: Quorum,
    pub(crate) behind: Messages,
    pub(crate) minima: Minima,
}

/// How many of the messages and of the changes behind a base a quorum has.
#[derive(Clone, Copy)]
pub(crate) struct Place {
    pub(crate) messages: usize,
    pub(crate) changes: usize,
}

impl Place {
    pub(crate) const START: Place = Place {
        messages: 0,
        changes: 0,
    };
}

impl Tail {
    /// Brings the base to where it is to be.
    pub(crate) fn settle(&mut self, alloc: Global) -> Result<(), NoMemory>
        ensures same { seen self.new ≡ seen self.old }
        ensures settled { OnOk result (self.new.due ≡ None) }
        ensures unless { self.old.due ≡ None → self.new ≡ self.old }
    {
        let Some(number) = self.due else {
            return Ok(());
        };
        let mut place = Place::START;
        let brought = bring(
            alloc,
            &mut self.base,
            &self.behind,
            &self.minima,
            number,
            &mut place,
        );
        drop_prefix(&mut self.behind, place.messages);
        drop_prefix(&mut self.minima, place.changes);
        brought?;
        self.due = None;
        Ok(())
    }

    /// The quorum behind the base at a number.
    pub(crate) fn quorum_at(&self, alloc: Global, number: u64) -> Result<Quorum, NoMemory>
        ensures { IfOk result (λ q. q ≡ (brought number self.now.base self.now.behind.items self.now.minima.items).quorum) }
    {
        let mut quorum = self.base.copy(alloc)?;
        let mut place = Place::START;
        bring(
            alloc,
            &mut quorum,
            &self.behind,
            &self.minima,
            number,
            &mut place,
        )?;
        Ok(quorum)
    }

    /// The minimum of the last message.
    pub(crate) fn minimum(&self) -> u64
        ensures { result ≡ last_minimum (kept self.now) }
    {
        match self.minima.back() {
            Some(change) => change.1,
            None => self.base.minimum(),
        }
    }

    /// Makes room for one more message.
    pub(crate) fn reserve(&mut self) -> Result<(), NoMemory>
        ensures same { (kept self.new ≡ kept self.old) × (self.new.due ≡ self.old.due) }
        ensures behind { deque_capacity self.old.behind - deque_len self.old.behind ≤ deque_capacity self.new.behind - deque_len self.new.behind }
        ensures minima { deque_capacity self.old.minima - deque_len self.old.minima ≤ deque_capacity self.new.minima - deque_len self.new.minima }
        ensures room { OnOk result ((0 < deque_capacity self.new.behind - deque_len self.new.behind) × (0 < deque_capacity self.new.minima - deque_len self.new.minima)) }
    {
        self.behind.reserve(1)?;
        self.minima.reserve(1)?;
        Ok(())
    }

    /// Puts a message at the end, of which a quorum hears this. It needs room, and takes no memory.
    pub(crate) fn push(&mut self, number: u64, minimum: u64, heard: Option<Message>)
        requires behind { deque_len self.old.behind < deque_capacity self.old.behind }
        requires minima { deque_len self.old.minima < deque_capacity self.old.minima }
        ensures base { self.new.base ≡ self.old.base }
        ensures behind { self.new.behind.items ≡ self.old.behind.items ++ option_to_list heard }
        ensures minima { self.new.minima.items ≡ self.old.minima.items ++ (if minimum == last_minimum (kept self.old) then [] else (number, minimum) ∷ []) }
        ensures due { self.new.due ≡ self.old.due }
    {
        let last = self.minimum();
        push_change(&mut self.minima, last, number, minimum);
        push_heard(&mut self.behind, heard);
    }

    /// Its parts once more, with the base where it is to be.
    pub(crate) fn parts(&self, alloc: Global) -> Result<Parts, NoMemory>
        ensures { IfOk result (λ parts. record { quorum = parts.base; behind = parts.behind; minima = parts.minima } ≡ seen self.now) }
    {
        let mut base = self.base.copy(alloc)?;
        let place = self.bring_due(alloc, &mut base)?;
        let behind = copied_messages(alloc, &self.behind, place.messages)?;
        let minima = copied_changes(alloc, &self.minima, place.changes)?;
        Ok(Parts {
            base,
            behind: Messages::new(behind),
            minima: Minima::new(minima),
        })
    }

    // Brings a copy of the base to where it is to be.
    fn bring_due(&self, alloc: Global, base: &mut Quorum) -> Result<Place, NoMemory>
        requires { base.old ≡ self.now.base }
        ensures { IfOk result (λ place. record {
          quorum = base.new;
          behind = drop place.messages self.now.behind.items;
          minima = drop place.changes self.now.minima.items;
        } ≡ seen self.now) }
    {
        let mut place = Place::START;
        let Some(number) = self.due else {
            return Ok(place);
        };
        bring(alloc, base, &self.behind, &self.minima, number, &mut place)?;
        Ok(place)
    }
}

// Takes into a quorum what is kept up to a number, from a place on.
fn bring(
    alloc: Global,
    quorum: &mut Quorum,
    behind: &VecDeque<Message>,
    minima: &VecDeque<(u64, u64)>,
    number: u64,
    place: &mut Place,
) -> Result<(), NoMemory>
    ensures done { OnOk result (IsBrought number behind.now.items minima.now.items quorum.old place.old quorum.new place.new) }
    ensures way { OnErr result (brought number quorum.new (drop place.new.messages behind.now.items) (drop place.new.changes minima.now.items)
        ≡ brought number quorum.old (drop place.old.messages behind.now.items) (drop place.old.changes minima.now.items)) }
{
    take_all(alloc, quorum, behind, minima, number, place)?;
    reach(quorum, minima, number, &mut place.changes)
}

// Takes in the messages up to a number, and the changes of the minimum before each.
fn take_all(
    alloc: Global,
    quorum: &mut Quorum,
    behind: &VecDeque<Message>,
    minima: &VecDeque<(u64, u64)>,
    number: u64,
    place: &mut Place,
) -> Result<(), NoMemory>
    ensures done { OnOk result (IsPast number (drop place.new.messages behind.now.items)) }
    ensures way { brought number quorum.new (drop place.new.messages behind.now.items) (drop place.new.changes minima.now.items)
        ≡ brought number quorum.old (drop place.old.messages behind.now.items) (drop place.old.changes minima.now.items) }
{
    for index in place.messages..behind.len() {
        let message = &behind[index];
        if message.number > number {
            return Ok(());
        }
        take(alloc, quorum, message, minima, &mut place.changes)?;
        place.messages = index + 1;
    }
    Ok(())
}

// Takes in the changes of the minimum before a message, and the message.
fn take(
    alloc: Global,
    quorum: &mut Quorum,
    message: &Message,
    minima: &VecDeque<(u64, u64)>,
    changes: &mut usize,
) -> Result<(), NoMemory>
    ensures done { OnOk result (IsReached (message.now.number - 1) minima.now.items quorum.old changes.old (λ q. with_next q message.now) quorum.new changes.new) }
    ensures way { OnErr result (reached (message.now.number - 1) quorum.new (drop changes.new minima.now.items)
        ≡ reached (message.now.number - 1) quorum.old (drop changes.old minima.now.items)) }
{
    reach(quorum, minima, message.number.saturating_sub(1), changes)?;
    take_next(alloc, quorum, message)
}

// Takes in the changes of the minimum up to a number, and the messages up to it.
fn reach(
    quorum: &mut Quorum,
    minima: &VecDeque<(u64, u64)>,
    number: u64,
    changes: &mut usize,
) -> Result<(), NoMemory>
    ensures done { OnOk result (IsReached number minima.now.items quorum.old changes.old (λ q. q) quorum.new changes.new) }
    ensures way { OnErr result (reached number quorum.new (drop changes.new minima.now.items)
        ≡ reached number quorum.old (drop changes.old minima.now.items)) }
{
    rise(quorum, minima, number, changes)?;
    let minimum = quorum.minimum();
    quorum.advance(number, minimum)
}

// Takes in the changes of the minimum up to a number.
fn rise(
    quorum: &mut Quorum,
    minima: &VecDeque<(u64, u64)>,
    number: u64,
    changes: &mut usize,
) -> Result<(), NoMemory>
    ensures done { OnOk result (risen number quorum.new (drop changes.new minima.now.items)
        ≡ record { quorum = quorum.new; minima = drop changes.new minima.now.items }) }
    ensures way { risen number quorum.new (drop changes.new minima.now.items)
        ≡ risen number quorum.old (drop changes.old minima.now.items) }
{
    for index in *changes..minima.len() {
        let (at, minimum) = minima[index];
        if at > number {
            return Ok(());
        }
        quorum.advance(at, minimum)?;
        *changes = index + 1;
    }
    Ok(())
}

// Takes a message in where it has the next number, and leaves it out where it hasn't.
fn take_next(alloc: Global, quorum: &mut Quorum, message: &Message) -> Result<(), NoMemory>
    ensures next { OnOk result (quorum.new ≡ with_next quorum.old message.now) }
    ensures unchanged { OnErr result (quorum.new ≡ quorum.old) }
{
    let last = quorum.number();
    if message.number <= last {
        return Ok(());
    }
    if message.number - last != 1 {
        return Ok(());
    }
    quorum.apply(alloc, message)
}

// Takes the first of a queue away, so many of them.
fn drop_prefix<T: Drop>(queue: &mut VecDeque<T>, count: usize)
    ensures { queue.new.items ≡ drop count queue.old.items }
{
    for _index in 0..count {
        queue.pop_front();
    }
}

fn push_change(minima: &mut VecDeque<(u64, u64)>, last: u64, number: u64, minimum: u64)
    requires { deque_len minima.old < deque_capacity minima.old }
    ensures { minima.new.items ≡ minima.old.items ++ (if minimum == last then [] else (number, minimum) ∷ []) }
{
    if minimum != last {
        minima.push_back((number, minimum)).unwrap();
    }
}

fn push_heard(behind: &mut VecDeque<Message>, heard: Option<Message>)
    requires { deque_len behind.old < deque_capacity behind.old }
    ensures { behind.new.items ≡ behind.old.items ++ option_to_list heard }
{
    if let Some(message) = heard {
        behind.push_back(message).unwrap();
    }
}

/// The messages from a place on, once more.
pub(crate) fn copied_messages(
    alloc: Global,
    messages: &VecDeque<Message>,
    from: usize,
) -> Result<Vec<Message>, NoMemory>
    ensures { IfOk result (λ copies. copies.items ≡ drop from messages.now.items) }
{
    let mut copies = Vec::new(alloc);
    for index in from..messages.len() {
        let copy = messages[index].copy(alloc)?;
        copies.push(copy)?;
    }
    Ok(copies)
}

fn copied_changes(
    alloc: Global,
    minima: &VecDeque<(u64, u64)>,
    from: usize,
) -> Result<Vec<(u64, u64)>, NoMemory>
    ensures { IfOk result (λ copies. copies.items ≡ drop from minima.now.items) }
{
    let mut copies = Vec::new(alloc);
    for index in from..minima.len() {
        copies.push(minima[index])?;
    }
    Ok(copies)
}
