// The summarize messages that wait for an answer.
ghost use Rattle.std.specs.Prelude.{◌≡◌, ◌==◌, ◌<◌, ◌≤◌, ◌++◌, ◌∷◌, [], List, find, drop, slice_get, None, IfOk, OnOk, IsTrue, true, option_copied, option_to_list, vec_len, vec_capacity};
ghost use Rattle.std.specs.VecDeque.{deque_len, deque_capacity};
ghost use Rattle.fluid_types.specs.declared.messages.Message.{Message as AMessage};
ghost use Rattle.fluid_scribe.specs.State.{least_with};
ghost use Rattle.fluid_scribe.specs.Scribing.{unanswered_at, heard_in, summarize_in};
ghost use Rattle.fluid_scribe.specs.Waiting.{IsOf, StartsWith};

use crate::lows::Lows;
use crate::reading::reference_of;
use crate::tail::copied_messages;
use fluid_json::NoMemory;
use fluid_tree::SummaryRef;
use fluid_types::{Kind, Message, Messages};
use std::alloc::Global;
use std::collections::VecDeque;
use std::marker::Model;

/// The summarize messages that wait, oldest first. Orders that the rules make answer the first alone, and their numbers rise; then
/// no message costs more than a constant on the average. Of any others all are walked.
#[derive(Drop)]
pub(crate) struct Waiting {
    queue: VecDeque<Message>,
    lows: Lows,
    // Whether the numbers are known to rise, and `lows` to be those of the queue.
    known: bool,
}

impl Model for Waiting {
    ghost use Rattle.std.specs.Prelude.{◌≡◌, ℕ, ◌-◌, min, true, refl, List};
    ghost use Rattle.std.specs.VecDeque.{deque_len, deque_capacity};
    ghost use Rattle.std.specs.Coded.{code_by, coded×, coded_ℕ, coded_list};
    ghost use Rattle.fluid_types.specs.declared.messages.Message.{Message as AMessage};
    ghost use Rattle.fluid_types.specs.contracts.messages.Message as messages;
    ghost use Rattle.fluid_scribe.specs.Waiting.{Waits, IsOf};

    ghost Value = { Waits };

    ghost coded = { code_by (List AMessage × ℕ) (coded× (coded_list messages.the_row.coded) coded_ℕ) (λ w. (w.messages, w.spare)) (λ parts. record { messages = parts.0; spare = parts.1 }) (λ _. refl) };

    ghost view = { λ w. record {
      messages = w.queue.items;
      spare = min (deque_capacity w.queue - deque_len w.queue) (deque_capacity w.lows.list - deque_len w.queue);
    } };

    ghost invariant = { λ w. w.known ≡ true → IsOf w.queue.items w.lows };
}

impl Waiting {
    /// None.
    pub(crate) fn new(alloc: Global) -> Waiting
        ensures { result.messages ≡ [] }
    {
        Waiting {
            queue: VecDeque::new(alloc),
            lows: Lows::new(alloc),
            known: true,
        }
    }

    /// These. Takes no memory.
    pub(crate) fn of_messages(messages: Messages) -> Waiting
        ensures { result.messages ≡ messages }
    {
        let messages = messages.into_vec();
        let lows = Lows::new(*messages.allocator());
        Waiting {
            queue: VecDeque::from_vec(messages),
            lows,
            known: false,
        }
    }

    /// Makes room for one more.
    pub(crate) fn reserve(&mut self) -> Result<(), NoMemory>
        ensures same { self.new.messages ≡ self.old.messages }
        ensures spare { self.old.spare ≤ self.new.spare }
        ensures room { OnOk result (0 < self.new.spare) }
    {
        self.queue.reserve(1)?;
        self.lows.reserve(self.queue.capacity())?;
        self.known = is_of(self.known, &self.queue, &mut self.lows);
        Ok(())
    }

    /// Takes away those that were answered, and puts the new one at the end. It needs room, and takes no memory.
    pub(crate) fn take(&mut self, answered: Option<u64>, summarize: Option<Message>)
        requires { 0 < self.old.spare }
        ensures { self.new.messages ≡ unanswered_at answered self.old.messages ++ option_to_list summarize }
    {
        self.leave(answered);
        self.enter(summarize);
    }

    // Takes away the summarize messages with a number.
    fn leave(&mut self, answered: Option<u64>)
        ensures messages { self.new.messages ≡ unanswered_at answered self.old.messages }
        ensures spare { self.old.spare ≤ self.new.spare }
    {
        let Some(number) = answered else {
            return;
        };
        if self.known && starts_with(&self.queue, number) {
            pop(&mut self.queue, &mut self.lows);
            return;
        }
        self.queue.retain(|summarize| number != summarize.number);
        self.known = false;
    }

    // Puts one at the end.
    fn enter(&mut self, summarize: Option<Message>)
        requires { 0 < self.old.spare }
        ensures { self.new.messages ≡ self.old.messages ++ option_to_list summarize }
    {
        let Some(message) = summarize else {
            return;
        };
        self.known = push(self.known, &mut self.lows, &message);
        self.queue.push_back_reserved(message);
    }

    /// The least of a minimum and of their references.
    pub(crate) fn least(&self, minimum: u64) -> u64
        ensures { result ≡ least_with minimum self.now.messages }
    {
        if self.known {
            return self.lows.least(minimum);
        }
        least_of(&self.queue, minimum)
    }

    /// The oldest.
    pub(crate) fn first(&self) -> Option<&Message>
        ensures { option_copied result ≡ slice_get self.now.messages 0 }
    {
        self.queue.front()
    }

    /// The first that has this number.
    pub(crate) fn numbered(&self, number: u64) -> Option<&Message>
        ensures { option_copied result ≡ find (λ m. m.number == number) self.now.messages }
    {
        numbered(&self.queue, number)
    }

    /// The same messages once more, with their own memory.
    pub(crate) fn copied(&self, alloc: Global) -> Result<Vec<Message>, NoMemory>
        ensures { IfOk result (λ copies. copies.items ≡ self.now.messages) }
    {
        copied_messages(alloc, &self.queue, 0)
    }
}

// Whether the lows are those of these messages, now that they are read where that wasn't known.
fn is_of(known: bool, queue: &VecDeque<Message>, lows: &mut Lows) -> bool
    requires known { known ≡ true → IsOf queue.now.items lows.old }
    requires room { deque_len queue.now ≤ deque_capacity lows.old.list }
    ensures known { IsTrue result → IsOf queue.now.items lows.new }
    ensures capacity { deque_capacity lows.new.list ≡ deque_capacity lows.old.list }
{
    known || lows.read(queue)
}

fn starts_with(queue: &VecDeque<Message>, number: u64) -> bool
    ensures { IsTrue result → StartsWith number queue.now.items }
{
    match queue.front() {
        Some(first) => first.number == number,
        None => false,
    }
}

// Takes the first away.
fn pop(queue: &mut VecDeque<Message>, lows: &mut Lows)
    requires { IsOf queue.old.items lows.old }
    ensures known { IsOf queue.new.items lows.new }
    ensures rest { queue.new.items ≡ drop 1 queue.old.items }
    ensures len { deque_len queue.new ≤ deque_len queue.old }
    ensures capacity { (deque_capacity queue.new ≡ deque_capacity queue.old) × (deque_capacity lows.new.list ≡ deque_capacity lows.old.list) }
{
    if let Some(first) = queue.pop_front() {
        lows.pop(reference_of(&first));
    }
}

// Puts a message's reference at the end of the lows, and answers whether they are still those of all.
fn push(known: bool, lows: &mut Lows, message: &Message) -> bool
    requires { known ≡ true → deque_len lows.old.list < deque_capacity lows.old.list }
    ensures known { (ms : List AMessage) → (known ≡ true → IsOf ms lows.old) → IsTrue result → IsOf (ms ++ message.now ∷ []) lows.new }
    ensures capacity { deque_capacity lows.new.list ≡ deque_capacity lows.old.list }
{
    if !known {
        return false;
    }
    lows.push(message)
}

fn numbered(messages: &VecDeque<Message>, number: u64) -> Option<&Message>
    ensures { option_copied result ≡ find (λ m. m.number == number) messages.now.items }
{
    for index in 0..messages.len() {
        let message = &messages[index];
        if message.number == number {
            return Some(message);
        }
    }
    None
}

fn least_of(messages: &VecDeque<Message>, minimum: u64) -> u64
    ensures { result ≡ least_with minimum messages.now.items }
{
    let mut least = minimum;
    for index in 0..messages.len() {
        least = least.min(reference_of(&messages[index]));
    }
    least
}

/// A message that was kept, where a quorum hears it, and where it is a summarize.
pub(crate) fn sorted(kept: Option<Message>) -> (Option<Message>, Option<Message>)
    ensures heard { result.0 ≡ heard_in kept }
    ensures summarize { result.1 ≡ summarize_in kept }
{
    match kept {
        Some(message) if message.kind == Kind::Summarize => (None, Some(message)),
        Some(message) => (Some(message), None),
        None => (None, None),
    }
}

/// Adds one, where there is one and room for it.
pub(crate) fn add_one<T: Drop>(list: &mut Vec<T>, one: Option<T>)
    requires { vec_len list.old < vec_capacity list.old }
    ensures { list.new.items ≡ list.old.items ++ option_to_list one }
{
    if let Some(one) = one {
        list.push(one).unwrap();
    }
}

pub(crate) fn copied_acks(alloc: Global, acks: &[SummaryRef]) -> Result<Vec<SummaryRef>, NoMemory>
    ensures { IfOk result (λ copies. copies.items ≡ acks.now) }
{
    let mut copies = Vec::with_capacity(alloc, acks.len())?;
    for ack in acks {
        copies.push(*ack)?;
    }
    Ok(copies)
}
