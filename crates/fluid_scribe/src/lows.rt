// The references that are less than or equal to all behind them, in the order of the messages: the first is the least of all.
// A message that is put at the end, or taken from the front, costs a constant on the average.
ghost use Rattle.std.specs.Prelude.{◌≡◌, ◌+◌, ◌≤◌, ◌<◌, ◌++◌, ◌∷◌, [], List, IsTrue, OnOk};
ghost use Rattle.std.specs.VecDeque.{deque_len, deque_capacity};
ghost use Rattle.fluid_types.specs.declared.messages.Message.{Message as AMessage};
ghost use Rattle.fluid_scribe.specs.Waiting.{IsOf, least_low, without_first, cut};

use crate::reading::reference_of;
use fluid_json::NoMemory;
use fluid_types::Message;
use std::alloc::Global;
use std::collections::VecDeque;

#[derive(Drop)]
pub(crate) struct Lows {
    pub(crate) list: VecDeque<u64>,
    /// The number of the last message.
    pub(crate) newest: u64,
}

impl Lows {
    /// Those of no messages.
    pub(crate) fn new(alloc: Global) -> Lows
        ensures { IsOf [] result }
    {
        Lows {
            list: VecDeque::new(alloc),
            newest: 0,
        }
    }

    /// Makes room for those of so many messages.
    pub(crate) fn reserve(&mut self, count: usize) -> Result<(), NoMemory>
        ensures same { (self.new.list.items ≡ self.old.list.items) × (self.new.newest ≡ self.old.newest) }
        ensures grown { deque_capacity self.old.list ≤ deque_capacity self.new.list }
        ensures room { OnOk result (count ≤ deque_capacity self.new.list) }
    {
        let missing = count.saturating_sub(self.list.len());
        self.list.reserve(missing)?;
        Ok(())
    }

    /// The lesser of a number and the first of them.
    pub(crate) fn least(&self, number: u64) -> u64
        ensures { result ≡ least_low number self.now.list.items }
    {
        match self.list.front() {
            Some(low) => number.min(*low),
            None => number,
        }
    }

    /// Those without the first of the messages, which has this reference.
    pub(crate) fn pop(&mut self, reference: u64)
        ensures list { self.new.list.items ≡ without_first reference self.old.list.items }
        ensures newest { self.new.newest ≡ self.old.newest }
        ensures capacity { deque_capacity self.new.list ≡ deque_capacity self.old.list }
    {
        let Some(low) = self.list.front() else {
            return;
        };
        if reference != *low {
            return;
        }
        self.list.pop_front();
    }

    /// Those with one more message. Where its number isn't above the others', false is answered.
    pub(crate) fn push(&mut self, message: &Message) -> bool
        requires { deque_len self.old.list < deque_capacity self.old.list }
        ensures pushed { (ms : List AMessage) → IsOf ms self.old → IsTrue result → IsOf (ms ++ message.now ∷ []) self.new }
        ensures len { deque_len self.new.list ≤ deque_len self.old.list + 1 }
        ensures capacity { deque_capacity self.new.list ≡ deque_capacity self.old.list }
    {
        if message.number <= self.newest {
            return false;
        }
        let reference = reference_of(message);
        drop_above(&mut self.list, reference);
        self.list.push_back_reserved(reference);
        self.newest = message.number;
        true
    }

    /// Those of these messages, in place of what it has. Where their numbers don't rise, false is answered.
    pub(crate) fn read(&mut self, messages: &VecDeque<Message>) -> bool
        requires { deque_len messages.now ≤ deque_capacity self.old.list }
        ensures read { IsTrue result → IsOf messages.now.items self.new }
        ensures capacity { deque_capacity self.new.list ≡ deque_capacity self.old.list }
    {
        self.list.clear();
        self.newest = 0;
        for index in 0..messages.len() {
            if !self.push(&messages[index]) {
                return false;
            }
        }
        true
    }
}

// Takes those away from the end that are above this reference.
fn drop_above(list: &mut VecDeque<u64>, reference: u64)
    ensures list { list.new.items ≡ cut reference list.old.items }
    ensures len { deque_len list.new ≤ deque_len list.old }
    ensures capacity { deque_capacity list.new ≡ deque_capacity list.old }
{
    for _index in 0..list.len() {
        let Some(low) = list.back() else {
            return;
        };
        if *low <= reference {
            return;
        }
        list.pop_back();
    }
}
