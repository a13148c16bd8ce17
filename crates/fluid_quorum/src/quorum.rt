// The quorum, and how it takes a message.
ghost use Rattle.std.specs.Prelude.{◌≡◌, ◌+◌, [], ◌∷◌, ◌++◌, List, Some, IfOk, OnOk, OnErr, map, option_copied};
ghost use Rattle.std.specs.FinMap.{empty, get, values};
ghost use Rattle.fluid_types.specs.declared.messages.Message.{Message as AMessage};
ghost use Rattle.fluid_quorum.specs.After.{after};
ghost use Rattle.fluid_quorum.specs.Noops.{noops_to, advanced};
ghost use Rattle.fluid_quorum.specs.Order.{StandsFor};

use crate::accepting::{accept, due, enter, make_room};
use crate::places::{copy_places, list_values, look_up};
use crate::saying::hear;
use fluid_json::NoMemory;
use fluid_types::{Accepted, Member, Message, Proposal};
use std::alloc::Global;
use std::collections::{BTreeMap, VecDeque};
use std::marker::Model;

/// The quorum of the first messages of an order.
#[derive(Drop)]
pub struct Quorum {
    pub(crate) number: u64,
    pub(crate) minimum: u64,
    pub(crate) members: BTreeMap<String, Option<Member>>,
    pub(crate) pending: VecDeque<Proposal>,
    // The key of each pending proposal has a place.
    pub(crate) values: BTreeMap<String, Option<Accepted>>,
}

impl Model for Quorum {
    ghost use Rattle.fluid_types.specs.Quorum.{Quorum as AQuorum};
    ghost use Rattle.fluid_quorum.specs.Codes.{quorum_code};
    ghost use Rattle.fluid_quorum.specs.Lists.{AreRising, AreUpTo};
    ghost use Rattle.fluid_quorum.specs.Places.{table_at, AreOrdered, HavePlaces};

    ghost Value = { AQuorum };

    ghost coded = { quorum_code };

    ghost view = { λ q. record { number = q.number; minimum = q.minimum; members = table_at q.members; pending = q.pending.items; values = table_at q.values } };

    ghost invariant = { λ q. AreOrdered q.members × (AreOrdered q.values × (HavePlaces q.values q.pending.items × (AreRising q.pending.items × AreUpTo q.number q.pending.items))) };
}

impl Quorum {
    /// The quorum of no messages. Takes no memory.
    pub fn new(alloc: Global) -> Quorum
        ensures { StandsFor [] result }
    {
        Quorum {
            number: 0,
            minimum: 0,
            members: BTreeMap::new(alloc),
            pending: VecDeque::new(alloc),
            values: BTreeMap::new(alloc),
        }
    }

    /// Takes the next message of the order in. After `NoMemory` the quorum is as it was.
    pub fn apply(&mut self, alloc: Global, message: &Message) -> Result<(), NoMemory>
        requires { message.now.number ≡ self.old.number + 1 }
        ensures stands { (ms : List AMessage) → StandsFor ms self.old → OnOk result (StandsFor (ms ++ message.now ∷ []) self.new) }
        ensures after { OnOk result (self.new ≡ after self.old message.now) }
        ensures unchanged { OnErr result (self.new ≡ self.old) }
    {
        let said = hear(alloc, message)?;
        self.pending.reserve(1)?;
        make_room(alloc, &mut self.members, &mut self.values, &said)?;
        enter(&mut self.members, &mut self.pending, said);
        let accepted = due(&self.pending, message.minimum);
        accept(
            &mut self.values,
            &mut self.pending,
            accepted,
            message.number,
        );
        self.number = message.number;
        self.minimum = message.minimum;
        Ok(())
    }

    /// Takes in what noop messages up to a number would say, all with the present minimum but the last, which has this one.
    /// Nothing changes where the number isn't above the present one, or the minimum is below it. After `NoMemory` the quorum is
    /// as it was.
    pub fn advance(&mut self, number: u64, minimum: u64) -> Result<(), NoMemory>
        ensures stands { (ms : List AMessage) → StandsFor ms self.old →
            OnOk result (StandsFor (ms ++ noops_to self.old number minimum) self.new) }
        ensures after { OnOk result (self.new ≡ advanced self.old number minimum) }
        ensures unchanged { OnErr result (self.new ≡ self.old) }
    {
        if number <= self.number {
            return Ok(());
        }
        if minimum < self.minimum {
            return Ok(());
        }
        // What is due already is accepted by the next message, and what only this minimum reaches by the last.
        let first = due(&self.pending, self.minimum);
        accept(&mut self.values, &mut self.pending, first, self.number + 1);
        let accepted = due(&self.pending, minimum);
        accept(&mut self.values, &mut self.pending, accepted, number);
        self.number = number;
        self.minimum = minimum;
        Ok(())
    }

    /// The number of the last message, 0 before the first.
    pub fn number(&self) -> u64
        ensures { result ≡ self.now.number }
    {
        self.number
    }

    /// The minimum of the last message, 0 before the first.
    pub fn minimum(&self) -> u64
        ensures { result ≡ self.now.minimum }
    {
        self.minimum
    }

    /// The members, in byte order of their ids.
    pub fn members(&self, alloc: Global) -> Result<Vec<&Member>, NoMemory>
        ensures { IfOk result (λ members. map (λ m. m.now) members.items ≡ values self.now.members) }
    {
        list_values(alloc, &self.members)
    }

    /// The member of an id; none where nobody of it is in.
    pub fn member(&self, id: &str) -> Option<&Member>
        ensures { option_copied result ≡ get self.now.members id.now }
    {
        look_up(&self.members, id)
    }

    /// The proposals that aren't accepted yet, in the order of their numbers.
    pub fn pending(&self) -> &VecDeque<Proposal>
        ensures { result.now.items ≡ self.now.pending }
    {
        &self.pending
    }

    /// The value of a key; none where no proposal of it was accepted.
    pub fn value(&self, key: &str) -> Option<&Accepted>
        ensures { option_copied result ≡ get self.now.values key.now }
    {
        look_up(&self.values, key)
    }

    /// The same quorum once more, with its own memory.
    pub fn copy(&self, alloc: Global) -> Result<Quorum, NoMemory>
        ensures { IfOk result (λ copy. copy ≡ self.now) }
    {
        let members = copy_places(alloc, &self.members)?;
        let pending = copy_proposals(alloc, &self.pending)?;
        let values = copy_places(alloc, &self.values)?;
        Ok(Quorum {
            number: self.number,
            minimum: self.minimum,
            members,
            pending,
            values,
        })
    }
}

fn copy_proposals(
    alloc: Global,
    proposals: &VecDeque<Proposal>,
) -> Result<VecDeque<Proposal>, NoMemory>
    ensures { IfOk result (λ copies. copies.items ≡ proposals.now.items) }
{
    let mut copies = VecDeque::new(alloc);
    for index in 0..proposals.len() {
        let copy = proposals[index].copy(alloc)?;
        copies.push_back(copy)?;
    }
    Ok(copies)
}
