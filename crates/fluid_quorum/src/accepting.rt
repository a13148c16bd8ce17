// The values of keys, and which proposals a minimum accepts.
ghost use Rattle.std.specs.Prelude.{◌≡◌, ◌<◌, ◌≤◌, ◌++◌, not, fold, filter, take, drop, length, option_to_list, None, IfSome, OnOk};
ghost use Rattle.std.specs.FinMap.{insert};
ghost use Rattle.std.specs.VecDeque.{deque_len, deque_capacity};
ghost use Rattle.fluid_quorum.specs.After.{is_due, with_accepted, with_member, without};
ghost use Rattle.fluid_quorum.specs.Lists.{AreRising};
ghost use Rattle.fluid_quorum.specs.Places.{table_at, AreOrdered, HasPlace, HavePlaces, KeepsPlaces};

use crate::places::{fill, make_place, take_out};
use crate::saying::Saying;
use fluid_json::{NoMemory, Text};
use fluid_table::Entry;
use fluid_types::{Accepted, Member, Proposal};
use std::alloc::Global;
use std::collections::{BTreeMap, VecDeque};

/// A key with its value.
#[derive(Drop)]
pub struct KeyValue {
    pub key: Text,
    pub accepted: Accepted,
}

impl Entry for KeyValue {
    type Value = Accepted;

    ghost key_of = { λ entry. entry.key };

    ghost value_of = { λ entry. entry.accepted };

    fn key(&self) -> &str {
        self.key.as_str()
    }
}

/// How many of the proposals, which stand in the order of their numbers, are due at this minimum.
pub(crate) fn due(pending: &VecDeque<Proposal>, minimum: u64) -> usize
    requires { AreRising pending.now.items }
    ensures due { take result pending.now.items ≡ filter (is_due minimum) pending.now.items }
    ensures rest { drop result pending.now.items ≡ filter (λ p. not (is_due minimum p)) pending.now.items }
    ensures bound { result ≤ length pending.now.items }
{
    pending.partition_point(|p| p.number <= minimum)
}

/// Accepts the first of the pending proposals, so many of them, with this approval number. Their keys have places, so it
/// takes no memory.
pub(crate) fn accept(
    values: &mut BTreeMap<String, Option<Accepted>>,
    pending: &mut VecDeque<Proposal>,
    due: usize,
    approval: u64,
)
    requires order { AreOrdered values.old }
    requires places { HavePlaces values.old pending.old.items }
    ensures order { AreOrdered values.new }
    ensures values { table_at values.new ≡ fold (with_accepted approval) (table_at values.old) (take due pending.old.items) }
    ensures pending { pending.new.items ≡ drop due pending.old.items }
    ensures places { HavePlaces values.new pending.new.items }
{
    for _index in 0..due {
        accept_first(values, pending, approval);
    }
}

fn accept_first(
    values: &mut BTreeMap<String, Option<Accepted>>,
    pending: &mut VecDeque<Proposal>,
    approval: u64,
)
    requires order { AreOrdered values.old }
    requires places { HavePlaces values.old pending.old.items }
    ensures order { AreOrdered values.new }
    ensures values { table_at values.new ≡ fold (with_accepted approval) (table_at values.old) (take 1 pending.old.items) }
    ensures pending { pending.new.items ≡ drop 1 pending.old.items }
    ensures places { HavePlaces values.new pending.new.items }
{
    let Some(proposal) = pending.pop_front() else {
        return;
    };
    let Proposal { number, key, value } = proposal;
    let accepted = Accepted {
        number,
        approval,
        value,
    };
    fill(values, key.as_str(), accepted);
}

/// Makes places for who joins and for the key of what is proposed. No value changes.
pub(crate) fn make_room(
    alloc: Global,
    members: &mut BTreeMap<String, Option<Member>>,
    values: &mut BTreeMap<String, Option<Accepted>>,
    said: &Saying,
) -> Result<(), NoMemory>
    requires members { AreOrdered members.old }
    requires values { AreOrdered values.old }
    ensures members { AreOrdered members.new × (table_at members.new ≡ table_at members.old) }
    ensures values { AreOrdered values.new × (table_at values.new ≡ table_at values.old) }
    ensures seat { OnOk result (IfSome said.now.member (λ m. HasPlace members.new m.id)) }
    ensures place { OnOk result (IfSome said.now.proposal (λ p. HasPlace values.new p.key)) }
    ensures kept { KeepsPlaces values.old values.new }
{
    if let Some(member) = &said.member {
        make_place(alloc, members, member.id.as_str())?;
    }
    if let Some(proposal) = &said.proposal {
        make_place(alloc, values, proposal.key.as_str())?;
    }
    Ok(())
}

/// Takes in what a message says. Who joins has a place and there is room for one more proposal, so it takes no memory.
pub(crate) fn enter(
    members: &mut BTreeMap<String, Option<Member>>,
    pending: &mut VecDeque<Proposal>,
    said: Saying,
)
    requires order { AreOrdered members.old }
    requires alone { IfSome said.member (λ _. said.leaver ≡ None) }
    requires seat { IfSome said.member (λ m. HasPlace members.old m.id) }
    requires room { deque_len pending.old < deque_capacity pending.old }
    ensures order { AreOrdered members.new }
    ensures members { table_at members.new ≡ with_member said.member (without said.leaver (table_at members.old)) }
    ensures pending { pending.new.items ≡ pending.old.items ++ option_to_list said.proposal }
{
    let Saying {
        member,
        leaver,
        proposal,
    } = said;
    dismiss(members, leaver);
    admit(members, member);
    propose(pending, proposal);
}

fn dismiss(members: &mut BTreeMap<String, Option<Member>>, leaver: Option<Text>)
    requires { AreOrdered members.old }
    ensures order { AreOrdered members.new }
    ensures members { table_at members.new ≡ without leaver (table_at members.old) }
    ensures idle { leaver ≡ None → members.new ≡ members.old }
{
    if let Some(id) = leaver {
        take_out(members, id.as_str());
    }
}

fn admit(members: &mut BTreeMap<String, Option<Member>>, member: Option<Member>)
    requires order { AreOrdered members.old }
    requires seat { IfSome member (λ m. HasPlace members.old m.id) }
    ensures order { AreOrdered members.new }
    ensures members { table_at members.new ≡ with_member member (table_at members.old) }
{
    if let Some(member) = member {
        seat(members, member);
    }
}

fn seat(members: &mut BTreeMap<String, Option<Member>>, member: Member)
    requires { HasPlace members.old member.id }
    ensures order { AreOrdered members.new }
    ensures members { table_at members.new ≡ insert (table_at members.old) member.id member }
{
    match members.get_mut(member.id.as_str()) {
        Some(place) => *place = Some(member),
        None => {}
    }
}

fn propose(pending: &mut VecDeque<Proposal>, proposal: Option<Proposal>)
    requires { deque_len pending.old < deque_capacity pending.old }
    ensures { pending.new.items ≡ pending.old.items ++ option_to_list proposal }
{
    if let Some(proposal) = proposal {
        pending.push_back(proposal).unwrap();
    }
}
