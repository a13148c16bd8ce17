// The channels that stand, each under its address, with the number of the last edit that counted for it.
ghost use Rattle.std.specs.Prelude.{◌≡◌, ◌+◌, ◌-◌, ◌^◌, ◌<◌, ◌≤◌, Some, IsTrue, IfOk, OnOk, OnErr, length, map};
ghost use Rattle.std.specs.FinMap.{get};
ghost use Rattle.fluid_edits.specs.Forms.{address_of, is_in_range};
ghost use Rattle.fluid_edits.specs.Replay.{kind_of, fresh, told_map, told_counter, told_attach, told, replay_edits};
ghost use Rattle.fluid_runtime.specs.Slots.{each, settled_slot, settled_object, channel_of, channel_of_object, channels_of, IsQuiet, IsSound, IsToldSlot, IsTold};

use fluid_counter::{CounterOp, SharedCounter};
use fluid_edits::{ChannelKind, Edit, is_in_range};
use fluid_json::{NoMemory, Text};
use fluid_map::{MapOp, SharedMap};
use fluid_table::SortedMap;
use fluid_types::Address;
use std::alloc::Global;

/// The object of a channel, with nothing pending in it.
#[derive(Drop)]
pub(crate) enum Object {
    Map(SharedMap),
    Counter(SharedCounter),
}

/// A channel, and the number of the last edit that counted for it.
#[derive(Drop)]
pub(crate) struct Slot {
    pub(crate) object: Object,
    pub(crate) last: u128,
}

impl Object {
    /// The object of a channel as its attach makes it. Takes no memory.
    pub(crate) fn fresh(alloc: Global, kind: ChannelKind) -> Object
        ensures fresh { channel_of_object result ≡ fresh kind }
        ensures quiet { IsQuiet 0 result }
    {
        match kind {
            ChannelKind::Map => Object::Map(SharedMap::new(alloc)),
            ChannelKind::Counter => Object::Counter(SharedCounter::new(alloc)),
        }
    }

    pub(crate) fn kind(&self) -> ChannelKind
        ensures { result ≡ kind_of (channel_of_object self.now) }
    {
        match self {
            Object::Map(_) => ChannelKind::Map,
            Object::Counter(_) => ChannelKind::Counter,
        }
    }

    /// The same object once more, with its own memory.
    pub(crate) fn copy(&self, alloc: Global) -> Result<Object, NoMemory>
        ensures { IfOk result (λ copy. copy ≡ settled_object self.now) }
    {
        match self {
            Object::Map(map) => {
                let map = map.copy_acknowledged(alloc)?;
                Ok(Object::Map(map))
            }
            Object::Counter(counter) => Ok(Object::Counter(counter.copy_acknowledged(alloc))),
        }
    }
}

impl Slot {
    // What stands under an address while its channel is taken out.
    fn vacant(alloc: Global) -> Slot {
        Slot {
            object: Object::Counter(SharedCounter::new(alloc)),
            last: 0,
        }
    }
}

/// Takes in the edit of this number, which is the next. After `NoMemory` the channels are as they were.
pub(crate) fn take(
    alloc: Global,
    slots: &mut SortedMap<Text, Slot>,
    number: u128,
    edit: Edit,
) -> Result<(), NoMemory>
    requires sound { IsSound (number - 1) slots.old.values }
    requires room { (0 < number) × (number ≤ 2 ^ 66) }
    ensures told { OnOk result (IsTold number (address_of edit) slots.old.values slots.new.values
        (told edit (get (channels_of slots.old.values) (address_of edit)))) }
    ensures unchanged { OnErr result (slots.new.values ≡ slots.old.values) }
{
    match edit {
        Edit::Attach(address, kind) => attach(alloc, slots, number, &address, kind),
        Edit::Set(address, key, value) => {
            tell_map(alloc, slots, number, &address, MapOp::Set { key, value })
        }
        Edit::Delete(address, key) => {
            tell_map(alloc, slots, number, &address, MapOp::Delete { key })
        }
        Edit::Clear(address) => tell_map(alloc, slots, number, &address, MapOp::Clear),
        Edit::Increment(address, amount) => {
            tell_counter(alloc, slots, number, &address, amount);
            Ok(())
        }
    }
}

/// Takes in copies of edits, behind so many that were taken in before.
pub(crate) fn lay(
    alloc: Global,
    slots: &mut SortedMap<Text, Slot>,
    taken: u128,
    edits: &[Edit],
) -> Result<(), NoMemory>
    requires sound { IsSound taken slots.old.values }
    requires room { taken + length edits.now ≤ 2 ^ 66 }
    ensures sound { OnOk result (IsSound (taken + length edits.now) slots.new.values) }
    ensures channels { OnOk result (channels_of slots.new.values ≡ replay_edits (channels_of slots.old.values) edits.now) }
{
    let mut number = taken;
    for edit in edits {
        let edit = edit.copy(alloc)?;
        number += 1;
        take(alloc, slots, number, edit)?;
    }
    Ok(())
}

fn attach(
    alloc: Global,
    slots: &mut SortedMap<Text, Slot>,
    number: u128,
    address: &Address,
    kind: ChannelKind,
) -> Result<(), NoMemory>
    ensures told { OnOk result (IsTold number address.now slots.old.values slots.new.values
        (told_attach kind (get (channels_of slots.old.values) address.now))) }
    ensures unchanged { OnErr result (slots.new.values ≡ slots.old.values) }
{
    if slots.get(address.as_str()).is_some() {
        return Ok(());
    }
    let name = Text::copied(alloc, address.as_str())?;
    slots.reserve(1)?;
    let object = Object::fresh(alloc, kind);
    slots.insert(
        name,
        Slot {
            object,
            last: number,
        },
    );
    Ok(())
}

// ---- maps

fn tell_map(
    alloc: Global,
    slots: &mut SortedMap<Text, Slot>,
    number: u128,
    address: &Address,
    op: MapOp,
) -> Result<(), NoMemory>
    requires sound { IsSound (number - 1) slots.old.values }
    ensures told { OnOk result (IsTold number address.now slots.old.values slots.new.values
        (told_map op (get (channels_of slots.old.values) address.now))) }
    ensures unchanged { OnErr result (slots.new.values ≡ slots.old.values) }
{
    let Some(slot) = slots.replace(address.as_str(), Slot::vacant(alloc)) else {
        return Ok(());
    };
    let (slot, told) = map_told(slot, number, op);
    slots.replace(address.as_str(), slot);
    told
}

// A map that took the operation in. After `NoMemory` it is as it was.
fn map_told(slot: Slot, number: u128, op: MapOp) -> (Slot, Result<(), NoMemory>)
    ensures told { OnOk result.1 (IsToldSlot number (told_map op (Some (channel_of slot))) slot result.0) }
    ensures quiet { IsQuiet (number - 1) slot.object → IsQuiet number result.0.object }
    ensures unchanged { OnErr result.1 (result.0 ≡ slot) }
{
    let Slot { object, last } = slot;
    match object {
        Object::Map(map) => {
            let mut map = map;
            let told = map.take_over(op);
            let last = if told.is_ok() { number } else { last };
            let object = Object::Map(map);
            (Slot { object, last }, told)
        }
        Object::Counter(counter) => {
            let object = Object::Counter(counter);
            (Slot { object, last }, Ok(()))
        }
    }
}

// ---- counters

fn tell_counter(
    alloc: Global,
    slots: &mut SortedMap<Text, Slot>,
    number: u128,
    address: &Address,
    amount: i64,
)
    requires sound { IsSound (number - 1) slots.old.values }
    requires room { (0 < number) × (number ≤ 2 ^ 66) }
    ensures { IsTold number address.now slots.old.values slots.new.values
        (told_counter amount (get (channels_of slots.old.values) address.now)) }
{
    if !is_in_range(amount) {
        return;
    }
    let Some(slot) = slots.replace(address.as_str(), Slot::vacant(alloc)) else {
        return;
    };
    let slot = counter_told(slot, number, amount);
    slots.replace(address.as_str(), slot);
}

fn counter_told(slot: Slot, number: u128, amount: i64) -> Slot
    requires quiet { IsQuiet (number - 1) slot.object }
    requires room { (0 < number) × (number ≤ 2 ^ 66) }
    requires amount { IsTrue (is_in_range amount) }
    ensures told { IsToldSlot number (told_counter amount (Some (channel_of slot))) slot result }
    ensures quiet { IsQuiet number result.object }
{
    let Slot { object, last } = slot;
    match object {
        Object::Counter(counter) => {
            let mut counter = counter;
            let _ = counter.apply_remote(&CounterOp { amount });
            let object = Object::Counter(counter);
            Slot {
                object,
                last: number,
            }
        }
        Object::Map(map) => {
            let object = Object::Map(map);
            Slot { object, last }
        }
    }
}

// ---- copies

/// The same channels once more, with their own memory.
pub(crate) fn copy_slots(
    alloc: Global,
    slots: &SortedMap<Text, Slot>,
) -> Result<SortedMap<Text, Slot>, NoMemory>
    ensures { IfOk result (λ copy. copy.values ≡ each settled_slot slots.now.values) }
{
    let pairs = copy_pairs(alloc, slots.as_slice())?;
    Ok(SortedMap::of_sorted(pairs))
}

fn copy_pairs(alloc: Global, slots: &[(Text, Slot)]) -> Result<Vec<(Text, Slot)>, NoMemory>
    ensures { IfOk result (λ copies. copies.items ≡ map (λ e. (e.0, settled_slot e.1)) slots.now) }
{
    let mut copies = Vec::with_capacity(alloc, slots.len())?;
    for (address, slot) in slots {
        let address = address.copy(alloc)?;
        let object = slot.object.copy(alloc)?;
        let last = slot.last;
        copies.push((address, Slot { object, last }))?;
    }
    Ok(copies)
}
