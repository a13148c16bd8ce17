// A client's view of a shared map.
//
// Two things are kept: the acknowledged map, which an operation from elsewhere changes whatever is pending, and the
// client's own pending changes, which are laid over it. Each pending change may need a place in the acknowledged map,
// which is kept free for it.
ghost use Rattle.std.specs.Prelude.{◌≡◌, ℕ, ◌+◌, ◌<◌, ◌≤◌, ◌++◌, [], ◌∷◌, length, IfOk, OnOk, OnErr, List, option_map};
ghost use Rattle.std.specs.List.{All};
ghost use Rattle.std.specs.FinMap.{empty, get, values};
ghost use Rattle.fluid_json.specs.Tree.{depth};
ghost use Rattle.fluid_json.specs.Unless.{IsUnless};
ghost use Rattle.fluid_map.specs.Replay.{Values, StandsFor, after, replay, shown, value_behind};
ghost use Rattle.fluid_map.specs.Content.{content, answer, object_of};
ghost use Rattle.fluid_map.specs.declared.operation.MapOp.{MapOp};

use crate::operation::MapOp;
use crate::pending::Pending;
use crate::{content, copying};
use fluid_json::{Bytes, Json, NoMemory, Text};
use fluid_table::SortedMap;
use fluid_types::BlobFault;
use std::alloc::Global;
use std::marker::Model;

/// A map that many clients change, as one of them has it: what was acknowledged to be in the order, and its own
/// changes that are on their way.
#[derive(Drop)]
pub struct SharedMap {
    acknowledged: SortedMap<Text, Json>,
    pending: Pending,
}

impl Model for SharedMap {
    ghost use Rattle.std.specs.Prelude.{◌≤◌, length};
    ghost use Rattle.fluid_map.specs.Replay.{Shared};
    ghost use Rattle.fluid_map.specs.Codes.{shared_code};

    ghost Value = { Shared };

    ghost coded = { shared_code };

    ghost view = { λ m. record { acknowledged = m.acknowledged.values; pending = m.pending } };

    ghost invariant = { λ m. length m.pending ≤ m.acknowledged.spare };
}

impl SharedMap {
    /// A map without keys. Takes no memory.
    pub fn new(alloc: Global) -> SharedMap
        ensures fresh { result ≡ record { acknowledged = empty; pending = [] } }
        ensures stands { StandsFor empty [] result }
    {
        SharedMap {
            acknowledged: SortedMap::new(alloc),
            pending: Pending::new(alloc),
        }
    }

    /// Takes in an operation of another client, which is the next in the order. It takes one search and one copy of the
    /// operation, whatever is pending. After `NoMemory` the map is as it was.
    pub fn apply_remote(&mut self, alloc: Global, op: &MapOp) -> Result<(), NoMemory>
        ensures applied { OnOk result (self.new ≡ record self.old { acknowledged = after self.old.acknowledged op.now }) }
        ensures stands { OnOk result ((values : Values) (ops : List MapOp) → StandsFor values ops self.old →
            StandsFor values (ops ++ op.now ∷ []) self.new) }
        ensures unchanged { OnErr result (self.new ≡ self.old) }
    {
        match op {
            MapOp::Set { key, value } => {
                let key = key.copy(alloc)?;
                let value = value.copy(alloc)?;
                self.acknowledged.reserve(self.pending.len() + 1)?;
                self.acknowledged.insert(key, value);
            }
            MapOp::Delete { key } => {
                self.acknowledged.remove(key.as_str());
            }
            MapOp::Clear => self.acknowledged.clear(),
        }
        Ok(())
    }

    /// Makes a change of this client's own, which is shown from now on and pending until it is acknowledged. After
    /// `NoMemory` the map is as it was.
    pub fn apply_local(&mut self, alloc: Global, op: &MapOp) -> Result<(), NoMemory>
        ensures applied { OnOk result (self.new ≡ record self.old { pending = self.old.pending ++ op.now ∷ [] }) }
        ensures stands { (values : Values) (ops : List MapOp) → StandsFor values ops self.old → StandsFor values ops self.new }
        ensures unchanged { OnErr result (self.new ≡ self.old) }
    {
        self.acknowledged.reserve(self.pending.len() + 1)?;
        self.pending.push(alloc, op)?;
        Ok(())
    }

    /// How many changes of this client's own are on their way.
    pub fn pending(&self) -> usize
        ensures { result ≡ length self.now.pending }
    {
        self.pending.len()
    }

    /// The oldest pending change has come back: it is the next in the order. What is shown stays. Takes no memory.
    pub fn acknowledge(&mut self)
        requires { 0 < length self.old.pending }
        ensures applied { (op : MapOp) (rest : List MapOp) → self.old.pending ≡ op ∷ rest →
            self.new ≡ record { acknowledged = after self.old.acknowledged op; pending = rest } }
        ensures stands { (values : Values) (ops : List MapOp) (op : MapOp) (rest : List MapOp) → self.old.pending ≡ op ∷ rest →
            StandsFor values ops self.old → StandsFor values (ops ++ op ∷ []) self.new }
        ensures shown { (key : List ℕ) → shown self.new key ≡ shown self.old key }
    {
        let op = self.pending.pop();
        take_in(&mut self.acknowledged, op);
    }

    /// The value that is shown under a key; none where the key has none. Takes one or two searches and no memory.
    pub fn value(&self, key: &str) -> Option<&Json>
        ensures shown { option_map (λ value. value.now) result ≡ shown self.now key.now }
        ensures stands { (values : Values) (ops : List MapOp) → StandsFor values ops self.now →
            option_map (λ value. value.now) result ≡ value_behind key.now (ops ++ self.now.pending) (get values key.now) }
    {
        match self.pending.word(key) {
            Some(value) => value,
            None => self.acknowledged.get(key),
        }
    }

    /// The text of the acknowledged map, without the pending changes. It is read back where each value is at most
    /// 99 deep.
    pub fn to_blob(&self, alloc: Global) -> Result<Bytes, NoMemory>
        ensures content { IfOk result (λ blob. blob ≡ content self.now.acknowledged) }
        ensures stands { (values : Values) (ops : List MapOp) → StandsFor values ops self.now →
            IfOk result (λ blob. blob ≡ content (replay values ops)) }
        ensures reads_back { IfOk result (λ blob. All (λ value. depth value ≤ 99) (values self.now.acknowledged) →
            answer blob ≡ Ok (record { acknowledged = self.now.acknowledged; pending = [] })) }
    {
        content::print(alloc, &self.acknowledged)
    }

    /// The map of such a text, with nothing pending. Any other text is refused by the fault of the blob `content`. The
    /// text isn't kept.
    pub fn from_blob(alloc: Global, blob: &[u8]) -> Result<SharedMap, BlobFault>
        ensures answer { IsUnless BlobFault.NoMemory result (answer blob.now) }
        ensures only { IfOk result (λ map. (blob.now ≡ content map.acknowledged) × (map.pending ≡ [])) }
        ensures stands { IfOk result (λ map. StandsFor map.acknowledged [] map) }
    {
        let acknowledged = content::read(alloc, blob)?;
        Ok(SharedMap {
            acknowledged,
            pending: Pending::new(alloc),
        })
    }

    /// Takes in an operation that is the next in the order, and keeps its key and its value: it copies nothing. After
    /// `NoMemory` the map is as it was.
    pub fn take_over(&mut self, op: MapOp) -> Result<(), NoMemory>
        ensures applied { OnOk result (self.new ≡ record self.old { acknowledged = after self.old.acknowledged op }) }
        ensures unchanged { OnErr result (self.new ≡ self.old) }
    {
        self.acknowledged.reserve(self.pending.len() + 1)?;
        take_in(&mut self.acknowledged, op);
        Ok(())
    }

    /// The acknowledged map once more, with its own memory and with nothing pending.
    pub fn copy_acknowledged(&self, alloc: Global) -> Result<SharedMap, NoMemory>
        ensures { IfOk result (λ copy. copy ≡ record { acknowledged = self.now.acknowledged; pending = [] }) }
    {
        let acknowledged = copying::copy_entries(alloc, &self.acknowledged)?;
        Ok(SharedMap {
            acknowledged,
            pending: Pending::new(alloc),
        })
    }

    /// The object of the keys and values of the acknowledged map, without the pending changes.
    pub fn to_json(&self, alloc: Global) -> Result<Json, NoMemory>
        ensures { IfOk result (λ json. json ≡ object_of self.now.acknowledged) }
    {
        copying::object(alloc, &self.acknowledged)
    }
}

// Makes a change of a map, which has room for one more key.
fn take_in(entries: &mut SortedMap<Text, Json>, op: MapOp)
    requires { 0 < entries.old.spare }
    ensures values { entries.new.values ≡ after entries.old.values op }
    ensures spare { entries.old.spare ≤ entries.new.spare + 1 }
{
    match op {
        MapOp::Set { key, value } => entries.insert(key, value),
        MapOp::Delete { key } => {
            entries.remove(key.as_str());
        }
        MapOp::Clear => entries.clear(),
    }
}
