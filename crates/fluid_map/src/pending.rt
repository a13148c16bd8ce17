// A client's own changes that are on their way, with what they decide of each key.
//
// The changes up to the last clear among them leave no key a value. Behind it the last change of a key decides, and is kept
// with how many there are of this key, so that it goes when the last of them has been acknowledged.
ghost use Rattle.std.specs.Prelude.{◌≡◌, ℕ, ◌+◌, ◌-◌, ◌^◌, ◌<◌, ◌≤◌, ◌++◌, [], ◌∷◌, Some, length, IfOk, IfSome, OnOk, OnErr, option_map};
ghost use Rattle.std.specs.FinMap.{get, insert, remove};
ghost use Rattle.fluid_map.specs.Replay.{last_word};
ghost use Rattle.fluid_map.specs.Laid.{count_of};

use crate::operation::MapOp;
use fluid_json::{Json, NoMemory, Text};
use fluid_table::SortedMap;
use std::alloc::Global;
use std::collections::VecDeque;
use std::marker::Model;

/// What the last change of a key says, and how many changes there are of this key behind the last clear.
#[derive(Drop)]
pub(crate) struct Latest {
    pub(crate) value: Option<Json>,
    pub(crate) changes: usize,
}

/// Changes, oldest first.
#[derive(Drop)]
pub(crate) struct Pending {
    changes: VecDeque<MapOp>,
    // How many of the oldest changes end with the last clear; 0 where there is none.
    cleared: usize,
    latest: SortedMap<Text, Latest>,
}

impl Model for Pending {
    ghost use Rattle.std.specs.Prelude.{List};
    ghost use Rattle.fluid_map.specs.declared.operation.MapOp.{MapOp};
    ghost use Rattle.fluid_map.specs.Codes.{pending_code};
    ghost use Rattle.fluid_map.specs.Laid.{IsLaid};

    ghost Value = { List MapOp };

    ghost coded = { pending_code };

    ghost view = { λ p. p.changes.items };

    ghost invariant = { λ p. IsLaid p.changes.items p.cleared p.latest.values };
}

impl Pending {
    /// No changes. Takes no memory.
    pub(crate) fn new(alloc: Global) -> Pending
        ensures { result ≡ [] }
    {
        Pending {
            changes: VecDeque::new(alloc),
            cleared: 0,
            latest: SortedMap::new(alloc),
        }
    }

    pub(crate) fn len(&self) -> usize
        ensures length { result ≡ length self.now }
        ensures fits { result + 1 < 2 ^ 64 }
    {
        self.changes.len()
    }

    /// What the last change that speaks of a key says of it: the value that it has, if any; none where no change does.
    pub(crate) fn word(&self, key: &str) -> Option<Option<&Json>>
        ensures { option_map (λ word. option_map (λ value. value.now) word) result ≡ last_word key.now self.now }
    {
        match self.latest.get(key) {
            Some(latest) => Some(latest.value.as_ref()),
            None => { if self.cleared > 0 { Some(None) } else { None } }
        }
    }

    /// Puts a change behind the others. After `NoMemory` they are as they were.
    pub(crate) fn push(&mut self, alloc: Global, op: &MapOp) -> Result<(), NoMemory>
        ensures pushed { OnOk result (self.new ≡ self.old ++ op.now ∷ []) }
        ensures unchanged { OnErr result (self.new ≡ self.old) }
    {
        let pending = op.copy(alloc)?;
        let laid = op.copy(alloc)?;
        self.latest.reserve(1)?;
        self.changes.push_back(pending)?;
        match laid {
            MapOp::Set { key, value } => lay(&mut self.latest, key, Some(value)),
            MapOp::Delete { key } => lay(&mut self.latest, key, None),
            MapOp::Clear => {
                self.latest.clear();
                self.cleared = self.changes.len();
            }
        }
        Ok(())
    }

    /// Takes the oldest change out.
    pub(crate) fn pop(&mut self) -> MapOp
        requires { 0 < length self.old }
        ensures { self.old ≡ result ∷ self.new }
    {
        let op = self.changes.pop_front().unwrap();
        if self.cleared > 0 {
            self.cleared -= 1;
        } else {
            match &op {
                MapOp::Set { key, .. } | MapOp::Delete { key } => {
                    lift(&mut self.latest, key.as_str());
                }
                MapOp::Clear => {}
            }
        }
        op
    }
}

// Lays a change of a key over the earlier ones.
fn lay(latest: &mut SortedMap<Text, Latest>, key: Text, value: Option<Json>)
    requires room { 0 < latest.old.spare }
    requires counted { count_of (get latest.old.values key) < 2 ^ 64 - 1 }
    ensures { latest.new.values ≡ insert latest.old.values key (record { value = value; changes = count_of (get latest.old.values key) + 1 }) }
{
    let changes = match latest.get(key.as_str()) {
        Some(latest) => latest.changes + 1,
        None => 1,
    };
    latest.insert(key, Latest { value, changes });
}

// Takes away the oldest of the changes of a key: the last one stays laid over until it is the only one.
fn lift(latest: &mut SortedMap<Text, Latest>, key: &str)
    ensures fewer { (last : Latest) → get latest.old.values key.now ≡ Some last → 1 < last.changes →
        latest.new.values ≡ insert latest.old.values key.now (record last { changes = last.changes - 1 }) }
    ensures gone { (last : Latest) → get latest.old.values key.now ≡ Some last → last.changes ≤ 1 →
        latest.new.values ≡ remove latest.old.values key.now }
{
    let unknown = Latest {
        value: None,
        changes: 0,
    };
    let Some(last) = latest.replace(key, unknown) else {
        return;
    };
    if last.changes > 1 {
        let changes = last.changes - 1;
        let value = last.value;
        latest.replace(key, Latest { value, changes });
    } else {
        latest.remove(key);
    }
}
