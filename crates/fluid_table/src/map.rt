ghost use Rattle.std.specs.Prelude.{◌≡◌, ◌+◌, ◌<◌, ◌≤◌, IsSome, OnOk, option_map, slice_get, None, Some};
ghost use Rattle.std.specs.FinMap.{empty, entries, get, insert, remove, len};
ghost use Rattle.fluid_table.specs.Keyed.{IsInOrder, IsAt, pairs_of, table_of};

use crate::keyed::{Entry, place};
use fluid_json::{NoMemory, Text};
use std::alloc::Global;
use std::marker::Model;
use std::mem;

/// What is a key: it has a text, in the order of whose bytes it stands.
pub trait Key {
    ghost use Rattle.std.specs.Prelude.{◌≡◌, ℕ, List};

    ghost text_of: { Self → List ℕ };

    fn text(&self) -> &str
        ensures { result.now ≡ text_of self.now };
}

impl Key for Text {
    ghost text_of = { λ text. text };

    fn text(&self) -> &str {
        self.as_str()
    }
}

/// A pair is found by its key.
impl<K: Key, V> Entry for (K, V) {
    type Value = V;

    ghost key_of = { λ pair. K.text_of pair.0 };

    ghost value_of = { λ pair. pair.1 };

    fn key(&self) -> &str {
        self.0.text()
    }
}

/// Keys, each once, with their values. Contracts see the finite map from the keys' texts.
#[derive(Drop)]
pub struct SortedMap<K: Key, V> {
    pairs: Vec<(K, V)>,
}

impl<K: Key, V> Model for SortedMap<K, V> {
    ghost use Rattle.std.specs.Prelude.{vec_len, vec_capacity, ◌-◌};
    ghost use Rattle.fluid_table.specs.Table.{Table, table_code};
    ghost use Rattle.fluid_table.specs.Keyed.{IsInOrder, table_of};

    ghost Value = { Table V };

    ghost coded = { table_code V V.code };

    ghost view = { λ m. record {
      values = table_of (λ pair. K.text_of pair.0) (λ pair. pair.1) m.pairs.items;
      spare = vec_capacity m.pairs - vec_len m.pairs;
    } };

    ghost invariant = { λ m. IsInOrder (λ pair. K.text_of pair.0) (λ pair. pair.1) m.pairs.items };
}

impl<K: Key + Drop, V: Drop> SortedMap<K, V> {
    ghost use Rattle.std.specs.Borrow.{Lends, sem};
    ghost use Rattle.fluid_table.specs.Table.{with_value};
    ghost use Rattle.fluid_table.specs.contracts.map.SortedMap.{the_row};

    /// No keys. Takes no memory.
    pub fn new(alloc: Global) -> SortedMap<K, V>
        ensures { result.values ≡ empty }
    {
        SortedMap {
            pairs: Vec::new(alloc),
        }
    }

    /// Pairs that stand in byte order of their keys, each key once. Takes no memory.
    pub fn of_sorted(pairs: Vec<(K, V)>) -> SortedMap<K, V>
        requires { IsInOrder (λ pair. K.text_of pair.0) (λ pair. pair.1) pairs.items }
        ensures { result.values ≡ table_of (λ pair. K.text_of pair.0) (λ pair. pair.1) pairs.items }
    {
        SortedMap { pairs }
    }

    /// The pairs in byte order of their keys.
    pub fn as_slice(&self) -> &[(K, V)]
        ensures { pairs_of (λ pair. K.text_of pair.0) (λ pair. pair.1) result.now ≡ entries self.now.values }
    {
        self.pairs.as_slice()
    }

    /// How many keys there are.
    pub fn len(&self) -> usize
        ensures { result ≡ len self.now.values }
    {
        self.pairs.len()
    }

    /// The pair of the least key; none where there are no keys.
    pub fn first(&self) -> Option<&(K, V)>
        ensures { option_map (λ pair. (K.text_of pair.now.0, pair.now.1)) result ≡ slice_get (entries self.now.values) 0 }
    {
        self.pairs.first()
    }

    /// The value under a key; none where it has none.
    pub fn get(&self, key: &str) -> Option<&V>
        ensures { option_map (λ value. value.now) result ≡ get self.now.values key.now }
    {
        match place(&self.pairs, key) {
            Ok(at) => Some(&self.pairs[at].1),
            Err(_) => None,
        }
    }

    /// The value of a key that has one, to be changed.
    pub fn lent(&mut self, key: &str) -> &mut V
        requires { IsSome (get self.old.values key.now) }
        ensures* lends { sem 𝓛 (Lends (the_row K.row V.row K.Key) V.row self.entry result (with_value self.old key.now)) }
        ensures value { get self.old.values key.now ≡ Some result.now }
    {
        let at = place_of(&self.pairs, key);
        let pair = &mut self.pairs[at];
        &mut pair.1
    }

    /// Makes room for so many more keys. After `NoMemory` the map is as it was.
    pub fn reserve(&mut self, additional: usize) -> Result<(), NoMemory>
        ensures same { self.new.values ≡ self.old.values }
        ensures room { OnOk result (additional ≤ self.new.spare) }
        ensures spare { self.old.spare ≤ self.new.spare }
    {
        self.pairs.reserve(additional)?;
        Ok(())
    }

    /// Puts a value under a key, in place of the one that it had. It needs room for one more key, and takes no memory.
    pub fn insert(&mut self, key: K, value: V)
        requires { 0 < self.old.spare }
        ensures values { self.new.values ≡ insert self.old.values (K.text_of key) value }
        ensures spare { self.old.spare ≤ self.new.spare + 1 }
    {
        match place(&self.pairs, key.text()) {
            Ok(at) => self.pairs[at] = (key, value),
            Err(at) => self.pairs.insert(at, (key, value)).unwrap(),
        }
    }

    /// Puts a value in place of the one that a key has, which it gives back. Where the key has none, it does nothing.
    pub fn replace(&mut self, key: &str, value: V) -> Option<V>
        ensures former { result ≡ get self.old.values key.now }
        ensures replaced { (former : V) → get self.old.values key.now ≡ Some former → self.new.values ≡ insert self.old.values key.now value }
        ensures absent { get self.old.values key.now ≡ None → self.new.values ≡ self.old.values }
        ensures spare { self.old.spare ≤ self.new.spare }
    {
        match place(&self.pairs, key) {
            Ok(at) => Some(mem::replace(&mut self.pairs[at].1, value)),
            Err(_) => None,
        }
    }

    /// Takes a key out with its value.
    pub fn remove(&mut self, key: &str) -> Option<V>
        ensures former { result ≡ get self.old.values key.now }
        ensures values { self.new.values ≡ remove self.old.values key.now }
        ensures spare { self.old.spare ≤ self.new.spare }
    {
        match place(&self.pairs, key) {
            Ok(at) => {
                let (_, value) = self.pairs.remove(at);
                Some(value)
            }
            Err(_) => None,
        }
    }

    /// Takes all keys out.
    pub fn clear(&mut self)
        ensures values { self.new.values ≡ empty }
        ensures spare { self.old.spare ≤ self.new.spare }
    {
        self.pairs.clear();
    }
}

// Where a key stands that is there.
fn place_of<K: Key, V>(pairs: &[(K, V)], key: &str) -> usize
    requires order { IsInOrder (λ pair. K.text_of pair.0) (λ pair. pair.1) pairs.now }
    requires there { IsSome (get (table_of (λ pair. K.text_of pair.0) (λ pair. pair.1) pairs.now) key.now) }
    ensures { IsAt (λ pair. K.text_of pair.0) pairs.now key.now result }
{
    match place(pairs, key) {
        Ok(at) => at,
        Err(gap) => gap,
    }
}
