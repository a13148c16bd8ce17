// Values under texts, in a tree that is searched by key. A text may have a place that has no value yet: made ahead, so that the
// value is put there without memory.
ghost use Rattle.std.specs.Prelude.{◌≡◌, List, ℕ, ◌++◌, IfOk, OnOk, cond, Some, map, bytes_eq, string_bytes, option_to_list};
ghost use Rattle.std.specs.Option.{option_copied};
ghost use Rattle.std.specs.BTreeMap.{get_by_text};
ghost use Rattle.std.specs.FinMap.{get, insert, remove, values};
ghost use Rattle.fluid_quorum.specs.Places.{table_at, AreOrdered, HasPlace, KeepsPlaces};

use fluid_json::NoMemory;
use fluid_types::{Accepted, Member};
use std::alloc::Global;
use std::collections::BTreeMap;

/// A value that can be made once more.
pub(crate) trait Copied: Sized {
    ghost use Rattle.std.specs.Prelude.{◌≡◌, IfOk};

    fn copied(&self, alloc: Global) -> Result<Self, NoMemory>
        ensures { IfOk result (λ copy. copy ≡ self.now) };
}

impl Copied for Member {
    fn copied(&self, alloc: Global) -> Result<Member, NoMemory> {
        self.copy(alloc)
    }
}

impl Copied for Accepted {
    fn copied(&self, alloc: Global) -> Result<Accepted, NoMemory> {
        self.copy(alloc)
    }
}

/// The value under a key; none where it has none.
pub(crate) fn look_up<'a, V>(places: &'a BTreeMap<String, Option<V>>, key: &str) -> Option<&'a V>
    requires { AreOrdered places.now }
    ensures { option_copied result ≡ get (table_at places.now) key.now }
{
    match places.get(key) {
        Some(place) => place.as_ref(),
        None => None,
    }
}

/// Makes a place for a key. No value changes.
pub(crate) fn make_place<V: Drop>(
    alloc: Global,
    places: &mut BTreeMap<String, Option<V>>,
    key: &str,
) -> Result<(), NoMemory>
    requires { AreOrdered places.old }
    ensures order { AreOrdered places.new }
    ensures same { table_at places.new ≡ table_at places.old }
    ensures made { OnOk result (HasPlace places.new key.now) }
    ensures kept { KeepsPlaces places.old places.new }
{
    if places.contains_key(key) {
        return Ok(());
    }
    let name = String::from_str(alloc, key)?;
    drop(places.insert(name, None)?);
    Ok(())
}

/// Puts a value in the place of a key, over the one that it had. Takes no memory.
pub(crate) fn fill<V: Drop>(places: &mut BTreeMap<String, Option<V>>, key: &str, value: V)
    requires place { HasPlace places.old key.now }
    ensures order { AreOrdered places.new }
    ensures value { table_at places.new ≡ insert (table_at places.old) key.now value }
    ensures kept { KeepsPlaces places.old places.new }
{
    if let Some(place) = places.get_mut(key) {
        *place = Some(value);
    }
}

/// Takes a key out with its place.
pub(crate) fn take_out<V: Drop>(places: &mut BTreeMap<String, Option<V>>, key: &str)
    requires { AreOrdered places.old }
    ensures order { AreOrdered places.new }
    ensures taken { table_at places.new ≡ remove (table_at places.old) key.now }
{
    drop(places.remove(key));
}

/// Makes a place for a key with a value in it, or with none yet, over what it had.
pub(crate) fn put<V: Drop>(
    places: &mut BTreeMap<String, Option<V>>,
    key: String,
    value: Option<V>,
) -> Result<(), NoMemory>
    ensures order { AreOrdered places.new }
    ensures value { OnOk result ((v : V) → value ≡ Some v → table_at places.new ≡ insert (table_at places.old) (string_bytes key) v) }
    ensures put { OnOk result ((q : List ℕ) → get_by_text places.new q ≡ cond (bytes_eq (string_bytes key) q) (Some value) (get_by_text places.old q)) }
{
    drop(places.insert(key, value)?);
    Ok(())
}

/// The same places once more, with their own memory.
pub(crate) fn copy_places<V: Copied + Drop>(
    alloc: Global,
    places: &BTreeMap<String, Option<V>>,
) -> Result<BTreeMap<String, Option<V>>, NoMemory>
    ensures order { IfOk result AreOrdered }
    ensures copied { IfOk result (λ copies. (q : List ℕ) → get_by_text copies q ≡ get_by_text places.now q) }
{
    let mut copies = BTreeMap::new(alloc);
    for (key, place) in places {
        let key = String::from_str(alloc, key.as_str())?;
        let place = copy_place(alloc, place)?;
        put(&mut copies, key, place)?;
    }
    Ok(copies)
}

fn copy_place<V: Copied + Drop>(alloc: Global, place: &Option<V>) -> Result<Option<V>, NoMemory>
    ensures { IfOk result (λ copy. copy ≡ place.now) }
{
    match place {
        Some(value) => {
            let copy = value.copied(alloc)?;
            Ok(Some(copy))
        }
        None => Ok(None),
    }
}

/// The values in the order of their keys.
pub(crate) fn list_values<'a, V>(
    alloc: Global,
    places: &'a BTreeMap<String, Option<V>>,
) -> Result<Vec<&'a V>, NoMemory>
    requires { AreOrdered places.now }
    ensures { IfOk result (λ all. map (λ v. v.now) all.items ≡ values (table_at places.now)) }
{
    let mut all = Vec::new(alloc);
    for (_key, place) in places {
        list_place(&mut all, place)?;
    }
    Ok(all)
}

fn list_place<'a, V>(all: &mut Vec<&'a V>, place: &'a Option<V>) -> Result<(), NoMemory>
    ensures { OnOk result (map (λ v. v.now) all.new.items ≡ map (λ v. v.now) all.old.items ++ option_to_list place.now) }
{
    match place {
        Some(value) => {
            all.push(value)?;
            Ok(())
        }
        None => Ok(()),
    }
}
