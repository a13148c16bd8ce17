//! Where the handles of a summary tree lead: places in an earlier tree that is held.
ghost use Rattle.std.specs.Prelude.{◌≡◌, IfOk, OnOk};
ghost use Rattle.fluid_store.specs.Fetching.{Answers, Reads};
ghost use Rattle.fluid_store.specs.Following.{at_end, at_path, place_in, places_in, places_of, with_first, earlier_at, known, known_all};

use crate::fetching::find;
use crate::{Objects, StoreFault};
use fluid_json::{NoMemory, Text};
use fluid_table::SortedMap;
use fluid_tree::{Id, Object, ObjectEntry};
use std::alloc::Global;

/// What stands somewhere in a tree: whether it is a tree, and its id.
#[derive(Clone, Copy)]
pub(crate) struct Place {
    pub(crate) tree: bool,
    pub(crate) id: Id,
}

/// An earlier tree: its own place, and what stands under each of its names.
#[derive(Drop)]
pub(crate) struct Earlier {
    own: Place,
    places: SortedMap<Text, Place>,
}

/// The earlier tree of this id.
pub(crate) fn earlier_at<O: Objects>(
    alloc: Global,
    objects: &mut O,
    id: &Id,
) -> Result<Earlier, StoreFault>
    ensures reads { Reads (O.seen objects.old) (O.seen objects.new) }
    ensures says { Answers (λ held. earlier_at held id.now) (O.seen objects.old) (O.seen objects.new) (known result) }
{
    let object = find(alloc, objects, id)?;
    let own = Place {
        tree: object.is_tree(),
        id: *id,
    };
    let places = places_in(alloc, &object)?;
    Ok(Earlier { own, places })
}

/// What stands at the end of a path in the earlier tree, if anything does. A path of one name looks nothing up.
pub(crate) fn at_path<O: Objects>(
    alloc: Global,
    objects: &mut O,
    earlier: &Earlier,
    path: &[Text],
) -> Result<Option<Place>, StoreFault>
    ensures reads { Reads (O.seen objects.old) (O.seen objects.new) }
    ensures says { Answers (λ held. at_path held (known_all earlier.now) path.now) (O.seen objects.old) (O.seen objects.new) result }
{
    let Some((name, rest)) = path.split_first() else {
        return Ok(Some(earlier.own));
    };
    let Some(place) = earlier.places.get(name.as_str()) else {
        return Ok(None);
    };
    at_end(alloc, objects, *place, rest)
}

// What stands at the end of a path, from a place.
#[cycle(path)]
fn at_end<O: Objects>(
    alloc: Global,
    objects: &mut O,
    place: Place,
    path: &[Text],
) -> Result<Option<Place>, StoreFault>
    ensures reads { Reads (O.seen objects.old) (O.seen objects.new) }
    ensures says { Answers (λ held. at_end held path.now place) (O.seen objects.old) (O.seen objects.new) result }
{
    let Some((name, rest)) = path.split_first() else {
        return Ok(Some(place));
    };
    let object = find(alloc, objects, &place.id)?;
    let Some(next) = place_in(alloc, &object, name)? else {
        return Ok(None);
    };
    at_end(alloc, objects, next, rest)
}

// What stands under a name in an object, if anything does.
fn place_in(alloc: Global, object: &Object, name: &Text) -> Result<Option<Place>, NoMemory>
    ensures { IfOk result (λ place. place ≡ place_in object.now name.now) }
{
    let places = places_in(alloc, object)?;
    Ok(places.get(name.as_str()).copied())
}

// What stands under each name in an object: nothing in a blob.
fn places_in(alloc: Global, object: &Object) -> Result<SortedMap<Text, Place>, NoMemory>
    ensures { IfOk result (λ places. places.values ≡ places_in object.now) }
{
    match object {
        Object::Blob(_) => Ok(SortedMap::new(alloc)),
        Object::Tree(entries) => places_of(alloc, entries.as_slice()),
    }
}

fn places_of(alloc: Global, entries: &[ObjectEntry]) -> Result<SortedMap<Text, Place>, NoMemory>
    ensures { IfOk result (λ places. places.values ≡ places_of entries.now) }
{
    let mut places = SortedMap::new(alloc);
    for entry in entries {
        put_first(alloc, &mut places, entry)?;
    }
    Ok(places)
}

// The place of an entry, where its name has none yet.
fn put_first(
    alloc: Global,
    places: &mut SortedMap<Text, Place>,
    entry: &ObjectEntry,
) -> Result<(), NoMemory>
    ensures { OnOk result (places.new.values ≡ with_first places.old.values entry.now) }
{
    if places.get(entry.name.as_str()).is_some() {
        return Ok(());
    }
    let name = entry.name.copy(alloc)?;
    let place = Place {
        tree: entry.tree,
        id: entry.id,
    };
    places.reserve(1)?;
    places.insert(name, place);
    Ok(())
}
