// Copies of a map's keys and values.
ghost use Rattle.std.specs.Prelude.{◌≡◌, IfOk};
ghost use Rattle.fluid_map.specs.Content.{object_of};

use fluid_json::{Json, NoMemory, Pairs, Text};
use fluid_table::SortedMap;
use std::alloc::Global;

/// The same entries once more, with their own memory.
pub(crate) fn copy_entries(
    alloc: Global,
    entries: &SortedMap<Text, Json>,
) -> Result<SortedMap<Text, Json>, NoMemory>
    ensures { IfOk result (λ copy. copy.values ≡ entries.now.values) }
{
    let pairs = copy_pairs(alloc, entries.as_slice())?;
    Ok(SortedMap::of_sorted(pairs))
}

fn copy_pairs(alloc: Global, pairs: &[(Text, Json)]) -> Result<Vec<(Text, Json)>, NoMemory>
    ensures { IfOk result (λ copies. copies.items ≡ pairs.now) }
{
    let mut copies = Vec::with_capacity(alloc, pairs.len())?;
    for (key, value) in pairs {
        let key = key.copy(alloc)?;
        let value = value.copy(alloc)?;
        copies.push((key, value))?;
    }
    Ok(copies)
}

/// The object of the entries, which keep their own memory.
pub(crate) fn object(alloc: Global, entries: &SortedMap<Text, Json>) -> Result<Json, NoMemory>
    ensures { IfOk result (λ json. json ≡ object_of entries.now.values) }
{
    let slice = entries.as_slice();
    let mut pairs = Pairs::with_capacity(alloc, slice.len())?;
    for (key, value) in slice {
        let key = key.copy(alloc)?;
        let value = value.copy(alloc)?;
        pairs.push(key, value)?;
    }
    Ok(Json::object(pairs))
}
