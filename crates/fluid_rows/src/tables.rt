// A table of numbers under texts.
use crate::words::{number_of, split};
use fluid_json::{NoMemory, Text};
use fluid_table::SortedMap;
use std::alloc::Global;

// What is answered to each of these calls on an empty table, which stand behind a semicolon each.
pub(crate) fn told(alloc: Global, text: &str) -> Result<Text, NoMemory> {
    let mut entries = SortedMap::new(alloc);
    let mut told = String::new(alloc);
    for call in text.split("; ") {
        tell(alloc, &mut entries, call, &mut told)?;
    }
    Ok(Text::new(told))
}

fn tell(
    alloc: Global,
    entries: &mut SortedMap<Text, u64>,
    call: &str,
    told: &mut String,
) -> Result<(), NoMemory> {
    let answer = answer(alloc, entries, call)?;
    if !told.is_empty() {
        told.push_str("; ")?;
    }
    told.push_str(answer.as_str())?;
    Ok(())
}

fn answer(alloc: Global, entries: &mut SortedMap<Text, u64>, call: &str) -> Result<Text, NoMemory> {
    let (word, rest) = split(call);
    let (key, number) = split(rest);
    match word {
        "insert" => insert(alloc, entries, key, number_of(number)),
        "replace" => number_told(alloc, entries.replace(key, number_of(number))),
        "remove" => number_told(alloc, entries.remove(key)),
        "get" => number_told(alloc, entries.get(key).copied()),
        "clear" => {
            entries.clear();
            pairs(alloc, entries)
        }
        "pair" => {
            *entries = pair(alloc, key, number_of(number))?;
            pairs(alloc, entries)
        }
        _ => pairs(alloc, entries),
    }
}

fn insert(
    alloc: Global,
    entries: &mut SortedMap<Text, u64>,
    key: &str,
    number: u64,
) -> Result<Text, NoMemory> {
    let key = Text::copied(alloc, key)?;
    entries.reserve(1)?;
    entries.insert(key, number);
    Text::copied(alloc, "in")
}

// A table of one key.
fn pair(alloc: Global, key: &str, number: u64) -> Result<SortedMap<Text, u64>, NoMemory> {
    let key = Text::copied(alloc, key)?;
    let mut pairs = Vec::new(alloc);
    pairs.push((key, number))?;
    Ok(SortedMap::of_sorted(pairs))
}

fn number_told(alloc: Global, number: Option<u64>) -> Result<Text, NoMemory> {
    match number {
        Some(number) => Ok(Text::new(format!(in alloc; "{number}")?)),
        None => Text::copied(alloc, "none"),
    }
}

// The pairs in their order.
fn pairs(alloc: Global, entries: &SortedMap<Text, u64>) -> Result<Text, NoMemory> {
    let mut told = String::from_str(alloc, "pairs")?;
    for (key, number) in entries.as_slice() {
        let pair = format!(in alloc; " {}={number}", key.as_str())?;
        told.push_str(pair.as_str())?;
    }
    Ok(Text::new(told))
}
