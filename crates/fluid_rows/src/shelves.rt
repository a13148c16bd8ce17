// Shelves in memory, whose keepers go out and come back.
use fluid_json::{NoMemory, Text};
use fluid_log::{Keeper, KeeperFault, MemoryKeeper, MemoryShelves, Shelves};
use fluid_types::DocName;
use std::alloc::Global;

// What is told of one course of calls.
pub(crate) fn told(alloc: Global, course: &str) -> Result<Text, NoMemory> {
    let told = match course {
        "back" => back(alloc),
        "failed-outside" => failed_outside(alloc),
        _ => failing(alloc),
    };
    told.map_err(|_fault| NoMemory)
}

fn document_of(alloc: Global) -> Result<DocName, NoMemory> {
    match DocName::read(alloc, "d") {
        Ok(name) => Ok(name),
        Err(_) => Err(NoMemory),
    }
}

fn letter(answer: Result<(), KeeperFault>) -> &'static str {
    match answer {
        Ok(()) => "+",
        Err(KeeperFault::Failed) => "F",
        Err(KeeperFault::NoMemory) => "M",
    }
}

// Whether a keeper is in, with how many records.
fn place_told(alloc: Global, shelves: &MemoryShelves, name: &DocName) -> Result<Text, NoMemory> {
    match shelves.get(name) {
        Some(keeper) => Ok(Text::new(format!(in alloc; "in with {}", keeper.len())?)),
        None => Text::copied(alloc, "out"),
    }
}

// A fresh keeper goes out, gets a record and comes back.
fn back(alloc: Global) -> Result<Text, KeeperFault> {
    let mut shelves = MemoryShelves::new(alloc, Vec::new(alloc));
    let name = document_of(alloc)?;
    let mut keeper = shelves.keeper(alloc, &name)?;
    let out = place_told(alloc, &shelves, &name)?;
    let added = letter(keeper.append(alloc, b"a"));
    shelves.put_back(&name, keeper);
    let back = place_told(alloc, &shelves, &name)?;
    let told = format!(in alloc;
        "{}, {added}, {}, {} failed",
        out.as_str(),
        back.as_str(),
        shelves.faults()
    )?;
    Ok(Text::new(told))
}

fn keeper_of(alloc: Global, failing: &[u64]) -> Result<MemoryKeeper, NoMemory> {
    let failing = Vec::from_slice(alloc, failing)?;
    Ok(MemoryKeeper::new(alloc, failing, Vec::new(alloc)))
}

// A keeper that fails twice while it is out.
fn failed_outside(alloc: Global) -> Result<Text, KeeperFault> {
    let mut shelves = MemoryShelves::new(alloc, Vec::new(alloc));
    let name = document_of(alloc)?;
    shelves.add(name, keeper_of(alloc, &[1, 2])?)?;
    let name = document_of(alloc)?;
    let mut keeper = shelves.keeper(alloc, &name)?;
    let first = letter(keeper.append(alloc, b"a"));
    let second = letter(keeper.append(alloc, b"a"));
    shelves.put_back(&name, keeper);
    let told = format!(in alloc; "{first}{second}, {} failed", shelves.faults())?;
    Ok(Text::new(told))
}

// Shelves whose first call fails, and which then give the keeper that they had.
fn failing(alloc: Global) -> Result<Text, KeeperFault> {
    let failing = Vec::from_slice(alloc, &[1])?;
    let mut shelves = MemoryShelves::new(alloc, failing);
    let name = document_of(alloc)?;
    let mut keeper = keeper_of(alloc, &[])?;
    keeper.append(alloc, b"a")?;
    shelves.add(name, keeper)?;
    let name = document_of(alloc)?;
    let first = match shelves.keeper(alloc, &name) {
        Ok(_) => return Ok(Text::copied(alloc, "the first call has not failed")?),
        Err(fault) => letter(Err(fault)),
    };
    let still = place_told(alloc, &shelves, &name)?;
    let keeper = shelves.keeper(alloc, &name)?;
    let told = format!(in alloc;
        "{first}, {}, then {}, {} failed",
        still.as_str(),
        keeper.len(),
        shelves.faults()
    )?;
    Ok(Text::new(told))
}
