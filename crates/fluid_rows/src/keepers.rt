// A keeper in memory, each kind of call once or twice.
use crate::words::{number_of, split};
use fluid_json::{Bytes, NoMemory, Text};
use fluid_log::{Keeper, KeeperFault, MemoryKeeper};
use std::alloc::Global;

// What is answered and kept where the call of this number fails; that of the second number adds all the same.
pub(crate) fn told(alloc: Global, text: &str) -> Result<Text, NoMemory> {
    let (failing, adding) = split(text);
    let failing = Vec::from_slice(alloc, &[number_of(failing)])?;
    let adding = Vec::from_slice(alloc, &[number_of(adding)])?;
    let mut keeper = MemoryKeeper::new(alloc, failing, adding);
    let mut told = String::new(alloc);
    log(alloc, &mut told, &mut keeper)?;
    deltas(alloc, &mut told, &mut keeper)?;
    checkpoints(alloc, &mut told, &mut keeper)?;
    kept(alloc, &mut told, &keeper)?;
    Ok(Text::new(told))
}

fn letter(answer: Result<(), KeeperFault>) -> &'static str {
    match answer {
        Ok(()) => "+",
        Err(KeeperFault::Failed) => "F",
        Err(KeeperFault::NoMemory) => "M",
    }
}

// What was given: the bytes as a text, or the letter of the fault.
fn tell(told: &mut String, answer: Result<Bytes, KeeperFault>) -> Result<(), NoMemory> {
    match answer {
        Ok(bytes) => push_bytes(told, &bytes),
        Err(fault) => {
            told.push_str(letter(Err(fault)))?;
            Ok(())
        }
    }
}

fn push_bytes(told: &mut String, bytes: &Bytes) -> Result<(), NoMemory> {
    match str::from_utf8(bytes.as_slice()) {
        Ok(text) => told.push_str(text)?,
        Err(_) => told.push_str("?")?,
    }
    Ok(())
}

// Two records are added, the last is read, and the log is cut to one.
fn log(alloc: Global, told: &mut String, keeper: &mut MemoryKeeper) -> Result<(), NoMemory> {
    told.push_str(letter(keeper.append(alloc, b"a")))?;
    told.push_str(letter(keeper.append(alloc, b"b")))?;
    let records = keeper.len();
    if 0 < records {
        tell(told, keeper.read(alloc, records - 1))?;
    }
    if 1 < keeper.len() {
        let answer = keeper.cut(1).map_err(|_| KeeperFault::Failed);
        told.push_str(letter(answer))?;
    }
    Ok(())
}

fn deltas(alloc: Global, told: &mut String, keeper: &mut MemoryKeeper) -> Result<(), NoMemory> {
    if keeper.deltas() == 0 {
        told.push_str(letter(keeper.put_delta(alloc, 1, b"m")))?;
    }
    if 0 < keeper.deltas() {
        tell(told, keeper.delta(alloc, 1))?;
    }
    Ok(())
}

fn checkpoints(
    alloc: Global,
    told: &mut String,
    keeper: &mut MemoryKeeper,
) -> Result<(), NoMemory> {
    let number = keeper.checkpoints();
    match keeper.store_checkpoint(alloc, b"k") {
        Ok(stored) => told.push_str(if stored == number { "+" } else { "?" })?,
        Err(fault) => told.push_str(letter(Err(fault)))?,
    }
    if 0 < keeper.checkpoints() {
        tell(told, keeper.checkpoint(alloc, 0))?;
    }
    Ok(())
}

// The records, the deltas and the checkpoints, and how many reads and faults were counted.
fn kept(alloc: Global, told: &mut String, keeper: &MemoryKeeper) -> Result<(), NoMemory> {
    push_all(told, keeper.records())?;
    push_all(told, keeper.delta_texts())?;
    push_all(told, keeper.checkpoint_texts())?;
    let counts = format!(in alloc;
        "; {} {} {}, {} read, {} failed",
        keeper.len(),
        keeper.deltas(),
        keeper.checkpoints(),
        keeper.reads(),
        keeper.faults()
    )?;
    told.push_str(counts.as_str())?;
    Ok(())
}

// The texts, each behind a blank.
fn push_all(told: &mut String, texts: &[Bytes]) -> Result<(), NoMemory> {
    told.push_str(";")?;
    for text in texts {
        told.push_str(" ")?;
        push_bytes(told, text)?;
    }
    Ok(())
}
