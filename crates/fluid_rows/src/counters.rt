// A client's life with a shared counter.
use crate::words::text_of;
use fluid_counter::{CounterOp, SharedCounter};
use fluid_json::{NoMemory, Text};
use fluid_types::BlobFault;
use std::alloc::Global;

// What a client shows at first and behind each step, where it begins with this text of a counter. The steps stand behind a
// semicolon each: an amount that it adds itself, an amount of another client in the order, or that its oldest is in the order.
pub(crate) fn told(alloc: Global, text: &str) -> Result<Text, NoMemory> {
    let mut steps = text.split("; ");
    let blob = steps.next().unwrap_or("");
    match SharedCounter::from_blob(alloc, blob.as_bytes()) {
        Ok(mut counter) => {
            let mut told = String::new(alloc);
            show(alloc, &counter, &mut told)?;
            for step in steps {
                take_and_show(alloc, &mut counter, step, &mut told)?;
            }
            Ok(Text::new(told))
        }
        Err(fault) => fault_told(alloc, &fault),
    }
}

fn take_and_show(
    alloc: Global,
    counter: &mut SharedCounter,
    step: &str,
    told: &mut String,
) -> Result<(), NoMemory> {
    take(counter, step)?;
    told.push_str("; ")?;
    show(alloc, counter, told)
}

fn show(alloc: Global, counter: &SharedCounter, told: &mut String) -> Result<(), NoMemory> {
    let shown = shown(alloc, counter)?;
    told.push_str(shown.as_str())?;
    Ok(())
}

// What bytes are read as that need not be text.
pub(crate) fn bytes_told(alloc: Global, bytes: &[u8]) -> Result<Text, NoMemory> {
    match SharedCounter::from_blob(alloc, bytes) {
        Ok(counter) => shown(alloc, &counter),
        Err(fault) => fault_told(alloc, &fault),
    }
}

fn fault_told(alloc: Global, fault: &BlobFault) -> Result<Text, NoMemory> {
    match fault {
        BlobFault::BadBlob(path) => Ok(Text::new(format!(in alloc; "bad {}", path.as_str())?)),
        BlobFault::NoMemory => Err(NoMemory),
    }
}

// How many of its own are on their way, what it shows, and the text of what is in the order.
fn shown(alloc: Global, counter: &SharedCounter) -> Result<Text, NoMemory> {
    let blob = counter.to_blob(alloc)?;
    let blob = text_of(alloc, blob.as_slice())?;
    let told = format!(in alloc;
        "{} {} {}",
        counter.pending(),
        counter.value(),
        blob.as_str()
    )?;
    Ok(Text::new(told))
}

fn take(counter: &mut SharedCounter, step: &str) -> Result<(), NoMemory> {
    match step.split_once(' ') {
        Some(("add", amount)) => add(counter, amount),
        Some(("hear", amount)) => hear(counter, amount),
        _ => {
            if 0 < counter.pending() {
                counter.acknowledge();
            }
            Ok(())
        }
    }
}

fn add(counter: &mut SharedCounter, amount: &str) -> Result<(), NoMemory> {
    let op = op_of(amount);
    if counter.has_room(&op) {
        counter.apply_local(&op)?;
    }
    Ok(())
}

fn hear(counter: &mut SharedCounter, amount: &str) -> Result<(), NoMemory> {
    let op = op_of(amount);
    if counter.has_room(&op) {
        counter.apply_remote(&op)?;
    }
    Ok(())
}

fn op_of(amount: &str) -> CounterOp {
    match amount.parse() {
        Ok(amount) => CounterOp { amount },
        Err(_) => CounterOp { amount: 0 },
    }
}
