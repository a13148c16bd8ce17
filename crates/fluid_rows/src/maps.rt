// A client's life with a shared map.
use crate::words::{split, text_of};
use fluid_json::{Json, NoMemory, Text, print};
use fluid_map::{MapOp, SharedMap};
use fluid_types::BlobFault;
use std::alloc::Global;

// What a client shows at first and behind each step, where it begins with this text of a map. The steps stand behind a
// semicolon each: a change that it makes itself, a change of another client in the order, or that its oldest is in the order.
pub(crate) fn told(alloc: Global, text: &str) -> Result<Text, NoMemory> {
    let mut steps = text.split("; ");
    let blob = steps.next().unwrap_or("");
    match SharedMap::from_blob(alloc, blob.as_bytes()) {
        Ok(mut map) => {
            let mut told = String::new(alloc);
            show(alloc, &map, &mut told)?;
            for step in steps {
                take_and_show(alloc, &mut map, step, &mut told)?;
            }
            Ok(Text::new(told))
        }
        Err(fault) => fault_told(alloc, &fault),
    }
}

fn take_and_show(
    alloc: Global,
    map: &mut SharedMap,
    step: &str,
    told: &mut String,
) -> Result<(), NoMemory> {
    take(alloc, map, step)?;
    told.push_str("; ")?;
    show(alloc, map, told)
}

fn show(alloc: Global, map: &SharedMap, told: &mut String) -> Result<(), NoMemory> {
    let shown = shown(alloc, map)?;
    told.push_str(shown.as_str())?;
    Ok(())
}

// What bytes are read as that need not be text.
pub(crate) fn bytes_told(alloc: Global, bytes: &[u8]) -> Result<Text, NoMemory> {
    match SharedMap::from_blob(alloc, bytes) {
        Ok(map) => shown(alloc, &map),
        Err(fault) => fault_told(alloc, &fault),
    }
}

fn fault_told(alloc: Global, fault: &BlobFault) -> Result<Text, NoMemory> {
    match fault {
        BlobFault::BadBlob(path) => Ok(Text::new(format!(in alloc; "bad {}", path.as_str())?)),
        BlobFault::NoMemory => Err(NoMemory),
    }
}

// How many of its own are on their way, what it shows under a, b and c, and the text of what is in the order.
fn shown(alloc: Global, map: &SharedMap) -> Result<Text, NoMemory> {
    let blob = map.to_blob(alloc)?;
    let blob = text_of(alloc, blob.as_slice())?;
    let a = shown_under(alloc, map, "a")?;
    let b = shown_under(alloc, map, "b")?;
    let c = shown_under(alloc, map, "c")?;
    let told = format!(in alloc;
        "{} {} {} {} {}",
        map.pending(),
        a.as_str(),
        b.as_str(),
        c.as_str(),
        blob.as_str()
    )?;
    Ok(Text::new(told))
}

// The value under a key; a full stop where it has none.
fn shown_under(alloc: Global, map: &SharedMap, key: &str) -> Result<Text, NoMemory> {
    match map.value(key) {
        Some(value) => print(alloc, value),
        None => Text::copied(alloc, "."),
    }
}

fn take(alloc: Global, map: &mut SharedMap, step: &str) -> Result<(), NoMemory> {
    match step.split_once(' ') {
        Some(("hear", change)) => hear(alloc, map, change),
        Some(("own", change)) => make(alloc, map, change),
        _ => {
            if 0 < map.pending() {
                map.acknowledge();
            }
            Ok(())
        }
    }
}

fn hear(alloc: Global, map: &mut SharedMap, change: &str) -> Result<(), NoMemory> {
    let op = op_of(alloc, change)?;
    map.apply_remote(alloc, &op)
}

fn make(alloc: Global, map: &mut SharedMap, change: &str) -> Result<(), NoMemory> {
    let op = op_of(alloc, change)?;
    map.apply_local(alloc, &op)
}

// A change: a value is a whole number, or null.
fn op_of(alloc: Global, change: &str) -> Result<MapOp, NoMemory> {
    let op = match change.split_once(' ') {
        Some(("set", rest)) => set(alloc, rest)?,
        Some(("delete", key)) => MapOp::Delete {
            key: Text::copied(alloc, key)?,
        },
        _ => MapOp::Clear,
    };
    op.copy(alloc)
}

fn set(alloc: Global, rest: &str) -> Result<MapOp, NoMemory> {
    let (key, value) = split(rest);
    let key = Text::copied(alloc, key)?;
    let value = match value.parse() {
        Ok(number) => Json::whole(number),
        Err(_) => Json::null(),
    };
    Ok(MapOp::Set { key, value })
}
