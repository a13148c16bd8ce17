//! One object: looked up, and put where nothing else is held under its id.
ghost use Rattle.std.specs.Prelude.{◌≡◌, IfOk};
ghost use Rattle.sha1.specs.Sha1.{sha1};
ghost use Rattle.fluid_store.specs.Keeping.{Compares, Counts, Looks, Places, StoresObject};

use crate::{ObjectFault, Objects, StoreFault};
use fluid_io::FaultNote;
use fluid_json::Bytes;
use fluid_tree::Id;
use std::alloc::Global;

/// Puts the object with these bytes under its id, or finds it there. An object that is held is never changed: where
/// other bytes are held under the id, that is a `Clash`.
pub fn store_object<O: Objects>(
    alloc: Global,
    objects: &mut O,
    bytes: &[u8],
) -> Result<Id, StoreFault>
    ensures id { IfOk result (λ id. id ≡ sha1 bytes.now) }
    ensures counts { Counts (O.seen objects.old) (O.seen objects.new) }
    ensures does { StoresObject (record { id = sha1 bytes.now; bytes = bytes.now }) (O.seen objects.old) (O.seen objects.new) result }
{
    let id = Id::of(bytes);
    keep(alloc, objects, &id, bytes)?;
    Ok(id)
}

// The same with an id that is known.
pub(crate) fn keep<O: Objects>(
    alloc: Global,
    objects: &mut O,
    id: &Id,
    bytes: &[u8],
) -> Result<(), StoreFault>
    ensures counts { Counts (O.seen objects.old) (O.seen objects.new) }
    ensures does { StoresObject (record { id = id.now; bytes = bytes.now }) (O.seen objects.old) (O.seen objects.new) result }
{
    let found = look(alloc, objects, id)?;
    match found {
        None => place(alloc, objects, id, bytes),
        Some(kept) => compare(alloc, id, kept, bytes),
    }
}

// What is held under an id.
pub(crate) fn look<O: Objects>(
    alloc: Global,
    objects: &mut O,
    id: &Id,
) -> Result<Option<Bytes>, StoreFault>
    ensures { Looks id.now (O.seen objects.old) (O.seen objects.new) result }
{
    let before = objects.faults();
    match objects.get(alloc, id) {
        Ok(found) => Ok(found),
        Err(ObjectFault::Failed) => Err(failed(objects, before)),
        Err(ObjectFault::NoMemory) => Err(StoreFault::NoMemory),
    }
}

// Puts bytes under an id.
fn place<O: Objects>(
    alloc: Global,
    objects: &mut O,
    id: &Id,
    bytes: &[u8],
) -> Result<(), StoreFault>
    ensures { Places id.now bytes.now (O.seen objects.old) (O.seen objects.new) result }
{
    let before = objects.faults();
    match objects.put(alloc, id, bytes) {
        Ok(()) => Ok(()),
        Err(ObjectFault::Failed) => Err(failed(objects, before)),
        Err(ObjectFault::NoMemory) => Err(StoreFault::NoMemory),
    }
}

// The fault of a call that failed.
fn failed<O: Objects>(objects: &O, before: u64) -> StoreFault
    ensures { result ≡ StoreFault.StoreFailed (record { before = before; after = (O.seen objects.now).faults }) }
{
    let after = objects.faults();
    StoreFault::StoreFailed(FaultNote { before, after })
}

// The bytes that are held under the id are these, or the two clash.
fn compare(alloc: Global, id: &Id, kept: Bytes, bytes: &[u8]) -> Result<(), StoreFault>
    ensures { Compares id.now kept bytes.now result }
{
    if kept.as_slice() == bytes {
        return Ok(());
    }
    let new = Bytes::copied(alloc, bytes)?;
    Err(StoreFault::Clash { id: *id, kept, new })
}
