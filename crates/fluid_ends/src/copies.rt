// Faults of the store with their own memory.
ghost use Rattle.std.specs.Prelude.{◌≡◌, IfOk};
ghost use Rattle.fluid_store.specs.declared.fault.StoreFault.TheVariants as store;

use fluid_json::{Bytes, NoMemory};
use fluid_store::StoreFault;
use fluid_tree::{Id, TreeFault};
use std::alloc::Global;

/// The same fault with its own memory.
pub(crate) fn store_fault(alloc: Global, fault: &StoreFault) -> Result<StoreFault, NoMemory>
    ensures { IfOk result (λ copy. copy ≡ fault.now) }
{
    match fault {
        StoreFault::StoreFailed(note) => Ok(StoreFault::StoreFailed(*note)),
        StoreFault::Clash { id, kept, new } => clash(alloc, *id, kept, new),
        StoreFault::Missing(id) => Ok(StoreFault::Missing(*id)),
        StoreFault::BadObject(id, place) => Ok(StoreFault::BadObject(*id, *place)),
        StoreFault::Tree(fault) => {
            let fault = tree_fault(alloc, fault)?;
            Ok(StoreFault::Tree(fault))
        }
        StoreFault::NoPath(path) => {
            let path = path.copy(alloc)?;
            Ok(StoreFault::NoPath(path))
        }
        StoreFault::NoMemory => Ok(StoreFault::NoMemory),
    }
}

fn clash(alloc: Global, id: Id, kept: &Bytes, new: &Bytes) -> Result<StoreFault, NoMemory>
    ensures { IfOk result (λ copy. copy ≡ store.Clash id kept.now new.now) }
{
    let kept = kept.copy(alloc)?;
    let new = new.copy(alloc)?;
    Ok(StoreFault::Clash { id, kept, new })
}

fn tree_fault(alloc: Global, fault: &TreeFault) -> Result<TreeFault, NoMemory>
    ensures { IfOk result (λ copy. copy ≡ fault.now) }
{
    match fault {
        TreeFault::BadName(name) => {
            let name = name.copy(alloc)?;
            Ok(TreeFault::BadName(name))
        }
        TreeFault::TooDeep => Ok(TreeFault::TooDeep),
        TreeFault::BadObject(place) => Ok(TreeFault::BadObject(*place)),
        TreeFault::HandleLeft(path) => {
            let path = path.copy(alloc)?;
            Ok(TreeFault::HandleLeft(path))
        }
        TreeFault::Attachment => Ok(TreeFault::Attachment),
        TreeFault::NoMemory => Ok(TreeFault::NoMemory),
        TreeFault::BadForm => Ok(TreeFault::BadForm),
    }
}
