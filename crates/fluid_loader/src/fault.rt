//! Why a container's call is refused.
use fluid_io::FaultNote;
use fluid_json::{Bytes, NoMemory, Text};
use fluid_runtime::EditFault;
use fluid_tree::Id;
use fluid_types::Nack;
use std::alloc::AllocFailed;

/// Why a container isn't loaded, or a call of one is refused.
#[derive(Drop)]
pub enum LoadFault {
    /// A call on the link failed. The note has the counts of faults round it.
    LinkFailed(FaultNote),
    /// No such summary was acknowledged.
    NoSummary,
    /// The object at this path of the summary isn't held or is outside its form. Paths are looked at in the order of the tree,
    /// a tree before its entries; the summary's own is `.`.
    BadSummary(Text),
    Edit(EditFault),
    /// The link gave this nack in the call.
    Refused(Nack),
    NoMemory,
    /// Other bytes are held under the id of the new ones.
    Clash { id: Id, kept: Bytes, new: Bytes },
}

impl From<NoMemory> for LoadFault {
    ghost use Rattle.std.specs.Prelude.{◌≡◌};
    ghost use Rattle.fluid_loader.specs.declared.fault.LoadFault.TheVariants.{NoMemory as Refused};

    ghost from_gives = { λ _ fault. fault ≡ Refused };

    fn from(_refused: NoMemory) -> LoadFault {
        LoadFault::NoMemory
    }
}

impl<T: Drop> From<AllocFailed<T>> for LoadFault {
    ghost use Rattle.std.specs.Prelude.{◌≡◌};
    ghost use Rattle.fluid_loader.specs.declared.fault.LoadFault.TheVariants.{NoMemory as Refused};

    ghost from_gives = { λ _ fault. fault ≡ Refused };

    fn from(_refused: AllocFailed<T>) -> LoadFault {
        LoadFault::NoMemory
    }
}
