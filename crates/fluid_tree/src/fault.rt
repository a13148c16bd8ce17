use crate::node::Path;
use fluid_json::{NoMemory, Text};
use std::alloc::{AllocError, AllocFailed};

/// Why a summary tree or an object is refused.
#[derive(Drop)]
pub enum TreeFault {
    /// An entry's name is empty, is `.` or `..`, has a `/` or a zero byte, or stands twice.
    BadName(Text),
    /// More than 32 trees stand inside one another.
    TooDeep,
    /// The bytes leave the grammar of objects at this place, counted from 0.
    BadObject(u64),
    /// An id is asked of a tree that still has this handle.
    HandleLeft(Path),
    /// Attachments aren't stored here.
    Attachment,
    NoMemory,
    /// The JSON value isn't a summary tree.
    BadForm,
}

impl From<NoMemory> for TreeFault {
    ghost use Rattle.std.specs.Prelude.{◌≡◌};
    ghost use Rattle.fluid_tree.specs.declared.fault.TreeFault.TheVariants.{NoMemory as Refused};

    ghost from_gives = { λ _ fault. fault ≡ Refused };

    fn from(_refused: NoMemory) -> TreeFault {
        TreeFault::NoMemory
    }
}

impl From<AllocError> for TreeFault {
    ghost use Rattle.std.specs.Prelude.{◌≡◌};
    ghost use Rattle.fluid_tree.specs.declared.fault.TreeFault.TheVariants.{NoMemory as Refused};

    ghost from_gives = { λ _ fault. fault ≡ Refused };

    fn from(_refused: AllocError) -> TreeFault {
        TreeFault::NoMemory
    }
}

impl<T: Drop> From<AllocFailed<T>> for TreeFault {
    ghost use Rattle.std.specs.Prelude.{◌≡◌};
    ghost use Rattle.fluid_tree.specs.declared.fault.TreeFault.TheVariants.{NoMemory as Refused};

    ghost from_gives = { λ _ fault. fault ≡ Refused };

    fn from(_refused: AllocFailed<T>) -> TreeFault {
        TreeFault::NoMemory
    }
}
