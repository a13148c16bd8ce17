//! What a reader of lines answers.
ghost use Rattle.fluid_io.specs.declared.line.LineFault.TheVariants.{ReadFault, NoMemory};
ghost use Rattle.std.specs.Prelude.{◌≡◌};

use crate::Failed;
use fluid_json::Text;
use std::alloc::{AllocError, AllocFailed};

/// The next line without its line end, or the end of the lines.
#[derive(Drop)]
pub enum Line {
    Text(Text),
    End,
}

/// Why there is no next line. A number is that of the line, from 1. Where a line has more than one of these
/// causes, it gets `TooLong` before `NotUtf8`, and that before `TooMany`.
#[derive(Clone, Copy, Debug, PartialEq, Eq)]
pub enum LineFault {
    ReadFault,
    TooLong(u64),
    NotUtf8(u64),
    NoMemory,
    TooMany(u64),
}

impl From<Failed> for LineFault {
    ghost from_gives = { λ _ fault. fault ≡ ReadFault };

    fn from(_failed: Failed) -> LineFault {
        LineFault::ReadFault
    }
}

impl From<AllocError> for LineFault {
    ghost from_gives = { λ _ fault. fault ≡ NoMemory };

    fn from(_refused: AllocError) -> LineFault {
        LineFault::NoMemory
    }
}

impl<T: Drop> From<AllocFailed<T>> for LineFault {
    ghost from_gives = { λ _ fault. fault ≡ NoMemory };

    fn from(_refused: AllocFailed<T>) -> LineFault {
        LineFault::NoMemory
    }
}
