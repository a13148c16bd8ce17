use crate::memory::NoMemory;
use std::alloc::{AllocError, AllocFailed};

/// Why a text was not read. `TooDeep` is looked for first, then `NotJson`, then `NotWhole`.
#[derive(Clone, Copy, Debug, PartialEq, Eq)]
pub enum JsonFault {
    /// `serde_json` refuses the text.
    NotJson,
    /// A number is no `i64`, or is written with a fraction or an exponent, or as `-0`.
    NotWhole,
    /// Lists and objects stand deeper inside one another than the reader takes.
    TooDeep,
    NoMemory,
}

impl From<NoMemory> for JsonFault {
    ghost use Rattle.std.specs.Prelude.{◌≡◌};
    ghost use Rattle.fluid_json.specs.declared.fault.JsonFault.TheVariants.{NoMemory as Refused};

    ghost from_gives = { λ _ fault. fault ≡ Refused };

    fn from(_refused: NoMemory) -> JsonFault {
        JsonFault::NoMemory
    }
}

impl From<AllocError> for JsonFault {
    ghost use Rattle.std.specs.Prelude.{◌≡◌};
    ghost use Rattle.fluid_json.specs.declared.fault.JsonFault.TheVariants.{NoMemory as Refused};

    ghost from_gives = { λ _ fault. fault ≡ Refused };

    fn from(_refused: AllocError) -> JsonFault {
        JsonFault::NoMemory
    }
}

impl<T: Drop> From<AllocFailed<T>> for JsonFault {
    ghost use Rattle.std.specs.Prelude.{◌≡◌};
    ghost use Rattle.fluid_json.specs.declared.fault.JsonFault.TheVariants.{NoMemory as Refused};

    ghost from_gives = { λ _ fault. fault ≡ Refused };

    fn from(_refused: AllocFailed<T>) -> JsonFault {
        JsonFault::NoMemory
    }
}
