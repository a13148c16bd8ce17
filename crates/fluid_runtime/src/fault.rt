// Why an edit is refused.
ghost use Rattle.std.specs.Prelude.{◌≡◌};
ghost use Rattle.fluid_runtime.specs.Refused.{refusal};

use fluid_edits::{ChannelKind, Edit, is_in_range};
use fluid_json::NoMemory;
use std::alloc::AllocFailed;

/// Why an edit is refused, in the order in which the causes are looked for. Nothing changes then.
#[derive(Clone, Copy, Debug, PartialEq, Eq)]
pub enum EditFault {
    /// An edit other than an attach of an address under which no channel is visible.
    NoChannel,
    /// An edit of a map under an address that has a counter, or the other way round.
    WrongKind,
    /// An increment beyond plus or minus 2^53 - 1.
    OutOfRange,
    /// An attach of an address under which a channel is visible.
    Exists,
    NoMemory,
}

impl From<NoMemory> for EditFault {
    ghost use Rattle.std.specs.Prelude.{◌≡◌};
    ghost use Rattle.fluid_runtime.specs.declared.fault.EditFault.TheVariants.{NoMemory as Refused};

    ghost from_gives = { λ _ fault. fault ≡ Refused };

    fn from(_refused: NoMemory) -> EditFault {
        EditFault::NoMemory
    }
}

impl<T: Drop> From<AllocFailed<T>> for EditFault {
    ghost use Rattle.std.specs.Prelude.{◌≡◌};
    ghost use Rattle.fluid_runtime.specs.declared.fault.EditFault.TheVariants.{NoMemory as Refused};

    ghost from_gives = { λ _ fault. fault ≡ Refused };

    fn from(_refused: AllocFailed<T>) -> EditFault {
        EditFault::NoMemory
    }
}

/// Why an edit is refused where a channel of this kind is visible under its address, if at all.
pub(crate) fn refusal(edit: &Edit, kind: Option<ChannelKind>) -> Option<EditFault>
    ensures { result ≡ refusal edit.now kind }
{
    match (edit, kind) {
        (Edit::Attach(_, _), None) => None,
        (Edit::Attach(_, _), Some(_)) => Some(EditFault::Exists),
        (_, None) => Some(EditFault::NoChannel),
        (Edit::Increment(_, amount), Some(ChannelKind::Counter)) => {
            if is_in_range(*amount) {
                None
            } else {
                Some(EditFault::OutOfRange)
            }
        }
        (Edit::Increment(_, _), Some(ChannelKind::Map)) => Some(EditFault::WrongKind),
        (_, Some(ChannelKind::Map)) => None,
        (_, Some(ChannelKind::Counter)) => Some(EditFault::WrongKind),
    }
}
