//! How a scribe's call ends.
ghost use Rattle.std.specs.Prelude.{◌≡◌};
ghost use Rattle.fluid_doors.specs.Scribing.{of_lane, of_store};

use fluid_lane::LaneFault;
use fluid_store::StoreFault;
use fluid_types::Verdict;

/// What a scribe has done.
#[derive(Drop)]
pub enum ScribeEnd {
    /// No summary was pending when it looked.
    Idle,
    /// The pending one was answered by a report with this verdict.
    Concluded(Verdict),
}

/// Why a scribe entered no report.
#[derive(Drop)]
pub enum ScribeFault {
    /// The store failed, or other bytes are held under the id of an object that was to be put.
    Store(StoreFault),
    /// The report was refused.
    Lane(LaneFault),
    /// Whatever lacked it.
    NoMemory,
}

pub(crate) fn of_lane(fault: LaneFault) -> ScribeFault
    ensures { result ≡ of_lane fault }
{
    match fault {
        LaneFault::NoMemory => ScribeFault::NoMemory,
        other => ScribeFault::Lane(other),
    }
}

pub(crate) fn of_store(fault: StoreFault) -> ScribeFault
    ensures { result ≡ of_store fault }
{
    match fault {
        StoreFault::NoMemory => ScribeFault::NoMemory,
        other => ScribeFault::Store(other),
    }
}
