//! Why a call on a lane or on a store that are lent failed.
use fluid_deltas::DeltaFault;
use fluid_lane::LaneFault;
use fluid_store::StoreFault;

/// Why a call on a lane or on a store that are lent failed.
#[derive(Drop)]
pub enum LentFault {
    /// A call that enters.
    Lane(LaneFault),
    /// A call that reads messages.
    Deltas(DeltaFault),
    /// A call on the objects.
    Store(StoreFault),
}
