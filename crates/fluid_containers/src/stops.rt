//! What ended a call on a lane and a store that were lent, as the end of a script.
ghost use Rattle.std.specs.Prelude.{◌≡◌};
ghost use Rattle.fluid_containers.specs.Ending.{stop_for, store_stop};

use fluid_callers::delta_stop;
use fluid_desk::{Stop, StoredFault, stop_of};
use fluid_door_link::LentFault;
use fluid_store::StoreFault;

/// What ended a call, as the end of a script.
pub(crate) fn stop_for(fault: LentFault) -> Stop
    ensures { result ≡ stop_for fault }
{
    match fault {
        LentFault::Lane(fault) => stop_of(fault),
        LentFault::Deltas(fault) => delta_stop(fault),
        LentFault::Store(fault) => store_stop(fault),
    }
}

fn store_stop(fault: StoreFault) -> Stop
    ensures { result ≡ store_stop fault }
{
    match fault {
        StoreFault::StoreFailed(note) => Stop::StoreFault(note),
        StoreFault::NoMemory => Stop::NoMemory,
        other => Stop::BadStored(StoredFault::Object(other)),
    }
}
