//! A document's first use.
ghost use Rattle.std.specs.Prelude.{◌≡◌, ◌≤◌, ℕ, IfOk, IfErr};
ghost use Rattle.fluid_types.specs.Forms.{largest};
ghost use Rattle.fluid_transcript.specs.World.{World};
ghost use Rattle.fluid_desk.specs.Stands.{DeskStands};
ghost use Rattle.fluid_desk.specs.Stopping.{HasRun, RunsOn, turned_by};
ghost use Rattle.fluid_desk.specs.Acting.{IsReadied, IsUnready};

use crate::stop::{Stop, stop_of};
use fluid_document::kept_is_loaded;
use fluid_lanes::Lanes;
use fluid_log::Shelves;
use fluid_opening::DoorFault;
use fluid_types::DocName;
use std::alloc::Global;

/// Opens a document that isn't open yet. False where as many are open as may be, and it isn't one.
pub fn ready<B: Shelves>(
    alloc: Global,
    lanes: &mut Lanes<B>,
    name: &DocName,
    moment: u64,
) -> Result<bool, Stop>
where
    B::K: Drop,
    requires moment { moment ≤ largest }
    ensures readied { IfOk result (IsReadied name.now moment lanes.old lanes.new) }
    ensures honest { (w : World) → DeskStands lanes.old w → IfErr result (IsUnready w name.now lanes.new) }
    ensures runs { (before steps : ℕ) → HasRun before steps lanes.old → RunsOn before steps lanes.new result }
    ensures limits { lanes.new.limits ≡ lanes.old.limits }
{
    kept_is_loaded();
    match lanes.open(alloc, name, moment) {
        Ok(()) => Ok(true),
        Err(fault) => match turned_away(fault) {
            Ok(()) => Ok(false),
            Err(stop) => Err(stop),
        },
    }
}

/// Why a document wasn't opened, unless as many are open as may be.
pub(crate) fn turned_away(fault: DoorFault) -> Result<(), Stop>
    ensures { result ≡ turned_by fault }
{
    match fault {
        DoorFault::TooManyDocuments(_) => Ok(()),
        DoorFault::ShelfFailed(note) => Err(Stop::KeeperFault(note)),
        DoorFault::Lane(fault) => Err(stop_of(fault)),
        DoorFault::NoMemory => Err(Stop::NoMemory),
    }
}
