ghost use Rattle.std.specs.Prelude.{List, ℕ};
ghost use Rattle.fluid_io.specs.Causes.{Tells};
ghost use Rattle.fluid_lane.specs.declared.steps.Step.{Step as AStep};
ghost use Rattle.fluid_lane.specs.Standing.{LaneStands};
ghost use Rattle.fluid_lane.specs.Steps.{ledger};
ghost use Rattle.fluid_disk_lane.specs.Entered.{HoldsEntered};

use fluid_disk::Disk;
use fluid_disk_keeper::{Disks, GrowingKeeper};
use fluid_lane::Lane;

/// Gives the disks under a lane as they are: between any two of its calls. Every crash then leaves the records of all entered
/// entries. Inside a call each call of the keeper leaves the log as it was before, or longer (`GrowingKeeper`).
pub fn disks_of<D: Disk>(lane: Lane<GrowingKeeper<D>>) -> Disks<D>
    ensures { (l : List AStep) → LaneStands lane l → Tells lane.keeping.content (λ _.
        (image : List ℕ) → D.may_leave result.log image → HoldsEntered (ledger l) image) }
{
    lane.close().close()
}
