//! How a document is opened.
ghost use Rattle.std.specs.Prelude.{◌≡◌, ◌≤◌, IfOk, IfErr, OnErr};
ghost use Rattle.fluid_log.specs.declared.keeper.TheConstants.{LONGEST_KEPT};
ghost use Rattle.fluid_log.specs.Shelving.{IsIn, IsOut};
ghost use Rattle.fluid_types.specs.Forms.{largest};
ghost use Rattle.fluid_opening.specs.Opening.{StartDoes, OpenDoes, OpensOver, IsRisen};

use crate::DoorFault;
use fluid_io::FaultNote;
use fluid_lane::{Lane, Limits};
use fluid_log::{KeeperFault, Shelves};
use fluid_types::DocName;
use std::alloc::Global;

/// The most documents that are open at one time.
pub const MOST_DOCUMENTS: u64 = 1_024;

/// Takes the keeper of a document from its shelf, and starts its lane: what is kept is read, and a leave of each client that was
/// joined is entered at this moment, in milliseconds. After a fault the keeper is back on its shelf, perhaps with some of these
/// leaves.
pub fn start_lane<B: Shelves>(
    alloc: Global,
    shelves: &mut B,
    name: &DocName,
    limits: Limits,
    moment: u64,
) -> Result<Lane<B::K>, DoorFault>
    requires closed { IsIn (B.seen shelves.old) name.now }
    requires small { limits.bytes ≤ LONGEST_KEPT }
    requires moment { moment ≤ largest }
    ensures does { OpenDoes limits name.now moment (B.seen shelves.old) (B.seen shelves.new) result }
    ensures given { IfOk result (λ lane. (keeper : B.K) × OpensOver limits name.now moment (B.seen shelves.old) (B.seen shelves.new) (B.K.seen keeper) lane) }
    ensures back { OnErr result ((B.seen shelves.new).out ≡ (B.seen shelves.old).out) }
    ensures later { (B.seen shelves.old).faults ≤ (B.seen shelves.new).faults }
    ensures cause { IfErr result (IsRisen (B.seen shelves.old).faults (B.seen shelves.new).faults) }
{
    let before = shelves.faults();
    match shelves.keeper(alloc, name) {
        Ok(keeper) => start_over(alloc, shelves, name, keeper, limits, moment),
        Err(KeeperFault::Failed) => {
            let after = shelves.faults();
            Err(DoorFault::ShelfFailed(FaultNote { before, after }))
        }
        Err(KeeperFault::NoMemory) => Err(DoorFault::NoMemory),
    }
}

// Starts the lane of a document over the keeper that was given for it.
fn start_over<B: Shelves>(
    alloc: Global,
    shelves: &mut B,
    name: &DocName,
    keeper: B::K,
    limits: Limits,
    moment: u64,
) -> Result<Lane<B::K>, DoorFault>
    requires small { limits.bytes ≤ LONGEST_KEPT }
    requires moment { moment ≤ largest }
    requires out { IsOut (B.seen shelves.old) name.now }
    ensures later { (B.seen shelves.old).faults ≤ (B.seen shelves.new).faults }
    ensures does { StartDoes limits name.now moment (B.K.seen keeper) (B.seen shelves.old) (B.seen shelves.new) result }
{
    match Lane::start(alloc, keeper, limits, moment) {
        Ok(lane) => Ok(lane),
        Err((keeper, fault)) => {
            shelves.put_back(name, keeper);
            Err(DoorFault::from(fault))
        }
    }
}
