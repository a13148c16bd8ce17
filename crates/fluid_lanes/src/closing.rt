// How all documents are closed.
ghost use Rattle.fluid_lanes.specs.Opened.{AreShelved};
ghost use Rattle.fluid_lanes.specs.Closing.{AllComeBack, OneComesBack};

use crate::rows::Rows;
use fluid_lane::Lane;
use fluid_log::Shelves;

/// Puts the keeper of each lane back.
pub(crate) fn close_all<B: Shelves>(shelves: B, lanes: Rows<Lane<B::K>>) -> B
where
    B::K: Drop,
    requires { AreShelved lanes.values (B.seen shelves) }
    ensures { AllComeBack lanes.values (B.seen shelves) (B.seen result) }
{
    let mut shelves = shelves;
    let mut lanes = lanes;
    let count = lanes.len();
    for _ in 0..count {
        close_last(&mut shelves, &mut lanes);
    }
    shelves
}

// Puts the keeper of the last lane back, where there is one.
fn close_last<B: Shelves>(shelves: &mut B, lanes: &mut Rows<Lane<B::K>>)
where
    B::K: Drop,
    requires { AreShelved lanes.old.values (B.seen shelves.old) }
    ensures { OneComesBack lanes.old.values lanes.new.values (B.seen shelves.old) (B.seen shelves.new) }
{
    match lanes.take_last() {
        Some((name, lane)) => shelves.put_back(&name, lane.close()),
        None => {}
    }
}
