//! How a lane begins.
ghost use Rattle.std.specs.Prelude.{◌≡◌, ℕ, ◌<◌, ◌≤◌, slice_get, Some, IfOk, IfErr};
ghost use Rattle.std.specs.FinMap.{keys, len};
ghost use Rattle.fluid_types.specs.Names.{IsName};
ghost use Rattle.fluid_log.specs.declared.keeper.TheConstants.{LONGEST_KEPT};
ghost use Rattle.fluid_types.specs.Forms.{largest};
ghost use Rattle.fluid_document.specs.Entries.{IsLevelled};
ghost use Rattle.fluid_document.specs.Loading.{newest};
ghost use Rattle.fluid_lane.specs.Faults.{IsCausedBy};
ghost use Rattle.fluid_lane.specs.Starting.{LeaveDoes, LeavesAll, Starts, StartsPartly};

use crate::LaneFault;
use crate::lane::Lane;
use fluid_document::{Document, kept_is_loaded, load, take_in};
use fluid_json::{LARGEST, NoMemory};
use fluid_log::Keeper;
use fluid_rules::Limits;
use fluid_types::{ClientId, Raw};
use std::alloc::Global;

impl<K: Keeper> Lane<K> {
    /// Reads the newest checkpoint and the log behind it, and enters a leave for each joined client, in byte order of ids: no
    /// connection outlives a process. The keeper that comes back with a fault has perhaps some of these leaves, the record of
    /// an append that failed among them.
    pub fn start(
        alloc: Global,
        keeper: K,
        limits: Limits,
        moment: u64,
    ) -> Result<Lane<K>, (K, LaneFault)>
        requires small { limits.bytes ≤ LONGEST_KEPT }
        requires moment { moment ≤ largest }
        ensures ok { IfOk result (Starts (K.seen keeper) limits moment) }
        ensures err { IfErr result (λ back. StartsPartly (K.seen keeper) (K.seen back.0) moment back.1) }
    {
        let mut keeper = keeper;
        let opened = keeper.checkpoints();
        let newest = newest(opened);
        kept_is_loaded();
        match load(alloc, &mut keeper, newest) {
            Ok(document) => {
                let mut document = document;
                match dismiss_all(alloc, &mut keeper, &mut document, moment) {
                    Ok(()) => Ok(Lane::begun(keeper, document, limits, opened)),
                    Err(fault) => Err((keeper, fault)),
                }
            }
            Err(fault) => Err((keeper, LaneFault::from(fault))),
        }
    }
}

// The newest of so many checkpoints.
fn newest(count: u64) -> Option<u64>
    ensures { result ≡ newest count }
{
    if count == 0 { None } else { Some(count - 1) }
}

// Enters a leave for each joined client, the first id first; each leave takes it out of the table.
fn dismiss_all<K: Keeper>(
    alloc: Global,
    keeper: &mut K,
    document: &mut Document,
    moment: u64,
) -> Result<(), LaneFault>
    requires moment { moment ≤ largest }
    requires reached { document.old.messages.before ≤ (K.seen keeper.old).deltas }
    ensures later { (K.seen keeper.old).faults ≤ (K.seen keeper.new).faults }
    ensures cause { IfErr result (IsCausedBy (K.seen keeper.old).faults (K.seen keeper.new).faults) }
    ensures levelled { IsLevelled document.old.entries document.old.messages }
    ensures does { LeavesAll moment (K.seen keeper.old) (K.seen keeper.new) document.old document.new result }
{
    let entered = document.entered();
    prove!(entered <= LARGEST);
    let count = document.clients().count();
    for _ in 0..count {
        match dismiss_first(alloc, keeper, document, moment) {
            Ok(()) => {}
            Err(fault) => return Err(fault),
        }
    }
    Ok(())
}

// Enters a leave for the first of the joined clients.
fn dismiss_first<K: Keeper>(
    alloc: Global,
    keeper: &mut K,
    document: &mut Document,
    moment: u64,
) -> Result<(), LaneFault>
    requires moment { moment ≤ largest }
    requires some { 0 < len document.old.entries.state.sequencer.rows }
    requires reached { document.old.messages.before ≤ (K.seen keeper.old).deltas }
    ensures later { (K.seen keeper.old).faults ≤ (K.seen keeper.new).faults }
    ensures cause { IfErr result (IsCausedBy (K.seen keeper.old).faults (K.seen keeper.new).faults) }
    ensures reads { (K.seen keeper.new).reads ≡ (K.seen keeper.old).reads }
    ensures does { LeaveDoes moment (K.seen keeper.old) (K.seen keeper.new) document.old document.new result }
{
    if document.entered() >= LARGEST {
        return Err(LaneFault::Worn);
    }
    let id = joined_id(alloc, document, 0)?;
    let raw = Raw::Leave { id, moment };
    take_in(alloc, keeper, document, &raw)?;
    Ok(())
}

// The joined id in this place once more.
pub(crate) fn joined_id(
    alloc: Global,
    document: &Document,
    place: u64,
) -> Result<ClientId, NoMemory>
    requires { place < len document.now.entries.state.sequencer.rows }
    ensures name { IfOk result IsName }
    ensures there { IfOk result (λ id. slice_get (keys document.now.entries.state.sequencer.rows) place ≡ Some id) }
{
    match document.clients().id_at(place) {
        Some(id) => {
            // (read for its clause alone)
            let _name = id.as_str();
            id.copy(alloc)
        }
        None => unreachable!(),
    }
}
