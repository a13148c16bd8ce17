//! The numbers of the document.
ghost use Rattle.std.specs.Prelude.{◌≡◌, ◌-◌, ◌≤◌, true};
ghost use Rattle.std.specs.FinMap.{get};
ghost use Rattle.fluid_types.specs.Forms.{largest};
ghost use Rattle.fluid_transcript.specs.World.{World, document, is_open};
ghost use Rattle.fluid_transcript.specs.Sound.{ledger_in};
ghost use Rattle.fluid_desk.specs.Stands.{DeskStands};
ghost use Rattle.fluid_workload.specs.Working.{last_number};
ghost use Rattle.fluid_turns.specs.Figuring.{AreFigures, ReadsOff, last_in};

use fluid_lane::Lane;
use fluid_lanes::Lanes;
use fluid_log::{Keeper, Shelves};
use fluid_types::{ClientId, DocName};

/// How many entries the document has, its last number, and how many checkpoints and acknowledged summaries.
#[derive(Clone, Copy, Debug, PartialEq, Eq)]
pub struct Figures {
    pub entries: u64,
    pub sequence: u64,
    pub checkpoints: u64,
    pub summaries: u64,
}

impl Figures {
    /// How many entries have no message.
    pub fn unsequenced(self) -> u64
        ensures { result ≡ self.entries - self.sequence }
    {
        self.entries.saturating_sub(self.sequence)
    }
}

/// The numbers of a document; all are 0 where it isn't open.
pub fn figures_of<B: Shelves>(lanes: &mut Lanes<B>, name: &DocName) -> Figures
where
    B::K: Drop,
    ensures same { lanes.new ≡ lanes.old }
    ensures are { (w : World) → DeskStands lanes.old w → is_open w name.now ≡ true → AreFigures result (document w name.now) }
    ensures few { result.entries ≤ largest }
{
    if !lanes.is_open(name) {
        return Figures {
            entries: 0,
            sequence: 0,
            checkpoints: 0,
            summaries: 0,
        };
    }
    figures_on(lanes.lent(name))
}

fn figures_on<K: Keeper>(lane: &Lane<K>) -> Figures
    ensures reads { ReadsOff lane.now result }
    ensures few { result.entries ≤ largest }
{
    Figures {
        entries: lane.entered(),
        sequence: lane.seq(),
        checkpoints: lane.checkpoints(),
        summaries: lane.acks().len() as u64,
    }
}

/// The last client number of a client of a document; 0 where it isn't joined, or the document isn't open.
pub(crate) fn last_number<B: Shelves>(lanes: &mut Lanes<B>, name: &DocName, id: &ClientId) -> u64
where
    B::K: Drop,
    ensures same { lanes.new ≡ lanes.old }
    ensures is { (w : World) → DeskStands lanes.old w → is_open w name.now ≡ true → result ≡ last_number (ledger_in w name.now) id.now }
{
    if !lanes.is_open(name) {
        return 0;
    }
    last_number_of(lanes.lent(name), id)
}

fn last_number_of<K: Keeper>(lane: &Lane<K>, id: &ClientId) -> u64
    ensures { result ≡ last_in (get lane.now.entries.state.sequencer.rows id.now) }
{
    match lane.clients().row(id) {
        Some(row) => row.last,
        None => 0,
    }
}
