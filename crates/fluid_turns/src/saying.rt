//! What a client submits.
ghost use Rattle.std.specs.Prelude.{◌≡◌, ◌+◌, ◌≤◌, ℕ, true, IfOk, length};
ghost use Rattle.std.specs.FinMap.{get};
ghost use Rattle.fluid_json.specs.Printed.{printed};
ghost use Rattle.fluid_codec.specs.Laws.{IsNested};
ghost use Rattle.fluid_loader.specs.Fitting.{most_contents};
ghost use Rattle.fluid_transcript.specs.World.{is_open};
ghost use Rattle.fluid_desk.specs.Stands.{DeskStands};
ghost use Rattle.fluid_workload.specs.Working.{Workload as AWorkload, last_collected, named, work, within as may};
ghost use Rattle.fluid_turns.specs.Saying.{IsShortSaying, has_for};

use crate::figures::last_number;
use crate::sent::{Fitting, Sent};
use crate::writer::Writer;
use fluid_edits::Edit;
use fluid_json::{Json, LARGEST, NoMemory};
use fluid_lanes::Lanes;
use fluid_log::Shelves;
use fluid_types::{DocName, Offered, Submission};
use std::alloc::Global;

/// What a client submits in a turn.
#[derive(Drop)]
pub enum Saying {
    /// A noop with the number 1.
    Noop,
    /// Its last submission that was sequenced or absorbed.
    Again,
    /// An op that leaves a number out.
    Gap,
    /// An op of this edit.
    Op(Edit),
}

/// What a client has to submit. None where it has nothing, or where no record could have its numbers.
pub fn submission<B: Shelves>(
    alloc: Global,
    lanes: &mut Lanes<B>,
    sent: &Sent,
    document: &DocName,
    writer: &Writer,
    saying: &Saying,
) -> Result<Option<Fitting>, NoMemory>
where
    B::K: Drop,
    requires short { IsShortSaying saying.now }
    ensures same { lanes.new ≡ lanes.old }
    ensures is { (w : AWorkload) (client : ℕ) → DeskStands lanes.old w.world → is_open w.world work ≡ true → document.now ≡ work → sent.now.table.values ≡ w.sent → writer.now.name ≡ named client →
        writer.now.collected ≡ last_collected w.world client → IfOk result (λ given. given ≡ has_for saying.now w client writer.now.id) }
{
    match saying {
        Saying::Noop => Ok(within(1, writer.collected, Offered::Noop, Json::null())),
        Saying::Again => again(alloc, sent, writer),
        Saying::Gap => {
            let number = last_number(lanes, document, &writer.id);
            Ok(next(number, 2, writer, Json::null()))
        }
        Saying::Op(edit) => {
            let contents = edit.to_json(alloc)?;
            let number = last_number(lanes, document, &writer.id);
            Ok(next(number, 1, writer, contents))
        }
    }
}

fn again(alloc: Global, sent: &Sent, writer: &Writer) -> Result<Option<Fitting>, NoMemory>
    ensures { IfOk result (λ given. given ≡ get sent.now.table.values writer.now.name) }
{
    match sent.get(&writer.name) {
        Some(last) => {
            let last = last.copy(alloc)?;
            Ok(Some(last))
        }
        None => Ok(None),
    }
}

// An op whose number comes so far behind the last one.
fn next(last: u64, more: u64, writer: &Writer, contents: Json) -> Option<Fitting>
    requires few { more ≤ 2 }
    requires nested { IsNested 98 contents }
    requires short { length (printed contents) ≤ most_contents }
    ensures { result ≡ may (last + more) writer.now.collected Offered.Op contents }
{
    match last.checked_add(more) {
        Some(number) => within(number, writer.collected, Offered::Op, contents),
        None => None,
    }
}

// A submission with this client number and this reference, where a record can have both.
fn within(number: u64, reference: u64, kind: Offered, contents: Json) -> Option<Fitting>
    requires nested { IsNested 98 contents }
    requires short { length (printed contents) ≤ most_contents }
    ensures { result ≡ may number reference kind contents }
{
    if number > LARGEST || reference > LARGEST {
        return None;
    }
    Some(Fitting::new(Submission {
        client_number: number,
        reference: reference as i64,
        kind,
        contents,
        metadata: None,
    }))
}
