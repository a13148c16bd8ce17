//! What clients submit.
ghost use Rattle.std.specs.Prelude.{◌≤◌, ℕ, List, IfSome};
ghost use Rattle.fluid_types.specs.Fits.{Fits};
ghost use Rattle.fluid_types.specs.Names.{IsName};
ghost use Rattle.fluid_types.specs.Forms.{largest};
ghost use Rattle.fluid_lane.specs.Standing.{IsLeaveOrSubmission};

use fluid_codec::{Event, read_event, read_raw};
use fluid_io::LONGEST_TEXT;
use fluid_json::Json;
use fluid_lane::LaneFault;
use fluid_readback::read_entries_fit;
use fluid_types::{Raw, Scopes, Verdict};
use std::alloc::Global;
use std::marker::Model;

/// An operation of a client, as an entry that fits a log.
#[derive(Drop)]
pub(crate) struct Operation {
    raw: Raw,
}

impl Model for Operation {
    ghost use Rattle.fluid_types.specs.declared.entries.Raw.{Raw as ARaw};
    ghost use Rattle.fluid_types.specs.contracts.entries.Raw as entry;
    ghost use Rattle.fluid_types.specs.Fits.{Fits};
    ghost use Rattle.fluid_lane.specs.Standing.{IsLeaveOrSubmission};

    ghost Value = { ARaw };

    ghost coded = { entry.the_row.coded };

    ghost view = { λ o. o.raw };

    ghost invariant = { λ o. Fits o.raw × IsLeaveOrSubmission o.raw };
}

impl Operation {
    pub(crate) fn raw(&self) -> &Raw
        ensures fits { Fits result.now }
        ensures kind { IsLeaveOrSubmission result.now }
    {
        &self.raw
    }

    pub(crate) fn into_raw(self) -> Raw
        ensures fits { Fits result }
        ensures kind { IsLeaveOrSubmission result }
    {
        let Operation { raw } = self;
        raw
    }
}

/// The first operations of a client, so many, with 60 bytes of contents each.
pub(crate) fn operations(alloc: Global, client: &str, count: u64) -> Option<Vec<Operation>> {
    let mut all = Vec::new(alloc);
    for number in 1..=count {
        let operation = operation_of(alloc, client, number)?;
        all.push(operation).ok()?;
    }
    Some(all)
}

fn operation_of(alloc: Global, client: &str, number: u64) -> Option<Operation> {
    let text = format!(in alloc;
        r#"{{"clientId":"{client}","moment":5,"operation":{{"clientSequenceNumber":{number},"contents":"0123456789012345678901234567890123456789012345678901234567","referenceSequenceNumber":-1,"type":"op"}},"raw":"submit"}}"#
    ).ok()?;
    if text.len() > LONGEST_TEXT {
        return None;
    }
    read_entries_fit();
    match read_raw(alloc, text.as_str()) {
        Ok(raw) if matches!(raw, Raw::Leave { .. } | Raw::Submit { .. }) => Some(Operation { raw }),
        _ => None,
    }
}

const CONNECT: &str =
    r#"["connect_document",{"id":"d","mode":"write","scopes":["doc:read","doc:write"]}]"#;

/// The scopes and the detail of a client that connects: under any id its join fits a log.
pub(crate) fn client(alloc: Global) -> Option<(Scopes, Json)>
    ensures { IfSome result (λ c. (id : List ℕ) (moment : ℕ) → IsName id → moment ≤ largest → Fits (Raw.Join id c.0 c.1 moment)) }
{
    read_entries_fit();
    match read_event(alloc, CONNECT) {
        Ok(Event::Connect { scopes, client, .. }) => Some((scopes, client)),
        _ => None,
    }
}

/// Whether an entry was given a number.
pub(crate) fn is_sequenced(answer: &Result<Verdict, LaneFault>) -> bool {
    match answer {
        Ok(Verdict::Sequenced(_)) => true,
        _ => false,
    }
}
