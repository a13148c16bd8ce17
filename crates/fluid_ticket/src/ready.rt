// A prepared entry.
ghost use Rattle.std.specs.Prelude.{◌≡◌};

use fluid_clients::Row;
use fluid_types::{ClientId, Verdict};
use std::marker::Model;

/// What an entry changes in the table of clients.
#[derive(Drop)]
pub enum Change {
    Nothing,
    Joins {
        id: ClientId,
        row: Row,
    },
    Leaves {
        id: ClientId,
    },
    /// A submission was sequenced or absorbed.
    Accepts {
        id: ClientId,
        number: u64,
        reference: u64,
        moment: u64,
    },
    /// A submission was refused as below the minimum, which holds its client there.
    Holds {
        id: ClientId,
        number: u64,
        minimum: u64,
        moment: u64,
    },
    /// A client that may be joined was heard of, and nothing else.
    Hears {
        id: ClientId,
        moment: u64,
    },
}

/// An entry with its verdict, prepared in a state of a sequencer and not yet committed.
#[derive(Drop)]
pub struct Ready {
    verdict: Verdict,
    change: Change,
}

impl Model for Ready {
    ghost use Rattle.fluid_ticket.specs.State.{Prepared};

    ghost Value = { Prepared };

    ghost use Rattle.std.specs.Prelude.{refl};
    ghost use Rattle.std.specs.Coded.{code_by, coded×};
    ghost use Rattle.fluid_types.specs.declared.verdicts.Verdict.{Verdict};
    ghost use Rattle.fluid_types.specs.contracts.verdicts.Verdict as verdicts;
    ghost use Rattle.fluid_ticket.specs.declared.ready.Change.{Change};
    ghost use Rattle.fluid_ticket.specs.contracts.ready.Change as changes;

    ghost coded = { code_by (Verdict × Change) (coded× verdicts.the_row.coded changes.the_row.coded) (λ ready. (ready.verdict, ready.change)) (λ parts. record { verdict = parts.0; change = parts.1 }) (λ _. refl) };

    ghost view = { λ ready. record { verdict = ready.verdict; change = ready.change } };
}

impl Ready {
    pub(crate) fn new(verdict: Verdict, change: Change) -> Ready
        ensures { result ≡ record { verdict = verdict; change = change } }
    {
        Ready { verdict, change }
    }

    /// The verdict that the entry gets when it is committed.
    pub fn verdict(&self) -> &Verdict
        ensures { result.now ≡ self.now.verdict }
    {
        &self.verdict
    }

    pub(crate) fn into_parts(self) -> (Verdict, Change)
        ensures { result ≡ (self.verdict, self.change) }
    {
        let Ready { verdict, change } = self;
        (verdict, change)
    }
}
