// An operation of a client, which fits a log. It stands outside the tests, since a file of `proofs/` names its type.
ghost use Rattle.std.specs.Prelude.{◌≡◌};
ghost use Rattle.fluid_types.specs.Fits.{Fits};
ghost use Rattle.fluid_lane.specs.Standing.{IsLeaveOrSubmission};

use fluid_types::Raw;
use std::marker::Model;

#[derive(Drop)]
pub struct Operation {
    raw: Raw,
}

impl Model for Operation {
    ghost use Rattle.fluid_types.specs.declared.entries.Raw.{Raw as ARaw};
    ghost use Rattle.fluid_types.specs.contracts.entries.Raw as entry;
    ghost use Rattle.fluid_types.specs.Fits.{Fits};
    ghost use Rattle.fluid_lane.specs.Standing.{IsLeaveOrSubmission};

    ghost Value = { ARaw };

    ghost coded = { entry.the_row.coded };

    ghost view = { λ o. o.raw };

    ghost invariant = { λ o. Fits o.raw × IsLeaveOrSubmission o.raw };
}

impl Operation {
    pub fn of(raw: Raw) -> Operation
        requires fits { Fits raw }
        requires kind { IsLeaveOrSubmission raw }
        ensures { result ≡ raw }
    {
        Operation { raw }
    }

    pub fn into_raw(self) -> Raw
        ensures is { result ≡ self }
        ensures fits { Fits result }
        ensures kind { IsLeaveOrSubmission result }
    {
        let Operation { raw } = self;
        raw
    }
}
