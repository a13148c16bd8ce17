//! The world from which a script begins.
ghost use Rattle.std.specs.Prelude.{None, Option};
ghost use Rattle.fluid_transcript.specs.World.{World};

use std::marker::Brand;

/// The world from which a script begins, where one is told of. The proof of each run picks it.
pub(crate) trait Origin {
    ghost told: { Option World };
}

impl Origin for Brand {
    ghost told = { None };
}
