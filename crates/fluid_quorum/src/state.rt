//! What a scribe keeps of the messages of an order, part by part.
ghost use Rattle.std.specs.Prelude.{◌≡◌};

use crate::quorum::Quorum;
use fluid_tree::SummaryRef;
use fluid_types::Messages;
use std::marker::Model;

/// What a scribe keeps of the messages of an order. The base is a message of it, behind which all references still lie.
#[derive(Drop)]
pub struct ScribeState {
    /// The quorum at the base.
    pub base: Quorum,
    /// The joins, leaves and proposes behind the base, in order.
    pub behind: Messages,
    /// Where the minimum changed behind the base.
    pub minima: Minima,
    /// The summarize messages that wait for an answer, in order.
    pub pending: Messages,
    /// The summaries that were acknowledged, oldest first.
    pub acks: Acks,
}

/// Messages with another minimum than the one before: of each its number and its minimum, in order.
#[derive(Drop)]
pub struct Minima {
    vec: Vec<(u64, u64)>,
}

impl Model for Minima {
    ghost use Rattle.std.specs.Prelude.{ℕ, List};
    ghost use Rattle.std.specs.Coded.{coded×, coded_ℕ, coded_list};

    ghost Value = { List (ℕ × ℕ) };

    ghost coded = { coded_list (coded× coded_ℕ coded_ℕ) };

    ghost view = { λ m. m.vec.items };
}

impl Minima {
    /// Takes no memory.
    pub fn new(vec: Vec<(u64, u64)>) -> Minima
        ensures { result ≡ vec.items }
    {
        Minima { vec }
    }

    /// Takes no memory.
    pub fn into_vec(self) -> Vec<(u64, u64)>
        ensures { result.items ≡ self }
    {
        let Minima { vec } = self;
        vec
    }

    pub fn as_slice(&self) -> &[(u64, u64)]
        ensures { result.now ≡ self.now }
    {
        self.vec.as_slice()
    }
}

/// Summaries that were acknowledged, oldest first.
#[derive(Drop)]
pub struct Acks {
    vec: Vec<SummaryRef>,
}

impl Model for Acks {
    ghost use Rattle.std.specs.Prelude.{List};
    ghost use Rattle.std.specs.Coded.{coded_list};
    ghost use Rattle.fluid_tree.specs.declared.id.SummaryRef.{SummaryRef};
    ghost use Rattle.fluid_tree.specs.contracts.id.SummaryRef as reference;

    ghost Value = { List SummaryRef };

    ghost coded = { coded_list reference.the_row.coded };

    ghost view = { λ a. a.vec.items };
}

impl Acks {
    /// Takes no memory.
    pub fn new(vec: Vec<SummaryRef>) -> Acks
        ensures { result ≡ vec.items }
    {
        Acks { vec }
    }

    /// Takes no memory.
    pub fn into_vec(self) -> Vec<SummaryRef>
        ensures { result.items ≡ self }
    {
        let Acks { vec } = self;
        vec
    }

    pub fn as_slice(&self) -> &[SummaryRef]
        ensures { result.now ≡ self.now }
    {
        self.vec.as_slice()
    }
}
