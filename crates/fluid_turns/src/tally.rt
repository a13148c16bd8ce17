//! How often there was a verdict.
ghost use Rattle.std.specs.Prelude.{◌≡◌, ◌+◌, ◌-◌, ◌^◌, min};
ghost use Rattle.fluid_turns.specs.Tallying.{tally_with};

use fluid_types::Verdict;

/// How often an entry was absorbed, and how often one was nacked.
#[derive(Clone, Copy, Debug, PartialEq, Eq)]
pub struct Tally {
    pub absorbed: u64,
    pub nacked: u64,
}

impl Tally {
    pub fn new() -> Tally
        ensures { result ≡ record { absorbed = 0; nacked = 0 } }
    {
        Tally {
            absorbed: 0,
            nacked: 0,
        }
    }

    /// With one more entry of this verdict.
    pub fn with(self, verdict: &Verdict) -> Tally
        ensures { result ≡ tally_with verdict.now self }
    {
        match verdict {
            Verdict::Sequenced(_) => self,
            Verdict::Nacked(_) => Tally {
                nacked: self.nacked.saturating_add(1),
                ..self
            },
            Verdict::Dropped => self,
            Verdict::Absorbed => Tally {
                absorbed: self.absorbed.saturating_add(1),
                ..self
            },
        }
    }

    /// With so many more that were nacked.
    pub fn with_nacked(self, more: u64) -> Tally
        ensures { result ≡ record self { nacked = min (self.nacked + more) (2 ^ 64 - 1) } }
    {
        Tally {
            nacked: self.nacked.saturating_add(more),
            ..self
        }
    }
}
