// What a summarize asks for, and what the scribe answers.
ghost use Rattle.std.specs.Prelude.{◌≡◌};
ghost use Rattle.fluid_rules.specs.Scribe.{rule_text};

use fluid_json::Text;
use fluid_tree::Id;

/// What a summarize asks for.
#[derive(Drop)]
pub struct Proposed {
    /// The id of the tree of the application's state.
    pub app: Id,
    /// The handle of the summary on which it builds, as a text; empty for the first one.
    pub head: Text,
}

/// Why a summary is refused, the first that fits.
#[derive(Clone, Copy, Debug, PartialEq, Eq)]
pub enum SummaryRule {
    /// The summarize's contents aren't an object with an id and a head.
    Malformed,
    /// It doesn't build on the last acknowledged summary.
    StaleHead,
    /// It has less of the order than the last acknowledged summary.
    OldReference,
    /// Its tree isn't stored.
    Missing,
}

impl SummaryRule {
    /// The text that the clients read, in the member `message` of a summaryNack.
    #[tactic(auto, unfolding(crate::specs::Scribe::rule_text))]
    pub fn text(self) -> &'static str
        ensures { result.now ≡ rule_text self }
    {
        match self {
            SummaryRule::Malformed => "summarize contents are malformed",
            SummaryRule::StaleHead => "head is not the last acknowledged summary",
            SummaryRule::OldReference => "reference is below the last acknowledged summary",
            SummaryRule::Missing => "summary tree is not stored",
        }
    }
}

/// The scribe's answer to a report on a summary.
#[derive(Clone, Copy, Debug, PartialEq, Eq)]
pub enum Answer {
    /// The report isn't on the pending summarize.
    Dropped,
    /// A summaryAck with the id of the version's tree.
    Ack { handle: Id },
    /// A summaryNack.
    Refused(SummaryRule),
}
