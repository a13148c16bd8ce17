// Nacks: why a submission is refused.
ghost use Rattle.std.specs.Prelude.{◌≡◌, ◌++◌, IfOk, MatchResult, codes};
ghost use Rattle.fluid_types.specs.Texts.{fault_text, kind_of, code_of, kind_name, rule_text};
ghost use Rattle.fluid_types.specs.declared.nacks.NackRule.TheVariants.{Unread};

use crate::{CodecFault, Submission};
use fluid_json::{NoMemory, Text};
use std::alloc::Global;

/// Why a submission is refused. The first five are verdicts of a document; the others are those of
/// its front and enter no log.
#[derive(Clone, Copy, Debug, PartialEq, Eq)]
pub enum NackRule {
    Gap,
    Nonexistent,
    Below,
    Ahead,
    Scope,
    /// The text is outside the grammar. Whoever makes it leaves want of memory out: that is no fault of a text.
    Unread(CodecFault),
    NotConnected,
    ForeignClient,
    ReadOnly,
    Full,
}

/// The sorts of nack that a client tells apart.
#[derive(Clone, Copy, Debug, PartialEq, Eq)]
pub enum NackKind {
    BadRequest,
    InvalidScope,
    LimitExceeded,
}

impl NackKind {
    /// The code of this sort, as in HTTP.
    #[tactic(auto, unfolding(crate::specs::Texts::code_of))]
    pub fn code(self) -> u32
        ensures { result ≡ code_of self }
    {
        match self {
            NackKind::BadRequest => 400,
            NackKind::InvalidScope => 403,
            NackKind::LimitExceeded => 429,
        }
    }

    /// The name that a client reads, in the member `type`.
    #[tactic(auto, unfolding(crate::specs::Texts::kind_name))]
    pub fn name(self) -> &'static str
        ensures { result.now ≡ kind_name self }
    {
        match self {
            NackKind::BadRequest => "BadRequestError",
            NackKind::InvalidScope => "InvalidScopeError",
            NackKind::LimitExceeded => "LimitExceededError",
        }
    }
}

impl NackRule {
    #[tactic(auto, unfolding(crate::specs::Texts::kind_of))]
    pub fn kind(&self) -> NackKind
        ensures { result ≡ kind_of self.now }
    {
        match self {
            NackRule::Gap
            | NackRule::Nonexistent
            | NackRule::Below
            | NackRule::Ahead
            | NackRule::Unread(_)
            | NackRule::NotConnected
            | NackRule::ForeignClient => NackKind::BadRequest,
            NackRule::Scope | NackRule::ReadOnly => NackKind::InvalidScope,
            NackRule::Full => NackKind::LimitExceeded,
        }
    }

    /// The code of its sort, as in HTTP.
    pub fn code(&self) -> u32
        ensures { result ≡ code_of (kind_of self.now) }
    {
        self.kind().code()
    }

    /// The text of a rule, where it is always the same; of `Unread`, the fault that its text tells.
    #[tactic(auto, unfolding(crate::specs::Texts::rule_text))]
    pub fn words(&self) -> Result<&'static str, CodecFault>
        ensures { MatchResult result (λ words. words.now ≡ rule_text self.now) (λ fault. self.now ≡ Unread fault) }
    {
        match self {
            NackRule::Gap => Ok("Gap in client sequence numbers"),
            NackRule::Nonexistent => Ok("Nonexistent client"),
            NackRule::Below => Ok("Reference below the minimum"),
            NackRule::Ahead => Ok("Reference ahead of the order"),
            NackRule::Scope => Ok("summary:write is missing"),
            NackRule::Unread(fault) => Err(*fault),
            NackRule::NotConnected => Ok("not connected"),
            NackRule::ForeignClient => Ok("foreign client"),
            NackRule::ReadOnly => Ok("read only connection"),
            NackRule::Full => Ok("document is full"),
        }
    }

    /// The text that a client reads, in the member `message`.
    #[tactic(auto, unfolding(crate::specs::Texts::rule_text))]
    pub fn text(&self, alloc: Global) -> Result<Text, NoMemory>
        ensures { IfOk result (λ text. text ≡ rule_text self.now) }
    {
        match self.words() {
            Ok(words) => Text::copied(alloc, words),
            Err(fault) => unread_text(alloc, fault),
        }
    }
}

fn unread_text(alloc: Global, fault: CodecFault) -> Result<Text, NoMemory>
    ensures { IfOk result (λ text. text ≡ codes "bad event: " ++ fault_text fault) }
{
    let cause = fault.text(alloc)?;
    let text = format!(in alloc; "bad event: {}", cause.as_str())?;
    Ok(Text::new(text))
}

/// A refusal as it is sent.
#[derive(Drop)]
pub struct Nack {
    pub rule: NackRule,
    /// What was refused; None in the nacks of a front.
    pub operation: Option<Submission>,
    /// The minimum sequence number at that moment; -1 in the nacks of a front.
    pub minimum: i64,
}

impl Nack {
    pub fn copy(&self, alloc: Global) -> Result<Nack, NoMemory>
        ensures { IfOk result (λ copy. copy ≡ self.now) }
    {
        let operation = match &self.operation {
            Some(submission) => Some(submission.copy(alloc)?),
            None => None,
        };
        Ok(Nack {
            rule: self.rule,
            operation,
            minimum: self.minimum,
        })
    }
}
