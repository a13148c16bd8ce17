//! What takes the lines of an input.
ghost use Rattle.std.specs.Prelude.{◌≡◌, ℕ, ◌+◌, ◌++◌, ◌∷◌, [], List, OnOk, OnErr};
ghost use Rattle.fluid_pipe.specs.Meaning.{Meaning};
ghost use Rattle.fluid_pipe.specs.Taking.{FailsBy, IsWithinMost, Takes};

use fluid_json::NoMemory;
use std::alloc::Global;

/// Why a taker doesn't take a text.
#[derive(Clone, Copy, Debug, PartialEq, Eq, Drop)]
pub enum Untaken<W, F> {
    /// The text is refused. The taker stays as it was.
    Refused(W),
    /// The taker failed, for want of memory or otherwise.
    Failed(F),
}

/// What the lines of an input are given to, one after another.
pub trait Taker {
    /// Why a text is refused.
    type Why: Drop;

    /// Why the taker failed.
    type Fault: Drop;

    // It took these lines, and no others, from where they have this meaning.
    ghost stands: { Self → Meaning Self.Why → List (List ℕ) → Type 0 };

    // It took at most so many lines.
    ghost within: { Self → ℕ → Type 0 };

    // The second came out of the first by lines that it was given.
    ghost follows: { Self → Self → Type 0 };

    // Between these two the taker failed so.
    ghost failed: { Self → Self → Self.Fault → Type 0 };

    // It failed at the last of these lines, of which the first stood where they have this meaning.
    ghost failed_at: { Self → Meaning Self.Why → List (List ℕ) → Type 0 };

    /// Takes the text of a line, an empty one as well, and puts what is written for it behind `waiting`, each line
    /// with its end. A text that isn't taken leaves `waiting` as it was.
    fn take(
        &mut self,
        alloc: Global,
        text: &str,
        waiting: &mut Vec<u8>,
    ) -> Result<(), Untaken<Self::Why, Self::Fault>>
        requires { IsWithinMost (within self.old) }
        ensures within { OnOk result ((n : ℕ) → within self.old n → within self.new (n + 1)) }
        ensures follows { follows self.old self.new }
        ensures failed { FailsBy (failed self.old self.new) result }
        ensures failed_at { (m : Meaning Self.Why) (before : List (List ℕ)) → stands self.old m before →
            FailsBy (λ _. failed_at self.new m (before ++ text.now ∷ [])) result }
        ensures waits { OnErr result (waiting.new.items ≡ waiting.old.items) }
        ensures takes { (m : Meaning Self.Why) (before : List (List ℕ)) → stands self.old m before →
            Takes m (stands self.new m) before text.now waiting.old.items waiting.new.items result };

    /// Puts the words for a refusal behind `line`. Without memory `line` stays as it was.
    fn push_words(&self, alloc: Global, line: &mut Vec<u8>, why: &Self::Why) -> Result<(), NoMemory>
        ensures words { OnOk result ((m : Meaning Self.Why) (before : List (List ℕ)) →
            stands self.now m before → line.new.items ≡ line.old.items ++ m.words why.now) }
        ensures kept { OnErr result (line.new.items ≡ line.old.items) };

    ghost follows_itself: { (t : Self) → follows t t };

    ghost follows_on: { (a b c : Self) → follows a b → follows b c → follows a c };

    ghost failed_on: { (a b c : Self) (fault : Self.Fault) → follows a b → failed b c fault → failed a c fault };
}
