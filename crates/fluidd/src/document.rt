//! A document, as a run of `sequence` keeps it.
ghost use Rattle.std.specs.Prelude.{◌≡◌, ℕ, ◌+◌, ◌-◌, ◌*◌, ◌^◌, ◌<◌, ◌≤◌, List, [], ◌∷◌, ◌++◌, OnOk, OnErr};
ghost use Rattle.fluid_io.specs.declared.lines.TheConstants.{MOST_LINES};
ghost use Rattle.fluid_types.specs.Fits.{IsInRange};
ghost use Rattle.fluid_types.specs.Ledger.{Ledger};
ghost use Rattle.std.specs.FinMap.{len};
ghost use Rattle.fluid_rules.specs.Counted.{is_counted};
ghost use Rattle.fluid_rules.specs.Rules.{verdict};
ghost use Rattle.fluidd.specs.Input.{limit_refusal};
ghost use Rattle.fluidd.specs.Output.{entry_line};
ghost use Rattle.fluidd.specs.Documents.{Stands, IsWithin, Enters, Admits, with_entry, is_new_in, limit_refusal_by};
ghost use Rattle.fluid_types.specs.declared.entries.Raw.{Raw};
ghost use Rattle.fluid_core.specs.Entering.{IsPreparedIn, prepared, StandsFor};

use crate::refusal::Why;
use fluid_codec::{push_verdict, read_raw};
use fluid_core::{Core, CoreReady};
use fluid_json::NoMemory;
use fluid_pipe::{Taker, Untaken};
use fluid_rules::{Limits, is_counted};
use fluid_types::{CodecFault, Raw, Verdict};
use std::alloc::Global;

/// A document between two lines of its input.
#[derive(Drop)]
pub(crate) struct Document {
    core: Core,
    /// The joins and submissions that were entered.
    counted: u64,
    limits: Limits,
}

impl Taker for Document {
    ghost use Rattle.fluidd.specs.Documents.{StandsBehind, IsWithin as IsWithinFor};

    type Why = Why;

    type Fault = NoMemory;

    ghost stands = { λ d m before. StandsBehind m before d };

    ghost within = { λ d n. IsWithinFor n d };

    ghost follows = { λ _ _. Unit {0} };

    ghost failed = { λ _ _ _. Unit {0} };

    ghost failed_at = { λ _ _ _. Unit {0} };

    ghost follows_itself = { λ _. tt };

    ghost follows_on = { λ _ _ _ _ _. tt };

    ghost failed_on = { λ _ _ _ _ _ _. tt };

    /// Enters the raw entry that the text of a line spells.
    fn take(
        &mut self,
        alloc: Global,
        text: &str,
        waiting: &mut Vec<u8>,
    ) -> Result<(), Untaken<Why, NoMemory>> {
        self.enter_text(alloc, text, waiting)
    }

    fn push_words(&self, alloc: Global, line: &mut Vec<u8>, why: &Why) -> Result<(), NoMemory> {
        let words = why.text(alloc)?;
        line.extend_from_slice(words.as_str().as_bytes())?;
        Ok(())
    }
}

impl Document {
    /// A document without entries.
    pub(crate) fn new(alloc: Global, limits: Limits) -> Document
        ensures stands { Stands limits [] result }
        ensures within { IsWithin 0 result }
    {
        Document {
            core: Core::new(alloc),
            counted: 0,
            limits,
        }
    }

    // Enters the raw entry that a text spells. An empty one spells none.
    #[tactic(auto, unfolding(crate::specs::Input::text_refusal, crate::specs::Input::entry_of))]
    fn enter_text(
        &mut self,
        alloc: Global,
        text: &str,
        waiting: &mut Vec<u8>,
    ) -> Result<(), Untaken<Why, NoMemory>>
        requires { IsWithin MOST_LINES self.old }
        ensures within { OnOk result ((n : ℕ) → IsWithin n self.old → IsWithin (n + 1) self.new) }
        ensures waits { OnErr result (waiting.new.items ≡ waiting.old.items) }
        ensures enters { (limits : Limits) (l : Ledger) → Stands limits l self.old →
            Enters limits l text.now self.new waiting.old.items waiting.new.items result }
    {
        if text.is_empty() {
            return Ok(());
        }
        let raw = match read_raw(alloc, text) {
            Ok(raw) => raw,
            Err(CodecFault::NoMemory) => return Err(Untaken::Failed(NoMemory)),
            Err(fault) => return Err(Untaken::Refused(Why::Unreadable(fault))),
        };
        self.admit(alloc, &raw, waiting)
    }

    // Enters a raw entry that isn't refused.
    fn admit(
        &mut self,
        alloc: Global,
        raw: &Raw,
        waiting: &mut Vec<u8>,
    ) -> Result<(), Untaken<Why, NoMemory>>
        requires few { IsWithin MOST_LINES self.old }
        requires in_range { IsInRange raw.now }
        ensures within { OnOk result ((n : ℕ) → IsWithin n self.old → IsWithin (n + 1) self.new) }
        ensures waits { OnErr result (waiting.new.items ≡ waiting.old.items) }
        ensures admits { (limits : Limits) (l : Ledger) → Stands limits l self.old →
            Admits limits l raw.now self.new waiting.old.items waiting.new.items result }
    {
        match self.refusal(raw) {
            Some(why) => Err(Untaken::Refused(why)),
            None => match self.enter(alloc, raw, waiting) {
                Ok(()) => Ok(()),
                Err(NoMemory) => Err(Untaken::Failed(NoMemory)),
            },
        }
    }

    // Why the document's limits don't let an entry in.
    fn refusal(&self, raw: &Raw) -> Option<Why>
        ensures { (limits : Limits) (l : Ledger) → Stands limits l self.now → result ≡ limit_refusal limits l raw.now }
    {
        self.limit_refusal(raw)
    }

    fn limit_refusal(&self, raw: &Raw) -> Option<Why>
        ensures { result ≡ limit_refusal_by (is_counted raw.now) self.now.limits.entries self.now.counted
            (is_new_in self.now.core.state.sequencer.rows raw.now) self.now.limits.clients (len self.now.core.state.sequencer.rows) }
    {
        if is_counted(raw) && self.limits.entries <= self.counted {
            return Some(Why::DocumentFull);
        }
        if self.is_new(raw) && u64::from(self.limits.clients) <= self.core.clients().count() {
            return Some(Why::TooManyClients);
        }
        None
    }

    // Whether an entry is a join of a client that isn't joined.
    fn is_new(&self, raw: &Raw) -> bool
        ensures { result ≡ is_new_in self.now.core.state.sequencer.rows raw.now }
    {
        match raw {
            Raw::Join { id, .. } => self.core.clients().row(id).is_none(),
            Raw::Leave { .. } | Raw::Submit { .. } | Raw::Report { .. } => false,
        }
    }

    // Enters a raw entry, and puts the line of its verdict behind those that wait.
    fn enter(&mut self, alloc: Global, raw: &Raw, waiting: &mut Vec<u8>) -> Result<(), NoMemory>
        requires few { IsWithin MOST_LINES self.old }
        requires in_range { IsInRange raw.now }
        ensures within { OnOk result ((n : ℕ) → IsWithin n self.old → IsWithin (n + 1) self.new) }
        ensures entered { OnOk result ((limits : Limits) (l : Ledger) → Stands limits l self.old → Stands limits (with_entry l raw.now) self.new) }
        ensures line { OnOk result ((l : Ledger) → StandsFor self.old.core.state l →
            waiting.new.items ≡ waiting.old.items ++ entry_line (raw.now, verdict l raw.now)) }
        ensures kept { OnErr result (waiting.new.items ≡ waiting.old.items) }
    {
        let ready = self.core.prepare(alloc, raw)?;
        push_line(alloc, waiting, raw, ready.verdict())?;
        take_in(&mut self.core, ready);
        if is_counted(raw) {
            self.counted += 1;
        }
        Ok(())
    }
}

// Enters what was prepared. Its verdict was told before.
fn take_in(core: &mut Core, ready: CoreReady)
    requires { IsPreparedIn core.old ready }
    ensures stands { (raw : Raw) (l : Ledger) → ready ≡ prepared core.old.state raw →
        StandsFor core.old.state l → StandsFor core.new.state (with_entry l raw) }
    ensures one_more { core.new.state.sequencer.sequence ≤ core.old.state.sequencer.sequence + 1 }
{
    drop(core.commit(ready));
}

// Puts the line of a verdict, with its end, behind what waits.
fn push_line(
    alloc: Global,
    waiting: &mut Vec<u8>,
    raw: &Raw,
    verdict: &Verdict,
) -> Result<(), NoMemory>
    ensures ok { OnOk result (waiting.new.items ≡ waiting.old.items ++ entry_line (raw.now, verdict.now)) }
    ensures err { OnErr result (waiting.new.items ≡ waiting.old.items) }
{
    let length = waiting.len();
    push_verdict(alloc, waiting, raw, verdict)?;
    if waiting.push(b'\n').is_err() {
        waiting.truncate(length);
        return Err(NoMemory);
    }
    Ok(())
}
