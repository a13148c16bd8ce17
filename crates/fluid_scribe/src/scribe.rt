// The scribe.
ghost use Rattle.std.specs.Prelude.{◌≡◌, ◌==◌, find, option_map, option_copied, ◌+◌, ◌-◌, ◌*◌, ◌^◌, ◌≤◌, ◌<◌, ◌++◌, ◌∷◌, [], length, IfOk, OnOk};
ghost use Rattle.fluid_types.specs.Ledger.{Ledger, order, messages_of, seq};
ghost use Rattle.fluid_types.specs.declared.entries.Raw.{Raw};
ghost use Rattle.fluid_types.specs.declared.messages.Message.{Message as AMessage};
ghost use Rattle.fluid_types.specs.declared.verdicts.Verdict.{Verdict};
ghost use Rattle.fluid_rules.specs.Rules.{IsLegal};
ghost use Rattle.fluid_rules.specs.Scribe.{acks as acks_by_rules, answer as answer_by_rules};
ghost use Rattle.fluid_scribe.specs.State.{start, after, ack_in, state_of};
ghost use Rattle.fluid_scribe.specs.Scribing.{prepared, kept_of, IsPreparedIn};
ghost use Rattle.fluid_scribe.specs.Within.{within};
ghost use Rattle.fluid_scribe.specs.Ledger.{StandsFor};
ghost use Rattle.fluid_scribe.specs.Jobs.{answer_in, job_in, job, pending_in, last_ack_in, answer_to_in, job_of_in};

use crate::answering::{answer_now, job_now};
use crate::job::Job;
use crate::parts::within;
use crate::reading::{ack_of, answered_by, kept_of};
use crate::ready::ScribeReady;
use crate::tail::{Parts, Tail};
use crate::waiting::{Waiting, add_one, copied_acks, sorted};
use fluid_json::NoMemory;
use fluid_quorum::{Acks, Minima, Quorum, ScribeState};
use fluid_rules::Answer;
use fluid_tree::SummaryRef;
use fluid_types::{Message, Messages};
use std::alloc::Global;
use std::collections::VecDeque;
use std::marker::Model;

/// The scribe of one document. Contracts see what it keeps of the messages that it took. What is in memory may lag behind that by
/// one message, and is brought up where memory may be taken.
#[derive(Drop)]
pub struct Scribe {
    tail: Tail,
    waiting: Waiting,
    acks: Vec<SummaryRef>,
}

impl Model for Scribe {
    ghost use Rattle.std.specs.Prelude.{◌≡◌, ℕ, ◌-◌, refl, vec_len, vec_capacity};
    ghost use Rattle.std.specs.VecDeque.{deque_len, deque_capacity};
    ghost use Rattle.std.specs.Coded.{code_by, coded×, coded_ℕ};
    ghost use Rattle.fluid_quorum.specs.declared.state.ScribeState.{ScribeState as AState};
    ghost use Rattle.fluid_quorum.specs.contracts.state.ScribeState as states;
    ghost use Rattle.fluid_scribe.specs.Tails.{seen, state_with};
    ghost use Rattle.fluid_scribe.specs.Scribing.{Scribing, spare_at, least_room};

    ghost Value = { Scribing };

    ghost coded = { code_by (AState × ℕ) (coded× states.the_row.coded coded_ℕ) (λ s. (s.state, s.spare)) (λ parts. record { state = parts.0; spare = parts.1 }) (λ _. refl) };

    ghost view = { λ s. record {
      state = state_with (seen s.tail) s.waiting.messages s.acks.items;
      spare = spare_at s.tail.due (least_room (deque_capacity s.tail.behind - deque_len s.tail.behind) (deque_capacity s.tail.minima - deque_len s.tail.minima) s.waiting.spare (vec_capacity s.acks - vec_len s.acks));
    } };
}

impl Scribe {
    /// A scribe that took no message yet. Takes no memory.
    pub fn new(alloc: Global) -> Scribe
        ensures start { result.state ≡ start }
        ensures stands { StandsFor result [] }
    {
        Scribe {
            tail: Tail {
                base: Quorum::new(alloc),
                behind: VecDeque::new(alloc),
                minima: VecDeque::new(alloc),
                due: None,
            },
            waiting: Waiting::new(alloc),
            acks: Vec::new(alloc),
        }
    }

    /// A scribe that keeps what of these parts lies within an order: a message of number 0, one that refers ahead of itself, a
    /// minimum ahead of its message, or a change of it that isn't behind the base counts for nothing. Takes no memory.
    pub fn of_parts(
        base: Quorum,
        behind: Messages,
        minima: Minima,
        pending: Messages,
        acks: Acks,
    ) -> Scribe
        ensures within { result.state ≡ within (2 ^ 64 - 1) (record { base = base; behind = behind; minima = minima; pending = pending; acks = acks }) }
        ensures stands { (ledger : Ledger) → IsLegal ledger → seq ledger ≤ 2 ^ 64 - 1 →
            record { base = base; behind = behind; minima = minima; pending = pending; acks = acks } ≡ state_of (order ledger) → StandsFor result ledger }
    {
        let state = ScribeState {
            base,
            behind,
            minima,
            pending,
            acks,
        };
        Scribe::of_order(u64::MAX, state)
    }

    /// The same within an order of so many messages: what has a higher number counts for nothing too. Takes no memory.
    pub fn of_order(last: u64, state: ScribeState) -> Scribe
        ensures within { result.state ≡ within last state }
        ensures stands { (ledger : Ledger) → IsLegal ledger → seq ledger ≤ last → state ≡ state_of (order ledger) → StandsFor result ledger }
    {
        let ScribeState {
            base,
            behind,
            minima,
            pending,
            acks,
        } = within(last, state);
        Scribe {
            tail: Tail {
                base,
                behind: VecDeque::from_vec(behind.into_vec()),
                minima: VecDeque::from_vec(minima.into_vec()),
                due: None,
            },
            waiting: Waiting::of_messages(pending),
            acks: acks.into_vec(),
        }
    }

    /// What it keeps.
    pub fn parts(&self, alloc: Global) -> Result<ScribeState, NoMemory>
        ensures { IfOk result (λ state. state ≡ self.now.state) }
    {
        let Parts {
            base,
            behind,
            minima,
        } = self.tail.parts(alloc)?;
        let pending = self.waiting.copied(alloc)?;
        let acks = copied_acks(alloc, &self.acks)?;
        Ok(ScribeState {
            base,
            behind,
            minima,
            pending: Messages::new(pending),
            acks: Acks::new(acks),
        })
    }

    /// Makes every growth that one more message needs, whatever its number, and copies what is to be kept of it. What it keeps
    /// stays, whatever is answered.
    pub fn prepare(&mut self, alloc: Global, message: &Message) -> Result<ScribeReady, NoMemory>
        ensures same { self.new.state ≡ self.old.state }
        ensures spare { self.old.spare ≤ self.new.spare }
        ensures ready { IfOk result (λ ready. ready ≡ prepared self.old.state message.now) }
        ensures committable { IfOk result (IsPreparedIn self.new) }
    {
        self.reserve(alloc)?;
        self.ready_for(alloc, message)
    }

    /// Takes the message that was prepared. Takes no memory.
    pub fn commit(&mut self, ready: ScribeReady)
        requires { IsPreparedIn self.old ready }
        ensures after { (message : AMessage) → ready ≡ prepared self.old.state message → self.new.state ≡ after self.old.state message }
        ensures stands { (ledger : Ledger) (entry : Raw × Verdict) (message : AMessage) → IsLegal (ledger ++ entry ∷ []) → StandsFor self.old ledger →
            messages_of entry.1 ≡ message ∷ [] → ready ≡ prepared self.old.state message → StandsFor self.new (ledger ++ entry ∷ []) }
    {
        let ScribeReady {
            number,
            minimum,
            answered,
            kept,
            ack,
        } = ready;
        let (heard, summarize) = sorted(kept);
        self.tail.push(number, minimum, heard);
        self.waiting.take(answered, summarize);
        add_one(&mut self.acks, ack);
        self.tail.due = Some(self.waiting.least(minimum));
    }

    /// What is to be done about the pending summarize; None exactly where none is pending.
    pub fn job(&mut self, alloc: Global) -> Result<Option<Job>, NoMemory>
        ensures same { self.new.state ≡ self.old.state }
        ensures spare { self.old.spare ≤ self.new.spare }
        ensures job { IfOk result (λ given. given ≡ job_in self.old.state) }
        ensures stands { (ledger : Ledger) → IsLegal ledger → StandsFor self.old ledger → IfOk result (λ given. given ≡ job (order ledger)) }
    {
        self.tail.settle(alloc)?;
        job_now(alloc, &self.tail, &self.waiting, &self.acks)
    }

    /// The answer to a report on the summarize with this number: whether the tree that it names was found to be stored whole.
    pub fn answer(&mut self, alloc: Global, summary: u64, found: bool) -> Result<Answer, NoMemory>
        ensures same { self.new.state ≡ self.old.state }
        ensures spare { self.old.spare ≤ self.new.spare }
        ensures answer { IfOk result (λ given. given ≡ answer_in self.old.state summary found) }
        ensures stands { (ledger : Ledger) → IsLegal ledger → StandsFor self.old ledger →
            IfOk result (λ given. given ≡ answer_by_rules (order ledger) summary found) }
    {
        self.tail.settle(alloc)?;
        answer_now(alloc, &self.tail, &self.waiting, &self.acks, summary, found)
    }

    /// The summaries that were acknowledged, oldest first. Takes no memory.
    pub fn acks(&self) -> &[SummaryRef]
        ensures acks { result.now ≡ self.now.state.acks }
        ensures stands { (ledger : Ledger) → StandsFor self.now ledger → result.now ≡ acks_by_rules (order ledger) }
    {
        self.acks.as_slice()
    }

    // Brings up what lags behind, and makes room for one more message.
    fn reserve(&mut self, alloc: Global) -> Result<(), NoMemory>
        ensures same { self.new.state ≡ self.old.state }
        ensures spare { self.old.spare ≤ self.new.spare }
        ensures room { OnOk result (0 < self.new.spare) }
    {
        self.tail.settle(alloc)?;
        self.tail.reserve()?;
        self.waiting.reserve()?;
        self.acks.reserve(1)?;
        Ok(())
    }

    #[tactic(auto, unfolding(crate::specs::Scribing::prepared))]
    fn ready_for(&self, alloc: Global, message: &Message) -> Result<ScribeReady, NoMemory>
        ensures { IfOk result (λ ready. ready ≡ prepared self.now.state message.now) }
    {
        let ack = ack_of(&self.waiting, message);
        let kept = kept_of(alloc, message)?;
        Ok(ScribeReady {
            number: message.number,
            minimum: message.minimum,
            answered: answered_by(message),
            kept,
            ack,
        })
    }
}
