//! Sequencer and scribe together.
ghost use Rattle.std.specs.Prelude.{◌≡◌, ◌+◌, ◌-◌, ◌^◌, ◌<◌, ◌≤◌, nat_le, if◌then◌else◌, ◌++◌, ◌∷◌, [], filter, IfOk, IfSome};
ghost use Rattle.fluid_types.specs.Fits.{IsInRange};
ghost use Rattle.fluid_types.specs.Ledger.{Ledger, order, seq as last_sequence};
ghost use Rattle.fluid_types.specs.declared.entries.Raw.{Raw as ARaw};
ghost use Rattle.fluid_rules.specs.Rules.{minimum as minimum_by_rules, verdict as verdict_by_rules};
ghost use Rattle.fluid_rules.specs.Scribe.{acks as acks_by_rules};
ghost use Rattle.fluid_scribe.specs.Jobs.{job as job_by_rules};
ghost use Rattle.fluid_ticket.specs.State.{minimum, HasMinimumUpTo, IsSound};
ghost use Rattle.fluid_core.specs.Entering.{start, sequencer_of, asked, on_order, job_of, note_for, after, prepared, within, IsPreparedIn, StandsFor, CanTake, Takes, IsUpTo};

use fluid_clients::{Clients, SequencerState};
use fluid_json::NoMemory;
use fluid_quorum::ScribeState;
use fluid_scribe::{Answer, Job, Scribe, ScribeReady, SummaryRef};
use fluid_ticket::{Ready, Sequencer};
use fluid_types::{Raw, Verdict};
use std::alloc::Global;
use std::marker::Model;

/// What is kept of the entries of one document: the sequencer, and the scribe that takes each message of the order.
#[derive(Drop)]
pub struct Core {
    sequencer: Sequencer,
    scribe: Scribe,
}

impl Model for Core {
    ghost use Rattle.std.specs.Prelude.{ℕ, refl};
    ghost use Rattle.std.specs.Coded.{code_by, coded×, coded_ℕ};
    ghost use Rattle.fluid_quorum.specs.declared.state.ScribeState.{ScribeState};
    ghost use Rattle.fluid_quorum.specs.contracts.state.ScribeState as states;
    ghost use Rattle.fluid_ticket.specs.State.{State, state_code};
    ghost use Rattle.fluid_core.specs.Entering.{Entering};

    ghost Value = { Entering };

    ghost coded = { code_by (State × (ScribeState × (ℕ × ℕ))) (coded× state_code (coded× states.the_row.coded (coded× coded_ℕ coded_ℕ))) (λ e. (e.state.sequencer, (e.state.scribe, (e.clients, e.notes)))) (λ p. record { state = record { sequencer = p.0; scribe = p.1.0 }; clients = p.1.1.0; notes = p.1.1.1 }) (λ _. refl) };

    ghost view = { λ c. record {
      state = record { sequencer = c.sequencer.state; scribe = c.scribe.state };
      clients = c.sequencer.spare;
      notes = c.scribe.spare;
    } };
}

/// What a core is made of.
#[derive(Drop)]
pub struct CoreParts {
    pub sequencer: SequencerState,
    pub scribe: ScribeState,
}

/// An entry with its verdict, prepared in a state of a core and not yet committed.
#[derive(Drop)]
pub struct CoreReady {
    ready: Ready,
    note: Option<ScribeReady>,
}

impl Model for CoreReady {
    ghost use Rattle.fluid_core.specs.Entering.{Prepared, prepared_code};

    ghost Value = { Prepared };

    ghost coded = { prepared_code };

    ghost view = { λ r. record { ticket = r.ready; note = r.note } };
}

impl CoreReady {
    /// The verdict that the entry gets when it is committed. Takes no memory.
    pub fn verdict(&self) -> &Verdict
        ensures { result.now ≡ self.now.ticket.verdict }
    {
        self.ready.verdict()
    }

    fn into_parts(self) -> (Ready, Option<ScribeReady>)
        ensures ready { result.0 ≡ self.ticket }
        ensures note { result.1 ≡ self.note }
    {
        let CoreReady { ready, note } = self;
        (ready, note)
    }
}

impl Core {
    /// The core of a document without entries. Takes no memory.
    pub fn new(alloc: Global) -> Core
        ensures start { result.state ≡ start }
        ensures stands { StandsFor result.state [] }
    {
        Core {
            sequencer: Sequencer::new(alloc),
            scribe: Scribe::new(alloc),
        }
    }

    /// The core that goes on from these parts, whatever they are. What lies outside the order counts for nothing: a client's reference
    /// ahead of it is its last number; a message, a minimum, an acknowledgement or a base with a number that no message has isn't
    /// kept, nor is one whose minimum, or a summarize whose reference, is ahead of its own number. Takes no memory.
    pub fn of_parts(sequencer: SequencerState, scribe: ScribeState) -> Core
        ensures within { result.state ≡ within (record { sequencer = sequencer_of sequencer; scribe = scribe }) }
        ensures sound { IsSound result.state.sequencer }
        ensures stands { (ledger : Ledger) → last_sequence ledger ≤ 2 ^ 53 - 1 →
            StandsFor (record { sequencer = sequencer_of sequencer; scribe = scribe }) ledger → StandsFor result.state ledger }
    {
        let SequencerState {
            sequence,
            minimum,
            clients,
        } = sequencer;
        let sequencer = Sequencer::of_parts(sequence, minimum, clients);
        let scribe = Scribe::of_order(sequencer.seq(), scribe);
        Core { sequencer, scribe }
    }

    /// Its parts, with their own memory.
    pub fn parts(&self, alloc: Global) -> Result<CoreParts, NoMemory>
        ensures sequencer { IfOk result (λ parts. sequencer_of parts.sequencer ≡ self.now.state.sequencer) }
        ensures scribe { IfOk result (λ parts. parts.scribe ≡ self.now.state.scribe) }
    {
        let sequencer = self.sequencer.parts(alloc)?;
        let scribe = self.scribe.parts(alloc)?;
        Ok(CoreParts { sequencer, scribe })
    }

    /// The last sequence number, 0 before the first message. Takes no memory.
    pub fn seq(&self) -> u64
        ensures is { result ≡ self.now.state.sequencer.sequence }
        ensures few { result ≤ 2 ^ 53 - 1 }
        ensures sound { IsSound self.now.state.sequencer }
        ensures stands { (ledger : Ledger) → StandsFor self.now.state ledger → result ≡ last_sequence ledger }
    {
        self.sequencer.seq()
    }

    /// The minimum sequence number, which an absorbed noop may have raised above that of the last message. Takes no memory.
    pub fn min(&self) -> u64
        ensures is { result ≡ minimum self.now.state.sequencer }
        ensures stands { (ledger : Ledger) → StandsFor self.now.state ledger → result ≡ minimum_by_rules ledger }
    {
        self.sequencer.min()
    }

    /// The joined clients. Takes no memory.
    pub fn clients(&self) -> &Clients
        ensures { result.now.rows ≡ self.now.state.sequencer.rows }
    {
        self.sequencer.clients()
    }

    /// The summaries that were acknowledged, oldest first. Takes no memory.
    pub fn acks(&self) -> &[SummaryRef]
        ensures acks { result.now ≡ self.now.state.scribe.acks }
        ensures stands { (ledger : Ledger) → StandsFor self.now.state ledger → result.now ≡ acks_by_rules (order ledger) }
    {
        self.scribe.acks()
    }

    /// What is to be done about the pending summarize; None exactly where none is pending. One with a number that no message has, or
    /// that refers ahead of itself, counts for nothing.
    pub fn job(&mut self, alloc: Global) -> Result<Option<Job>, NoMemory>
        ensures same { self.new.state ≡ self.old.state }
        ensures room { (self.old.clients ≤ self.new.clients) × (self.old.notes ≤ self.new.notes) }
        ensures job { IfOk result (λ given. given ≡ job_of self.old.state) }
        ensures sequenced { IfOk result (λ given.
            IfSome given (λ job. IsUpTo self.old.state.sequencer.sequence job.summary)) }
        ensures behind { IfOk result (λ given. IfSome given (λ job. job.reference ≤ job.summary)) }
        ensures stands { (ledger : Ledger) → StandsFor self.old.state ledger →
            IfOk result (λ given. given ≡ job_by_rules (order ledger)) }
    {
        let job = self.scribe.job(alloc)?;
        Ok(on_order(self.sequencer.seq(), job))
    }

    /// Gives a raw entry its verdict and makes every growth that this verdict needs. The state stays.
    pub fn prepare(&mut self, alloc: Global, raw: &Raw) -> Result<CoreReady, NoMemory>
        requires few { self.old.state.sequencer.sequence < 2 ^ 53 - 1 }
        requires in_range { IsInRange raw.now }
        ensures same { self.new.state ≡ self.old.state }
        ensures room { (self.old.clients ≤ self.new.clients) × (self.old.notes ≤ self.new.notes) }
        ensures ready { IfOk result (λ ready. ready ≡ prepared self.old.state raw.now) }
        ensures bounded { IfOk result (λ ready. HasMinimumUpTo (self.old.state.sequencer.sequence + 1) ready.ticket.verdict) }
        ensures committable { IfOk result (IsPreparedIn self.new) }
        ensures verdict { (ledger : Ledger) → StandsFor self.old.state ledger →
            IfOk result (λ ready. ready.ticket.verdict ≡ verdict_by_rules ledger raw.now) }
    {
        let answer = asked(alloc, &mut self.scribe, raw)?;
        let ready = self.sequencer.prepare(alloc, raw, &answer)?;
        let note = note_for(alloc, &mut self.scribe, ready.verdict())?;
        Ok(CoreReady { ready, note })
    }

    /// Enters what was prepared, and gives its verdict. Takes no memory.
    pub fn commit(&mut self, ready: CoreReady) -> Verdict
        requires { IsPreparedIn self.old ready }
        ensures verdict { result ≡ ready.ticket.verdict }
        ensures after { (raw : ARaw) → ready ≡ prepared self.old.state raw → self.new.state ≡ after self.old.state raw result }
        ensures stands { (ledger : Ledger) (raw : ARaw) → ready ≡ prepared self.old.state raw → StandsFor self.old.state ledger →
            (result ≡ verdict_by_rules ledger raw) × StandsFor self.new.state (ledger ++ (raw, result) ∷ []) }
    {
        let (ready, note) = ready.into_parts();
        let verdict = self.sequencer.commit(ready);
        take(&mut self.scribe, note);
        verdict
    }
}

// The scribe's answer to a report; no other entry asks for one.
fn asked(alloc: Global, scribe: &mut Scribe, raw: &Raw) -> Result<Answer, NoMemory>
    ensures same { scribe.new.state ≡ scribe.old.state }
    ensures spare { scribe.old.spare ≤ scribe.new.spare }
    ensures answer { IfOk result (λ answer. answer ≡ asked scribe.old.state raw.now) }
{
    match raw {
        Raw::Report { summary, found, .. } => scribe.answer(alloc, *summary, *found),
        Raw::Join { .. } | Raw::Leave { .. } | Raw::Submit { .. } => Ok(Answer::Dropped),
    }
}

// A job on a number that no message has, or that refers ahead of it, counts for nothing.
fn on_order(last: u64, job: Option<Job>) -> Option<Job>
    ensures is { result ≡ on_order last job }
    ensures sequenced { IfSome result (λ job. IsUpTo last job.summary) }
    ensures behind { IfSome result (λ job. job.reference ≤ job.summary) }
{
    let job = job?;
    if job.summary < 1 || last < job.summary || job.summary < job.reference {
        return None;
    }
    Some(job)
}

// What the scribe takes of the message of a verdict, where it has one.
fn note_for(
    alloc: Global,
    scribe: &mut Scribe,
    verdict: &Verdict,
) -> Result<Option<ScribeReady>, NoMemory>
    ensures same { scribe.new.state ≡ scribe.old.state }
    ensures spare { scribe.old.spare ≤ scribe.new.spare }
    ensures note { IfOk result (λ note. note ≡ note_for scribe.old.state verdict.now) }
    ensures takable { IfOk result (λ note. CanTake scribe.new note) }
{
    match verdict {
        Verdict::Sequenced(message) => {
            let note = scribe.prepare(alloc, message)?;
            Ok(Some(note))
        }
        Verdict::Nacked(_) | Verdict::Dropped | Verdict::Absorbed => Ok(None),
    }
}

// Takes what was prepared of a message, where there is one.
fn take(scribe: &mut Scribe, note: Option<ScribeReady>)
    requires { CanTake scribe.old note }
    ensures { Takes scribe.old.state scribe.new.state note }
{
    if let Some(note) = note {
        scribe.commit(note);
    }
}
