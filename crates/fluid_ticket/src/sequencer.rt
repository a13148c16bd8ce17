// The sequencer.
ghost use Rattle.std.specs.Prelude.{◌≡◌, ◌+◌, ◌-◌, ◌^◌, ◌<◌, ◌≤◌, ◌++◌, ◌∷◌, [], Bool, true, false, IfOk, if◌then◌else◌};
ghost use Rattle.fluid_rules.specs.Past.{is_below};
ghost use Rattle.fluid_types.specs.Fits.{IsInRange};
ghost use Rattle.fluid_types.specs.Forms.{largest};
ghost use Rattle.fluid_types.specs.Ledger.{Ledger, seq as last_sequence};
ghost use Rattle.fluid_rules.specs.Rules.{minimum as minimum_by_rules, verdict as verdict_by_rules, IsLegal};
ghost use Rattle.fluid_rules.specs.Scribe.{ack_contents, refusal_contents};
ghost use Rattle.fluid_ticket.specs.State.{start, minimum, outcome, is_absorbed, lifted, after, changed, heard, HasMinimumUpTo, IsSound, minimum_up_to, within_order, prepared, answered, IsPreparedIn, CanApply};
ghost use Rattle.fluid_ticket.specs.Ledger.{StandsFor, IsAnswered};

use crate::answers::{ack_contents, refusal_contents};
use crate::messages::{
    answer_message, given_or, join_data, leave_data, nack, submitted, system_message,
};
use crate::outcome::{Outcome, outcome_by};
use crate::ready::{Change, Ready};
use fluid_clients::{Clients, Row, SequencerState, Steps};
use fluid_json::{Json, LARGEST, NoMemory};
use fluid_rules::{Answer, SummaryRule};
use fluid_tree::Id;
use fluid_types::{ClientId, Kind, NackRule, Offered, Raw, Scopes, Submission, Verdict};
use std::alloc::Global;
use std::marker::{Brand, Model};
use std::sync::ledger::{Blank, Ledger};

/// The sequencer of one document.
#[derive(Drop)]
pub struct Sequencer {
    sequence: u64,
    minimum: u64,
    // The minimum of the last message. That of an absorbed noop is in no message.
    last_minimum: u64,
    clients: Clients,
}

impl Model for Sequencer {
    ghost use Rattle.std.specs.Prelude.{◌≡◌};
    ghost use Rattle.fluid_ticket.specs.State.{Sequencing, sequencing_code, IsSoundWith};

    ghost Value = { Sequencing };

    ghost coded = { sequencing_code };

    ghost view = { λ s. record {
      state = record { sequence = s.sequence; last_minimum = s.last_minimum; rows = s.clients.rows };
      spare = s.clients.spare;
    } };

    ghost invariant = { λ s. IsSoundWith (record { sequence = s.sequence; last_minimum = s.last_minimum; rows = s.clients.rows }) s.minimum };
}

impl Sequencer {
    /// The sequencer of a document without entries. Takes no memory.
    pub fn new(alloc: Global) -> Sequencer
        ensures start { result.state ≡ start }
        ensures stands { StandsFor result.state [] }
    {
        Sequencer {
            sequence: 0,
            minimum: 0,
            last_minimum: 0,
            clients: Clients::new(alloc),
        }
    }

    /// The sequencer that goes on from these parts. What lies outside the order counts for nothing: a number above the largest is
    /// taken as that one, a reference ahead of the order as the last sequence number, and a minimum ahead of it as none. Takes no memory.
    pub fn of_parts(sequence: u64, minimum: u64, clients: Clients) -> Sequencer
        ensures within { result.state ≡ within_order (record { sequence = sequence; last_minimum = minimum; rows = clients.rows }) }
        ensures sound { IsSound (record { sequence = sequence; last_minimum = minimum; rows = clients.rows }) → minimum ≤ sequence →
            result.state ≡ record { sequence = sequence; last_minimum = minimum; rows = clients.rows } }
        ensures stands { (ledger : Ledger) → IsLegal ledger → sequence ≤ 2 ^ 53 - 1 →
            StandsFor (record { sequence = sequence; last_minimum = minimum; rows = clients.rows }) ledger → StandsFor result.state ledger }
    {
        let sequence = sequence.min(LARGEST);
        let mut clients = clients;
        clients.put_down(sequence);
        let least = clients.min().unwrap_or(sequence);
        Sequencer {
            sequence,
            minimum: least,
            last_minimum: minimum_up_to(sequence, minimum),
            clients,
        }
    }

    /// Its parts, with their own memory.
    pub fn parts(&self, alloc: Global) -> Result<SequencerState, NoMemory>
        ensures { IfOk result (λ parts.
            parts ≡ record { sequence = self.now.state.sequence; minimum = self.now.state.last_minimum; rows = self.now.state.rows }) }
    {
        let clients = self.clients.copy(alloc)?;
        Ok(SequencerState {
            sequence: self.sequence,
            minimum: self.last_minimum,
            clients,
        })
    }

    /// The last sequence number, 0 before the first message.
    pub fn seq(&self) -> u64
        ensures is { result ≡ self.now.state.sequence }
        ensures few { result ≤ 2 ^ 53 - 1 }
        ensures sound { IsSound self.now.state }
        ensures stands { (ledger : Ledger) → StandsFor self.now.state ledger → result ≡ last_sequence ledger }
    {
        self.sequence
    }

    /// The minimum sequence number. An absorbed noop may have raised it above that of the last message.
    pub fn min(&self) -> u64
        ensures is { result ≡ minimum self.now.state }
        ensures stands { (ledger : Ledger) → StandsFor self.now.state ledger → result ≡ minimum_by_rules ledger }
    {
        self.minimum
    }

    /// The joined clients.
    pub fn clients(&self) -> &Clients
        ensures { result.now.rows ≡ self.now.state.rows }
    {
        &self.clients
    }

    /// Gives an entry its verdict and makes every growth that this verdict needs. The state stays.
    /// The scribe's answer is looked at only for a report, and only for one on a number that a message of the order has: any other
    /// report is dropped.
    pub fn prepare(&mut self, alloc: Global, raw: &Raw, answer: &Answer) -> Result<Ready, NoMemory>
        requires few { self.old.state.sequence < 2 ^ 53 - 1 }
        requires in_range { IsInRange raw.now }
        ensures same { self.new.state ≡ self.old.state }
        ensures spare { self.old.spare ≤ self.new.spare }
        ensures ready { IfOk result (λ ready. ready ≡ prepared self.old.state (heard self.old.state raw.now answer.now) raw.now) }
        ensures bounded { IfOk result (λ ready. HasMinimumUpTo (self.old.state.sequence + 1) ready.verdict) }
        ensures committable { IfOk result (IsPreparedIn self.new) }
        ensures verdict { (ledger : Ledger) → StandsFor self.old.state ledger → IsAnswered ledger raw.now (heard self.old.state raw.now answer.now) →
            IfOk result (λ ready. ready.verdict ≡ verdict_by_rules ledger raw.now) }
        ensures legal { (ledger : Ledger) → IsLegal ledger → StandsFor self.old.state ledger → IsAnswered ledger raw.now answer.now →
            IfOk result (λ ready. ready.verdict ≡ verdict_by_rules ledger raw.now) }
    {
        self.clients.reserve()?;
        match raw {
            Raw::Join {
                id,
                scopes,
                detail,
                moment,
            } => self.prepare_join(alloc, id, *scopes, detail, *moment),
            Raw::Leave { id, moment } => self.prepare_leave(alloc, id, *moment),
            Raw::Submit {
                id,
                submission,
                moment,
            } => self.prepare_submission(alloc, id, submission, *moment),
            Raw::Report {
                summary,
                moment,
                ..
            } => self.prepare_report(alloc, *summary, *moment, answer),
        }
    }

    /// Enters what was prepared, and gives its verdict. Takes no memory.
    pub fn commit(&mut self, ready: Ready) -> Verdict
        requires { IsPreparedIn self.old ready }
        ensures verdict { result ≡ ready.verdict }
        ensures after { (answer : Answer) (raw : Raw) → ready ≡ prepared self.old.state answer raw →
            self.new.state ≡ after self.old.state raw result }
        ensures stands { (ledger : Ledger) (answer : Answer) (raw : Raw) → ready ≡ prepared self.old.state answer raw →
            StandsFor self.old.state ledger → IsAnswered ledger raw answer →
            (result ≡ verdict_by_rules ledger raw) × StandsFor self.new.state (ledger ++ (raw, result) ∷ []) }
    {
        let (verdict, change) = ready.into_parts();
        apply::<Brand>(&mut self.clients, change, Blank::new(1));
        match &verdict {
            Verdict::Sequenced(message) => {
                self.sequence = message.number;
                self.minimum = message.minimum;
                self.last_minimum = message.minimum;
            }
            Verdict::Absorbed => self.minimum = self.clients.min().unwrap_or(self.sequence),
            // A nack and a dropped entry leave number and minimum.
            _ => {}
        }
        verdict
    }

    fn prepare_join(
        &self,
        alloc: Global,
        id: &ClientId,
        scopes: Scopes,
        detail: &Json,
        moment: u64,
    ) -> Result<Ready, NoMemory>
        requires { self.now.state.sequence < 2 ^ 53 - 1 }
        ensures { (answer : Answer) → IfOk result (λ ready. ready ≡ prepared self.now.state answer (Raw.Join id.now scopes detail.now moment)) }
    {
        if self.clients.row(id).is_some() {
            return dropped(alloc, id, moment);
        }
        let data = join_data(alloc, id, detail)?;
        // Who joins at the minimum doesn't change it.
        let message = system_message(Kind::Join, self.sequence + 1, self.minimum, data, moment);
        let id = id.copy(alloc)?;
        let row = Row {
            last: 0,
            reference: self.minimum,
            nacked: false,
            scopes,
            heard: moment,
        };
        Ok(Ready::new(Verdict::Sequenced(message), Change::Joins { id, row }))
    }

    fn prepare_leave(&self, alloc: Global, id: &ClientId, moment: u64) -> Result<Ready, NoMemory>
        requires { self.now.state.sequence < 2 ^ 53 - 1 }
        ensures { (answer : Answer) → IfOk result (λ ready. ready ≡ prepared self.now.state answer (Raw.Leave id.now moment)) }
    {
        if self.clients.row(id).is_none() {
            return dropped(alloc, id, moment);
        }
        let data = leave_data(alloc, id)?;
        let number = self.sequence + 1;
        let minimum = self.clients.min_without(id).unwrap_or(number);
        let message = system_message(Kind::Leave, number, minimum, data, moment);
        let id = id.copy(alloc)?;
        Ok(Ready::new(Verdict::Sequenced(message), Change::Leaves { id }))
    }

    fn prepare_submission(
        &self,
        alloc: Global,
        id: &ClientId,
        submission: &Submission,
        moment: u64,
    ) -> Result<Ready, NoMemory>
        requires few { self.now.state.sequence < 2 ^ 53 - 1 }
        requires in_range { IsInRange (Raw.Submit id.now submission.now moment) }
        ensures { (answer : Answer) → IfOk result (λ ready. ready ≡ prepared self.now.state answer (Raw.Submit id.now submission.now moment)) }
    {
        match self.outcome(id, submission) {
            Outcome::Duplicate => dropped(alloc, id, moment),
            Outcome::Refused(rule) => self.refuse(alloc, rule, id, submission, moment),
            Outcome::Admitted => {
                if self.absorbs(id, submission) {
                    self.absorb(alloc, id, submission, moment)
                } else {
                    self.admit(alloc, id, submission, moment)
                }
            }
        }
    }

    fn prepare_report(
        &self,
        alloc: Global,
        summary: u64,
        moment: u64,
        answer: &Answer,
    ) -> Result<Ready, NoMemory>
        requires { self.now.state.sequence < 2 ^ 53 - 1 }
        ensures { (found : Bool) → IfOk result (λ ready. ready ≡ prepared self.now.state (heard self.now.state (Raw.Report summary found moment) answer.now) (Raw.Report summary found moment)) }
    {
        if summary > self.sequence {
            return Ok(Ready::new(Verdict::Dropped, Change::Nothing));
        }
        match *answer {
            Answer::Dropped => Ok(Ready::new(Verdict::Dropped, Change::Nothing)),
            Answer::Ack { handle } => self.acknowledge(alloc, summary, moment, handle),
            Answer::Refused(rule) => self.refuse_summary(alloc, summary, moment, rule),
        }
    }

    fn acknowledge(
        &self,
        alloc: Global,
        summary: u64,
        moment: u64,
        handle: Id,
    ) -> Result<Ready, NoMemory>
        requires few { self.now.state.sequence < 2 ^ 53 - 1 }
        requires on_order { summary ≤ self.now.state.sequence }
        ensures { IfOk result (λ ready. ready ≡ answered self.now.state Kind.SummaryAck (ack_contents summary handle) moment) }
    {
        let contents = ack_contents(alloc, summary, handle)?;
        Ok(self.answered(Kind::SummaryAck, contents, moment))
    }

    fn refuse_summary(
        &self,
        alloc: Global,
        summary: u64,
        moment: u64,
        rule: SummaryRule,
    ) -> Result<Ready, NoMemory>
        requires few { self.now.state.sequence < 2 ^ 53 - 1 }
        requires on_order { summary ≤ self.now.state.sequence }
        ensures { IfOk result (λ ready. ready ≡ answered self.now.state Kind.SummaryNack (refusal_contents summary rule) moment) }
    {
        let contents = refusal_contents(alloc, summary, rule)?;
        Ok(self.answered(Kind::SummaryNack, contents, moment))
    }

    // A report that is answered by a message of this kind and these contents.
    fn answered(&self, kind: Kind, contents: Json, moment: u64) -> Ready
        requires { self.now.state.sequence < 2 ^ 53 - 1 }
        ensures { result ≡ answered self.now.state kind contents moment }
    {
        let number = self.sequence + 1;
        let minimum = self.clients.min().unwrap_or(number);
        let message = answer_message(kind, number, minimum, contents, moment);
        Ready::new(Verdict::Sequenced(message), Change::Nothing)
    }

    fn outcome(&self, id: &ClientId, submission: &Submission) -> Outcome
        ensures { result ≡ outcome self.now.state id.now submission.now }
    {
        match self.clients.row(id) {
            Some(row) => outcome_by(row, submission, self.sequence, self.minimum),
            None => Outcome::Refused(NackRule::Nonexistent),
        }
    }

    fn refuse(
        &self,
        alloc: Global,
        rule: NackRule,
        id: &ClientId,
        submission: &Submission,
        moment: u64,
    ) -> Result<Ready, NoMemory>
        requires { outcome self.now.state id.now submission.now ≡ Outcome.Refused rule }
        ensures { (answer : Answer) → IfOk result (λ ready. ready ≡ prepared self.now.state answer (Raw.Submit id.now submission.now moment)) }
    {
        let operation = submission.copy(alloc)?;
        let refusal = nack(rule, operation, self.minimum);
        let number = submission.client_number;
        let change = change_refused(alloc, rule, id, number, self.minimum, moment)?;
        Ok(Ready::new(Verdict::Nacked(refusal), change))
    }

    // Whether a submission that no rule refuses is a noop that asks for no number, or that lifts the minimum to no more than
    // the last message says.
    fn absorbs(&self, id: &ClientId, submission: &Submission) -> bool
        requires { outcome self.now.state id.now submission.now ≡ Outcome.Admitted }
        ensures { result ≡ is_absorbed self.now.state id.now submission.now }
    {
        matches!(submission.kind, Offered::Noop)
            && (submission.contents.is_null() || self.lifted(id, submission) <= self.last_minimum)
    }

    // What the least reference would be, were the client's that of this submission.
    fn lifted(&self, id: &ClientId, submission: &Submission) -> u64
        requires { outcome self.now.state id.now submission.now ≡ Outcome.Admitted }
        ensures { result ≡ lifted self.now.state id.now submission.now }
    {
        // Of the negative references only -1 is admitted.
        let reference = given_or(submission.reference, self.sequence);
        self.clients.min_with(id, reference)
    }

    // A noop that takes no number.
    fn absorb(
        &self,
        alloc: Global,
        id: &ClientId,
        submission: &Submission,
        moment: u64,
    ) -> Result<Ready, NoMemory>
        requires admitted { outcome self.now.state id.now submission.now ≡ Outcome.Admitted }
        requires absorbed { is_absorbed self.now.state id.now submission.now ≡ true }
        ensures { (answer : Answer) → IfOk result (λ ready. ready ≡ prepared self.now.state answer (Raw.Submit id.now submission.now moment)) }
    {
        let id = id.copy(alloc)?;
        let change = Change::Accepts {
            id,
            number: submission.client_number,
            reference: given_or(submission.reference, self.sequence),
            moment,
        };
        Ok(Ready::new(Verdict::Absorbed, change))
    }

    fn admit(
        &self,
        alloc: Global,
        id: &ClientId,
        submission: &Submission,
        moment: u64,
    ) -> Result<Ready, NoMemory>
        requires few { self.now.state.sequence < 2 ^ 53 - 1 }
        requires in_range { submission.now.client_number ≤ largest }
        requires admitted { outcome self.now.state id.now submission.now ≡ Outcome.Admitted }
        requires moves { is_absorbed self.now.state id.now submission.now ≡ false }
        ensures { (answer : Answer) → IfOk result (λ ready. ready ≡ prepared self.now.state answer (Raw.Submit id.now submission.now moment)) }
    {
        let number = self.sequence + 1;
        // Of the negative references only -1 is admitted.
        let reference = given_or(submission.reference, number);
        let minimum = self.clients.min_with(id, reference);
        let message = submitted(alloc, id, submission, number, minimum, moment)?;
        let id = id.copy(alloc)?;
        let change = Change::Accepts {
            id,
            number: submission.client_number,
            reference,
            moment,
        };
        Ok(Ready::new(Verdict::Sequenced(message), change))
    }
}

// An entry of a client that changes nothing but when it was heard of.
fn dropped(alloc: Global, id: &ClientId, moment: u64) -> Result<Ready, NoMemory>
    ensures { IfOk result (λ ready. ready ≡ record { verdict = Verdict.Dropped; change = Change.Hears id.now moment }) }
{
    let id = id.copy(alloc)?;
    Ok(Ready::new(Verdict::Dropped, Change::Hears { id, moment }))
}

// A refusal below the minimum holds its client there; of any other one it is only heard.
fn change_refused(
    alloc: Global,
    rule: NackRule,
    id: &ClientId,
    number: u64,
    minimum: u64,
    moment: u64,
) -> Result<Change, NoMemory>
    ensures { IfOk result (λ change.
        change ≡ (if is_below rule then Change.Holds id.now number minimum moment else Change.Hears id.now moment)) }
{
    let id = id.copy(alloc)?;
    match rule {
        NackRule::Below => Ok(Change::Holds {
            id,
            number,
            minimum,
            moment,
        }),
        _ => Ok(Change::Hears { id, moment }),
    }
}

// Makes a change of the table for which there is room. Nobody counts its steps.
fn apply<L: Ledger>(clients: &mut Clients, change: Change, blank: Blank)
    requires name { blank.name ≡ L.name }
    requires parts { blank.parts ≡ L.parts }
    requires some { 0 < blank.parts }
    requires fits { CanApply change clients.old }
    ensures { clients.new.rows ≡ changed change clients.old.rows }
{
    let mut steps = Steps::<L>::new(blank);
    match change {
        Change::Nothing => {}
        Change::Joins { id, row } => clients.join(id, row, &mut steps).unwrap(),
        Change::Leaves { id } => {
            clients.leave(&id, &mut steps);
        }
        Change::Accepts {
            id,
            number,
            reference,
            moment,
        } => {
            clients.accept(&id, number, reference, &mut steps);
            clients.hear(&id, moment);
        }
        Change::Holds {
            id,
            number,
            minimum,
            moment,
        } => {
            clients.mark(&id, number, minimum, &mut steps);
            clients.hear(&id, moment);
        }
        Change::Hears { id, moment } => clients.hear(&id, moment),
    }
}

// The minimum, where it isn't ahead of the last number.
fn minimum_up_to(last: u64, minimum: u64) -> u64
    ensures { result ≡ minimum_up_to last minimum }
{
    if minimum <= last { minimum } else { 0 }
}
