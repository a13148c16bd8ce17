// How a door's call enters the step that its call on the lane added, and gives the turn back.
ghost use Rattle.std.specs.Prelude.{◌≡◌, ℕ, ◌≤◌, ◌∷◌, ◌++◌, [], true, length, IfOk, IfSome};
ghost use Rattle.fluid_turn.specs.Entries.{entries};
ghost use Rattle.fluid_turn.specs.Seats.{HasNoted, entering};
ghost use Rattle.fluid_types.specs.declared.entries.Raw.{Raw as ARaw};
ghost use Rattle.fluid_types.specs.declared.messages.Message.{Message as AMessage};
ghost use Rattle.fluid_types.specs.declared.verdicts.Verdict.{Verdict as AVerdict};
ghost use Rattle.fluid_rules.specs.Past.{is_sequenced};
ghost use Rattle.fluid_types.specs.Forms.{largest};
ghost use Rattle.fluid_lane.specs.declared.steps.Step.{Step as AStep};
ghost use Rattle.fluid_lane.specs.Steps.{steps_of, fault_steps, delta_steps, range_steps, entered_by, joined_by, swept_by, stored_by, restarted_by};
ghost use Rattle.fluid_doors.specs.Terms.{terms_of};
ghost use Rattle.fluid_doors.specs.Passing.{adding};
ghost use Rattle.fluid_doors.specs.Tailed.{BenchStands};
ghost use Rattle.fluid_doors.specs.Entering.{id_in, left_id, with_id, with_left};
ghost use Rattle.fluid_doors.specs.Closing.{note_steps, IsEntry, IsJoin, IsLeave, IsJoinEntered, IsLeaveEntered};

use crate::bench::Bench;
use crate::door::Pass;
use fluid_deltas::DeltaFault;
use fluid_io::FaultNote;
use fluid_lane::{LaneFault, Side, Step};
use fluid_log::Keeper;
use fluid_turn::Held;
use fluid_types::{ClientId, Message, Raw, Verdict};

// Enters a step and gives the turn back.
pub(crate) fn close_with<K: Keeper>(held: Held<'_, Bench<K>>, step: &Step) -> Pass<K>
    requires noted { HasNoted held.place }
    requires stands { BenchStands held.value.lane held.value.tail (entries held.place.list ++ step.now ∷ []) }
    requires fixed { terms_of held.value.lane ≡ held.place.seat.turn.fixed }
    ensures pass { result ≡ entering step.now held.entry.place.seat }
    ensures few { length result.seen ≤ largest }
{
    let mut held = held;
    // (read for its clause alone)
    let _number = held.value.lane.number();
    held.enter(step);
    held.give()
}

// Gives the turn back with nothing entered.
pub(crate) fn close<K: Keeper>(held: Held<'_, Bench<K>>) -> Pass<K>
    requires noted { HasNoted held.place }
    requires stands { BenchStands held.value.lane held.value.tail (entries held.place.list) }
    requires fixed { terms_of held.value.lane ≡ held.place.seat.turn.fixed }
    ensures pass { result ≡ held.entry.place.seat }
    ensures few { length result.seen ≤ largest }
{
    // (read for its clause alone)
    let _number = held.value.lane.number();
    held.give()
}

// Enters that the keeper failed, where it did.
pub(crate) fn close_noted<K: Keeper>(held: Held<'_, Bench<K>>, note: Option<FaultNote>) -> Pass<K>
    requires noted { HasNoted held.place }
    requires stands { BenchStands held.value.lane held.value.tail (entries held.place.list ++ note_steps note) }
    requires fixed { terms_of held.value.lane ≡ held.place.seat.turn.fixed }
    ensures pass { result ≡ adding (note_steps note) held.entry.place.seat }
    ensures few { length result.seen ≤ largest }
{
    match note {
        Some(note) => close_with(held, &Step::Aside(Side::Failed(note))),
        None => close(held),
    }
}

// The note of a fault of the keeper.
fn note_in(fault: &LaneFault) -> Option<FaultNote>
    ensures { note_steps result ≡ fault_steps fault.now }
{
    match fault {
        LaneFault::LogFailed(note) => Some(*note),
        LaneFault::DeltaFailed(note) => Some(*note),
        _ => None,
    }
}

fn note_of_read(fault: &DeltaFault) -> Option<FaultNote>
    ensures { note_steps result ≡ delta_steps fault.now }
{
    match fault {
        DeltaFault::DeltaFailed(note) => Some(*note),
        _ => None,
    }
}

// ---- by the answer of the call on the lane

// Enters an entry with its verdict.
pub(crate) fn close_entered<K: Keeper>(
    held: Held<'_, Bench<K>>,
    raw: Raw,
    answer: Result<Verdict, LaneFault>,
) -> (Pass<K>, Result<Verdict, LaneFault>)
    requires noted { HasNoted held.place }
    requires stands { BenchStands held.value.lane held.value.tail (entries held.place.list ++ steps_of (entered_by raw) answer) }
    requires fixed { terms_of held.value.lane ≡ held.place.seat.turn.fixed }
    ensures same { result.1 ≡ answer }
    ensures pass { result.0 ≡ adding (steps_of (entered_by raw) answer) held.entry.place.seat }
    ensures few { length result.0.seen ≤ largest }
{
    match answer {
        Ok(verdict) => {
            let step = Step::Entered(raw, verdict);
            let pass = close_with(held, &step);
            (pass, Ok(verdict_of(step)))
        }
        Err(fault) => {
            let pass = close_noted(held, note_in(&fault));
            (pass, Err(fault))
        }
    }
}

// The verdict of an entry's step.
fn verdict_of(step: Step) -> Verdict
    requires { IsEntry step }
    ensures { (raw : ARaw) (verdict : AVerdict) → step ≡ AStep.Entered raw verdict → result ≡ verdict }
{
    match step {
        Step::Entered(_, verdict) => verdict,
        Step::Aside(_) => unreachable!(),
    }
}

// Enters a join with its message, and gives its id.
pub(crate) fn close_joined<K: Keeper>(
    held: Held<'_, Bench<K>>,
    answer: Result<(Raw, Message), LaneFault>,
) -> (Pass<K>, Result<(ClientId, Message), LaneFault>)
    requires noted { HasNoted held.place }
    requires stands { BenchStands held.value.lane held.value.tail (entries held.place.list ++ steps_of joined_by answer) }
    requires fixed { terms_of held.value.lane ≡ held.place.seat.turn.fixed }
    requires join { IfOk answer (λ a. IsJoin a.0) }
    ensures same { result.1 ≡ with_id answer }
    ensures pass { result.0 ≡ adding (steps_of joined_by answer) held.entry.place.seat }
    ensures few { length result.0.seen ≤ largest }
{
    match answer {
        Ok((raw, message)) => {
            let step = Step::Entered(raw, Verdict::Sequenced(message));
            let pass = close_with(held, &step);
            (pass, Ok(joined_of(step)))
        }
        Err(fault) => {
            let pass = close_noted(held, note_in(&fault));
            (pass, Err(fault))
        }
    }
}

// The id and the message of a join's step.
fn joined_of(step: Step) -> (ClientId, Message)
    requires { IsJoinEntered step }
    ensures { (raw : ARaw) (message : AMessage) → step ≡ AStep.Entered raw (AVerdict.Sequenced message) → result ≡ (id_in raw, message) }
{
    match step {
        Step::Entered(raw, verdict) => (joined_id(raw), message_of(verdict)),
        Step::Aside(_) => unreachable!(),
    }
}

fn joined_id(raw: Raw) -> ClientId
    requires { IsJoin raw }
    ensures { result ≡ id_in raw }
{
    match raw {
        Raw::Join { id, .. } => id,
        Raw::Leave { .. } => unreachable!(),
        Raw::Submit { .. } => unreachable!(),
        Raw::Report { .. } => unreachable!(),
    }
}

fn left_id(raw: Raw) -> ClientId
    requires { IsLeave raw }
    ensures { result ≡ left_id raw }
{
    match raw {
        Raw::Leave { id, .. } => id,
        Raw::Join { .. } => unreachable!(),
        Raw::Submit { .. } => unreachable!(),
        Raw::Report { .. } => unreachable!(),
    }
}

fn message_of(verdict: Verdict) -> Message
    requires { is_sequenced verdict ≡ true }
    ensures { verdict ≡ AVerdict.Sequenced result }
{
    match verdict {
        Verdict::Sequenced(message) => message,
        Verdict::Nacked(_) => unreachable!(),
        Verdict::Dropped => unreachable!(),
        Verdict::Absorbed => unreachable!(),
    }
}

// Enters the leave of a client that was silent, and gives its id.
pub(crate) fn close_swept<K: Keeper>(
    held: Held<'_, Bench<K>>,
    answer: Result<Option<(Raw, Message)>, LaneFault>,
) -> (Pass<K>, Result<Option<ClientId>, LaneFault>)
    requires noted { HasNoted held.place }
    requires stands { BenchStands held.value.lane held.value.tail (entries held.place.list ++ steps_of swept_by answer) }
    requires fixed { terms_of held.value.lane ≡ held.place.seat.turn.fixed }
    requires leave { IfOk answer (λ given. IfSome given (λ a. IsLeave a.0)) }
    ensures same { result.1 ≡ with_left answer }
    ensures pass { result.0 ≡ adding (steps_of swept_by answer) held.entry.place.seat }
    ensures few { length result.0.seen ≤ largest }
{
    match answer {
        Ok(Some((raw, message))) => {
            let step = Step::Entered(raw, Verdict::Sequenced(message));
            let pass = close_with(held, &step);
            (pass, Ok(Some(left_by(step))))
        }
        Ok(None) => (close(held), Ok(None)),
        Err(fault) => {
            let pass = close_noted(held, note_in(&fault));
            (pass, Err(fault))
        }
    }
}

// The id of a leave's step.
fn left_by(step: Step) -> ClientId
    requires { IsLeaveEntered step }
    ensures { (raw : ARaw) (verdict : AVerdict) → step ≡ AStep.Entered raw verdict → result ≡ left_id raw }
{
    match step {
        Step::Entered(raw, _) => left_id(raw),
        Step::Aside(_) => unreachable!(),
    }
}

// Enters that a checkpoint was stored.
pub(crate) fn close_stored<K: Keeper>(
    held: Held<'_, Bench<K>>,
    answer: Result<u64, LaneFault>,
) -> (Pass<K>, Result<u64, LaneFault>)
    requires noted { HasNoted held.place }
    requires stands { BenchStands held.value.lane held.value.tail (entries held.place.list ++ steps_of stored_by answer) }
    requires fixed { terms_of held.value.lane ≡ held.place.seat.turn.fixed }
    ensures same { result.1 ≡ answer }
    ensures pass { result.0 ≡ adding (steps_of stored_by answer) held.entry.place.seat }
    ensures few { length result.0.seen ≤ largest }
{
    match answer {
        Ok(number) => {
            let pass = close_with(held, &Step::Aside(Side::Stored(number)));
            (pass, Ok(number))
        }
        Err(fault) => {
            let pass = close_noted(held, note_in(&fault));
            (pass, Err(fault))
        }
    }
}

// Enters that the state was built anew.
pub(crate) fn close_restarted<K: Keeper>(
    held: Held<'_, Bench<K>>,
    number: u64,
    answer: Result<(), LaneFault>,
) -> (Pass<K>, Result<(), LaneFault>)
    requires noted { HasNoted held.place }
    requires stands { BenchStands held.value.lane held.value.tail (entries held.place.list ++ steps_of (restarted_by number) answer) }
    requires fixed { terms_of held.value.lane ≡ held.place.seat.turn.fixed }
    ensures same { result.1 ≡ answer }
    ensures pass { result.0 ≡ adding (steps_of (restarted_by number) answer) held.entry.place.seat }
    ensures few { length result.0.seen ≤ largest }
{
    match answer {
        Ok(()) => {
            let pass = close_with(held, &Step::Aside(Side::Restarted(number)));
            (pass, Ok(()))
        }
        Err(fault) => {
            let pass = close_noted(held, note_in(&fault));
            (pass, Err(fault))
        }
    }
}

// A call that only read.
pub(crate) fn close_read<K: Keeper, A>(
    held: Held<'_, Bench<K>>,
    answer: Result<A, DeltaFault>,
) -> (Pass<K>, Result<A, DeltaFault>)
    requires noted { HasNoted held.place }
    requires stands { BenchStands held.value.lane held.value.tail (entries held.place.list ++ range_steps answer) }
    requires fixed { terms_of held.value.lane ≡ held.place.seat.turn.fixed }
    ensures same { result.1 ≡ answer }
    ensures pass { result.0 ≡ adding (range_steps answer) held.entry.place.seat }
    ensures few { length result.0.seen ≤ largest }
{
    match answer {
        Ok(read) => (close(held), Ok(read)),
        Err(fault) => {
            let pass = close_noted(held, note_of_read(&fault));
            (pass, Err(fault))
        }
    }
}
