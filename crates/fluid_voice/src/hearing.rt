// The acts of a text. A text is read once; submissions are moved into their acts.
ghost use Rattle.std.specs.Prelude.{◌≡◌, ◌≢◌, ◌∷◌, [], ◌++◌, IfOk, is_ok, false};
ghost use Rattle.fluid_tree.specs.Reading.{object_read};
ghost use Rattle.fluid_tree.specs.declared.fault.TreeFault.TheVariants as tree;
ghost use Rattle.fluid_types.specs.declared.entries.Raw.TheVariants.{Submit};
ghost use Rattle.fluid_types.specs.declared.fault.CodecFault.TheVariants as codec;
ghost use Rattle.fluid_types.specs.declared.nacks.NackRule.TheVariants.{Unread};
ghost use Rattle.fluid_voice.specs.declared.actions.Act.TheVariants as act;
ghost use Rattle.fluid_voice.specs.States.{is_connected, is_used};
ghost use Rattle.fluid_voice.specs.Heard.{nacks, refuses, connect_acts, submission_acts, submit_acts, asks, puts, event_acts, acts_of};

use crate::actions::{Act, Acts};
use crate::answering::front_reply;
use crate::refusals::ConnectRefusal;
use crate::states::VoiceState;
use fluid_codec::{Event, read_event};
use fluid_json::{Bytes, NoMemory};
use fluid_tree::{Id, TreeFault, read_object};
use fluid_types::{ClientId, CodecFault, Field, NackRule, Raw, Submission, Submissions, What};
use std::alloc::Global;

/// The acts of a text that is heard at this moment.
#[tactic(auto, unfolding(crate::specs::Heard::acts_of))]
pub(crate) fn acts_of(
    alloc: Global,
    state: &VoiceState,
    text: &str,
    moment: u64,
) -> Result<Acts, NoMemory>
    ensures { IfOk result (λ acts. acts ≡ acts_of state.now text.now moment) }
{
    if is_used(state) {
        return Ok(Acts::new(alloc));
    }
    match read_event(alloc, text) {
        Ok(event) => event_acts(alloc, state, event, moment),
        Err(fault) => unread(alloc, state, fault),
    }
}

fn is_used(state: &VoiceState) -> bool
    ensures { result ≡ is_used state.now }
{
    match state {
        VoiceState::Fresh => false,
        VoiceState::Reading(_, _) => false,
        VoiceState::Writing(_, _, _) => false,
        VoiceState::Used => true,
    }
}

/// Whether a connection in this state is connected to a document. Takes no memory.
pub fn is_connected(state: &VoiceState) -> bool
    ensures { result ≡ is_connected state.now }
{
    match state {
        VoiceState::Fresh => false,
        VoiceState::Reading(_, _) => true,
        VoiceState::Writing(_, _, _) => true,
        VoiceState::Used => false,
    }
}

// A text outside the grammar. Want of memory is no fault of a text.
fn unread(alloc: Global, state: &VoiceState, fault: CodecFault) -> Result<Acts, NoMemory>
    ensures { IfOk result (λ acts. (fault ≢ codec.NoMemory) × (acts ≡ nacks state.now (Unread fault))) }
{
    match fault {
        CodecFault::NoMemory => Err(NoMemory),
        CodecFault::NotJson => nacks(alloc, state, NackRule::Unread(fault)),
        CodecFault::NotWhole => nacks(alloc, state, NackRule::Unread(fault)),
        CodecFault::TooDeep => nacks(alloc, state, NackRule::Unread(fault)),
        CodecFault::UnknownEvent => nacks(alloc, state, NackRule::Unread(fault)),
        CodecFault::BadField(_, _) => nacks(alloc, state, NackRule::Unread(fault)),
    }
}

fn event_acts(
    alloc: Global,
    state: &VoiceState,
    event: Event,
    moment: u64,
) -> Result<Acts, NoMemory>
    ensures { IfOk result (λ acts. acts ≡ event_acts state.now moment event) }
{
    match event {
        Event::Connect {
            name,
            write,
            scopes,
            client,
        } => connect_acts(
            alloc,
            state,
            scopes.read,
            Act::Connect {
                name,
                write: write && scopes.write,
                scopes,
                detail: client,
                moment,
            },
        ),
        Event::SubmitOp { id, submissions } => submit_acts(alloc, state, moment, id, submissions),
        Event::GetDeltas { from, to } => asks(alloc, state, Act::Deltas(from, to)),
        Event::GetSummary(asked) => asks(alloc, state, Act::Summary(asked)),
        Event::GetObject(id) => asks(alloc, state, Act::GetObject(Id::new(id))),
        Event::PutObject(bytes) => puts(alloc, state, bytes),
    }
}

fn connect_acts(
    alloc: Global,
    state: &VoiceState,
    may_read: bool,
    connect: Act,
) -> Result<Acts, NoMemory>
    ensures { IfOk result (λ acts. acts ≡ connect_acts state.now may_read connect) }
{
    if is_connected(state) {
        return refuses(alloc, ConnectRefusal::AlreadyConnected);
    }
    if !may_read {
        return refuses(alloc, ConnectRefusal::ReadMissing);
    }
    Acts::one(alloc, connect)
}

fn submit_acts(
    alloc: Global,
    state: &VoiceState,
    moment: u64,
    id: ClientId,
    submissions: Submissions,
) -> Result<Acts, NoMemory>
    ensures { IfOk result (λ acts. acts ≡ submit_acts state.now moment id submissions) }
{
    match state {
        VoiceState::Fresh => nacks(alloc, state, NackRule::NotConnected),
        VoiceState::Reading(_, _) => nacks(alloc, state, NackRule::ReadOnly),
        VoiceState::Writing(_, own, _) => {
            if id == *own {
                return submission_acts(alloc, moment, &id, submissions);
            }
            nacks(alloc, state, NackRule::ForeignClient)
        }
        VoiceState::Used => nacks(alloc, state, NackRule::NotConnected),
    }
}

// One entry for each submission.
fn submission_acts(
    alloc: Global,
    moment: u64,
    id: &ClientId,
    submissions: Submissions,
) -> Result<Acts, NoMemory>
    ensures { IfOk result (λ acts. acts ≡ submission_acts moment id.now submissions) }
{
    let submissions = submissions.into_vec();
    let mut acts = Acts::with_capacity(alloc, submissions.len())?;
    for submission in submissions {
        acts = with_entry(alloc, acts, moment, id, submission)?;
    }
    Ok(acts)
}

fn with_entry(
    alloc: Global,
    acts: Acts,
    moment: u64,
    id: &ClientId,
    submission: Submission,
) -> Result<Acts, NoMemory>
    ensures { IfOk result (λ more. more ≡ acts ++ act.Enter (Submit id.now submission moment) ∷ []) }
{
    let id = id.copy(alloc)?;
    let mut acts = acts;
    acts.push(Act::Enter(Raw::Submit {
        id,
        submission,
        moment,
    }))?;
    Ok(acts)
}

fn asks(alloc: Global, state: &VoiceState, question: Act) -> Result<Acts, NoMemory>
    ensures { IfOk result (λ acts. acts ≡ asks state.now question) }
{
    if is_connected(state) {
        return Acts::one(alloc, question);
    }
    nacks(alloc, state, NackRule::NotConnected)
}

fn puts(alloc: Global, state: &VoiceState, bytes: Bytes) -> Result<Acts, NoMemory>
    ensures { IfOk result (λ acts. acts ≡ puts state.now bytes) }
{
    if !is_connected(state) {
        return nacks(alloc, state, NackRule::NotConnected);
    }
    if is_object(alloc, bytes.as_slice())? {
        return Acts::one(alloc, Act::PutObject(bytes));
    }
    let fault = CodecFault::BadField(Field::Object, What::NotAllowed);
    nacks(alloc, state, NackRule::Unread(fault))
}

// Whether bytes are an object in the grammar.
fn is_object(alloc: Global, bytes: &[u8]) -> Result<bool, NoMemory>
    ensures { IfOk result (λ is. is ≡ is_ok (object_read bytes.now)) }
{
    match read_object(alloc, bytes) {
        Ok(_) => Ok(true),
        Err(fault) => isnt_object(&fault),
    }
}

// Bytes from which no object is read. Want of memory tells nothing of them.
fn isnt_object(fault: &TreeFault) -> Result<bool, NoMemory>
    ensures { IfOk result (λ is. (fault.now ≢ tree.NoMemory) × (is ≡ false)) }
{
    match fault {
        TreeFault::NoMemory => Err(NoMemory),
        TreeFault::BadName(_) => Ok(false),
        TreeFault::TooDeep => Ok(false),
        TreeFault::BadObject(_) => Ok(false),
        TreeFault::HandleLeft(_) => Ok(false),
        TreeFault::Attachment => Ok(false),
        TreeFault::BadForm => Ok(false),
    }
}

fn refuses(alloc: Global, refusal: ConnectRefusal) -> Result<Acts, NoMemory>
    ensures { IfOk result (λ acts. acts ≡ refuses refusal) }
{
    let reply = refusal.reply(alloc)?;
    Acts::one(alloc, Act::Say(reply))
}

fn nacks(alloc: Global, state: &VoiceState, rule: NackRule) -> Result<Acts, NoMemory>
    ensures { IfOk result (λ acts. acts ≡ nacks state.now rule) }
{
    let reply = front_reply(alloc, state, rule)?;
    Acts::one(alloc, Act::Say(reply))
}
