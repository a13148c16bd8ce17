// A connection's voice.
ghost use Rattle.std.specs.Prelude.{◌≡◌, ◌<◌, ◌≤◌, ◌-◌, ◌∷◌, [], List, ℕ, max, is_some, Some, None, true, false, if◌then◌else◌, IfOk, IfSome, option_map, length, All};
ghost use Rattle.fluid_types.specs.Forms.{largest};
ghost use Rattle.fluid_readback.specs.Laws.{longest_text};
ghost use Rattle.fluid_voice.specs.declared.states.VoiceState.TheVariants.{Fresh, Reading, Writing, Used};
ghost use Rattle.fluid_codec.specs.declared.replies.Reply.TheVariants.{Connected, Ops};
ghost use Rattle.fluid_types.specs.declared.entries.Raw.TheVariants.{Leave};
ghost use Rattle.fluid_voice.specs.declared.actions.Act.TheVariants as act;
ghost use Rattle.fluid_voice.specs.States.{client_id, document_name, is_fresh, leave_of, number_behind, with_next};
ghost use Rattle.fluid_voice.specs.Refusals.{refused};
ghost use Rattle.fluid_voice.specs.Heard.{acts_of};
ghost use Rattle.fluid_voice.specs.Fitting.{IsFitting};
ghost use Rattle.fluid_voice.specs.Feed.{most_in_event};
ghost use Rattle.fluid_voice.specs.Replies.{writer_replies, reader_replies, connect_replies, entry_replies, replies_to, writer_state, reader_state, connect_state, has_left, state_after, entered_verdict};

use crate::actions::{Act, Acts};
use crate::answering::{Replies, entry_replies, event, given_replies};
use crate::ends::ActEnd;
use crate::hearing::acts_of;
use crate::refusals::ConnectRefusal;
use crate::states::VoiceState;
use fluid_codec::Reply;
use fluid_json::NoMemory;
use fluid_types::{ClientId, DocName, Messages, Raw};
use std::alloc::Global;
use std::marker::Model;

/// What one connection hears and says. Contracts see where it stands.
#[derive(Drop)]
pub struct Voice {
    state: VoiceState,
}

impl Model for Voice {
    ghost use Rattle.fluid_voice.specs.declared.states.VoiceState.{VoiceState as AState};
    ghost use Rattle.fluid_voice.specs.contracts.states.VoiceState as states;

    ghost Value = { AState };

    ghost coded = { states.the_row.coded };

    ghost view = { λ v. v.state };
}

impl Voice {
    /// A connection that is connected to no document. Takes no memory.
    pub fn new() -> Voice
        ensures { result ≡ Fresh }
    {
        Voice {
            state: VoiceState::Fresh,
        }
    }

    pub fn state(&self) -> &VoiceState
        ensures { result.now ≡ self.now }
    {
        &self.state
    }

    /// Whether it is a client that writes, which enters a leave when it ends.
    pub fn writes(&self) -> bool
        ensures is { result ≡ is_some (client_id self.now) }
        ensures none { result ≡ false → client_id self.now ≡ None }
    {
        match &self.state {
            VoiceState::Fresh => false,
            VoiceState::Reading(_, _) => false,
            VoiceState::Writing(_, _, _) => true,
            VoiceState::Used => false,
        }
    }

    /// What a text asks for that is heard at this moment, in milliseconds: acts that are to be done one after another, each
    /// with its end handed to `take`. A text of at most 1,048,576 bytes asks for nothing that doesn't fit a log.
    pub fn acts(&self, alloc: Global, text: &str, moment: u64) -> Result<Acts, NoMemory>
        ensures asked { IfOk result (λ acts. acts ≡ acts_of self.now text.now moment) }
        ensures fit { length text.now ≤ longest_text → moment ≤ largest → IfOk result (λ acts. All IsFitting acts) }
    {
        acts_of(alloc, &self.state, text, moment)
    }

    /// The replies to an act that ended so. Where the connection stands is noted first, which takes no memory: for want of it the
    /// replies alone are lost.
    pub fn take(&mut self, alloc: Global, act: Act, end: ActEnd) -> Result<Replies, NoMemory>
        ensures state { self.new ≡ state_after self.old act end }
        ensures replies { IfOk result (λ replies. replies ≡ replies_to self.old act end) }
    {
        match act {
            Act::Say(reply) => Replies::one(alloc, reply),
            Act::Connect { name, write, .. } => self.take_connect(alloc, name, write, end),
            Act::Enter(raw) => self.take_raw(alloc, &raw, end),
            Act::Deltas(_, _) => given_replies(alloc, &self.state, end),
            Act::Summary(_) => given_replies(alloc, &self.state, end),
            Act::GetObject(_) => given_replies(alloc, &self.state, end),
            Act::PutObject(_) => given_replies(alloc, &self.state, end),
        }
    }

    /// The same of a submission whose entry was handed on and is here no more.
    pub fn take_entry(&self, alloc: Global, end: ActEnd) -> Result<Replies, NoMemory>
        ensures { IfOk result (λ replies. replies ≡ entry_replies (document_name self.now) end) }
    {
        entry_replies(alloc, &self.state, end)
    }

    /// The same of a connect to the document of this name, which writes or only reads, and whose detail was handed on.
    pub fn take_connect(
        &mut self,
        alloc: Global,
        name: DocName,
        write: bool,
        end: ActEnd,
    ) -> Result<Replies, NoMemory>
        ensures state { self.new ≡ connect_state name write self.old end }
        ensures replies { IfOk result (λ replies. replies ≡ connect_replies self.old write end) }
    {
        if !is_fresh(&self.state) {
            return refuse(alloc, ConnectRefusal::AlreadyConnected);
        }
        if write {
            return self.take_writer(alloc, name, end);
        }
        self.take_reader(alloc, name, end)
    }

    fn take_writer(
        &mut self,
        alloc: Global,
        name: DocName,
        end: ActEnd,
    ) -> Result<Replies, NoMemory>
        ensures state { self.new ≡ writer_state name self.old end }
        ensures replies { IfOk result (λ replies. replies ≡ writer_replies end) }
    {
        match end {
            ActEnd::Joined(id, number) => self.write(alloc, name, id, number),
            ActEnd::FullNow => refuse(alloc, ConnectRefusal::DocumentFull),
            ActEnd::TooMany => refuse(alloc, ConnectRefusal::TooManyClients),
            ActEnd::Given(reply) => Replies::one(alloc, reply),
            ActEnd::Said => Ok(Replies::none(alloc)),
            ActEnd::Told(_) => Ok(Replies::none(alloc)),
            ActEnd::Entered(_) => Ok(Replies::none(alloc)),
        }
    }

    fn take_reader(
        &mut self,
        alloc: Global,
        name: DocName,
        end: ActEnd,
    ) -> Result<Replies, NoMemory>
        ensures state { self.new ≡ reader_state name self.old end }
        ensures replies { IfOk result (λ replies. replies ≡ reader_replies end) }
    {
        match end {
            ActEnd::Told(last) => self.read(alloc, name, last),
            ActEnd::Given(reply) => Replies::one(alloc, reply),
            ActEnd::Said => Ok(Replies::none(alloc)),
            ActEnd::Joined(_, _) => Ok(Replies::none(alloc)),
            ActEnd::Entered(_) => Ok(Replies::none(alloc)),
            ActEnd::FullNow => Ok(Replies::none(alloc)),
            ActEnd::TooMany => Ok(Replies::none(alloc)),
        }
    }

    fn write(
        &mut self,
        alloc: Global,
        name: DocName,
        id: ClientId,
        number: u64,
    ) -> Result<Replies, NoMemory>
        ensures state { self.new ≡ Writing name id number }
        ensures replies { IfOk result (λ replies. replies ≡ Connected (number - 1) (Some id) true ∷ []) }
    {
        let copy = id.copy(alloc);
        self.state = VoiceState::Writing(name, id, number);
        let copy = copy?;
        Replies::one(
            alloc,
            Reply::Connected {
                checkpoint: before(number),
                id: Some(copy),
                write: true,
            },
        )
    }

    fn read(&mut self, alloc: Global, name: DocName, last: u64) -> Result<Replies, NoMemory>
        ensures state { self.new ≡ Reading name (number_behind last) }
        ensures replies { IfOk result (λ replies. replies ≡ Connected last None false ∷ []) }
    {
        self.state = VoiceState::Reading(name, behind(last));
        Replies::one(
            alloc,
            Reply::Connected {
                checkpoint: last,
                id: None,
                write: false,
            },
        )
    }

    fn take_raw(&mut self, alloc: Global, raw: &Raw, end: ActEnd) -> Result<Replies, NoMemory>
        ensures state { self.new ≡ (if has_left raw.now end then Used else self.old) }
        ensures replies { IfOk result (λ replies. replies ≡ entry_replies (document_name self.old) end) }
    {
        let left = has_left(raw, &end);
        let replies = entry_replies(alloc, &self.state, end);
        self.close_if(left);
        replies
    }

    fn close_if(&mut self, left: bool)
        ensures { self.new ≡ (if left then Used else self.old) }
    {
        if left {
            self.state = VoiceState::Used;
        }
    }

    /// An op event with these messages, at most `MOST_IN_EVENT` and not none, under the name of the connection's document; none where
    /// it is connected to none.
    pub fn event(&self, alloc: Global, messages: Messages) -> Result<Option<Reply>, NoMemory>
        requires some { 0 < length messages }
        requires few { length messages ≤ most_in_event }
        ensures { IfOk result (λ event. event ≡ option_map (λ name. Ops name messages) (document_name self.now)) }
    {
        event(alloc, &self.state, messages)
    }

    /// The leave that a connection enters when it ends; none where it doesn't write. It fits a log.
    pub fn leave(&self, alloc: Global, moment: u64) -> Result<Option<Act>, NoMemory>
        ensures leave { IfOk result (λ entry. entry ≡ option_map act.Enter (leave_of moment self.now)) }
        ensures fit { moment ≤ largest → IfOk result (λ entry. IfSome entry IsFitting) }
    {
        match &self.state {
            VoiceState::Fresh => Ok(None),
            VoiceState::Reading(_, _) => Ok(None),
            VoiceState::Writing(_, id, _) => leave(alloc, id, moment),
            VoiceState::Used => Ok(None),
        }
    }

    /// The same as `take` of a leave whose entry was handed on: where it was entered, the connection has left. Takes no memory.
    pub fn take_leave(&mut self, end: &ActEnd)
        ensures { (id : List ℕ) (moment : ℕ) → self.new ≡ state_after self.old (act.Enter (Leave id moment)) end.now }
    {
        let left = is_entered(end);
        self.close_if(left);
    }

    /// A connection that has no leave to enter ends. Takes no memory.
    pub fn close(&mut self)
        requires { client_id self.old ≡ None }
        ensures { self.new ≡ Used }
    {
        self.state = VoiceState::Used;
    }

    /// The messages before this number were delivered. What was delivered before stays so. Takes no memory.
    pub fn advance(&mut self, next: u64)
        ensures { self.new ≡ with_next next self.old }
    {
        match &mut self.state {
            VoiceState::Fresh => {}
            VoiceState::Reading(_, number) => *number = later(*number, next),
            VoiceState::Writing(_, _, number) => *number = later(*number, next),
            VoiceState::Used => {}
        }
    }
}

fn is_fresh(state: &VoiceState) -> bool
    ensures { result ≡ is_fresh state.now }
{
    match state {
        VoiceState::Fresh => true,
        VoiceState::Reading(_, _) => false,
        VoiceState::Writing(_, _, _) => false,
        VoiceState::Used => false,
    }
}

// A leave was entered.
fn has_left(raw: &Raw, end: &ActEnd) -> bool
    ensures { result ≡ has_left raw.now end.now }
{
    match raw {
        Raw::Join { .. } => false,
        Raw::Leave { .. } => is_entered(end),
        Raw::Submit { .. } => false,
        Raw::Report { .. } => false,
    }
}

fn is_entered(end: &ActEnd) -> bool
    ensures { result ≡ is_some (entered_verdict end.now) }
{
    match end {
        ActEnd::Said => false,
        ActEnd::Joined(_, _) => false,
        ActEnd::Told(_) => false,
        ActEnd::Entered(_) => true,
        ActEnd::FullNow => false,
        ActEnd::TooMany => false,
        ActEnd::Given(_) => false,
    }
}

fn leave(alloc: Global, id: &ClientId, moment: u64) -> Result<Option<Act>, NoMemory>
    ensures leave { IfOk result (λ entry. entry ≡ Some (act.Enter (Leave id.now moment))) }
    ensures fit { moment ≤ largest → IfOk result (λ entry. IfSome entry IsFitting) }
{
    let id = id.copy(alloc)?;
    // (read for its clause alone)
    let _name = id.as_str();
    Ok(Some(Act::Enter(Raw::Leave { id, moment })))
}

fn refuse(alloc: Global, refusal: ConnectRefusal) -> Result<Replies, NoMemory>
    ensures { IfOk result (λ replies. replies ≡ refused refusal ∷ []) }
{
    let reply = refusal.reply(alloc)?;
    Replies::one(alloc, reply)
}

// The number before this one; none is before 0.
fn before(number: u64) -> u64
    ensures { result ≡ number - 1 }
{
    number.saturating_sub(1)
}

// The number behind this one, where there is one.
fn behind(number: u64) -> u64
    ensures { result ≡ number_behind number }
{
    number.saturating_add(1)
}

fn later(one: u64, other: u64) -> u64
    ensures { result ≡ max one other }
{
    one.max(other)
}
