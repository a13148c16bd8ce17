// The edits of one user over many connections.
ghost use Rattle.std.specs.Prelude.{◌≡◌, ◌≤◌, ◌+◌, ◌∷◌, ◌++◌, [], List, Some, None, Ok, length, option_map, IfOk, OnErr, OnOk, is_some, if◌then◌else◌, false, not, ◌&&◌};
ghost use Rattle.fluid_rules.specs.Past.{has_id};
ghost use Rattle.fluid_outbox.specs.Past.{Call, Given, Pushed, Joined, Gave, Heard, Lost, edits, ids, current, heard_to, acknowledged, may_send, next, op_of};
ghost use Rattle.fluid_outbox.specs.Kept.{StandsFor, past_of, empty, with_edit, with_id, with_sent, to_send, after_lost, after_op, after_leave, after_heard, id_of};

use crate::keeping::{acknowledge, is_leave_of, left_text, note_leave, op_of};
use crate::line::Line;
use fluid_json::{Json, LARGEST, NoMemory};
use fluid_types::{ClientId, Message, Offered, Submission};
use std::alloc::Global;
use std::collections::VecDeque;
use std::marker::Model;

/// The edits of one user, each with its number from 0 on, and how far they have got.
#[derive(Drop)]
pub struct Outbox {
    // The contents of the edits that aren't acknowledged, in the order of their numbers.
    pending: VecDeque<Json>,
    acknowledged: u64,
    current: Option<Line>,
    // The ended id whose leave is awaited. While there is one, nothing is sent under the current id.
    awaited: Option<Line>,
    heard_to: u64,
}

impl Model for Outbox {
    ghost use Rattle.fluid_outbox.specs.Kept.{AnOutbox, outbox_code, IsSound};

    ghost Value = { AnOutbox };

    ghost coded = { outbox_code };

    ghost view = { λ o. record { pending = o.pending.items; acknowledged = o.acknowledged; current = o.current; awaited = o.awaited; heard_to = o.heard_to } };

    ghost invariant = { λ o. IsSound o.pending.items o.acknowledged o.current o.awaited };
}

impl Outbox {
    /// No edits, no id, and nothing heard. Takes no memory.
    pub fn new(alloc: Global) -> Outbox
        ensures { StandsFor result [] }
    {
        Outbox::empty(alloc)
    }

    /// Adds an edit, which waits, and gives its number: how many were added before. After `NoMemory` nothing has changed.
    pub fn push(&mut self, contents: Json) -> Result<u64, NoMemory>
        ensures number { (calls : List Call) → StandsFor self.old calls → IfOk result (λ number. number ≡ length (edits (past_of calls))) }
        ensures counts { IfOk result (λ number. number ≡ self.old.acknowledged + length self.old.pending) }
        ensures stands { (calls : List Call) → StandsFor self.old calls → OnOk result (StandsFor self.new (calls ++ Pushed contents ∷ [])) }
        ensures kept { OnOk result (self.new ≡ with_edit self.old contents) }
        ensures unchanged { OnErr result (self.new ≡ self.old) }
    {
        self.add(contents)
    }

    /// Edits are sent under this id from now on, where none is current. It is one that was never used. Takes no memory.
    pub fn joined(&mut self, id: ClientId) -> Result<(), NoMemory>
        requires { id_of self.old.current ≡ None }
        ensures answer { result ≡ Ok tt }
        ensures stands { (calls : List Call) → StandsFor self.old calls → has_id id (ids (past_of calls)) ≡ false →
            StandsFor self.new (calls ++ Joined id ∷ []) }
        ensures kept { self.new ≡ with_id self.old id }
    {
        self.begin(id);
        Ok(())
    }

    /// The id under which edits are sent. Takes no memory.
    pub fn current(&self) -> Option<&ClientId>
        ensures kept { option_map (λ id. id.now) result ≡ id_of self.now.current }
        ensures answer { (calls : List Call) → StandsFor self.now calls → option_map (λ id. id.now) result ≡ current (past_of calls) }
    {
        match &self.current {
            Some(line) => Some(&line.id),
            None => None,
        }
    }

    /// The first edit that waits, as an op with the next client number of the current id and this reference, at most 2^53 - 1; from
    /// then on it is on its way. None where no id is current, the leave of an earlier id under which an edit was sent hasn't been
    /// heard, or nothing waits. After None and after `NoMemory` nothing has changed.
    pub fn next(&mut self, alloc: Global, reference: u64) -> Result<Option<Submission>, NoMemory>
        requires { reference ≤ LARGEST }
        ensures answer { (calls : List Call) → StandsFor self.old calls →
            IfOk result (λ submission. submission ≡ option_map (λ given. given.submission) (next (past_of calls) reference)) }
        ensures stands { (calls : List Call) (given : Given) → StandsFor self.old calls → next (past_of calls) reference ≡ Some given →
            OnOk result (StandsFor self.new (calls ++ Gave given ∷ [])) }
        ensures gives { IfOk result (λ submission. submission ≡ to_send self.old reference) }
        ensures kept { IfOk result (λ submission. self.new ≡ (if is_some submission then with_sent self.old else self.old)) }
        ensures none { IfOk result (λ submission. submission ≡ None → self.new ≡ self.old) }
        ensures unchanged { OnErr result (self.new ≡ self.old) }
    {
        self.send(alloc, reference)
    }

    /// Whether `next` gives an edit where one waits. Takes no memory.
    pub fn may_send(&self) -> bool
        ensures kept { result ≡ (is_some self.now.current && not (is_some self.now.awaited)) }
        ensures answer { (calls : List Call) → StandsFor self.now calls → result ≡ may_send (past_of calls) }
    {
        self.sends()
    }

    /// The number of the last message that was heard, 0 at first. Takes no memory.
    pub fn heard_to(&self) -> u64
        ensures kept { result ≡ self.now.heard_to }
        ensures answer { (calls : List Call) → StandsFor self.now calls → result ≡ heard_to (past_of calls) }
    {
        self.heard_to
    }

    /// Takes in the next message of the order. An op under an id of the outbox's acknowledges the edit that was sent with this id and
    /// number, where this is the first that isn't acknowledged and no leave of the id was heard: in a run it always is, and off one
    /// another op changes nothing. A leave of the id that is awaited lets what was sent under it and isn't acknowledged wait again.
    /// It takes a comparison with the current id and with the one that is awaited, and no memory.
    pub fn heard(&mut self, message: &Message)
        requires { message.now.number ≡ self.old.heard_to + 1 }
        ensures stands { (calls : List Call) → StandsFor self.old calls → StandsFor self.new (calls ++ Heard message.now ∷ []) }
        ensures kept { self.new ≡ after_heard self.old message.now }
    {
        self.hear(message);
    }

    /// Ends the current id, where there is one: its connection is lost, or a submission under it was refused. Where no leave is
    /// awaited then, what was sent under it and isn't acknowledged waits again. Takes no memory.
    pub fn lost(&mut self)
        ensures stands { (calls : List Call) → StandsFor self.old calls → StandsFor self.new (calls ++ Lost ∷ []) }
        ensures kept { self.new ≡ after_lost self.old }
    {
        self.end();
    }

    /// How many edits are acknowledged: those with the numbers below. Takes no memory.
    pub fn acknowledged(&self) -> u64
        ensures kept { result ≡ self.now.acknowledged }
        ensures answer { (calls : List Call) → StandsFor self.now calls → result ≡ acknowledged (past_of calls) }
    {
        self.acknowledged
    }

    // ---- what is kept

    fn empty(alloc: Global) -> Outbox
        ensures { result ≡ empty }
    {
        Outbox {
            pending: VecDeque::new(alloc),
            acknowledged: 0,
            current: None,
            awaited: None,
            heard_to: 0,
        }
    }

    fn add(&mut self, contents: Json) -> Result<u64, NoMemory>
        ensures number { IfOk result (λ number. number ≡ self.old.acknowledged + length self.old.pending) }
        ensures kept { OnOk result (self.new ≡ with_edit self.old contents) }
        ensures unchanged { OnErr result (self.new ≡ self.old) }
    {
        let number = self.acknowledged + self.pending.len() as u64;
        if number == u64::MAX {
            return Err(NoMemory);
        }
        self.pending.push_back(contents)?;
        Ok(number)
    }

    fn begin(&mut self, id: ClientId)
        ensures { self.new ≡ with_id self.old id }
    {
        self.current = Some(Line {
            id,
            sent: 0,
            acknowledged: 0,
            left: false,
        });
    }

    fn sends(&self) -> bool
        ensures { result ≡ (is_some self.now.current && not (is_some self.now.awaited)) }
    {
        self.current.is_some() && self.awaited.is_none()
    }

    // The first edit that waits, where one may be sent.
    fn send(&mut self, alloc: Global, reference: u64) -> Result<Option<Submission>, NoMemory>
        requires { reference ≤ LARGEST }
        ensures answer { IfOk result (λ submission. submission ≡ to_send self.old reference) }
        ensures kept { IfOk result (λ submission. self.new ≡ (if is_some submission then with_sent self.old else self.old)) }
        ensures unchanged { OnErr result (self.new ≡ self.old) }
    {
        if self.awaited.is_some() {
            return Ok(None);
        }
        let Some(line) = &mut self.current else {
            return Ok(None);
        };
        let place = (line.sent - line.acknowledged) as usize;
        let Some(contents) = self.pending.get(place) else {
            return Ok(None);
        };
        let contents = contents.copy(alloc)?;
        line.sent += 1;
        Ok(Some(Submission {
            client_number: line.sent,
            reference: reference as i64,
            kind: Offered::Op,
            contents,
            metadata: None,
        }))
    }

    fn hear(&mut self, message: &Message)
        ensures { self.new ≡ after_heard self.old message.now }
    {
        if let Some((id, number)) = op_of(message) {
            self.take_op(id, number);
        }
        if let Some(left) = left_text(message) {
            self.take_leave(left);
        }
        self.heard_to = message.number;
    }

    fn take_op(&mut self, id: &ClientId, number: u64)
        ensures { self.new ≡ after_op self.old (Some (id.now, number)) }
    {
        if acknowledge(&mut self.awaited, id, number) {
            drop(self.pending.pop_front());
            self.acknowledged += 1;
            return;
        }
        if acknowledge(&mut self.current, id, number) {
            drop(self.pending.pop_front());
            self.acknowledged += 1;
        }
    }

    fn take_leave(&mut self, left: &str)
        ensures { self.new ≡ after_leave self.old (Some left.now) }
    {
        note_leave(&mut self.current, left);
        if is_leave_of(&self.awaited, left) {
            self.awaited = None;
        }
    }

    fn end(&mut self)
        ensures { self.new ≡ after_lost self.old }
    {
        let Some(line) = self.current.take() else {
            return;
        };
        if line.sent > 0 && !line.left {
            self.awaited = Some(line);
        }
    }
}
