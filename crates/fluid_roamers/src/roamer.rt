//! One user's edits over many clients of a document.
ghost use Rattle.std.specs.Prelude.{◌≡◌, ◌≤◌, ◌+◌, ◌∷◌, [], nat_lt, false, Some, IfOk, IfSome, OnOk, not, is_some};
ghost use Rattle.fluid_edits.specs.Replay.{replay_edits};
ghost use Rattle.fluid_runtime.specs.Shown.{shown};
ghost use Rattle.fluid_types.specs.Fits.{Fits};
ghost use Rattle.fluid_types.specs.Forms.{largest};
ghost use Rattle.fluid_rules.specs.Past.{has_id};
ghost use Rattle.fluid_voice.specs.Fitting.{IsLeaveOrSubmission};
ghost use Rattle.fluid_outbox.specs.Past.{Past, current, ids};
ghost use Rattle.fluid_outbox.specs.Kept.{Stands, id_of};
ghost use Rattle.fluid_containers.specs.Stepping.{IsShort};
ghost use Rattle.fluid_roamers.specs.Taking.{Begins, Gives, IsSendable, IsShortOp, LaysOver, Loses, TakesIn, TakesClient};

use fluid_edits::Edit;
use fluid_json::{Json, LARGEST, NoMemory};
use fluid_outbox::Outbox;
use fluid_runtime::{App, EditFault};
use fluid_types::{ClientId, DocName, Message, Raw, Submission};
use std::alloc::Global;

/// The channels of a document as one user has them, with the edits that aren't acknowledged laid over.
#[derive(Drop)]
pub struct Roamer {
    pub document: DocName,
    /// The client as which it joined last.
    pub client: ClientId,
    pub app: App,
    pub outbox: Outbox,
    /// How many edits were said.
    pub edits: u64,
}

impl Roamer {
    /// Nothing was said or heard yet, and no client has joined.
    pub(crate) fn new(alloc: Global, document: DocName, client: ClientId) -> Roamer
        ensures begins { Begins document client result }
        ensures kept { IsSendable result.outbox }
    {
        let app = App::new(alloc);
        let outbox = Outbox::new(alloc);
        Roamer {
            document,
            client,
            app,
            outbox,
            edits: 0,
        }
    }

    /// Edits are sent as this client from now on, and no longer as the last one.
    pub(crate) fn join(&mut self, alloc: Global, client: ClientId) -> Result<(), NoMemory>
        requires { IsSendable self.old.outbox }
        ensures does { (past : Past) → Stands self.old.outbox past → has_id client (ids past) ≡ false → OnOk result (TakesClient past client self.old self.new) }
        ensures kept { OnOk result (IsSendable self.new.outbox) }
    {
        let own = client.copy(alloc)?;
        self.client = client;
        self.outbox.lost();
        self.outbox.joined(own)
    }

    /// Whether its connection is lost.
    pub fn is_lost(&self) -> bool
        ensures answer { (past : Past) → Stands self.now.outbox past → result ≡ not (is_some (current past)) }
        ensures kept { result ≡ not (is_some (id_of self.now.outbox.current)) }
    {
        match self.outbox.current() {
            Some(_) => false,
            None => true,
        }
    }

    /// Its connection is lost.
    pub(crate) fn lose(&mut self)
        ensures does { (past : Past) → Stands self.old.outbox past → Loses past self.old self.new }
        ensures kept { IsSendable self.old.outbox → IsSendable self.new.outbox }
    {
        self.outbox.lost();
    }

    /// The number of the last message that was taken in.
    pub fn seq(&self) -> u64
        ensures { result ≡ self.now.outbox.heard_to }
    {
        self.outbox.heard_to()
    }

    /// How many of its edits stand, of those that it has heard of.
    pub(crate) fn stood(&self) -> u64
        ensures { result ≡ self.now.outbox.acknowledged }
    {
        self.outbox.acknowledged()
    }

    /// What is shown: an object with one member per visible channel, its kind and its value.
    pub(crate) fn state(&self, alloc: Global) -> Result<Json, NoMemory>
        ensures { IfOk result (λ json. json ≡ shown (replay_edits self.now.app.channels self.now.app.pending)) }
    {
        self.app.visible(alloc)
    }

    /// Takes in the next message. Where it acknowledges an edit, that is the oldest one of those that are laid over.
    pub(crate) fn take(&mut self, alloc: Global, message: &Message) -> Result<(), NoMemory>
        requires kept { IsSendable self.old.outbox }
        requires next { message.now.number ≡ self.old.outbox.heard_to + 1 }
        ensures does { (past : Past) → Stands self.old.outbox past → OnOk result (TakesIn past (message.now ∷ []) self.old self.new) }
        ensures number { OnOk result (self.new.outbox.heard_to ≡ self.old.outbox.heard_to + 1) }
        ensures kept { OnOk result (IsSendable self.new.outbox) }
    {
        if !self.app.has_room() {
            return Err(NoMemory);
        }
        let before = self.outbox.acknowledged();
        self.outbox.heard(message);
        let after = self.outbox.acknowledged();
        let own = rises(before, after);
        self.app.apply(alloc, message, own)
    }

    /// Lays an edit over what is shown, and gives its number: how many were said before.
    pub(crate) fn lay_over(&mut self, alloc: Global, edit: Edit) -> Result<u64, EditFault>
        requires kept { IsSendable self.old.outbox }
        requires short { IsShort edit }
        ensures does { (past : Past) → Stands self.old.outbox past → LaysOver past self.old edit self.new result }
        ensures kept { IsSendable self.new.outbox }
    {
        let contents = self.app.edit(alloc, edit)?;
        let number = self.outbox.push(contents)?;
        if number >= LARGEST {
            return Err(EditFault::NoMemory);
        }
        self.edits = number + 1;
        Ok(number)
    }

    /// The submission of the first edit that waits, as an entry; from then on the edit is on its way. None where nothing waits.
    pub(crate) fn next(&mut self, alloc: Global, moment: u64) -> Result<Option<Raw>, NoMemory>
        requires kept { IsSendable self.old.outbox }
        requires moment { moment ≤ largest }
        ensures does { (past : Past) → Stands self.old.outbox past → IfOk result (Gives past moment self.old self.new) }
        ensures fits { IfOk result (λ raw. IfSome raw (λ entry. IsLeaveOrSubmission entry × Fits entry)) }
        ensures kept { OnOk result (IsSendable self.new.outbox) }
    {
        let reference = self.outbox.heard_to();
        if reference > LARGEST {
            return Err(NoMemory);
        }
        let given = self.outbox.next(alloc, reference)?;
        match given {
            None => Ok(None),
            Some(submission) => entry_of(alloc, &self.client, submission, moment),
        }
    }
}

fn rises(before: u64, after: u64) -> bool
    ensures { result ≡ nat_lt before after }
{
    before < after
}

// A submission of a client, where its number is one that a record can have.
fn entry_of(
    alloc: Global,
    client: &ClientId,
    submission: Submission,
    moment: u64,
) -> Result<Option<Raw>, NoMemory>
    requires moment { moment ≤ largest }
    requires short { IsShortOp submission }
    ensures is { IfOk result (λ raw. raw ≡ Some (Raw.Submit client.now submission moment)) }
    ensures fits { IfOk result (λ raw. IfSome raw (λ entry. IsLeaveOrSubmission entry × Fits entry)) }
{
    if submission.client_number > LARGEST {
        return Err(NoMemory);
    }
    // (read for its clause alone)
    let _name = client.as_str();
    let id = client.copy(alloc)?;
    Ok(Some(Raw::Submit {
        id,
        submission,
        moment,
    }))
}
