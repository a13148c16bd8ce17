//! A document as one client has it.
ghost use Rattle.std.specs.Prelude.{◌≡◌, ◌⊎◌, ◌<◌, ◌≤◌, ◌^◌, ◌+◌, ◌-◌, ℕ, List, Ok, IfOk, IfErr, IfSome, IsTrue, OnOk, OnErr, length, option_map, nat_lt};
ghost use Rattle.fluid_io.specs.Causes.{Tells};
ghost use Rattle.fluid_rules.specs.Scribe.{handling, is_ack};
ghost use Rattle.fluid_runtime.specs.AppTree as summaries;
ghost use Rattle.fluid_runtime.specs.AppTree.{app_tree, AreBounded};
ghost use Rattle.fluid_runtime.specs.Shown.{shown};
ghost use Rattle.fluid_store.specs.Standing.{Stands};
ghost use Rattle.fluid_types.specs.Forms.{largest};
ghost use Rattle.fluid_types.specs.Order.{AreNumberedFrom};
ghost use Rattle.fluid_loader.specs.Container.{AContainer, empty, acknowledged, is_from, taken_by, behind};
ghost use Rattle.fluid_loader.specs.Calls.{FetchesIn, Answers, LoadsOnly, LoadDoes, LoadReads, begun_in, begun_picked, Fetched, ReadStops, PumpDoes, PumpReads, Submits, IsBehindPrefix, Proposes, op_of, noop_of, summarize_of, shown_channels, counted_by, EditDoes, UploadsTree, UploadsOver, UploadEnds, SummarizeDoes, Picked, Begins, since, failure, or_refused, or_failed};
ghost use Rattle.fluid_loader.specs.Fitting.{MaySubmit};
ghost use Rattle.fluid_loader.specs.Laws.{Follows, HasReplayed, HasTakenAll, IsBased, IsBehind, IsHonestPick, IsNoBadSummary, StaysBehind};
ghost use Rattle.fluid_loader.specs.Version.{IsIn, IsOfVersion};
ghost use Rattle.fluid_loader.specs.Link as links;
ghost use Rattle.fluid_loader.specs.Link.{Document, Fits, picked};

use crate::following::Following;
use crate::laws::{
    containers_stay_based, honest_summaries_are_read, honest_summaries_are_replayed,
    picked_numbers_are_within, uploads_are_whole,
};
use crate::submitting::{numbered, summarize};
use crate::version::{Version, read_version};
use crate::{Given, Link, LinkFault, LoadFault, Pick};
use fluid_io::FaultNote;
use fluid_json::{Json, LARGEST, NoMemory};
use fluid_quorum::Quorum;
use fluid_quorum::laws::quorum_goes_on;
use fluid_runtime::{App, Edit, EditFault};
use fluid_store::laws::what_stands_goes_on_standing;
use fluid_tree::{Id, Node, SummaryRef};
use fluid_types::{ClientId, Field, Kind, Message, Messages, Offered, Submission};
use std::alloc::Global;
use std::marker::Model;

/// The channels of a document and its quorum, behind a number of messages of its order, with the client's own edits laid over.
#[derive(Drop)]
pub struct Container {
    app: App,
    following: Following,
    number: u64,
    // The client number of the last submission.
    last: u64,
    // The handle of the last summaryAck that was seen.
    head: Option<Id>,
    // The id of the tree since which the app tells what has changed.
    base: Option<Id>,
}

impl Model for Container {
    ghost use Rattle.fluid_loader.specs.Codes.{container_code};
    ghost use Rattle.fluid_loader.specs.Container.{AContainer, brought_abreast, IsAbreast};

    ghost Value = { AContainer };

    ghost coded = { container_code };

    ghost view = { λ c. record { channels = c.app.channels; changed = c.app.changed; pending = c.app.pending; quorum = brought_abreast c.following.quorum c.following.owed; number = c.number; last = c.last; head = c.head; base = c.base } };

    ghost invariant = { λ c. IsAbreast c.app.room c.number c.last c.following };
}

impl Container {
    /// The document from the picked summary and all messages behind it. Where the link tells the document, and the summary is
    /// honest, this is the replay of the whole order.
    pub fn load<L: Link>(alloc: Global, link: &mut L, pick: &Pick) -> Result<Container, LoadFault>
        ensures lent { L.lent link.new ≡ L.lent link.old }
        ensures reads { LoadsOnly (L.seen link.old) (L.seen link.new) }
        ensures does { LoadDoes pick.now (L.seen link.old) (L.seen link.new) result }
        ensures fresh { IfOk result (λ container. container.last ≡ 0) }
        ensures begins { IfOk result (λ container. Tells (L.seen link.old).told (λ document. (first : AContainer) → begun_in pick.now document ≡ Ok first →
            IsBehind (L.seen link.old).client first document container × (container.number ≡ length document.order))) }
        ensures replays { IfOk result (λ container. Tells (L.seen link.old).told (λ document. IsHonestPick pick.now document → HasReplayed document container)) }
        ensures honest_is_loaded { IfErr result (λ fault. Tells (L.seen link.old).told (λ document. IsHonestPick pick.now document → IsNoBadSummary fault)) }
    {
        containers_stay_based();
        honest_summaries_are_read();
        honest_summaries_are_replayed();
        // (a law, and no work: its clause is for the proof)
        picked_numbers_are_within();
        link.id();
        let mut container = begin(alloc, link, pick)?;
        container.pump(alloc, link)?;
        Ok(container)
    }

    // Nothing yet, at number 0.
    fn empty(alloc: Global) -> Container
        ensures { result ≡ empty }
    {
        Container {
            app: App::new(alloc),
            following: Following {
                quorum: Quorum::new(alloc),
                owed: None,
            },
            number: 0,
            last: 0,
            head: None,
            base: None,
        }
    }

    /// Takes in the messages behind the container's number, and answers the number then. Where the link tells the document, and
    /// the container is behind a prefix of its order, it is then behind the whole order. After a fault a prefix of the messages
    /// was taken in.
    pub fn pump<L: Link>(&mut self, alloc: Global, link: &mut L) -> Result<u64, LoadFault>
        ensures lent { L.lent link.new ≡ L.lent link.old }
        ensures reads { PumpReads (L.seen link.old) (L.seen link.new) }
        ensures does { PumpDoes self.old self.new (L.seen link.old) (L.seen link.new) result }
        ensures takes_all { IfOk result (λ _. Tells (L.seen link.old).told (λ document. Follows document.order self.old → HasTakenAll document self.new)) }
        ensures stays { StaysBehind self.old self.new (L.seen link.old) (L.seen link.new) }
    {
        containers_stay_based();
        quorum_goes_on();
        link.id();
        self.catch_up(alloc, link)
    }

    fn catch_up<L: Link>(&mut self, alloc: Global, link: &mut L) -> Result<u64, LoadFault>
        ensures lent { L.lent link.new ≡ L.lent link.old }
        ensures reads { PumpReads (L.seen link.old) (L.seen link.new) }
        ensures does { PumpDoes self.old self.new (L.seen link.old) (L.seen link.new) result }
    {
        let messages = fetch(alloc, link, self.number + 1)?;
        self.take_all(alloc, link.id(), messages)?;
        Ok(self.number)
    }

    // Takes in the next messages, one by one.
    fn take_all(
        &mut self,
        alloc: Global,
        own: &ClientId,
        messages: Messages,
    ) -> Result<(), NoMemory>
        requires numbered { AreNumberedFrom (self.old.number + 1) messages }
        requires fit { self.old.number + length messages < 2 ^ 53 }
        ensures taken { OnOk result (self.new ≡ behind own.now self.old messages) }
        ensures fault { OnErr result (IsBehindPrefix own.now self.old self.new messages) }
    {
        for message in messages.into_vec() {
            self.take(alloc, own, message)?;
        }
        Ok(())
    }

    // Takes in the next message.
    fn take(&mut self, alloc: Global, own: &ClientId, message: Message) -> Result<(), NoMemory>
        requires next { message.number ≡ self.old.number + 1 }
        requires fits { message.number < 2 ^ 53 }
        ensures taken { OnOk result (self.new ≡ taken_by own.now self.old message) }
        ensures fault { OnErr result ((self.new ≡ self.old) ⊎ (self.new ≡ taken_by own.now self.old message)) }
    {
        self.following.settle(alloc)?;
        self.app.apply(alloc, &message, is_from(&message, own))?;
        self.number = message.number;
        self.head = acknowledged(&message).or(self.head);
        self.following.owed = Some(message);
        self.following.settle(alloc)
    }

    /// Lays an edit over and submits its op. After `Edit`, `Refused` and want of the container's own memory it is as before.
    /// Where the link failed the edit stays, and its client number counts as used.
    pub fn edit<L: Link>(
        &mut self,
        alloc: Global,
        link: &mut L,
        edit: Edit,
    ) -> Result<(), LoadFault>
        requires { Fits (L.seen link.old).client (op_of self.old edit) }
        ensures lent { L.lent link.new ≡ L.lent link.old }
        ensures does { EditDoes self.old self.new edit (L.seen link.old) (L.seen link.new) result }
        ensures stays { StaysBehind self.old self.new (L.seen link.old) (L.seen link.new) }
    {
        self.lay_over(alloc, link, edit)
    }

    fn lay_over<L: Link>(
        &mut self,
        alloc: Global,
        link: &mut L,
        edit: Edit,
    ) -> Result<(), LoadFault>
        requires { Fits (L.seen link.old).client (op_of self.old edit) }
        ensures lent { L.lent link.new ≡ L.lent link.old }
        ensures does { EditDoes self.old self.new edit (L.seen link.old) (L.seen link.new) result }
    {
        let contents = match self.app.edit(alloc, edit) {
            Ok(contents) => contents,
            Err(EditFault::NoMemory) => return Err(LoadFault::NoMemory),
            Err(fault) => return Err(LoadFault::Edit(fault)),
        };
        let submission = numbered(self.last + 1, self.number, Offered::Op, contents);
        match submit(alloc, link, submission) {
            Err(LoadFault::Refused(nack)) => {
                self.app.take_back();
                Err(LoadFault::Refused(nack))
            }
            submitted => {
                self.last += 1;
                submitted
            }
        }
    }

    /// Uploads the tree of the channels and asks for it to be acknowledged, at the container's number. A channel that hasn't
    /// changed since the last upload, or since the summary that was loaded, is a handle. Where the link tells the document, of
    /// which this is a container, the whole tree of the channels stands under the id that is answered.
    pub fn summarize<L: Link>(&mut self, alloc: Global, link: &mut L) -> Result<Id, LoadFault>
        requires { (id : List ℕ) → length id ≡ 20 → Fits (L.seen link.old).client (summarize_of self.old id) }
        ensures lent { L.lent link.new ≡ L.lent link.old }
        ensures does { SummarizeDoes self.old self.new (L.seen link.old) (L.seen link.new) result }
        ensures stands { IfOk result (λ id. Tells (L.seen link.old).told (λ document. IsBased document.held self.old →
            Tells (L.seen link.new).told (λ now. Stands now.held id (app_tree self.old.channels)))) }
        ensures stays { StaysBehind self.old self.new (L.seen link.old) (L.seen link.new) }
    {
        containers_stay_based();
        uploads_are_whole();
        what_stands_goes_on_standing();
        let id = self.upload(alloc, link)?;
        link.id();
        id.as_bytes();
        self.propose(alloc, link, &id)?;
        Ok(id)
    }

    // Asks for the tree with this id to be acknowledged.
    fn propose<L: Link>(&mut self, alloc: Global, link: &mut L, id: &Id) -> Result<(), LoadFault>
        requires { Fits (L.seen link.old).client (summarize_of self.old id.now) }
        ensures lent { L.lent link.new ≡ L.lent link.old }
        ensures does { Proposes self.old self.new (summarize_of self.old id.now) (L.seen link.old) (L.seen link.new) result }
    {
        let contents = summarize(alloc, id, &self.head, self.number)?;
        let submission = numbered(self.last + 1, self.number, Offered::Summarize, contents);
        match submit(alloc, link, submission) {
            Err(LoadFault::Refused(nack)) => Err(LoadFault::Refused(nack)),
            submitted => {
                self.last += 1;
                submitted
            }
        }
    }

    // From then on the app tells what has changed since this tree.
    fn upload<L: Link>(&mut self, alloc: Global, link: &mut L) -> Result<Id, LoadFault>
        ensures lent { L.lent link.new ≡ L.lent link.old }
        ensures done { IfOk result (λ id. self.new ≡ since self.old id) }
        ensures unchanged { OnErr result (self.new ≡ self.old) }
        ensures does { UploadEnds self.old (L.seen link.old) (L.seen link.new) result }
    {
        let tree = self.app.to_tree_since(alloc)?;
        let id = upload(alloc, link, &tree, self.base.as_ref())?;
        self.app.mark();
        self.base = Some(id);
        Ok(id)
    }

    /// Submits a noop at the container's number. The container stays as it was, but for its client number, which counts as used
    /// unless the noop was refused.
    pub fn beat<L: Link>(&mut self, alloc: Global, link: &mut L) -> Result<(), LoadFault>
        requires { Fits (L.seen link.old).client (noop_of self.old) }
        ensures lent { L.lent link.new ≡ L.lent link.old }
        ensures leaves { self.new ≡ counted_by self.old result }
        ensures says { Submits (noop_of self.old) (L.seen link.old) (L.seen link.new) result }
        ensures stays { StaysBehind self.old self.new (L.seen link.old) (L.seen link.new) }
    {
        self.submit_noop(alloc, link)
    }

    fn submit_noop<L: Link>(&mut self, alloc: Global, link: &mut L) -> Result<(), LoadFault>
        requires { Fits (L.seen link.old).client (noop_of self.old) }
        ensures lent { L.lent link.new ≡ L.lent link.old }
        ensures leaves { self.new ≡ counted_by self.old result }
        ensures says { Submits (noop_of self.old) (L.seen link.old) (L.seen link.new) result }
    {
        let submission = numbered(self.last + 1, self.number, Offered::Noop, Json::null());
        match submit(alloc, link, submission) {
            Err(LoadFault::Refused(refusal)) => Err(LoadFault::Refused(refusal)),
            submitted => {
                self.last += 1;
                submitted
            }
        }
    }

    /// What the client shows: an object with one member per visible channel, its kind and its value.
    pub fn state(&self, alloc: Global) -> Result<Json, NoMemory>
        ensures { IfOk result (λ json. json ≡ shown (shown_channels self.now)) }
    {
        self.app.visible(alloc)
    }

    /// The tree in which a summary keeps the channels, without the pending edits. These channels are read back from it where
    /// the counters lie within plus or minus 2^120 and the values of maps are at most 99 deep.
    pub fn tree(&self, alloc: Global) -> Result<Node, NoMemory>
        ensures tree { IfOk result (λ node. node ≡ app_tree self.now.channels) }
        ensures reads_back { IfOk result (λ node. AreBounded self.now.channels → summaries.answer node ≡ Ok self.now.channels) }
    {
        self.app.to_tree(alloc)
    }

    /// Whether a client number is left for a submission: after 2^53 - 1 of them none is. Then a noop, a summarize, and an op
    /// whose contents are at most 98 deep and 2,097,152 bytes long each fit.
    pub fn has_numbers(&self) -> bool
        ensures left { result ≡ nat_lt self.now.last largest }
        ensures fits { IsTrue result → MaySubmit self.now }
    {
        known_size(&self.head);
        self.last < LARGEST
    }

    /// The number of the last message that was taken in, or that of the summary.
    pub fn seq(&self) -> u64
        ensures { result ≡ self.now.number }
    {
        self.number
    }
}

// The container of the picked summary, before the messages behind it.
fn begin<L: Link>(alloc: Global, link: &mut L, pick: &Pick) -> Result<Container, LoadFault>
    ensures lent { L.lent link.new ≡ L.lent link.old }
    ensures reads { LoadReads (L.seen link.old) (L.seen link.new) }
    ensures fetched { OnOk result (FetchesIn (λ document. IsOfVersion document.held (picked pick.now document.order)) (L.seen link.old) (L.seen link.new)) }
    ensures does { Answers (begun_in pick.now) (L.seen link.old) (L.seen link.new) result }
    ensures fresh { IfOk result (λ container. container.last ≡ 0) }
{
    match pick {
        Pick::Empty => Ok(Container::empty(alloc)),
        Pick::Latest => from_picked(alloc, link, pick),
        Pick::Handle(_) => from_picked(alloc, link, pick),
    }
}

fn from_picked<L: Link>(alloc: Global, link: &mut L, pick: &Pick) -> Result<Container, LoadFault>
    ensures lent { L.lent link.new ≡ L.lent link.old }
    ensures reads { LoadReads (L.seen link.old) (L.seen link.new) }
    ensures fetched { OnOk result (FetchesIn (λ document. IsOfVersion document.held (picked pick.now document.order)) (L.seen link.old) (L.seen link.new)) }
    ensures does { Answers (λ document. begun_picked document.held (picked pick.now document.order)) (L.seen link.old) (L.seen link.new) result }
    ensures fresh { IfOk result (λ container. container.last ≡ 0) }
{
    let Some(summary) = picked(alloc, link, pick)? else {
        return Err(LoadFault::NoSummary);
    };
    from_summary(alloc, link, &summary)
}

fn from_summary<L: Link>(
    alloc: Global,
    link: &mut L,
    summary: &SummaryRef,
) -> Result<Container, LoadFault>
    requires { summary.now.number < 2 ^ 53 }
    ensures lent { L.lent link.new ≡ L.lent link.old }
    ensures fetched { OnOk result (FetchesIn (λ document one. IsIn document.held 3 one summary.now.handle) (L.seen link.old) (L.seen link.new)) }
    ensures does { Begins summary.now (L.seen link.old) (L.seen link.new) result }
    ensures fresh { IfOk result (λ container. container.last ≡ 0) }
{
    let Version { app, quorum, base } = read_version(alloc, link, summary)?;
    let mut app = app;
    app.mark();
    Ok(Container {
        app,
        following: Following { quorum, owed: None },
        number: summary.number,
        last: 0,
        head: None,
        base: Some(base),
    })
}

// A handle has 20 bytes.
fn known_size(handle: &Option<Id>)
    ensures { IfSome handle.now (λ id. length id ≡ 20) }
{
    if let Some(id) = handle {
        id.as_bytes();
    }
}

// ---- messages

fn is_from(message: &Message, own: &ClientId) -> bool
    ensures { result ≡ is_from own.now message.now.client }
{
    match &message.client {
        Some(client) => client.as_str() == own.as_str(),
        None => false,
    }
}

// The handle that a summaryAck gives.
fn acknowledged(message: &Message) -> Option<Id>
    ensures { result ≡ acknowledged message.now }
{
    if is_ack(message.kind) {
        handling(&message.contents)
    } else {
        None
    }
}

fn is_ack(kind: Kind) -> bool
    ensures { result ≡ is_ack kind }
{
    matches!(kind, Kind::SummaryAck)
}

// The member `handle`, of 40 lower-case hexadecimal digits.
pub(crate) fn handling(value: &Json) -> Option<Id>
    ensures { result ≡ handling value.now }
{
    let handle = value.member(Field::Handle.name())?;
    let digits = handle.as_text()?;
    Id::read(digits)
}

// ---- calls on the link

fn picked<L: Link>(
    alloc: Global,
    link: &mut L,
    pick: &Pick,
) -> Result<Option<SummaryRef>, LoadFault>
    ensures lent { L.lent link.new ≡ L.lent link.old }
    ensures does { Picked pick.now (L.seen link.old) (L.seen link.new) result }
{
    let before = link.faults();
    match link.summary(alloc, pick) {
        Ok(summary) => Ok(summary),
        Err(fault) => Err(failed(link, before, fault)),
    }
}

fn fetch<L: Link>(alloc: Global, link: &mut L, from: u64) -> Result<Messages, LoadFault>
    requires above { 0 < from }
    requires fits { from ≤ 2 ^ 53 }
    ensures lent { L.lent link.new ≡ L.lent link.old }
    ensures reads { PumpReads (L.seen link.old) (L.seen link.new) }
    ensures messages { IfOk result (λ messages. Fetched (from - 1) (L.seen link.old) (L.seen link.new) messages × (from + length messages ≤ 2 ^ 53)) }
    ensures fault { IfErr result (ReadStops (L.seen link.old) (L.seen link.new)) }
{
    let before = link.faults();
    match link.deltas(alloc, from) {
        Ok(messages) => Ok(messages),
        Err(fault) => Err(failed(link, before, fault)),
    }
}

fn upload<L: Link>(
    alloc: Global,
    link: &mut L,
    tree: &Node,
    base: Option<&Id>,
) -> Result<Id, LoadFault>
    ensures lent { L.lent link.new ≡ L.lent link.old }
    ensures does { UploadsOver tree.now (option_map (λ id. id.now) base.entry) (L.seen link.old) (L.seen link.new) result }
{
    let before = link.faults();
    match link.upload(alloc, tree, base) {
        Ok(id) => Ok(id),
        Err(fault) => Err(failed(link, before, fault)),
    }
}

fn submit<L: Link>(alloc: Global, link: &mut L, submission: Submission) -> Result<(), LoadFault>
    requires { Fits (L.seen link.old).client submission }
    ensures lent { L.lent link.new ≡ L.lent link.old }
    ensures does { Submits submission (L.seen link.old) (L.seen link.new) result }
{
    let before = link.faults();
    match link.submit(alloc, submission) {
        Ok(Given::Taken) => Ok(()),
        Ok(Given::Nacked(nack)) => Err(LoadFault::Refused(nack)),
        Err(fault) => Err(failed(link, before, fault)),
    }
}

/// The fault of a call that failed, with the counts of faults round it.
pub(crate) fn failed<L: Link>(link: &L, before: u64, fault: LinkFault) -> LoadFault
    ensures { result ≡ failure before (L.seen link.now).faults fault }
{
    match fault {
        LinkFault::Failed => {
            let after = link.faults();
            LoadFault::LinkFailed(FaultNote { before, after })
        }
        LinkFault::Clash { id, kept, new } => LoadFault::Clash { id, kept, new },
        LinkFault::NoMemory => LoadFault::NoMemory,
    }
}
