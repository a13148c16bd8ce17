//! A workload between two acts.
ghost use Rattle.std.specs.Prelude.{◌≡◌, ◌≤◌, ◌+◌, ◌-◌, ℕ, true, Some, Err, IfOk, OnOk, OnErr};
ghost use Rattle.std.specs.FinMap.{empty, get, insert};
ghost use Rattle.fluid_log.specs.declared.keeper.TheConstants.{LONGEST_KEPT};
ghost use Rattle.fluid_log.specs.Shelving.{AreWhole};
ghost use Rattle.fluid_types.specs.Forms.{largest};
ghost use Rattle.fluid_lanes.specs.Opened.{nothing_open};
ghost use Rattle.fluid_types.specs.Fits.{Fits};
ghost use Rattle.fluid_world.specs.Naming.{IsShortStep};
ghost use Rattle.fluid_transcript.specs.World.{World, document as the_document, is_open};
ghost use Rattle.fluid_transcript.specs.Containers.{app_id, is_taken};
ghost use Rattle.fluid_desk.specs.declared.stop.Stop.TheVariants.{NoMemory as OutOfMemory};
ghost use Rattle.fluid_desk.specs.Stands.{DeskStands};
ghost use Rattle.fluid_desk.specs.Stopping.{HasRun, RunsOn};
ghost use Rattle.fluid_workload.specs.Working.{Workload as AWorkload, named, p, work as the_work, stepped};
ghost use Rattle.fluid_workload.specs.Summary.{channels_of};
ghost use Rattle.fluid_world.specs.Standing.{IsNamed};
ghost use Rattle.fluid_turns.specs.Entering.{EntersDesk, IsSubmission};
ghost use Rattle.fluid_turns.specs.Figuring.{AreFigures};
ghost use Rattle.fluid_turns.specs.Saying.{IsShortSaying, IsWriter, has_for};
ghost use Rattle.fluid_turns.specs.Tallying.{tally_with};
ghost use Rattle.fluid_turns.specs.Quiet.{IsQuietStep};
ghost use Rattle.fluid_steps.specs.declared.steps.Step.TheVariants as form;
ghost use Rattle.fluid_loader.specs.declared.link.Pick.TheVariants as pick;
ghost use Rattle.fluid_load.specs.Standing.{ActsOn, CanBegin, CanPass, CanWork, Opens, Passes, WorkGoes, WorkStands, Works, noted, unsequenced, with_nacked};
ghost use Rattle.fluid_load.specs.Quiet.{IsOwnStep, Submits};
ghost use Rattle.fluid_load.specs.Acting.{loaded_first, said, step_done};
ghost use Rattle.fluid_load.specs.Saying.{EntersAs, SaysAs};

use crate::states::state;
use crate::stepping::pass_step;
use fluid_desk::Stop;
use fluid_door_link::ToldObjects;
use fluid_holding::others_leave_containers;
use fluid_json::NoMemory;
use fluid_lanes::Lanes;
use fluid_log::Shelves;
use fluid_rules::Limits;
use fluid_steps::{ScriptName, Step};
use fluid_store::Objects;
use fluid_tale::Tale;
use fluid_tree::Id;
use fluid_turns::{
    Figures, Fitting, Saying, Sent, Tally, Writer, enter, entry, figures_of, named, submission,
    work, writer_of,
};
use fluid_types::{DocName, Raw, Verdict};
use fluid_world::Names;
use std::alloc::Global;
use std::marker::Model;

/// A workload between two acts: the open documents, the store, the names that were given, what each client submitted last, and how
/// often there was each verdict.
#[derive(Drop)]
pub(crate) struct Working<B: Shelves, O: Objects> {
    pub(crate) lanes: Lanes<B>,
    pub(crate) objects: ToldObjects<O>,
    pub(crate) names: Names,
    pub(crate) sent: Sent,
    pub(crate) tally: Tally,
    // Whether it is known to stand for a world.
    pub(crate) may: Tale<bool>,
}

impl<B: Shelves, O: Objects> Model for Working<B, O> {
    ghost use Rattle.fluid_load.specs.Standing.{AtWork, at_work_code};

    ghost Value = { AtWork };

    ghost coded = { at_work_code };

    ghost view = { λ s. record { lanes = s.lanes; store = s.objects; names = s.names.table.values; sent = s.sent.table.values; tally = s.tally; good = s.may.value } };
}

impl<B: Shelves, O: Objects> Working<B, O>
where
    B::K: Drop,
{
    /// No document is open, and no name is given.
    pub(crate) fn new(
        alloc: Global,
        shelves: B,
        objects: ToldObjects<O>,
        limits: Limits,
        may: Tale<bool>,
    ) -> Working<B, O>
        requires whole { AreWhole (B.seen shelves) }
        requires small { limits.bytes ≤ LONGEST_KEPT }
        ensures { result ≡ record { lanes = nothing_open (B.seen shelves) limits; store = objects; names = empty; sent = empty; tally = record { absorbed = 0; nacked = 0 }; good = may.value } }
    {
        Working {
            lanes: Lanes::new(alloc, shelves, limits),
            objects,
            names: Names::new(alloc),
            sent: Sent::new(alloc),
            tally: Tally::new(),
            may,
        }
    }

    /// A step of a script by which nothing is nacked or absorbed.
    pub(crate) fn step(&mut self, alloc: Global, step: Step) -> Result<(), Stop>
        requires can { CanWork 1 self.old }
        requires short { IsShortStep step }
        requires quiet { IsQuietStep step }
        requires own { IsOwnStep step }
        ensures { Works 1 (step_done step) self.old self.new result }
    {
        self.pass(alloc, step)
    }

    /// The load of the first container, which may be the first use of the document.
    pub(crate) fn opening_step(&mut self, alloc: Global, step: Step) -> Result<(), Stop>
        requires can { CanBegin 1 self.old }
        requires load { step ≡ form.Load p the_work pick.Empty }
        ensures { Opens 1 loaded_first self.old self.new result }
    {
        self.pass(alloc, step)
    }

    /// A step by which a container submits: of what it enters all that has no message is nacked.
    pub(crate) fn submitting_step(&mut self, alloc: Global, step: Step) -> Result<(), Stop>
        requires can { CanWork 1 self.old }
        requires short { IsShortStep step }
        requires own { IsOwnStep step }
        requires submits { Submits step }
        ensures { Works 1 (step_done step) self.old self.new result }
    {
        let document = work(alloc)?;
        let before = self.figures(&document);
        self.pass(alloc, step)?;
        let after = self.figures(&document);
        self.count_nacked(before, after);
        Ok(())
    }

    // A step. What it enters isn't counted.
    fn pass(&mut self, alloc: Global, step: Step) -> Result<(), Stop>
        requires can { CanPass self.old }
        requires short { IsShortStep step }
        ensures does { (w : AWorkload) → self.old.good ≡ true → WorkStands self.old w → Passes (stepped self.old.lanes.limits w step) self.old self.new result }
        ensures on { ActsOn 1 self.old self.new result }
    {
        pass_step(
            alloc,
            &mut self.lanes,
            &mut self.objects,
            &mut self.names,
            step,
            &self.may,
        )
    }

    /// The numbers of the document.
    pub(crate) fn figures(&mut self, document: &DocName) -> Figures
        ensures same { self.new ≡ self.old }
        ensures are { (w : World) → DeskStands self.old.lanes w → document.now ≡ the_work → is_open w the_work ≡ true → AreFigures result (the_document w the_work) }
        ensures few { result.entries ≤ largest }
    {
        figures_of(&mut self.lanes, document)
    }

    /// How often there was each verdict.
    pub(crate) fn tally(&self) -> Tally
        ensures { result ≡ self.now.tally }
    {
        self.tally
    }

    /// The id of the app tree of a container; of the empty one where the name is no container's.
    pub(crate) fn state(&self, alloc: Global, name: &ScriptName) -> Result<Id, NoMemory>
        ensures { (w : World) → IsNamed w (get self.now.names name.now) (get w.names name.now) → IfOk result (λ id. id ≡ app_id (channels_of w (get w.names name.now))) }
    {
        state(alloc, &self.names, name)
    }

    // All that have no message now, and had none before, were nacked.
    fn count_nacked(&mut self, before: Figures, after: Figures)
        ensures { self.new ≡ record self.old { tally = with_nacked before after self.old.tally } }
    {
        let more = more_unsequenced(before, after);
        self.tally = self.tally.with_nacked(more);
    }

    /// A client submits, where it has something to submit.
    pub(crate) fn submit(&mut self, alloc: Global, client: u32, saying: Saying) -> Result<(), Stop>
        requires can { CanWork 1 self.old }
        requires short { IsShortSaying saying }
        ensures { Works 1 (said client saying) self.old self.new result }
    {
        let name = named(alloc, client)?;
        let document = work(alloc)?;
        match self.writer(alloc, name, &document)? {
            Some(writer) => self.submit_as(alloc, &document, &writer, &saying),
            None => Ok(()),
        }
    }

    // The client of a name, where its connection writes to this document.
    fn writer(
        &self,
        alloc: Global,
        name: ScriptName,
        document: &DocName,
    ) -> Result<Option<Writer>, NoMemory>
        ensures { (w : AWorkload) (client : ℕ) → WorkStands self.now w → name ≡ named client → document.now ≡ the_work → IfOk result (IsWriter w.world client) }
    {
        if self.names.refusal_as_connection(&name).is_some() {
            return Ok(None);
        }
        let state = self.names.voice(&name).state();
        writer_of(alloc, name, state, document)
    }

    // The client of this connection submits.
    fn submit_as(
        &mut self,
        alloc: Global,
        document: &DocName,
        writer: &Writer,
        saying: &Saying,
    ) -> Result<(), Stop>
        requires can { CanWork 1 self.old }
        requires short { IsShortSaying saying.now }
        ensures { SaysAs document.now writer.now saying.now self.old self.new result }
    {
        match self.submission(alloc, document, writer, saying)? {
            Some(submission) => self.enter(alloc, document, writer, submission),
            None => Ok(()),
        }
    }

    // What it has to submit.
    fn submission(
        &mut self,
        alloc: Global,
        document: &DocName,
        writer: &Writer,
        saying: &Saying,
    ) -> Result<Option<Fitting>, NoMemory>
        requires short { IsShortSaying saying.now }
        ensures same { self.new ≡ self.old }
        ensures is { (w : AWorkload) (client : ℕ) → WorkGoes self.old w → document.now ≡ the_work → IsWriter w.world client (Some writer.now) →
            IfOk result (λ given. given ≡ has_for saying.now w client writer.now.id) }
    {
        submission(alloc, &mut self.lanes, &self.sent, document, writer, saying)
    }

    fn enter(
        &mut self,
        alloc: Global,
        document: &DocName,
        writer: &Writer,
        submission: Fitting,
    ) -> Result<(), Stop>
        requires { CanWork 1 self.old }
        ensures { EntersAs document.now writer.now submission self.old self.new result }
    {
        others_leave_containers();
        let raw = raw_of(alloc, writer, &submission)?;
        match self.enter_raw(alloc, document, &raw)? {
            Some(verdict) => self.note(alloc, writer, submission, &verdict),
            None => Ok(()),
        }
    }

    // Its verdict, none where the document is full.
    fn enter_raw(
        &mut self,
        alloc: Global,
        document: &DocName,
        raw: &Raw,
    ) -> Result<Option<Verdict>, Stop>
        requires fits { Fits raw.now }
        requires kind { IsSubmission raw.now }
        ensures does { (w : World) (client : ℕ) → DeskStands self.old.lanes w → is_open w the_work ≡ true → document.now ≡ the_work →
            EntersDesk self.old.lanes.limits w client raw.now self.new.lanes result }
        ensures runs { (first steps : ℕ) → HasRun first steps self.old.lanes → RunsOn first (steps + 1) self.new.lanes result }
        ensures limits { self.new.lanes.limits ≡ self.old.lanes.limits }
        ensures rest { self.new ≡ record self.old { lanes = self.new.lanes } }
    {
        enter(alloc, &mut self.lanes, document, raw)
    }

    // Notes the verdict on a submission.
    fn note(
        &mut self,
        alloc: Global,
        writer: &Writer,
        submission: Fitting,
        verdict: &Verdict,
    ) -> Result<(), Stop>
        ensures notes { OnOk result (self.new ≡ noted writer.now.name submission verdict.now self.old) }
        ensures same { (self.new.lanes ≡ self.old.lanes) × ((self.new.store ≡ self.old.store) × ((self.new.names ≡ self.old.names) × (self.new.good ≡ self.old.good))) }
        ensures short { OnErr result (result ≡ Err OutOfMemory) }
    {
        self.count(verdict);
        if !is_taken(verdict) {
            return Ok(());
        }
        self.keep(alloc, &writer.name, submission)?;
        Ok(())
    }

    // There was one verdict more.
    fn count(&mut self, verdict: &Verdict)
        ensures { self.new ≡ record self.old { tally = tally_with verdict.now self.old.tally } }
    {
        self.tally = self.tally.with(verdict);
    }

    // A client's last submission that was taken.
    fn keep(
        &mut self,
        alloc: Global,
        name: &ScriptName,
        submission: Fitting,
    ) -> Result<(), NoMemory>
        ensures kept { OnOk result (self.new.sent ≡ insert self.old.sent name.now submission) }
        ensures rest { self.new ≡ record self.old { sent = self.new.sent } }
    {
        self.sent.put(alloc, name, submission)
    }
}

// A submission of a client as an entry, which a log takes: the client's id is a name.
fn raw_of(alloc: Global, writer: &Writer, submission: &Fitting) -> Result<Raw, NoMemory>
    ensures is { IfOk result (λ raw. raw ≡ Raw.Submit writer.now.id submission.now 0) }
    ensures fits { IfOk result Fits }
    ensures kind { IfOk result IsSubmission }
{
    let _name = writer.id.as_str();
    entry(alloc, &writer.id, submission.get())
}

fn more_unsequenced(before: Figures, after: Figures) -> u64
    ensures { result ≡ unsequenced after - unsequenced before }
{
    after.unsequenced().saturating_sub(before.unsequenced())
}

fn is_taken(verdict: &Verdict) -> bool
    ensures { result ≡ is_taken verdict.now }
{
    match verdict {
        Verdict::Sequenced(_) => true,
        Verdict::Nacked(_) => false,
        Verdict::Dropped => false,
        Verdict::Absorbed => true,
    }
}
