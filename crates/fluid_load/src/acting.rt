//! The acts of a workload.
ghost use Rattle.std.specs.Prelude.{◌≡◌, IfOk};
ghost use Rattle.fluid_containers.specs.Stepping.{IsShort};
ghost use Rattle.fluid_steps.specs.declared.steps.Step.TheVariants as step;
ghost use Rattle.fluid_edits.specs.declared.edit.Edit.TheVariants as edit;
ghost use Rattle.fluid_edits.specs.declared.edit.ChannelKind.TheVariants as kind;
ghost use Rattle.fluid_gen.specs.declared.act.Act.TheVariants as gen;
ghost use Rattle.fluid_workload.specs.Working.{connecting, m, n, named as the_named};
ghost use Rattle.fluid_load.specs.Standing.{CanBegin, CanWork, Opens, Works};
ghost use Rattle.fluid_load.specs.Acting.{acted, checkpointed, collected, edited, joined, loaded_first, loaded_last, pick_of, pumped, restarted, scribed, summarized, with_counter, with_map};

use crate::working::Working;
use fluid_desk::Stop;
use fluid_edits::{ChannelKind, Edit};
use fluid_gen::Act;
use fluid_holding::submissions_are_counted;
use fluid_json::{NoMemory, Text};
use fluid_log::Shelves;
use fluid_steps::{Pick, Step};
use fluid_store::Objects;
use fluid_turns::{Saying, counter, delete, first, increment, last, map, named, set, work};
use std::alloc::Global;

/// What a client says to join.
const CONNECTING: &str =
    "[\"connect_document\",{\"id\":\"work\",\"mode\":\"write\",\"scopes\":[\"doc:read\",\"doc:write\",\"summary:write\"]}]";

impl<B: Shelves, O: Objects> Working<B, O>
where
    B::K: Drop,
{
    /// Does an act on a document that is open.
    #[tactic(auto, using(crate::proofs::Parts::can_submit))]
    pub(crate) fn act(&mut self, alloc: Global, act: Act) -> Result<(), Stop>
        requires { CanWork 5 self.old }
        ensures { Works 5 (acted act) self.old self.new result }
    {
        match act {
            Act::Begin => self.begin(alloc),
            Act::Join(client) => self.join(alloc, client),
            Act::Collect(client) => self.collect(alloc, client),
            Act::Noop(client) => self.submit(alloc, client, Saying::Noop),
            Act::Again(client) => self.submit(alloc, client, Saying::Again),
            Act::Gap(client) => self.submit(alloc, client, Saying::Gap),
            Act::Set { client, key, value } => self.set(alloc, client, key, value),
            Act::Delete { client, key } => self.delete(alloc, client, key),
            Act::Increment { client, amount } => self.increment(alloc, client, amount),
            Act::Round => self.round(alloc),
            Act::Finish => self.finish(alloc),
        }
    }

    /// The first container joins, attaches the map and the counter, and pumps. The document may not be open yet.
    pub(crate) fn begin(&mut self, alloc: Global) -> Result<(), Stop>
        requires { CanBegin 4 self.old }
        ensures { Opens 4 (acted gen.Begin) self.old self.new result }
    {
        self.load_first(alloc)?;
        self.attach_map(alloc)?;
        self.attach_counter(alloc)?;
        self.pump(alloc)
    }

    fn attach_map(&mut self, alloc: Global) -> Result<(), Stop>
        requires { CanWork 1 self.old }
        ensures { Works 1 with_map self.old self.new result }
    {
        let edit = map_attached(alloc)?;
        self.edit(alloc, edit)
    }

    fn attach_counter(&mut self, alloc: Global) -> Result<(), Stop>
        requires { CanWork 1 self.old }
        ensures { Works 1 with_counter self.old self.new result }
    {
        let edit = counter_attached(alloc)?;
        self.edit(alloc, edit)
    }

    // The first container edits.
    fn edit(&mut self, alloc: Global, edit: Edit) -> Result<(), Stop>
        requires can { CanWork 1 self.old }
        requires short { IsShort edit }
        ensures { Works 1 (edited edit) self.old self.new result }
    {
        submissions_are_counted();
        let name = first(alloc)?;
        self.submitting_step(alloc, Step::Edit(name, Ok(edit)))
    }

    // The first container pumps.
    fn pump(&mut self, alloc: Global) -> Result<(), Stop>
        requires { CanWork 1 self.old }
        ensures { Works 1 pumped self.old self.new result }
    {
        let name = first(alloc)?;
        self.step(alloc, Step::Pump(name))
    }

    // A client joins.
    fn join(&mut self, alloc: Global, client: u32) -> Result<(), Stop>
        requires { CanWork 1 self.old }
        ensures { Works 1 (joined client) self.old self.new result }
    {
        let step = joining(alloc, client)?;
        self.step(alloc, step)
    }

    // A client collects.
    fn collect(&mut self, alloc: Global, client: u32) -> Result<(), Stop>
        requires { CanWork 1 self.old }
        ensures { Works 1 (collected client) self.old self.new result }
    {
        let name = named(alloc, client)?;
        self.step(alloc, Step::Collect(name))
    }

    // A client sets a key of the map.
    fn set(&mut self, alloc: Global, client: u32, key: u32, value: u32) -> Result<(), Stop>
        requires { CanWork 1 self.old }
        ensures { Works 1 (acted (gen.Set client key value)) self.old self.new result }
    {
        let edit = set(alloc, key, value)?;
        self.submit(alloc, client, Saying::Op(edit))
    }

    // A client deletes a key of the map.
    fn delete(&mut self, alloc: Global, client: u32, key: u32) -> Result<(), Stop>
        requires { CanWork 1 self.old }
        ensures { Works 1 (acted (gen.Delete client key)) self.old self.new result }
    {
        let edit = delete(alloc, key)?;
        self.submit(alloc, client, Saying::Op(edit))
    }

    // A client adds to the counter.
    fn increment(&mut self, alloc: Global, client: u32, amount: i64) -> Result<(), Stop>
        requires { CanWork 1 self.old }
        ensures { Works 1 (acted (gen.Increment client amount)) self.old self.new result }
    {
        let edit = increment(alloc, amount)?;
        self.submit(alloc, client, Saying::Op(edit))
    }

    // The first container pumps and summarizes, the scribe answers, and the document begins again from a checkpoint of all of it.
    fn round(&mut self, alloc: Global) -> Result<(), Stop>
        requires { CanWork 5 self.old }
        ensures { Works 5 (acted gen.Round) self.old self.new result }
    {
        self.pump(alloc)?;
        self.summarize(alloc)?;
        self.scribe(alloc)?;
        self.checkpoint(alloc)?;
        self.restart(alloc)
    }

    fn summarize(&mut self, alloc: Global) -> Result<(), Stop>
        requires { CanWork 1 self.old }
        ensures { Works 1 summarized self.old self.new result }
    {
        submissions_are_counted();
        let name = first(alloc)?;
        self.submitting_step(alloc, Step::Summarize(name))
    }

    fn scribe(&mut self, alloc: Global) -> Result<(), Stop>
        requires { CanWork 1 self.old }
        ensures { Works 1 scribed self.old self.new result }
    {
        let document = work(alloc)?;
        self.step(alloc, Step::Scribe(document))
    }

    fn checkpoint(&mut self, alloc: Global) -> Result<(), Stop>
        requires { CanWork 1 self.old }
        ensures { Works 1 checkpointed self.old self.new result }
    {
        let document = work(alloc)?;
        self.step(alloc, Step::Checkpoint(document))
    }

    // The document begins again from its newest checkpoint.
    fn restart(&mut self, alloc: Global) -> Result<(), Stop>
        requires { CanWork 1 self.old }
        ensures { Works 1 restarted self.old self.new result }
    {
        let document = work(alloc)?;
        let stored = self.figures(&document).checkpoints;
        self.step(alloc, Step::Restart(document, stored.saturating_sub(1)))
    }

    // Another container is loaded, from the last summary where there is one, and the first pumps.
    fn finish(&mut self, alloc: Global) -> Result<(), Stop>
        requires { CanWork 2 self.old }
        ensures { Works 2 (acted gen.Finish) self.old self.new result }
    {
        self.load_last(alloc)?;
        self.pump(alloc)
    }

    fn load_last(&mut self, alloc: Global) -> Result<(), Stop>
        requires { CanWork 1 self.old }
        ensures { Works 1 loaded_last self.old self.new result }
    {
        let document = work(alloc)?;
        let summaries = self.figures(&document).summaries;
        let name = last(alloc)?;
        self.step(alloc, Step::Load(name, document, picked(summaries)))
    }

    fn load_first(&mut self, alloc: Global) -> Result<(), Stop>
        requires { CanBegin 1 self.old }
        ensures { Opens 1 loaded_first self.old self.new result }
    {
        let name = first(alloc)?;
        let document = work(alloc)?;
        self.opening_step(alloc, Step::Load(name, document, Pick::Empty))
    }
}

// The last of so many summaries, where there is one.
fn picked(summaries: u64) -> Pick
    ensures { result ≡ pick_of summaries }
{
    if summaries == 0 {
        Pick::Empty
    } else {
        Pick::Latest
    }
}

// By which a client joins.
fn joining(alloc: Global, client: u32) -> Result<Step, NoMemory>
    ensures { IfOk result (λ s. s ≡ step.Send (the_named client) connecting) }
{
    let name = named(alloc, client)?;
    let text = Text::copied(alloc, CONNECTING)?;
    Ok(Step::Send(name, text))
}

// The map is attached.
fn map_attached(alloc: Global) -> Result<Edit, NoMemory>
    ensures { IfOk result (λ made. made ≡ edit.Attach m kind.Map) }
{
    let map = map(alloc)?;
    Ok(Edit::Attach(map, ChannelKind::Map))
}

// The counter is attached.
fn counter_attached(alloc: Global) -> Result<Edit, NoMemory>
    ensures { IfOk result (λ made. made ≡ edit.Attach n kind.Counter) }
{
    let counter = counter(alloc)?;
    Ok(Edit::Attach(counter, ChannelKind::Counter))
}
