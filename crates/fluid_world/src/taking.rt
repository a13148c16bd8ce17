//! A script between two lines.
ghost use Rattle.std.specs.Prelude.{◌≡◌, ◌≤◌, ◌<◌, ◌+◌, ◌++◌, ℕ, Bool, List, Some, None, true, OnOk, OnErr, length};
ghost use Rattle.std.specs.FinMap.{empty};
ghost use Rattle.fluid_io.specs.declared.lines.TheConstants.{MOST_LINES};
ghost use Rattle.fluid_log.specs.declared.keeper.TheConstants.{LONGEST_KEPT};
ghost use Rattle.fluid_log.specs.Shelving.{AreWhole};
ghost use Rattle.fluid_lanes.specs.Opened.{nothing_open};
ghost use Rattle.fluid_transcript.specs.World.{World};
ghost use Rattle.fluid_transcript.specs.Steps as steps;
ghost use Rattle.fluid_transcript.specs.Transcript.{at_line, done, taken, text_refusal};
ghost use Rattle.fluid_desk.specs.Stopping.{HasRun};
ghost use Rattle.fluid_containers.specs.Ending.{RunsLinking};
ghost use Rattle.fluid_world.specs.Naming.{AreBounded, IsShortStep, refusal_by};
ghost use Rattle.fluid_world.specs.Taking.{Follows, HaltsBy, IsWithin, LeavesOwn, Moves, ScriptStands, TakesBy, WritesBy, spoken};

use crate::doing::{refusal, take_step};
use crate::halted::Halted;
use crate::names::Names;
use crate::origin::Origin;
use fluid_callers::Written;
use fluid_desk::Stop;
use fluid_door_link::ToldObjects;
use fluid_holding::{ops_are_short, owned_stays_owned};
use fluid_io::LONGEST_TEXT;
use fluid_json::NoMemory;
use fluid_lanes::Lanes;
use fluid_log::Shelves;
use fluid_pipe::{Taker, Untaken};
use fluid_rules::Limits;
use fluid_steps::{LineWhy, Step, read_step};
use fluid_store::Objects;
use fluid_tale::Tale;
use fluid_transcript::laws::one_line_more;
use std::alloc::Global;
use std::marker::{Model, PhantomData};

/// A script between two lines: the open documents, the store, the names that were given, and how many lines were read.
#[derive(Drop)]
pub(crate) struct Script<B: Shelves, O: Objects, W: Origin> {
    pub(crate) lanes: Lanes<B>,
    pub(crate) objects: ToldObjects<O>,
    names: Names,
    pub(crate) lines: u64,
    // Whether the lines of its steps are written.
    speaks: bool,
    // Whether it is known to stand for a world.
    pub(crate) may: Tale<bool>,
    // Why a step ended it.
    stop: Option<Stop>,
    of: PhantomData<W>,
}

impl<B: Shelves, O: Objects, W: Origin> Model for Script<B, O, W> {
    ghost use Rattle.fluid_world.specs.Taking.{Scripting, scripting_code};

    ghost Value = { Scripting };

    ghost coded = { scripting_code };

    ghost view = { λ s. record { lanes = s.lanes; store = s.objects; names = s.names.table.values; lines = s.lines; speaks = s.speaks; good = s.may.value; stop = s.stop } };
}

impl<B: Shelves, O: Objects, W: Origin> Script<B, O, W>
where
    B::K: Drop,
{
    /// No document is open, no name is given, and no line was read.
    pub(crate) fn new(
        alloc: Global,
        shelves: B,
        objects: ToldObjects<O>,
        limits: Limits,
        speaks: bool,
        may: Tale<bool>,
    ) -> Script<B, O, W>
        requires whole { AreWhole (B.seen shelves) }
        requires small { limits.bytes ≤ LONGEST_KEPT }
        ensures { result ≡ record { lanes = nothing_open (B.seen shelves) limits; store = objects; names = empty; lines = 0; speaks = speaks; good = may.value; stop = None } }
    {
        Script {
            lanes: Lanes::new(alloc, shelves, limits),
            objects,
            names: Names::new(alloc),
            lines: 0,
            speaks,
            may,
            stop: None,
            of: PhantomData,
        }
    }

    // Takes the text of a line. An empty one is passed over, and one that no line has, since it is too long, isn't taken.
    fn take_text(
        &mut self,
        alloc: Global,
        text: &str,
        waiting: &mut Vec<u8>,
    ) -> Result<(), Untaken<LineWhy, Halted>>
        requires { IsWithin MOST_LINES self.old }
        ensures within { OnOk result ((n : ℕ) → IsWithin n self.old → IsWithin (n + 1) self.new) }
        ensures follows { Follows self.old self.new }
        ensures halts { HaltsBy self.new result }
        ensures waits { OnErr result (waiting.new.items ≡ waiting.old.items) }
        ensures takes { (w : World) → ScriptStands self.old w →
            TakesBy (text_refusal w text.now) w (taken self.old.lanes.limits w text.now) self.old.speaks self.new waiting.old.items waiting.new.items result }
    {
        // (a law, and no work: its clause is for the proof)
        ops_are_short();
        owned_stays_owned();
        if text.is_empty() {
            self.lines += 1;
            return Ok(());
        }
        if text.len() > LONGEST_TEXT {
            self.halt(Stop::NoMemory);
            return Err(Untaken::Failed(Halted));
        }
        match read_step(alloc, text) {
            Ok(Ok(step)) => self.admit(alloc, step, waiting),
            Ok(Err(why)) => Err(Untaken::Refused(why)),
            Err(NoMemory) => {
                self.halt(Stop::NoMemory);
                Err(Untaken::Failed(Halted))
            }
        }
    }

    // It is ended, for this.
    fn halt(&mut self, stop: Stop)
        ensures { self.new ≡ record self.old { stop = Some stop } }
    {
        self.stop = Some(stop);
    }

    // Does a step, unless it is refused.
    fn admit(
        &mut self,
        alloc: Global,
        step: Step,
        waiting: &mut Vec<u8>,
    ) -> Result<(), Untaken<LineWhy, Halted>>
        requires within { IsWithin MOST_LINES self.old }
        requires short { IsShortStep step }
        requires owned { LeavesOwn step }
        ensures within { OnOk result ((n : ℕ) → IsWithin n self.old → IsWithin (n + 1) self.new) }
        ensures follows { Follows self.old self.new }
        ensures halts { HaltsBy self.new result }
        ensures waits { OnErr result (waiting.new.items ≡ waiting.old.items) }
        ensures takes { (w : World) → ScriptStands self.old w →
            TakesBy (steps.refusal w step) w (done self.old.lanes.limits (at_line w) step) self.old.speaks self.new waiting.old.items waiting.new.items result }
    {
        match refusal(&self.names, &step) {
            Some(why) => Err(Untaken::Refused(why)),
            None => self.step(alloc, step, waiting),
        }
    }

    fn step(
        &mut self,
        alloc: Global,
        step: Step,
        waiting: &mut Vec<u8>,
    ) -> Result<(), Untaken<LineWhy, Halted>>
        requires within { IsWithin MOST_LINES self.old }
        requires short { IsShortStep step }
        requires owned { LeavesOwn step }
        requires accepted { refusal_by self.old.names step ≡ None }
        ensures within { OnOk result ((n : ℕ) → IsWithin n self.old → IsWithin (n + 1) self.new) }
        ensures follows { Follows self.old self.new }
        ensures halts { HaltsBy self.new result }
        ensures waits { OnErr result (waiting.new.items ≡ waiting.old.items) }
        ensures takes { (w : World) → ScriptStands self.old w →
            TakesBy (steps.refusal w step) w (done self.old.lanes.limits (at_line w) step) self.old.speaks self.new waiting.old.items waiting.new.items result }
    {
        let moment = self.lines + 1;
        match self.write_step(alloc, step, moment, waiting) {
            Ok(()) => {
                self.lines = moment;
                Ok(())
            }
            Err(stop) => {
                self.halt(stop);
                Err(Untaken::Failed(Halted))
            }
        }
    }

    // Does a step that isn't refused, and puts its lines behind what waits.
    fn write_step(
        &mut self,
        alloc: Global,
        step: Step,
        moment: u64,
        waiting: &mut Vec<u8>,
    ) -> Result<(), Stop>
        requires within { IsWithin MOST_LINES self.old }
        requires short { IsShortStep step }
        requires owned { LeavesOwn step }
        requires accepted { refusal_by self.old.names step ≡ None }
        requires moment { moment ≡ self.old.lines + 1 }
        ensures moves { Moves self.old self.new }
        ensures runs { (first : ℕ) → HasRun first self.old.lines self.old.lanes → RunsLinking first (self.old.lines + 1) self.old.store self.new.store self.new.lanes result }
        ensures numbers { OnOk result ((n : ℕ) → AreBounded n self.old.names → AreBounded (n + 1) self.new.names) }
        ensures waits { OnErr result (waiting.new.items ≡ waiting.old.items) }
        ensures writes { (w : World) → ScriptStands self.old w →
            WritesBy (done self.old.lanes.limits (at_line w) step) self.old.speaks self.new waiting.old.items waiting.new.items result }
    {
        let lines = take_step(
            alloc,
            &mut self.lanes,
            &mut self.objects,
            &mut self.names,
            step,
            moment,
            &self.may,
        )?;
        put(waiting, self.speaks, &lines)?;
        Ok(())
    }

    /// Why a step ended it, if one did. From then on it isn't known.
    pub(crate) fn take_stop(&mut self) -> Option<Stop>
        ensures stop { result ≡ self.old.stop }
        ensures rest { self.new ≡ record self.old { stop = None } }
    {
        self.stop.take()
    }
}

// Puts lines behind what waits, where they are to be written.
fn put(waiting: &mut Vec<u8>, speaks: bool, lines: &Written) -> Result<(), NoMemory>
    ensures ok { OnOk result (waiting.new.items ≡ waiting.old.items ++ spoken speaks lines.now) }
    ensures err { OnErr result (waiting.new.items ≡ waiting.old.items) }
{
    if speaks {
        waiting.extend_from_slice(lines.as_slice())?;
    }
    Ok(())
}

impl<B: Shelves, O: Objects, W: Origin> Taker for Script<B, O, W>
where
    B::K: Drop,
{
    ghost use Rattle.fluid_world.specs.Taking.{Follows, HasStopped, IsWithin, StandsBehind, StoppedBehind};
    ghost use Rattle.fluid_world.specs.Going.{follows_itself, follows_on};

    type Why = LineWhy;

    type Fault = Halted;

    ghost stands = { λ s m before. StandsBehind W.told m before s };

    ghost within = { λ s n. IsWithin n s };

    ghost follows = { λ a b. Follows a b };

    ghost failed = { λ a b halted. HasStopped b };

    ghost failed_at = { λ s m lines. StoppedBehind W.told lines s };

    ghost follows_itself = { λ s. follows_itself s };

    ghost follows_on = { λ a b c first second. follows_on a b c first second };

    ghost failed_on = { λ a b c halted follows failed. failed };

    fn take(
        &mut self,
        alloc: Global,
        text: &str,
        waiting: &mut Vec<u8>,
    ) -> Result<(), Untaken<LineWhy, Halted>> {
        one_line_more();
        self.take_text(alloc, text, waiting)
    }

    fn push_words(
        &self,
        _alloc: Global,
        line: &mut Vec<u8>,
        why: &LineWhy,
    ) -> Result<(), NoMemory> {
        line.extend_from_slice(why.text().as_bytes())?;
        Ok(())
    }
}
