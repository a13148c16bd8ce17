//! What a door does about a summary that is pending.
ghost use Rattle.std.specs.Prelude.{◌≡◌, ◌≤◌, ⊤, [], Some, IfOk, IfSome};
ghost use Rattle.fluid_core.specs.Entering.{IsUpTo};
ghost use Rattle.fluid_types.specs.Forms.{largest};
ghost use Rattle.fluid_lane.specs.Steps.{steps_of, entered_by};
ghost use Rattle.fluid_doors.specs.Passing.{Grows};
ghost use Rattle.fluid_doors.specs.Entering.{Reports};
ghost use Rattle.fluid_doors.specs.Scribing.{IsJobOf, Scribes};
ghost use Rattle.fluid_store.specs.Keeping.{Counts};

use crate::door::{Door, Pass};
use crate::ends::{ScribeEnd, ScribeFault, of_lane, of_store};
use crate::finishing::{close, close_entered};
use fluid_json::NoMemory;
use fluid_lane::LaneFault;
use fluid_log::Keeper;
use fluid_readback::leaves_and_reports_fit;
use fluid_scribe::Job;
use fluid_store::Objects;
use fluid_types::{Raw, Verdict};
use fluid_versions::put_version;
use std::alloc::Global;
use std::sync::Wait;

impl<K: Keeper> Door<K> {
    /// Answers the pending summary: it looks for the document's job, then whether the tree is held, puts the objects of its
    /// version where it is, and enters a report. While it looks at the store it has no turn.
    pub fn scribe<R: Wait, O: Objects>(
        &self,
        rt: &R,
        alloc: Global,
        pass: Pass<K>,
        objects: &mut O,
        moment: u64,
    ) -> (Pass<K>, Result<ScribeEnd, ScribeFault>)
        requires pass { pass.turn ≡ self.now.turn }
        requires moment { moment ≤ largest }
        ensures counts { Counts (O.seen objects.old) (O.seen objects.new) }
        ensures scribes { Scribes self.now.turn.fixed pass result.0 moment (O.seen objects.old) (O.seen objects.new) result.1 }
    {
        let (pass, asked) = self.ask(rt, alloc, pass);
        match asked {
            Ok(Some(job)) => match put_version(alloc, objects, &job) {
                Ok(found) => {
                    let (pass, answer) = self.report(rt, alloc, pass, job.summary, found, moment);
                    match answer {
                        Ok(verdict) => (pass, Ok(ScribeEnd::Concluded(verdict))),
                        Err(fault) => (pass, Err(of_lane(fault))),
                    }
                }
                Err(fault) => (pass, Err(of_store(fault))),
            },
            Ok(None) => (pass, Ok(ScribeEnd::Idle)),
            Err(_) => (pass, Err(ScribeFault::NoMemory)),
        }
    }

    // What is to be done about the pending summary.
    fn ask<R: Wait>(
        &self,
        rt: &R,
        alloc: Global,
        pass: Pass<K>,
    ) -> (Pass<K>, Result<Option<Job>, NoMemory>)
        requires { pass.turn ≡ self.now.turn }
        ensures number { IfOk result.1 (λ given. IfSome given (λ job. IsUpTo largest job.summary)) }
        ensures job { IfOk result.1 (λ given. Grows pass result.0 [] (IsJobOf self.now.turn.fixed given)) }
        ensures same { Grows pass result.0 [] (λ l. ⊤) }
    {
        let mut held = self.turn().take_noted(rt, pass);
        let asked = held.value.job(alloc);
        (close(held), asked)
    }

    // Enters a report on the summarize of this number.
    fn report<R: Wait>(
        &self,
        rt: &R,
        alloc: Global,
        pass: Pass<K>,
        summary: u64,
        found: bool,
        moment: u64,
    ) -> (Pass<K>, Result<Verdict, LaneFault>)
        requires pass { pass.turn ≡ self.now.turn }
        requires number { IsUpTo largest summary }
        requires moment { moment ≤ largest }
        ensures { Grows pass result.0 (steps_of (entered_by (Raw.Report summary found moment)) result.1) (Reports self.now.turn.fixed (Raw.Report summary found moment) result.1) }
    {
        // (a law, and no work: its clause is for the proof)
        leaves_and_reports_fit();
        let mut held = self.turn().take_noted(rt, pass);
        let answer = held.value.conclude(alloc, summary, found, moment);
        let raw = Raw::Report {
            summary,
            found,
            moment,
        };
        close_entered(held, raw, answer)
    }
}
