//! Worked examples, each computed from the definitions.
ghost use Rattle.fluid_transcript.specs.Examples.{NewDocument, TwoClients, Sweeps, Loads, GoesOn};
ghost use Rattle.fluid_transcript.specs.LineExamples.{Forms, Hears, Collects, Edits, Refusals, Beyond, FirstUse};
ghost use Rattle.fluid_transcript.specs.RoamExamples.{Comes, Says, Returns, Acks, Refuses};
ghost use Rattle.fluid_transcript.specs.ScriptExamples.{SweepScript, ReopenScript, Last, Closes, LoadNames, Again, Pumps, Stores, Summarizes, Scribes};
ghost use Rattle.fluid_transcript.specs.TaskExamples.{Items, Volunteers};

use fluid_tasks::examples::two_items;

/// The steps of a document that is new.
pub fn new_document()
    ensures { NewDocument }
{}

/// Those of a document with two clients and two checkpoints.
pub fn two_clients()
    ensures { TwoClients }
{}

/// Who is silent leaves.
pub fn sweeps()
    ensures { Sweeps }
{}

/// Containers that are loaded, and that aren't.
pub fn loads()
    ensures { Loads }
{}

/// A container goes on, and one is refused.
pub fn goes_on()
    ensures { GoesOn }
{}

/// The forms of lines.
pub fn forms()
    ensures { Forms }
{}

/// What connections hear, collect and write.
pub fn connections()
    ensures hears { Hears }
    ensures collects { Collects }
{}

/// Edits that are refused, and that aren't.
pub fn edits()
    ensures { Edits }
{}

/// Which lines are refused.
pub fn refusals()
    ensures refusals { Refusals }
    ensures beyond { Beyond }
{}

/// A document's first use.
pub fn first_use()
    ensures { FirstUse }
{}

/// Whole scripts.
pub fn scripts()
    ensures sweep { SweepScript }
    ensures reopen { ReopenScript }
    ensures last { Last }
{}

/// What single steps leave.
pub fn single_steps()
    ensures closes { Closes }
    ensures load_names { LoadNames }
    ensures again { Again }
    ensures pumps { Pumps }
    ensures stores { Stores }
{}

/// Steps that put objects.
pub fn putting()
    ensures summarizes { Summarizes }
    ensures scribes { Scribes }
{}

/// The steps of a roamer.
pub fn roamers()
    ensures comes { Comes }
    ensures says { Says }
    ensures returns { Returns }
    ensures acks { Acks }
    ensures refuses { Refuses }
{}

/// Queues and tasks, as the messages of a document make them.
pub fn queues_and_tasks()
    ensures items { Items }
    ensures volunteers { Volunteers }
{
    // (an order that was worked out, and no work: its clause is for the proof)
    two_items();
}
