//! What a line of a script may ask for.
use crate::names::ScriptName;
use fluid_edits::Edit;
use fluid_json::{JsonFault, Text};
use fluid_loader::Pick;
use fluid_types::{DocName, Word};

/// What one line asks for.
#[derive(Drop)]
pub enum Step {
    /// A connection hears a text; one of a new name starts.
    Send(ScriptName, Text),
    /// A connection is given all messages up to the last.
    Collect(ScriptName),
    /// A connection leaves.
    Close(ScriptName),
    /// The scribe looks at the pending summarize of a document.
    Scribe(DocName),
    /// A checkpoint of a document is stored.
    Checkpoint(DocName),
    /// A document begins again from its stored checkpoint of this number, counted from 0.
    Restart(DocName, u64),
    /// A document is closed, and opened as by a new process.
    Reopen(DocName),
    /// The first client of a document that has been silent for more than so many milliseconds leaves.
    Sweep(DocName, u64),
    /// How many entries a document has, and what numbers.
    Count(DocName),
    /// What the messages of a document make of its queues and tasks.
    Tasks(DocName),
    /// A container of a new name joins a document and is loaded.
    Load(ScriptName, DocName, Pick),
    /// A container takes in the messages up to the last.
    Pump(ScriptName),
    /// A container's client edits a channel. The fault is that of a text that is no JSON of an op's contents: whether there is
    /// such a container is looked at before it.
    Edit(ScriptName, Result<Edit, JsonFault>),
    /// A container's client says where it is by a noop.
    Beat(ScriptName),
    /// A container uploads its channels and proposes them as a summary.
    Summarize(ScriptName),
    /// What a container or a roamer shows.
    Show(ScriptName),
    /// A roamer of a new name joins a document.
    Roam(ScriptName, DocName),
    /// A roamer's user edits a channel. The fault is as of `Edit`.
    Say(ScriptName, Result<Edit, JsonFault>),
    /// A roamer's connection is lost.
    Lose(ScriptName),
    /// A roamer whose connection was lost comes back.
    Back(ScriptName),
    /// A roamer takes in the messages up to the last, and tells how many of its edits stand.
    Acked(ScriptName),
}

/// The words with which steps begin.
#[derive(Clone, Copy, Debug, PartialEq, Eq)]
pub enum StepWord {
    Send,
    Collect,
    Close,
    Scribe,
    Checkpoint,
    Restart,
    Reopen,
    Sweep,
    Count,
    Tasks,
    Load,
    Pump,
    Edit,
    Beat,
    Summarize,
    Show,
    Roam,
    Say,
    Lose,
    Back,
    Acked,
}

impl StepWord {
    pub const ALL: [StepWord; 21] = [
        StepWord::Send,
        StepWord::Collect,
        StepWord::Close,
        StepWord::Scribe,
        StepWord::Checkpoint,
        StepWord::Restart,
        StepWord::Reopen,
        StepWord::Sweep,
        StepWord::Count,
        StepWord::Tasks,
        StepWord::Load,
        StepWord::Pump,
        StepWord::Edit,
        StepWord::Beat,
        StepWord::Summarize,
        StepWord::Show,
        StepWord::Roam,
        StepWord::Say,
        StepWord::Lose,
        StepWord::Back,
        StepWord::Acked,
    ];
}

impl Word for StepWord {
    ghost use Rattle.fluid_steps.specs.Words.{step_word};

    ghost word_of = { step_word };

    fn word(self) -> &'static str {
        match self {
            StepWord::Send => "send",
            StepWord::Collect => "collect",
            StepWord::Close => "close",
            StepWord::Scribe => "scribe",
            StepWord::Checkpoint => "checkpoint",
            StepWord::Restart => "restart",
            StepWord::Reopen => "reopen",
            StepWord::Sweep => "sweep",
            StepWord::Count => "count",
            StepWord::Tasks => "tasks",
            StepWord::Load => "load",
            StepWord::Pump => "pump",
            StepWord::Edit => "edit",
            StepWord::Beat => "beat",
            StepWord::Summarize => "summarize",
            StepWord::Show => "show",
            StepWord::Roam => "roam",
            StepWord::Say => "say",
            StepWord::Lose => "lose",
            StepWord::Back => "back",
            StepWord::Acked => "acked",
        }
    }
}
