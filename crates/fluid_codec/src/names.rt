// The words of events, each beside its value.
ghost use Rattle.std.specs.Prelude.{◌≡◌, if◌then◌else◌};

use fluid_types::Word;

/// The names of events that are heard.
#[derive(Clone, Copy, Debug, PartialEq, Eq)]
pub enum EventName {
    ConnectDocument,
    SubmitOp,
    GetDeltas,
    GetSummary,
    GetObject,
    PutObject,
}

impl EventName {
    pub(crate) const ALL: [EventName; 6] = [
        EventName::ConnectDocument,
        EventName::SubmitOp,
        EventName::GetDeltas,
        EventName::GetSummary,
        EventName::GetObject,
        EventName::PutObject,
    ];
}

impl Word for EventName {
    ghost use Rattle.fluid_codec.specs.EventWords.{event_word};

    ghost word_of = { event_word };

    fn word(self) -> &'static str {
        match self {
            EventName::ConnectDocument => "connect_document",
            EventName::SubmitOp => "submitOp",
            EventName::GetDeltas => "getDeltas",
            EventName::GetSummary => "getSummary",
            EventName::GetObject => "getObject",
            EventName::PutObject => "putObject",
        }
    }
}

/// How a client connects.
#[derive(Clone, Copy, Debug, PartialEq, Eq)]
pub enum Mode {
    Read,
    Write,
}

impl Mode {
    pub(crate) const ALL: [Mode; 2] = [Mode::Read, Mode::Write];

    pub(crate) fn of(write: bool) -> Mode
        ensures { result ≡ (if write then Mode.Write else Mode.Read) }
    {
        if write { Mode::Write } else { Mode::Read }
    }
}

impl Word for Mode {
    ghost use Rattle.fluid_codec.specs.EventWords.{mode_word};

    ghost word_of = { mode_word };

    fn word(self) -> &'static str {
        match self {
            Mode::Read => "read",
            Mode::Write => "write",
        }
    }
}

/// The pick of `getSummary` that asks for the last summary.
pub(crate) const LATEST: &str = "latest";
