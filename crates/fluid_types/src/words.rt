// The words that stand for values in texts. Each word stands once, beside its value.
ghost use Rattle.std.specs.Prelude.{◌≡◌, find, bytes_eq};

use crate::{Kind, Offered, Scopes};

/// Values of which each has a word.
pub trait Word: Copy {
    ghost use Rattle.std.specs.Prelude.{◌≡◌, ℕ, List};

    ghost word_of: { Self → List ℕ };

    fn word(self) -> &'static str
        ensures { result.now ≡ word_of self };
}

/// The first of these values whose word this is.
pub fn of_word<T: Word>(all: &[T], word: &str) -> Option<T>
    ensures { result ≡ find (λ value. bytes_eq word.now (T.word_of value)) all.now }
{
    for value in all {
        if word == value.word() {
            return Some(*value);
        }
    }
    None
}

/// The kinds of raw entry.
#[derive(Clone, Copy, Debug, PartialEq, Eq)]
pub enum RawKind {
    Join,
    Leave,
    Submit,
    Report,
}

impl RawKind {
    pub const ALL: [RawKind; 4] = [
        RawKind::Join,
        RawKind::Leave,
        RawKind::Submit,
        RawKind::Report,
    ];
}

/// The words of the member `raw`.
impl Word for RawKind {
    ghost use Rattle.fluid_types.specs.Words.{raw_word};

    ghost word_of = { raw_word };

    fn word(self) -> &'static str {
        match self {
            RawKind::Join => "join",
            RawKind::Leave => "leave",
            RawKind::Submit => "submit",
            RawKind::Report => "report",
        }
    }
}

impl Offered {
    pub const ALL: [Offered; 5] = [
        Offered::Op,
        Offered::Noop,
        Offered::Propose,
        Offered::Reject,
        Offered::Summarize,
    ];
}

/// The words of the member `type` of a submission.
impl Word for Offered {
    ghost use Rattle.fluid_types.specs.Words.{offered_word};

    ghost word_of = { offered_word };

    fn word(self) -> &'static str {
        match self {
            Offered::Op => "op",
            Offered::Noop => "noop",
            Offered::Propose => "propose",
            Offered::Reject => "reject",
            Offered::Summarize => "summarize",
        }
    }
}

impl Kind {
    pub const ALL: [Kind; 9] = [
        Kind::Op,
        Kind::Noop,
        Kind::Propose,
        Kind::Reject,
        Kind::Summarize,
        Kind::Join,
        Kind::Leave,
        Kind::SummaryAck,
        Kind::SummaryNack,
    ];
}

/// The words of the member `type` of a message.
impl Word for Kind {
    ghost use Rattle.fluid_types.specs.Words.{kind_word};

    ghost word_of = { kind_word };

    fn word(self) -> &'static str {
        match self {
            Kind::Op => "op",
            Kind::Noop => "noop",
            Kind::Propose => "propose",
            Kind::Reject => "reject",
            Kind::Summarize => "summarize",
            Kind::Join => "join",
            Kind::Leave => "leave",
            Kind::SummaryAck => "summaryAck",
            Kind::SummaryNack => "summaryNack",
        }
    }
}

/// The words of scopes.
impl Scopes {
    pub const READ: &'static str = "doc:read";

    pub const WRITE: &'static str = "doc:write";

    pub const SUMMARY: &'static str = "summary:write";
}
