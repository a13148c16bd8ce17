//! Why a line of a script is refused.
ghost use Rattle.std.specs.Prelude.{◌≡◌};
ghost use Rattle.fluid_steps.specs.Refusals.{fault_words, why_text};

use fluid_json::JsonFault;

/// Why a line is refused. A step gets the first of these that fits; what is wrong with a line as such comes before all.
#[derive(Clone, Copy, Debug, PartialEq, Eq)]
pub enum LineWhy {
    /// The first word is none of a step.
    UnknownStep,
    /// The other words are outside the step's form.
    BadStep,
    /// A new name was wanted, and this one was given before.
    NameInUse,
    /// A connection, a container or a roamer that may still be used was wanted; or a roamer whose connection is lost, or isn't.
    UnknownName,
    /// The text of an `edit` isn't JSON of an op's contents.
    Json(JsonFault),
    /// The line has more than 1,048,576 bytes.
    TooLong,
    NotUtf8,
    /// It is the line 16,777,217.
    TooMany,
}

impl LineWhy {
    /// The words that a refused line is answered with.
    #[tactic(auto, unfolding(crate::specs::Refusals::why_text))]
    pub fn text(&self) -> &'static str
        ensures { result.now ≡ why_text self.now }
    {
        match self {
            LineWhy::UnknownStep => "unknown step",
            LineWhy::BadStep => "bad step",
            LineWhy::NameInUse => "name in use",
            LineWhy::UnknownName => "unknown name",
            LineWhy::Json(fault) => fault_words(*fault),
            LineWhy::TooLong => "too long",
            LineWhy::NotUtf8 => "not UTF-8",
            LineWhy::TooMany => "too many lines",
        }
    }
}

#[tactic(auto, unfolding(fluid_types::specs::Texts::fault_text))]
fn fault_words(fault: JsonFault) -> &'static str
    ensures { result.now ≡ fault_words fault }
{
    match fault {
        JsonFault::NotJson => "not JSON",
        JsonFault::NotWhole => "a number is not whole",
        JsonFault::TooDeep => "nested too deep",
        JsonFault::NoMemory => "out of memory",
    }
}
