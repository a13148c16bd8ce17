// Why a text is not read: the faults of the codec, with the member or argument that they name.
ghost use Rattle.std.specs.Prelude.{◌≡◌, ◌⊎◌, ◌++◌, IfOk, codes};
ghost use Rattle.fluid_types.specs.Texts.{name_of, words_of, fault_text};

use fluid_json::{NoMemory, Text};
use std::alloc::{AllocError, AllocFailed, Global};

/// The members and arguments of records, messages, nacks, events, summaries and blobs, and `message` itself.
#[derive(Clone, Copy, Debug, PartialEq, Eq)]
pub enum Field {
    Absorbed,
    ApprovalSequenceNumber,
    CheckpointSequenceNumber,
    Client,
    ClientId,
    ClientSequenceNumber,
    Code,
    Connect,
    Content,
    Contents,
    Data,
    Detail,
    Dropped,
    Found,
    From,
    Handle,
    Head,
    Id,
    Key,
    MaxMessageSize,
    Message,
    Messages,
    Metadata,
    MinimumSequenceNumber,
    Mode,
    Moment,
    Nacked,
    Object,
    Operation,
    Pick,
    Raw,
    ReferenceSequenceNumber,
    Scopes,
    SequenceNumber,
    Sequenced,
    Summary,
    SummaryProposal,
    SummarySequenceNumber,
    Timestamp,
    To,
    Type,
    Value,
    Version,
}

/// What is wrong with a member or an argument.
#[derive(Clone, Copy, Debug, PartialEq, Eq)]
pub enum What {
    Missing,
    NotText,
    NotWhole,
    NotList,
    NotObject,
    NotTruth,
    OutOfRange,
    NotAllowed,
    BadName,
}

/// Why a text is not read. Too deep is looked for first, then whether the text is JSON, then whether its numbers are
/// whole, and then the members.
#[derive(Clone, Copy, Debug, PartialEq, Eq)]
pub enum CodecFault {
    NotJson,
    /// Some number in the value isn't a whole number of 64 bits with a sign.
    NotWhole,
    /// More than 100 lists and objects stand inside one another.
    TooDeep,
    UnknownEvent,
    BadField(Field, What),
    NoMemory,
}

/// Why a blob of a summary is not read.
#[derive(Drop)]
pub enum BlobFault {
    /// The blob of this path is missing or outside its form.
    BadBlob(Text),
    NoMemory,
}

impl BlobFault {
    /// The fault of the blob of this name; want of memory where there is none for the path.
    pub fn of(alloc: Global, name: Field) -> BlobFault
        ensures { (result ≡ BlobFault.NoMemory) ⊎ (result ≡ BlobFault.BadBlob (name_of name)) }
    {
        match Text::copied(alloc, name.name()) {
            Ok(path) => BlobFault::BadBlob(path),
            Err(_) => BlobFault::NoMemory,
        }
    }
}

impl Field {
    /// The name as it stands in a text.
    #[tactic(auto, unfolding(crate::specs::Texts::name_of))]
    pub fn name(self) -> &'static str
        ensures { result.now ≡ name_of self }
    {
        match self {
            Field::Absorbed => "absorbed",
            Field::ApprovalSequenceNumber => "approvalSequenceNumber",
            Field::CheckpointSequenceNumber => "checkpointSequenceNumber",
            Field::Client => "client",
            Field::ClientId => "clientId",
            Field::ClientSequenceNumber => "clientSequenceNumber",
            Field::Code => "code",
            Field::Connect => "connect",
            Field::Content => "content",
            Field::Contents => "contents",
            Field::Data => "data",
            Field::Detail => "detail",
            Field::Dropped => "dropped",
            Field::Found => "found",
            Field::From => "from",
            Field::Handle => "handle",
            Field::Head => "head",
            Field::Id => "id",
            Field::Key => "key",
            Field::MaxMessageSize => "maxMessageSize",
            Field::Message => "message",
            Field::Messages => "messages",
            Field::Metadata => "metadata",
            Field::MinimumSequenceNumber => "minimumSequenceNumber",
            Field::Mode => "mode",
            Field::Moment => "moment",
            Field::Nacked => "nacked",
            Field::Object => "object",
            Field::Operation => "operation",
            Field::Pick => "pick",
            Field::Raw => "raw",
            Field::ReferenceSequenceNumber => "referenceSequenceNumber",
            Field::Scopes => "scopes",
            Field::SequenceNumber => "sequenceNumber",
            Field::Sequenced => "sequenced",
            Field::Summary => "summary",
            Field::SummaryProposal => "summaryProposal",
            Field::SummarySequenceNumber => "summarySequenceNumber",
            Field::Timestamp => "timestamp",
            Field::To => "to",
            Field::Type => "type",
            Field::Value => "value",
            Field::Version => "version",
        }
    }
}

impl What {
    #[tactic(auto, unfolding(crate::specs::Texts::words_of))]
    pub fn words(self) -> &'static str
        ensures { result.now ≡ words_of self }
    {
        match self {
            What::Missing => "missing",
            What::NotText => "not a text",
            What::NotWhole => "not a whole number",
            What::NotList => "not a list",
            What::NotObject => "not an object",
            What::NotTruth => "not a truth value",
            What::OutOfRange => "out of range",
            What::NotAllowed => "not allowed",
            What::BadName => "bad name",
        }
    }
}

impl CodecFault {
    /// The text of the fault, as a line or a nack has it.
    #[tactic(auto, unfolding(crate::specs::Texts::fault_text))]
    pub fn text(&self, alloc: Global) -> Result<Text, NoMemory>
        ensures { IfOk result (λ text. text ≡ fault_text self.now) }
    {
        match self {
            CodecFault::NotJson => Text::copied(alloc, "not JSON"),
            CodecFault::NotWhole => Text::copied(alloc, "a number is not whole"),
            CodecFault::TooDeep => Text::copied(alloc, "nested too deep"),
            CodecFault::UnknownEvent => Text::copied(alloc, "unknown event"),
            CodecFault::BadField(field, what) => bad_field(alloc, *field, *what),
            CodecFault::NoMemory => Text::copied(alloc, "out of memory"),
        }
    }
}

fn bad_field(alloc: Global, field: Field, what: What) -> Result<Text, NoMemory>
    ensures { IfOk result (λ text. text ≡ codes "bad field " ++ (name_of field ++ (codes ": " ++ words_of what))) }
{
    let text = format!(in alloc; "bad field {}: {}", field.name(), what.words())?;
    Ok(Text::new(text))
}

impl From<NoMemory> for CodecFault {
    ghost use Rattle.std.specs.Prelude.{◌≡◌};
    ghost use Rattle.fluid_types.specs.declared.fault.CodecFault.TheVariants.{NoMemory as no_memory};

    ghost from_gives = { λ _ fault. fault ≡ no_memory };

    fn from(_refused: NoMemory) -> CodecFault {
        CodecFault::NoMemory
    }
}

impl From<AllocError> for CodecFault {
    ghost use Rattle.std.specs.Prelude.{◌≡◌};
    ghost use Rattle.fluid_types.specs.declared.fault.CodecFault.TheVariants.{NoMemory as no_memory};

    ghost from_gives = { λ _ fault. fault ≡ no_memory };

    fn from(_refused: AllocError) -> CodecFault {
        CodecFault::NoMemory
    }
}

impl<T: Drop> From<AllocFailed<T>> for CodecFault {
    ghost use Rattle.std.specs.Prelude.{◌≡◌};
    ghost use Rattle.fluid_types.specs.declared.fault.CodecFault.TheVariants.{NoMemory as no_memory};

    ghost from_gives = { λ _ fault. fault ≡ no_memory };

    fn from(_refused: AllocFailed<T>) -> CodecFault {
        CodecFault::NoMemory
    }
}

impl From<NoMemory> for BlobFault {
    ghost use Rattle.std.specs.Prelude.{◌≡◌};
    ghost use Rattle.fluid_types.specs.declared.fault.BlobFault.TheVariants.{NoMemory as no_memory};

    ghost from_gives = { λ _ fault. fault ≡ no_memory };

    fn from(_refused: NoMemory) -> BlobFault {
        BlobFault::NoMemory
    }
}

impl From<AllocError> for BlobFault {
    ghost use Rattle.std.specs.Prelude.{◌≡◌};
    ghost use Rattle.fluid_types.specs.declared.fault.BlobFault.TheVariants.{NoMemory as no_memory};

    ghost from_gives = { λ _ fault. fault ≡ no_memory };

    fn from(_refused: AllocError) -> BlobFault {
        BlobFault::NoMemory
    }
}

impl<T: Drop> From<AllocFailed<T>> for BlobFault {
    ghost use Rattle.std.specs.Prelude.{◌≡◌};
    ghost use Rattle.fluid_types.specs.declared.fault.BlobFault.TheVariants.{NoMemory as no_memory};

    ghost from_gives = { λ _ fault. fault ≡ no_memory };

    fn from(_refused: AllocFailed<T>) -> BlobFault {
        BlobFault::NoMemory
    }
}
