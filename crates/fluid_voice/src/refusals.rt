// Why a connection isn't made.
ghost use Rattle.std.specs.Prelude.{◌≡◌, IfOk};
ghost use Rattle.fluid_voice.specs.Refusals.{refusal_code, refusal_text, refused};

use fluid_codec::Reply;
use fluid_json::{NoMemory, Text};
use std::alloc::Global;

/// Why a client isn't connected to a document.
#[derive(Clone, Copy, Debug, PartialEq, Eq)]
pub enum ConnectRefusal {
    AlreadyConnected,
    /// The scope `doc:read` isn't held.
    ReadMissing,
    TooManyDocuments,
    DocumentFull,
    TooManyClients,
}

impl ConnectRefusal {
    /// The code, as in HTTP.
    pub fn code(self) -> u32
        ensures { result ≡ refusal_code self }
    {
        match self {
            ConnectRefusal::AlreadyConnected => 400,
            ConnectRefusal::ReadMissing => 403,
            ConnectRefusal::TooManyDocuments => 429,
            ConnectRefusal::DocumentFull => 429,
            ConnectRefusal::TooManyClients => 429,
        }
    }

    pub fn text(self) -> &'static str
        ensures { result.now ≡ refusal_text self }
    {
        match self {
            ConnectRefusal::AlreadyConnected => "already connected",
            ConnectRefusal::ReadMissing => "doc:read is missing",
            ConnectRefusal::TooManyDocuments => "too many documents",
            ConnectRefusal::DocumentFull => "document is full",
            ConnectRefusal::TooManyClients => "too many clients",
        }
    }

    /// What the client is told.
    pub fn reply(self, alloc: Global) -> Result<Reply, NoMemory>
        ensures { IfOk result (λ reply. reply ≡ refused self) }
    {
        let text = Text::copied(alloc, self.text())?;
        Ok(Reply::ConnectError {
            code: self.code(),
            text,
        })
    }
}
