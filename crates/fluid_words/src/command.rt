//! What may be asked of the program.
ghost use Rattle.std.specs.Prelude.{◌≡◌, Option};
ghost use Rattle.fluid_words.specs.Words.{named};
ghost use Rattle.fluid_words.specs.declared.command.WordsFault.TheVariants.{NoMemory as no_memory};

use fluid_json::NoMemory;
use fluid_types::DocName;
use std::alloc::AllocError;

/// What the words behind the program's name ask for.
#[derive(Drop)]
pub enum Command {
    /// Raw records of one document in, verdict lines out.
    Sequence,
    /// Steps in, their lines out.
    Script,
    /// Steps in, the state of a container for this document out.
    Load(DocName),
    /// The generated workload of this number: 1 to 1,000 clients, and 1 to 100,000 ops.
    Workload {
        number: u64,
        clients: u32,
        ops: u32,
    },
    /// Serves so many connections at this port, over WebSocket or over lines.
    Serve {
        port: u16,
        connections: u32,
        lines: bool,
    },
    /// The page on a command, or on the program.
    Help(Option<CommandName>),
    Version,
}

/// The word with which a command begins.
#[derive(Clone, Copy, Debug, PartialEq, Eq)]
pub enum CommandName {
    Sequence,
    Script,
    Load,
    Workload,
    Serve,
}

impl CommandName {
    /// The command that begins with this word.
    pub(crate) fn read(word: &str) -> Option<CommandName>
        ensures { result ≡ named word.now }
    {
        match word {
            "sequence" => Some(CommandName::Sequence),
            "script" => Some(CommandName::Script),
            "load" => Some(CommandName::Load),
            "workload" => Some(CommandName::Workload),
            "serve" => Some(CommandName::Serve),
            _ => None,
        }
    }
}

/// Why words are not read.
#[derive(Clone, Copy, Debug, PartialEq, Eq)]
pub enum WordsFault {
    /// They spell no command.
    Usage,
    NoMemory,
}

impl From<AllocError> for WordsFault {
    ghost from_gives = { λ _ fault. fault ≡ no_memory };

    fn from(_refused: AllocError) -> WordsFault {
        WordsFault::NoMemory
    }
}

impl From<NoMemory> for WordsFault {
    ghost from_gives = { λ _ fault. fault ≡ no_memory };

    fn from(_refused: NoMemory) -> WordsFault {
        WordsFault::NoMemory
    }
}
