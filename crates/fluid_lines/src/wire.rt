//! A wire: texts come in and go out.
ghost use Rattle.std.specs.Prelude.{◌≡◌, ℕ};
ghost use Rattle.fluid_lines.specs.Wires.{Receives, Sends, Stays, Wiring};
ghost use Rattle.fluid_lines.specs.declared.wire.WireFault.TheVariants.{Failed as WireFailed, NoMemory as WireNoMemory};

use fluid_io::Failed;
use fluid_json::{NoMemory, Text};
use std::alloc::{AllocError, AllocFailed, Global};
use std::sync::Wait;

/// One text of a wire's history.
#[derive(Drop)]
pub enum WireText {
    /// It came in.
    In(Text),
    /// It went out.
    Out(Text),
}

/// What a wire answers to the one who receives.
#[derive(Drop)]
pub enum Recv {
    /// The next text.
    Text(Text),
    /// There is none at the moment.
    Quiet,
    /// No text comes any more.
    End,
    /// The next text has more than `LONGEST_TEXT` bytes: at least so many.
    TooLong(u64),
}

/// Why a wire gives no text, or takes none.
#[derive(Clone, Copy, Debug, PartialEq, Eq)]
pub enum WireFault {
    Failed,
    NoMemory,
}

impl From<Failed> for WireFault {
    ghost from_gives = { λ _ fault. fault ≡ WireFailed };

    fn from(_failed: Failed) -> WireFault {
        WireFault::Failed
    }
}

impl From<NoMemory> for WireFault {
    ghost from_gives = { λ _ fault. fault ≡ WireNoMemory };

    fn from(_refused: NoMemory) -> WireFault {
        WireFault::NoMemory
    }
}

impl From<AllocError> for WireFault {
    ghost from_gives = { λ _ fault. fault ≡ WireNoMemory };

    fn from(_refused: AllocError) -> WireFault {
        WireFault::NoMemory
    }
}

impl<T: Drop> From<AllocFailed<T>> for WireFault {
    ghost from_gives = { λ _ fault. fault ≡ WireNoMemory };

    fn from(_refused: AllocFailed<T>) -> WireFault {
        WireFault::NoMemory
    }
}

/// One end of a connection. A real wire may wait in each of its calls.
pub trait Wire {
    /// The history and the texts to come, where the wire tells them, and its counts.
    ghost seen: { Self → Wiring };

    /// The next text that comes in. It adds this text to the history, and nothing else.
    fn recv<R: Wait>(&mut self, rt: &R, alloc: Global) -> Result<Recv, WireFault>
        ensures stays { Stays (seen self.old) (seen self.new) }
        ensures does { Receives (seen self.old) (seen self.new) result };

    /// Sends a text. It adds this text to the history where it answers Ok, and nothing else.
    fn send<R: Wait>(&mut self, rt: &R, alloc: Global, text: &str) -> Result<(), WireFault>
        ensures stays { Stays (seen self.old) (seen self.new) }
        ensures texts { (seen self.new).texts ≡ (seen self.old).texts }
        ensures does { Sends (seen self.old) (seen self.new) text.now result };

    /// The wire follows the document of this name: a wire that may sleep is then woken by the others that follow it. It
    /// is a hint alone.
    fn follow<R: Wait>(&mut self, _rt: &R, _name: &str)
        ensures { seen self.new ≡ seen self.old }
    {}

    /// Whether it is time for a receive. A wire that never waits holds what the peer doesn't take, and answers false as long as the
    /// peer has to take it first; where it has failed it answers true. It is a hint alone.
    fn is_free<R: Wait>(&mut self, _rt: &R) -> bool
        ensures { seen self.new ≡ seen self.old }
    {
        true
    }

    /// Hands on what it holds, behind the last send. It says whether the peer has taken it all, or never will. It is a hint alone.
    fn is_handed_on<R: Wait>(&mut self, _rt: &R) -> bool
        ensures { seen self.new ≡ seen self.old }
    {
        true
    }
}
