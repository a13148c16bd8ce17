//! How a run ends.
ghost use Rattle.std.specs.Prelude.{◌≡◌};
ghost use Rattle.fluidd.specs.Output.{code_of};

/// How a run ends; its code is the exit status of the program.
#[derive(Clone, Copy, Debug, PartialEq, Eq)]
pub enum Status {
    /// What the words ask for is done. Of `sequence`: no line is refused, the source has nothing left, and the verdict line
    /// of each record was written to the sink. Of `script` and `load`: the same, with the lines of each step or that of the last
    /// container. Of `workload`: its summary was written. Of `serve`: as many connections as were asked for were served, or all that
    /// the front gave. Of a page or the version: its text was written.
    Done,
    /// The words are no command.
    Usage,
    /// A line of the input is refused.
    Refused,
    /// The source failed.
    ReadFault,
    /// The sink failed.
    WriteFault,
    NoMemory,
    /// A keeper of a document failed, or the shelves.
    KeeperFault,
    /// The store of objects failed.
    StoreFault,
    /// The front failed: it can't listen, or can't take any more connections.
    FrontFault,
    /// A thread was refused, or what it waits with.
    SpawnRefused,
    /// What is stored is refused, or a document has come to the end of its numbers.
    BadStored,
}

impl Status {
    /// The exit status.
    pub fn code(self) -> u8
        ensures { result ≡ code_of self }
    {
        match self {
            Status::Done => 0,
            Status::Usage => 2,
            Status::Refused => 3,
            Status::ReadFault => 4,
            Status::WriteFault => 5,
            Status::NoMemory => 6,
            Status::KeeperFault => 7,
            Status::StoreFault => 8,
            Status::FrontFault => 9,
            Status::SpawnRefused => 10,
            Status::BadStored => 11,
        }
    }
}
