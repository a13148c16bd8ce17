// What comes of a session.
use fluid_ends::TalkFault;
use fluid_io::FaultNote;

/// Why a session ended.
#[derive(Drop)]
pub enum SessionEnd {
    /// The wire's texts are at their end, and the connection has left.
    Closed,
    /// The wire failed.
    WireFault,
    /// The next text is too long: it has at least so many bytes.
    TooLong(u64),
    /// The document's keeper failed at its log; its count of faults rose as the note says.
    LogFault(FaultNote),
    /// The document's keeper failed at its deltas.
    DeltaFault(FaultNote),
    /// The store of objects failed.
    StoreFault(FaultNote),
    /// Another fault of the connection.
    Other(TalkFault),
    NoMemory,
    /// So many texts were answered by a front's nack.
    Abused(u64),
}

/// What came of a session. The numbers of verdicts are those of its submissions.
#[derive(Drop)]
pub struct Report {
    pub end: SessionEnd,
    pub sequenced: u64,
    pub dropped: u64,
    pub nacked: u64,
    pub absorbed: u64,
    /// The texts that were answered by a front's nack.
    pub unread: u64,
}
