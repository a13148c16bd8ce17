//! What one try to receive or to send came to.

use fluid_json::Text;

/// What one try to receive gave.
#[derive(Drop)]
pub(crate) enum Step {
    Text(Text),
    /// The next text has at least so many bytes, which are more than a text may have.
    TooLong(u64),
    /// Something came that is no text and asks for nothing.
    Passed,
    /// The stream has nothing at the moment.
    Blocked,
    /// The one who receives is to look round before the next try.
    Quiet,
    End,
    Failed,
    NoMemory,
}

/// What one try to send came to.
#[derive(Clone, Copy, PartialEq, Eq)]
pub(crate) enum Sent {
    Whole,
    /// The peer takes no more at the moment: the rest waits.
    Blocked,
    Failed,
    /// Nothing was sent.
    NoMemory,
}
