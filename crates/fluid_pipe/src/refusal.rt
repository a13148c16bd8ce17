//! Why a line is refused.

/// Why a line of an input is refused.
#[derive(Clone, Copy, Debug, PartialEq, Eq, Drop)]
pub enum Refusal<W> {
    /// It has more than 1,048,576 bytes.
    TooLong,
    NotUtf8,
    /// It is the line 16,777,217.
    TooManyLines,
    /// The taker refuses its text.
    Text(W),
}
