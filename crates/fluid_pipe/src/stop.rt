//! How a run ends before its input does.
use crate::refusal::Refusal;

/// Why a run ends before the end of its input, or without having written all.
#[derive(Clone, Copy, Debug, PartialEq, Eq, Drop)]
pub enum Stop<W, F> {
    /// The line of this number, from 1, is refused.
    Refused(u64, Refusal<W>),
    /// The source failed.
    ReadFault,
    /// The sink failed.
    WriteFault,
    NoMemory,
    /// The taker failed.
    Failed(F),
}
