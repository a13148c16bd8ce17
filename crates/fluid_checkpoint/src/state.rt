// What a checkpoint says.
use crate::heard::Moments;
use fluid_clients::SequencerState;
use fluid_quorum::ScribeState;

/// What is kept of a document's first raw entries.
#[derive(Drop)]
pub struct State {
    /// How many raw entries were entered, and so how many records of the log the checkpoint stands for.
    pub entered: u64,
    /// How many joins and submissions are among them.
    pub counted: u64,
    /// In the row of each client stands the moment that `heard` has for it, and 0 where it has none.
    pub sequencer: SequencerState,
    pub scribe: ScribeState,
    /// When each joined client was heard last.
    pub heard: Moments,
}

/// What a text is read as.
#[derive(Drop)]
pub enum Form {
    /// The state that a text of version 2 says.
    Two(State),
    /// The number of entered entries that a text of version 1 says. It has no moments, so a state isn't made of it.
    One(u64),
}
