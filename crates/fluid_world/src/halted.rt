//! That a step ended a script.

/// A step ended the script, which keeps why.
#[derive(Drop)]
pub(crate) struct Halted;
