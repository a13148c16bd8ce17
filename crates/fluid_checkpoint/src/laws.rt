//! What holds of the definitions, said by functions that do nothing.

ghost use Rattle.fluid_checkpoint.specs.Laws.{IsReadBack, FirstIsRead, MomentsAreJoined};

/// A state in the form is read back from its text as itself, and its text in version 1 as the number of its entries.
pub fn printed_is_read_back()
    ensures second { IsReadBack }
    ensures first { FirstIsRead }
{}

/// The moments of rows, taken out and written down again, make the same rows.
pub fn moments_are_joined()
    ensures { MomentsAreJoined }
{}
