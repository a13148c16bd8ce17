//! What holds of the definitions, said by functions that do nothing.

ghost use Rattle.fluid_quorum.specs.Laws.{GoesOn, IsOnlyBlobs, AreAttributes, AreReadBack};

/// The quorum of an order's first messages and of one more is what this one makes of the quorum before.
pub fn quorum_goes_on()
    ensures { GoesOn }
{}

/// A tree that is read as a quorum has the texts of its blobs.
pub fn only_blobs_are_read()
    ensures { IsOnlyBlobs }
{}

/// The attributes of a tree that is read as a quorum say the quorum's numbers.
pub fn attributes_are_read()
    ensures { AreAttributes }
{}

/// The blobs of a quorum are read back as it, where its names are names, its numbers those of the first messages, and its
/// values at most 118 deep.
pub fn blobs_are_read_back()
    ensures { AreReadBack }
{}
