//! What holds of the definitions, said by functions that do nothing.

ghost use Rattle.fluid_json.specs.Laws.{IsReadBack, IsReadBackStored};

/// A value that is printed and at most 100 deep is read back as itself.
pub fn printed_is_read_back()
    ensures { IsReadBack }
{}

/// A value that is printed and stored, and at most 120 deep, is read back as itself.
pub fn stored_is_read_back()
    ensures { IsReadBackStored }
{}
