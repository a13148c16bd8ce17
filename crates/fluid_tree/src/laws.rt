//! What holds of the definitions, said by functions that do nothing.

ghost use Rattle.fluid_tree.specs.Laws.{AreNamed, IsIdReadBack, IsOfBytes, IsReadBack};

/// Bytes from which an object is read are the bytes of that object: nothing else is accepted.
pub fn only_objects_are_read()
    ensures { IsOfBytes }
{}

/// None of the names of the entries that are read is refused.
pub fn names_that_are_read_are_names()
    ensures { AreNamed }
{}

/// The bytes of an object are read as that object.
pub fn objects_are_read_back()
    ensures { IsReadBack }
{}

/// The text of an id is read as that id.
pub fn ids_are_read_back()
    ensures { IsIdReadBack }
{}
