//! Worked examples of replay, each computed from the definitions.

ghost use Rattle.fluid_map.specs.Examples.{AroundClear, DeleteOfAbsentKey, ContentInOrder, PendingClear};

/// A clear takes what was set before it, and not what is set behind it.
pub fn around_clear()
    ensures { AroundClear }
{}

/// To delete a key that has no value changes nothing.
pub fn delete_of_absent_key()
    ensures { DeleteOfAbsentKey }
{}

/// The content has the keys in byte order, whichever was set first.
pub fn content_in_order()
    ensures { ContentInOrder }
{}

/// A pending clear masks another client's set, and the set behind it is shown.
pub fn pending_clear()
    ensures { PendingClear }
{}
