//! Worked examples of replay, each computed from the definitions.

ghost use Rattle.fluid_edits.specs.Examples.{EachOpHasItsText, OnlyBehindItsAttach, OtherFormsCountForNothing, TextIsSpelled};

/// A set before the attach counts for nothing, a second attach of another kind changes nothing, and an increment doesn't
/// fit a map.
pub fn only_behind_its_attach()
    ensures { OnlyBehindItsAttach }
{}

/// A body that isn't in one of the five forms spells no edit, nor does a message that is no op.
pub fn other_forms_count_for_nothing()
    ensures { OtherFormsCountForNothing }
{}

/// Contents that are a text of JSON stand for the value that it spells.
pub fn text_is_spelled()
    ensures { TextIsSpelled }
{}

/// The text of an op of each form: the edit's op is printed so, and contents that are this text spell the edit.
pub fn each_op_has_its_text()
    ensures { EachOpHasItsText }
{}
