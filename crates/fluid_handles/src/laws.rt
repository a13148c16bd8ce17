//! What holds of the definitions, said by functions that do nothing.

ghost use Rattle.fluid_handles.specs.Laws.{HasNoHandle, IsItself};

/// A tree without handles stands for itself, whatever the earlier one is.
pub fn a_tree_without_handles_is_itself()
    ensures { IsItself }
{}

/// What a tree stands for has no handle, where the earlier one has none.
pub fn what_is_resolved_has_no_handle()
    ensures { HasNoHandle }
{}
