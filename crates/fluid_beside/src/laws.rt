//! What holds of the definitions, said by functions that do nothing.
ghost use Rattle.fluid_beside.specs.Beside.{StepsLeaveOthers, StepsKeepStore};

/// A step changes its own name alone. To the document of another name's container it adds nothing that the container's client made, and
/// only a text that is heard, a scribe and a summary put objects.
pub fn steps_leave_others()
    ensures others { StepsLeaveOthers }
    ensures store { StepsKeepStore }
{}
