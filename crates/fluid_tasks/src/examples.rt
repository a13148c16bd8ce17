// Small orders worked out from the definitions. Each is the contract of a function that does nothing.
ghost use Rattle.fluid_tasks.specs.Examples.{TwoItems, InTurn, CountForNothing, TextIsSpelled, TwoVolunteers, Standing, Both};

/// Two items of a queue, which are held, given back, left and done.
pub fn two_items()
    ensures { TwoItems }
{}

/// Items that are free are given in the order of since when they are, and then of their numbers.
pub fn in_turn()
    ensures { InTurn }
{}

/// What counts for nothing.
pub fn count_for_nothing()
    ensures { CountForNothing }
{}

/// Contents that are a text.
pub fn text_is_spelled()
    ensures { TextIsSpelled }
{}

/// Two clients volunteer for a task.
pub fn two_volunteers()
    ensures { TwoVolunteers }
{}

/// Who stands for a task.
pub fn standing()
    ensures { Standing }
{}

/// A queue and a task in one text.
pub fn both()
    ensures { Both }
{}
