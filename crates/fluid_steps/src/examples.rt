//! Worked examples of steps, each computed from the grammar.
ghost use Rattle.fluid_steps.specs.Examples.{OneOfEach, Blanks, Outside, Edits};

/// One line of each step and of each edit, blanks that are too many, and words that are outside their form.
pub fn lines_and_steps()
    ensures each { OneOfEach }
    ensures blanks { Blanks }
    ensures outside { Outside }
    ensures edits { Edits }
{}
