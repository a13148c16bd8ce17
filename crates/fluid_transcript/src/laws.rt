//! Laws of what a script writes.
ghost use Rattle.fluid_transcript.specs.Laws.{WorldGrows, LinesGrow, TranscriptGrows, LeavesWhatActsLeave, SubmissionsAreOneRow};
ghost use Rattle.fluid_transcript.specs.Laws.{FirstIsSound, LinesLeave, MomentIsLines, LastGrows, ContainersStay, NothingWasTaken, HeadIsSinceBase, WordsAreOne};

use fluid_rules::laws::orders_are_answered_in_turn;

/// What one line more at the end makes of the world and writes.
pub fn one_line_more()
    ensures world { WorldGrows }
    ensures lines { LinesGrow }
    ensures transcript { TranscriptGrows }
{}

/// A connection that hears something leaves its document and the store as the acts leave them.
pub fn hearing_leaves_what_acts_leave()
    ensures { LeavesWhatActsLeave }
{}

/// The submissions of a text are entered one after another, as many as there is room for.
pub fn submissions_are_one_row()
    ensures { SubmissionsAreOneRow }
{}

/// Each world that a script reaches is sound, and a line that isn't refused adds to what there is and changes one name at most.
pub fn worlds()
    ensures first { FirstIsSound }
    ensures lines { LinesLeave }
    ensures moment { MomentIsLines }
    ensures last { LastGrows }
{}

/// What a container has of its document stays, and where it begins.
pub fn containers()
    ensures stay { ContainersStay }
    ensures nothing_taken { NothingWasTaken }
    ensures head { HeadIsSinceBase }
{
    orders_are_answered_in_turn();
}

/// The words for a line that is refused.
pub fn words()
    ensures { WordsAreOne }
{}
