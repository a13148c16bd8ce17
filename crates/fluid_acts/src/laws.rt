// What holds of acts that are done one after another, said by functions that do nothing.
ghost use Rattle.fluid_acts.specs.Laws.{AddsAsDefined, FullStaysAtLane};

use fluid_lane::lanes_say_their_ledgers;

/// What an act adds to a document whose keeper tells its content is what the definition of acts says.
pub fn acts_add_as_defined()
    ensures { AddsAsDefined }
{
    lanes_say_their_ledgers();
}

/// Behind a submission that a full document refuses, the next one is refused too.
pub fn full_stays_at_lanes()
    ensures { FullStaysAtLane }
{}
