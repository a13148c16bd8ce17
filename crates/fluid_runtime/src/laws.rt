//! What holds of the definitions, said by functions that do nothing.

ghost use Rattle.fluid_runtime.specs.Laws.{IsMarked, IsReadBack, IsReadBackInAnyOrder, IsResolved, IsWholeUnmarked, StaysSince, StaysUnmarked};

use fluid_counter::laws::content_is_read_back as counters_are_read_back;
use fluid_map::laws::content_is_read_back as maps_are_read_back;

/// The channels that the tree of a summary keeps are read back, where counters lie within plus or minus 2^120 and the values
/// of maps are at most 99 deep.
pub fn channels_are_read_back()
    ensures { IsReadBack }
{
    maps_are_read_back();
    counters_are_read_back();
}

/// The same holds of a tree in which the channels stand in another order, as Git puts them.
pub fn channels_are_read_back_in_any_order()
    ensures { IsReadBackInAnyOrder }
{
    maps_are_read_back();
    counters_are_read_back();
}

/// A channel that is said not to have changed since a mark is the one of the mark.
pub fn unchanged_channels_stay()
    ensures marked { IsMarked }
    ensures stays { StaysSince }
{}

/// The handles of a tree that tells what has changed since a mark name the right nodes of the tree at the mark.
pub fn handles_are_resolved()
    ensures { IsResolved }
{}

/// Without a mark each channel is said to have changed, and the tree that tells what has changed has no handle.
pub fn unmarked_apps_give_no_handle()
    ensures stays { StaysUnmarked }
    ensures whole { IsWholeUnmarked }
{}
