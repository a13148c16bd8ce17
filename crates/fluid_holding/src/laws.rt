//! What holds of the definitions, said by functions that do nothing.

ghost use Rattle.fluid_holding.specs.Laws.{BasedTreesAreTaken, BasedTreesAreWhole, LoadsAsDefined, OpsAreShort, OthersLeave, OwnedStaysOwned, SubmitsAsDefined, TakesInAsDefined};

use fluid_edits::laws::replay_goes_on;
use fluid_loader::laws::messages_are_replayed;
use fluid_rules::laws::{acks_are_summary_acks, orders_are_answered_in_turn};
use fluid_runtime::laws::unmarked_apps_give_no_handle;
use fluid_store::laws::{held_objects_are_left_out, what_is_fetched_stands};
use fluid_transcript::laws::containers;

/// A container that takes in the messages behind its number is the one that the world has when it has caught up.
pub fn containers_catch_up()
    ensures { TakesInAsDefined }
{
    acks_are_summary_acks();
    orders_are_answered_in_turn();
    messages_are_replayed();
    replay_goes_on();
}

/// A container that is loaded behind its client's join is the one that the world has loaded, and where none is, the world has none for
/// the same reason.
pub fn containers_load()
    ensures { LoadsAsDefined }
{
    orders_are_answered_in_turn();
    messages_are_replayed();
    containers();
}

/// Entries that its client didn't make leave a container as the world has it.
pub fn others_leave_containers()
    ensures { OthersLeave }
{
    containers();
}

/// A container's next submission, at its number, is counted as in the world, and is never one that came before.
pub fn submissions_are_counted()
    ensures { SubmitsAsDefined }
{
    containers();
}

/// What is held doesn't refuse the tree that a container uploads over its base, where that is held.
pub fn based_trees_are_taken()
    ensures { BasedTreesAreTaken }
{
    unmarked_apps_give_no_handle();
}

/// Over a store that holds each object under its own id that tree has the id of the whole one, and its objects put there leave what the
/// whole one's would.
pub fn based_trees_are_whole()
    ensures { BasedTreesAreWhole }
{
    unmarked_apps_give_no_handle();
    what_is_fetched_stands();
    held_objects_are_left_out();
}

/// A line of a script leaves a store that holds each object under its own id such a one.
pub fn owned_stays_owned()
    ensures { OwnedStaysOwned }
{}

/// The contents of an edit that is read from a line of at most 1,048,576 bytes are at most 98 deep and 2,097,152 bytes long.
pub fn ops_are_short()
    ensures { OpsAreShort }
{}
