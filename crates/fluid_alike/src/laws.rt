//! What holds of the definitions, said by functions that do nothing.

ghost use Rattle.fluid_alike.specs.Alike.{WorkloadsEndSame};

use fluid_holding::containers_load;
use fluid_loader::laws::{
    containers_stay_based, honest_summaries_are_read, honest_summaries_are_replayed,
    messages_are_replayed, versions_of_uploads_are_honest,
};
use fluid_orders::orders_are_told;
use fluid_rules::laws::{
    acks_grow, answers_say_what_is_meant, orders_are_answered_in_turn, pending_is_least,
};
use fluid_store::laws::what_stands_goes_on_standing;
use fluid_tree::laws::ids_are_read_back;
use fluid_turns::laws::submissions_leave_all;

/// Behind all acts of a workload, from a world in which its document has no entry, both containers have the same state, and the last
/// line of the summary is `loaded same`.
pub fn workloads_end_same()
    ensures { WorkloadsEndSame }
{
    what_stands_goes_on_standing();
    acks_grow();
    messages_are_replayed();
    containers_stay_based();
    ids_are_read_back();
    orders_are_told();
    answers_say_what_is_meant();
    pending_is_least();
    orders_are_answered_in_turn();
    versions_of_uploads_are_honest();
    submissions_leave_all();
    containers_load();
    honest_summaries_are_read();
    honest_summaries_are_replayed();
}
