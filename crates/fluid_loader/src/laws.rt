//! What holds of the definitions, said by functions that do nothing.
ghost use Rattle.fluid_loader.specs.Laws.{ArePickedWithin, GoOnFollowing, IsHonestRead, IsHonestVersion, IsReplayBehind, IsWholeReplay, IsWholeUpload, StayBased};

use fluid_counter::laws::content_is_read_back as counters_are_read_back;
use fluid_handles::laws::a_tree_without_handles_is_itself;
use fluid_map::laws::content_is_read_back as maps_are_read_back;
use fluid_quorum::laws::{attributes_are_read, only_blobs_are_read, quorum_goes_on};
use fluid_readback::blobs_of_messages_are_read_back;
use fluid_runtime::laws::{unchanged_channels_stay, unmarked_apps_give_no_handle};
use fluid_texts::{texts_are_printed, texts_are_read};
use fluid_tree::laws::objects_are_read_back;

/// The channels of a container behind messages are the replay of these from its channels.
pub fn messages_are_replayed()
    ensures { IsReplayBehind }
{}

/// A container that begins with nothing, or with an honest summary, and takes in the messages behind it, has the channels and
/// the quorum of the whole order, and nothing pending.
pub fn honest_summaries_are_replayed()
    ensures { IsWholeReplay }
{
    objects_are_read_back();
    maps_are_read_back();
    counters_are_read_back();
    only_blobs_are_read();
    attributes_are_read();
    quorum_goes_on();
    blobs_of_messages_are_read_back();
    unchanged_channels_stay();
    unmarked_apps_give_no_handle();
}

/// A container that follows an order goes on so, and is behind all of it once it has taken in the messages behind its number.
pub fn containers_go_on_following()
    ensures { GoOnFollowing }
{
    objects_are_read_back();
    maps_are_read_back();
    counters_are_read_back();
    only_blobs_are_read();
    attributes_are_read();
    quorum_goes_on();
    blobs_of_messages_are_read_back();
    unchanged_channels_stay();
    unmarked_apps_give_no_handle();
}

/// The number of an acknowledged summary is one of the order.
pub fn picked_numbers_are_within()
    ensures { ArePickedWithin }
{}

/// An honest summary of a number of the order is read: its version has its form.
pub fn honest_summaries_are_read()
    ensures { IsHonestRead }
{
    objects_are_read_back();
    texts_are_read();
    texts_are_printed();
    maps_are_read_back();
    counters_are_read_back();
    only_blobs_are_read();
    attributes_are_read();
    quorum_goes_on();
    blobs_of_messages_are_read_back();
    unchanged_channels_stay();
    unmarked_apps_give_no_handle();
}

/// What a container uploads over its base stands as the tree of its channels.
pub fn uploads_are_whole()
    ensures { IsWholeUpload }
{
    a_tree_without_handles_is_itself();
    unmarked_apps_give_no_handle();
}

/// The tree since which a container tells what has changed goes on standing under the id of its base.
pub fn containers_stay_based()
    ensures { StayBased }
{
    objects_are_read_back();
    unchanged_channels_stay();
    unmarked_apps_give_no_handle();
}

/// A version that is made of a tree that was uploaded is honest.
pub fn versions_of_uploads_are_honest()
    ensures { IsHonestVersion }
{}
