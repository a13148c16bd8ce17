//! What holds of the definitions, said by functions that do nothing.

ghost use Rattle.fluid_map.specs.Laws.{IsLastWord, IsReplayedOn, IsMasked, IsReadBack, IsOnlyContent};

use fluid_json::laws::printed_is_read_back;

/// A replay gives each key what the last operation on it says.
pub fn last_word_decides()
    ensures { IsLastWord }
{}

/// To replay some operations and then others is to replay them all.
pub fn replay_goes_on()
    ensures { IsReplayedOn }
{}

/// What is shown under a key of which a pending change speaks is the same whatever is acknowledged.
pub fn pending_changes_mask()
    ensures { IsMasked }
{}

/// The content of a map whose values are at most 99 deep is read back as that map.
pub fn content_is_read_back()
    ensures { IsReadBack }
{
    printed_is_read_back();
}

/// A text that is read is the content of the map that it is read as.
pub fn only_content_is_read()
    ensures { IsOnlyContent }
{}
