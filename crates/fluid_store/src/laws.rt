//! What holds of the definitions, said by functions that do nothing.

ghost use Rattle.fluid_store.specs.Laws.{GoesOnStanding, IsCompleteWhereHeld, IsFetchedStanding, IsResolvedStanding, NothingIsComplete, OneBlob, StaysComplete, HeldOnesAreLeftOut};

use fluid_tree::laws::{
    names_that_are_read_are_names, objects_are_read_back, only_objects_are_read,
};

/// What stands goes on standing where all that is held is kept.
pub fn what_stands_goes_on_standing()
    ensures { GoesOnStanding }
{}

/// What is complete stays complete where all that is held is kept.
pub fn what_is_complete_stays_complete()
    ensures { StaysComplete }
{}

/// In an empty store nothing is complete.
pub fn nothing_is_complete_in_an_empty_store()
    ensures { NothingIsComplete }
{}

/// A blob stands and is complete where its object alone is held.
pub fn one_blob_is_complete()
    ensures { OneBlob }
{
    objects_are_read_back();
}

/// What is read under an id stands there.
pub fn what_is_fetched_stands()
    ensures { IsFetchedStanding }
{
    only_objects_are_read();
    names_that_are_read_are_names();
}

/// A tree whose objects are held, as they are after it was uploaded, is complete under its id, if each of them has fewer
/// than 2^53 bytes.
pub fn what_is_uploaded_is_complete()
    ensures { IsCompleteWhereHeld }
{
    objects_are_read_back();
}

/// Where the objects of a tree were added, the tree stands with its handles resolved in the earlier one.
pub fn what_is_resolved_stands()
    ensures { IsResolvedStanding }
{
    only_objects_are_read();
    names_that_are_read_are_names();
}

/// An object that is held already may be left out of those that are put, wherever it stands.
pub fn held_objects_are_left_out()
    ensures { HeldOnesAreLeftOut }
{}
