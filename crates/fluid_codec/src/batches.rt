// The submissions of an event, alone and in lists, as one list in their order.
ghost use Rattle.std.specs.Prelude.{◌≡◌, [], Ok, Err};
ghost use Rattle.fluid_json.specs.Unless.{IsUnless};
ghost use Rattle.fluid_json.specs.Tree.{trees};
ghost use Rattle.fluid_codec.specs.Behind.{behind};
ghost use Rattle.fluid_codec.specs.Events.{each, alone, batch, batches};

use crate::records::submission;
use fluid_json::{Items, Json};
use fluid_types::{CodecFault, Field, Submissions, What};
use std::alloc::Global;

/// A list of submissions and lists of submissions.
#[tactic(auto, using(crate::proofs::Each::behind_none))]
pub(crate) fn batches(alloc: Global, value: Json, field: Field) -> Result<Submissions, CodecFault>
    ensures { IsUnless CodecFault.NoMemory result (batches field value) }
{
    match value.into_list() {
        Some(items) => with_batches(alloc, Submissions::new(Vec::new(alloc)), items, field),
        None => Err(CodecFault::BadField(field, What::NotList)),
    }
}

#[tactic(auto, using(crate::proofs::Each::item_read, crate::proofs::Each::item_refused, crate::proofs::Each::no_item))]
fn with_batches(
    alloc: Global,
    read: Submissions,
    items: Items,
    field: Field,
) -> Result<Submissions, CodecFault>
    ensures { IsUnless CodecFault.NoMemory result (behind read (each (batch field) (trees items))) }
{
    let mut read = read;
    for item in items.into_vec() {
        read = with_batch(alloc, read, item, field)?;
    }
    Ok(read)
}

fn with_batch(
    alloc: Global,
    read: Submissions,
    item: Json,
    field: Field,
) -> Result<Submissions, CodecFault>
    ensures { IsUnless CodecFault.NoMemory result (behind read (batch field item)) }
{
    if item.as_list().is_none() {
        return with_submission(alloc, read, item, field);
    }
    match item.into_list() {
        Some(items) => with_submissions(alloc, read, items, field),
        None => Ok(read),
    }
}

#[tactic(auto, using(crate::proofs::Each::item_read, crate::proofs::Each::item_refused, crate::proofs::Each::no_item))]
fn with_submissions(
    alloc: Global,
    read: Submissions,
    items: Items,
    field: Field,
) -> Result<Submissions, CodecFault>
    ensures { IsUnless CodecFault.NoMemory result (behind read (each (alone field) (trees items))) }
{
    let mut read = read;
    for item in items.into_vec() {
        read = with_submission(alloc, read, item, field)?;
    }
    Ok(read)
}

fn with_submission(
    alloc: Global,
    read: Submissions,
    item: Json,
    field: Field,
) -> Result<Submissions, CodecFault>
    ensures { IsUnless CodecFault.NoMemory result (behind read (alone field item)) }
{
    let submission = submission(alloc, item, field)?;
    let mut read = read;
    read.push(submission)?;
    Ok(read)
}
