//! What is done with the store about a summary that is pending.
ghost use Rattle.std.specs.Prelude.{◌≡◌, Some, true};
ghost use Rattle.fluid_store.specs.Keeping.{Counts};
ghost use Rattle.fluid_versions.specs.Versions.{PutsVersion};

use crate::listing::list_objects;
use fluid_scribe::Job;
use fluid_store::{Objects, StoreFault, complete, store_objects};
use fluid_tree::Id;
use std::alloc::Global;

/// Whether the tree of the pending summary is held, where the answer depends on that. Where it is, the objects of its version
/// are put: the blobs of `.protocol`, its tree, and the version's. Those before a clash stay.
pub fn put_version<O: Objects>(
    alloc: Global,
    objects: &mut O,
    job: &Job,
) -> Result<bool, StoreFault>
    ensures counts { Counts (O.seen objects.old) (O.seen objects.new) }
    ensures puts { PutsVersion job.now (O.seen objects.old) (O.seen objects.new) result }
{
    if !job.needs_storage {
        return Ok(false);
    }
    match &job.app {
        Some(app) => put_found(alloc, objects, app, job),
        None => Ok(false),
    }
}

// The same where the tree has this id.
fn put_found<O: Objects>(
    alloc: Global,
    objects: &mut O,
    app: &Id,
    job: &Job,
) -> Result<bool, StoreFault>
    requires app { job.now.app ≡ Some app.now }
    requires needs { job.now.needs_storage ≡ true }
    ensures counts { Counts (O.seen objects.old) (O.seen objects.new) }
    ensures puts { PutsVersion job.now (O.seen objects.old) (O.seen objects.new) result }
{
    match complete(alloc, objects, app) {
        Ok(true) => {
            let list = list_objects(alloc, app, &job.protocol)?;
            match store_objects(alloc, objects, list.as_slice()) {
                Ok(()) => Ok(true),
                Err(fault) => Err(fault),
            }
        }
        Ok(false) => Ok(false),
        Err(fault) => Err(fault),
    }
}
