//! The adapter.
ghost use Rattle.std.specs.Prelude.{◌≡◌, ◌≤◌};
ghost use Rattle.fluid_io.specs.Causes.{one_more};
ghost use Rattle.fluid_store.specs.Storing.{IsCounted};
ghost use Rattle.fluid_locked.specs.Locked.{faults_after};

use crate::counts::Counts;
use fluid_json::Bytes;
use fluid_store::{ObjectFault, Objects};
use fluid_tree::Id;
use std::alloc::Global;
use std::marker::Model;
use std::sync::{Mutex, Wait};

/// The objects behind a lock, for one of its users. It tells nothing of what is held, since others may change it between two calls,
/// and its counts are those of its own calls.
#[derive(Drop)]
pub struct LockedObjects<'a, R: Wait, O: Objects> {
    rt: &'a R,
    objects: &'a Mutex<O>,
    faults: u64,
    gets: u64,
}

impl<'a, R: Wait, O: Objects> Model for LockedObjects<'a, R, O> {
    ghost use Rattle.fluid_locked.specs.declared.counts.Counts.{Counts};

    ghost Value = { Counts };

    ghost view = { λ o. record { faults = o.faults; gets = o.gets } };
}

impl<'a, R: Wait, O: Objects> LockedObjects<'a, R, O> {
    /// The objects behind this lock, of which no call was made.
    pub fn new(rt: &'a R, objects: &'a Mutex<O>) -> LockedObjects<'a, R, O>
        ensures { result ≡ record { faults = 0; gets = 0 } }
    {
        LockedObjects::behind(rt, objects, Counts::new())
    }

    /// The same for a user who made calls before, and counted these.
    pub fn behind(rt: &'a R, objects: &'a Mutex<O>, counts: Counts) -> LockedObjects<'a, R, O>
        ensures { result ≡ counts }
    {
        let Counts { faults, gets } = counts;
        LockedObjects {
            rt,
            objects,
            faults,
            gets,
        }
    }

    /// What its user counted so far.
    pub fn counts(&self) -> Counts
        ensures { result ≡ self.now }
    {
        Counts {
            faults: self.faults,
            gets: self.gets,
        }
    }
}

impl<'a, R: Wait, O: Objects> Objects for LockedObjects<'a, R, O> {
    ghost use Rattle.fluid_locked.specs.Locked.{locked};

    ghost seen = { λ o. locked o.faults o.gets };

    fn get(&mut self, alloc: Global, id: &Id) -> Result<Option<Bytes>, ObjectFault> {
        self.gets = one_more(self.gets);
        let answer = self.objects.lock(self.rt).get(alloc, id);
        self.faults = counted(self.faults, &answer);
        answer
    }

    fn put(&mut self, alloc: Global, id: &Id, bytes: &[u8]) -> Result<(), ObjectFault> {
        let answer = self.objects.lock(self.rt).put(alloc, id, bytes);
        self.faults = counted(self.faults, &answer);
        answer
    }

    fn faults(&self) -> u64 {
        self.faults
    }
}

// A count of faults behind an answer.
fn counted<A>(faults: u64, answer: &Result<A, ObjectFault>) -> u64
    ensures is { result ≡ faults_after faults answer.now }
    ensures later { faults ≤ result }
{
    match answer {
        Err(ObjectFault::Failed) => one_more(faults),
        Err(ObjectFault::NoMemory) => faults,
        Ok(_) => faults,
    }
}

// A count that has gone up by one. At the end of its type it stands still.
fn one_more(count: u64) -> u64
    ensures is { result ≡ one_more count }
    ensures counted { IsCounted count result }
{
    count.saturating_add(1)
}
