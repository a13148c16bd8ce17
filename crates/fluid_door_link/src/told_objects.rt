//! A store of objects that tells what it holds only where that may be told.
ghost use Rattle.std.specs.Prelude.{◌≡◌, true};
ghost use Rattle.fluid_door_link.specs.Hushing.{hushed, IsHushed, IsShortAsTold};

use fluid_json::Bytes;
use fluid_store::{ObjectFault, Objects};
use fluid_tale::Tale;
use fluid_tree::Id;
use std::alloc::Global;
use std::marker::Model;

/// An object of so many bytes isn't put.
const TOO_LONG: usize = 1 << 53;

/// A store of objects that tells what it holds only where that may be told, and takes no object of 2^53 bytes or more.
#[derive(Drop)]
pub struct ToldObjects<O: Objects> {
    objects: O,
    may: Tale<bool>,
}

impl<O: Objects> Model for ToldObjects<O> {
    ghost use Rattle.fluid_store.specs.Storing.{Storing};

    ghost Value = { Storing };

    ghost use Rattle.fluid_door_link.specs.Codes.{storing_code};

    ghost coded = { storing_code };

    ghost use Rattle.fluid_door_link.specs.Hushing.{hushed, IsShortAsTold};

    ghost view = { λ o. hushed o.may.value (O.seen o.objects) };

    ghost invariant = { λ o. IsShortAsTold (hushed o.may.value (O.seen o.objects)) };
}

impl<O: Objects> ToldObjects<O> {
    /// A store that tells what this one tells where `may` says so.
    pub fn new(objects: O, may: Tale<bool>) -> ToldObjects<O>
        requires { may.value ≡ true → IsShortAsTold (O.seen objects) }
        ensures { result ≡ hushed may.value (O.seen objects) }
    {
        ToldObjects { objects, may }
    }

    /// The store itself.
    pub fn into_inner(self) -> O
        ensures { IsHushed (O.seen result) self }
    {
        let ToldObjects { objects, .. } = self;
        objects
    }

    /// What is told of is short.
    pub fn know(&self)
        ensures { IsShortAsTold self.now }
    {
        let _ = &self.objects;
    }
}

impl<O: Objects> Objects for ToldObjects<O> {
    ghost seen = { λ o. o };

    fn get(&mut self, alloc: Global, id: &Id) -> Result<Option<Bytes>, ObjectFault> {
        self.objects.get(alloc, id)
    }

    fn put(&mut self, alloc: Global, id: &Id, bytes: &[u8]) -> Result<(), ObjectFault> {
        if bytes.len() >= TOO_LONG {
            return Err(ObjectFault::NoMemory);
        }
        self.objects.put(alloc, id, bytes)
    }

    fn faults(&self) -> u64 {
        self.objects.faults()
    }
}
