//! A door with a pass of it.
ghost use Rattle.std.specs.Prelude.{◌≡◌, List, IfOk};
ghost use Rattle.std.specs.Arc.{arc_value};
ghost use Rattle.fluid_lane.specs.declared.steps.Step.{Step as AStep};
ghost use Rattle.fluid_lane.specs.Standing.{LaneStands};
ghost use Rattle.fluid_doors.specs.Terms.{terms_of};
ghost use Rattle.fluid_service.specs.Visiting.{IsSplitOf};

use fluid_doors::{Door, Pass};
use fluid_json::NoMemory;
use fluid_lane::Lane;
use fluid_log::Keeper;
use std::alloc::Global;
use std::marker::Model;
use std::sync::{Arc, Wait};

/// A door with a pass of it: what one user has of a document.
#[derive(Drop)]
pub struct Visit<K: Keeper> {
    door: Arc<Door<K>>,
    pass: Pass<K>,
}

impl<K: Keeper> Model for Visit<K> {
    ghost use Rattle.std.specs.Prelude.{◌≡◌};
    ghost use Rattle.std.specs.Arc.{arc_value};
    ghost use Rattle.fluid_service.specs.Visiting.{Visiting};
    ghost use Rattle.fluid_service.specs.Codes.{visiting_code};

    ghost Value = { Visiting };

    ghost coded = { visiting_code };

    ghost view = { λ v. record { door = arc_value v.door; pass = v.pass } };

    ghost invariant = { λ v. v.pass.turn ≡ (arc_value v.door).turn };
}

impl<K: Keeper> Visit<K> {
    pub fn new(door: Arc<Door<K>>, pass: Pass<K>) -> Visit<K>
        requires { pass.turn ≡ (arc_value door).turn }
        ensures { result ≡ record { door = arc_value door; pass = pass } }
    {
        Visit { door, pass }
    }

    pub fn door(&self) -> &Door<K>
        ensures { result.now ≡ self.now.door }
    {
        &self.door
    }

    pub fn pass(&self) -> &Pass<K>
        ensures { result.now ≡ self.now.pass }
    {
        &self.pass
    }

    /// The pass is one of the door.
    pub fn know(&self)
        ensures { self.now.pass.turn ≡ self.now.door.turn }
    {
        let _ = &self.pass;
    }

    /// The door and the pass, which is one of it.
    pub fn into_parts(self) -> (Arc<Door<K>>, Pass<K>)
        ensures parts { (arc_value result.0 ≡ self.door) × (result.1 ≡ self.pass) }
        ensures together { result.1.turn ≡ (arc_value result.0).turn }
    {
        let Visit { door, pass } = self;
        (door, pass)
    }

    /// A second visit of this document, which knows as much, with no steps of its own.
    pub fn fork(&mut self) -> Result<Visit<K>, NoMemory>
        ensures same { self.new ≡ self.old }
        ensures second { IfOk result (IsSplitOf self.old) }
    {
        let Ok(door) = Arc::try_clone(&self.door) else {
            return Err(NoMemory);
        };
        let pass = self.door.fork(&mut self.pass);
        Ok(Visit { door, pass })
    }

    /// Waits until nobody else has the door, and ends it.
    pub(crate) fn end<R: Wait>(self, rt: &R) -> Lane<K>
    where
        K: Drop,
        ensures stands { (l : List AStep) × LaneStands result l }
        ensures terms { terms_of result ≡ self.door.turn.fixed }
    {
        let Visit { door, pass } = self;
        alone(rt, door).end(rt, pass)
    }
}

// Waits until a value has one owner.
fn alone<R: Wait, T>(rt: &R, value: Arc<T>) -> T
    ensures { result ≡ arc_value value }
{
    let mut shared = value;
    for _ in rt.forever() {
        match Arc::try_unwrap(shared) {
            Ok(value) => return value,
            Err(still) => shared = still,
        }
    }
    unreachable!()
}
