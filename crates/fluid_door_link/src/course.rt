//! What became of a lane and a store since they were lent.
ghost use Rattle.std.specs.Prelude.{◌≡◌, Bool, None, Some, MatchOption, false, true};
ghost use Rattle.fluid_store.specs.Storing.{Storing};
ghost use Rattle.fluid_lane.specs.Standing.{Standing};
ghost use Rattle.fluid_door_link.specs.Coursing.{HasStood, IsAlong};
ghost use Rattle.fluid_door_link.specs.Unlent.{unlent_lane, unlent_store};

use crate::fault::LentFault;
use crate::told_objects::ToldObjects;
use fluid_lane::Lane;
use fluid_log::Keeper;
use fluid_store::Objects;
use std::marker::{Brand, Model, PhantomData};
use std::snapshot::Snapshot;

/// A lane and a store as they were lent, and whether the lane stood for a list then. The proof of each call picks it.
pub trait Begun {
    ghost good: { Bool };

    ghost began: { Standing };

    ghost before: { Storing };
}

impl Begun for Brand {
    ghost good = { false };

    ghost began = { unlent_lane };

    ghost before = { unlent_store };
}

/// A lane and a store as they are now, and why a call on them failed, if one did. It has no bytes but the last.
#[derive(Drop)]
pub struct Course<K: Keeper, O: Objects, W: Begun> {
    lane: Snapshot<Lane<K>>,
    objects: Snapshot<ToldObjects<O>>,
    stop: Option<LentFault>,
    of: PhantomData<W>,
}

impl<K: Keeper, O: Objects, W: Begun> Model for Course<K, O, W> {
    ghost use Rattle.fluid_door_link.specs.Coursing.{Along, along_code, IsAlong};

    ghost Value = { Along };

    ghost coded = { along_code };

    ghost view = { λ c. record { lane = c.lane.value; store = c.objects.value; stop = c.stop } };

    ghost invariant = { λ c. IsAlong W.good W.began W.before (record { lane = c.lane.value; store = c.objects.value; stop = c.stop }) };
}

impl<K: Keeper, O: Objects, W: Begun> Course<K, O, W> {
    /// They are as they were lent.
    pub fn begin(lane: &Lane<K>, objects: &ToldObjects<O>) -> Course<K, O, W>
        requires lane { lane.now ≡ W.began }
        requires store { objects.now ≡ W.before }
        requires stood { W.good ≡ true → HasStood W.began }
        ensures { result ≡ record { lane = lane.now; store = objects.now; stop = None } }
    {
        Course {
            lane: Snapshot::of(lane),
            objects: Snapshot::of(objects),
            stop: None,
            of: PhantomData,
        }
    }

    /// What became of them.
    pub fn know(&self)
        ensures { IsAlong W.good W.began W.before self.now }
    {
        let _ = &self.stop;
    }

    /// Whether a call failed.
    pub(crate) fn is_stopped(&self) -> bool
        ensures { MatchOption self.now.stop (result ≡ false) (λ _. result ≡ true) }
    {
        self.stop.is_some()
    }

    /// They went on.
    pub(crate) fn follow(&mut self, lane: &Lane<K>, objects: &ToldObjects<O>)
        requires { IsAlong W.good W.began W.before (record { lane = lane.now; store = objects.now; stop = None }) }
        ensures { self.new ≡ record { lane = lane.now; store = objects.now; stop = None } }
    {
        self.lane = Snapshot::of(lane);
        self.objects = Snapshot::of(objects);
        self.stop = None;
    }

    /// A call failed.
    pub(crate) fn fail(&mut self, lane: &Lane<K>, objects: &ToldObjects<O>, fault: LentFault)
        requires { IsAlong W.good W.began W.before (record { lane = lane.now; store = objects.now; stop = Some fault }) }
        ensures { self.new ≡ record { lane = lane.now; store = objects.now; stop = Some fault } }
    {
        self.lane = Snapshot::of(lane);
        self.objects = Snapshot::of(objects);
        self.stop = Some(fault);
    }

    /// Why a call failed, if one did.
    pub fn into_stop(self) -> Option<LentFault>
        ensures { result ≡ self.stop }
    {
        let Course { stop, .. } = self;
        stop
    }
}
