//! A session on a wire, for whoever runs its cycles.
ghost use Rattle.std.specs.Prelude.{◌≡◌, false, is_some};
ghost use Rattle.fluid_serve.specs.Sittings.{IsSession};

use fluid_hints::HintWire;
use fluid_hosting::{Hosted, Report};
use fluid_io::Clock;
use fluid_lines::Wire;
use fluid_locked::{Counts, LockedObjects};
use fluid_log::Shelves;
use fluid_service::{Key, Service};
use fluid_store::Objects;
use std::alloc::Global;
use std::marker::Model;
use std::snapshot::Snapshot;
use std::sync::{Mutex, Wait};

/// A session on a wire, between two of its cycles.
#[derive(Drop)]
pub(crate) struct Sitting<'a, B: Shelves, W: Wire> {
    hosted: Hosted<'a, B>,
    wire: HintWire<'a, W>,
    // those of its own calls on the store
    counts: Counts,
    // the key and the wire as they were when the session began
    key: Snapshot<Key<B>>,
    first: Snapshot<HintWire<'a, W>>,
}

impl<'a, B: Shelves, W: Wire> Model for Sitting<'a, B, W> {
    ghost use Rattle.fluid_serve.specs.Sittings.{Sat, IsUnderWay, sat_code};

    ghost Value = { Sat };

    ghost coded = { sat_code };

    ghost view = { λ s. record { hosting = s.hosted; wire = s.wire; counts = s.counts; key = s.key.value; first = s.first.value } };

    ghost invariant = { λ s. IsUnderWay (record { hosting = s.hosted; wire = s.wire; counts = s.counts; key = s.key.value; first = s.first.value }) };
}

impl<'a, B: Shelves, W: Wire> Sitting<'a, B, W>
where
    B::K: Drop,
{
    /// A session of which nothing was heard yet, with a key of its own and no visit.
    pub(crate) fn new(service: &'a Service<B>, wire: HintWire<'a, W>) -> Sitting<'a, B, W>
        ensures service { result.hosting.service ≡ service.now }
        ensures over { result.hosting.is_over ≡ false }
        ensures wire { (result.wire ≡ wire.entry) × (result.first ≡ wire.entry) }
    {
        let key = service.key();
        let first_key = Snapshot::of(&key);
        let first = Snapshot::of(&wire);
        let hosted = Hosted::new(service, key, None);
        let counts = Counts::new();
        Sitting {
            hosted,
            wire,
            counts,
            key: first_key,
            first,
        }
    }

    pub(crate) fn is_over(&self) -> bool
        ensures { result ≡ self.now.hosting.is_over }
    {
        self.hosted.is_over()
    }

    /// Whether the wire is free for one more cycle.
    pub(crate) fn is_free<R: Wait>(&mut self, rt: &R) -> bool
        ensures { self.new ≡ self.old }
    {
        self.wire.is_free(rt)
    }

    /// Whether the wire has handed on what it holds.
    pub(crate) fn is_handed_on<R: Wait>(&mut self, rt: &R) -> bool
        ensures { self.new ≡ self.old }
    {
        self.wire.is_handed_on(rt)
    }

    /// One cycle. Where it is the last one, all of them are one whole session of the wire, and what came of that is answered.
    pub(crate) fn cycle<R: Wait, O: Objects, C: Clock>(
        &mut self,
        rt: &R,
        alloc: Global,
        objects: &Mutex<O>,
        clock: &C,
    ) -> Option<Report>
        requires { self.old.hosting.is_over ≡ false }
        ensures over { self.new.hosting.is_over ≡ is_some result }
        ensures same { (self.new.hosting.service ≡ self.old.hosting.service) × ((self.new.key ≡ self.old.key) × (self.new.first ≡ self.old.first)) }
        ensures session { IsSession self.new result }
    {
        let mut store = LockedObjects::behind(rt, objects, self.counts);
        let report = self
            .hosted
            .cycle(rt, alloc, &mut store, &mut self.wire, clock);
        self.counts = store.counts();
        report
    }
}
