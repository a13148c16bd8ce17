//! A session that goes cycle by cycle: where many wires are waited for, whoever works on them runs a cycle of a session when there
//! may be something for it to do.
ghost use Rattle.std.specs.Prelude.{◌≡◌, ◌<◌, true, false, None, is_some};
ghost use Rattle.std.specs.Option.{option_or};
ghost use Rattle.fluid_store.specs.Storing.{Storing};
ghost use Rattle.fluid_lines.specs.Wires.{Wiring};
ghost use Rattle.fluid_voice.specs.States.{is_used};
ghost use Rattle.fluid_session.specs.Counted.{nothing};
ghost use Rattle.fluid_session.specs.Ends.{most_unread};
ghost use Rattle.fluid_hosting.specs.Hosting.{ComesFurther, HasCome, Cycles, unconnected};

use fluid_connection::Talk;
use fluid_io::Clock;
use fluid_lines::Wire;
use fluid_log::Shelves;
use fluid_service::{Key, Service, Visit};
use fluid_session::{Report, Tally, conclude, cycle};
use fluid_store::Objects;
use std::alloc::Global;
use std::marker::Model;
use std::sync::Wait;

/// A session between two of its cycles.
#[derive(Drop)]
pub struct Hosted<'a, B: Shelves> {
    service: &'a Service<B>,
    talk: Talk<B>,
    tally: Tally,
    is_over: bool,
}

impl<'a, B: Shelves> Model for Hosted<'a, B> {
    ghost use Rattle.std.specs.Prelude.{◌≡◌};
    ghost use Rattle.fluid_hosting.specs.Hosting.{Hosting, MayHear, hosting_code};

    ghost Value = { Hosting };

    ghost coded = { hosting_code };

    ghost view = { λ h. record { service = h.service.now; talk = h.talk; tally = h.tally; is_over = h.is_over } };

    ghost invariant = { λ h. (h.talk.key.turn ≡ h.service.now) × MayHear (record { service = h.service.now; talk = h.talk; tally = h.tally; is_over = h.is_over }) };
}

impl<'a, B: Shelves> Hosted<'a, B>
where
    B::K: Drop,
{
    /// A session of which nothing was heard yet, with a key of its service, and perhaps a visit that serves for its document.
    pub fn new(service: &'a Service<B>, key: Key<B>, visit: Option<Visit<B::K>>) -> Hosted<'a, B>
        requires key { key.turn ≡ service.now }
        ensures new { result ≡ record { service = service.now; talk = unconnected key visit; tally = nothing; is_over = false } }
        ensures begins { (store : Storing) (wire : Wiring) → HasCome key visit store store wire wire result.talk result.tally }
    {
        let talk = Talk::new(key, visit);
        let tally = Tally::new();
        Hosted {
            service,
            talk,
            tally,
            is_over: false,
        }
    }

    /// Whether it is over.
    pub fn is_over(&self) -> bool
        ensures { result ≡ self.now.is_over }
    {
        self.is_over
    }

    /// One cycle: what wasn't delivered is collected and sent, and one text is heard, where one has come in. Where that ends the session,
    /// one leave is tried, and what came of it is answered.
    pub fn cycle<R: Wait, O: Objects, W: Wire, C: Clock>(
        &mut self,
        rt: &R,
        alloc: Global,
        objects: &mut O,
        wire: &mut W,
        clock: &C,
    ) -> Option<Report>
        requires { self.old.is_over ≡ false }
        ensures service { self.new.service ≡ self.old.service }
        ensures over { self.new.is_over ≡ is_some result }
        ensures does { Cycles self.old.talk self.new.talk (O.seen objects.old) (O.seen objects.new) (W.seen wire.old) (W.seen wire.new) self.old.tally self.new.tally result }
        ensures session { ComesFurther self.old self.new (O.seen objects.old) (O.seen objects.new) (W.seen wire.old) (W.seen wire.new) result }
    {
        let report = cycle_once(
            rt,
            alloc,
            self.service,
            objects,
            wire,
            clock,
            &mut self.talk,
            &mut self.tally,
        );
        self.is_over = report.is_some();
        report
    }

    /// What comes back of one that is over: the key, and the visit of the document that was reached last, or else the one that was handed
    /// in.
    pub fn into_parts(self) -> (Key<B>, Option<Visit<B::K>>)
        requires { self.is_over ≡ true }
        ensures service { result.0.turn ≡ self.entry.service }
        ensures key { result.0 ≡ self.entry.talk.key }
        ensures visit { result.1 ≡ option_or self.entry.talk.visit self.entry.talk.handed }
    {
        let Hosted { talk, .. } = self;
        talk.into_parts()
    }
}

// One cycle, and where it ends the session, what concludes that.
fn cycle_once<R: Wait, B: Shelves, O: Objects, W: Wire, C: Clock>(
    rt: &R,
    alloc: Global,
    service: &Service<B>,
    objects: &mut O,
    wire: &mut W,
    clock: &C,
    talk: &mut Talk<B>,
    tally: &mut Tally,
) -> Option<Report>
where
    B::K: Drop,
    requires service { talk.old.key.turn ≡ service.now }
    requires unused { is_used talk.old.voice ≡ false }
    requires few { tally.old.unread < most_unread }
    ensures service { talk.new.key.turn ≡ service.now }
    ensures hears { result ≡ None → (is_used talk.new.voice ≡ false) × (tally.new.unread < most_unread) }
    ensures does { Cycles talk.old talk.new (O.seen objects.old) (O.seen objects.new) (W.seen wire.old) (W.seen wire.new) tally.old tally.new result }
{
    match cycle(rt, alloc, service, objects, wire, clock, talk, tally) {
        Ok(()) => None,
        Err(end) => Some(conclude(rt, alloc, clock, talk, *tally, end)),
    }
}
