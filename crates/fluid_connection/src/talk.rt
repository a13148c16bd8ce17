//! One connection to a service, without its wire.
ghost use Rattle.std.specs.Prelude.{◌≡◌, ◌≤◌, true, false, length, None, is_some};
ghost use Rattle.std.specs.Option.{option_or};
ghost use Rattle.fluid_types.specs.Forms.{largest};
ghost use Rattle.fluid_readback.specs.Laws.{longest_text};
ghost use Rattle.fluid_turn.specs.Entries.{made_by};
ghost use Rattle.fluid_rules.specs.Rules.{IsLegal};
ghost use Rattle.fluid_voice.specs.States.{client_id, is_connected, is_used, next_number, leave_of};
ghost use Rattle.fluid_talk.specs.Talking.{ledger_of};
ghost use Rattle.fluid_talk.specs.Hearing.{Hears};
ghost use Rattle.fluid_talk.specs.Collecting.{Collects, CollectsBy};
ghost use Rattle.fluid_talk.specs.Leaving.{Leaves, LeavesBy};
ghost use Rattle.fluid_service.specs.Keys.{Serving};
ghost use Rattle.fluid_voice.specs.declared.states.VoiceState.TheVariants.{Fresh};
ghost use Rattle.fluid_connection.specs.Talked.{pass_of, talking};

use crate::collecting::{Collected, collect_all, is_quiet, next_of};
use crate::leaving::{enter_leave, take_leave};
use fluid_doors::know;
use fluid_ends::TalkFault;
use fluid_feed::Feed;
use fluid_log::{Keeper, Shelves};
use fluid_service::{Key, Service, Visit, know_key};
use fluid_store::Objects;
use fluid_talk::{Conversation, Heard};
use fluid_voice::{Voice, VoiceState};
use std::alloc::Global;
use std::marker::Model;
use std::sync::Wait;

/// One connection to a service, without its wire: where it stands, its key, and its visits. It goes on from what the handed visit has
/// seen where it is connected to that document.
#[derive(Drop)]
pub struct Talk<B: Shelves> {
    pub(crate) voice: Voice,
    pub(crate) key: Key<B>,
    /// That of the document that was reached last.
    pub(crate) visit: Option<Visit<B::K>>,
    pub(crate) handed: Option<Visit<B::K>>,
    /// How many steps the document had before all that the pass has seen was delivered; none where some of it may not be.
    pub(crate) settled: Option<u64>,
}

impl<B: Shelves> Model for Talk<B> {
    ghost use Rattle.fluid_connection.specs.Talked.{Talked, IsTalk, HasDelivered, talked_code};

    ghost Value = { Talked };

    ghost coded = { talked_code };

    ghost view = { λ t. record { voice = t.voice; key = t.key; visit = t.visit; handed = t.handed } };

    ghost invariant = { λ t. IsTalk (record { voice = t.voice; key = t.key; visit = t.visit; handed = t.handed }) × HasDelivered (record { voice = t.voice; key = t.key; visit = t.visit; handed = t.handed }) t.settled };
}

impl<B: Shelves> Talk<B> {
    /// A connection that is connected to no document yet, with a key of its service, and perhaps a visit of a document to go on from.
    /// Takes no memory.
    pub fn new(key: Key<B>, visit: Option<Visit<B::K>>) -> Talk<B>
        ensures { result ≡ record { voice = Fresh; key = key; visit = None; handed = visit } }
    {
        Talk {
            voice: Voice::new(),
            key,
            visit: None,
            handed: visit,
            settled: None,
        }
    }
}

impl<B: Shelves> Talk<B>
where
    B::K: Drop,
{
    /// The key, and the visit of the document that was reached last, or else the one that was handed to it. Takes no memory.
    pub fn into_parts(self) -> (Key<B>, Option<Visit<B::K>>)
        ensures key { result.0 ≡ self.key }
        ensures visit { result.1 ≡ option_or self.visit self.handed }
    {
        let Talk {
            key,
            visit,
            handed,
            ..
        } = self;
        match visit {
            Some(visit) => (key, Some(visit)),
            None => (key, handed),
        }
    }

    // Collects what the document that was reached has from this number on.
    fn collect_new<R: Wait>(&mut self, rt: &R, alloc: Global, next: u64) -> Result<Feed, TalkFault>
        requires connected { is_connected self.old.voice ≡ true }
        requires next { next ≡ next_number self.old.voice }
        ensures key { self.new.key ≡ self.old.key }
        ensures does { CollectsBy (talking self.old) (talking self.new) result }
    {
        let Some(visit) = self.visit.take() else {
            unreachable!();
        };
        let (visit, answer) = collect_all(rt, alloc, visit, next);
        self.visit = Some(visit);
        self.settled = None;
        let Collected {
            events,
            next,
            steps,
        } = answer?;
        self.voice.advance(next);
        self.settled = Some(steps);
        Ok(events)
    }

    // Enters the leave of a client.
    fn leave_client<R: Wait>(&mut self, rt: &R, alloc: Global, moment: u64) -> Result<(), TalkFault>
        requires writes { is_some (client_id self.old.voice) ≡ true }
        requires moment { moment ≤ largest }
        ensures key { self.new.key ≡ self.old.key }
        ensures does { LeavesBy (talking self.old) (talking self.new) moment result }
    {
        let Some(act) = self.voice.leave(alloc, moment)? else {
            unreachable!();
        };
        let Some(visit) = self.visit.take() else {
            unreachable!();
        };
        let (visit, answer) = enter_leave(rt, alloc, visit, act);
        self.visit = Some(visit);
        self.settled = None;
        let end = answer?;
        take_leave(&mut self.voice, end);
        Ok(())
    }
}

impl<B: Shelves> Conversation for Talk<B>
where
    B::K: Drop,
{
    ghost use Rattle.std.specs.Prelude.{◌≡◌};
    ghost use Rattle.fluid_connection.specs.Talked.{talking, belongs};

    type Service = Service<B>;

    ghost seen = { talking };

    ghost belongs = { belongs };

    fn state(&self) -> &VoiceState {
        self.voice.state()
    }

    fn know(&self) {
        know_key(&self.key);
        know_visit(&self.visit);
        let _ = &self.voice;
    }

    fn hear<R: Wait, O: Objects>(
        &mut self,
        rt: &R,
        alloc: Global,
        service: &Service<B>,
        objects: &mut O,
        text: &str,
        moment: u64,
    ) -> Heard {
        self.hear_text(rt, alloc, service, objects, text, moment)
    }

    fn collect<R: Wait>(&mut self, rt: &R, alloc: Global) -> Result<Feed, TalkFault> {
        let Some(next) = next_of(self.voice.state()) else {
            return Ok(Feed::new(alloc));
        };
        if is_quiet(&self.visit, self.settled) {
            return Ok(Feed::new(alloc));
        }
        self.collect_new(rt, alloc, next)
    }

    fn leave<R: Wait>(&mut self, rt: &R, alloc: Global, moment: u64) -> Result<(), TalkFault> {
        if self.voice.writes() {
            return self.leave_client(rt, alloc, moment);
        }
        self.voice.close();
        self.settled = None;
        Ok(())
    }
}

// What holds of the pass of a visit.
fn know_visit<K: Keeper>(visit: &Option<Visit<K>>)
    ensures own { (pass_of visit.now).mine ≡ made_by (pass_of visit.now).number (pass_of visit.now).seen }
    ensures legal { (pass_of visit.now).told ≡ true → IsLegal (ledger_of (pass_of visit.now).seen) }
{
    match visit {
        Some(visit) => know(visit.pass()),
        None => {}
    }
}
