// What comes of a text.
ghost use Rattle.std.specs.Prelude.{◌≡◌, ◌≤◌, true, false, length, All, Some};
ghost use Rattle.fluid_types.specs.Forms.{largest};
ghost use Rattle.fluid_readback.specs.Laws.{longest_text};
ghost use Rattle.fluid_service.specs.Keys.{Serving};
ghost use Rattle.fluid_voice.specs.Fitting.{IsFitting};
ghost use Rattle.fluid_voice.specs.States.{is_connected, is_used};
ghost use Rattle.fluid_talk.specs.Hearing.{Hears};
ghost use Rattle.fluid_connection.specs.Knowing.{knowing};
ghost use Rattle.fluid_connection.specs.Talked.{pass_of, talking, belongs, StaysBut};
ghost use Rattle.fluid_connection.specs.Hearing.{AreAskedAtOnce, AreAskedApart, begin_with_entry, AreSole, listed, HearsActs, HearsOther, IsHeardOf};

use crate::asking::do_one;
use crate::connecting::Connect;
use crate::entering::enter_all;
use crate::laws::{connected_ones_ask, others_ask};
use crate::talk::Talk;
use crate::telling::{Answered, say_one};
use fluid_ends::TalkFault;
use fluid_log::{Keeper, Shelves};
use fluid_service::{Service, Visit};
use fluid_store::Objects;
use fluid_talk::Heard;
use fluid_voice::laws::{connected_ones_stay, replies_are_no_events};
use fluid_voice::{Act, ActEnd, Acts, Replies, Voice, is_connected};
use std::alloc::Global;
use std::sync::Wait;

impl<B: Shelves> Talk<B>
where
    B::K: Drop,
{
    /// Hears a text at a moment, in milliseconds: does what it asks for, and gives the replies.
    pub(crate) fn hear_text<R: Wait, O: Objects>(
        &mut self,
        rt: &R,
        alloc: Global,
        service: &Service<B>,
        objects: &mut O,
        text: &str,
        moment: u64,
    ) -> Heard
        requires service { belongs self.old service.now }
        requires unused { is_used self.old.voice ≡ false }
        requires short { length text.now ≤ longest_text }
        requires moment { moment ≤ largest }
        ensures service { (x : Serving) → belongs self.old x → belongs self.new x }
        ensures does { Hears (talking self.old) (talking self.new) (O.seen objects.old) (O.seen objects.new) text.now moment result }
    {
        // (a law, and no work: its clause is for the proof)
        connected_ones_ask();
        connected_ones_stay();
        others_ask();
        replies_are_no_events();
        let acts = match self.voice.acts(alloc, text, moment) {
            Ok(acts) => acts,
            Err(_) => return heard(Answered::new(alloc), Some(TalkFault::NoMemory)),
        };
        if is_connected(self.voice.state()) {
            let (told, fault) = self.hear_connected(rt, alloc, objects, acts);
            return heard(told, fault);
        }
        let (told, fault) = self.hear_apart(rt, alloc, service, acts);
        heard(told, fault)
    }

    // The acts of a text of one that is connected.
    fn hear_connected<R: Wait, O: Objects>(
        &mut self,
        rt: &R,
        alloc: Global,
        objects: &mut O,
        acts: Acts,
    ) -> (Answered, Option<TalkFault>)
        requires connected { is_connected self.old.voice ≡ true }
        requires asked { AreAskedAtOnce acts }
        requires fit { All IsFitting acts }
        ensures stays { StaysBut self.old self.new }
        ensures does { HearsActs self.old.voice (pass_of self.old.visit) (pass_of self.new.visit) (O.seen objects.old) (O.seen objects.new) acts result.0 result.1 }
    {
        let Some(visit) = self.visit.take() else {
            unreachable!()
        };
        let (visit, told, fault) = do_acts(rt, alloc, &mut self.voice, visit, objects, acts);
        self.visit = Some(visit);
        self.settled = None;
        (told, fault)
    }

    // The acts of a text of one that isn't: one reply, or one connect.
    fn hear_apart<R: Wait>(
        &mut self,
        rt: &R,
        alloc: Global,
        service: &Service<B>,
        acts: Acts,
    ) -> (Answered, Option<TalkFault>)
        requires service { belongs self.old service.now }
        requires unused { is_used self.old.voice ≡ false }
        requires apart { is_connected self.old.voice ≡ false }
        requires asked { AreAskedApart acts }
        requires fit { All IsFitting acts }
        ensures service { (x : Serving) → belongs self.old x → belongs self.new x }
        ensures does { HearsOther (talking self.old) (talking self.new) acts result.0 result.1 }
    {
        match sole(acts) {
            None => (Answered::new(alloc), None),
            Some(Act::Say(reply)) => {
                let replies = self.voice.take(alloc, Act::Say(reply), ActEnd::Said);
                say_one(alloc, replies)
            }
            Some(
                Act::Connect {
                    name,
                    write,
                    scopes,
                    detail,
                    moment,
                },
            ) => {
                let connect = Connect {
                    name,
                    write,
                    scopes,
                    detail,
                    moment,
                };
                self.connect(rt, alloc, service, connect)
            }
            Some(Act::Enter(_)) => unreachable!(),
            Some(Act::Deltas(_, _)) => unreachable!(),
            Some(Act::Summary(_)) => unreachable!(),
            Some(Act::GetObject(_)) => unreachable!(),
            Some(Act::PutObject(_)) => unreachable!(),
        }
    }
}

// The acts of a text of one that is connected: all of them are entries, or there is one alone.
fn do_acts<R: Wait, K: Keeper, O: Objects>(
    rt: &R,
    alloc: Global,
    voice: &mut Voice,
    visit: Visit<K>,
    objects: &mut O,
    acts: Acts,
) -> (Visit<K>, Answered, Option<TalkFault>)
    requires asked { AreAskedAtOnce acts }
    requires fit { All IsFitting acts }
    ensures same { voice.new ≡ voice.old }
    ensures door { result.0.door ≡ visit.door }
    ensures few { length visit.pass.seen ≤ largest → length result.0.pass.seen ≤ largest }
    ensures does { HearsActs voice.old (knowing visit.door.name visit.pass) (knowing result.0.door.name result.0.pass) (O.seen objects.old) (O.seen objects.new) acts result.1 result.2 }
{
    let (door, pass) = visit.into_parts();
    if begin_with_entry(acts.as_slice()) {
        let (pass, told, fault) = enter_all(rt, alloc, &door, voice, pass, acts.into_vec());
        return (Visit::new(door, pass), told, fault);
    }
    let Some(act) = sole(acts) else {
        unreachable!()
    };
    let (pass, told, fault) = do_one(rt, alloc, &door, voice, pass, objects, act);
    (Visit::new(door, pass), told, fault)
}

// Whether the first act, if there is one, is an entry.
fn begin_with_entry(acts: &[Act]) -> bool
    ensures { result ≡ begin_with_entry acts.now }
{
    match acts.first() {
        None => true,
        Some(Act::Enter(_)) => true,
        Some(Act::Say(_)) => false,
        Some(Act::Connect { .. }) => false,
        Some(Act::Deltas(_, _)) => false,
        Some(Act::Summary(_)) => false,
        Some(Act::GetObject(_)) => false,
        Some(Act::PutObject(_)) => false,
    }
}

// The act that stands alone, if there is one.
fn sole(acts: Acts) -> Option<Act>
    requires { AreSole acts }
    ensures { acts ≡ listed result }
{
    let mut acts = acts.into_vec();
    acts.pop()
}

fn heard(told: Answered, fault: Option<TalkFault>) -> Heard
    ensures { IsHeardOf told fault result }
{
    let Answered {
        replies,
        counts,
        ..
    } = told;
    Heard {
        replies: Replies::new(replies),
        sequenced: counts.sequenced,
        dropped: counts.dropped,
        nacked: counts.nacked,
        absorbed: counts.absorbed,
        fault,
    }
}
