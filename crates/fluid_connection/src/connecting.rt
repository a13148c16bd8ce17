// How a document is reached.
ghost use Rattle.std.specs.Prelude.{◌≡◌, ◌≤◌, ◌∷◌, [], true, false, if◌then◌else◌, None};
ghost use Rattle.fluid_types.specs.Forms.{largest};
ghost use Rattle.fluid_service.specs.Keys.{Serving};
ghost use Rattle.fluid_voice.specs.declared.states.VoiceState.TheVariants.{Fresh};
ghost use Rattle.fluid_voice.specs.States.{is_connected};
ghost use Rattle.fluid_talk.specs.Causes.{IsConnect};
ghost use Rattle.fluid_connection.specs.Talked.{talking, belongs};
ghost use Rattle.fluid_connection.specs.Entering.{joined};
ghost use Rattle.fluid_connection.specs.Hearing.{HearsOther};
ghost use Rattle.fluid_connection.specs.Connecting.{act_of, name_of, FitsJoin, Splits, ReachesBy, Greets, MaySettle, Settles, IsRefused};

use crate::asking::look;
use crate::talk::Talk;
use crate::telling::{Answered, say_one};
use fluid_acts::refused;
use fluid_ends::TalkFault;
use fluid_json::{Json, NoMemory};
use fluid_lane::LaneFault;
use fluid_log::{Keeper, Shelves};
use fluid_service::{DoorFault, Service, Visit};
use fluid_types::{ClientId, DocName, Message, Scopes};
use fluid_voice::{Act, ActEnd, ConnectRefusal, VoiceState, is_connected};
use std::alloc::Global;
use std::mem;
use std::sync::Wait;

/// A connect that was heard: its parts are those of the act.
#[derive(Drop)]
pub(crate) struct Connect {
    pub(crate) name: DocName,
    pub(crate) write: bool,
    pub(crate) scopes: Scopes,
    pub(crate) detail: Json,
    pub(crate) moment: u64,
}

impl<B: Shelves> Talk<B>
where
    B::K: Drop,
{
    /// Connects to a document: by the visit that was handed in where it is of this document, and else by one of the service.
    pub(crate) fn connect<R: Wait>(
        &mut self,
        rt: &R,
        alloc: Global,
        service: &Service<B>,
        connect: Connect,
    ) -> (Answered, Option<TalkFault>)
        requires service { belongs self.old service.now }
        requires fresh { self.old.voice ≡ Fresh }
        requires fits { FitsJoin connect }
        requires moment { connect.moment ≤ largest }
        ensures service { (x : Serving) → belongs self.old x → belongs self.new x }
        ensures does { HearsOther (talking self.old) (talking self.new) (act_of connect ∷ []) result.0 result.1 }
    {
        match self.reach(rt, alloc, service, &connect.name, connect.moment) {
            Ok(visit) => {
                let write = connect.write;
                let (visit, name, answer) = greet(rt, alloc, visit, connect);
                self.settle(alloc, visit, name, write, answer)
            }
            Err(DoorFault::TooManyDocuments(_)) => self.refuse(alloc, connect),
            Err(DoorFault::ShelfFailed(note)) => {
                let fault = TalkFault::Door(DoorFault::ShelfFailed(note));
                (Answered::new(alloc), Some(fault))
            }
            Err(DoorFault::Lane(fault)) => {
                let fault = TalkFault::Door(DoorFault::Lane(fault));
                (Answered::new(alloc), Some(fault))
            }
            Err(DoorFault::NoMemory) => (Answered::new(alloc), Some(TalkFault::NoMemory)),
        }
    }

    // A visit of the document.
    fn reach<R: Wait>(
        &mut self,
        rt: &R,
        alloc: Global,
        service: &Service<B>,
        name: &DocName,
        moment: u64,
    ) -> Result<Visit<B::K>, DoorFault>
        requires service { belongs self.old service.now }
        requires moment { moment ≤ largest }
        ensures same { self.new ≡ record self.old { key = self.new.key } }
        ensures service { (x : Serving) → belongs self.old x → belongs self.new x }
        ensures reached { ReachesBy name.now self.old.handed self.old.key self.new.key result }
    {
        match split(&mut self.handed, name) {
            Some(Ok(visit)) => Ok(visit),
            Some(Err(_)) => Err(DoorFault::NoMemory),
            None => {
                let key = mem::replace(&mut self.key, service.key());
                let (key, answer) = service.door(rt, alloc, key, name, moment);
                self.key = key;
                answer
            }
        }
    }

    // Notes what a document answered, and says it. Who is connected has no need any more of a visit that was handed in.
    fn settle(
        &mut self,
        alloc: Global,
        visit: Visit<B::K>,
        name: DocName,
        write: bool,
        answer: Result<ActEnd, TalkFault>,
    ) -> (Answered, Option<TalkFault>)
        requires fresh { self.old.voice ≡ Fresh }
        requires settled { MaySettle name write visit answer }
        ensures key { self.new.key ≡ self.old.key }
        ensures does { Settles self.old self.new name write visit answer result.0 result.1 }
    {
        self.visit = Some(visit);
        self.settled = None;
        match answer {
            Ok(end) => {
                let replies = self.voice.take_connect(alloc, name, write, end);
                let_go(&mut self.handed, self.voice.state());
                say_one(alloc, replies)
            }
            Err(fault) => (Answered::new(alloc), Some(fault)),
        }
    }

    // As many documents are open as may be, and this isn't one.
    fn refuse(&mut self, alloc: Global, connect: Connect) -> (Answered, Option<TalkFault>)
        requires fresh { self.old.voice ≡ Fresh }
        ensures same { self.new ≡ self.old }
        ensures said { IsRefused result.0 result.1 }
    {
        let Connect { name, write, .. } = connect;
        match ConnectRefusal::TooManyDocuments.reply(alloc) {
            Ok(reply) => {
                let end = ActEnd::Given(reply);
                let replies = self.voice.take_connect(alloc, name, write, end);
                say_one(alloc, replies)
            }
            Err(_) => (Answered::new(alloc), Some(TalkFault::NoMemory)),
        }
    }
}

fn let_go<K: Keeper + Drop>(handed: &mut Option<Visit<K>>, state: &VoiceState)
    ensures { handed.new ≡ (if is_connected state.now then None else handed.old) }
{
    if is_connected(state) {
        *handed = None;
    }
}

// A second visit of the document, where the one that was handed in is of this document.
fn split<K: Keeper>(
    handed: &mut Option<Visit<K>>,
    name: &DocName,
) -> Option<Result<Visit<K>, NoMemory>>
    ensures same { handed.new ≡ handed.old }
    ensures split { Splits name.now handed.old result }
{
    match handed {
        Some(visit) => {
            if *visit.door().name() == *name {
                visit.know();
                return Some(visit.fork());
            }
            None
        }
        None => None,
    }
}

// Who writes joins, and who reads is told the last number, each in one turn of the document.
fn greet<R: Wait, K: Keeper>(
    rt: &R,
    alloc: Global,
    visit: Visit<K>,
    connect: Connect,
) -> (Visit<K>, DocName, Result<ActEnd, TalkFault>)
    requires fits { FitsJoin connect }
    ensures name { result.1 ≡ connect.name }
    ensures does { Greets connect visit result.0 result.2 }
{
    if connect.write {
        return join(rt, alloc, visit, connect);
    }
    read(rt, alloc, visit, connect)
}

fn join<R: Wait, K: Keeper>(
    rt: &R,
    alloc: Global,
    visit: Visit<K>,
    connect: Connect,
) -> (Visit<K>, DocName, Result<ActEnd, TalkFault>)
    requires write { connect.write ≡ true }
    requires fits { FitsJoin connect }
    ensures name { result.1 ≡ connect.name }
    ensures does { Greets connect visit result.0 result.2 }
{
    let Connect {
        name,
        scopes,
        detail,
        moment,
        ..
    } = connect;
    let (door, pass) = visit.into_parts();
    let (pass, answer) = door.join(rt, alloc, pass, scopes, detail, moment);
    (Visit::new(door, pass), name, joined(answer))
}

fn read<R: Wait, K: Keeper>(
    rt: &R,
    alloc: Global,
    visit: Visit<K>,
    connect: Connect,
) -> (Visit<K>, DocName, Result<ActEnd, TalkFault>)
    requires write { connect.write ≡ false }
    ensures name { result.1 ≡ connect.name }
    ensures does { Greets connect visit result.0 result.2 }
{
    let (door, pass) = visit.into_parts();
    let act = act_of(connect);
    let (pass, answer) = look(rt, alloc, &door, pass, &act);
    (Visit::new(door, pass), name_of(act), answer)
}

fn act_of(connect: Connect) -> Act
    ensures { result ≡ act_of connect }
{
    let Connect {
        name,
        write,
        scopes,
        detail,
        moment,
    } = connect;
    Act::Connect {
        name,
        write,
        scopes,
        detail,
        moment,
    }
}

fn name_of(act: Act) -> DocName
    requires { IsConnect act }
    ensures { result ≡ name_of act }
{
    match act {
        Act::Connect { name, .. } => name,
        Act::Say(_) => unreachable!(),
        Act::Enter(_) => unreachable!(),
        Act::Deltas(_, _) => unreachable!(),
        Act::Summary(_) => unreachable!(),
        Act::GetObject(_) => unreachable!(),
        Act::PutObject(_) => unreachable!(),
    }
}

// How a join ended.
fn joined(answer: Result<(ClientId, Message), LaneFault>) -> Result<ActEnd, TalkFault>
    ensures { result ≡ joined answer }
{
    match answer {
        Ok((id, message)) => Ok(ActEnd::Joined(id, message.number)),
        Err(fault) => refused(fault),
    }
}
