// One user's documents, objects and connections.
ghost use Rattle.fluid_voice.specs.Fitting.{IsFitting};

use crate::words::{add_line, add_replies, told_door, told_fault, told_state};
use fluid_acts::{TalkFault, do_act};
use fluid_lane::Limits;
use fluid_lanes::Lanes;
use fluid_log::{MemoryKeeper, MemoryShelves};
use fluid_opening::DoorFault;
use fluid_readback::leaves_and_reports_fit;
use fluid_store::{MemoryObjects, Objects};
use fluid_tree::Id;
use fluid_types::DocName;
use fluid_voice::{Act, ActEnd, Voice, VoiceState};
use std::alloc::Global;
use std::mem;
use std::process::Abort;

// All is heard at this moment.
const MOMENT: u64 = 7;

// The most bytes of a text that is heard.
const LONGEST: usize = 1_048_576;

pub const WIDE: Limits = Limits {
    entries: 100,
    clients: 9,
    checkpoints: 9,
    bytes: 1_048_576,
};

// Documents, objects, the connection that speaks, and another one.
#[derive(Drop)]
pub struct Desk {
    lanes: Lanes<MemoryShelves>,
    objects: MemoryObjects,
    voice: Voice,
    other: Voice,
}

pub fn name_of(rt: &impl Abort, alloc: Global, name: &str) -> DocName {
    DocName::read(alloc, name).expect(rt, "a name")
}

fn numbers(rt: &impl Abort, alloc: Global, numbers: &[u64]) -> Vec<u64> {
    Vec::from_slice(alloc, numbers).expect(rt, "memory")
}

// What a desk begins with: the limits of its documents, and which calls fail: of the shelves, of the store, and of the keeper of `d`, of
// which appends some add their record all the same.
#[derive(Clone, Copy)]
pub struct Setting {
    pub limits: Limits,
    pub shelf_fails: &'static [u64],
    pub store_fails: &'static [u64],
    pub keeper_fails: &'static [u64],
    pub keeper_adds: &'static [u64],
}

// Nothing fails.
pub const CALM: Setting = Setting {
    limits: WIDE,
    shelf_fails: &[],
    store_fails: &[],
    keeper_fails: &[],
    keeper_adds: &[],
};

impl Desk {
    pub fn new(rt: &impl Abort, alloc: Global, setting: &Setting) -> Desk {
        let limits = setting.limits;
        assert!(rt; limits.bytes <= 1_048_576);
        let mut shelves = MemoryShelves::new(alloc, numbers(rt, alloc, setting.shelf_fails));
        let keeper = MemoryKeeper::new(
            alloc,
            numbers(rt, alloc, setting.keeper_fails),
            numbers(rt, alloc, setting.keeper_adds),
        );
        let name = name_of(rt, alloc, "d");
        shelves.add(name, keeper).expect(rt, "memory");
        Desk {
            lanes: Lanes::new(alloc, shelves, limits),
            objects: MemoryObjects::new(alloc, numbers(rt, alloc, setting.store_fails)),
            voice: Voice::new(),
            other: Voice::new(),
        }
    }

    // The other connection speaks from now on.
    pub fn turn(&mut self) {
        mem::swap(&mut self.voice, &mut self.other);
    }

    // A new connection speaks from now on.
    pub fn renew(&mut self) {
        self.voice = Voice::new();
    }

    pub fn hear(&mut self, rt: &impl Abort, alloc: Global, text: &str, wanted: &str) {
        let told = self.told(rt, alloc, text);
        assert!(rt; told.as_str() == wanted, "{text}: {told}");
        drop(told);
    }

    // What is said to a text.
    fn told(&mut self, rt: &impl Abort, alloc: Global, text: &str) -> String {
        let mut out = String::new(alloc);
        if text.len() > LONGEST {
            panic!(rt; "too long a text");
        }
        let acts = self.voice.acts(alloc, text, MOMENT).expect(rt, "memory");
        for act in acts.into_vec() {
            self.do_one(rt, alloc, act, &mut out);
        }
        out
    }

    fn do_one(&mut self, rt: &impl Abort, alloc: Global, act: Act, out: &mut String)
        requires { IsFitting act }
    {
        let Desk {
            lanes,
            objects,
            voice,
            ..
        } = self;
        match done(alloc, lanes, objects, voice.state(), &act) {
            Ok(end) => say(rt, alloc, voice, act, end, out),
            Err(fault) => {
                let copy = fault.copy(alloc).expect(rt, "memory");
                add_line(out, told_fault(&copy)).expect(rt, "memory");
                drop(copy);
                drop(fault);
                drop(act);
            }
        }
    }

    pub fn stand(&self, rt: &impl Abort, alloc: Global, wanted: &str) {
        let told = told_state(alloc, self.voice.state()).expect(rt, "memory");
        assert!(rt; told.as_str() == wanted, "stands: {told}");
        drop(told);
    }

    // The leave of the connection that speaks is entered.
    pub fn leave(&mut self, rt: &impl Abort, alloc: Global, wanted: &str) {
        let mut out = String::new(alloc);
        if let Some(act) = self.voice.leave(alloc, MOMENT).expect(rt, "memory") {
            self.do_one(rt, alloc, act, &mut out);
        }
        assert!(rt; out.as_str() == wanted, "leaves: {out}");
        drop(out);
    }

    // These bytes are put under the id of others.
    pub fn spoil(&mut self, rt: &impl Abort, alloc: Global, id: &str, bytes: &str) {
        let id = Id::read(id).expect(rt, "an id");
        self.objects
            .put(alloc, &id, bytes.as_bytes())
            .expect(rt, "memory");
    }

    // A document is opened, or closed and opened anew, and this is told.
    pub fn open(&mut self, rt: &impl Abort, alloc: Global, name: &str, anew: bool, wanted: &str) {
        let name = name_of(rt, alloc, name);
        let answer = if anew {
            self.lanes.reopen(alloc, &name, MOMENT)
        } else {
            self.lanes.open(alloc, &name, MOMENT)
        };
        let told = match &answer {
            Ok(()) => "open",
            Err(fault) => told_copy(rt, alloc, fault),
        };
        assert!(rt; told == wanted, "opens: {told}");
        assert!(rt; self.lanes.is_open(&name) == (told == "open"), "is open");
        drop(answer);
        drop(name);
    }

    // The pending summary of a document is acknowledged.
    pub fn scribe(&mut self, rt: &impl Abort, alloc: Global, name: &str) {
        let name = name_of(rt, alloc, name);
        match self.lanes.lane(alloc, &name, MOMENT) {
            Ok(lane) => {
                leaves_and_reports_fit();
                let job = lane.job(alloc).expect(rt, "memory").expect(rt, "a job");
                let summary = job.summary;
                drop(job);
                match lane.conclude(alloc, summary, true, MOMENT) {
                    Ok(verdict) => drop(verdict),
                    Err(_) => panic!(rt; "isn't entered"),
                }
            }
            Err(_) => panic!(rt; "isn't opened"),
        }
        drop(name);
    }

    // A checkpoint of a document is stored.
    pub fn checkpoint(&mut self, rt: &impl Abort, alloc: Global, name: &str) {
        let name = name_of(rt, alloc, name);
        match self.lanes.lane(alloc, &name, MOMENT) {
            Ok(lane) => assert!(rt; lane.checkpoint(alloc).is_ok(), "a checkpoint"),
            Err(_) => panic!(rt; "isn't opened"),
        }
        drop(name);
    }

    // How many entries and messages a document has, and how many clients.
    pub fn count(&mut self, rt: &impl Abort, alloc: Global, name: &str, wanted: (u64, u64, u64)) {
        let name = name_of(rt, alloc, name);
        match self.lanes.lane(alloc, &name, MOMENT) {
            Ok(lane) => {
                let counts = (lane.entered(), lane.seq(), lane.clients().count());
                assert!(rt;
                    counts == wanted,
                    "counts: {} {} {}",
                    counts.0,
                    counts.1,
                    counts.2
                );
            }
            Err(_) => panic!(rt; "isn't opened"),
        }
        drop(name);
    }

    // The names of the open documents.
    pub fn name(&self, rt: &impl Abort, alloc: Global, wanted: &str) {
        let mut out = String::new(alloc);
        let names = self.lanes.names(alloc).expect(rt, "memory");
        for name in names.as_slice() {
            add_line(&mut out, name.as_str()).expect(rt, "memory");
        }
        assert!(rt; out.as_str() == wanted, "names: {out}");
        assert!(rt; self.lanes.count() == names.len() as u64, "count");
        drop(names);
        drop(out);
    }

    // Documents of so many names are opened.
    pub fn open_many(&mut self, rt: &impl Abort, alloc: Global, many: u64) {
        for number in 0..many {
            let text = format!(in alloc; "n{number}").expect(rt, "memory");
            self.open(rt, alloc, text.as_str(), false, "open");
        }
    }

    // All is closed, and the log of `d` has so many records.
    pub fn close(self, rt: &impl Abort, alloc: Global, records: usize) {
        let Desk { lanes, .. } = self;
        let name = name_of(rt, alloc, "d");
        let shelves = lanes.close();
        match shelves.get(&name) {
            Some(keeper) => assert!(rt; keeper.records().len() == records, "not {records} records"),
            None => panic!(rt; "not on its shelf"),
        }
        drop(name);
        drop(shelves);
    }
}

// The name of the document that an act is about.
fn document<'a>(state: &'a VoiceState, act: &'a Act) -> Option<&'a DocName> {
    match act {
        Act::Connect { name, .. } => Some(name),
        _ => match state {
            VoiceState::Reading(name, _) => Some(name),
            VoiceState::Writing(name, _, _) => Some(name),
            _ => None,
        },
    }
}

// The words of a fault's copy.
fn told_copy(rt: &impl Abort, alloc: Global, fault: &DoorFault) -> &'static str {
    let copy = fault.copy(alloc).expect(rt, "memory");
    let told = told_door(&copy);
    drop(copy);
    told
}

fn done(
    alloc: Global,
    lanes: &mut Lanes<MemoryShelves>,
    objects: &mut MemoryObjects,
    state: &VoiceState,
    act: &Act,
) -> Result<ActEnd, TalkFault>
    requires { IsFitting act.now }
{
    match document(state, act) {
        Some(name) => {
            let lane = lanes.lane(alloc, name, MOMENT)?;
            do_act(alloc, lane, objects, act)
        }
        None => Ok(ActEnd::Said),
    }
}

fn say(rt: &impl Abort, alloc: Global, voice: &mut Voice, act: Act, end: ActEnd, out: &mut String) {
    let replies = voice.take(alloc, act, end).expect(rt, "memory");
    add_replies(alloc, out, replies.as_slice()).expect(rt, "memory");
    drop(replies);
}
