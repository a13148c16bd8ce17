// Orders by chance, with a client's own edits among them: what it shows and what its summary keeps, against what the rules say.
use crate::play::{applied, copied};
use crate::trees::outline;
use fluid_edits::{ChannelKind, Edit};
use fluid_json::{Json, Text, print};
use fluid_runtime::App;
use fluid_types::{Address, Kind};
use std::alloc::Global;
use std::process::Abort;
use std::test::Fail;

const ADDRESSES: [&str; 3] = ["a", "b", "c"];

const KEYS: [&str; 2] = ["j", "k"];

#[derive(Clone, Copy, PartialEq, Eq)]
enum Verb {
    AttachMap,
    AttachCounter,
    Set,
    Delete,
    Clear,
    Add,
}

// An edit: the places of its address and key in the lists, and its value or amount.
#[derive(Clone, Copy)]
struct Act {
    verb: Verb,
    address: u64,
    key: u64,
    amount: u64,
}

#[derive(Drop)]
struct Chance {
    state: u64,
}

impl Chance {
    fn draw(&mut self, below: u64) -> u64 {
        self.state = self
            .state
            .wrapping_mul(6_364_136_223_846_793_005)
            .wrapping_add(1_442_695_040_888_963_407);
        if below == 0 {
            0
        } else {
            (self.state >> 33) % below
        }
    }

    fn act(&mut self) -> Act {
        let verb = match self.draw(10) {
            0 => Verb::AttachMap,
            1 => Verb::AttachCounter,
            2 | 3 | 4 => Verb::Set,
            5 => Verb::Delete,
            6 => Verb::Clear,
            _ => Verb::Add,
        };
        let address = self.draw(3);
        let key = self.draw(2);
        let amount = self.draw(100);
        Act {
            verb,
            address,
            key,
            amount,
        }
    }
}

// The client, and the acts of the order and those that are on their way.
#[derive(Drop)]
struct Life {
    app: App,
    order: Vec<Act>,
    pending: Vec<Act>,
}

#[test]
fn orders_by_chance(rt: HostRuntime) -> Result<(), Fail> {
    let mut chance = Chance { state: 7 };
    for _ in 0..40 {
        live(&rt, rt.alloc(), &mut chance);
    }
    Ok(())
}

fn live(rt: &impl Abort, alloc: Global, chance: &mut Chance) {
    let mut life = Life {
        app: App::new(alloc),
        order: Vec::new(alloc),
        pending: Vec::new(alloc),
    };
    for _ in 0..40 {
        step(rt, alloc, &mut life, chance);
        compare(rt, alloc, &life);
    }
    drop(life);
}

fn step(rt: &impl Abort, alloc: Global, life: &mut Life, chance: &mut Chance) {
    match chance.draw(8) {
        0 | 1 | 2 => lay(rt, alloc, life, chance.act()),
        3 | 4 => hear(rt, alloc, life, chance.act(), false),
        5 | 6 => hear_own(rt, alloc, life),
        _ => {
            life.app.take_back();
            drop(life.pending.pop());
        }
    }
}

// An edit by the client, where the channels that it shows take it.
fn lay(rt: &impl Abort, alloc: Global, life: &mut Life, act: Act) {
    let laid = life.app.edit(alloc, edit_of(rt, alloc, act)).is_ok();
    let kind = kind_at(&life.order, &life.pending, act.address);
    let wanted = match act.verb {
        Verb::AttachMap | Verb::AttachCounter => kind.is_none(),
        Verb::Add => kind == Some(Verb::AttachCounter),
        _ => kind == Some(Verb::AttachMap),
    };
    assert!(rt; laid == wanted, "an edit");
    if laid {
        life.pending.push(act).expect(rt, "memory");
    }
}

fn hear(rt: &impl Abort, alloc: Global, life: &mut Life, act: Act, own: bool) {
    let contents = contents_of(rt, alloc, act);
    drop(applied(rt, alloc, &mut life.app, Kind::Op, contents, own));
    life.order.push(act).expect(rt, "memory");
}

fn hear_own(rt: &impl Abort, alloc: Global, life: &mut Life) {
    if life.pending.is_empty() {
        return;
    }
    let act = life.pending.remove(0);
    hear(rt, alloc, life, act, true);
}

fn contents_of(rt: &impl Abort, alloc: Global, act: Act) -> Json {
    let edit = edit_of(rt, alloc, act);
    edit.to_json(alloc).expect(rt, "memory")
}

fn edit_of(rt: &impl Abort, alloc: Global, act: Act) -> Edit {
    let address = Address::read(alloc, name_at(&ADDRESSES, act.address)).expect(rt, "an address");
    match act.verb {
        Verb::AttachMap => Edit::Attach(address, ChannelKind::Map),
        Verb::AttachCounter => Edit::Attach(address, ChannelKind::Counter),
        Verb::Set => Edit::Set(address, key_of(rt, alloc, act), Json::whole(amount_of(act))),
        Verb::Delete => Edit::Delete(address, key_of(rt, alloc, act)),
        Verb::Clear => Edit::Clear(address),
        Verb::Add => Edit::Increment(address, amount_of(act)),
    }
}

fn key_of(rt: &impl Abort, alloc: Global, act: Act) -> Text {
    copied(rt, alloc, name_at(&KEYS, act.key))
}

fn amount_of(act: Act) -> i64 {
    if act.amount < 100 {
        act.amount as i64
    } else {
        0
    }
}

fn name_at<'a>(names: &[&'a str], place: u64) -> &'a str {
    names.get(place as usize).copied().unwrap_or("")
}

// ---- what the rules say

fn compare(rt: &impl Abort, alloc: Global, life: &Life) {
    let shown = life.app.visible(alloc).expect(rt, "memory");
    let shown = print(alloc, &shown).expect(rt, "memory");
    let wanted = shown_of(rt, alloc, &life.order, &life.pending);
    assert!(rt; shown.as_str() == wanted.as_str(), "what is shown");
    let tree = life.app.to_tree(alloc).expect(rt, "memory");
    let outline = outline(rt, alloc, &tree);
    let wanted = kept_of(rt, alloc, &life.order);
    assert!(rt; outline.as_str() == wanted.as_str(), "what is kept");
}

// The first attach of the address, in one list or behind it in the other.
fn kind_at(order: &[Act], pending: &[Act], address: u64) -> Option<Verb> {
    first_attach(order, address).or(first_attach(pending, address))
}

fn first_attach(acts: &[Act], address: u64) -> Option<Verb> {
    for act in acts {
        let attaches = act.verb == Verb::AttachMap || act.verb == Verb::AttachCounter;
        if attaches && act.address == address {
            return Some(act.verb);
        }
    }
    None
}

// The acts that speak to the channel of this address: those behind its attach.
fn said_to(
    rt: &impl Abort,
    alloc: Global,
    order: &[Act],
    pending: &[Act],
    address: u64,
) -> Vec<Act> {
    let mut said = Vec::new(alloc);
    let mut stands = false;
    for act in order.iter().chain(pending.iter()) {
        if act.address != address {
            continue;
        }
        match act.verb {
            Verb::AttachMap | Verb::AttachCounter => stands = true,
            _ => {
                if stands {
                    said.push(*act).expect(rt, "memory");
                }
            }
        }
    }
    said
}

// The last word on a key: a set that stands behind each delete of it and each clear.
fn last_word(said: &[Act], key: u64) -> Option<u64> {
    for act in said.iter().rev() {
        let speaks = act.verb == Verb::Clear || act.key == key;
        match act.verb {
            Verb::Set => {
                if speaks {
                    return Some(act.amount);
                }
            }
            Verb::Delete | Verb::Clear => {
                if speaks {
                    return None;
                }
            }
            _ => {}
        }
    }
    None
}

fn total(said: &[Act]) -> u64 {
    let mut total = 0_u64;
    for act in said {
        if act.verb == Verb::Add {
            total = total.wrapping_add(act.amount);
        }
    }
    total
}

fn map_text(rt: &impl Abort, alloc: Global, said: &[Act]) -> String {
    let mut out = String::new(alloc);
    for key in 0..2_u64 {
        if let Some(value) = last_word(said, key) {
            let comma = if out.is_empty() { "" } else { "," };
            let name = name_at(&KEYS, key);
            let member = format!(in alloc; "{comma}\"{name}\":{value}").expect(rt, "memory");
            out.push_str(member.as_str()).expect(rt, "memory");
        }
    }
    out
}

fn shown_of(rt: &impl Abort, alloc: Global, order: &[Act], pending: &[Act]) -> String {
    let mut out = String::new(alloc);
    for address in 0..3_u64 {
        let Some(kind) = kind_at(order, pending, address) else {
            continue;
        };
        let said = said_to(rt, alloc, order, pending, address);
        let comma = if out.is_empty() { "" } else { "," };
        let member = shown_channel(rt, alloc, name_at(&ADDRESSES, address), kind, &said);
        out.push_str(comma).expect(rt, "memory");
        out.push_str(member.as_str()).expect(rt, "memory");
    }
    format!(in alloc; "{{{out}}}").expect(rt, "memory")
}

fn shown_channel(rt: &impl Abort, alloc: Global, name: &str, kind: Verb, said: &[Act]) -> String {
    if kind == Verb::AttachMap {
        let members = map_text(rt, alloc, said);
        return format!(in alloc; "\"{name}\":{{\"kind\":\"map\",\"value\":{{{members}}}}}").expect(
            rt, "memory",
        );
    }
    let total = total(said);
    format!(in alloc; "\"{name}\":{{\"kind\":\"counter\",\"value\":\"{total}\"}}").expect(
        rt, "memory",
    )
}

fn kept_of(rt: &impl Abort, alloc: Global, order: &[Act]) -> String {
    let mut out = String::new(alloc);
    for address in 0..3_u64 {
        let Some(kind) = first_attach(order, address) else {
            continue;
        };
        let said = said_to(rt, alloc, order, &[], address);
        let channel = kept_channel(rt, alloc, name_at(&ADDRESSES, address), kind, &said);
        out.push_str(channel.as_str()).expect(rt, "memory");
    }
    out
}

fn kept_channel(rt: &impl Abort, alloc: Global, name: &str, kind: Verb, said: &[Act]) -> String {
    if kind == Verb::AttachMap {
        let members = map_text(rt, alloc, said);
        return format!(in alloc; "{name}(content={{{members}}} kind=map ) ").expect(rt, "memory");
    }
    let total = total(said);
    format!(in alloc; "{name}(content={{\"value\":\"{total}\"}} kind=counter ) ").expect(
        rt, "memory",
    )
}
