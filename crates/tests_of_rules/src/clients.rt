// The least reference with another one of a client, and moments, over a table of clients.
ghost use Rattle.std.specs.Prelude.{◌≡◌, ◌<◌, None};
ghost use Rattle.std.specs.FinMap.{get};

use fluid_clients::{Clients, Row, Steps};
use fluid_json::NoMemory;
use fluid_types::{ClientId, Scopes};
use std::alloc::Global;
use std::marker::Brand;
use std::process::Abort;
use std::sync::ledger::{Blank, Ledger};

const WRITER: Scopes = Scopes {
    read: true,
    write: true,
    summary: false,
};

fn join(rt: &impl Abort, alloc: Global, clients: &mut Clients, name: &str, reference: u64) {
    let id = ClientId::read(alloc, name).expect(rt, "a name");
    assert!(rt; clients.row(&id).is_none());
    let row = Row {
        last: 0,
        reference,
        nacked: false,
        scopes: WRITER,
        heard: 1,
    };
    take_in::<Brand>(clients, id, row, Blank::new(1)).expect(rt, "memory");
}

// Takes a client in. Nobody counts the steps.
fn take_in<L: Ledger>(
    clients: &mut Clients,
    id: ClientId,
    row: Row,
    blank: Blank,
) -> Result<(), NoMemory>
    requires name { blank.name ≡ L.name }
    requires parts { blank.parts ≡ L.parts }
    requires some { 0 < blank.parts }
    requires absent { get clients.old.rows id ≡ None }
{
    clients.join(id, row, &mut Steps::<L>::new(blank))
}

fn least_with(
    rt: &impl Abort,
    alloc: Global,
    clients: &Clients,
    name: &str,
    reference: u64,
) -> u64 {
    let id = ClientId::read(alloc, name).expect(rt, "a name");
    assert!(rt; clients.row(&id).is_some());
    let least = clients.min_with(&id, reference);
    drop(id);
    least
}

// The moment of a client, once it was heard of at this one.
fn heard_at(
    rt: &impl Abort,
    alloc: Global,
    clients: &mut Clients,
    name: &str,
    moment: u64,
) -> Option<u64> {
    let id = ClientId::read(alloc, name).expect(rt, "a name");
    clients.hear(&id, moment);
    let heard = clients.row(&id).map(|row| row.heard);
    drop(id);
    heard
}

#[test]
fn the_least_reference_with_another_one_of_a_client(rt: HostRuntime) {
    let alloc = rt.alloc();
    let mut clients = Clients::new(alloc);
    join(&rt, alloc, &mut clients, "B", 4);
    // Alone its reference is the least, whatever it is.
    assert!(rt; least_with(&rt, alloc, &clients, "B", 9) == 9);
    join(&rt, alloc, &mut clients, "A", 2);
    assert!(rt; least_with(&rt, alloc, &clients, "A", 3) == 3);
    assert!(rt; least_with(&rt, alloc, &clients, "A", 7) == 4);
    assert!(rt; least_with(&rt, alloc, &clients, "B", 7) == 2);
    // Nothing was written down.
    assert!(rt; clients.min() == Some(2));
    drop(clients);
}

#[test]
fn moments_are_those_of_joined_clients(rt: HostRuntime) {
    let alloc = rt.alloc();
    let mut clients = Clients::new(alloc);
    join(&rt, alloc, &mut clients, "A", 2);
    assert!(rt; heard_at(&rt, alloc, &mut clients, "A", 7) == Some(7));
    assert!(rt; heard_at(&rt, alloc, &mut clients, "B", 8).is_none());
    assert!(rt; heard_at(&rt, alloc, &mut clients, "A", 3) == Some(3));
    drop(clients);
}
