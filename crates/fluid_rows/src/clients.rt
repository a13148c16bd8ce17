// The table of joined clients. Nobody counts its steps.
ghost use Rattle.std.specs.Prelude.{◌≡◌, ◌<◌};

use crate::words::{number_of, split};
use fluid_clients::{Clients, Row, Steps};
use fluid_json::{NoMemory, Text};
use fluid_types::{ClientId, Scopes};
use std::alloc::Global;
use std::marker::Brand;
use std::sync::ledger::{Blank, Ledger};

// What is answered to each of these calls on an empty table, which stand behind a semicolon each.
pub(crate) fn told(alloc: Global, text: &str) -> Result<Text, NoMemory> {
    let mut clients = Clients::new(alloc);
    let mut told = String::new(alloc);
    for call in text.split("; ") {
        tell(alloc, &mut clients, call, &mut told)?;
    }
    Ok(Text::new(told))
}

fn tell(
    alloc: Global,
    clients: &mut Clients,
    call: &str,
    told: &mut String,
) -> Result<(), NoMemory> {
    let answer = answer(alloc, clients, call)?;
    if !told.is_empty() {
        told.push_str("; ")?;
    }
    told.push_str(answer.as_str())?;
    Ok(())
}

fn answer(alloc: Global, clients: &mut Clients, call: &str) -> Result<Text, NoMemory> {
    let (word, rest) = split(call);
    let (name, numbers) = split(rest);
    if word == "min" {
        return number_told(alloc, clients.min());
    }
    if word == "rows" {
        return rows(alloc, clients);
    }
    match ClientId::read(alloc, name) {
        Ok(id) => answer_of(alloc, clients, word, id, numbers),
        Err(_) => Text::copied(alloc, "no name"),
    }
}

fn answer_of(
    alloc: Global,
    clients: &mut Clients,
    word: &str,
    id: ClientId,
    numbers: &str,
) -> Result<Text, NoMemory> {
    let (first, second) = split(numbers);
    let (first, second) = (number_of(first), number_of(second));
    match word {
        "join" => join::<Brand>(alloc, clients, id, first, Blank::new(1)),
        "leave" => truth_told(alloc, leave::<Brand>(clients, &id, Blank::new(1))),
        "accept" => accept::<Brand>(alloc, clients, &id, first, second, Blank::new(1)),
        "mark" => mark::<Brand>(alloc, clients, &id, first, second, Blank::new(1)),
        "without" => number_told(alloc, clients.min_without(&id)),
        _ => Text::copied(alloc, "no such call"),
    }
}

fn join<L: Ledger>(
    alloc: Global,
    clients: &mut Clients,
    id: ClientId,
    reference: u64,
    blank: Blank,
) -> Result<Text, NoMemory>
    requires name { blank.name ≡ L.name }
    requires parts { blank.parts ≡ L.parts }
    requires some { 0 < blank.parts }
{
    if clients.row(&id).is_some() {
        return Text::copied(alloc, "joined before");
    }
    let row = Row {
        last: 0,
        reference,
        nacked: false,
        scopes: Scopes {
            read: true,
            write: true,
            summary: false,
        },
        heard: 0,
    };
    clients.join(id, row, &mut Steps::<L>::new(blank))?;
    Text::copied(alloc, "in")
}

fn accept<L: Ledger>(
    alloc: Global,
    clients: &mut Clients,
    id: &ClientId,
    number: u64,
    reference: u64,
    blank: Blank,
) -> Result<Text, NoMemory>
    requires name { blank.name ≡ L.name }
    requires parts { blank.parts ≡ L.parts }
    requires some { 0 < blank.parts }
{
    clients.reserve()?;
    if clients.row(id).is_none() {
        return Text::copied(alloc, "not joined");
    }
    clients.accept(id, number, reference, &mut Steps::<L>::new(blank));
    number_told(alloc, clients.min())
}

fn mark<L: Ledger>(
    alloc: Global,
    clients: &mut Clients,
    id: &ClientId,
    number: u64,
    minimum: u64,
    blank: Blank,
) -> Result<Text, NoMemory>
    requires name { blank.name ≡ L.name }
    requires parts { blank.parts ≡ L.parts }
    requires some { 0 < blank.parts }
{
    clients.reserve()?;
    if clients.row(id).is_none() {
        return Text::copied(alloc, "not joined");
    }
    clients.mark(id, number, minimum, &mut Steps::<L>::new(blank));
    number_told(alloc, clients.min())
}

fn leave<L: Ledger>(clients: &mut Clients, id: &ClientId, blank: Blank) -> bool
    requires name { blank.name ≡ L.name }
    requires parts { blank.parts ≡ L.parts }
    requires some { 0 < blank.parts }
{
    clients.leave(id, &mut Steps::<L>::new(blank))
}

fn truth_told(alloc: Global, truth: bool) -> Result<Text, NoMemory> {
    Text::copied(alloc, if truth { "yes" } else { "no" })
}

fn number_told(alloc: Global, number: Option<u64>) -> Result<Text, NoMemory> {
    match number {
        Some(number) => Ok(Text::new(format!(in alloc; "{number}")?)),
        None => Text::copied(alloc, "none"),
    }
}

// How many are joined, and the rows of a copy: each with its last number, its reference, and a mark where it is nacked.
fn rows(alloc: Global, clients: &Clients) -> Result<Text, NoMemory> {
    let copy = clients.copy(alloc)?;
    let mut told = format!(in alloc; "{}", clients.count())?;
    for place in 0..copy.count() {
        if let Some(id) = copy.id_at(place) {
            let row = row_told(alloc, &copy, id)?;
            told.push_str(row.as_str())?;
        }
    }
    Ok(Text::new(told))
}

fn row_told(alloc: Global, clients: &Clients, id: &ClientId) -> Result<Text, NoMemory> {
    match clients.row(id) {
        Some(row) => {
            let mark = if row.nacked { "!" } else { "" };
            let told = format!(in alloc; " {}={},{}{mark}", id.as_str(), row.last, row.reference)?;
            Ok(Text::new(told))
        }
        None => Text::copied(alloc, " no row"),
    }
}
