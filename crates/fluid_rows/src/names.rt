// Names.
use crate::words::{number_of, split};
use fluid_json::{NoMemory, Text};
use fluid_types::{Address, ClientId, DocName, NameFault};
use std::alloc::Global;
use std::cmp::Ordering;

// The text as the name of a client, of a document and of an address; a full stop for what is none.
pub(crate) fn told(alloc: Global, text: &str) -> Result<Text, NoMemory> {
    let client = client(alloc, text)?;
    let document = document(alloc, text)?;
    let address = address(alloc, text)?;
    let told = format!(in alloc;
        "{} {} {}",
        client.as_str(),
        document.as_str(),
        address.as_str()
    )?;
    Ok(Text::new(told))
}

fn client(alloc: Global, text: &str) -> Result<Text, NoMemory> {
    match ClientId::read(alloc, text) {
        Ok(id) => {
            let copy = id.copy(alloc)?;
            Text::copied(alloc, copy.as_str())
        }
        Err(fault) => fault_told(alloc, fault),
    }
}

fn document(alloc: Global, text: &str) -> Result<Text, NoMemory> {
    match DocName::read(alloc, text) {
        Ok(name) => {
            let copy = name.copy(alloc)?;
            Text::copied(alloc, copy.as_str())
        }
        Err(fault) => fault_told(alloc, fault),
    }
}

fn address(alloc: Global, text: &str) -> Result<Text, NoMemory> {
    match Address::read(alloc, text) {
        Ok(address) => {
            let copy = address.copy(alloc)?;
            Text::copied(alloc, copy.as_str())
        }
        Err(fault) => fault_told(alloc, fault),
    }
}

fn fault_told(alloc: Global, fault: NameFault) -> Result<Text, NoMemory> {
    match fault {
        NameFault::BadName => Text::copied(alloc, "."),
        NameFault::NoMemory => Err(NoMemory),
    }
}

// How two names compare, as clients, documents and addresses, and whether they are equal.
pub(crate) fn order(alloc: Global, text: &str) -> Result<Text, NoMemory> {
    let (one, other) = split(text);
    let (clients, client) = clients(alloc, one, other)?;
    let (documents, document) = documents(alloc, one, other)?;
    let (addresses, address) = addresses(alloc, one, other)?;
    if clients == documents && clients == addresses && client == document && client == address {
        ordering_told(alloc, clients, client)
    } else {
        Text::copied(alloc, "they differ")
    }
}

fn ordering_told(alloc: Global, ordering: Ordering, is_equal: bool) -> Result<Text, NoMemory> {
    match (ordering, is_equal) {
        (Ordering::Less, false) => Text::copied(alloc, "less"),
        (Ordering::Equal, true) => Text::copied(alloc, "equal"),
        (Ordering::Greater, false) => Text::copied(alloc, "greater"),
        _ => Text::copied(alloc, "== and cmp differ"),
    }
}

fn clients(alloc: Global, one: &str, other: &str) -> Result<(Ordering, bool), NoMemory> {
    match (ClientId::read(alloc, one), ClientId::read(alloc, other)) {
        (Ok(one), Ok(other)) => Ok((one.cmp(&other), one == other)),
        _ => Err(NoMemory),
    }
}

fn documents(alloc: Global, one: &str, other: &str) -> Result<(Ordering, bool), NoMemory> {
    match (DocName::read(alloc, one), DocName::read(alloc, other)) {
        (Ok(one), Ok(other)) => Ok((one.cmp(&other), one == other)),
        _ => Err(NoMemory),
    }
}

fn addresses(alloc: Global, one: &str, other: &str) -> Result<(Ordering, bool), NoMemory> {
    match (Address::read(alloc, one), Address::read(alloc, other)) {
        (Ok(one), Ok(other)) => Ok((one.cmp(&other), one == other)),
        _ => Err(NoMemory),
    }
}

// The id of the client that joins by the entry of this number.
pub(crate) fn entry(alloc: Global, text: &str) -> Result<Text, NoMemory> {
    let id = ClientId::of_entry(alloc, number_of(text))?;
    Text::copied(alloc, id.as_str())
}
