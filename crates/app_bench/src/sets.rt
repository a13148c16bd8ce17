// Sets by others, taken in while own edits are pending.
use fluid_json::{Json, NoMemory, Text, print};
use fluid_runtime::{App, ChannelKind, Edit, EditFault};
use fluid_types::{Address, Kind, Message, NameFault};
use std::alloc::Global;

/// Takes in so many sets over so many keys of a map, with so many edits pending, and gives the length of what is shown then.
pub(crate) fn length_shown(
    alloc: Global,
    sets: u64,
    keys: u64,
    pending: u64,
) -> Result<usize, NoMemory> {
    let mut app = App::new(alloc);
    attach(alloc, &mut app)?;
    lay_all(alloc, &mut app, pending, keys)?;
    take_all(alloc, &mut app, sets, keys)?;
    shown_length(alloc, &app)
}

fn attach(alloc: Global, app: &mut App) -> Result<(), NoMemory> {
    let edit = Edit::Attach(address(alloc)?, ChannelKind::Map);
    take(alloc, app, &edit)
}

fn lay_all(alloc: Global, app: &mut App, pending: u64, keys: u64) -> Result<(), NoMemory> {
    for number in 0..pending {
        lay(alloc, app, set(alloc, number, keys)?)?;
    }
    Ok(())
}

fn take_all(alloc: Global, app: &mut App, sets: u64, keys: u64) -> Result<(), NoMemory> {
    for number in 0..sets {
        take_set(alloc, app, number, keys)?;
    }
    Ok(())
}

fn take_set(alloc: Global, app: &mut App, number: u64, keys: u64) -> Result<(), NoMemory> {
    let edit = set(alloc, number, keys)?;
    take(alloc, app, &edit)
}

fn shown_length(alloc: Global, app: &App) -> Result<usize, NoMemory> {
    let shown = app.visible(alloc)?;
    let text = print(alloc, &shown)?;
    Ok(text.as_str().len())
}

fn address(alloc: Global) -> Result<Address, NoMemory> {
    match Address::read(alloc, "m") {
        Ok(address) => Ok(address),
        Err(NameFault::BadName) => Err(NoMemory),
        Err(NameFault::NoMemory) => Err(NoMemory),
    }
}

// A set of one of so many keys.
fn set(alloc: Global, number: u64, keys: u64) -> Result<Edit, NoMemory> {
    let place = if keys == 0 { 0 } else { number % keys };
    let key = format!(in alloc; "key{place}")?;
    let value = i64::try_from(number).unwrap_or(0);
    Ok(Edit::Set(address(alloc)?, Text::new(key), Json::whole(value)))
}

fn lay(alloc: Global, app: &mut App, edit: Edit) -> Result<(), NoMemory> {
    match app.edit(alloc, edit) {
        Ok(contents) => {
            drop(contents);
            Ok(())
        }
        Err(EditFault::NoMemory) => Err(NoMemory),
        Err(_) => Ok(()),
    }
}

// Takes in another client's op of this edit, where there is room.
fn take(alloc: Global, app: &mut App, edit: &Edit) -> Result<(), NoMemory> {
    let message = message(edit.to_json(alloc)?);
    if app.has_room() {
        app.apply(alloc, &message, false)?;
    }
    Ok(())
}

fn message(contents: Json) -> Message {
    Message {
        client: None,
        client_number: -1,
        reference: -1,
        number: 1,
        minimum: 0,
        kind: Kind::Op,
        contents,
        system: None,
        metadata: None,
        moment: 0,
    }
}
