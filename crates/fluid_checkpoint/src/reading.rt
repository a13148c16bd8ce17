// Reading the text of a checkpoint.
ghost use Rattle.std.specs.Prelude.{◌≡◌, ◌<◌, OnOk, IfOk};
ghost use Rattle.std.specs.FinMap.{from_entries};
ghost use Rattle.fluid_json.specs.Unless.{IsUnless};
ghost use Rattle.fluid_checkpoint.specs.Heard.{with_moments};
ghost use Rattle.fluid_checkpoint.specs.Joined.{taken_in};
ghost use Rattle.fluid_checkpoint.specs.Reading.{answer, text_answer, value_in, object_of, form_in, version_in, of_whole, known, heard_in, state_in, form_of};

use crate::fault::CheckpointFault;
use crate::forms::{Number, Whole, at};
use crate::heard::Moments;
use crate::members::{
    AcksForm, BaseForm, BehindForm, ClientsForm, MinimaForm, MomentsForm, PendingForm, Rows,
};
use crate::state::{Form, State};
use crate::version::Version;
use fluid_clients::{Clients, Row, SequencerState, Steps};
use fluid_json::{Json, JsonFault, NoMemory, read_stored};
use fluid_quorum::ScribeState;
use fluid_types::ClientId;
use std::alloc::Global;
use std::marker::Brand;
use std::str;
use std::sync::ledger::{Blank, Ledger};

/// What a text says: the state of one of version 2, the number of entries of one of version 1. Bad text is looked for first, then
/// the version, then the other members in byte order of their names; members that it has besides are passed over.
#[tactic(auto, unfolding(crate::specs::Reading::answer))]
pub fn read(alloc: Global, bytes: &[u8]) -> Result<Form, CheckpointFault>
    ensures { IsUnless CheckpointFault.NoMemory result (answer bytes.now) }
{
    match str::from_utf8(bytes) {
        Ok(text) => read_text(alloc, text),
        Err(_) => Err(CheckpointFault::BadText),
    }
}

fn read_text(alloc: Global, text: &str) -> Result<Form, CheckpointFault>
    ensures { IsUnless CheckpointFault.NoMemory result (text_answer text.now) }
{
    let value = value_in(alloc, text)?;
    let form = form_in(alloc, &value)?;
    Ok(form)
}

// The object that a text spells.
fn value_in(alloc: Global, text: &str) -> Result<Json, CheckpointFault>
    ensures { IsUnless CheckpointFault.NoMemory result (value_in text.now) }
{
    match read_stored(alloc, text) {
        Ok(value) => object_of(value),
        Err(JsonFault::NoMemory) => Err(CheckpointFault::NoMemory),
        Err(_) => Err(CheckpointFault::BadText),
    }
}

// The value, where it is an object.
fn object_of(value: Json) -> Result<Json, CheckpointFault>
    ensures { result ≡ object_of value }
{
    if value.as_pairs().is_none() {
        return Err(CheckpointFault::BadText);
    }
    Ok(value)
}

fn form_in(alloc: Global, value: &Json) -> Result<Form, CheckpointFault>
    ensures { IsUnless CheckpointFault.NoMemory result (form_in value.now) }
{
    let version = version_in(alloc, value)?;
    let state = state_in(alloc, value, version)?;
    Ok(form_of(version, state))
}

fn form_of(version: Version, state: State) -> Form
    ensures { result ≡ form_of version state }
{
    match version {
        Version::One => Form::One(state.entered),
        Version::Two => Form::Two(state),
    }
}

// ---- the version

fn version_in(alloc: Global, value: &Json) -> Result<Version, CheckpointFault>
    ensures { IsUnless CheckpointFault.NoMemory result (version_in value.now) }
{
    let number = at(alloc, value, "version", &Whole)?;
    of_whole(number)
}

fn of_whole(number: i64) -> Result<Version, CheckpointFault>
    ensures { result ≡ of_whole number }
{
    let Ok(number) = u64::try_from(number) else {
        return Err(CheckpointFault::Version(0));
    };
    match number {
        1 => Ok(Version::One),
        2 => Ok(Version::Two),
        _ => Err(CheckpointFault::Version(number)),
    }
}

// ---- the state

#[tactic(auto, unfolding(crate::specs::Reading::state_in))]
fn state_in(alloc: Global, value: &Json, version: Version) -> Result<State, CheckpointFault>
    ensures { IsUnless CheckpointFault.NoMemory result (state_in version value.now) }
{
    let acks = at(alloc, value, "acks", &AcksForm)?;
    let base = at(alloc, value, "base", &BaseForm)?;
    let behind = at(alloc, value, "behind", &BehindForm)?;
    let rows = at(alloc, value, "clients", &ClientsForm)?;
    let counted = at(alloc, value, "counted", &Number)?;
    let entered = at(alloc, value, "entered", &Number)?;
    let heard = heard_in(alloc, value, version)?;
    let minima = at(alloc, value, "minima", &MinimaForm)?;
    let minimum = at(alloc, value, "minimum", &Number)?;
    let pending = at(alloc, value, "pending", &PendingForm)?;
    let sequence = at(alloc, value, "sequence", &Number)?;
    let clients = clients_of(alloc, rows, &heard)?;
    Ok(State {
        entered,
        counted,
        sequencer: SequencerState {
            sequence,
            minimum,
            clients,
        },
        scribe: ScribeState {
            base,
            behind,
            minima,
            pending,
            acks,
        },
        heard,
    })
}

// Version 1 has no moments.
fn heard_in(alloc: Global, value: &Json, version: Version) -> Result<Moments, CheckpointFault>
    ensures { IsUnless CheckpointFault.NoMemory result (heard_in version value.now) }
{
    match version {
        Version::One => Ok(Moments::new(Vec::new(alloc))),
        Version::Two => at(alloc, value, "heard", &MomentsForm),
    }
}

// The table of these rows, with each moment in the row of its client.
#[tactic(auto, unfolding(crate::specs::Heard::with_moments))]
fn clients_of(alloc: Global, rows: Rows, heard: &Moments) -> Result<Clients, NoMemory>
    ensures { IfOk result (λ clients. clients.rows ≡ with_moments (from_entries rows) heard.now) }
{
    let mut clients = joined(alloc, rows)?;
    for (id, moment) in heard.as_slice() {
        clients.hear(id, *moment);
    }
    Ok(clients)
}

fn joined(alloc: Global, rows: Rows) -> Result<Clients, NoMemory>
    ensures { IfOk result (λ clients. clients.rows ≡ from_entries rows) }
{
    let mut clients = Clients::new(alloc);
    for (id, row) in rows.into_vec() {
        take_in::<Brand>(&mut clients, id, row, Blank::new(1))?;
    }
    Ok(clients)
}

// Takes a client in, unless it is in already.
fn take_in<L: Ledger>(
    clients: &mut Clients,
    id: ClientId,
    row: Row,
    blank: Blank,
) -> Result<(), NoMemory>
    requires name { blank.name ≡ L.name }
    requires parts { blank.parts ≡ L.parts }
    requires some { 0 < blank.parts }
    ensures { OnOk result (clients.new.rows ≡ taken_in clients.old.rows id row) }
{
    if clients.row(&id).is_some() {
        return Ok(());
    }
    let mut steps = Steps::<L>::new(blank);
    clients.join(id, row, &mut steps)
}
