// Checkpoints.
use crate::words::text_of;
use fluid_checkpoint::{CheckpointFault, Form, State, print, read};
use fluid_json::{NoMemory, Text};
use std::alloc::Global;

// What the bytes are read as: the state, printed, or the number of entries; or why they are refused.
pub(crate) fn told(alloc: Global, bytes: &[u8]) -> Result<Text, NoMemory> {
    match read(alloc, bytes) {
        Ok(Form::Two(state)) => printed(alloc, &state),
        Ok(Form::One(entered)) => Ok(Text::new(format!(in alloc; "entered {entered}")?)),
        Err(CheckpointFault::BadText) => Text::copied(alloc, "bad text"),
        Err(CheckpointFault::BadField(name)) => field_told(alloc, name.as_str()),
        Err(CheckpointFault::Version(number)) => {
            Ok(Text::new(format!(in alloc; "version {number}")?))
        }
        Err(CheckpointFault::NoMemory) => Err(NoMemory),
    }
}

fn printed(alloc: Global, state: &State) -> Result<Text, NoMemory> {
    let bytes = print(alloc, state)?;
    text_of(alloc, bytes.as_slice())
}

fn field_told(alloc: Global, name: &str) -> Result<Text, NoMemory> {
    Ok(Text::new(format!(in alloc; "bad field {name}")?))
}
