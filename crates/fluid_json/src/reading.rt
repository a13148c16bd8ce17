ghost use Rattle.fluid_json.specs.Unless.{IsUnless};
ghost use Rattle.fluid_json.specs.Spelled.{answer_within, answer, answer_stored};

use crate::conversion::convert;
use crate::fault::JsonFault;
use crate::nesting::reaches;
use crate::value::Json;
use serde_json::Value;
use std::alloc::Global;

/// The depth that a text from outside must not reach.
const TOO_DEEP: usize = 101;

/// The depth that a text which was printed here and stored must not reach: what is read from outside may be stored inside more.
const TOO_DEEP_STORED: usize = 121;

/// Reads a text from outside.
pub fn read(alloc: Global, text: &str) -> Result<Json, JsonFault>
    ensures { IsUnless JsonFault.NoMemory result (answer text.now) }
{
    read_within(alloc, TOO_DEEP, text)
}

/// Reads a text that was printed here and stored.
pub fn read_stored(alloc: Global, text: &str) -> Result<Json, JsonFault>
    ensures { IsUnless JsonFault.NoMemory result (answer_stored text.now) }
{
    read_within(alloc, TOO_DEEP_STORED, text)
}

fn read_within(alloc: Global, top: usize, text: &str) -> Result<Json, JsonFault>
    ensures { IsUnless JsonFault.NoMemory result (answer_within top text.now) }
{
    if reaches(top, text) {
        return Err(JsonFault::TooDeep);
    }
    match Value::from_str(alloc, text) {
        Ok(value) => convert(alloc, value),
        Err(error) => {
            if error.is_memory() {
                Err(JsonFault::NoMemory)
            } else {
                Err(JsonFault::NotJson)
            }
        }
    }
}
