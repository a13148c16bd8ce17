ghost use Rattle.fluid_json.specs.Unless.{IsUnless};
ghost use Rattle.fluid_types.specs.Forms.{a_value};

use fluid_json::{Json, JsonFault, read};
use fluid_types::CodecFault;
use std::alloc::Global;

// The value that a text spells as JSON.
#[tactic(auto, unfolding(fluid_types::specs::Forms::a_value))]
pub(crate) fn read_value(alloc: Global, text: &str) -> Result<Json, CodecFault>
    ensures { IsUnless CodecFault.NoMemory result (a_value text.now) }
{
    match read(alloc, text) {
        Ok(value) => Ok(value),
        Err(JsonFault::NotJson) => Err(CodecFault::NotJson),
        Err(JsonFault::NotWhole) => Err(CodecFault::NotWhole),
        Err(JsonFault::TooDeep) => Err(CodecFault::TooDeep),
        Err(JsonFault::NoMemory) => Err(CodecFault::NoMemory),
    }
}
