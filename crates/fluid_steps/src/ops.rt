// The JSON of an `edit`.
ghost use Rattle.std.specs.Prelude.{◌≡◌, ◌≢◌, IfOk};
ghost use Rattle.fluid_json.specs.Unless.{IsUnless};
ghost use Rattle.fluid_json.specs.declared.fault.JsonFault.TheVariants as fault;
ghost use Rattle.fluid_steps.specs.Ops.{held_back, contents_spelled, op_spelled, op_of};

use crate::nesting::reaches;
use fluid_edits::{Edit, read_edit};
use fluid_json::{Json, JsonFault, NoMemory, read};
use std::alloc::Global;

/// The depth that the contents of an op must not reach, since they stand in its record inside two objects more.
const TOO_DEEP: usize = 99;

/// The edit that a text spells as the contents of an op, or the fault of the text; none where it is JSON of another form.
pub(crate) fn read_op(
    alloc: Global,
    text: &str,
) -> Result<Option<Result<Edit, JsonFault>>, NoMemory>
    ensures { IfOk result (λ op. op ≡ op_spelled text.now) }
{
    match read_contents(alloc, text) {
        Ok(contents) => {
            let edit = read_edit(alloc, &contents)?;
            Ok(edit.map(Ok))
        }
        Err(JsonFault::NoMemory) => Err(NoMemory),
        Err(fault) => Ok(Some(Err(fault))),
    }
}

fn read_contents(alloc: Global, text: &str) -> Result<Json, JsonFault>
    ensures { IsUnless fault.NoMemory result (contents_spelled text.now) }
{
    match read(alloc, text) {
        Err(JsonFault::NotJson) => Err(JsonFault::NotJson),
        Err(JsonFault::NoMemory) => Err(JsonFault::NoMemory),
        answer => {
            if reaches(TOO_DEEP, text) {
                return Err(JsonFault::TooDeep);
            }
            answer
        }
    }
}
