// The body of a message's contents.
ghost use Rattle.std.specs.Prelude.{◌≡◌, IfOk};
ghost use Rattle.fluid_types.specs.Contents.{body};

use fluid_json::{Json, JsonFault, NoMemory, read};
use std::alloc::Global;

/// The body of some contents, which quorum, scribe and shared objects look at. The sequencer keeps the
/// contents as they are.
#[tactic(auto, unfolding(crate::specs::Contents::body))]
pub fn body(alloc: Global, contents: &Json) -> Result<Json, NoMemory>
    ensures { IfOk result (λ value. value ≡ body contents.now) }
{
    let Some(text) = contents.as_text() else {
        return contents.copy(alloc);
    };
    match read(alloc, text) {
        Ok(value) => Ok(value),
        Err(JsonFault::NoMemory) => Err(NoMemory),
        Err(_) => contents.copy(alloc),
    }
}
