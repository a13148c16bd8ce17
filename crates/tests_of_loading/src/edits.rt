// Edits in words.
ghost use Rattle.std.specs.Prelude.{◌≤◌};
ghost use Rattle.fluid_json.specs.Tree.{depth};
ghost use Rattle.fluid_edits.specs.Forms.{contents_of};

use fluid_json::{Json, Text};
use fluid_runtime::{ChannelKind, Edit};
use fluid_types::Address;
use std::alloc::Global;
use std::process::Abort;

/// `attach A KIND`, `set A KEY NUMBER`, `delete A KEY`, `clear A` or `add A NUMBER`.
#[tactic(auto, unfolding(fluid_edits::specs::Forms::contents_of))]
pub(crate) fn edit_of(rt: &impl Abort, alloc: Global, line: &str) -> Edit
    ensures { depth (contents_of result) ≤ 98 }
{
    let (verb, rest) = line.split_once(' ').expect(rt, "a verb");
    let (name, rest) = rest.split_once(' ').unwrap_or((rest, ""));
    let address = Address::read(alloc, name).ok().expect(rt, "an address");
    match verb {
        "attach" => Edit::Attach(address, kind_of(rest)),
        "set" => {
            let (key, value) = rest.split_once(' ').expect(rt, "a key");
            let key = Text::copied(alloc, key).expect(rt, "memory");
            let value = value.parse().ok().expect(rt, "a number");
            Edit::Set(address, key, Json::whole(value))
        }
        "delete" => Edit::Delete(address, Text::copied(alloc, rest).expect(rt, "memory")),
        "clear" => Edit::Clear(address),
        _ => Edit::Increment(address, rest.parse().ok().expect(rt, "a number")),
    }
}

fn kind_of(word: &str) -> ChannelKind {
    match word {
        "map" => ChannelKind::Map,
        _ => ChannelKind::Counter,
    }
}
