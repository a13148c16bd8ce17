// What a client shows of channels, as JSON.
ghost use Rattle.std.specs.Prelude.{◌≡◌, [], ◌∷◌, IfOk, codes};
ghost use Rattle.fluid_json.specs.Tree.{text, object, members};
ghost use Rattle.fluid_edits.specs.Forms.{kind_word};
ghost use Rattle.fluid_runtime.specs.Shown.{shown, shown_channel};
ghost use Rattle.fluid_runtime.specs.Slots.{channel_of_object, channels_of};

use crate::slots::{Object, Slot};
use fluid_edits::ChannelKind;
use fluid_json::{Json, NoMemory, Pairs, Text};
use fluid_table::SortedMap;
use fluid_types::Word;
use std::alloc::Global;

/// The object of these channels.
pub(crate) fn shown(alloc: Global, slots: &SortedMap<Text, Slot>) -> Result<Json, NoMemory>
    ensures { IfOk result (λ json. json ≡ shown (channels_of slots.now.values)) }
{
    let slice = slots.as_slice();
    let mut pairs = Pairs::with_capacity(alloc, slice.len())?;
    for (address, slot) in slice {
        let name = address.copy(alloc)?;
        let channel = shown_channel(alloc, &slot.object)?;
        pairs.push(name, channel)?;
    }
    Ok(Json::object(pairs))
}

fn shown_channel(alloc: Global, object: &Object) -> Result<Json, NoMemory>
    ensures { IfOk result (λ json. json ≡ shown_channel (channel_of_object object.now)) }
{
    match object {
        Object::Map(map) => {
            let value = map.to_json(alloc)?;
            of_kind(alloc, ChannelKind::Map, value)
        }
        Object::Counter(counter) => {
            let total = counter.total();
            let digits = format!(in alloc; "{total}")?;
            of_kind(alloc, ChannelKind::Counter, Json::text(Text::new(digits)))
        }
    }
}

// {"kind":"map","value":..}, or "counter"
fn of_kind(alloc: Global, kind: ChannelKind, value: Json) -> Result<Json, NoMemory>
    ensures { IfOk result (λ json. json ≡ object (members ((codes "kind", text (kind_word kind)) ∷ (codes "value", value) ∷ []))) }
{
    let mut pairs = Pairs::with_capacity(alloc, 2)?;
    let name = Text::copied(alloc, "kind")?;
    let word = Text::copied(alloc, kind.word())?;
    pairs.push(name, Json::text(word))?;
    let name = Text::copied(alloc, "value")?;
    pairs.push(name, value)?;
    Ok(Json::object(pairs))
}
