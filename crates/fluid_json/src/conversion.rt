ghost use Rattle.serde_json.specs.View.{view, items_view, members_view};
ghost use Rattle.fluid_json.specs.Tree.{trees, members};
ghost use Rattle.fluid_json.specs.Spelled.{of_data, of_items, of_members};
ghost use Rattle.fluid_json.specs.Converted.{Makes};

use crate::collections::{Items, Pairs};
use crate::fault::JsonFault;
use crate::owned::Text;
use crate::value::Json;
use serde_json::{Map, Value};
use std::alloc::Global;

// Texts are moved. Members come in byte order of their keys, each key once.
#[cycle(convert)]
pub(crate) fn convert(alloc: Global, value: Value) -> Result<Json, JsonFault>
    ensures { Makes (λ t. t) (of_data (view value)) result }
{
    match value {
        Value::Null => Ok(Json::null()),
        Value::Bool(truth) => Ok(Json::boolean(truth)),
        Value::Number(number) => match number.as_i64() {
            Some(whole) => Ok(Json::whole(whole)),
            None => Err(JsonFault::NotWhole),
        },
        Value::String(string) => Ok(Json::text(Text::new(string))),
        Value::Array(items) => {
            let converted = convert_items(alloc, items)?;
            Ok(Json::list(converted))
        }
        Value::Object(object) => {
            let converted = convert_members(alloc, object)?;
            Ok(Json::object(converted))
        }
    }
}

#[cycle(convert)]
fn convert_items(alloc: Global, items: Vec<Value>) -> Result<Items, JsonFault>
    ensures { Makes trees (of_items (items_view items.items)) result }
{
    let mut converted = Items::with_capacity(alloc, items.len())?;
    for item in items {
        let item = convert(alloc, item)?;
        converted.push(item)?;
    }
    Ok(converted)
}

#[cycle(convert)]
fn convert_members(alloc: Global, object: Map<String, Value>) -> Result<Pairs, JsonFault>
    ensures { Makes members (of_members (members_view object.entries)) result }
{
    let mut converted = Pairs::with_capacity(alloc, object.len())?;
    for (key, member) in object {
        let value = convert(alloc, member)?;
        converted.push(Text::new(key), value)?;
    }
    Ok(converted)
}
