ghost use Rattle.std.specs.Prelude.{◌≡◌, IfOk};

use crate::memory::NoMemory;
use crate::owned::Text;
use crate::value::{Json, Node};
use std::alloc::Global;

impl Json {
    pub fn copy(&self, alloc: Global) -> Result<Json, NoMemory>
        ensures { IfOk result (λ copy. copy ≡ self.now) }
    {
        copy_value(alloc, self)
    }
}

#[cycle(copy)]
fn copy_value(alloc: Global, value: &Json) -> Result<Json, NoMemory>
    ensures { IfOk result (λ copy. copy ≡ value.now) }
{
    let node = match &value.node {
        Node::Null => Node::Null,
        Node::Bool(truth) => Node::Bool(*truth),
        Node::Whole(number) => Node::Whole(*number),
        Node::Text(string) => Node::Text(string.copy(alloc)?),
        Node::List(items) => Node::List(copy_items(alloc, items.as_slice())?),
        Node::Object(pairs) => Node::Object(copy_pairs(alloc, pairs.as_slice())?),
    };
    Ok(Json { node })
}

#[cycle(copy)]
fn copy_items(alloc: Global, items: &[Json]) -> Result<Vec<Json>, NoMemory>
    ensures { IfOk result (λ copies. copies.items ≡ items.now) }
{
    let mut copies = Vec::with_capacity(alloc, items.len())?;
    for item in items {
        let copy = copy_value(alloc, item)?;
        copies.push(copy)?;
    }
    Ok(copies)
}

#[cycle(copy)]
fn copy_pairs(alloc: Global, pairs: &[(Text, Json)]) -> Result<Vec<(Text, Json)>, NoMemory>
    ensures { IfOk result (λ copies. copies.items ≡ pairs.now) }
{
    let mut copies = Vec::with_capacity(alloc, pairs.len())?;
    for (key, value) in pairs {
        let name = key.copy(alloc)?;
        let copy = copy_value(alloc, value)?;
        copies.push((name, copy))?;
    }
    Ok(copies)
}
