// What a client does to a map.
ghost use Rattle.std.specs.Prelude.{◌≡◌, IfOk};

use fluid_json::{Json, NoMemory, Text};
use std::alloc::Global;

/// A change of a map.
#[derive(Drop)]
pub enum MapOp {
    /// The key gets the value, whatever it had.
    Set { key: Text, value: Json },
    /// The key has no value any more.
    Delete { key: Text },
    /// No key has a value any more.
    Clear,
}

impl MapOp {
    /// The same change once more, with its own memory.
    pub fn copy(&self, alloc: Global) -> Result<MapOp, NoMemory>
        ensures { IfOk result (λ copy. copy ≡ self.now) }
    {
        match self {
            MapOp::Set { key, value } => {
                let key = key.copy(alloc)?;
                let value = value.copy(alloc)?;
                Ok(MapOp::Set { key, value })
            }
            MapOp::Delete { key } => {
                let key = key.copy(alloc)?;
                Ok(MapOp::Delete { key })
            }
            MapOp::Clear => Ok(MapOp::Clear),
        }
    }
}
