ghost use Rattle.std.specs.Prelude.{◌≡◌, ◌⊎◌, IfOk};

use fluid_json::{NoMemory, Text};
use std::alloc::{AllocError, Global};

/// Why the text of a checkpoint is refused. Bad text is looked for first, then the version, then the other members.
#[derive(Drop)]
pub enum CheckpointFault {
    /// It isn't JSON with whole numbers alone, nested at most 120 deep, or no object.
    BadText,
    /// The first member that is missing or outside its form; `version` is looked at before all others.
    BadField(Text),
    /// The version is a whole number other than those that are read here, 1 and 2; a negative one is told as 0.
    Version(u64),
    NoMemory,
}

impl CheckpointFault {
    /// The fault of the member of this name; want of memory where there is none for the name.
    pub(crate) fn of(alloc: Global, name: &str) -> CheckpointFault
        ensures { (result ≡ CheckpointFault.NoMemory) ⊎ (result ≡ CheckpointFault.BadField name.now) }
    {
        match Text::copied(alloc, name) {
            Ok(name) => CheckpointFault::BadField(name),
            Err(_) => CheckpointFault::NoMemory,
        }
    }

    /// The same fault with its own memory.
    pub fn copy(&self, alloc: Global) -> Result<CheckpointFault, NoMemory>
        ensures { IfOk result (λ copy. copy ≡ self.now) }
    {
        match self {
            CheckpointFault::BadText => Ok(CheckpointFault::BadText),
            CheckpointFault::BadField(name) => {
                let name = name.copy(alloc)?;
                Ok(CheckpointFault::BadField(name))
            }
            CheckpointFault::Version(version) => Ok(CheckpointFault::Version(*version)),
            CheckpointFault::NoMemory => Ok(CheckpointFault::NoMemory),
        }
    }
}

impl From<NoMemory> for CheckpointFault {
    ghost use Rattle.fluid_checkpoint.specs.declared.fault.CheckpointFault.TheVariants.{NoMemory as Refused};

    ghost from_gives = { λ _ fault. fault ≡ Refused };

    fn from(_refused: NoMemory) -> CheckpointFault {
        CheckpointFault::NoMemory
    }
}

impl From<AllocError> for CheckpointFault {
    ghost use Rattle.fluid_checkpoint.specs.declared.fault.CheckpointFault.TheVariants.{NoMemory as Refused};

    ghost from_gives = { λ _ fault. fault ≡ Refused };

    fn from(_refused: AllocError) -> CheckpointFault {
        CheckpointFault::NoMemory
    }
}
