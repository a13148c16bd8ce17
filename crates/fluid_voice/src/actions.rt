// What a heard text asks for.
ghost use Rattle.std.specs.Prelude.{◌≡◌, ◌∷◌, [], ◌++◌, IfOk};

use fluid_codec::{Asked, Reply};
use fluid_json::{Bytes, Json, NoMemory};
use fluid_tree::Id;
use fluid_types::{DocName, Raw, Scopes};
use std::alloc::Global;
use std::marker::Model;

/// One thing that a heard text asks for: at most one call on a document's lane or on the store.
#[derive(Drop)]
pub enum Act {
    /// A reply, for which nothing has to be asked.
    Say(Reply),
    /// A document is connected to.
    Connect {
        name: DocName,
        /// Whether a join is entered: the mode is "write", and the scope for it is held.
        write: bool,
        scopes: Scopes,
        detail: Json,
        /// In milliseconds.
        moment: u64,
    },
    /// A submission is entered; when a connection ends, its leave.
    Enter(Raw),
    /// The messages from this number to before that, as they were asked for.
    Deltas(i64, i64),
    Summary(Asked),
    GetObject(Id),
    /// The bytes of an object.
    PutObject(Bytes),
}

/// Acts in the order in which they are to be done. Contracts see the list.
#[derive(Drop)]
pub struct Acts {
    vec: Vec<Act>,
}

impl Model for Acts {
    ghost use Rattle.std.specs.Prelude.{List};
    ghost use Rattle.std.specs.Coded.{coded_list};
    ghost use Rattle.fluid_voice.specs.declared.actions.Act.{Act as AnAct};
    ghost use Rattle.fluid_voice.specs.contracts.actions.Act as acting;

    ghost Value = { List AnAct };

    ghost coded = { coded_list acting.the_row.coded };

    ghost view = { λ a. a.vec.items };
}

impl Acts {
    /// No acts.
    pub(crate) fn new(alloc: Global) -> Acts
        ensures { result ≡ [] }
    {
        Acts {
            vec: Vec::new(alloc),
        }
    }

    /// No acts, with room for so many.
    pub(crate) fn with_capacity(alloc: Global, most: usize) -> Result<Acts, NoMemory>
        ensures { IfOk result (λ acts. acts ≡ []) }
    {
        let vec = Vec::with_capacity(alloc, most)?;
        Ok(Acts { vec })
    }

    /// One act alone.
    pub(crate) fn one(alloc: Global, act: Act) -> Result<Acts, NoMemory>
        ensures { IfOk result (λ acts. acts ≡ act ∷ []) }
    {
        let mut acts = Acts::new(alloc);
        acts.push(act)?;
        Ok(acts)
    }

    pub(crate) fn push(&mut self, act: Act) -> Result<(), NoMemory>
        ensures { IfOk result (λ _. self.new ≡ self.old ++ act ∷ []) }
    {
        self.vec.push(act)?;
        Ok(())
    }

    pub fn as_slice(&self) -> &[Act]
        ensures { result.now ≡ self.now }
    {
        self.vec.as_slice()
    }

    /// Takes no memory.
    pub fn into_vec(self) -> Vec<Act>
        ensures { result.items ≡ self }
    {
        let Acts { vec } = self;
        vec
    }
}
