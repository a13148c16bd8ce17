ghost use Rattle.std.specs.Prelude.{◌≡◌, List, [], ◌∷◌, ◌++◌, IfOk};
ghost use Rattle.fluid_tree.specs.Object.{is_tree_object};

use crate::id::Id;
use fluid_json::{Bytes, NoMemory, Text};
use std::alloc::Global;
use std::marker::Model;

/// What one of Git's objects says.
#[derive(Drop)]
pub enum Object {
    Blob(Bytes),
    Tree(ObjectEntries),
}

impl Object {
    pub fn is_tree(&self) -> bool
        ensures { result ≡ is_tree_object self.now }
    {
        matches!(self, Object::Tree(_))
    }
}

/// One entry of a tree's object. `tree` says that its mode is `40000`; a blob's is `100644`.
#[derive(Drop)]
pub struct ObjectEntry {
    pub name: Text,
    pub tree: bool,
    pub id: Id,
}

/// The entries of a tree's object, in any order.
#[derive(Drop)]
pub struct ObjectEntries {
    vec: Vec<ObjectEntry>,
}

impl Model for ObjectEntries {
    ghost use Rattle.std.specs.Prelude.{List};
    ghost use Rattle.fluid_tree.specs.declared.object.ObjectEntry.{ObjectEntry as Entry};

    ghost Value = { List Entry };

    ghost view = { λ e. e.vec.items };
}

impl ObjectEntries {
    /// No entries yet.
    pub fn new(alloc: Global) -> ObjectEntries
        ensures { result ≡ [] }
    {
        ObjectEntries {
            vec: Vec::new(alloc),
        }
    }

    pub fn from_vec(vec: Vec<ObjectEntry>) -> ObjectEntries
        ensures { result ≡ vec.items }
    {
        ObjectEntries { vec }
    }

    pub fn push(&mut self, entry: ObjectEntry) -> Result<(), NoMemory>
        ensures { IfOk result (λ _. self.new ≡ self.old ++ entry ∷ []) }
    {
        self.vec.push(entry)?;
        Ok(())
    }

    pub fn as_slice(&self) -> &[ObjectEntry]
        ensures { result.now ≡ self.now }
    {
        self.vec.as_slice()
    }

    pub fn into_vec(self) -> Vec<ObjectEntry>
        ensures { result.items ≡ self }
    {
        let ObjectEntries { vec } = self;
        vec
    }
}
