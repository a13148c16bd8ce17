ghost use Rattle.std.specs.Prelude.{◌≡◌, ℕ, List, [], ◌∷◌, ◌++◌, option_map, IfOk};
ghost use Rattle.fluid_tree.specs.Summary.{Summary, blob, tree, handle, children, is_tree, as_blob, as_children, as_handle};

use fluid_json::{Bytes, NoMemory, Text};
use std::alloc::Global;
use std::marker::Model;

/// A summary tree: a blob, a tree of named nodes, or a handle.
#[cycle(node)]
#[derive(Drop)]
pub struct Node {
    pub(crate) kind: Kind,
}

#[cycle(node)]
#[derive(Drop)]
pub(crate) enum Kind {
    Blob(Bytes),
    Tree(Vec<(Text, Node)>),
    Handle(Path),
}

impl Model for Node {
    ghost use Rattle.fluid_tree.specs.Summary.{Summary, depth};

    ghost Value = { Summary };

    ghost use Rattle.fluid_tree.specs.Code.{summary_code};

    ghost coded = { summary_code };

    ghost use Rattle.fluid_tree.specs.View.{summary_of};

    ghost view = { λ n. summary_of n.kind };

    ghost size = { depth };

    ghost use Rattle.std.proofs.Common.{arith};
    ghost use Rattle.fluid_tree.specs.Falls.{deep_le-depth};

    ghost size_decreases = { λ n _. omega (arith, deep_le-depth n.kind) };
}

impl Node {
    pub fn blob(content: Bytes) -> Node
        ensures { result ≡ blob content }
    {
        Node {
            kind: Kind::Blob(content),
        }
    }

    pub fn tree(entries: Entries) -> Node
        ensures { result ≡ tree (children entries) }
    {
        let Entries { vec } = entries;
        Node {
            kind: Kind::Tree(vec),
        }
    }

    pub fn handle(path: Path) -> Node
        ensures { result ≡ handle path }
    {
        Node {
            kind: Kind::Handle(path),
        }
    }

    pub fn is_tree(&self) -> bool
        ensures { result ≡ is_tree self.now }
    {
        matches!(self.kind, Kind::Tree(_))
    }

    pub fn as_blob(&self) -> Option<&[u8]>
        ensures { option_map (λ content. content.now) result ≡ as_blob self.now }
    {
        match &self.kind {
            Kind::Blob(content) => Some(content.as_slice()),
            _ => None,
        }
    }

    pub fn as_tree(&self) -> Option<&[(Text, Node)]>
        ensures { option_map (λ entries. children entries.now) result ≡ as_children self.now }
    {
        match &self.kind {
            Kind::Tree(entries) => Some(entries.as_slice()),
            _ => None,
        }
    }

    pub fn as_handle(&self) -> Option<&[Text]>
        ensures { option_map (λ path. path.now) result ≡ as_handle self.now }
    {
        match &self.kind {
            Kind::Handle(path) => Some(path.as_slice()),
            _ => None,
        }
    }

    pub fn into_blob(self) -> Option<Bytes>
        ensures { result ≡ as_blob self }
    {
        match self.kind {
            Kind::Blob(content) => Some(content),
            _ => None,
        }
    }

    pub fn into_tree(self) -> Option<Entries>
        ensures { option_map children result ≡ as_children self }
    {
        match self.kind {
            Kind::Tree(vec) => Some(Entries { vec }),
            _ => None,
        }
    }
}

/// The entries of a tree, pairs of a name and a node, in the order in which they were put.
#[derive(Drop)]
pub struct Entries {
    vec: Vec<(Text, Node)>,
}

impl Model for Entries {
    ghost use Rattle.std.specs.Prelude.{ℕ, List};
    ghost use Rattle.std.specs.Coded.{coded_list, coded×, coded_ℕ};
    ghost use Rattle.fluid_tree.specs.Summary.{Summary};
    ghost use Rattle.fluid_tree.specs.Code.{summary_code};

    ghost Value = { List (List ℕ × Summary) };

    ghost coded = { coded_list (coded× (coded_list coded_ℕ) summary_code) };

    ghost view = { λ e. e.vec.items };
}

impl Entries {
    /// No entries yet.
    pub fn new(alloc: Global) -> Entries
        ensures { result ≡ [] }
    {
        Entries {
            vec: Vec::new(alloc),
        }
    }

    pub fn from_vec(vec: Vec<(Text, Node)>) -> Entries
        ensures { result ≡ vec.items }
    {
        Entries { vec }
    }

    pub fn push(&mut self, name: Text, node: Node) -> Result<(), NoMemory>
        ensures { IfOk result (λ _. self.new ≡ self.old ++ (name, node) ∷ []) }
    {
        self.vec.push((name, node))?;
        Ok(())
    }

    pub fn as_slice(&self) -> &[(Text, Node)]
        ensures { result.now ≡ self.now }
    {
        self.vec.as_slice()
    }

    pub fn into_vec(self) -> Vec<(Text, Node)>
        ensures { result.items ≡ self }
    {
        let Entries { vec } = self;
        vec
    }
}

/// The names from the top of a summary tree down to a node.
#[derive(Drop)]
pub struct Path {
    vec: Vec<Text>,
}

impl Model for Path {
    ghost use Rattle.std.specs.Prelude.{ℕ, List};

    ghost Value = { List (List ℕ) };

    ghost view = { λ p. p.vec.items };
}

impl Path {
    pub fn from_vec(vec: Vec<Text>) -> Path
        ensures { result ≡ vec.items }
    {
        Path { vec }
    }

    pub fn as_slice(&self) -> &[Text]
        ensures { result.now ≡ self.now }
    {
        self.vec.as_slice()
    }

    pub fn into_vec(self) -> Vec<Text>
        ensures { result.items ≡ self }
    {
        let Path { vec } = self;
        vec
    }

    pub fn copy(&self, alloc: Global) -> Result<Path, NoMemory>
        ensures { IfOk result (λ copy. copy ≡ self.now) }
    {
        let vec = copy_names(alloc, self.as_slice())?;
        Ok(Path { vec })
    }
}

fn copy_names(alloc: Global, names: &[Text]) -> Result<Vec<Text>, NoMemory>
    ensures { IfOk result (λ copies. copies.items ≡ names.now) }
{
    let mut copies = Vec::with_capacity(alloc, names.len())?;
    for name in names {
        let copy = name.copy(alloc)?;
        copies.push(copy)?;
    }
    Ok(copies)
}
