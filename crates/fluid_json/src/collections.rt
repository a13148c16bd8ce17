ghost use Rattle.std.specs.Prelude.{◌≡◌, List, [], ◌∷◌, ◌++◌, length, IfOk, IfErr, OnErr};
ghost use Rattle.fluid_json.specs.Tree.{trees, members, AreCanonical, HasCanonical, AreAscending};

use crate::memory::NoMemory;
use crate::owned::Text;
use crate::value::Json;
use std::alloc::Global;
use std::marker::Model;

/// The items of a list.
#[derive(Drop)]
pub struct Items {
    pub(crate) vec: Vec<Json>,
}

impl Model for Items {
    ghost use Rattle.std.specs.Prelude.{List};
    ghost use Rattle.std.specs.Coded.{coded_list};
    ghost use Rattle.fluid_json.specs.Tree.{Tree, trees, AreCanonical};
    ghost use Rattle.fluid_json.specs.Code.{tree_code};

    ghost Value = { List Tree };

    ghost coded = { coded_list tree_code };

    ghost view = { λ i. i.vec.items };

    ghost invariant = { λ i. AreCanonical (trees i.vec.items) };
}

impl Items {
    /// No items yet.
    pub fn new(alloc: Global) -> Items
        ensures { result ≡ [] }
    {
        Items {
            vec: Vec::new(alloc),
        }
    }

    /// No items yet, with room for so many.
    pub fn with_capacity(alloc: Global, capacity: usize) -> Result<Items, NoMemory>
        ensures { IfOk result (λ items. items ≡ []) }
    {
        let vec = Vec::with_capacity(alloc, capacity)?;
        Ok(Items { vec })
    }

    /// The items of a list, in their order. Takes no memory.
    pub fn of_vec(vec: Vec<Json>) -> Items
        ensures { result ≡ vec.items }
    {
        are_canonical(vec.as_slice());
        Items { vec }
    }

    pub fn push(&mut self, item: Json) -> Result<(), NoMemory>
        ensures pushed { IfOk result (λ _. self.new ≡ self.old ++ item ∷ []) }
        ensures same { OnErr result (self.new ≡ self.old) }
    {
        item.canonical();
        self.vec.push(item)?;
        Ok(())
    }

    pub fn as_slice(&self) -> &[Json]
        ensures { result.now ≡ self.now }
    {
        self.vec.as_slice()
    }

    pub fn into_vec(self) -> Vec<Json>
        ensures { result.items ≡ self }
    {
        let Items { vec } = self;
        vec
    }
}

/// The members of an object: pairs in byte order of keys, each key once.
#[derive(Drop)]
pub struct Pairs {
    pub(crate) vec: Vec<(Text, Json)>,
}

impl Model for Pairs {
    ghost use Rattle.std.specs.Prelude.{ℕ, List};
    ghost use Rattle.std.specs.Coded.{coded_list, coded×, coded_ℕ};
    ghost use Rattle.fluid_json.specs.Tree.{Tree, members, HasCanonical};
    ghost use Rattle.fluid_json.specs.Code.{tree_code};

    ghost Value = { List (List ℕ × Tree) };

    ghost coded = { coded_list (coded× (coded_list coded_ℕ) tree_code) };

    ghost view = { λ p. p.vec.items };

    ghost invariant = { λ p. HasCanonical (members p.vec.items) };
}

impl Pairs {
    /// No members yet.
    pub fn new(alloc: Global) -> Pairs
        ensures { result ≡ [] }
    {
        Pairs {
            vec: Vec::new(alloc),
        }
    }

    /// No members yet, with room for so many.
    pub fn with_capacity(alloc: Global, capacity: usize) -> Result<Pairs, NoMemory>
        ensures { IfOk result (λ pairs. pairs ≡ []) }
    {
        let vec = Vec::with_capacity(alloc, capacity)?;
        Ok(Pairs { vec })
    }

    /// Puts a member at the end. Its key is above each key before it.
    pub fn push(&mut self, key: Text, value: Json) -> Result<(), NoMemory>
        requires { AreAscending (members (self.old ++ (key, value) ∷ [])) }
        ensures pushed { IfOk result (λ _. self.new ≡ self.old ++ (key, value) ∷ []) }
        ensures same { OnErr result (self.new ≡ self.old) }
    {
        value.canonical();
        self.vec.push((key, value))?;
        Ok(())
    }

    pub fn as_slice(&self) -> &[(Text, Json)]
        ensures { result.now ≡ self.now }
    {
        self.vec.as_slice()
    }

    pub fn into_vec(self) -> Vec<(Text, Json)>
        ensures { result.items ≡ self }
    {
        let Pairs { vec } = self;
        vec
    }
}

// Tells a proof what holds of every value among these. It does nothing else.
fn are_canonical(items: &[Json])
    ensures { AreCanonical (trees items.now) }
{
    for item in items {
        item.canonical();
    }
}
