ghost use Rattle.std.specs.Prelude.{◌≡◌, ℕ, List, [], ◌∷◌, ◌==◌, ◌||◌, map, not, true, IfOk};
ghost use Rattle.std.specs.List.{list_any};
ghost use Rattle.fluid_tree.specs.Names.{is_bad, is_refused, first_refused, Knows};
ghost use Rattle.fluid_tree.specs.Summary.{children, names};

use crate::node::Node;
use crate::object::ObjectEntry;
use fluid_json::{NoMemory, Text};
use std::alloc::Global;
use std::collections::BTreeSet;

/// Whether no entry may have this name.
pub(crate) fn is_bad(name: &str) -> bool
    ensures { result ≡ is_bad name.now }
{
    if name.is_empty() {
        return true;
    }
    if name == "." {
        return true;
    }
    if name == ".." {
        return true;
    }
    has_separator(name)
}

// Whether a `/` or a zero byte stands in it.
fn has_separator(name: &str) -> bool
    ensures { result ≡ list_any (λ x. x == 47 || x == 0) name.now }
{
    let bytes = name.as_bytes();
    for byte in bytes {
        if *byte == b'/' {
            return true;
        }
        if *byte == 0 {
            return true;
        }
    }
    false
}

// The names that a tree has so far.
#[derive(Drop)]
pub(crate) struct Names {
    seen: BTreeSet<String>,
}

impl Names {
    pub(crate) fn new(alloc: Global) -> Names
        ensures { Knows result.seen [] }
    {
        Names {
            seen: BTreeSet::new(alloc),
        }
    }

    // Whether the name may stand behind those admitted before. It is admitted then.
    pub(crate) fn admit(&mut self, alloc: Global, name: &str) -> Result<bool, NoMemory>
        ensures { (before : List (List ℕ)) → Knows self.old.seen before → IfOk result (λ admitted.
            (admitted ≡ not (is_refused before name.now)) × (admitted ≡ true → Knows self.new.seen (name.now ∷ before))) }
    {
        if is_bad(name) {
            return Ok(false);
        }
        let key = String::from_str(alloc, name)?;
        let admitted = self.seen.insert(key)?;
        Ok(admitted)
    }
}

// The first entry's name that is refused.
#[tactic(auto, unfolding(crate::specs::Names::first_refused))]
pub(crate) fn first_refused_entry(
    alloc: Global,
    entries: &[ObjectEntry],
) -> Result<Option<Text>, NoMemory>
    ensures { IfOk result (λ found. found ≡ first_refused [] (map (λ e. e.name) entries.now)) }
{
    let mut names = Names::new(alloc);
    for entry in entries {
        let admitted = names.admit(alloc, entry.name.as_str())?;
        if !admitted {
            let name = entry.name.copy(alloc)?;
            return Ok(Some(name));
        }
    }
    Ok(None)
}

// The first node's name that is refused.
#[tactic(auto, unfolding(crate::specs::Names::first_refused))]
pub(crate) fn first_refused_child(
    alloc: Global,
    entries: &[(Text, Node)],
) -> Result<Option<Text>, NoMemory>
    ensures { IfOk result (λ found. found ≡ first_refused [] (names (children entries.now))) }
{
    let mut names = Names::new(alloc);
    for (name, _) in entries {
        let admitted = names.admit(alloc, name.as_str())?;
        if !admitted {
            let name = name.copy(alloc)?;
            return Ok(Some(name));
        }
    }
    Ok(None)
}
