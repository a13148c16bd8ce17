// The visits of the open documents, by name.
ghost use Rattle.std.specs.Prelude.{◌≡◌, ◌<◌, ◌++◌, ◌∷◌, [], false, length, map, IfOk, OnOk};
ghost use Rattle.std.specs.String.{string_bytes};
ghost use Rattle.fluid_service.specs.Visiting.{name_of, visits_of, AreNamed, is_among, find_visit, FindsVisit, TakesLast};
ghost use Rattle.indexmap.specs.IndexMap.{spare};

use crate::visit::Visit;
use fluid_json::NoMemory;
use fluid_log::Keeper;
use fluid_types::DocName;
use indexmap::IndexMap;
use std::alloc::Global;
use std::marker::Model;

/// The visits of documents, each name once, in the order in which they came.
#[derive(Drop)]
pub(crate) struct Roll<K: Keeper> {
    rows: IndexMap<String, (DocName, Visit<K>)>,
}

impl<K: Keeper> Model for Roll<K> {
    ghost use Rattle.std.specs.String.{string_bytes};
    ghost use Rattle.indexmap.specs.IndexMap.{spare};
    ghost use Rattle.fluid_service.specs.Visiting.{Enrolled, visits_of, AreNamed};
    ghost use Rattle.fluid_service.specs.Codes.{enrolled_code};

    ghost Value = { Enrolled };

    ghost coded = { enrolled_code };

    ghost view = { λ r. record { visits = visits_of r.rows.entries; spare = spare r.rows } };

    ghost invariant = { λ r. AreNamed string_bytes r.rows.entries };
}

impl<K: Keeper> Roll<K> {
    /// No visits.
    pub(crate) fn new(alloc: Global) -> Roll<K>
        ensures { result.visits ≡ [] }
    {
        Roll {
            rows: IndexMap::new(alloc),
        }
    }

    /// How many visits there are.
    pub(crate) fn len(&self) -> u64
        ensures { result ≡ length self.now.visits }
    {
        self.rows.len() as u64
    }

    /// A visit like the one under this name; none where there is none.
    pub(crate) fn find(&mut self, name: &DocName) -> Result<Option<Visit<K>>, NoMemory>
        ensures same { self.new ≡ self.old }
        ensures found { FindsVisit (find_visit name.now self.old.visits) result }
    {
        fork_under(&mut self.rows, name)
    }

    /// The names, in the order in which their visits came.
    pub(crate) fn names(&self, alloc: Global) -> Result<Vec<DocName>, NoMemory>
        ensures { IfOk result (λ names. names.items ≡ map name_of self.now.visits) }
    {
        let mut names = Vec::with_capacity(alloc, self.rows.len())?;
        for row in self.rows.values() {
            let name = row.0.copy(alloc)?;
            names.push(name)?;
        }
        Ok(names)
    }

    /// Makes room for one more name. After `NoMemory` the visits are as they were.
    pub(crate) fn reserve(&mut self) -> Result<(), NoMemory>
        ensures same { self.new.visits ≡ self.old.visits }
        ensures room { OnOk result (0 < self.new.spare) }
    {
        match self.rows.reserve(1) {
            Ok(()) => Ok(()),
            Err(_) => Err(NoMemory),
        }
    }

    /// Takes the last visit out with its name; none where there is none.
    pub(crate) fn pop(&mut self) -> Option<(DocName, Visit<K>)>
        ensures { TakesLast self.old.visits self.new.visits result }
    {
        let (_, row) = self.rows.pop()?;
        Some(row)
    }
}

impl<K: Keeper + Drop> Roll<K> {
    /// Puts a visit behind the others, under its name, which isn't among theirs. It needs room for one more name, and takes no memory.
    pub(crate) fn push(&mut self, text: String, name: DocName, visit: Visit<K>)
        requires named { (string_bytes text ≡ name) × (name ≡ name_of visit) }
        requires new { is_among (name_of visit) (map name_of self.old.visits) ≡ false }
        requires room { 0 < self.old.spare }
        ensures { self.new.visits ≡ self.old.visits ++ visit ∷ [] }
    {
        match self.rows.insert(text, (name, visit)) {
            Ok(None) => {}
            Ok(Some(_)) => unreachable!(),
            Err(_) => unreachable!(),
        }
    }
}

// Another visit like the one under this name. The rows stay as they are.
fn fork_under<K: Keeper>(
    rows: &mut IndexMap<String, (DocName, Visit<K>)>,
    name: &DocName,
) -> Result<Option<Visit<K>>, NoMemory>
    requires { AreNamed string_bytes rows.old.entries }
    ensures same { (rows.new.entries ≡ rows.old.entries) × (spare rows.new ≡ spare rows.old) }
    ensures found { FindsVisit (find_visit name.now (visits_of rows.old.entries)) result }
{
    let Some(row) = rows.get_mut(name.as_str()) else {
        return Ok(None);
    };
    match row.1.fork() {
        Ok(visit) => Ok(Some(visit)),
        Err(refused) => Err(refused),
    }
}
