// Where the keeper of each document is.
ghost use Rattle.std.specs.Prelude.{◌≡◌, None, Some, OnOk, OnErr, IsSome};
ghost use Rattle.std.specs.Option.{option_copied};
ghost use Rattle.std.specs.FinMap.{empty, get, insert};

use crate::place::Place;
use fluid_json::NoMemory;
use fluid_table::SortedMap;
use fluid_types::DocName;
use std::alloc::Global;
use std::marker::Model;

// The place of each document that was asked for.
#[derive(Drop)]
pub(crate) struct Table {
    rows: SortedMap<DocName, Place>,
}

impl Model for Table {
    ghost use Rattle.std.specs.Coded.{coded_list, coded_ℕ};
    ghost use Rattle.std.specs.FinMap.{code};
    ghost use Rattle.fluid_log.specs.Places.{Places};
    ghost use Rattle.fluid_log.specs.contracts.place.Place as place;

    ghost Value = { Places };

    ghost coded = { code (coded_list coded_ℕ) place.the_row.coded };

    ghost view = { λ t. t.rows.values };
}

impl Table {
    pub(crate) fn new(alloc: Global) -> Table
        ensures { result ≡ empty }
    {
        Table {
            rows: SortedMap::new(alloc),
        }
    }

    // The place of a document; none where it wasn't asked for.
    pub(crate) fn get(&self, name: &DocName) -> Option<&Place>
        ensures { option_copied result ≡ get self.now name.now }
    {
        self.rows.get(name.as_str())
    }

    // Puts another place under a name, and gives the one before.
    pub(crate) fn replace(&mut self, name: &DocName, place: Place) -> Place
        requires { IsSome (get self.old name.now) }
        ensures before { get self.old name.now ≡ Some result }
        ensures after { self.new ≡ insert self.old name.now place }
    {
        self.rows.replace(name.as_str(), place).unwrap()
    }

    // Puts a place under a new name. After `NoMemory` the table is as it was.
    pub(crate) fn add(&mut self, name: DocName, place: Place) -> Result<(), NoMemory>
        ensures added { OnOk result (self.new ≡ insert self.old name place) }
        ensures same { OnErr result (self.new ≡ self.old) }
    {
        self.rows.reserve(1)?;
        self.rows.insert(name, place);
        Ok(())
    }
}
