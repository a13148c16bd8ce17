// Values under the names of documents.
ghost use Rattle.std.specs.Prelude.{◌≡◌, ◌+◌, ◌<◌, ◌≤◌, IsSome, IfOk, IfErr, OnOk, option_map, Some};
ghost use Rattle.std.specs.FinMap.{empty, entries, get, insert, remove, len};
ghost use Rattle.fluid_table.specs.Keyed.{IsInOrder, IsAt, IsGap, pairs_of, table_of};
ghost use Rattle.fluid_lanes.specs.Rows.{name_of, value_of, TakesLast};

use fluid_json::NoMemory;
use fluid_table::{find, put};
use fluid_types::DocName;
use std::alloc::Global;
use std::marker::Model;

/// Names of documents, each once, in byte order, with their values in one vector. Contracts see the finite map.
#[derive(Drop)]
pub(crate) struct Rows<V> {
    rows: Vec<(DocName, V)>,
}

impl<V> Model for Rows<V> {
    ghost use Rattle.std.specs.Prelude.{vec_len, vec_capacity, ◌-◌};
    ghost use Rattle.fluid_table.specs.Table.{Table, table_code};
    ghost use Rattle.fluid_table.specs.Keyed.{IsInOrder, table_of};
    ghost use Rattle.fluid_lanes.specs.Rows.{name_of, value_of};

    ghost Value = { Table V };

    ghost coded = { table_code V V.code };

    ghost view = { λ r. record {
      values = table_of name_of value_of r.rows.items;
      spare = vec_capacity r.rows - vec_len r.rows;
    } };

    ghost invariant = { λ r. IsInOrder name_of value_of r.rows.items };
}

impl<V: Drop> Rows<V> {
    ghost use Rattle.std.specs.Borrow.{Lends, sem};
    ghost use Rattle.fluid_table.specs.Table.{with_value};
    ghost use Rattle.fluid_lanes.specs.contracts.rows.Rows.{the_row};

    /// No names.
    pub(crate) fn new(alloc: Global) -> Rows<V>
        ensures { result.values ≡ empty }
    {
        Rows {
            rows: Vec::new(alloc),
        }
    }

    /// How many names there are.
    pub(crate) fn len(&self) -> u64
        ensures { result ≡ len self.now.values }
    {
        self.rows.len() as u64
    }

    /// The rows, in byte order of the names.
    pub(crate) fn as_slice(&self) -> &[(DocName, V)]
        ensures { pairs_of name_of value_of result.now ≡ entries self.now.values }
    {
        self.rows.as_slice()
    }

    /// The value under a name; none where it has none.
    pub(crate) fn get(&self, name: &DocName) -> Option<&V>
        ensures { option_map (λ value. value.now) result ≡ get self.now.values name.now }
    {
        match find(&self.rows, name.as_str()) {
            Some(row) => Some(&row.1),
            None => None,
        }
    }

    /// The value of a name that has one, to be changed.
    pub(crate) fn lent(&mut self, name: &DocName) -> &mut V
        requires { IsSome (get self.old.values name.now) }
        ensures* lends { sem 𝓛 (Lends (the_row V.row) V.row self.entry result (with_value self.old name.now)) }
        ensures value { get self.old.values name.now ≡ Some result.now }
    {
        let at = place_of(&self.rows, name);
        let row = &mut self.rows[at];
        &mut row.1
    }

    /// Makes room for one more name. After `NoMemory` the rows are as they were.
    pub(crate) fn reserve(&mut self) -> Result<(), NoMemory>
        ensures same { self.new.values ≡ self.old.values }
        ensures room { OnOk result (0 < self.new.spare) }
    {
        self.rows.reserve(1)?;
        Ok(())
    }

    /// Puts a value under a name, in place of the one that it had. It needs room for one more name, and takes no memory.
    pub(crate) fn insert(&mut self, name: DocName, value: V)
        requires { 0 < self.old.spare }
        ensures { self.new.values ≡ insert self.old.values name value }
    {
        put(&mut self.rows, (name, value));
    }

    /// Takes a name out with its value.
    pub(crate) fn take(&mut self, name: &DocName) -> Option<V>
        ensures former { result ≡ get self.old.values name.now }
        ensures values { self.new.values ≡ remove self.old.values name.now }
    {
        match place(&self.rows, name) {
            Ok(at) => {
                let (_, value) = self.rows.remove(at);
                Some(value)
            }
            Err(_) => None,
        }
    }

    /// Takes the last name out with its value; none where there are no names.
    pub(crate) fn take_last(&mut self) -> Option<(DocName, V)>
        ensures { TakesLast self.old.values self.new.values result }
    {
        let count = self.rows.len();
        if count == 0 {
            return None;
        }
        Some(self.rows.remove(count - 1))
    }
}

// Where a name stands, or where it would stand.
fn place<V>(rows: &[(DocName, V)], name: &DocName) -> Result<usize, usize>
    requires { IsInOrder name_of value_of rows.now }
    ensures found { IfOk result (IsAt name_of rows.now name.now) }
    ensures absent { IfErr result (IsGap name_of rows.now name.now) }
{
    rows.binary_search_by(|row| row.0.as_str().cmp(name.as_str()))
}

// Where a name stands that is there.
fn place_of<V>(rows: &[(DocName, V)], name: &DocName) -> usize
    requires order { IsInOrder name_of value_of rows.now }
    requires there { IsSome (get (table_of name_of value_of rows.now) name.now) }
    ensures { IsAt name_of rows.now name.now result }
{
    match place(rows, name) {
        Ok(at) => at,
        Err(gap) => gap,
    }
}
