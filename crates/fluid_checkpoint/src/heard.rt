// When clients were heard last.
ghost use Rattle.std.specs.Prelude.{◌≡◌, ◌<◌, IfOk, Some, slice_get};
ghost use Rattle.std.specs.FinMap.{entries, len};
ghost use Rattle.fluid_checkpoint.specs.Heard.{moments_of};

use fluid_clients::{Clients, Row};
use fluid_json::NoMemory;
use fluid_types::ClientId;
use std::alloc::Global;
use std::marker::Model;

/// Ids, each with the moment at which it was heard last. Those of joined clients stand in byte order of their ids.
#[derive(Drop)]
pub struct Moments {
    vec: Vec<(ClientId, u64)>,
}

impl Model for Moments {
    ghost use Rattle.std.specs.Prelude.{ℕ, List};
    ghost use Rattle.std.specs.Coded.{coded×, coded_ℕ, coded_list};

    ghost Value = { List (List ℕ × ℕ) };

    ghost coded = { coded_list (coded× (coded_list coded_ℕ) coded_ℕ) };

    ghost view = { λ m. m.vec.items };
}

impl Moments {
    /// Takes no memory.
    pub fn new(vec: Vec<(ClientId, u64)>) -> Moments
        ensures { result ≡ vec.items }
    {
        Moments { vec }
    }

    /// The moments of the joined clients.
    pub fn of(alloc: Global, clients: &Clients) -> Result<Moments, NoMemory>
        ensures { IfOk result (λ moments. moments ≡ moments_of clients.now.rows) }
    {
        let rows = rows_of(alloc, clients)?;
        let mut vec = Vec::with_capacity(alloc, rows.len())?;
        for (id, row) in rows {
            vec.push((id, row.heard))?;
        }
        Ok(Moments { vec })
    }

    /// Takes no memory.
    pub fn into_vec(self) -> Vec<(ClientId, u64)>
        ensures { result.items ≡ self }
    {
        let Moments { vec } = self;
        vec
    }

    pub fn as_slice(&self) -> &[(ClientId, u64)]
        ensures { result.now ≡ self.now }
    {
        self.vec.as_slice()
    }
}

/// The joined clients with their rows, in byte order of their ids.
pub(crate) fn rows_of(alloc: Global, clients: &Clients) -> Result<Vec<(ClientId, Row)>, NoMemory>
    ensures { IfOk result (λ rows. rows.items ≡ entries clients.now.rows) }
{
    let mut rows = Vec::new(alloc);
    for place in 0..clients.count() {
        let (id, row) = client_at(clients, place);
        rows.push((id.copy(alloc)?, *row))?;
    }
    Ok(rows)
}

fn client_at(clients: &Clients, place: u64) -> (&ClientId, &Row)
    requires { place < len clients.now.rows }
    ensures { slice_get (entries clients.now.rows) place ≡ Some (result.0.now, result.1.now) }
{
    let id = clients.id_at(place).unwrap();
    let row = clients.row(id).unwrap();
    (id, row)
}
