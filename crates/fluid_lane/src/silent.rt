//! Who was silent for too long.
ghost use Rattle.std.specs.Prelude.{◌≡◌, ℕ, ◌+◌, ◌<◌, List, slice_get, Some, None, IfSome};
ghost use Rattle.std.specs.Option.{option_map};
ghost use Rattle.std.specs.FinMap.{get, keys, len};
ghost use Rattle.fluid_lane.specs.Sweeps.{first_silent};

use fluid_clients::Clients;

// The place, in byte order of ids, of the first client that was last heard of more than so long before the moment.
pub(crate) fn first_silent(clients: &Clients, moment: u64, silence: u64) -> Option<u64>
    ensures none { result ≡ None → first_silent moment silence clients.now.rows ≡ None }
    ensures place { IfSome result (λ place. (place < len clients.now.rows) × (slice_get (keys clients.now.rows) place ≡ first_silent moment silence clients.now.rows)) }
{
    let before = moment.saturating_sub(silence);
    let count = clients.count();
    for place in 0..count {
        if heard_at(clients, place) < before {
            return Some(place);
        }
    }
    None
}

// The moment at which the client in this place was last heard of.
fn heard_at(clients: &Clients, place: u64) -> u64
    requires { place < len clients.now.rows }
    ensures { (id : List ℕ) → slice_get (keys clients.now.rows) place ≡ Some id → option_map (λ row. row.heard) (get clients.now.rows id) ≡ Some result }
{
    match clients.row_at(place) {
        Some(row) => row.heard,
        None => unreachable!(),
    }
}
