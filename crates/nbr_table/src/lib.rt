// Whether a table breaks a rule, for which every call refuses it. The rules are those of docs/RULES.md, Neighbours.
#![tactic(auto)]

ghost use Rattle.std.specs.Prelude.{◌≡◌, nat_eq};
ghost use Rattle.std.specs.List.{list_any};
ghost use Rattle.nbr_table_spec.specs.Calls.{broken};

use arrayvec::ArrayVec;

pub mod place_limits;
pub mod search;

// Whether an identifier is one of these. No early exit, so that several are compared at once.
fn stands(ids: &[u64], id: u64) -> bool
    ensures { result ≡ list_any (nat_eq id) ids.now }
{
    let mut found = false;
    for other in ids {
        found |= id == *other;
    }
    found
}

// Whether the table of these places and this held parent breaks a rule: one walk over the places, which gathers the identifiers
// in use. C keeps the two in a struct of its own, so they come one by one: no table is copied to be tested.
pub fn is_broken(places: &[nbr_metric_spec::Place; 32], parent: Option<u64>) -> bool
    ensures { result ≡ broken (record { places = places.now; parent = parent }) }
{
    let mut ids: ArrayVec<u64, 32> = ArrayVec::new();
    for place in places {
        if crate::place_limits::is_unfit(place) {
            return true;
        }
        if place.used {
            if stands(ids.as_slice(), place.id) {
                return true;
            }
            ids.push(place.id);
        }
    }
    match parent {
        Some(id) => !stands(ids.as_slice(), id),
        None => false,
    }
}
