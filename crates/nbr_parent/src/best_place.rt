// What an evaluation looks for in the places of a table: what the best place offers, by least path cost, then lower identifier, and
// the place of the held parent. The rules are those of docs/RULES.md, Neighbours.
ghost use Rattle.std.specs.Prelude.{◌≡◌};
ghost use Rattle.nbr_table_spec.specs.Places.{best};
ghost use Rattle.nbr_table_spec.specs.Calls.{held_place as heldPlace};
ghost use Rattle.nbr_table_spec.specs.Offers.{offer_of as offerOf, surveyed};

use nbr_metric_spec::Place;
use nbr_table_spec::{Offer, Survey};

// What the best place offers, with its identifier: NO_OFFER with 0 if no place is eligible.
fn best_offer(places: &[Place; 32]) -> Offer
    ensures { result ≡ offerOf (best places.now) }
{
    let mut kept = Offer {
        cost: nbr_metric_spec::NO_OFFER,
        id: 0,
    };
    for place in places {
        let offered = Offer {
            cost: nbr_metric::offer(*place),
            id: place.id,
        };
        kept = kept.min(offered);
    }
    kept
}

// The place of the held parent, the blank one for none: it offers nothing, so that no case stands apart.
fn held_place(places: &[Place; 32], parent: Option<u64>) -> Place
    ensures { result ≡ heldPlace parent places.now }
{
    match parent {
        Some(id) => match nbr_table::search::seek(places, id).at {
            Some(at) => places[at],
            None => nbr_metric_spec::blank(),
        },
        None => nbr_metric_spec::blank(),
    }
}

// Both.
pub fn survey(places: &[Place; 32], parent: Option<u64>) -> Survey
    ensures { result ≡ surveyed places.now parent }
{
    Survey {
        best: best_offer(places),
        held: held_place(places, parent),
    }
}
