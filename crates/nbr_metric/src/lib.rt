// The path cost through a neighbour, and whether it may be a parent (docs/RULES.md, Neighbours).
#![tactic(auto)]

ghost use Rattle.std.specs.Prelude.{◌≡◌, ◌<◌, ◌≤◌, ◌^◌};
ghost use Rattle.nbr_metric_spec.specs.Metric.{FreshNeighbour, UnansweredIsNot, eligible as isEligible, offer as offer_of, path_cost};

use nbr_metric_spec::{HIGHEST_RANK, MINIMUM_RANK, NO_OFFER, Place};

pub mod increment;
pub mod join_metric;

// The path cost through a neighbour.
pub fn path_cost(place: Place) -> u32
    ensures answer { result ≡ path_cost place }
    ensures bound { result < 2 ^ 30 }
{
    u32::from(place.rank) + crate::increment::increment(place.attempts, place.acked)
}

// What a neighbour offers a node as its own rank: the path cost through it, or NO_OFFER where it may not be a parent. That is a number
// and no Option, as the definition `offer` has it: it is above all offers, so the lowest of them is found without a case for none.
pub fn offer(place: Place) -> u32
    ensures answer { result ≡ offer_of place }
    ensures bound { result ≤ 65535 }
{
    if !place.used {
        return NO_OFFER;
    }
    if u32::from(place.rank) < MINIMUM_RANK {
        return NO_OFFER;
    }
    // Where none was acknowledged, this leaves the fresh neighbours, which have no attempt.
    if 11 * u32::from(place.acked) < 3 * u32::from(place.attempts) {
        return NO_OFFER;
    }
    let cost = path_cost(place);
    if cost <= HIGHEST_RANK {
        return cost;
    }
    NO_OFFER
}

// Whether a neighbour may be a parent.
pub fn eligible(place: Place) -> bool
    ensures answer { result ≡ isEligible place }
    ensures fresh { FreshNeighbour }
    ensures unanswered { UnansweredIsNot }
{
    offer(place) < NO_OFFER
}
