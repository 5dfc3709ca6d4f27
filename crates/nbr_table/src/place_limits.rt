// Which places of a table break a rule by themselves. The rules are those of docs/RULES.md, Neighbours.
ghost use Rattle.std.specs.Prelude.{◌≡◌};
ghost use Rattle.nbr_table_spec.specs.Places.{nonzero, unfit};

use nbr_metric_spec::Place;

// Whether a place is not all zero.
fn is_nonzero(place: &Place) -> bool
    ensures { result ≡ nonzero place.now }
{
    (0 < place.id) | ((0 < place.rank) | ((0 < place.attempts) | (0 < place.acked)))
}

// Whether a place breaks a rule by itself. No branch: most places break none.
pub fn is_unfit(place: &Place) -> bool
    ensures { result ≡ unfit place.now }
{
    (nbr_table_spec::MOST_COUNTED < place.attempts)
        | ((place.attempts < place.acked) | (!place.used & is_nonzero(place)))
}
