// Looking for places: where a neighbour stands, and a free place.
ghost use Rattle.std.specs.Prelude.{◌≡◌, ◌<◌, IfSome, position};
ghost use Rattle.nbr_table_spec.specs.Places.{free, named};
ghost use Rattle.nbr_table_spec.specs.Stores.{found, found_of};

use nbr_metric_spec::Place;
use nbr_table_spec::Found;

// Whether a place is in use by this neighbour.
fn is_named(place: &Place, id: u64) -> bool
    ensures { result ≡ named id place.now }
{
    place.used & (place.id == id)
}

// Whether a place is free.
fn is_free(place: &Place) -> bool
    ensures { result ≡ free place.now }
{
    !place.used
}

// Where a neighbour stands, by number.
fn own(places: &[Place; 32], id: u64) -> Option<usize>
    ensures { result ≡ position (named id) places.now }
{
    places.iter().position(|place| is_named(place, id))
}

// The lowest-numbered free place, by number.
fn unused(places: &[Place; 32]) -> Option<usize>
    ensures { result ≡ position free places.now }
{
    places.iter().position(|place| is_free(place))
}

// Where a neighbour stands, and the lowest-numbered free place, by number.
pub fn seek(places: &[Place; 32], id: u64) -> Found
    ensures found { found_of result ≡ found id places.now }
    ensures own { IfSome result.at (λ at. at < 32) }
    ensures free { IfSome result.unused (λ at. at < 32) }
{
    Found {
        at: own(places, id),
        unused: unused(places),
    }
}
