// Report: counts attempts to reach a neighbour. The rules are those of docs/RULES.md, Neighbours.
ghost use Rattle.std.specs.Prelude.{◌≡◌, ◌<◌, ◌≤◌, IfOk};
ghost use Rattle.nbr_table_spec.specs.Calls.{answer_of, reported};
ghost use Rattle.nbr_table_spec.specs.Changes.{attempted as attemptedPlace, with_counters};
ghost use Rattle.nbr_table_spec.specs.Stores.{change_of, reporting as reportingOf};

use nbr_metric_spec::Place;
use nbr_table_spec::{MOST_COUNTED, MOST_REPORTED, Store, Table};
use refusal::Refusal;

// A place with other counters.
fn with_counters(place: Place, attempts: u16, acked: u16) -> Place
    ensures { result ≡ with_counters attempts acked place }
{
    Place {
        attempts,
        acked,
        ..place
    }
}

// A report on a place within its limits: past 255 the counters are halved first.
fn attempted(place: Place, attempts: u16, acked: bool) -> Place
    requires { (attempts ≤ 4) × (place.attempts ≤ 255) × (place.acked ≤ 255) }
    ensures { result ≡ attemptedPlace attempts acked place }
{
    let sent = place.attempts;
    let heard = place.acked;
    let more = u16::from(acked);
    if MOST_COUNTED < sent + attempts {
        return with_counters(place, sent / 2 + attempts, heard / 2 + more);
    }
    with_counters(place, sent + attempts, heard + more)
}

// What a report stores, on these places. Other numbers of attempts than 1 to 4 are refused with 8, as is a place
// over its limits, and an unknown neighbour with 10.
pub fn reporting(
    places: &[Place; 32],
    id: u64,
    attempts: u32,
    acked: bool,
) -> Result<Store, Refusal>
    ensures change { change_of result ≡ reportingOf places.now id attempts acked }
    ensures inside { IfOk result (λ store. store.at < 32) }
{
    if attempts < 1 || MOST_REPORTED < attempts {
        return Err(Refusal::OutOfLimits);
    }
    let found = nbr_table::search::seek(places, id);
    let at = found.at.ok_or(Refusal::UnknownNeighbour)?;
    let before = places[at];
    if nbr_table::place_limits::is_unfit(&before) {
        return Err(Refusal::OutOfLimits);
    }
    let place = attempted(before, attempts as u16, acked);
    Ok(Store { at, place })
}

// Counts 1 to 4 attempts to reach a neighbour, acknowledged or not. A table that breaks a rule and other numbers of attempts
// are refused with 8, a neighbour that is not in the table with 10.
pub fn report(table: Table, id: u64, attempts: u32, acked: bool) -> Result<Table, Refusal>
    ensures { answer_of table result ≡ reported table id attempts acked }
{
    let mut after = crate::sound(table)?;
    let Store { at, place } = reporting(&after.places, id, attempts, acked)?;
    after.places[at] = place;
    Ok(after)
}
