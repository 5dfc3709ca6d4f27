// Advertise: sets a neighbour's rank, or adds a neighbour. The rules are those of docs/RULES.md, Neighbours.
ghost use Rattle.std.specs.Prelude.{◌≡◌, ◌<◌, IfOk};
ghost use Rattle.nbr_table_spec.specs.Calls.{advertised, answer_of};
ghost use Rattle.nbr_table_spec.specs.Changes.{newcomer as newPlace, with_rank};
ghost use Rattle.nbr_table_spec.specs.Stores.{advertising as advertisingOf, change_of};

use nbr_metric_spec::Place;
use nbr_table_spec::{Store, Table};
use refusal::Refusal;

// A place with another rank.
fn with_rank(place: Place, rank: u16) -> Place
    ensures { result ≡ with_rank rank place }
{
    Place { rank, ..place }
}

// A neighbour that is added.
fn newcomer(id: u64, rank: u16) -> Place
    ensures { result ≡ newPlace id rank }
{
    Place {
        id,
        rank,
        used: true,
        ..nbr_metric_spec::blank()
    }
}

// What an advertisement stores, on these places; without a free place for a new neighbour it is refused with 11.
pub fn advertising(places: &[Place; 32], id: u64, rank: u16) -> Result<Store, Refusal>
    ensures change { change_of result ≡ advertisingOf places.now id rank }
    ensures inside { IfOk result (λ store. store.at < 32) }
{
    let found = nbr_table::search::seek(places, id);
    if let Some(at) = found.at {
        let place = with_rank(places[at], rank);
        return Ok(Store { at, place });
    }
    let at = found.unused.ok_or(Refusal::TableFull)?;
    let place = newcomer(id, rank);
    Ok(Store { at, place })
}

// Sets a neighbour's rank, or adds the neighbour in the lowest-numbered free place. A table that breaks a rule is refused with
// 8, and one without a free place for a new neighbour with 11.
pub fn advertise(table: Table, id: u64, rank: u16) -> Result<Table, Refusal>
    ensures { answer_of table result ≡ advertised table id rank }
{
    let mut after = crate::sound(table)?;
    let Store { at, place } = advertising(&after.places, id, rank)?;
    after.places[at] = place;
    Ok(after)
}
