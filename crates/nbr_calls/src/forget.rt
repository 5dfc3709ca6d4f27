// Forget: removes a neighbour. The rules are those of docs/RULES.md, Neighbours.
ghost use Rattle.std.specs.Prelude.{◌≡◌, ◌<◌, IfOk};
ghost use Rattle.nbr_table_spec.specs.Calls.{answer_of, forgotten, without as withoutParent};
ghost use Rattle.nbr_table_spec.specs.Stores.{change_of, forgetting as forgettingOf};

use nbr_metric_spec::Place;
use nbr_table_spec::{Store, Table};
use refusal::Refusal;

// The held parent once this neighbour is removed.
pub fn without(parent: Option<u64>, id: u64) -> Option<u64>
    ensures { result ≡ withoutParent id parent }
{
    parent.filter(|held| *held != id)
}

// What forgetting a neighbour stores, on these places; an unknown neighbour is refused with 10.
pub fn forgetting(places: &[Place; 32], id: u64) -> Result<Store, Refusal>
    ensures change { change_of result ≡ forgettingOf places.now id }
    ensures inside { IfOk result (λ store. store.at < 32) }
{
    let found = nbr_table::search::seek(places, id);
    let at = found.at.ok_or(Refusal::UnknownNeighbour)?;
    let place = nbr_metric_spec::blank();
    Ok(Store { at, place })
}

// Removes a neighbour; its place is free again, and a held parent so removed becomes none. A table that breaks a rule is refused
// with 8, a neighbour that is not in the table with 10.
pub fn forget(table: Table, id: u64) -> Result<Table, Refusal>
    ensures { answer_of table result ≡ forgotten table id }
{
    let mut after = crate::sound(table)?;
    let Store { at, place } = forgetting(&after.places, id)?;
    after.places[at] = place;
    after.parent = without(after.parent, id);
    Ok(after)
}
