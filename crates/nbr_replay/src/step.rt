// One row of a log on a table that breaks no rule. Every call keeps such a table so, and therefore none of them tests it again.
ghost use Rattle.std.specs.Prelude.{◌≡◌, false, ◌<◌, ◌^◌, IfSome, length, set};
ghost use Rattle.nbr_stability_spec.specs.Stability.{after};
ghost use Rattle.nbr_table_spec.specs.Calls.{broken};
ghost use Rattle.nbr_table_spec.specs.Stores.{change_of};
ghost use Rattle.nbr_replay_spec.specs.Tally.{meant, showing};

use nbr_metric_spec::Place;
use nbr_replay_spec::{Call, Visit};
use nbr_table_spec::{Store, Table};
use refusal::Refusal;

// Stores what a call found out, unless it is refused.
fn put(places: &mut [Place; 32], found: Result<Store, Refusal>)
    ensures { places.new ≡ set places.old (change_of found).at (change_of found).place }
{
    if let Ok(Store { at, place }) = found
        && at < nbr_table_spec::PLACES
    {
        places[at] = place;
    }
}

// Makes a call on the table, and says what it shows, if it is an evaluation.
#[tactic(auto, using(nbr_replay_spec::proofs::StepLaws::stepWays))]
pub(crate) fn step(table: &mut Table, call: Call) -> Option<Visit>
    requires sound { broken table.old ≡ false }
    requires long { length table.old.places ≡ 32 }
    ensures leaves { table.new ≡ after table.old (meant call) }
    ensures long { length table.new.places ≡ 32 }
    ensures shows { result ≡ showing table.old (meant call) }
    ensures small { IfSome result (λ visit. visit.entry < 2 ^ 30) }
{
    match call {
        Call::Advertise { id, rank } => {
            let found = nbr_calls::advertise::advertising(&table.places, id, rank);
            put(&mut table.places, found);
            None
        }
        Call::Report {
            id,
            attempts,
            acked,
        } => {
            let found = nbr_calls::report::reporting(&table.places, id, u32::from(attempts), acked);
            put(&mut table.places, found);
            None
        }
        Call::Forget { id } => {
            let found = nbr_calls::forget::forgetting(&table.places, id);
            put(&mut table.places, found);
            table.parent = nbr_calls::forget::without(table.parent, id);
            None
        }
        Call::Evaluate => {
            let before = table.parent;
            let settlement = nbr_parent::settle(&table.places, before);
            table.parent = settlement.choice.parent;
            Some(crate::visit::seen(settlement.held, before, settlement.choice))
        }
    }
}
