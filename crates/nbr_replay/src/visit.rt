// What one evaluation shows to the claim that parents do not flap.
ghost use Rattle.std.specs.Prelude.{◌≡◌, ◌<◌, ◌^◌};
ghost use Rattle.nbr_metric_spec.specs.Metric.{path_cost};
ghost use Rattle.nbr_table_spec.specs.Calls.{mark_of};
ghost use Rattle.octets_spec.specs.Choice.{if_on};
ghost use Rattle.nbr_replay_spec.specs.Tally.{shown};

use nbr_metric_spec::Place;
use nbr_replay_spec::Visit;
use nbr_table_spec::Choice;

// The held parent's cost before an evaluation: that of its place, 0 for none.
#[tactic(auto, unfolding(octets_spec::specs::Choice::if_on, nbr_table_spec::specs::Calls::mark_of))]
fn entry_of(held: Place, before: Option<u64>) -> u32
    ensures value { result ≡ if_on (mark_of before) (path_cost held) 0 }
    ensures bound { result < 2 ^ 30 }
{
    match before {
        Some(_) => nbr_metric::path_cost(held),
        None => 0,
    }
}

// The held parent's cost after an evaluation: the own rank, 0 for none.
#[tactic(auto, unfolding(octets_spec::specs::Choice::if_on, nbr_table_spec::specs::Calls::mark_of))]
fn exit_of(choice: Choice) -> u32
    ensures { result ≡ if_on (mark_of choice.parent) choice.rank 0 }
{
    match choice.parent {
        Some(_) => u32::from(choice.rank),
        None => 0,
    }
}

// What an evaluation shows that found a parent held, at this place, and made this choice.
#[tactic(auto, unfolding(nbr_table_spec::specs::Calls::same_parent))]
pub fn seen(held: Place, before: Option<u64>, choice: Choice) -> Visit
    ensures value { result ≡ shown held before choice }
    ensures bound { result.entry < 2 ^ 30 }
{
    Visit {
        change: before != choice.parent,
        entry: entry_of(held, before),
        exit: exit_of(choice),
        eligible: nbr_metric::eligible(held),
    }
}
