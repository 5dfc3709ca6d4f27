// What is counted after some rows, and one row more.
ghost use Rattle.std.specs.Prelude.{◌≡◌, false, ◌+◌, ◌-◌, ◌<◌, ◌≤◌, ◌^◌, IfSome};
ghost use Rattle.octets_spec.specs.Choice.{if_eq, if_lt};
ghost use Rattle.nbr_replay_spec.specs.Tally.{OneMore, Room, counted as countedOf, no_counts};

use nbr_replay_spec::{Counts, Visit};

// Nothing counted yet.
pub(crate) fn nothing() -> Counts
    ensures { result ≡ no_counts }
{
    Counts {
        evaluations: 0,
        changes: 0,
        rises: 0,
        first: 0,
        last: 0,
        applies: true,
    }
}

// The rises with an evaluation more: the first of all has none.
#[tactic(auto, unfolding(octets_spec::specs::Choice::if_eq))]
fn rises_with(counts: Counts, entry: u32) -> u64
    requires { (counts.rises < 2 ^ 62) × (entry < 2 ^ 30) }
    ensures value { result ≡ if_eq counts.evaluations 0 0 (counts.rises + (entry - counts.last)) }
    ensures bound { result ≤ counts.rises + 2 ^ 30 }
{
    if counts.evaluations == 0 {
        return 0;
    }
    counts.rises + u64::from(entry.saturating_sub(counts.last))
}

// The first cost with an evaluation more.
#[tactic(auto, unfolding(octets_spec::specs::Choice::if_eq))]
fn first_with(counts: Counts, entry: u32) -> u32
    ensures { result ≡ if_eq counts.evaluations 0 entry counts.first }
{
    if counts.evaluations == 0 {
        return entry;
    }
    counts.first
}

// One row more: only what an evaluation shows is counted.
#[tactic(auto, using(nbr_replay_spec::proofs::StepLaws::countWays))]
pub(crate) fn counted(counts: Counts, shown: Option<Visit>) -> Counts
    requires { Room counts × IfSome shown (λ visit. visit.entry < 2 ^ 30) }
    ensures value { result ≡ countedOf counts shown }
    ensures bound { OneMore counts result }
{
    match shown {
        None => counts,
        Some(visit) => Counts {
            evaluations: counts.evaluations + 1,
            changes: counts.changes + u32::from(visit.change),
            rises: rises_with(counts, visit.entry),
            first: first_with(counts, visit.entry),
            last: visit.exit,
            applies: counts.applies & visit.eligible,
        },
    }
}

// Whether there was an evaluation, and each had an eligible parent on entry.
#[tactic(auto, unfolding(octets_spec::specs::Choice::if_lt))]
pub(crate) fn applies(counts: Counts) -> bool
    ensures { result ≡ if_lt 0 counts.evaluations counts.applies false }
{
    0 < counts.evaluations && counts.applies
}
