// Runs a log of calls on a table, and counts what the claim that parents do not flap speaks of.
#![tactic(auto)]

use nbr_metric_spec::Place;
use nbr_replay_spec::Outcome;
use nbr_table_spec::Table;
use refusal::Refusal;

mod count;
mod step;

ghost use Rattle.std.specs.Prelude.{◌≡◌, false, true, ◌+◌, ◌*◌, ◌≤◌, length, Ok};
ghost use Rattle.nbr_table_spec.specs.Calls.{broken};
ghost use Rattle.nbr_stability_spec.specs.Stability.{evaluations, none_refused};
ghost use Rattle.nbr_replay_spec.specs.Log.{calls};
ghost use Rattle.nbr_replay_spec.specs.Replay.{outcome, outcome_of, replayed};
ghost use Rattle.nbr_replay_spec.specs.Tally.{EquallyLong};
ghost use Rattle.nbr_replay.specs.Rows.{rows_of};

pub mod log;
pub mod visit;

// The places of a table that is lent are 32: does nothing, and says it.
fn has_32_places(places: &[Place; 32])
    ensures { length places.now ≡ 32 }
{}

// Runs all rows on a table that breaks no rule.
fn run(table: &mut Table, log: &crate::log::Log<'_>) -> Outcome
    requires { EquallyLong (rows_of log.now) × (length log.now.kinds.now ≤ 65535) × (broken table.old ≡ false) }
    ensures { outcome_of table.new (Ok result) ≡ outcome table.old (calls (rows_of log.now)) }
{
    has_32_places(&table.places);
    let mut counts = count::nothing();
    for i in 0..log.kinds.len() {
        let visit = step::step(table, log.call(i));
        counts = count::counted(counts, visit);
    }
    Outcome {
        evaluations: counts.evaluations,
        changes: counts.changes,
        rises: counts.rises,
        first: counts.first,
        last: counts.last,
        applies: count::applies(counts),
    }
}

// Runs a log on a table. A table that breaks a rule is refused with 8; so is a log whose lists are not equally long, that
// has over 65535 rows, a kind over 3 or a flag over 1; the table then stays as it is. On what it counts, parents do not flap.
pub fn replay(table: &mut Table, log: &crate::log::Log<'_>) -> Result<Outcome, Refusal>
    ensures answer { outcome_of table.new result ≡ replayed table.old (rows_of log.now) }
    ensures bound { let said = outcome_of table.new result in said.applies ≡ true → 641 * said.changes + said.last ≤ said.first + said.rises }
    ensures few { let said = outcome_of table.new result in said.applies ≡ true → said.rises ≡ 0 → said.changes ≤ 101 }
    ensures accepted { (outcome_of table.new result).number ≡ 0 → none_refused (evaluations table.old (calls (rows_of log.now))) ≡ true }
{
    if nbr_table::is_broken(&table.places, table.parent) {
        return Err(Refusal::OutOfLimits);
    }
    if log.is_unfit() {
        return Err(Refusal::OutOfLimits);
    }
    Ok(run(table, log))
}
