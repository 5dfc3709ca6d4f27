// The neighbour table for C: a table goes in by value and comes back by value with the call's number, also where the call is refused.
// C has no enum with values: a mark with the identifier beside it, the numbers of the answers and the four lists of a log are the C interface.
ghost use Rattle.std.specs.Prelude.{◌≡◌, true, ◌+◌, ◌*◌, ◌≤◌};
ghost use Rattle.nbr_replay_spec.specs.Log.{calls, log as logOf};
ghost use Rattle.nbr_replay.specs.Rows.{rows_of};
ghost use Rattle.nbr_table_spec.specs.Stores.{change_of};
ghost use Rattle.c_table_spec.specs.Table.{advertised_form, empty_form, evaluated_form, forgotten_form, outcome_told, replayed_form, reported_form, stored_form};
ghost use Rattle.c_table_spec.specs.Claims.{form_evaluations, none_refused_in_c};

use c_table_spec::{EvaluationAnswer, ReplayAnswer, TableAnswer, TableForm};
use nbr_replay::log::Log;
use nbr_replay_spec::Outcome;
use nbr_table_spec::{Store, Table};
use refusal::Refusal;

// A table without neighbours.
#[unsafe(no_mangle)]
pub extern "C" fn tesolvagna_table_init() -> TableForm
    ensures { result ≡ empty_form }
{
    TableForm {
        places: [nbr_metric_spec::blank(); 32],
        held: false,
        parent: 0,
    }
}

// Changes a table as a call does that found this to store, or why it is refused, and leaves this held parent, and says the number that
// the call answers.
fn told(table: &mut TableForm, found: Result<Store, Refusal>, left: Option<u64>) -> u8
    ensures { record { number = result; table = table.new } ≡ stored_form table.old (change_of found) left }
{
    c_table::stored(table, refusal::number_in(found), found.ok(), left)
}

// Sets a neighbour's rank, or adds the neighbour: 8 for a table that is refused, 11 for a new neighbour where no place is free.
#[unsafe(no_mangle)]
pub extern "C" fn tesolvagna_table_advertise(
    mut table: TableForm,
    id: u64,
    rank: u16,
) -> TableAnswer
    ensures { result ≡ advertised_form table id rank }
{
    let parent = table.held_parent();
    let found = nbr_calls::advertise::advertising(&table.places, id, rank);
    let number = told(&mut table, found, parent);
    TableAnswer { number, table }
}

// Counts 1 to 4 attempts to reach a neighbour: 8 for a table that is refused and for other numbers, 10 for an unknown neighbour.
#[unsafe(no_mangle)]
pub extern "C" fn tesolvagna_table_report(
    mut table: TableForm,
    id: u64,
    attempts: u32,
    acked: bool,
) -> TableAnswer
    ensures { result ≡ reported_form table id attempts acked }
{
    let parent = table.held_parent();
    let found = nbr_calls::report::reporting(&table.places, id, attempts, acked);
    let number = told(&mut table, found, parent);
    TableAnswer { number, table }
}

// Removes a neighbour: 8 for a table that is refused, 10 for an unknown neighbour.
#[unsafe(no_mangle)]
pub extern "C" fn tesolvagna_table_forget(mut table: TableForm, id: u64) -> TableAnswer
    ensures { result ≡ forgotten_form table id }
{
    let parent = table.held_parent();
    let left = nbr_calls::forget::without(parent, id);
    let found = nbr_calls::forget::forgetting(&table.places, id);
    let number = told(&mut table, found, left);
    TableAnswer { number, table }
}

// Sets the held parent, and says the own rank, the parent and whether it changed: 8 for a table that is refused.
#[unsafe(no_mangle)]
pub extern "C" fn tesolvagna_table_evaluate(mut table: TableForm) -> EvaluationAnswer
    ensures { result ≡ evaluated_form table }
{
    if c_table::is_refused(&table) {
        return EvaluationAnswer {
            number: Refusal::OutOfLimits.number(),
            changed: false,
            rank: nbr_metric_spec::INFINITE_RANK,
            held: table.held,
            parent: table.parent,
            table,
        };
    }
    let before = table.held_parent();
    let choice = nbr_parent::settle(&table.places, before).choice;
    table.hold(choice.parent);
    EvaluationAnswer {
        number: refusal::DONE,
        changed: before != choice.parent,
        rank: choice.rank,
        held: table.held,
        parent: table.parent,
        table,
    }
}

// Runs a log of calls on the table that a C form is; one that is no table's is refused. What is refused stays as it is.
fn replayed(form: &mut TableForm, log: &Log<'_>) -> Result<Outcome, Refusal>
    ensures { outcome_told form.new result ≡ replayed_form form.old (rows_of log.now) }
{
    let mut table = Table::try_from(&*form)?;
    let ended = nbr_replay::replay(&mut table, log);
    *form = TableForm::from(&table);
    ended
}

// Runs a log of calls on a table, one row for each call: 8 for a table or a log that is refused. On what it counts, parents do not
// flap.
#[unsafe(no_mangle)]
pub extern "C" fn tesolvagna_table_replay(
    mut table: TableForm,
    kinds: &[u8],
    ids: &[u64],
    values: &[u16],
    flags: &[u8],
) -> ReplayAnswer
    ensures answer { result ≡ replayed_form table (logOf kinds.now ids.now values.now flags.now) }
    ensures bound { result.applies ≡ true → 641 * result.changes + result.last ≤ result.first + result.rises }
    ensures few { result.applies ≡ true → result.rises ≡ 0 → result.changes ≤ 101 }
    ensures accepted { result.number ≡ 0 → none_refused_in_c (form_evaluations table (calls (logOf kinds.now ids.now values.now flags.now))) ≡ true }
{
    let log = Log {
        kinds,
        ids,
        values,
        flags,
    };
    match replayed(&mut table, &log) {
        Ok(ended) => ReplayAnswer {
            number: refusal::DONE,
            applies: ended.applies,
            evaluations: ended.evaluations,
            changes: ended.changes,
            rises: ended.rises,
            first: ended.first,
            last: ended.last,
            table,
        },
        Err(refusal) => ReplayAnswer {
            number: refusal.number(),
            applies: false,
            evaluations: 0,
            changes: 0,
            rises: 0,
            first: 0,
            last: 0,
            table,
        },
    }
}
