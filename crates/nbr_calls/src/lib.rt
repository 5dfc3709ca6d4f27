// The four calls of a neighbour table. Each gives the table afterwards, or why it is refused; the table that it got stays as it was then.
// `advertising`, `reporting` and `forgetting` find out on 32 places what a call stores; callers that keep a table in another form use them.
#![tactic(auto)]

ghost use Rattle.std.specs.Prelude.{◌≡◌, false, true, IfErr, IfOk};
ghost use Rattle.refusal.specs.Refusal.{number_of, out_of_limits};
ghost use Rattle.nbr_table_spec.specs.Calls.{broken};

use nbr_table_spec::Table;
use refusal::Refusal;

pub mod advertise;
pub mod evaluate;
pub mod forget;
pub mod report;

// The table that a call goes on with. A table that breaks a rule is refused with 8.
fn sound(table: Table) -> Result<Table, Refusal>
    ensures ok { IfOk result (λ given. (given ≡ table) × (broken table ≡ false)) }
    ensures err { IfErr result (λ refusal. (number_of refusal ≡ out_of_limits) × (broken table ≡ true)) }
{
    if nbr_table::is_broken(&table.places, table.parent) {
        return Err(Refusal::OutOfLimits);
    }
    Ok(table)
}
