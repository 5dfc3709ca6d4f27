// Evaluate: sets the held parent and says the own rank. The rules are those of docs/RULES.md, Neighbours.
ghost use Rattle.std.specs.Prelude.{◌≡◌};
ghost use Rattle.nbr_table_spec.specs.Calls.{evaluated, evaluation_of};

use nbr_table_spec::{Evaluation, Table};
use refusal::Refusal;

// Sets the held parent, and says the own rank. A table that breaks a rule is refused with 8.
pub fn evaluate(table: Table) -> Result<Evaluation, Refusal>
    ensures { evaluation_of table result ≡ evaluated table }
{
    let mut after = crate::sound(table)?;
    let choice = nbr_parent::settle(&after.places, after.parent).choice;
    after.parent = choice.parent;
    Ok(Evaluation {
        table: after,
        rank: choice.rank,
    })
}
