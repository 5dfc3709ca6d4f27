// What a call does to the C form of a table: whether every call refuses it, and a change stored in it.
#![tactic(auto, using(c_table_spec::proofs::CallForms::formWays))]

ghost use Rattle.std.specs.Prelude.{◌≡◌, set};
ghost use Rattle.c_table_spec.specs.Table.{at_of, change_with, place_of, refused, stored_form};

use c_table_spec::TableForm;
use nbr_metric_spec::Place;
use nbr_table_spec::{PLACES, Store};
use refusal::Refusal;

// Whether every call refuses a C form: it is no table's, or its table breaks a rule.
pub fn is_refused(form: &TableForm) -> bool
    ensures { result ≡ refused form.now }
{
    !form.is_table() || nbr_table::is_broken(&form.places, form.held_parent())
}

// Puts a place where it belongs; nothing, where there is none or it belongs behind the last.
fn put(places: &mut [Place; 32], found: Option<Store>)
    ensures { places.new ≡ set places.old (at_of found) (place_of found) }
{
    if let Some(Store { at, place }) = found
        && at < PLACES
    {
        places[at] = place;
    }
}

// Changes a table as a call does that has this number, stores this and leaves this held parent, and says the number that the call answers. A C
// form that is refused stays as it is. Any number may come with any place, so they are two parameters and no Result. The table is lent, so that
// a caller has it once.
pub fn stored(table: &mut TableForm, number: u8, found: Option<Store>, left: Option<u64>) -> u8
    ensures { record { number = result; table = table.new } ≡ stored_form table.old (change_with number found) left }
{
    if is_refused(table) {
        return Refusal::OutOfLimits.number();
    }
    put(&mut table.places, found);
    table.hold(left);
    number
}
