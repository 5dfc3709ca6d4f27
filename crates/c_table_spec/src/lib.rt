// The C form of a neighbour table and of what the calls on it answer: structs without enums, laid out as C lays them out, how a table
// becomes its C form and back, and the theorems that tie both to the tables of the rules (specs/). include/tesolvagna.h declares the
// same structs: their marks beside an identifier and their numbers are the C interface.
#![tactic(auto)]

ghost use Rattle.std.specs.Prelude.{◌≡◌};
ghost use Rattle.nbr_table_spec.specs.Calls.{id_of, mark_of};
ghost use Rattle.c_table_spec.specs.Table.{form_of, is_table, parent_of, tried};
ghost use Rattle.c_table_spec.specs.Claims.{AtMost101ChangesInC, CallsAgree, ChangesAreFlagged, EvaluationsAgree, FormsAreTables, NoneRefusedInC, ParentsDoNotFlapInC, RefusalsChangeNothing, TablesAreForms, Witnessed};

use nbr_metric_spec::Place;
use nbr_table_spec::Table;
use refusal::Refusal;

// A table: whether a parent is held, its identifier, 0 where none is held, and 32 places.
#[repr(C)]
#[derive(Clone, Copy)]
pub struct TableForm {
    pub held: bool,
    pub parent: u64,
    pub places: [Place; 32],
}

// What advertise, report and forget answer: the number, and the table, which is the one given where the number is not 0.
#[repr(C)]
#[derive(Clone, Copy)]
pub struct TableAnswer {
    pub number: u8,
    pub table: TableForm,
}

// What an evaluation answers: also whether the parent changed, the own rank (65535 without a parent and where it is refused), and
// the parent that is held afterwards.
#[repr(C)]
#[derive(Clone, Copy)]
pub struct EvaluationAnswer {
    pub number: u8,
    pub changed: bool,
    pub rank: u16,
    pub held: bool,
    pub parent: u64,
    pub table: TableForm,
}

// What the replay of a log answers: also what it counted, and whether the bound on changes applies.
#[repr(C)]
#[derive(Clone, Copy)]
pub struct ReplayAnswer {
    pub number: u8,
    pub applies: bool,
    pub evaluations: u32,
    pub changes: u32,
    pub rises: u64,
    pub first: u32,
    pub last: u32,
    pub table: TableForm,
}

impl TableForm {
    // The held parent.
    #[tactic(auto, unfolding(crate::specs::Table::parent_of))]
    pub fn held_parent(&self) -> Option<u64>
        ensures { result ≡ parent_of self.now.held self.now.parent }
    {
        if self.held { Some(self.parent) } else { None }
    }

    // Whether it is a table's: there is no identifier where no parent is held.
    #[tactic(auto, unfolding(crate::specs::Table::is_parent))]
    pub fn is_table(&self) -> bool
        ensures { result ≡ is_table self.now }
    {
        self.held || self.parent == 0
    }

    // Makes this the held parent.
    #[tactic(auto, unfolding(nbr_table_spec::specs::Calls::id_of, nbr_table_spec::specs::Calls::mark_of))]
    pub fn hold(&mut self, parent: Option<u64>)
        ensures { self.new ≡ record { places = self.old.places; held = mark_of parent; parent = id_of parent } }
    {
        self.held = parent.is_some();
        self.parent = parent.unwrap_or(0);
    }
}

impl From<&Table> for TableForm {
    ghost from_gives = { λ table form. form ≡ form_of table.now };

    #[tactic(auto, unfolding(nbr_table_spec::specs::Calls::id_of, nbr_table_spec::specs::Calls::mark_of))]
    fn from(table: &Table) -> TableForm {
        TableForm {
            held: table.parent.is_some(),
            parent: table.parent.unwrap_or(0),
            places: table.places,
        }
    }
}

impl TryFrom<&TableForm> for Table {
    type Error = Refusal;

    ghost try_from_gives = { λ form result. result ≡ tried form.now };

    fn try_from(form: &TableForm) -> Result<Table, Refusal> {
        if !form.is_table() {
            return Err(Refusal::OutOfLimits);
        }
        Ok(Table {
            places: form.places,
            parent: form.held_parent(),
        })
    }
}

// Cites each theorem, so that the gate fails if the proof of one goes.
pub fn theorems()
    ensures forms_are_tables { FormsAreTables }
    ensures tables_are_forms { TablesAreForms }
    ensures refusals_change_nothing { RefusalsChangeNothing }
    ensures calls_agree { CallsAgree }
    ensures evaluations_agree { EvaluationsAgree }
    ensures changes_are_flagged { ChangesAreFlagged }
    ensures parents_do_not_flap { ParentsDoNotFlapInC }
    ensures at_most_101_changes { AtMost101ChangesInC }
    ensures none_refused { NoneRefusedInC }
    ensures witnessed { Witnessed }
{}
