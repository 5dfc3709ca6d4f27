// The neighbour table: its types, what each call answers (specs/), and the table without neighbours. A table goes in by value
// and comes back by value. The rules are those of docs/RULES.md, Neighbours.
#![tactic(auto)]

ghost use Rattle.std.specs.Prelude.{◌≡◌};
ghost use Rattle.nbr_table_spec.specs.Calls.{empty_table};

use nbr_metric_spec::Place;

// How many places a table has. The number of a place that is not there.
pub const PLACES: usize = 32;

// The most attempts that a place counts.
pub const MOST_COUNTED: u16 = 255;

// The most attempts that one report may say.
pub const MOST_REPORTED: u32 = 4;

// A parent is changed for one whose path cost is lower by more than this.
pub const HYSTERESIS: u32 = 640;

// 32 places, and beside them the held parent's identifier, where one is held.
#[derive(Clone, Copy)]
pub struct Table {
    pub places: [Place; 32],
    pub parent: Option<u64>,
}

// What a call stores, found out before the table changes: a place, and by number the one that it replaces (specs/Stores.antt).
#[derive(Clone, Copy)]
pub struct Store {
    pub at: usize,
    pub place: Place,
}

// Where a neighbour stands, and the lowest-numbered free place, by number.
#[derive(Clone, Copy)]
pub struct Found {
    pub at: Option<usize>,
    pub unused: Option<usize>,
}

// What a neighbour offers a node as its own rank, and its identifier: the lower is the better, by cost, then by identifier
// (specs/Offers.antt).
#[derive(Clone, Copy, PartialEq, Eq, PartialOrd, Ord)]
pub struct Offer {
    pub cost: u32,
    pub id: u64,
}

// What an evaluation settles: the parent that is held from now on, and the own rank, 65535 where there is no parent (RPL's infinite
// rank, which `chosen` and C's struct have too).
#[derive(Clone, Copy)]
pub struct Choice {
    pub parent: Option<u64>,
    pub rank: u16,
}

// What an evaluation looks for in the places: the lowest offer, and the place of the held parent, the blank one for none.
#[derive(Clone, Copy)]
pub struct Survey {
    pub best: Offer,
    pub held: Place,
}

// A choice with the place of the parent that was held before it, the blank one for none.
#[derive(Clone, Copy)]
pub struct Settlement {
    pub choice: Choice,
    pub held: Place,
}

// What an evaluation gives back: the table, and the own rank, 65535 where there is no parent.
#[derive(Clone, Copy)]
pub struct Evaluation {
    pub table: Table,
    pub rank: u16,
}

// A table without neighbours.
pub fn empty() -> Table
    ensures { result ≡ empty_table }
{
    Table {
        places: [nbr_metric_spec::blank(); 32],
        parent: None,
    }
}
