// What a log of calls on a table comes to: definitions (specs/) and the types that they speak of.
// The rules are those of docs/RULES.md, Parents do not flap.
#![tactic(auto)]

// The most rows that a log may have.
pub const MOST_ROWS: usize = 65535;

// The kinds of calls, as a log has them: numbers, and no enum, since C lends it (the C interface).
pub const ADVERTISE: u8 = 0;

pub const REPORT: u8 = 1;

pub const FORGET: u8 = 2;

pub const EVALUATE: u8 = 3;

// The highest kind that a row of a log may have.
pub const HIGHEST_KIND: u8 = EVALUATE;

// A call that a row of a log makes, with what it is given besides the table.
#[derive(Clone, Copy, Debug, PartialEq, Eq)]
pub enum Call {
    Advertise { id: u64, rank: u16 },
    Report { id: u64, attempts: u16, acked: bool },
    Forget { id: u64 },
    Evaluate,
}

// What a log comes to besides the table, which is lent: how many evaluations there were, how many of them changed the parent, all
// rises of the held parent's cost between one evaluation and the next, its cost on entry to the first and on exit from the
// last, and whether the claim applies: at least one evaluation, and at each an eligible parent on entry.
#[derive(Clone, Copy)]
pub struct Outcome {
    pub evaluations: u32,
    pub changes: u32,
    pub rises: u64,
    pub first: u32,
    pub last: u32,
    pub applies: bool,
}

// The counts of an outcome, on the way: until the end, `applies` says that each evaluation so far had an eligible parent on entry.
#[derive(Clone, Copy)]
pub struct Counts {
    pub evaluations: u32,
    pub changes: u32,
    pub rises: u64,
    pub first: u32,
    pub last: u32,
    pub applies: bool,
}

// What one evaluation shows: whether the parent changed, the held parent's cost on entry and on exit, and whether the
// parent held on entry is eligible.
#[derive(Clone, Copy)]
pub struct Visit {
    pub change: bool,
    pub entry: u32,
    pub exit: u32,
    pub eligible: bool,
}
