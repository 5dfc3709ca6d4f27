// The walk over a frame's elements. It notes where each known element lies, where the first fault is, and how many elements were
// skipped; nothing is decoded. Definitions (specs/Walk.antt) and their laws; the crate `ie_walk` walks.
#![tactic(auto)]

// What the walk has found. Offsets are 0 for an element that was not taken, and the fault for none: no element starts at 0. Numbers, and no
// Options: specs/Walk.antt defines the walk on this struct, and the theorems `AcceptedLiesInside` and `SomeFrameHasJoiningInformation`
// (eb_read_spec) speak of its offsets as numbers.
#[derive(Clone, Copy, Default)]
pub struct Walk {
    pub fault: usize,
    pub faulty: usize,
    pub skipped: usize,
    pub synchronization: usize,
    pub timeslot: usize,
    pub timeslotend: usize,
    pub hopping: usize,
    pub slotframe: usize,
    pub joining: usize,
    pub joiningend: usize,
}

// How the reader of an MLME group ended: with what the whole list gives, or behind the group, where the payload list goes on. No Result: both
// ways hold a walk, and neither is a failure.
#[derive(Clone, Copy)]
pub enum GroupEnd {
    Whole(Walk),
    Passed(Walk),
}

// How the header list ended: its fault and the fault's offset, how many elements were skipped, and where the payload list begins, 0 if
// none follows. Numbers as in `Walk`, which takes them over.
#[derive(Clone, Copy)]
pub struct HeaderListEnd {
    pub fault: usize,
    pub faulty: usize,
    pub skipped: usize,
    pub payload: usize,
}
