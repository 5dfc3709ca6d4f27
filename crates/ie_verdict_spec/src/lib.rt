// Whether a known element is as it should be: for each element a row of tests on plain numbers, in the order of the rules
// (specs/Verdict.antt), with their laws.
#![tactic(auto)]

// Kinds of known elements. The kind of a short sub-element is its ID: synchronization.
pub const SYNCHRONIZATION: u64 = 0x1A;
// Slotframe and link.
pub const SLOTFRAME: u64 = 0x1B;
// Timeslot.
pub const TIMESLOT: u64 = 0x1C;
// The kind of a long sub-element is 0x80 and its ID: channel hopping.
pub const HOPPING: u64 = 0x80 + 0x9;
// The kind of an element in an IETF group is 0x100 and its subtype: joining information.
pub const JOINING: u64 = 0x100 + 2;

// The offsets of the elements that were taken, each 0 if there was none: those of the walk, as it has them, since `part_fault`
// (specs/Verdict.antt) and `seen_of` (ie_walk_spec) say it so.
#[derive(Clone, Copy)]
pub struct Seen {
    pub synchronization: usize,
    pub timeslot: usize,
    pub hopping: usize,
    pub slotframe: usize,
    pub joining: usize,
}
