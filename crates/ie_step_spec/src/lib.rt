// Information elements: what may stand at an offset of the header list, of the payload list and of an MLME group. Definitions
// (specs/) and their laws; the crate `ie_step` reads them.
#![tactic(auto)]

use refusal::Refusal;

// IDs, groups and subtypes are numbers of the frame, of any value; these are the ones that have a meaning here, and are matched as such.
// The ID that ends the header list; payload elements follow.
pub const HEADER_TERMINATION_1: u64 = 0x7E;
// The ID that ends the header list; no payload elements follow.
pub const HEADER_TERMINATION_2: u64 = 0x7F;
// The MLME group of the payload list.
pub const MLME: u64 = 0x1;
// The IETF group of the payload list (RFC 8137).
pub const IETF: u64 = 0x5;
// The group that ends the payload list.
pub const PAYLOAD_TERMINATION: u64 = 0xF;
// In an IETF group, the subtype of joining information (RFC 9032).
pub const JOINING_SUBTYPE: u64 = 2;
// The kind of a short sub-element is its ID, that of a long one its ID and this.
pub const LONG: u64 = 0x80;

// What stands at an offset of the header list: its end with nothing behind it, its end with the payload list behind it, an element
// with this ID and these bytes, or a fault.
#[derive(Clone, Copy)]
pub enum HeaderStep {
    End,
    Payload(usize),
    Element(u64, usize, usize),
    Fault(Refusal),
}

// What stands at an offset of the payload list: its end, an MLME group, joining information, something to be skipped, or a fault.
#[derive(Clone, Copy)]
pub enum OuterStep {
    End,
    Group(usize, usize),
    Joining(usize, usize),
    Skip(usize),
    Fault(Refusal),
}

// What stands at an offset of an MLME group: its end, a sub-element of this kind with these bytes, or a fault. A kind is a number: a frame may
// have any, and the grammar (eb_grammar_spec/specs/Grammar.antt) names them by their numbers.
#[derive(Clone, Copy)]
pub enum InnerStep {
    Back,
    Part(u64, usize, usize),
    Fault(Refusal),
}
