// The MAC header, which stands before a frame's elements: frame control, the fixed fields, and where the elements start and end. Nothing here
// says which frames are accepted.
#![tactic(auto)]

// The version of IEEE 802.15.4-2015.
pub const VERSION_2015: u64 = 2;
// The mode of a short address.
pub const SHORT: u64 = 2;
// The mode of an extended address.
pub const EXTENDED: u64 = 3;

// The parts of a frame control word that matter, each as a number. Modes of addresses: 2 short, 3 extended.
#[derive(Clone, Copy)]
pub struct Control {
    pub kind: u64,
    pub security: u64,
    pub compression: u64,
    pub suppressed: u64,
    pub elements: u64,
    pub destination: u64,
    pub version: u64,
    pub source: u64,
}

// Where the fixed fields start, and where the elements behind them start and end. The sequence number, if any, stands at 2.
#[derive(Clone, Copy)]
pub struct FieldOffsets {
    pub pan: usize,
    pub destination: usize,
    pub source: usize,
    pub elements: usize,
    pub end: usize,
}

// An address: short (2 bytes) or extended (8 bytes).
#[derive(Clone, Copy)]
pub enum Address {
    Short(u16),
    Extended(u64),
}

// The sequence number, which a frame may suppress.
#[derive(Clone, Copy)]
pub enum SequenceNumber {
    Absent,
    Number(u8),
}

// The fields of a MAC header, and where the elements behind them start and end. Frame control says which kind an address has, and whether there
// is a sequence number; it is 0 where there is none.
#[derive(Clone, Copy)]
pub struct MacHeader {
    pub control: Control,
    pub sequence: u8,
    pub pan: u16,
    pub destination: u64,
    pub source: u64,
    pub elements: usize,
    pub end: usize,
}
