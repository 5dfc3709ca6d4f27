// What a field of a beacon's record holds. The list of the fields stands in specs/Fields.antt.
#![tactic(auto)]

ghost use Rattle.std.specs.Prelude.{◌≡◌};

// The kinds of content. They are numbers, since C has them (`TESOLVAGNA_CONTENT_ABSENT` and the others).
pub const ABSENT: u32 = 0;

pub const NUMBER: u32 = 1;

pub const SHORT: u32 = 2;

pub const EXTENDED: u32 = 3;

pub const OCTETS: u32 = 4;

// How many fields a record has.
pub const FIELDS: usize = 77;
// The places of the first field of each element behind the MAC header.
pub const SYNCHRONIZATION: usize = 3;

pub const TIMESLOT: usize = 5;

pub const HOPPING: usize = 18;

pub const SLOTFRAME: usize = 19;

pub const JOINING: usize = 70;

// The content of a field: its kind, and what that kind has. A number, and an address, short or extended, is in `number`; octets are the first
// `length` of `octets`. What a kind has not is 0. There is no padding. It is C's struct `tesolvagna_content`, so the kind is a number with all
// values beside it.
#[repr(C)]
#[derive(Clone, Copy, Debug, Default, PartialEq, Eq)]
pub struct Content {
    pub kind: u32,
    pub length: u32,
    pub number: u64,
    pub octets: [u8; 16],
}
