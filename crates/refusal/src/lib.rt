// Why a call can be refused, each reason with when it is given, and its number. The numbers stand in specs/Refusal.antt too, and in
// include/tesolvagna.h, with TESOLVAGNA_ in front.
#![tactic(auto)]

ghost use Rattle.std.specs.Prelude.{◌≡◌, ◌≤◌};
ghost use Rattle.refusal.specs.Refusal.{number_of, number_in};

// The number of a call that is done: nothing was refused.
pub const DONE: u8 = 0;

// Why a call is refused.
#[derive(Clone, Copy, Debug, PartialEq, Eq)]
pub enum Refusal {
    // The frame is longer than 125 bytes, or would be when written.
    FrameTooLong = 1,
    // A field, an element or an element's two descriptor bytes run past what encloses them.
    Cut = 2,
    // The frame's type is not that of the call (a beacon's is 0, an acknowledgement's 2), or its version is not 2.
    WrongType = 3,
    // The security bit is set.
    Secured = 4,
    // The addressing modes, PAN ID compression, the presence of elements or a beacon's destination are not of the accepted form.
    Addressing = 5,
    // An element has the wrong shape: its length or a bit of its descriptor is not as its kind has it.
    Shape = 6,
    // A required element is missing, or a known element is seen twice.
    MissingOrTwice = 7,
    // A number is outside its limits.
    OutOfLimits = 8,
    // The lent buffer is shorter than the frame to be written.
    BufferTooShort = 9,
    // The neighbour is not in the table.
    UnknownNeighbour = 10,
    // The neighbour is new, and all 32 places of the table are in use.
    TableFull = 11,
}

impl Refusal {
    // Its number, 1 to 11.
    pub fn number(self) -> u8
        ensures { result ≡ number_of self }
    {
        self as u8
    }
}

// The number of an answer: 0 where the call is done.
pub fn number_in<T: Copy>(answer: Result<T, Refusal>) -> u8
    ensures { result ≡ number_in answer }
{
    match answer {
        Ok(_) => DONE,
        Err(refusal) => refusal.number(),
    }
}
