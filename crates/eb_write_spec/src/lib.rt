// Writing a record: its frame in the order on air (specs/Frame.antt), the limits within which it can be written (specs/Limits.antt), what the
// call answers and leaves in the buffer (specs/Write.antt, and specs/Form.antt for C), and when each number is given (specs/Claims.antt),
// with the laws that the crates above share. The crate `eb_write` does it.
#![tactic(auto)]

ghost use Rattle.std.specs.Prelude.{◌≡◌};
ghost use Rattle.eb_write_spec.specs.Write.{written_of};

use refusal::{DONE, Refusal};

// The answer of a call as C has it: its number and, if the frame was written, its length, else 0.
#[repr(C)]
#[derive(Clone, Copy)]
pub struct Written {
    pub number: u8,
    pub length: usize,
}

impl From<Result<usize, Refusal>> for Written {
    ghost from_gives = { λ answer written. written ≡ written_of answer };

    fn from(answer: Result<usize, Refusal>) -> Written {
        match answer {
            Ok(length) => Written {
                number: DONE,
                length,
            },
            Err(refusal) => Written {
                number: refusal.number(),
                length: 0,
            },
        }
    }
}
