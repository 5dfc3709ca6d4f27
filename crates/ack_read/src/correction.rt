// The correction: which header element holds it, and what its two bytes say.
ghost use Rattle.std.specs.Prelude.{◌≡◌, ◌≢◌, ◌≤◌};
ghost use Rattle.refusal.specs.Refusal.{number_in};
ghost use Rattle.ie_walk_spec.specs.Walk.{header_list};
ghost use Rattle.ack_read_spec.specs.Read.{Says, element_fault, found_in, correction_of, place_of};

use ie_step_spec::HeaderStep;
use refusal::Refusal;

// The header element that holds the correction.
const CORRECTION: u64 = 0x1E;
// Bits 0 to 11 hold a number below this, from the half of it on a negative one.
const RANGE: i32 = 0x1000;

// The fault of an element, where the content of a correction before it starts at `content`.
fn element_fault(id: u64, from: usize, to: usize, content: Option<usize>) -> Result<(), Refusal>
    requires ordered { from ≤ to }
    requires started { content ≢ Some 0 }
    ensures { number_in result ≡ element_fault (record { id = id; from = from; to = to }) (place_of content) }
{
    if id != CORRECTION {
        return Ok(());
    }
    if to - from != 2 {
        return Err(Refusal::Shape);
    }
    if content.is_some() {
        return Err(Refusal::MissingOrTwice);
    }
    Ok(())
}

// Where the content of the correction starts in the header list from an offset to an end, or the list's first fault. The steps lead on by the
// bytes, and not one by one: so this is no `for`.
pub(crate) fn find(s: &[u8], at: usize, end: usize) -> Result<usize, Refusal>
    ensures { Says result (found_in (header_list s.now at end) 0) }
{
    let mut i = at;
    let mut content: Option<usize> = None;
    loop {
        match ie_step::header_step(s, i, end) {
            HeaderStep::End | HeaderStep::Payload(_) => {
                return content.ok_or(Refusal::MissingOrTwice);
            }
            HeaderStep::Element(id, from, to) => {
                element_fault(id, from, to, content)?;
                if id == CORRECTION {
                    content = Some(from);
                }
                i = to;
            }
            HeaderStep::Fault(refusal) => return Err(refusal),
        }
    }
}

// The correction of two bytes, in microseconds.
pub(crate) fn correction_of(word: u64) -> i32
    ensures { result ≡ correction_of word }
{
    let bits = (word % 0x1000) as i32;
    if bits < 0x800 {
        return bits;
    }
    bits - RANGE
}
