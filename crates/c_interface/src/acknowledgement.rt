// Acknowledgements for C: a record comes and goes by value in its form without enums.
ghost use Rattle.std.specs.Prelude.{◌≡◌, length};
ghost use Rattle.eb_write_spec.specs.Write.{answer_for, buffer_for};
ghost use Rattle.ack_record_spec.specs.Record.{ack_of};
ghost use Rattle.ack_write_spec.specs.Frame.{frame_of};
ghost use Rattle.ack_write_spec.specs.Limits.{form_fits};
ghost use Rattle.ack_write_spec.specs.Claims.{FormNumbers, NeverTooLong};
ghost use Rattle.ack_read_spec.specs.Read.{read_ack, form_reading};
ghost use Rattle.ack_grammar_spec.specs.Claims.{FormReadAsSaid};
ghost use Rattle.ack_round_trip_spec.specs.ReadBack.{WrittenAsSaid};

use ack_read_spec::AckReading;
use ack_record_spec::{Ack, AckForm};
use eb_write_spec::Written;

// The number of a frame and its record, which is the blank one if the frame is refused: done exactly with the record that the bytes say
// by the grammar.
#[unsafe(no_mangle)]
pub extern "C" fn tesolvagna_ack_read(s: &[u8]) -> AckReading
    ensures answer { result ≡ form_reading (read_ack s.now) }
    ensures as_said { FormReadAsSaid s.now result.number result.ack }
{
    ack_read::read_form(s)
}

// Writes a record's frame at the start of a lent buffer. Refused in this order: a form that is no record's, or a record outside the limits
// (8); a buffer shorter than the frame (9). A refused call leaves the buffer as it was, with length 0.
#[unsafe(no_mangle)]
pub extern "C" fn tesolvagna_ack_write(buffer: &mut [u8], ack: AckForm) -> Written
    ensures answer { result ≡ answer_for (form_fits ack) (frame_of (ack_of ack)) (length buffer.old) }
    ensures buffer { buffer.new ≡ buffer_for (form_fits ack) (frame_of (ack_of ack)) buffer.old }
    ensures numbers { FormNumbers }
    ensures length { NeverTooLong }
    ensures as_said { WrittenAsSaid result.number result.length buffer.new (ack_of ack) }
{
    match Ack::try_from(ack) {
        Ok(ack) => Written::from(ack_write::write(buffer, ack)),
        Err(refusal) => Written::from(Err(refusal)),
    }
}
