// Writing acknowledgements: the frame of a record, put into a lent buffer. Nothing is stored before the last check.
#![tactic(auto)]

ghost use Rattle.std.specs.Prelude.{◌≡◌, length};
ghost use Rattle.eb_write_spec.specs.Write.{answer_for, buffer_for, written_of};
ghost use Rattle.ack_write_spec.specs.Frame.{frame_of};
ghost use Rattle.ack_write_spec.specs.Limits.{is_correction, fits};
ghost use Rattle.ack_write_spec.specs.Claims.{WriteNumbers, NeverTooLong};
ghost use Rattle.ack_round_trip_spec.specs.ReadBack.{WrittenAsSaid};

use ack_record_spec::Ack;
use eb_write::Record;
use refusal::Refusal;

mod frame;

// The least correction in microseconds.
const LEAST_CORRECTION: i32 = -2048;
// The greatest.
const MOST_CORRECTION: i32 = 2047;

// Whether a correction has 12 bits.
fn is_correction(correction: i32) -> bool
    ensures { result ≡ is_correction correction }
{
    (correction >= LEAST_CORRECTION) & (correction <= MOST_CORRECTION)
}

// Whether a record is within the limits: by its types everything is but the correction.
fn within_limits(ack: Ack) -> bool
    ensures { result ≡ fits ack }
{
    eb_limits::sequence_fits(ack.sequence)
        & eb_limits::address_fits(ack.destination)
        & eb_limits::address_fits(ack.source)
        & is_correction(ack.correction)
}

// An acknowledgement as a record that has a frame.
#[derive(Clone, Copy)]
struct AckFrame(Ack);

impl Record for AckFrame {
    ghost fits = { λ it. fits it.0 };

    ghost frame = { λ it. frame_of it.0 };

    fn within_limits(&self) -> bool {
        within_limits(self.0)
    }

    fn frame_length(&self) -> usize {
        frame::frame_length(self.0)
    }

    fn put_frame(&self, buffer: &mut [u8]) {
        if is_correction(self.0.correction) {
            frame::put_frame(buffer, self.0);
        }
    }
}

// Writes a record's frame at the start of a lent buffer, and answers its length. A frame has at most 25 bytes, so that none is refused for its
// length.
pub fn write(buffer: &mut [u8], ack: Ack) -> Result<usize, Refusal>
    ensures answer { written_of result ≡ answer_for (fits ack) (frame_of ack) (length buffer.old) }
    ensures buffer { buffer.new ≡ buffer_for (fits ack) (frame_of ack) buffer.old }
    ensures numbers { WriteNumbers }
    ensures length { NeverTooLong }
    ensures as_said { WrittenAsSaid (written_of result).number (written_of result).length buffer.new ack }
{
    eb_write::write_record(buffer, &AckFrame(ack))
}
