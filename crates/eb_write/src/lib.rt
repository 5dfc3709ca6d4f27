// Writing a record's frame into a lent buffer: of any record that has one, and so of a beacon. Nothing is stored before the last check.
#![tactic(auto)]

ghost use Rattle.std.specs.Prelude.{ℕ, ◌≡◌, Bool, true, List, length};
ghost use Rattle.octets_spec.specs.Number.{stored};
ghost use Rattle.eb_write_spec.specs.Write.{answer_for, buffer_for, written_in, buffer_after, written_of};
ghost use Rattle.eb_write_spec.specs.Claims.{WriteNumbers};
ghost use Rattle.eb_write_spec.specs.Frame.{frame_of};
ghost use Rattle.eb_write_spec.specs.Limits.{fits};
ghost use Rattle.eb_round_trip_spec.specs.ReadBack.{WrittenAsSaid};

use eb_record_spec::Beacon;
use refusal::Refusal;

// The bytes of the longest frame.
const LONGEST_FRAME: usize = 125;

// A record that has a frame: whether it is within the limits of writing, and what its frame is.
pub trait Record {
    ghost fits: { Self → Bool };

    ghost frame: { Self → List ℕ };

    // Whether it is within the limits.
    fn within_limits(&self) -> bool
        ensures { result ≡ fits self.now };

    // The bytes of its frame, if it is within the limits.
    fn frame_length(&self) -> usize
        ensures { fits self.now ≡ true → result ≡ length (frame self.now) };

    // Its frame at the buffer's start, if it is within the limits; past the buffer's end nothing is stored.
    fn put_frame(&self, buffer: &mut [u8])
        ensures { fits self.now ≡ true → buffer.new ≡ stored buffer.old 0 (frame self.now) };
}

impl Record for Beacon {
    ghost fits = { fits };

    ghost frame = { frame_of };

    fn within_limits(&self) -> bool {
        eb_limits::within_limits(*self)
    }

    fn frame_length(&self) -> usize {
        eb_limits::sizes::frame_length(*self)
    }

    fn put_frame(&self, buffer: &mut [u8]) {
        eb_frame::put_frame(buffer, *self)
    }
}

// Writes the frame of any record at the start of a lent buffer, and answers its length.
pub fn write_record<R: Record>(buffer: &mut [u8], given: &R) -> Result<usize, Refusal>
    ensures answer { written_of result ≡ answer_for (R.fits given.now) (R.frame given.now) (length buffer.old) }
    ensures buffer { buffer.new ≡ buffer_for (R.fits given.now) (R.frame given.now) buffer.old }
{
    if !given.within_limits() {
        return Err(Refusal::OutOfLimits);
    }
    let length = given.frame_length();
    if LONGEST_FRAME < length {
        return Err(Refusal::FrameTooLong);
    }
    if buffer.len() < length {
        return Err(Refusal::BufferTooShort);
    }
    given.put_frame(buffer);
    Ok(length)
}

// Writes a beacon's frame at the start of a lent buffer, and answers its length.
pub fn write(buffer: &mut [u8], beacon: Beacon) -> Result<usize, Refusal>
    ensures answer { written_of result ≡ written_in beacon (length buffer.old) }
    ensures buffer { buffer.new ≡ buffer_after beacon buffer.old }
    ensures numbers { WriteNumbers }
    ensures as_said { WrittenAsSaid (written_of result).number (written_of result).length buffer.new beacon }
{
    write_record(buffer, &beacon)
}
