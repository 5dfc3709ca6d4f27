// Writing a record and reading back what was written: every record that can be written comes back as itself. An acknowledgement's call of this
// kind (`ack_round_trip`) stands for itself: each is two calls, and a trait to name them would be longer than both.
#![tactic(auto)]

ghost use Rattle.std.specs.Prelude.{◌≡◌, length};
ghost use Rattle.eb_write_spec.specs.Write.{buffer_after};
ghost use Rattle.eb_read_spec.specs.Read.{answer_of};
ghost use Rattle.eb_round_trip_spec.specs.RoundTrip.{back_from};

use eb_record_spec::Beacon;
use refusal::Refusal;

// Writes a record's frame at the start of a lent buffer, and reads it there.
pub fn write_and_read(buffer: &mut [u8], beacon: Beacon) -> Result<Beacon, Refusal>
    ensures answer { answer_of result ≡ back_from beacon (length buffer.old) }
    ensures buffer { buffer.new ≡ buffer_after beacon buffer.old }
{
    let length = eb_write::write(buffer, beacon)?;
    eb_read::read(&buffer[..length])
}
