// Writing an acknowledgement and reading back what was written: every record that can be written comes back as itself.
#![tactic(auto)]

ghost use Rattle.std.specs.Prelude.{◌≡◌, length};
ghost use Rattle.eb_write_spec.specs.Write.{buffer_for};
ghost use Rattle.ack_write_spec.specs.Frame.{frame_of};
ghost use Rattle.ack_write_spec.specs.Limits.{fits};
ghost use Rattle.ack_read_spec.specs.Read.{answer_of};
ghost use Rattle.ack_round_trip_spec.specs.ReadBack.{back_from};

use ack_record_spec::Ack;
use refusal::Refusal;

// Writes a record's frame at the start of a lent buffer, and reads it there. `eb_round_trip` says the same of beacons: one function of both would take
// both calls from its caller, and these two lines are all there is.
pub fn write_and_read(buffer: &mut [u8], ack: Ack) -> Result<Ack, Refusal>
    ensures answer { answer_of result ≡ back_from ack (length buffer.old) }
    ensures buffer { buffer.new ≡ buffer_for (fits ack) (frame_of ack) buffer.old }
{
    let length = ack_write::write(buffer, ack)?;
    ack_read::read(&buffer[..length])
}
