// Writing a beacon for C: the record comes by value in its form without enums.
ghost use Rattle.std.specs.Prelude.{◌≡◌, length};
ghost use Rattle.eb_write_spec.specs.Claims.{FormNumbers};
ghost use Rattle.eb_write_spec.specs.Form.{form_written, buffer_after_form};
ghost use Rattle.eb_record_spec.specs.Form.{beacon_of};
ghost use Rattle.eb_round_trip_spec.specs.ReadBack.{WrittenAsSaid};

use eb_record_spec::{Beacon, BeaconForm};
use eb_write_spec::Written;

// Writes a record's frame at the start of a lent buffer. Refused in this order: a form that is no record's, or a record outside the limits
// (8); a frame longer than 125 bytes (1); a buffer shorter than the frame (9). A refused call leaves the buffer as it was, with length 0.
#[unsafe(no_mangle)]
pub extern "C" fn tesolvagna_beacon_write(buffer: &mut [u8], beacon: BeaconForm) -> Written
    ensures answer { result ≡ form_written beacon (length buffer.old) }
    ensures buffer { buffer.new ≡ buffer_after_form beacon buffer.old }
    ensures numbers { FormNumbers }
    ensures as_said { WrittenAsSaid result.number result.length buffer.new (beacon_of beacon) }
{
    match Beacon::try_from(beacon) {
        Ok(beacon) => Written::from(eb_write::write(buffer, beacon)),
        Err(refusal) => Written::from(Err(refusal)),
    }
}
