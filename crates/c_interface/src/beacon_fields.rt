// The fields of a beacon's record for C: the record comes by value in its form without enums.
ghost use Rattle.std.specs.Prelude.{◌≡◌};
ghost use Rattle.eb_record_spec.specs.Form.{beacon_of};
ghost use Rattle.eb_fields_spec.specs.Fields.{content_at};

use eb_fields_spec::Content;
use eb_record_spec::BeaconForm;

// The content of a record's field by its place in the list of fields; absent behind the last.
#[unsafe(no_mangle)]
pub extern "C" fn tesolvagna_beacon_field(beacon: BeaconForm, index: usize) -> Content
    ensures { result ≡ content_at (beacon_of beacon) index }
{
    eb_fields::content(eb_record::beacon_of(beacon), index)
}
