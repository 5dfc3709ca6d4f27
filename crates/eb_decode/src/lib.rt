// The decoder: from the bytes of a frame and the offsets that the walk noted to the record, in the form without enums. One test in front
// says whether the noted elements lie inside the frame; behind it everything is read without a test.
#![tactic(auto, using(crate::proofs::ElementLaws::elements, crate::proofs::FixedLaws::fixing, crate::proofs::FormLaws::forms, crate::proofs::HeaderLaws::heading, eb_read_spec::proofs::InsideLaws::inside))]

ghost use Rattle.std.specs.Prelude.{◌≡◌, true};
ghost use Rattle.eb_record_spec.specs.Form.{is_beacon};
ghost use Rattle.eb_read_spec.specs.Form.{decoded_form};

use eb_record_spec::BeaconForm;

mod elements;
mod fixed;
mod header;
pub mod inside;

// The record at the offsets of a walk, and the blank one if an element does not lie inside the frame.
pub fn decode(s: &[u8], walk: ie_walk_spec::Walk) -> BeaconForm
    ensures answer { result ≡ decoded_form s.now walk }
    ensures record { is_beacon result ≡ true }
{
    if inside::is_inside(s, walk) {
        let header = header::header_at(s);
        return BeaconForm {
            sequenced: header.sequenced,
            sequence: header.sequence,
            pan: header.pan,
            extended: header.extended,
            source: header.source,
            synchronization: elements::synchronization_at(s, walk.synchronization),
            timeslot: elements::template_at(s, walk.timeslot, walk.timeslotend),
            hopping: s[walk.hopping],
            slotframe: elements::slotframe_at(s, walk.slotframe),
            joining: elements::joining_at(s, walk.joining, walk.joiningend),
        };
    }
    eb_record::blank_form()
}
