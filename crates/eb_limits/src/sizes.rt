// The numbers of bytes of a record's parts in its frame, and of the frame as a whole (eb_write_spec/specs/Frame.antt).
ghost use Rattle.std.specs.Prelude.{◌≡◌, true, ◌+◌, ◌≤◌, min, length, drop};
ghost use Rattle.octets_spec.specs.Choice.{if_on};
ghost use Rattle.eb_write_spec.specs.Frame.{sequence_bytes, address_bytes, last_width, template_size, group_size, joining_size, frame_of, frame_length};
ghost use Rattle.eb_write_spec.specs.Limits.{fits};

use eb_record_spec::{JoiningInformation, TimeslotTemplate};
use mac_header_spec::{Address, SequenceNumber};

// The bytes of a short address.
const SHORT_SIZE: usize = 2;
// The bytes of an extended address.
const EXTENDED_SIZE: usize = 8;

// The bytes of a sequence number.
#[tactic(auto, using(eb_write_spec::proofs::LengthLaws::length_le), unfolding(eb_write_spec::specs::Frame::sequence_bytes))]
pub fn sequence_size(sequence: SequenceNumber) -> usize
    ensures { (result ≡ length (sequence_bytes sequence)) × (result ≤ 1) }
{
    match sequence {
        SequenceNumber::Absent => 0,
        SequenceNumber::Number(_) => 1,
    }
}

// The bytes of an address.
#[tactic(auto, using(eb_write_spec::proofs::LengthLaws::length_le), unfolding(eb_write_spec::specs::Frame::address_bytes))]
pub fn address_size(address: Address) -> usize
    ensures { (result ≡ length (address_bytes address)) × (result ≤ 8) }
{
    match address {
        Address::Short(_) => SHORT_SIZE,
        Address::Extended(_) => EXTENDED_SIZE,
    }
}

// The bytes of each of the last two timings.
pub fn last_width(timings: &[u32; 12]) -> u8
    ensures { (result ≡ last_width (drop 10 timings.now)) × (result ≤ 3) }
{
    if timings[10] < crate::OVER_2_BYTES {
        if timings[11] < crate::OVER_2_BYTES {
            return 2;
        }
        return 3;
    }
    3
}

// The bytes of a timeslot element behind its descriptor: the ID, and of the timings ten of two bytes and two of the last width.
#[tactic(auto, unfolding(eb_write_spec::specs::Frame::template_size, octets_spec::specs::Choice::if_on))]
pub fn template_size(template: TimeslotTemplate) -> usize
    ensures { (result ≡ template_size template) × (result ≤ 27) }
{
    if template.timed {
        return 21 + 2 * last_width(&template.timings) as usize;
    }
    1
}

// The bytes of the MLME group behind its descriptor, with a timeslot element and so many links: synchronization has 8, the timeslot
// element's descriptor 2, hopping 3, and what stands before the links 7.
#[tactic(auto, unfolding(eb_write_spec::specs::Frame::group_size))]
pub fn group_size(template: TimeslotTemplate, count: u16) -> usize
    ensures { (result ≡ group_size template count) × (result ≤ 327722) }
{
    20 + template_size(template) + 5 * count as usize
}

// The bytes of joining information behind its descriptor: the subtype, 4 of flags and priorities, 8 of the address if P is set, and the
// network ID.
#[tactic(auto, unfolding(eb_write_spec::specs::Frame::joining_size, octets_spec::specs::Choice::if_on))]
pub fn joining_size(joining: JoiningInformation) -> usize
    ensures { (result ≡ joining_size joining) × (result ≤ 268) }
{
    if joining.proxied {
        return 13 + joining.length as usize;
    }
    5 + joining.length as usize
}

// The bytes of joining information with its descriptor, none if it is absent.
#[tactic(auto, unfolding(octets_spec::specs::Choice::if_on))]
fn joining_part(joining: JoiningInformation) -> usize
    ensures { (result ≡ if_on joining.present (2 + joining_size joining) 0) × (result ≤ 270) }
{
    if joining.present {
        return 2 + joining_size(joining);
    }
    0
}

// The bytes of a frame: the formula for every record, and the length of the frame for a record within the limits. Frame control, PAN,
// destination, the header list's terminator and the MLME group's descriptor have 2 bytes each.
pub fn frame_length(beacon: eb_record_spec::Beacon) -> usize
    ensures formula { result ≡ frame_length beacon }
    ensures frame { fits beacon ≡ true → result ≡ length (frame_of beacon) }
{
    10 + sequence_size(beacon.sequence)
        + address_size(beacon.source)
        + group_size(beacon.timeslot, beacon.slotframe.count)
        + joining_part(beacon.joining)
}

// The number of entries in use of an array of 16, and 16 for any number over 16.
pub fn at_most_16(count: u16) -> usize
    ensures { (result ≡ min count 16) × (result ≤ 16) }
{
    usize::from(count.min(16))
}
