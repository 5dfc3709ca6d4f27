// Whether a record is within the limits of writing (eb_write_spec/specs/Limits.antt), and how many bytes its frame has (`sizes`). A number
// that fits by its type is not tested, but for what a variant holds.
#![tactic(auto)]

ghost use Rattle.std.specs.Prelude.{◌≡◌};
ghost use Rattle.eb_write_spec.specs.Limits.{sequence_fits, synchronization_fits, template_fits, link_fits, link_unused, slotframe_fits, proxy_fits, present_fits, absent_fits, joining_fits, fits};
ghost use Rattle.eb_record_spec.specs.Form.{address_fits};
ghost use Rattle.eb_limits.specs.Tested.{TestedBy};

use eb_record_spec::{JoiningInformation, Link, Slotframe, Synchronization, TimeslotTemplate};
use mac_header_spec::{Address, SequenceNumber};

pub mod sizes;

// The first number that one byte does not hold.
const OVER_1_BYTE: u16 = 0x100;
// The first number that two bytes do not hold.
const OVER_2_BYTES: u32 = 0x1_0000;
// The first number that three bytes do not hold.
const OVER_3_BYTES: u32 = 0x100_0000;
// The first number that five bytes do not hold.
const OVER_5_BYTES: u64 = 0x100_0000_0000;
// The last number that eight bytes hold.
const LAST_8_BYTES: u64 = 0xFFFF_FFFF_FFFF_FFFF;
// The first number that 7 bits do not hold.
const OVER_7_BITS: u8 = 0x80;
// The first number that 12 bits do not hold.
const OVER_12_BITS: u16 = 0x1000;

// Whether a sequence number has one byte: by its type it always has.
#[tactic(auto, unfolding(eb_write_spec::specs::Limits::sequence_fits))]
pub fn sequence_fits(sequence: SequenceNumber) -> bool
    ensures { result ≡ sequence_fits sequence }
{
    match sequence {
        SequenceNumber::Absent => true,
        SequenceNumber::Number(number) => u16::from(number) < OVER_1_BYTE,
    }
}

// Whether an address has the bytes that its kind has: by its type it always has.
#[tactic(auto, unfolding(eb_record_spec::specs::Form::address_fits))]
pub fn address_fits(address: Address) -> bool
    ensures { result ≡ address_fits address }
{
    match address {
        Address::Short(number) => u32::from(number) < OVER_2_BYTES,
        Address::Extended(number) => number <= LAST_8_BYTES,
    }
}

#[tactic(auto, unfolding(eb_write_spec::specs::Limits::synchronization_fits))]
fn synchronization_fits(synchronization: Synchronization) -> bool
    ensures { result ≡ synchronization_fits synchronization }
{
    synchronization.asn < OVER_5_BYTES
}

// Whether a test holds of every item of a list. It is put to each, whatever it said of those before: compiled, its answers are no branches.
fn all<T: Copy, F: Fn(T) -> bool>(items: &[T], test: F) -> bool
    requires { F.IsAlwaysCallable test }
    ensures { TestedBy (F.post test) items.now result }
{
    let mut ok = true;
    for item in items {
        ok &= test(*item);
    }
    ok
}

fn template_fits(template: TimeslotTemplate) -> bool
    ensures { result ≡ template_fits template }
{
    if template.timed {
        return all(&template.timings[..10], |timing| timing < OVER_2_BYTES)
            & all(&template.timings[10..], |timing| timing < OVER_3_BYTES);
    }
    (template.id == 0) & all(&template.timings, |timing| timing == 0)
}

// The channel offset fits by its type.
#[tactic(auto, unfolding(eb_write_spec::specs::Limits::link_fits))]
fn link_fits(link: Link, size: u16) -> bool
    ensures { result ≡ link_fits size link }
{
    (link.timeslot < size) & (link.options < OVER_1_BYTE)
}

#[tactic(auto, unfolding(eb_write_spec::specs::Limits::link_unused))]
fn link_unused(link: Link) -> bool
    ensures { result ≡ link_unused link }
{
    (link.timeslot == 0) & (link.channel_offset == 0) & (link.options == 0)
}

// Whether a slotframe is within the limits of writing.
fn slotframe_fits(slotframe: Slotframe) -> bool
    ensures { result ≡ slotframe_fits slotframe }
{
    let size = slotframe.size;
    let used = sizes::at_most_16(slotframe.count);
    (0 < size)
        & (0 < slotframe.count)
        & (slotframe.count < 17)
        & all(&slotframe.links[..used], |link| link_fits(link, size))
        & all(&slotframe.links[used..], link_unused)
}

// The address fits by its type; without P it is unused.
#[tactic(auto, unfolding(eb_write_spec::specs::Limits::proxy_fits, octets_spec::specs::Choice::if_on))]
fn proxy_fits(joining: JoiningInformation) -> bool
    ensures { result ≡ proxy_fits joining }
{
    if joining.proxied {
        return true;
    }
    joining.address == 0
}

fn present_fits(joining: JoiningInformation) -> bool
    ensures { result ≡ present_fits joining }
{
    let used = sizes::at_most_16(u16::from(joining.length));
    (joining.proxy < OVER_7_BITS)
        & (joining.rank < OVER_12_BITS)
        & proxy_fits(joining)
        & (joining.length < 17)
        & all(
            &joining.network[..used],
            |byte| u16::from(byte) < OVER_1_BYTE,
        )
        & all(&joining.network[used..], |byte| byte == 0)
}

fn absent_fits(joining: JoiningInformation) -> bool
    ensures { result ≡ absent_fits joining }
{
    !joining.router
        & !joining.proxied
        & (joining.proxy == 0)
        & (joining.rank == 0)
        & (joining.pan == 0)
        & (joining.address == 0)
        & (joining.length == 0)
        & all(&joining.network, |byte| byte == 0)
}

// Whether joining information is within the limits of writing.
#[tactic(auto, unfolding(eb_write_spec::specs::Limits::joining_fits, octets_spec::specs::Choice::if_on))]
fn joining_fits(joining: JoiningInformation) -> bool
    ensures { result ≡ joining_fits joining }
{
    if joining.present {
        return present_fits(joining);
    }
    absent_fits(joining)
}

// Whether a record is within the limits of writing.
pub fn within_limits(beacon: eb_record_spec::Beacon) -> bool
    ensures { result ≡ fits beacon }
{
    sequence_fits(beacon.sequence)
        & address_fits(beacon.source)
        & synchronization_fits(beacon.synchronization)
        & template_fits(beacon.timeslot)
        & slotframe_fits(beacon.slotframe)
        & joining_fits(beacon.joining)
}
