// The frame of a record, put at the start of a lent buffer; past its end nothing is stored.
#![tactic(auto)]

ghost use Rattle.std.specs.Prelude.{◌≡◌, [], ◌++◌, ◌+◌, ◌≤◌, ◌<◌, ◌^◌, length, take};
ghost use Rattle.octets_spec.specs.Choice.{if_on};
ghost use Rattle.octets_spec.specs.Number.{le_bytes, be_bytes, stored};
ghost use Rattle.eb_write_spec.specs.Frame.{suppressed_bit, sequence_bytes, address_mode, address_bytes, control_word, mac_header_bytes, header_termination1, header_descriptor, ietf_group, joining_subtype, group_descriptor, joining_word, joining_size, joining_bytes, beacon_group, frame_of};

use eb_record_spec::{Beacon, JoiningInformation};
use mac_header_spec::{Address, SequenceNumber};

// Frame control of every frame: PAN ID compression, elements present, a short destination, version 2.
const ALWAYS: u64 = 0x2A40;
// Frame control: the bit of a suppressed sequence number.
const SUPPRESSED: u64 = 0x100;
// Frame control: the lowest bit of the source's addressing mode.
const SOURCE_MODE: u64 = 0x4000;
// The addressing mode of a short address.
const SHORT: u64 = 2;
// The addressing mode of an extended address.
const EXTENDED: u64 = 3;
// The destination: all nodes.
const BROADCAST: u64 = 0xFFFF;
// The descriptor of header termination 1, whose length is 0.
const HEADER_TERMINATION_1: u64 = 0x3F00;
// What a number is multiplied by to stand behind two bytes.
const BYTE_2: u64 = 0x1_0000;
// The descriptor of the IETF group, with length 0.
const IETF_GROUP: u64 = 0xA800;
// The subtype of joining information in it.
const JOINING_SUBTYPE: u64 = 2;
// R in the word of flags and priorities.
const ROUTER: u64 = 0x8000_0000;
// P in the word of flags and priorities.
const PROXIED: u64 = 0x4000_0000;
// The lowest bit of the proxy priority in that word.
const PROXY_PRIORITY: u64 = 0x10_0000;
// The lowest bit of the rank priority in that word.
const RANK_PRIORITY: u64 = 0x100;

// The bit of frame control that says that there is no sequence number.
#[tactic(auto, unfolding(eb_write_spec::specs::Frame::suppressed_bit))]
pub fn suppressed_bit(sequence: SequenceNumber) -> u64
    ensures { (result ≡ suppressed_bit sequence) × (result ≤ 1) }
{
    match sequence {
        SequenceNumber::Absent => 1,
        SequenceNumber::Number(_) => 0,
    }
}

// The addressing mode of an address.
#[tactic(auto, unfolding(eb_write_spec::specs::Frame::address_mode))]
pub fn address_mode(address: Address) -> u64
    ensures { (result ≡ address_mode address) × (result ≤ 3) }
{
    match address {
        Address::Short(_) => SHORT,
        Address::Extended(_) => EXTENDED,
    }
}

#[tactic(auto, unfolding(eb_write_spec::specs::Frame::control_word))]
fn control_word(sequence: SequenceNumber, source: Address) -> u64
    ensures { (result ≡ control_word sequence source) × (result < 65536) }
{
    ALWAYS + suppressed_bit(sequence) * SUPPRESSED + address_mode(source) * SOURCE_MODE
}

// What the byte of a sequence number holds, if there is one.
#[tactic(auto, using(eb_write_spec::proofs::LengthLaws::length_le), unfolding(eb_write_spec::specs::Frame::sequence_bytes, octets_spec::specs::Number::le_bytes))]
pub fn sequence_number(sequence: SequenceNumber) -> u64
    ensures { (le_bytes (length (sequence_bytes sequence)) result ≡ sequence_bytes sequence) × (result < 256) }
{
    match sequence {
        SequenceNumber::Absent => 0,
        SequenceNumber::Number(number) => number as u64,
    }
}

// What the bytes of an address hold.
#[tactic(auto, using(eb_write_spec::proofs::LengthLaws::length_le), unfolding(eb_write_spec::specs::Frame::address_bytes))]
pub fn address_number(address: Address) -> u64
    ensures { le_bytes (length (address_bytes address)) result ≡ address_bytes address }
{
    match address {
        Address::Short(number) => number as u64,
        Address::Extended(number) => number,
    }
}

// Three numbers: frame control with the sequence number, the destination PAN with the destination FF FF, the source.
fn put_mac_header(buffer: &mut [u8], sequence: SequenceNumber, pan: u16, source: Address)
    ensures { buffer.new ≡ stored buffer.old 0 (mac_header_bytes sequence pan source) }
{
    let size = eb_limits::sizes::sequence_size(sequence);
    let first = control_word(sequence, source) + sequence_number(sequence) * BYTE_2;
    octets::put::put_le(buffer, 0, 2 + size as u8, first);
    octets::put::put_le(buffer, 2 + size, 4, pan as u64 + BROADCAST * BYTE_2);
    octets::put::put_le(
        buffer,
        6 + size,
        eb_limits::sizes::address_size(source) as u8,
        address_number(source),
    );
}

// The flags and priorities of joining information.
fn joining_word(joining: JoiningInformation) -> u64
    ensures { result ≡ joining_word joining }
{
    u64::from(joining.router) * ROUTER
        + u64::from(joining.proxied) * PROXIED
        + joining.proxy as u64 * PROXY_PRIORITY
        + joining.rank as u64 * RANK_PRIORITY
        + joining.pan as u64
}

// The used bytes of a network ID: bytes as they are, and not numbers of a width as the timings and links of `eb_mlme` are, so that its loop is its own.
fn put_network(buffer: &mut [u8], at: usize, used: &[u8])
    requires { (length used.now ≤ 16) × (at < 2 ^ 63 + 1024) }
    ensures { buffer.new ≡ stored buffer.old at used.now }
{
    for (i, byte) in used.iter().enumerate() {
        octets::put::put_le(buffer, at + i, 1, u64::from(*byte));
    }
}

// The rest of joining information: the address if P is set, the network ID.
fn put_joining_rest(buffer: &mut [u8], at: usize, joining: JoiningInformation)
    requires { at < 2 ^ 63 + 512 }
    ensures { buffer.new ≡ stored buffer.old at (if_on joining.proxied (be_bytes 8 joining.address) [] ++ take joining.length joining.network) }
{
    let width = 8 * u8::from(joining.proxied);
    let used = eb_limits::sizes::at_most_16(u16::from(joining.length));
    octets::put::put_be(buffer, at, width, joining.address);
    put_network(buffer, at + width as usize, &joining.network[..used]);
}

// The start of joining information: descriptor and subtype as one number of three bytes, then the flags and priorities.
fn put_joining_start(buffer: &mut [u8], at: usize, joining: JoiningInformation)
    requires { at < 2 ^ 63 + 512 }
    ensures { buffer.new ≡ stored buffer.old at (group_descriptor ietf_group (joining_size joining) ++ (le_bytes 1 joining_subtype ++ be_bytes 4 (joining_word joining))) }
{
    octets::put::put_le(
        buffer,
        at,
        3,
        eb_limits::sizes::joining_size(joining) as u64 + IETF_GROUP + JOINING_SUBTYPE * BYTE_2,
    );
    octets::put::put_be(buffer, at + 3, 4, joining_word(joining));
}

// Joining information, if it is there.
fn put_joining(buffer: &mut [u8], at: usize, joining: JoiningInformation)
    requires { at < 2 ^ 63 }
    ensures { buffer.new ≡ stored buffer.old at (joining_bytes joining) }
{
    if joining.present {
        put_joining_start(buffer, at, joining);
        put_joining_rest(buffer, at + 7, joining);
    }
}

// The bytes of the header list's terminator and of the MLME group, in which sixteen links at most are written.
fn before_joining(beacon: Beacon) -> usize
    ensures { (result ≡ 2 + length (beacon_group beacon)) × (result ≤ 327726) }
{
    let used = eb_limits::sizes::at_most_16(beacon.slotframe.count);
    4 + eb_limits::sizes::group_size(beacon.timeslot, used as u16)
}

// The elements: the header list's terminator, the MLME group, joining information.
fn put_elements(buffer: &mut [u8], at: usize, beacon: Beacon)
    requires { at ≤ 15 }
    ensures { buffer.new ≡ stored buffer.old at (header_descriptor header_termination1 0 ++ (beacon_group beacon ++ joining_bytes beacon.joining)) }
{
    let size = before_joining(beacon);
    octets::put::put_le(buffer, at, 2, HEADER_TERMINATION_1);
    eb_mlme::put_group(
        buffer,
        at + 2,
        beacon.synchronization,
        beacon.timeslot,
        beacon.hopping,
        beacon.slotframe,
    );
    put_joining(buffer, at + size, beacon.joining);
}

// The frame at the buffer's start.
pub fn put_frame(buffer: &mut [u8], beacon: Beacon)
    ensures { buffer.new ≡ stored buffer.old 0 (frame_of beacon) }
{
    let sequence = beacon.sequence;
    let source = beacon.source;
    let at = 6 + eb_limits::sizes::sequence_size(sequence) + eb_limits::sizes::address_size(source);
    put_mac_header(buffer, sequence, beacon.pan, source);
    put_elements(buffer, at, beacon);
}
