// The frame of an acknowledgement, put at the start of a lent buffer; past its end nothing is stored.
ghost use Rattle.std.specs.Prelude.{◌≡◌, true, ◌++◌, ◌≤◌, ◌<◌, length};
ghost use Rattle.octets_spec.specs.Number.{stored};
ghost use Rattle.eb_write_spec.specs.Frame.{address_bytes};
ghost use Rattle.ack_write_spec.specs.Frame.{compression_bit, control_word, mac_header_bytes, correction_bits, correction_word, correction_bytes, frame_of};
ghost use Rattle.ack_write_spec.specs.Limits.{is_correction};

use ack_record_spec::Ack;
use mac_header_spec::Address;

// Frame control of every acknowledgement: type 2, elements present, version 2.
const ALWAYS: u64 = 0x2202;
// Frame control: PAN ID compression.
const COMPRESSION: u64 = 0x40;
// Frame control: the bit of a suppressed sequence number.
const SUPPRESSED: u64 = 0x100;
// Frame control: the lowest bit of the destination's addressing mode.
const DESTINATION_MODE: u64 = 0x400;
// Frame control: the lowest bit of the source's addressing mode.
const SOURCE_MODE: u64 = 0x4000;
// The descriptor of the correction: length 2, ID 0x1E.
const CORRECTION: u64 = 0x0F02;
// What a negative correction is counted from.
const RANGE: i32 = 0x1000;
// The content of the correction: not acknowledged.
const NACK: u64 = 0x8000;
// What a number is multiplied by to stand behind two bytes.
const BYTE_2: u64 = 0x1_0000;

#[tactic(auto, unfolding(ack_write_spec::specs::Frame::compression_bit))]
fn compression_bit(destination: Address, source: Address) -> u64
    ensures { (result ≡ compression_bit destination source) × (result ≤ 1) }
{
    match (destination, source) {
        (Address::Extended(_), Address::Extended(_)) => 0,
        _ => 1,
    }
}

fn control_word(ack: Ack) -> u64
    ensures { (result ≡ control_word ack) × (result < 65536) }
{
    ALWAYS
        + compression_bit(ack.destination, ack.source) * COMPRESSION
        + eb_frame::suppressed_bit(ack.sequence) * SUPPRESSED
        + eb_frame::address_mode(ack.destination) * DESTINATION_MODE
        + eb_frame::address_mode(ack.source) * SOURCE_MODE
}

fn put_addresses(buffer: &mut [u8], at: usize, destination: Address, source: Address)
    requires { at ≤ 5 }
    ensures { buffer.new ≡ stored buffer.old at (address_bytes destination ++ address_bytes source) }
{
    let size = eb_limits::sizes::address_size(destination);
    octets::put::put_le(
        buffer,
        at,
        size as u8,
        eb_frame::address_number(destination),
    );
    octets::put::put_le(
        buffer,
        at + size,
        eb_limits::sizes::address_size(source) as u8,
        eb_frame::address_number(source),
    );
}

// Frame control with the sequence number as one number, the PAN, the addresses.
fn put_mac_header(buffer: &mut [u8], ack: Ack)
    ensures { buffer.new ≡ stored buffer.old 0 (mac_header_bytes ack) }
{
    let size = eb_limits::sizes::sequence_size(ack.sequence);
    let first = control_word(ack) + eb_frame::sequence_number(ack.sequence) * BYTE_2;
    octets::put::put_le(buffer, 0, 2 + size as u8, first);
    octets::put::put_le(buffer, 2 + size, 2, ack.pan as u64);
    put_addresses(buffer, 4 + size, ack.destination, ack.source);
}

fn correction_bits(correction: i32) -> u64
    requires { is_correction correction ≡ true }
    ensures { (result ≡ correction_bits correction) × (result < 4096) }
{
    if correction < 0 {
        return (correction + RANGE) as u64;
    }
    correction as u64
}

fn correction_word(correction: i32, nack: bool) -> u64
    requires { is_correction correction ≡ true }
    ensures { (result ≡ correction_word correction nack) × (result < 65536) }
{
    correction_bits(correction) + u64::from(nack) * NACK
}

// The correction: its descriptor and its content as one number.
fn put_correction(buffer: &mut [u8], at: usize, correction: i32, nack: bool)
    requires { is_correction correction ≡ true }
    ensures { buffer.new ≡ stored buffer.old at (correction_bytes correction nack) }
{
    octets::put::put_le(
        buffer,
        at,
        4,
        CORRECTION + correction_word(correction, nack) * BYTE_2,
    );
}

// The bytes of the fixed fields: frame control and PAN have 2 each.
fn header_length(ack: Ack) -> usize
    ensures { (result ≡ length (mac_header_bytes ack)) × (result ≤ 21) }
{
    4 + eb_limits::sizes::sequence_size(ack.sequence)
        + eb_limits::sizes::address_size(ack.destination)
        + eb_limits::sizes::address_size(ack.source)
}

// The bytes of the frame: the correction has 4.
pub(crate) fn frame_length(ack: Ack) -> usize
    ensures { (result ≡ length (frame_of ack)) × (result ≤ 25) }
{
    header_length(ack) + 4
}

// The frame at the buffer's start.
pub(crate) fn put_frame(buffer: &mut [u8], ack: Ack)
    requires { is_correction ack.correction ≡ true }
    ensures { buffer.new ≡ stored buffer.old 0 (frame_of ack) }
{
    put_mac_header(buffer, ack);
    put_correction(buffer, header_length(ack), ack.correction, ack.nack);
}
