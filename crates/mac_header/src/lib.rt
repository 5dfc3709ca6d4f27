// The MAC header of a frame: frame control taken apart, the fixed fields, and where the elements start and end. Nothing here says which
// frames are accepted.
#![tactic(auto)]

ghost use Rattle.std.specs.Prelude.{◌≡◌, ◌≤◌, ◌<◌, get_or, length};
ghost use Rattle.octets_spec.specs.Choice.{if_eq};
ghost use Rattle.octets_spec.specs.Number.{le_at};
ghost use Rattle.mac_header_spec.specs.Control.{control_of};
ghost use Rattle.mac_header_spec.specs.Fields.{address_length, offsets_of, mac_header_of, AddressesFit};

use mac_header_spec::{Control, FieldOffsets, MacHeader};

// Where the parts of frame control begin, each as the value of its lowest bit: security enabled.
const SECURITY: u64 = 0x0008;
// PAN ID compression.
const PAN_ID_COMPRESSION: u64 = 0x0040;
// Sequence number suppression.
const SEQUENCE_SUPPRESSION: u64 = 0x0100;
// Information elements present.
const ELEMENTS_PRESENT: u64 = 0x0200;
// The destination's address mode.
const DESTINATION_MODE: u64 = 0x0400;
// The frame version.
const VERSION: u64 = 0x1000;
// The source's address mode.
const SOURCE_MODE: u64 = 0x4000;

// The parts of a frame control word.
pub fn control_of(word: u64) -> Control
    ensures { result ≡ control_of word }
{
    Control {
        kind: word % 8,
        security: word / SECURITY % 2,
        compression: word / PAN_ID_COMPRESSION % 2,
        suppressed: word / SEQUENCE_SUPPRESSION % 2,
        elements: word / ELEMENTS_PRESENT % 2,
        destination: word / DESTINATION_MODE % 4,
        version: word / VERSION % 4,
        source: word / SOURCE_MODE % 4,
    }
}

// The bytes of an address.
fn address_length(mode: u64) -> usize
    ensures { (result ≡ address_length mode) × (result ≤ 8) }
{
    if mode == mac_header_spec::EXTENDED {
        return 8;
    }
    2
}

// The PAN ID stands behind frame control and the sequence number.
fn pan_offset(suppressed: u64) -> usize
    ensures { (result ≡ if_eq suppressed 0 3 2) × (result ≤ 3) }
{
    if suppressed == 0 {
        return 3;
    }
    2
}

// Where the fields and the elements of a frame of this size with this control word are.
pub fn offsets_of(control: Control, size: usize) -> FieldOffsets
    ensures { result ≡ offsets_of control size }
{
    let pan = pan_offset(control.suppressed);
    let destination = pan + 2;
    let source = destination + address_length(control.destination);
    FieldOffsets {
        pan,
        destination,
        source,
        elements: source + address_length(control.source),
        end: size,
    }
}

// Frame control, and where the fields and the elements of a frame are. Where the frame ends before them, the missing bytes read as 0.
#[inline(always)]
pub fn layout(s: &[u8]) -> (Control, FieldOffsets)
    ensures control { result.0 ≡ control_of (le_at 2 s.now 0) }
    ensures offsets { result.1 ≡ offsets_of result.0 (length s.now) }
{
    let control = control_of(octets::get::le(s, 0, 2));
    (control, offsets_of(control, s.len()))
}

// The sequence number, 0 where it is suppressed.
pub fn sequence(s: &[u8], suppressed: u64) -> u8
    ensures { result ≡ if_eq suppressed 0 (get_or s.now 2 0) 0 }
{
    octets::choose(suppressed, 0, octets::get::byte(s, 2), 0) as u8
}

// An address of a mode. Both widths are read: no branch depends on what a frame happens to hold.
pub fn address(s: &[u8], mode: u64, at: usize) -> u64
    ensures { (result ≡ le_at (address_length mode) s.now at) × ((mode ≡ 3 → ⊥) → result < 0x1_0000) }
{
    let long = octets::get::le(s, at, 8);
    let short = octets::get::le(s, at, 2);
    octets::choose(mode, mac_header_spec::EXTENDED, long, short)
}

// The fields of a frame's MAC header. Where the frame ends before them, the missing bytes read as 0. Inlined into each of its callers, since each
// reads frames in one pass (docs/SPEED.md).
#[inline(always)]
pub fn read(s: &[u8]) -> MacHeader
    ensures fields { result ≡ mac_header_of s.now }
    ensures short { AddressesFit result }
{
    let (control, offsets) = layout(s);
    let pan = offsets.pan;
    let destination = offsets.destination;
    let source = offsets.source;
    MacHeader {
        control,
        sequence: sequence(s, control.suppressed),
        pan: octets::get::le(s, pan, 2) as u16,
        destination: address(s, control.destination, destination),
        source: address(s, control.source, source),
        elements: offsets.elements,
        end: offsets.end,
    }
}
